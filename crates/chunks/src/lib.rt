// A circuit's unfinished frame (document 02, W-205): begun with a source MAC, joined chunk by chunk, and dropped. Its length and MAC stand in
// two words, its octets in 1,500 octets, both lent. Any words and octets mean some unfinished frame, or none. Caller: gateway.
#![tactic(auto)]

pub mod slot; // slot.rt: the words and the octets of one circuit
