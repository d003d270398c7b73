// One circuit's room of records (the adjacency entries of ISO 10589), over the words of crate slots, and each call's share of it and of the
// reply buffer (document 01, "What the gateway holds", "Marks and holding time", and refusals 8 and 9). Nothing here sees another circuit
// or the timers. Callers: gateway.
#![tactic(auto)]

pub mod search; // search.rt: the place of a key, the first record, a router with the CSNP duty
pub mod place; // place.rt: the record with a key, where it is kept, and refusal 9
pub mod sweep; // sweep.rt: records removed by a tick or a release
pub mod empty; // empty.rt: an empty room
pub mod accept; // accept.rt: an accepted hello: refusals 8 and 9, the record, the reply
pub mod duty; // duty.rt: line 1's order
