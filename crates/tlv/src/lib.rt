// The TLVs of a PDU that the caller lends. No state; callers: neighbours, restart_tlv, hello.
// Positions count from 0 here; octet n of the standards stands at position n - 1.
#![tactic(auto)]

pub mod tlvs; // tlvs.rt: the walk and the finder
