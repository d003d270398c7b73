// The IS Neighbours TLVs of a LAN hello, type 6 (document 01, "TLVs read"): any number of them, each a list of MACs of six octets.
// No state; caller: hello.
#![tactic(auto)]

pub mod search; // search.rt: a MAC in one value
pub mod lists; // lists.rt: all of these TLVs of a PDU
