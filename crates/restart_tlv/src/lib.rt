// The Restart TLV of hellos, type 211 (RFC 8706, 3.2): its flags, read and written. No state; callers: hello, adjacency, room, timer_parts.
#![tactic(auto)]

pub mod flags; // flags.rt: the flags, as a set
pub mod reader; // reader.rt: the TLV of a PDU
pub mod writer; // writer.rt: the TLV that answers a hello
