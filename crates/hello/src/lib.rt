// The reader of hello frames: a refusal of 3 to 6, or the decoded hello (document 01, "Hello frames" and "TLVs read"; RFC 8500,
// 2; RFC 5303, 3.1). No state; callers: gateway, vectors; its types: adjacency, timer_parts and those above.
#![tactic(auto)]

pub mod header; // header.rt: the fixed header; refusals 3 and 4
pub mod three_way; // three_way.rt: the three-way adjacency TLV
pub mod reverse; // reverse.rt: the Reverse Metric TLV
pub mod faults; // faults.rt: where a refusal stands
pub mod read; // read.rt: a whole frame
