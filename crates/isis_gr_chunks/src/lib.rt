// Frames in chunks for C (document 02, W-205): begin, chunk and end, over numbers and slices, as crate isis_gr has the calls of document 01. It is a library of
// its own, so that a caller without such a radio links and lends nothing for it, and crate isis_gr is compiled without it. Callers: isis_gr_chunks_c, which exports
// them, and so C, by the header.
#![tactic(auto)]

pub mod exports; // exports.rt: the calls
