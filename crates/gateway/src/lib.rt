// The gateway's calls over memory that the caller lends (document 01, "What the gateway holds" and "Refusals by number"): its own words (crate
// own_words), then two words for each circuit's unfinished frame (document 02, W-205), whose octets are lent beside them. No call has a precondition;
// each promises the answer, the memory and the reply buffer of the definition's step (crate model).
// Callers: isis_gr, isis_gr_chunks, isis_gr_why, samples.
#![tactic(auto)]

pub mod calls; // calls.rt: the fourteen calls
pub mod config; // config.rt: the settings that setup takes
pub mod whole; // whole.rt: the calls of document 01 on the memory whole; its size
pub mod pieces; // pieces.rt: begin, chunk and end; the octets of unfinished frames
pub mod setup; // setup.rt: setup's parts, circuit by circuit, for isis_gr
