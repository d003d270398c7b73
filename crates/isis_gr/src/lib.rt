// The gateway's calls for C (document 01, "What the gateway holds"): numbers and slices only, so that an answer is one word. No call has
// a precondition; each promises the number of the definition's answer (specs/Words.antt), and the memory and the reply buffer of
// crate gateway's call. Callers: isis_gr_c, which exports them, and so C, by a header that packs and unpacks.
#![tactic(auto)]

pub mod exports; // exports.rt: the calls
mod numbers; // numbers.rt: the parts of an answer as numbers
pub mod answers; // answers.rt: each answer as one word; that of a frame is for isis_gr_chunks
mod config; // config.rt: the settings of setup from octets
mod setup; // setup.rt: set up from those octets
mod faults; // faults.rt: which setting setup refuses
