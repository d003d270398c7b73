// Why (document 02, W-204): a call that tells the reason, over lent words, and its form for C. It makes the call in question on a second memory that
// the caller lends, by the very functions of crate gateway, and reads the reason off the two memories and the answer. Its own library for C, so that
// the other calls are compiled without it. Callers: programs; isis_gr_why_c, which exports it, and so C.
#![tactic(auto)]

pub mod call; // call.rt: the call
pub mod exports; // exports.rt: the call for C
pub mod words; // words.rt: the reason as two words
mod copy; // copy.rt: the words, copied
mod standing; // standing.rt: the record that is asked for
mod duty; // duty.rt: who has the CSNP duty
mod made; // made.rt: the call in question, made
mod tell; // tell.rt: the reason
mod frames; // frames.rt: why a frame ordered no CSNPs
