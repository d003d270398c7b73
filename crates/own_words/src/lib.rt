// The calls of document 01 on the gateway's own words ("What the gateway holds" and "Refusals by number"): the control words, then a room for each
// circuit. Each function promises the answer, the words and the reply buffer of the definition's step (crate model).
// Caller: gateway, which lends these words of the memory whole; isis_gr_why takes asks_level.
#![tactic(auto)]

pub mod words; // words.rt: their size
pub mod frame; // frame.rt: receive
pub mod ticks; // ticks.rt: tick, release and clear
pub mod notices; // notices.rt: CSNP set complete, database complete
pub mod asks; // asks.rt: look up, link metric, flags of the next hello, the T1s that run
pub mod setup; // setup.rt: setup, and its parts
