// Everything of a gateway that is not one circuit's own records, in words that the caller lends: the settings, the clock and the timers
// (document 01, "What the gateway holds"). Any words mean some common part; what is stored is read back. Refusals and records are the
// caller's. Callers: gateway.
#![tactic(auto)]

pub mod words; // words.rt: where each thing stands; the circuits, the clock, the lengths
pub mod head; // head.rt: the mode and the timers' head in its words
pub mod timing; // timing.rt: an accepted hello, the notices, tick, and what is asked of the timers
pub mod pack; // pack.rt: settings packed into words
pub mod setup; // setup.rt: the settings stored, and the timers started
