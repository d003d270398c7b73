// The gateway's settings as setup takes them, which are in range (document 01, "What the gateway holds"; refusal 12), and which T1s they ask for
// (document 02, W-202). Functions of values; callers: timers, control, gateway; its types: those above.
#![tactic(auto)]

pub mod mode; // mode.rt: Running, Restarting or Starting
pub mod lengths; // lengths.rt: the lengths of T1 and T2, and T1's tries
pub mod circuit; // circuit.rt: one circuit's settings
pub mod serving; // serving.rt: which T1s the circuits have, and the levels that each serves
pub mod setup; // setup.rt: all settings
