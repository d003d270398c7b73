// The timers of a gateway that restarts or starts (document 01, "Timers while Restarting"; document 02, W-201 and W-202; RFC 8706, 3.1
// and 3.3): a head of plain values, and the entries of the T1s in lent words. No clock of its own; callers: control.
#![tactic(auto)]

pub mod head; // head.rt: the head, and the steps that need no entry
pub mod entries; // entries.rt: the T1s, whose entries stand in lent words
pub mod hellos; // hellos.rt: orders for hellos
pub mod outcome; // outcome.rt: what a call orders, and how it ends
pub mod events; // events.rt: each call's share
