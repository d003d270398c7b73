// The parts of the restart timers, as functions of values (document 01, "Timers while Restarting"; document 02, W-201; RFC 8706, 3.1, 3.3.1
// and 3.3.2). No
// state and no clock of its own; callers: timers, gateway.
#![tactic(auto)]

pub mod heard; // heard.rt: what an accepted hello says to the timers
pub mod t1; // t1.rt: one T1
pub mod t2; // t2.rt: the T2 of each level
pub mod t3; // t3.rt: T3
