// Why (document 02, W-204): what is asked, the reasons that are named, and which one it is: a definition over the step's outcome (crate model), with
// proofs that each reason named does hold and that "not so" is told exactly when the document says. Code: the types alone. Users: isis_gr_why.
#![tactic(auto)]

pub mod why; // why.rt: questions, calls and reasons
