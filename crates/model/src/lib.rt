// The gateway as a machine of calls: what every call answers, replies and leaves (definitions), and what is proved of every list of calls
// (document 01, "What the gateway holds", "Refusals by number" and "The runs of demand 3"). Code: the answers' types and the
// refusals' numbers. Users: gateway, isis_gr, samples, vectors.
#![tactic(auto)]

pub mod answers; // answers.rt: what the calls answer
pub mod numbers; // numbers.rt: the numbers of refusals
