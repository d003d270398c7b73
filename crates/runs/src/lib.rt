// Runs of the code: the calls of gateway over lent words, one after another from a set-up, are runs of model's step, so that every claim
// about lists of calls holds of them (document 01, "The runs of demand 3"). Definitions and proofs; no code.
#![tactic(auto)]
