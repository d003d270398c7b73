// What stays true of a gateway, whatever calls it gets (document 01, "What the gateway holds", "Marks and holding time" and "Timers while
// Restarting"): definitions and their proofs over the calls of model. No code.
#![tactic(auto)]
