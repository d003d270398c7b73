// What every crate stands on: octets as numbers, levels, circuit kinds, masks over circuits and over their T1s, and the refusals
// (document 01). No state; callers: all crates.
#![tactic(auto)]

pub mod octets; // octets.rt: big-endian numbers
pub mod bits; // bits.rt: a truth value as a digit
pub mod levels; // levels.rt: a set of levels
pub mod kind; // kind.rt: a LAN or a point-to-point circuit
pub mod mask; // mask.rt: a mask over circuits
pub mod places; // places.rt: a mask with two places for each circuit
pub mod refusal; // refusal.rt: every refusal, in the order checked
