// The kind of a circuit (document 01, "What the gateway holds").
#[derive(Clone, Copy, PartialEq, Eq)]
pub enum CircuitKind {
    Lan,
    P2p,
}
