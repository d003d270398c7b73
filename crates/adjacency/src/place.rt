// A place of a circuit's room (document 01, "What the gateway holds").
use crate::record::Record;

// No record, a record, or a place that the circuit does not have: a P2P circuit has room for one.
#[derive(Clone, Copy)]
pub enum Slot {
    Free,
    Held(Record),
    Closed,
}
