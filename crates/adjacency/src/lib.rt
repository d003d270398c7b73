// What one accepted hello does to one record (the adjacency entry of ISO 10589): functions of values, no memory. Documents: document 01,
// "The state step" and "Marks and holding time"; RFC 8706, 3.2; RFC 5303, 3.2. Callers: slots, room, gateway; its types: metric and those above.
#![tactic(auto)]

pub mod record; // record.rt: the record and its state
pub mod keys; // keys.rt: what a record is known by
pub mod step; // step.rt: refusals 7 and 8, and the state step
pub mod marks; // marks.rt: lines 1 to 5: marks, expiry and reply
pub mod react; // react.rt: the frame's whole effect
pub mod duty; // duty.rt: who sends the CSNPs
pub mod place; // place.rt: a place of a room
