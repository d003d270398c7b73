// The size of the gateway's own words.
use basics::mask::CIRCUITS;
use control::words::CONTROL_WORDS;
use slots::slot::ROOM_WORDS;

// The control words, then a room for each circuit.
pub const OWN_WORDS: usize = CONTROL_WORDS + ROOM_WORDS * CIRCUITS;
