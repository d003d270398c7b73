// The room of a circuit that has no record: 16 places on a LAN, one on P2P.
ghost use Rattle.std.specs.Prelude.{◌≡◌, ◌<◌, length, set};
ghost use Rattle.slots.specs.Slots.{table_of, room_words, places};
ghost use Rattle.room.specs.Table.{empty_place, empty_room};

use basics::kind::CircuitKind;
use slots::slot::{PLACES, clear, close};

fn empty_at(words: &mut [u64], i: usize, kind: CircuitKind)
    requires { (length words.old ≡ room_words) × (i < places) }
    ensures { table_of words.new ≡ set (table_of words.old) i (empty_place kind i) }
{
    if i == 0 || matches!(kind, CircuitKind::Lan) {
        clear(words, i);
    } else {
        close(words, i);
    }
}

// Whatever the words were.
#[inline(always)]
pub fn open_room(words: &mut [u64], kind: CircuitKind)
    requires { length words.old ≡ room_words }
    ensures { table_of words.new ≡ empty_room kind }
{
    for i in 0..PLACES {
        empty_at(words, i, kind);
    }
}
