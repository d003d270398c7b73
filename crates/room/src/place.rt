// Where the record of a key is kept, or would be, and what stands there.
ghost use Rattle.std.specs.Prelude.{◌≡◌, ◌<◌, length, set};
ghost use Rattle.slots.specs.Slots.{table_of, room_words, places};
ghost use Rattle.adjacency.specs.declared.place.Slot.TheVariants.{Held};
ghost use Rattle.room.specs.Table.{record_with, find};
ghost use Rattle.room.specs.Place.{Placed};

use crate::search::{find_key, first_free, state_at};
use adjacency::place::Slot;
use adjacency::record::{Key, Record, State};
use slots::slot::{PLACES, load, store};

// The state of the record with a key, and the place that it has or would take: PLACES where the room is full and no record has the key
// (refusal 9).
#[derive(Clone, Copy)]
pub struct Place {
    pub before: Option<State>,
    pub at: usize,
}

// The record with a key.
pub fn found(words: &[u64], key: Key) -> Option<State>
    requires { length words.now ≡ room_words }
    ensures { result ≡ find key (table_of words.now) }
{
    state_at(words, find_key(words, key.level, key.system, key.mac))
}

// The record of a key, and the place that it has or would take.
pub fn place_of(words: &[u64], key: Key) -> Place
    requires { length words.now ≡ room_words }
    ensures { Placed key (table_of words.now) result }
{
    let at = find_key(words, key.level, key.system, key.mac);
    if PLACES <= at {
        let before = None;
        let at = first_free(words);
        return Place { before, at };
    }
    let Slot::Held(entry) = load(words, at) else {
        let before = None;
        return Place { before, at };
    };
    let state = entry.state;
    let before = Some(state);
    Place { before, at }
}

// The record of a key, at its place.
pub fn store_state(words: &mut [u64], i: usize, key: Key, state: State)
    requires { (length words.old ≡ room_words) × (i < places) }
    ensures { table_of words.new ≡ set (table_of words.old) i (Held (record_with key state)) }
{
    store(words, i, Record { key, state });
}
