// Searches of a room, place by place. Where a place is asked for, the answer is how many come before it: its number from 0, or PLACES where there is none.
ghost use Rattle.std.specs.Prelude.{◌≡◌, length, get_or};
ghost use Rattle.slots.specs.Slots.{table_of, room_words};
ghost use Rattle.adjacency.specs.Place.{is_free, is_held, has_key};
ghost use Rattle.adjacency.specs.declared.place.Slot.TheVariants.{Free};
ghost use Rattle.room.specs.Table.{first_state, any_outranks};
ghost use Rattle.room.specs.Place.{first_of, state_in};

use adjacency::duty::Rank;
use adjacency::place::Slot;
use adjacency::record::{Key, State};
use slots::probe::{is_free_at, is_held_at, is_key_at, is_outranked_at};
use slots::slot::{PLACES, load};

// The place of the record with a key. The key comes in parts: a struct would lie on the caller's stack.
#[inline(always)]
pub fn find_key(words: &[u64], level: u8, system: u64, mac: u64) -> usize
    requires { length words.now ≡ room_words }
    ensures { result ≡ first_of (has_key (record { level = level; system = system; mac = mac })) (table_of words.now) }
{
    (0..PLACES)
        .find(|i| is_key_at(words, *i, Key { level, system, mac }))
        .unwrap_or(PLACES)
}

// The first place that is free.
pub fn first_free(words: &[u64]) -> usize
    requires { length words.now ≡ room_words }
    ensures { result ≡ first_of is_free (table_of words.now) }
{
    (0..PLACES)
        .find(|i| is_free_at(words, *i))
        .unwrap_or(PLACES)
}

fn first_held(words: &[u64]) -> usize
    requires { length words.now ≡ room_words }
    ensures { result ≡ first_of is_held (table_of words.now) }
{
    (0..PLACES)
        .find(|i| is_held_at(words, *i))
        .unwrap_or(PLACES)
}

// The state of the record at a place, if one stands there.
pub fn state_at(words: &[u64], i: usize) -> Option<State>
    requires { length words.now ≡ room_words }
    ensures { result ≡ state_in (get_or (table_of words.now) i Free) }
{
    if PLACES <= i {
        return None;
    }
    let Slot::Held(entry) = load(words, i) else {
        return None;
    };
    let state = entry.state;
    Some(state)
}

// The first record; a P2P room has one at most.
pub fn first_state(words: &[u64]) -> Option<State>
    requires { length words.now ≡ room_words }
    ensures { result ≡ first_state (table_of words.now) }
{
    state_at(words, first_held(words))
}

// Some router has the CSNP duty before us.
pub fn is_outranked(words: &[u64], rank: Rank) -> bool
    requires { length words.now ≡ room_words }
    ensures { result ≡ any_outranks rank (table_of words.now) }
{
    (0..PLACES).any(|i| is_outranked_at(words, i, rank))
}
