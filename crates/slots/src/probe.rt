// Questions about a place of the table, answered from the words they concern: no record is decoded but where its rank is compared.
ghost use Rattle.std.specs.Prelude.{◌≡◌, ◌+◌, ◌*◌, ◌<◌, length, get_or};
ghost use Rattle.slots.specs.Slots.{table_of, held_word, due_at, room_words, places};
ghost use Rattle.adjacency.specs.Place.{is_held, is_free, has_key, meets, expired_by, planned_state, outranked_at};
ghost use Rattle.adjacency.specs.declared.place.Slot.TheVariants.{Free};

use crate::slot::{PLACE_WORDS, load};
use adjacency::duty::{Rank, is_outranked_by};
use adjacency::place::Slot;
use adjacency::record::Key;

// The tag is INIT or UP.
fn is_held_word(w: u64) -> bool
    ensures { result ≡ held_word w }
{
    w % 4 != 0 && w % 4 != 3
}

// Whether the place is free.
pub fn is_free_at(words: &[u64], i: usize) -> bool
    requires { (length words.now ≡ room_words) × (i < places) }
    ensures { result ≡ is_free (get_or (table_of words.now) i Free) }
{
    words[PLACE_WORDS * i + 3] % 4 == 0
}

// Whether a record stands there.
pub fn is_held_at(words: &[u64], i: usize) -> bool
    requires { (length words.now ≡ room_words) × (i < places) }
    ensures { result ≡ is_held (get_or (table_of words.now) i Free) }
{
    is_held_word(words[PLACE_WORDS * i + 3])
}

// Whether the record with the key stands there. Field by field: as one expression `isis_gr_raw_receive` goes past its limit of stack.
pub fn is_key_at(words: &[u64], i: usize, key: Key) -> bool
    requires { (length words.now ≡ room_words) × (i < places) }
    ensures { result ≡ has_key key (get_or (table_of words.now) i Free) }
{
    if words[PLACE_WORDS * i] != key.system {
        return false;
    }
    if words[PLACE_WORDS * i + 1] != key.mac {
        return false;
    }
    let w = words[PLACE_WORDS * i + 3];
    if w / 256 % 256 != key.level as u64 {
        return false;
    }
    is_held_word(w)
}

// Where this is false no record at the place has expired.
pub fn is_due_at(words: &[u64], i: usize, clock: u64) -> bool
    requires { (length words.now ≡ room_words) × (i < places) }
    ensures { result ≡ due_at clock words.now i }
{
    words[PLACE_WORDS * i + 2] <= clock
}

// Whether a record stands there whose expiry is reached.
pub fn is_expired_at(words: &[u64], i: usize, clock: u64) -> bool
    requires { (length words.now ≡ room_words) × (i < places) }
    ensures { result ≡ meets (expired_by clock) (get_or (table_of words.now) i Free) }
{
    is_due_at(words, i, clock) && is_held_word(words[PLACE_WORDS * i + 3])
}

// Whether a Planned record stands there.
pub fn is_planned_at(words: &[u64], i: usize) -> bool
    requires { (length words.now ≡ room_words) × (i < places) }
    ensures { result ≡ meets planned_state (get_or (table_of words.now) i Free) }
{
    let w = words[PLACE_WORDS * i + 3];
    w % 4 == 2 && 2 <= w / 4 % 4
}

// Whether the router of a record there has the CSNP duty before us.
pub fn is_outranked_at(words: &[u64], i: usize, rank: Rank) -> bool
    requires { (length words.now ≡ room_words) × (i < places) }
    ensures { result ≡ outranked_at rank (get_or (table_of words.now) i Free) }
{
    let w = words[PLACE_WORDS * i + 3];
    if w % 4 != 2 || w / 256 % 256 != u64::from(rank.level) {
        return false;
    }
    let Slot::Held(entry) = load(words, i) else {
        return false;
    };
    is_outranked_by(rank, entry)
}
