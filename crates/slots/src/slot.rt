// A place's four words: System ID, MAC, expiry, and the small fields (word.rt).
ghost use Rattle.std.specs.Prelude.{◌≡◌, ◌+◌, ◌*◌, ◌<◌, ℕ, length, get_or, set};
ghost use Rattle.slots.specs.Slots.{slot_of, table_of, record_word, FitRecord, room_words, places};

use crate::word::{data_at, mark_at, state_word};
use adjacency::place::Slot;
use adjacency::record::{Key, Record, State, state_expiry};

// The words of a place, the places of a room, and the words of a room.
pub const PLACE_WORDS: usize = 4;

pub const PLACES: usize = 16;

pub const ROOM_WORDS: usize = PLACES * PLACE_WORDS;

fn slot_of(system: u64, mac: u64, expiry: u64, w: u64) -> Slot
    ensures { result ≡ slot_of system mac expiry w }
{
    let tag = w % 4;
    if tag == 0 {
        return Slot::Free;
    }
    if tag == 3 {
        return Slot::Closed;
    }
    let data = data_at(expiry, w);
    let state = if tag == 1 {
        State::Init(data)
    } else {
        State::Up(data, mark_at(w))
    };
    let level = (w / 256 % 256) as u8;
    Slot::Held(Record {
        key: Key { level, system, mac },
        state,
    })
}

// What a place holds.
pub fn load(words: &[u64], i: usize) -> Slot
    requires { (length words.now ≡ room_words) × (i < places) }
    ensures { result ≡ get_or (table_of words.now) i Slot.Free }
{
    slot_of(
        words[PLACE_WORDS * i],
        words[PLACE_WORDS * i + 1],
        words[PLACE_WORDS * i + 2],
        words[PLACE_WORDS * i + 3],
    )
}

fn record_word(entry: Record) -> u64
    ensures value { result ≡ record_word entry }
    ensures fit_record { FitRecord entry }
{
    state_word(entry.state) + 256 * u64::from(entry.key.level)
}

// A record, at a place.
pub fn store(words: &mut [u64], i: usize, entry: Record)
    requires { (length words.old ≡ room_words) × (i < places) }
    ensures { table_of words.new ≡ set (table_of words.old) i (Slot.Held entry) }
{
    words[PLACE_WORDS * i] = entry.key.system;
    words[PLACE_WORDS * i + 1] = entry.key.mac;
    words[PLACE_WORDS * i + 2] = state_expiry(entry.state);
    words[PLACE_WORDS * i + 3] = record_word(entry);
}

// The expiry word of a place without a record: past every clock, so that a tick passes the place by this word alone. It means nothing.
const NEVER: u64 = u64::MAX;

// A place without a record: its tag says which, whatever its other words are.
fn leave_empty(words: &mut [u64], i: usize, tag: u64)
    requires { (length words.old ≡ room_words) × (i < places) }
    ensures { (s : Slot) → ((system mac expiry : ℕ) → slot_of system mac expiry tag ≡ s) → table_of words.new ≡ set (table_of words.old) i s }
{
    words[PLACE_WORDS * i + 2] = NEVER;
    words[PLACE_WORDS * i + 3] = tag;
}

// No record stands at a place any more.
pub fn clear(words: &mut [u64], i: usize)
    requires { (length words.old ≡ room_words) × (i < places) }
    ensures { table_of words.new ≡ set (table_of words.old) i Slot.Free }
{
    leave_empty(words, i, 0);
}

// The circuit does not have this place.
pub fn close(words: &mut [u64], i: usize)
    requires { (length words.old ≡ room_words) × (i < places) }
    ensures { table_of words.new ≡ set (table_of words.old) i Slot.Closed }
{
    leave_empty(words, i, 3);
}
