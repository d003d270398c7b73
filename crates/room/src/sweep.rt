// Records removed: by a tick those whose expiry is reached, by a release those marked Planned.
ghost use Rattle.std.specs.Prelude.{◌≡◌, ◌<◌, ℕ, Bool, false, length, get_or};
ghost use Rattle.slots.specs.Slots.{table_of, room_words, places};
ghost use Rattle.adjacency.specs.declared.record.State.{State};
ghost use Rattle.adjacency.specs.Place.{meets, expired_by};
ghost use Rattle.adjacency.specs.declared.place.Slot.TheVariants.{Free};
ghost use Rattle.room.specs.Table.{any_expired, released};
ghost use Rattle.room.specs.Sweep.{Tells, Sweeps};

use slots::probe::{is_due_at, is_expired_at, is_planned_at};
use slots::slot::{PLACES, clear};

// Each record goes at whose place the closure answers true: whether any went. Where its answers are those of a test of the record's state, that
// is the test's sweep.
#[inline(always)]
fn sweep_in<F: Fn(&[u64], usize) -> bool>(words: &mut [u64], goes_at: F) -> bool
    requires room { length words.old ≡ room_words }
    requires pre { (f : F) (ws : _) (i : ℕ) → length ws.now ≡ room_words → i < places → F.pre f ws i }
    ensures { (test : State → Bool) → Tells (F.post goes_at) test → Sweeps test (table_of words.old) (table_of words.new) result }
{
    let mut any = false;
    for i in 0..PLACES {
        if goes_at(words, i) {
            clear(words, i);
            any = true;
        }
    }
    any
}

// Where this is false no record of the room has expired: nearly always, and then a tick reads one word of each place and writes none.
fn is_due(words: &[u64], clock: u64) -> bool
    requires { length words.now ≡ room_words }
    ensures { result ≡ false → any_expired clock (table_of words.now) ≡ false }
{
    (0..PLACES).any(|i| is_due_at(words, i, clock))
}

// A tick: whether any record went.
pub fn expire(words: &mut [u64], clock: u64) -> bool
    requires { length words.old ≡ room_words }
    ensures { Sweeps (expired_by clock) (table_of words.old) (table_of words.new) result }
{
    if !is_due(words, clock) {
        return false;
    }
    sweep_in(words, |words, i| is_expired_at(words, i, clock))
}

// A release.
pub fn release(words: &mut [u64])
    requires { length words.old ≡ room_words }
    ensures { table_of words.new ≡ released (table_of words.old) }
{
    sweep_in(words, is_planned_at);
}
