// Who has the CSNP duty on a LAN: the greatest pair (priority, MAC) of those that have it before us (document 01, "Marks and holding time"; document
// 02, W-204).
ghost use Rattle.std.specs.Prelude.{◌≡◌, ◌<◌, length, get_or};
ghost use Rattle.slots.specs.Slots.{table_of, room_words, places};
ghost use Rattle.adjacency.specs.declared.place.Slot.TheVariants.{Free};
ghost use Rattle.reasons.specs.Duty.{priority_in, theirs, is_tie, ahead_of, duty_with, duty_at, duty_in};

use adjacency::duty::{Rank, is_outranked_by};
use adjacency::place::Slot;
use adjacency::record::{Record, State};
use reasons::why::Router;
use slots::slot::{PLACES, load};

fn priority_in(entry: Record) -> u8
    ensures { result ≡ priority_in entry }
{
    match entry.state {
        State::Init(data) | State::Up(data, _) => data.last.priority,
    }
}

fn router_of(entry: Record) -> Router
    ensures { result ≡ theirs entry }
{
    Router {
        system: entry.key.system,
        priority: priority_in(entry),
        mac: entry.key.mac,
    }
}

// One pair, and the lower System ID.
fn is_tie(best: Router, entry: Record) -> bool
    ensures { result ≡ is_tie best.system best.priority best.mac entry }
{
    priority_in(entry) == best.priority
        && entry.key.mac == best.mac
        && entry.key.system < best.system
}

// Whether a record goes before the router that had the duty.
fn is_ahead(own: Rank, best: Router, entry: Record) -> bool
    ensures { result ≡ ahead_of own best.system best.priority best.mac entry }
{
    let rank = Rank {
        level: own.level,
        priority: best.priority,
        mac: best.mac,
    };
    is_outranked_by(rank, entry) || is_outranked_by(own, entry) && is_tie(best, entry)
}

// Who has it, if not we, once a record is looked at too.
#[tactic(auto, unfolding(reasons::specs::Duty::duty_with))]
fn duty_with(own: Rank, duty: Option<Router>, entry: Record) -> Option<Router>
    ensures { result ≡ duty_with own duty entry }
{
    match duty {
        Some(best) => if is_ahead(own, best, entry) {
            Some(router_of(entry))
        } else {
            duty
        },
        None => if is_outranked_by(own, entry) {
            Some(router_of(entry))
        } else {
            None
        },
    }
}

fn duty_at(words: &[u64], i: usize, own: Rank, duty: Option<Router>) -> Option<Router>
    requires { (length words.now ≡ room_words) × (i < places) }
    ensures { result ≡ duty_at own duty (get_or (table_of words.now) i Free) }
{
    let Slot::Held(entry) = load(words, i) else {
        return duty;
    };
    duty_with(own, duty, entry)
}

// Of a room.
pub(crate) fn duty_in(words: &[u64], own: Rank) -> Option<Router>
    requires { length words.now ≡ room_words }
    ensures { result ≡ duty_in own (table_of words.now) }
{
    let mut duty = None;
    for i in 0..PLACES {
        duty = duty_at(words, i, own, duty);
    }
    duty
}
