// How a call ends, and what it orders (an order is an action the caller must take; document 01, "Timers while Restarting").
ghost use Rattle.std.specs.Prelude.{◌≡◌, cond, ℕ};
ghost use Rattle.timer_parts.specs.declared.t1.Entry.{Entry};
ghost use Rattle.settings.specs.declared.serving.Serving.{Serving};
ghost use Rattle.timers.specs.Timers.{finish, cancel_t2s};
ghost use Rattle.timers.specs.Memory.{timers_of};
ghost use Rattle.timers.specs.Outcome.{overload_of, outcome_with, outcome_of, also_set, overloaded};

use crate::head::{Head, cancel_t2s, end_restart};
use basics::levels::Levels;
use settings::mode::{is_running, is_starting};
use settings::serving::Serving;
use timer_parts::t2::spf_due;
use timer_parts::t3::is_expired;

// Overload is ordered set, clear, both in this order, or not at all.
#[derive(Clone, Copy)]
pub enum Overload {
    Quiet,
    Set,
    Clear,
    Both,
}

// Idle: the mode was Running. Goes: it is Restarting or Starting still. Ended: it is Running from this call on. With the levels whose SPF is
// ordered, and the overload order.
#[derive(Clone, Copy)]
pub enum TimerOutcome {
    Idle,
    Goes { spf: Levels, overload: Overload },
    Ended { spf: Levels, overload: Overload },
}

// What a call leaves, where the mode was not Running.
#[derive(Clone, Copy)]
pub struct Settled {
    pub head: Head,
    pub outcome: TimerOutcome,
}

#[tactic(auto, unfolding(crate::specs::Outcome::overload_of))]
fn overload_of(set: bool, clear: bool) -> Overload
    ensures { result ≡ overload_of set clear }
{
    match (set, clear) {
        (false, false) => Overload::Quiet,
        (true, false) => Overload::Set,
        (false, true) => Overload::Clear,
        (true, true) => Overload::Both,
    }
}

#[tactic(auto, unfolding(crate::specs::Outcome::outcome_with))]
fn outcome_with(ended: bool, spf: Levels, overload: Overload) -> TimerOutcome
    ensures { result ≡ outcome_with ended spf overload }
{
    if ended {
        TimerOutcome::Ended { spf, overload }
    } else {
        TimerOutcome::Goes { spf, overload }
    }
}

// From the timers before a call, after its own step, and after all of it.
#[tactic(auto, unfolding(crate::specs::Outcome::outcome_of, crate::specs::Outcome::overload_due, crate::specs::Memory::timers_of))]
fn outcome_of(before: Head, mid: Head, after: Head) -> TimerOutcome
    ensures { (v : Serving) (d e f : ℕ → Entry) → result ≡ outcome_of (timers_of v before d) (timers_of v mid e) (timers_of v after f) }
{
    let was = is_expired(before.t3);
    let is = is_expired(mid.t3);
    let ended = is_running(after.mode);
    let overload = overload_of(!was & is, ended & (is | is_starting(before.mode)));
    outcome_with(ended, spf_due(before.t2s, after.t2s), overload)
}

fn also_set(overload: Overload) -> Overload
    ensures { result ≡ also_set overload }
{
    match overload {
        Overload::Quiet | Overload::Set => Overload::Set,
        Overload::Clear | Overload::Both => Overload::Both,
    }
}

fn set_if(up: bool, overload: Overload) -> Overload
    ensures { result ≡ cond up (also_set overload) overload }
{
    if up { also_set(overload) } else { overload }
}

// The outcome of an accepted hello; `up`: in the mode Starting its record becomes UP.
#[tactic(auto, unfolding(crate::specs::Outcome::overloaded))]
pub fn overload_for(up: bool, o: TimerOutcome) -> TimerOutcome
    ensures { result ≡ overloaded up o }
{
    match o {
        TimerOutcome::Idle => TimerOutcome::Idle,
        TimerOutcome::Goes { spf, overload } => TimerOutcome::Goes {
            spf,
            overload: set_if(up, overload),
        },
        TimerOutcome::Ended { spf, overload } => TimerOutcome::Ended {
            spf,
            overload: set_if(up, overload),
        },
    }
}

// The tail of every call: T2 cancelling, then the end of the mode. `mid` is what the call's own step left.
pub fn settle(v: Serving, before: Head, mid: Head) -> Settled
    ensures { (d e : ℕ → Entry) → (timers_of v result.head e ≡ finish (cancel_t2s (timers_of v mid e))) × (result.outcome ≡ outcome_of (timers_of v before d) (timers_of v mid e) (finish (cancel_t2s (timers_of v mid e)))) }
{
    let head = end_restart(cancel_t2s(v, mid));
    Settled {
        head,
        outcome: outcome_of(before, mid, head),
    }
}
