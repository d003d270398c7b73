// The head of the timers: the mode, the mask of running T1s, the T2 of each level, and T3. Each function says what it does to all
// timers, whatever the entries are; where it takes no `v`, also whatever T1s there are.
ghost use Rattle.std.specs.Prelude.{◌≡◌, ℕ};
ghost use Rattle.basics.specs.Levels.{levels_with};
ghost use Rattle.timer_parts.specs.declared.t1.Entry.{Entry};
ghost use Rattle.settings.specs.declared.serving.Serving.{Serving};
ghost use Rattle.timers.specs.Timers.{with_t1s, with_t3, waits, expire_t2s, cancel_t2s, notice_t2s, tick_t3, finish, count_runs, lowest_runs};
ghost use Rattle.timers.specs.Memory.{joined, timers_of, t1_bits};

use basics::levels::Levels;
use basics::places::{count_places, lowest_circuit, share_place};
use settings::mode::Mode;
use settings::serving::Serving;
use timer_parts::t2::{T2s, any_t2, cancel_both, expire_both, notice_both};
use timer_parts::t3::{T3, expires_t3};

#[derive(Clone, Copy)]
pub struct Head {
    pub mode: Mode,
    pub mask: u16,
    pub t2s: T2s,
    pub t3: T3,
}

// The head with another mask of running T1s.
#[tactic(auto, unfolding(crate::specs::Timers::with_t1s, crate::specs::Memory::timers_of))]
pub fn with_mask(h: Head, mask: u16) -> Head
    ensures { (v : Serving) (e : ℕ → Entry) → timers_of v result e ≡ with_t1s (timers_of v h e) (joined (t1_bits mask) e) }
{
    Head { mask, ..h }
}

// The head with another T3.
#[tactic(auto, unfolding(crate::specs::Timers::with_t3, crate::specs::Memory::timers_of))]
pub fn with_t3(h: Head, t3: T3) -> Head
    ensures { (v : Serving) (e : ℕ → Entry) → timers_of v result e ≡ with_t3 (timers_of v h e) t3 }
{
    Head { t3, ..h }
}

// The levels whose T2 waits: each, while a T1 runs that serves it.
fn waiting_levels(v: Serving, h: Head) -> Levels
    ensures { (e : ℕ → Entry) → result ≡ levels_with (λ k. waits k (timers_of v h e)) }
{
    Levels {
        one: share_place(v.one, h.mask),
        two: share_place(v.two, h.mask),
    }
}

// T2 cancelling.
#[tactic(auto, unfolding(crate::specs::Timers::cancel_t2s, crate::specs::Timers::with_t2s, crate::specs::Memory::timers_of))]
pub fn cancel_t2s(v: Serving, h: Head) -> Head
    ensures { (e : ℕ → Entry) → timers_of v result e ≡ cancel_t2s (timers_of v h e) }
{
    Head {
        t2s: cancel_both(waiting_levels(v, h), h.t2s),
        ..h
    }
}

#[tactic(auto, unfolding(crate::specs::Timers::expire_t2s, crate::specs::Timers::with_t2s, crate::specs::Memory::timers_of))]
fn expire_t2s(clock: u32, h: Head) -> Head
    ensures { (v : Serving) (e : ℕ → Entry) → timers_of v result e ≡ expire_t2s clock (timers_of v h e) }
{
    Head {
        t2s: expire_both(clock, h.t2s),
        ..h
    }
}

// The databases of the levels `n` are complete.
#[tactic(auto, unfolding(crate::specs::Timers::notice_t2s, crate::specs::Timers::with_t2s, crate::specs::Memory::timers_of))]
pub fn notice_t2s(n: Levels, h: Head) -> Head
    ensures { (v : Serving) (e : ℕ → Entry) → timers_of v result e ≡ notice_t2s n (timers_of v h e) }
{
    Head {
        t2s: notice_both(n, h.t2s),
        ..h
    }
}

fn tick_t3(clock: u32, h: Head) -> Head
    ensures { (v : Serving) (e : ℕ → Entry) → timers_of v result e ≡ tick_t3 clock (timers_of v h e) }
{
    if expires_t3(clock, h.t2s, h.t3) {
        Head {
            mask: 0,
            t3: T3::Expired,
            ..h
        }
    } else {
        h
    }
}

// A tick's steps after T1: T2 expiry, T2 cancelling, T3.
pub fn tick_head(v: Serving, clock: u32, h: Head) -> Head
    ensures { (e : ℕ → Entry) → timers_of v result e ≡ tick_t3 clock (cancel_t2s (expire_t2s clock (timers_of v h e))) }
{
    tick_t3(clock, cancel_t2s(v, expire_t2s(clock, h)))
}

// The end of the mode, where no T2 runs.
pub fn end_restart(h: Head) -> Head
    ensures { (v : Serving) (e : ℕ → Entry) → timers_of v result e ≡ finish (timers_of v h e) }
{
    if any_t2(h.t2s) {
        h
    } else {
        Head {
            mode: Mode::Running,
            mask: 0,
            t3: T3::Idle,
            ..h
        }
    }
}

// How many T1s run.
#[tactic(auto, using(crate::proofs::TimersLaws::count_of))]
pub fn count_waiting(h: Head) -> u32
    ensures { (v : Serving) (e : ℕ → Entry) → result ≡ count_runs (timers_of v h e).t1s }
{
    count_places(h.mask)
}

// The lowest circuit with one, by its number from 1.
pub fn lowest_waiting(h: Head) -> Option<u8>
    ensures { (v : Serving) (e : ℕ → Entry) → result ≡ lowest_runs (timers_of v h e).t1s }
{
    lowest_circuit(h.mask)
}
