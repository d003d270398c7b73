// The T2 of each level (document 01, "Timers while Restarting"; RFC 8706, 3.1).
ghost use Rattle.std.specs.Prelude.{◌≡◌};
ghost use Rattle.timer_parts.specs.T2.{start_timer, start_t2s, t2_runs, expire_timer, expire_t2, cancel_t2, notice_t2, expire_both, cancel_both, notice_both, any_t2, t2_after, any_after, over, spf_due};

use basics::levels::Levels;

// The timer, and whether its level's database notice came.
#[derive(Clone, Copy)]
pub struct T2 {
    pub timer: Option<u64>,
    pub noticed: bool,
}

// The T2 of level 1 and of level 2.
#[derive(Clone, Copy)]
pub struct T2s {
    pub one: T2,
    pub two: T2,
}

#[tactic(auto, unfolding(crate::specs::T2::start_timer))]
fn start_timer(on: bool, at: u64) -> Option<u64>
    ensures { result ≡ start_timer on at }
{
    if on { Some(at) } else { None }
}

// The T2 of each of the levels `l` runs, with the deadline `at`.
#[tactic(auto, unfolding(crate::specs::T2::start_t2s))]
pub fn start_t2s(l: Levels, at: u64) -> T2s
    ensures { result ≡ start_t2s l at }
{
    T2s {
        one: T2 {
            timer: start_timer(l.one, at),
            noticed: false,
        },
        two: T2 {
            timer: start_timer(l.two, at),
            noticed: false,
        },
    }
}

fn t2_runs(t: T2) -> bool
    ensures { result ≡ t2_runs t }
{
    match t.timer {
        None => false,
        Some(_) => true,
    }
}

fn t2_after(at: u64, t: T2) -> bool
    ensures { result ≡ t2_after at t }
{
    match t.timer {
        None => false,
        Some(deadline) => at < deadline,
    }
}

fn expire_timer(clock: u32, k: Option<u64>) -> Option<u64>
    ensures { result ≡ expire_timer clock k }
{
    let Some(deadline) = k else {
        return k;
    };
    if deadline <= clock as u64 { None } else { k }
}

#[tactic(auto, unfolding(crate::specs::T2::expire_t2))]
fn expire_t2(clock: u32, t: T2) -> T2
    ensures { result ≡ expire_t2 clock t }
{
    T2 {
        timer: expire_timer(clock, t.timer),
        ..t
    }
}

// As `T2 { timer: None, ..t }` a CSNP notice takes 48 octets of stack more.
#[tactic(auto, unfolding(crate::specs::T2::cancel_t2))]
fn cancel_t2(wait: bool, t: T2) -> T2
    ensures { result ≡ cancel_t2 wait t }
{
    let noticed = t.noticed;
    if wait {
        return t;
    }
    if noticed {
        return T2 {
            timer: None,
            noticed,
        };
    }
    t
}

#[tactic(auto, unfolding(crate::specs::T2::notice_t2))]
fn notice_t2(on: bool, t: T2) -> T2
    ensures { result ≡ notice_t2 on t }
{
    T2 {
        noticed: on || t.noticed,
        ..t
    }
}

// Each T2 at its deadline expires. This and the two below name both levels: one function over both, with a closure, would be longer than the three.
#[tactic(auto, unfolding(crate::specs::T2::expire_both))]
pub fn expire_both(clock: u32, t: T2s) -> T2s
    ensures { result ≡ expire_both clock t }
{
    T2s {
        one: expire_t2(clock, t.one),
        two: expire_t2(clock, t.two),
    }
}

// T2 cancelling, where the levels of `waits` still wait for a T1.
#[tactic(auto, unfolding(crate::specs::T2::cancel_both))]
pub fn cancel_both(waits: Levels, t: T2s) -> T2s
    ensures { result ≡ cancel_both waits t }
{
    T2s {
        one: cancel_t2(waits.one, t.one),
        two: cancel_t2(waits.two, t.two),
    }
}

// The databases of the levels `n` are complete.
#[tactic(auto, unfolding(crate::specs::T2::notice_both))]
pub fn notice_both(n: Levels, t: T2s) -> T2s
    ensures { result ≡ notice_both n t }
{
    T2s {
        one: notice_t2(n.one, t.one),
        two: notice_t2(n.two, t.two),
    }
}

// Whether some T2 runs.
#[tactic(auto, unfolding(crate::specs::T2::any_t2))]
pub fn any_t2(t: T2s) -> bool
    ensures { result ≡ any_t2 t }
{
    t2_runs(t.one) || t2_runs(t.two)
}

// Whether some T2 runs with a deadline after `at`.
#[tactic(auto, unfolding(crate::specs::T2::any_after))]
pub fn any_after(at: u64, t: T2s) -> bool
    ensures { result ≡ any_after at t }
{
    t2_after(at, t.one) || t2_after(at, t.two)
}

// Whether a T2 that ran before runs no more.
fn is_over(before: T2, after: T2) -> bool
    ensures { result ≡ over before after }
{
    t2_runs(before) && !t2_runs(after)
}

// The levels whose SPF is due, from the T2s before and after.
#[tactic(auto, unfolding(crate::specs::T2::spf_due))]
pub fn spf_due(before: T2s, after: T2s) -> Levels
    ensures { result ≡ spf_due before after }
{
    Levels {
        one: is_over(before.one, after.one),
        two: is_over(before.two, after.two),
    }
}
