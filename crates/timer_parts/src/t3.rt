// T3 (document 01, "Timers while Restarting"; RFC 8706, 3.1 and 3.3.1).
ghost use Rattle.std.specs.Prelude.{◌≡◌};
ghost use Rattle.timer_parts.specs.T3.{lower_t3, heard_t3, expires_t3, expired_t3};

use crate::heard::Heard;
use crate::t2::{T2s, any_after};

#[derive(Clone, Copy)]
pub enum T3 {
    Idle,
    Runs(u64),
    Expired,
}

// A running T3 to an earlier deadline. With a guard in place of the `if` a call of receive takes 16 octets of stack more.
#[tactic(auto, unfolding(crate::specs::T3::lower_t3))]
pub fn lower_t3(at: u64, t: T3) -> T3
    ensures { result ≡ lower_t3 at t }
{
    match t {
        T3::Idle => T3::Idle,
        T3::Runs(deadline) => if at < deadline { T3::Runs(at) } else { t },
        T3::Expired => T3::Expired,
    }
}

// An accepted hello.
#[tactic(auto, unfolding(crate::specs::T3::heard_t3))]
pub fn hear_t3(clock: u32, h: Heard, t: T3) -> T3
    ensures { result ≡ heard_t3 clock h t }
{
    match h {
        Heard::Acknowledged {
            up: true,
            remaining,
        } => lower_t3(clock as u64 + remaining as u64, t),
        _ => t,
    }
}

// Whether T3 expires at a tick.
#[tactic(auto, unfolding(crate::specs::T3::expires_t3))]
pub fn expires_t3(clock: u32, both: T2s, t: T3) -> bool
    ensures { result ≡ expires_t3 clock both t }
{
    match t {
        T3::Runs(deadline) => deadline <= clock as u64 && any_after(deadline, both),
        T3::Idle | T3::Expired => false,
    }
}

// Whether it has expired.
#[tactic(auto, unfolding(crate::specs::T3::expired_t3))]
pub fn is_expired(t: T3) -> bool
    ensures { result ≡ expired_t3 t }
{
    matches!(t, T3::Expired)
}
