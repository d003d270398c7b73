// The timers' head in its words (house).
//
//   bits   0-1   2       3         4       5         6-7  8-23  24-63
//          mode  T2 of level 1     T2 of level 2     T3   mask  0
//                runs    noticed   runs    noticed
//
// Mode: 0 Running, 1 Restarting, 2 Starting. T3: 0 idle, 1 runs, 2 expired. The deadlines follow in words of their own.
ghost use Rattle.std.specs.Prelude.{◌≡◌, ◌<◌, length, get_or};
ghost use Rattle.timers.specs.Memory.{timers_at};
ghost use Rattle.control.specs.Words.{control_words, seal_place, seal, mode_in, timer_in, t2_in, t3_in, head_in, head_of, serving_of, entries_of, timer_deadline, t3_deadline, common_of};
ghost use Rattle.control.specs.Common.{with_timers};

use crate::words::{HEAD_AT, sealed_at};
use basics::bits::digit;
use settings::mode::Mode;
use timer_parts::t2::{T2, T2s};
use timer_parts::t3::T3;
use timers::head::Head;

fn mode_in(d: u64) -> Mode
    ensures { result ≡ mode_in d }
{
    match d {
        1 => Mode::Restarting,
        2 => Mode::Starting,
        _ => Mode::Running,
    }
}

fn timer_in(d: u64, deadline: u64) -> Option<u64>
    ensures { result ≡ timer_in d deadline }
{
    if d == 1 { Some(deadline) } else { None }
}

fn t2_in(d: u64, n: u64, deadline: u64) -> T2
    ensures { result ≡ t2_in d n deadline }
{
    T2 {
        timer: timer_in(d, deadline),
        noticed: n == 1,
    }
}

fn t3_in(d: u64, deadline: u64) -> T3
    ensures { result ≡ t3_in d deadline }
{
    match d {
        0 => T3::Idle,
        1 => T3::Runs(deadline),
        _ => T3::Expired,
    }
}

#[tactic(auto, unfolding(crate::specs::Words::head_in))]
fn head_in(w: u64, a: u64, b: u64, e: u64) -> Head
    ensures { result ≡ head_in w a b e }
{
    Head {
        mode: mode_in(w % 4),
        mask: (w / 256 % 65536) as u16,
        t2s: T2s {
            one: t2_in(w / 4 % 2, w / 8 % 2, a),
            two: t2_in(w / 16 % 2, w / 32 % 2, b),
        },
        t3: t3_in(w / 64 % 4, e),
    }
}

// The mode; Running in memory that was never set up.
#[tactic(auto, unfolding(crate::specs::Words::common_of, crate::specs::Words::head_of, crate::specs::Words::head_in, timers::specs::Memory::timers_of))]
pub fn mode_of(words: &[u64]) -> Mode
    requires { length words.now ≡ control_words }
    ensures { result ≡ (common_of words.now).timers.mode }
{
    mode_in(sealed_at(words, HEAD_AT) % 4)
}

// The timers' head.
#[tactic(auto, unfolding(crate::specs::Words::head_of))]
pub fn load_head(words: &[u64]) -> Head
    requires { length words.now ≡ control_words }
    ensures { result ≡ head_of words.now }
{
    head_in(
        sealed_at(words, HEAD_AT),
        words[HEAD_AT + 1],
        words[HEAD_AT + 2],
        words[HEAD_AT + 3],
    )
}

// Each digit says what it is read as, and bounds itself.
fn mode_digit(m: Mode) -> u64
    ensures { (mode_in result ≡ m) × (result < 4) }
{
    match m {
        Mode::Running => 0,
        Mode::Restarting => 1,
        Mode::Starting => 2,
    }
}

fn timer_digit(t: Option<u64>) -> u64
    ensures { (timer_in result (timer_deadline t) ≡ t) × (result < 2) }
{
    match t {
        None => 0,
        Some(_) => 1,
    }
}

fn timer_deadline(t: Option<u64>) -> u64
    ensures { result ≡ timer_deadline t }
{
    match t {
        None => 0,
        Some(deadline) => deadline,
    }
}

fn t3_digit(t: T3) -> u64
    ensures { (t3_in result (t3_deadline t) ≡ t) × (result < 4) }
{
    match t {
        T3::Idle => 0,
        T3::Runs(_) => 1,
        T3::Expired => 2,
    }
}

fn t3_deadline(t: T3) -> u64
    ensures { result ≡ t3_deadline t }
{
    match t {
        T3::Runs(deadline) => deadline,
        T3::Idle | T3::Expired => 0,
    }
}

fn head_word(h: Head) -> u64
    ensures { head_in result (timer_deadline h.t2s.one.timer) (timer_deadline h.t2s.two.timer) (t3_deadline h.t3) ≡ h }
{
    mode_digit(h.mode)
        + 4 * timer_digit(h.t2s.one.timer)
        + 8 * digit(h.t2s.one.noticed)
        + 16 * timer_digit(h.t2s.two.timer)
        + 32 * digit(h.t2s.two.noticed)
        + 64 * t3_digit(h.t3)
        + 256 * (h.mask as u64)
}

// In memory that was set up.
pub fn store_head(words: &mut [u64], h: Head)
    requires { (length words.old ≡ control_words) × (get_or words.old seal_place 0 ≡ seal) }
    ensures { common_of words.new ≡ with_timers (timers_at (serving_of words.old) h (entries_of words.old)) (common_of words.old) }
{
    words[HEAD_AT] = head_word(h);
    words[HEAD_AT + 1] = timer_deadline(h.t2s.one.timer);
    words[HEAD_AT + 2] = timer_deadline(h.t2s.two.timer);
    words[HEAD_AT + 3] = t3_deadline(h.t3);
}
