// One T1 (document 01, "Timers while Restarting"; document 02, W-201 and W-202; RFC 8706, 3.1 and 3.3).
ghost use Rattle.std.specs.Prelude.{◌≡◌, ltb, true, ◌&&◌};
ghost use Rattle.timer_parts.specs.T1.{start_entry, begins, begin, begun_by, stop_t1, due, hello_due, again, tick_t1, done, satisfied, acknowledged, noted, heard_t1, freed_by, hello_flags};

use crate::heard::Heard;
use basics::levels::{Levels, is_within, join_levels};
use restart_tlv::flags::Flags;
use settings::lengths::Lengths;
use settings::mode::Mode;

// What is kept of a T1: whether it ever began, its deadline, its expiries so far, whether an acknowledgement came, and the levels whose CSNP set
// is complete.
#[derive(Clone, Copy)]
pub struct Entry {
    pub begun: bool,
    pub deadline: u64,
    pub tries: u8,
    pub acked: bool,
    pub sets: Levels,
}

#[derive(Clone, Copy)]
pub struct T1 {
    pub runs: bool,
    pub entry: Entry,
}

// Whether a frame with no Restart TLV stopped a running T1. Reinitialise: and the daemon must make the neighbour reinitialise.
#[derive(Clone, Copy)]
pub enum Freed {
    Kept,
    Stopped,
    Reinitialise,
}

// The entry of a T1 at setup.
#[tactic(auto, unfolding(crate::specs::T1::start_entry))]
pub fn start_entry(begun: bool, deadline: u64) -> Entry
    ensures { result ≡ start_entry begun deadline }
{
    Entry {
        begun,
        deadline,
        tries: 0,
        acked: false,
        sets: Levels {
            one: false,
            two: false,
        },
    }
}

// Whether a T1 begins; `up`: in the mode Starting a record of its circuit, on a LAN of its level, becomes UP.
#[tactic(auto, unfolding(crate::specs::T1::begins))]
pub fn does_begin(up: bool, t: T1) -> bool
    ensures { result ≡ begins up t }
{
    up && !t.entry.begun
}

// It runs, with no expiry and no acknowledgement so far.
#[tactic(auto, unfolding(crate::specs::T1::begin))]
fn begin_t1(deadline: u64, t: T1) -> T1
    ensures { result ≡ begin deadline t }
{
    T1 {
        runs: true,
        entry: Entry {
            begun: true,
            deadline,
            tries: 0,
            acked: false,
            ..t.entry
        },
    }
}

// It begins, or is as it was.
#[tactic(auto, unfolding(crate::specs::T1::begun_by))]
pub fn begun_by(up: bool, deadline: u64, t: T1) -> T1
    ensures { result ≡ begun_by up deadline t }
{
    if does_begin(up, t) {
        begin_t1(deadline, t)
    } else {
        t
    }
}

// Whether a running T1 is at its deadline.
#[tactic(auto, unfolding(crate::specs::T1::due))]
pub fn is_due(clock: u32, t: T1) -> bool
    ensures { result ≡ due clock t }
{
    t.runs && t.entry.deadline <= clock as u64
}

// Whether a tick orders the hello again.
#[tactic(auto, unfolding(crate::specs::T1::hello_due))]
pub fn is_hello_due(s: Lengths, clock: u32, t: T1) -> bool
    ensures { result ≡ hello_due s clock t }
{
    is_due(clock, t) && t.entry.tries as u16 + 1 < s.tries as u16
}

// One expiry more, and the new deadline.
#[tactic(auto, unfolding(crate::specs::T1::again, crate::specs::T1::hello_due))]
fn run_again(s: Lengths, clock: u32, t: T1) -> T1
    requires { hello_due s clock t ≡ true }
    ensures { result ≡ again s clock t }
{
    T1 {
        runs: true,
        entry: Entry {
            deadline: clock as u64 + s.t1 as u64,
            tries: t.entry.tries + 1,
            ..t.entry
        },
    }
}

// A tick: the hello again, or the Nth expiry.
#[tactic(auto, unfolding(crate::specs::T1::tick_t1))]
pub fn tick_t1(s: Lengths, clock: u32, t: T1) -> T1
    ensures { result ≡ tick_t1 s clock t }
{
    if is_hello_due(s, clock, t) {
        run_again(s, clock, t)
    } else if is_due(clock, t) {
        stop_t1(t)
    } else {
        t
    }
}

// It runs no more; what was told of it stays.
#[tactic(auto, unfolding(crate::specs::T1::stop_t1))]
pub fn stop_t1(t: T1) -> T1
    ensures { result ≡ stop_t1 t }
{
    T1 { runs: false, ..t }
}

// Whether a T1 that serves the levels `l` has all that it waits for.
#[tactic(auto, unfolding(crate::specs::T1::done))]
pub fn is_done(l: Levels, e: Entry) -> bool
    ensures { result ≡ done l e }
{
    e.acked && is_within(l, e.sets)
}

// It stops where it has all that it waits for.
#[tactic(auto, unfolding(crate::specs::T1::satisfied))]
pub fn satisfy(l: Levels, t: T1) -> T1
    ensures { result ≡ satisfied l t }
{
    if is_done(l, t.entry) { stop_t1(t) } else { t }
}

// An acknowledgement came.
#[tactic(auto, unfolding(crate::specs::T1::acknowledged))]
pub fn acknowledge(t: T1) -> T1
    ensures { result ≡ acknowledged t }
{
    T1 {
        entry: Entry {
            acked: true,
            ..t.entry
        },
        ..t
    }
}

// The CSNP sets of the levels `n` are complete.
#[tactic(auto, unfolding(crate::specs::T1::noted))]
pub fn note(n: Levels, t: T1) -> T1
    ensures { result ≡ noted n t }
{
    T1 {
        entry: Entry {
            sets: join_levels(n, t.entry.sets),
            ..t.entry
        },
        ..t
    }
}

// An accepted hello to a T1 that serves the levels `l`.
#[tactic(auto, unfolding(crate::specs::T1::heard_t1))]
pub fn hear_t1(l: Levels, h: Heard, t: T1) -> T1
    ensures { result ≡ heard_t1 l h t }
{
    match h {
        Heard::WithoutTlv(_) => stop_t1(t),
        Heard::Acknowledged { .. } => satisfy(l, acknowledge(t)),
        Heard::Plain => t,
    }
}

// Whether a frame with no Restart TLV stopped a running T1.
#[tactic(auto, unfolding(crate::specs::T1::freed_by))]
pub fn freed_by(restarting: bool, h: Heard, t: T1) -> Freed
    ensures { result ≡ freed_by restarting h t }
{
    match h {
        Heard::WithoutTlv(ours) if t.runs => if restarting & ours {
            Freed::Reinitialise
        } else {
            Freed::Stopped
        },
        _ => Freed::Kept,
    }
}

// Whether T1 runs and has expired.
fn is_late(t: T1) -> bool
    ensures { result ≡ t.runs && ltb 0 t.entry.tries }
{
    t.runs && 0 < t.entry.tries
}

// The flags of the T1's next hello.
#[tactic(auto, unfolding(crate::specs::T1::hello_flags))]
pub fn hello_flags(mode: Mode, t: T1) -> Flags
    ensures { result ≡ hello_flags mode t }
{
    match mode {
        Mode::Running => Flags::NONE,
        Mode::Restarting => if t.runs { Flags::RR } else { Flags::NONE },
        Mode::Starting => if is_late(t) {
            Flags::RR.with(Flags::SA)
        } else {
            Flags::SA
        },
    }
}
