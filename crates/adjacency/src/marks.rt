// Marks, expiry and reply of an accepted frame (document 01, "Marks and holding time").
ghost use Rattle.std.specs.Prelude.{◌≡◌, ◌+◌};
ghost use Rattle.adjacency.specs.Marks.{planned, last_line, line_by, first_expiry, third_expiry, expiry_by, mark_by, suppressed_by, road_of, remaining_of, reply_by};

use crate::record::{Mark, Phase};
use crate::step::is_up;
use restart_tlv::flags::Flags;
use restart_tlv::reader::RestartTlv;
use restart_tlv::writer::Ack;

// A reply: RA or PA, and its Remaining Time.
pub type Reply = (Ack, u16);

// The line of document 01 that fits a frame.
#[derive(Clone, Copy)]
pub enum Line {
    One,
    Two,
    Three,
    Four,
    Five,
}

// What a frame's Restart TLV says of its record: the line that fits, its Remaining Time, and whether the record is Suppressed.
#[derive(Clone, Copy)]
pub struct Road {
    pub line: Line,
    pub time: u16,
    pub suppressed: bool,
}

// What an expiry is made of: the clock, the frame's Holding Time, the configured time, the frame's Remaining Time, and the expiry before.
#[derive(Clone, Copy)]
pub struct Times {
    pub clock: u32,
    pub hold: u16,
    pub configured: u16,
    pub remaining: u16,
    pub expiry: u64,
}

fn last_line(mark: Mark) -> Line
    ensures { result ≡ last_line mark }
{
    match mark {
        Mark::Clear | Mark::Restart => Line::Five,
        Mark::Planned => Line::Four,
    }
}

// PR, and the record UP before and after.
fn is_planned(flags: Flags, phase: Phase, after: Phase) -> bool
    ensures { result ≡ planned flags phase after }
{
    if flags.has(Flags::PR) {
        if is_up(phase) {
            return is_up(after);
        }
        return false;
    }
    false
}

// The line that fits a frame whose Restart TLV has these flags.
fn line_by(flags: Flags, mark: Mark, phase: Phase, after: Phase) -> Line
    ensures { result ≡ line_by flags mark phase after }
{
    if flags.has(Flags::RR) {
        if is_up(phase) {
            return Line::One;
        }
        return Line::Two;
    }
    if is_planned(flags, phase, after) {
        return Line::Three;
    }
    last_line(mark)
}

// SA, which is clear where there is no Restart TLV; an ignored one leaves Suppressed as it was.
fn is_suppressed_by(tlv: RestartTlv, was: bool) -> bool
    ensures { result ≡ suppressed_by tlv was }
{
    match tlv {
        RestartTlv::Absent => false,
        RestartTlv::Ignored => was,
        RestartTlv::Present { flags, .. } => flags.has(Flags::SA),
    }
}

// A frame with no Restart TLV, or with one that is ignored, leaves at once for the rule of flags clear.
pub fn road_of(tlv: RestartTlv, mark: Mark, was: bool, phase: Phase, after: Phase) -> Road
    ensures { result ≡ road_of tlv mark was phase after }
{
    let RestartTlv::Present { flags, time, .. } = tlv else {
        return Road {
            line: last_line(mark),
            time: 0,
            suppressed: is_suppressed_by(tlv, was),
        };
    };
    Road {
        line: line_by(flags, mark, phase, after),
        time,
        suppressed: is_suppressed_by(tlv, was),
    }
}

fn from_clock(clock: u32, time: u16) -> u64
    ensures { result ≡ clock + time }
{
    u64::from(clock) + u64::from(time)
}

fn first_expiry(times: Times, mark: Mark) -> u64
    ensures { result ≡ first_expiry times mark }
{
    match mark {
        Mark::Clear => from_clock(times.clock, times.hold),
        Mark::Restart => times.expiry,
        Mark::Planned => from_clock(times.clock, times.configured),
    }
}

fn third_expiry(times: Times, mark: Mark) -> u64
    ensures { result ≡ third_expiry times mark }
{
    match mark {
        Mark::Clear | Mark::Restart => from_clock(times.clock, times.remaining),
        Mark::Planned => times.expiry,
    }
}

// The record's expiry by the line that fitted.
pub fn expiry_by(line: Line, times: Times, mark: Mark) -> u64
    ensures { result ≡ expiry_by line times mark }
{
    match line {
        Line::One => first_expiry(times, mark),
        Line::Two | Line::Five => from_clock(times.clock, times.hold),
        Line::Three => third_expiry(times, mark),
        Line::Four => from_clock(times.clock, times.configured),
    }
}

// The record's mark by the line that fitted.
pub fn mark_by(line: Line, mark: Mark) -> Mark
    ensures { result ≡ mark_by line mark }
{
    match line {
        Line::One => Mark::Restart,
        Line::Two => mark,
        Line::Three => Mark::Planned,
        Line::Four | Line::Five => Mark::Clear,
    }
}

// Expiry less clock, as far as the two octets of a Remaining Time go.
pub fn remaining_of(expiry: u64, clock: u32) -> u16
    ensures { result ≡ remaining_of expiry clock }
{
    let now = clock as u64;
    if expiry <= now {
        return 0;
    }
    if 65535 < expiry - now {
        return 65535;
    }
    (expiry - now) as u16
}

// The reply by the line that fitted.
pub fn reply_by(line: Line, time: u16) -> Option<Reply>
    ensures { result ≡ reply_by line time }
{
    match line {
        Line::One | Line::Two => Some((Ack::Restart, time)),
        Line::Three => Some((Ack::Planned, time)),
        Line::Four | Line::Five => None,
    }
}
