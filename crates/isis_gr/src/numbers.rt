// The parts of an answer as numbers: model's table of them, case by case, and what specs/Words.antt packs. Functions, no `From`: the types are of other
// crates.
ghost use Rattle.std.specs.Prelude.{◌≡◌, ◌+◌, ◌^◌, ◌≤◌, ◌<◌};
ghost use Rattle.restart_tlv.specs.Restart.{ack_flag};
ghost use Rattle.model.specs.Numbers.{reply_flags, reply_time, lowest_no, levels_no, csnps_no, freed_no, hello_no, overload_no, mark_no, phase_no, state_no};
ghost use Rattle.model.specs.Answers.{timers_answer, record_answer, is_reversed, offset_of, whole_of, unreachable_of};
ghost use Rattle.adjacency.specs.declared.record.State.TheVariants.{Up};
ghost use Rattle.isis_gr.specs.Words.{timers_no, reverse_no, record_no};

use adjacency::marks::Reply;
use adjacency::record::{Data, Mark, Phase, State};
use basics::bits::digit;
use basics::levels::Levels;
use hello::reverse::ReverseMetric;
use restart_tlv::flags::Flags;
use restart_tlv::writer::Ack;
use timer_parts::t1::Freed;
use timers::hellos::HelloOrder;
use timers::outcome::{Overload, TimerOutcome};

// The first digit of each octet of a word, from the second on.
pub const SECOND: u64 = 256;

pub const THIRD: u64 = 65536;

pub const FOURTH: u64 = 16777216;

pub const FIFTH: u64 = 4294967296;

pub const SIXTH: u64 = 1099511627776;

pub const SEVENTH: u64 = 281474976710656;

pub const EIGHTH: u64 = 72057594037927936;

fn levels_number(l: Levels) -> u8
    ensures { (result ≡ levels_no l) × (result ≤ 3) }
{
    (digit(l.one) + 2 * digit(l.two)) as u8
}

pub(crate) fn csnps_number(c: Option<Levels>) -> u8
    ensures { result ≡ csnps_no c }
{
    match c {
        None => 0,
        Some(l) => levels_number(l),
    }
}

pub(crate) fn freed_number(f: Freed) -> u8
    ensures { result ≡ freed_no f }
{
    match f {
        Freed::Kept => 0,
        Freed::Stopped => 1,
        Freed::Reinitialise => 2,
    }
}

pub(crate) fn hello_number(h: HelloOrder) -> u8
    ensures { result ≡ hello_no h }
{
    match h {
        HelloOrder::Nothing => 0,
        HelloOrder::Suppress => Flags::SA.bits,
    }
}

fn overload_number(o: Overload) -> u8
    ensures { (result ≡ overload_no o) × (result ≤ 3) }
{
    match o {
        Overload::Quiet => 0,
        Overload::Set => 1,
        Overload::Clear => 2,
        Overload::Both => 3,
    }
}

pub(crate) fn outcome_number(o: TimerOutcome) -> u8
    ensures { result ≡ timers_no (timers_answer o) }
{
    match o {
        TimerOutcome::Idle => 0,
        TimerOutcome::Goes { spf, overload } => 1
            + 4 * levels_number(spf)
            + 16 * overload_number(overload),
        TimerOutcome::Ended { spf, overload } => 2
            + 4 * levels_number(spf)
            + 16 * overload_number(overload),
    }
}

fn ack_flags(ack: Ack) -> u8
    ensures { result ≡ ack_flag ack }
{
    match ack {
        Ack::Restart => Flags::RA.bits,
        Ack::Planned => Flags::PA.bits,
    }
}

pub(crate) fn reply_flags(a: Option<Reply>) -> u8
    ensures { result ≡ reply_flags a }
{
    match a {
        None => 0,
        Some((ack, _)) => ack_flags(ack),
    }
}

pub(crate) fn reply_time(a: Option<Reply>) -> u16
    ensures { result ≡ reply_time a }
{
    match a {
        None => 0,
        Some((_, time)) => time,
    }
}

pub(crate) fn lowest_number(low: Option<u8>) -> u8
    ensures { result ≡ lowest_no low }
{
    match low {
        Some(n) => n,
        None => 0,
    }
}

fn mark_number(m: Mark) -> u8
    ensures { (result ≡ mark_no m) × (result ≤ 2) }
{
    match m {
        Mark::Clear => 0,
        Mark::Restart => 1,
        Mark::Planned => 2,
    }
}

fn reverse_number(m: Option<ReverseMetric>) -> u64
    ensures { (result ≡ reverse_no (is_reversed m) (offset_of m) (whole_of m) (unreachable_of m)) × (result + 2 ^ 31 < 2 ^ 64) }
{
    match m {
        None => 0,
        Some(r) => 16 + 32 * digit(r.whole) + 64 * digit(r.unreachable) + FIFTH * r.offset as u64,
    }
}

pub(crate) fn data_number(m: Mark, d: Data) -> u64
    ensures { result ≡ record_no (record_answer (Some (Up d m))) }
{
    let last = d.last;
    let reverse = last.reverse;
    let lost = mark_number(m) as u64 + 4 * digit(d.suppressed) + 8 * digit(last.tlv);
    lost + SECOND * last.priority as u64 + reverse_number(reverse)
}

pub(crate) fn phase_number(p: Phase) -> u8
    ensures { (result ≡ phase_no p) × (result ≤ 2) }
{
    match p {
        Phase::Gone => 0,
        Phase::Init => 1,
        Phase::Up => 2,
    }
}

pub(crate) fn state_number(s: State) -> u8
    ensures { result ≡ state_no s }
{
    match s {
        State::Init(_) => 1,
        State::Up(_, _) => 2,
    }
}
