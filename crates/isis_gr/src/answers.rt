// Each answer as one word, a frame's as two; specs/Words.antt gives them, case by case. A refusal's word is its number.
ghost use Rattle.std.specs.Prelude.{◌≡◌, ◌≤◌, length};
ghost use Rattle.model.specs.Answers.{change_answer, frame_answer, record_answer, received_of, ticked_of, released_of, noticed_of, looked_of, metric_of, flags_of, waiting_of};
ghost use Rattle.basics.specs.Mask.{t1_places};
ghost use Rattle.own_words.specs.Setup.{report_of};
ghost use Rattle.isis_gr.specs.Words.{frame_no, change_no, answer_no, changed_no, report_no, record_words, found_words};

use crate::numbers::{
    EIGHTH, FIFTH, FOURTH, SECOND, SEVENTH, SIXTH, THIRD, csnps_number, data_number, freed_number,
    hello_number, lowest_number, outcome_number, phase_number, reply_flags, reply_time,
    state_number,
};
use adjacency::record::{Mark, State};
use basics::bits::digit;
use basics::refusal::Refusal;
use model::answers::{Change, Found, Orders, Ticked, Waiting};
use model::numbers::{number_of, position_of};
use restart_tlv::flags::Flags;
use timers::hellos::HelloOrders;
use timers::outcome::TimerOutcome;

fn orders_word(o: Orders) -> u64
    ensures { result ≡ frame_no (frame_answer o) }
{
    let reply = o.reply;
    let csnps = o.csnps;
    let freed = o.freed;
    let hello = o.hello;
    let outcome = o.outcome;
    let first = EIGHTH * hello_number(hello) as u64
        + SECOND * reply_flags(reply) as u64
        + THIRD * csnps_number(csnps) as u64
        + FOURTH * freed_number(freed) as u64;
    first + FIFTH * outcome_number(outcome) as u64 + SIXTH * reply_time(reply) as u64
}

// The two words of a frame's answer.
#[repr(C)]
#[derive(Clone, Copy)]
pub struct ReceivedWords {
    pub answer: u64,
    pub change: u64,
}

fn change_word(x: Change) -> u64
    ensures { result ≡ change_no (change_answer x) }
{
    let before = x.before;
    let after = x.after;
    let small = x.level as u64 % 4
        + 4 * phase_number(before) as u64
        + 16 * phase_number(after) as u64
        + 64 * digit(x.advertised);
    x.system % SEVENTH + SEVENTH * small
}

fn received_change(a: Result<Orders, Refusal>) -> u64
    ensures { result ≡ changed_no (received_of a) }
{
    match a {
        Err(x) => position_of(x) as u64,
        Ok(o) => {
            let change = o.change;
            change_word(change)
        }
    }
}

fn received_word(a: Result<Orders, Refusal>) -> u64
    ensures { result ≡ answer_no (received_of a) }
{
    match a {
        Err(x) => number_of(x) as u64,
        Ok(o) => orders_word(o),
    }
}

pub fn received_words(a: Result<Orders, Refusal>) -> ReceivedWords
    ensures { (result.answer ≡ answer_no (received_of a)) × (result.change ≡ changed_no (received_of a)) }
{
    let answer = received_word(a);
    let change = received_change(a);
    ReceivedWords { answer, change }
}

pub(crate) fn ticked_word(a: Result<Ticked, Refusal>) -> u64
    ensures { result ≡ answer_no (ticked_of a) }
{
    match a {
        Err(x) => number_of(x) as u64,
        Ok(t) => {
            SIXTH * t.hellos.flags.bits as u64
                + SECOND * t.lost as u64
                + THIRD * t.hellos.t1s as u64
                + FIFTH * outcome_number(t.outcome) as u64
        }
    }
}

pub(crate) fn released_word(a: Result<(), Refusal>) -> u32
    ensures { result ≡ answer_no (released_of a) }
{
    match a {
        Err(x) => number_of(x) as u32,
        Ok(()) => 0,
    }
}

pub(crate) fn noticed_word(a: Result<TimerOutcome, Refusal>) -> u64
    ensures { result ≡ answer_no (noticed_of a) }
{
    match a {
        Err(x) => number_of(x) as u64,
        Ok(outcome) => FIFTH * outcome_number(outcome) as u64,
    }
}

pub(crate) fn looked_word(a: Result<Option<Found>, Refusal>) -> u32
    ensures { result ≡ answer_no (looked_of a) }
{
    match a {
        Err(x) => number_of(x) as u32,
        Ok(None) => 0,
        Ok(Some(f)) => 256 * state_number(f.state) as u32 + 65536 * digit(f.advertised) as u32,
    }
}

pub(crate) fn metric_word(a: Result<u32, Refusal>) -> u64
    ensures { result ≡ answer_no (metric_of a) }
{
    match a {
        Err(x) => number_of(x) as u64,
        Ok(n) => FIFTH * n as u64,
    }
}

pub(crate) fn flags_word(a: Result<Flags, Refusal>) -> u32
    ensures { result ≡ answer_no (flags_of a) }
{
    match a {
        Err(x) => number_of(x) as u32,
        Ok(f) => 256 * f.bits as u32,
    }
}

pub(crate) fn waiting_word(a: Waiting) -> u32
    requires { a.count ≤ t1_places }
    ensures { result ≡ answer_no (waiting_of a) }
{
    let low = a.lowest;
    256 * a.count + 65536 * lowest_number(low) as u32
}

pub(crate) fn set_up_word(a: Result<HelloOrders, Refusal>) -> u32
    ensures { result ≡ report_no (report_of a) }
{
    match a {
        Err(x) => number_of(x) as u32,
        Ok(hellos) => {
            let flags = hellos.flags;
            16777216 * flags.bits as u32 + 256 * hellos.t1s as u32
        }
    }
}

fn write_state(out: &mut [u64], s: State)
    requires { length out.old ≡ 2 }
    ensures { out.new ≡ record_words (record_answer (Some s)) }
{
    match s {
        State::Init(d) => {
            out[0] = d.expiry;
            out[1] = data_number(Mark::Clear, d);
        }
        State::Up(d, m) => {
            out[0] = d.expiry;
            out[1] = data_number(m, d);
        }
    }
}

// The words of the record that a look up found; nothing, where it found none.
pub(crate) fn write_found(out: &mut [u64], a: Result<Option<Found>, Refusal>)
    requires { length out.old ≡ 2 }
    ensures { out.new ≡ found_words (looked_of a) out.old }
{
    match a {
        Err(_) => {}
        Ok(None) => {}
        Ok(Some(f)) => write_state(out, f.state),
    }
}
