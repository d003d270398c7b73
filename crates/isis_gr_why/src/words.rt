// The reason as two words, and the numbers of questions and calls (specs/Words.antt).
ghost use Rattle.std.specs.Prelude.{◌≡◌};
ghost use Rattle.reasons.specs.Why.{line_no, reason_of};
ghost use Rattle.isis_gr_why.specs.Words.{question_of, call_from, are_known, answer_no, pair_no, Says};

use adjacency::marks::Line;
use model::numbers::{number_of, position_of};
use reasons::why::{Call, Question, Reason};

// How many questions and calls there are.
const QUESTIONS: u8 = 3;

const CALLS: u8 = 10;

// The first digit of the second octet of a word, of the third and of the seventh.
const SECOND: u64 = 256;

const THIRD: u64 = 65536;

const SEVENTH: u64 = 281474976710656;

// The answer to a question or a call that there is not.
pub const UNKNOWN: u64 = 10;

// The two words of a reason.
#[repr(C)]
#[derive(Clone, Copy)]
pub struct ReasonWords {
    pub answer: u64,
    pub pair: u64,
}

// Whether there is such a question, and such a call.
pub(crate) fn are_known(question: u8, call: u8) -> bool
    ensures { result ≡ are_known question call }
{
    (question < QUESTIONS) & (call < CALLS)
}

pub(crate) fn question_of(n: u8) -> Question
    ensures { result ≡ question_of n }
{
    match n {
        1 => Question::Vanished,
        2 => Question::NoCsnps,
        _ => Question::NotAdvertised,
    }
}

// A call by its number, with the circuit and the level that it names and a tick's clock.
pub(crate) fn call_from(n: u8, on: u8, of: u8, clock: u32) -> Call
    ensures { result ≡ call_from n on of clock }
{
    match n {
        0 => Call::Receive(on),
        1 => Call::Tick(clock),
        2 => Call::Release(on),
        3 => Call::Clear(on),
        4 => Call::CsnpComplete {
            circuit: on,
            level: of,
        },
        5 => Call::DatabaseComplete(of),
        6 => Call::LookUp(on),
        7 => Call::LinkMetric(on),
        8 => Call::NextHello {
            circuit: on,
            level: of,
        },
        _ => Call::Waiting,
    }
}

fn line_number(line: Line) -> u8
    ensures { result ≡ line_no line }
{
    match line {
        Line::One => 1,
        Line::Two => 2,
        Line::Three => 3,
        Line::Four => 4,
        Line::Five => 5,
    }
}

fn answer_word(why: Reason) -> u64
    ensures { result ≡ answer_no (reason_of why) }
{
    match why {
        Reason::NotSo => 0,
        Reason::Init => 1,
        Reason::Suppressed => 2,
        Reason::NoRecord => 3,
        Reason::Refused(x) => { 4 + (SECOND * number_of(x) as u64 + THIRD * position_of(x) as u64) }
        Reason::Expired => 5,
        Reason::Released => 6,
        Reason::Cleared => 7,
        Reason::Fits(line) => 8 + SECOND * line_number(line) as u64,
        Reason::Outranked(router) => 9 + THIRD * (router.system % SEVENTH),
    }
}

fn pair_word(why: Reason) -> u64
    ensures { result ≡ pair_no (reason_of why) }
{
    match why {
        Reason::Outranked(router) => router.mac % SEVENTH + SEVENTH * router.priority as u64,
        _ => 0,
    }
}

pub(crate) fn reason_words(why: Reason) -> ReasonWords
    ensures { Says (reason_of why) result }
{
    let answer = answer_word(why);
    let pair = pair_word(why);
    ReasonWords { answer, pair }
}
