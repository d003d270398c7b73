// What is printed: of an answer or a record its parts, as they stand in a row's columns.
use adjacency::record::{Mark, State};
use basics::levels::Levels;
use basics::refusal::Refusal;
use model::answers::{Found, Orders};
use model::numbers::{number_of, position_of};
use restart_tlv::writer::Ack;
use std::fmt;

// What a call answered: a refusal's number, and the position that it brings, where it brings one; or what was accepted.
#[derive(Clone, Copy)]
pub struct Answer<T>(pub Result<T, Refusal>);

impl<T: fmt::Display> fmt::Display for Answer<T> {
    fn fmt<W: fmt::Write>(&self, f: &mut fmt::Formatter<W>) -> fmt::Result {
        let why = match &self.0 {
            Ok(accepted) => return write!(f, "{accepted}"),
            Err(why) => *why,
        };
        write!(f, "refused {}", number_of(why))?;
        match position_of(why) {
            0 => Ok(()),
            position => write!(f, " at {position}"),
        }
    }
}

// Only whether it was accepted.
pub fn verdict(answer: Result<Orders, Refusal>) -> Answer<&'static str> {
    Answer(answer.map(|_| "accepted"))
}

fn mark_name(mark: Mark) -> &'static str {
    match mark {
        Mark::Clear => "-",
        Mark::Restart => "Restart",
        Mark::Planned => "Planned",
    }
}

// State, expiry and mark of a record.
#[derive(Clone, Copy)]
pub struct Looked(pub Option<Found>);

impl fmt::Display for Looked {
    fn fmt<W: fmt::Write>(&self, f: &mut fmt::Formatter<W>) -> fmt::Result {
        let Some(found) = self.0 else {
            return write!(f, "{:<23}", "none");
        };
        let (state, expiry, mark) = match found.state {
            State::Init(kept) => ("INIT", kept.expiry, "-"),
            State::Up(kept, mark) => ("UP", kept.expiry, mark_name(mark)),
        };
        write!(f, "{state:<6}{expiry:<8}{mark:<9}")
    }
}

fn level_names(levels: Option<Levels>) -> &'static str {
    let Some(Levels { one, two }) = levels else {
        return "-";
    };
    match (one, two) {
        (true, true) => "1+2",
        (true, false) => "1",
        (false, _) => "2",
    }
}

fn ack_name(ack: Ack) -> &'static str {
    match ack {
        Ack::Restart => "RA",
        Ack::Planned => "PA",
    }
}

// Line 1's levels, the reply's kind and Remaining Time, and its octets.
#[derive(Clone, Copy)]
pub struct Received<'a> {
    pub orders: Orders,
    pub reply: &'a [u8],
}

impl fmt::Display for Received<'_> {
    fn fmt<W: fmt::Write>(&self, f: &mut fmt::Formatter<W>) -> fmt::Result {
        write!(f, "{:<6}", level_names(self.orders.csnps))?;
        let Some((ack, time)) = self.orders.reply else {
            return f.write_str("none");
        };
        write!(f, "{:<6}{time}:", ack_name(ack))?;
        for octet in self.reply {
            write!(f, " {octet:02x}")?;
        }
        Ok(())
    }
}
