// The reason why a call ordered no CSNPs (document 02, W-204): it was refused, line 2 to 5 fitted, or another router has the duty.
ghost use Rattle.std.specs.Prelude.{◌≡◌, List, ℕ, length};
ghost use Rattle.hello.specs.declared.read.Hello.{Hello};
ghost use Rattle.adjacency.specs.Keys.{level_in};
ghost use Rattle.settings.specs.declared.circuit.Circuit.{Circuit};
ghost use Rattle.control.specs.Common.{circuit_of};
ghost use Rattle.model.specs.Answers.{Received as ReceivedAnswer};
ghost use Rattle.model.specs.Answers.{frame_answer};
ghost use Rattle.model.specs.Gateway.{room_of};
ghost use Rattle.model.specs.Numbers.{reply_flags};
ghost use Rattle.model.specs.Receive.{rank_of};
ghost use Rattle.model.specs.Step.{Call, At, Receive, step};
ghost use Rattle.own_words.specs.Words.{gateway_of};
ghost use Rattle.gateway.specs.Whole.{gateway_words};
ghost use Rattle.reasons.specs.Duty.{duty_in};
ghost use Rattle.reasons.specs.Why.{reason_of, by_duty, by_line, no_csnps};
ghost use Rattle.isis_gr_why.specs.Told.{Tells, line_told};

use crate::duty::duty_in;
use crate::made::Made;
use crate::standing::standing_in;
use adjacency::duty::Rank;
use adjacency::marks::{Line, Reply, road_of};
use adjacency::record::{Key, Phase, State, mark_of, phase_of};
use adjacency::step::is_up;
use control::words::{CONTROL_WORDS, circuit_of};
use model::answers::Orders;
use reasons::why::Reason;
use restart_tlv::reader::RestartTlv;
use restart_tlv::writer::Ack;
use slots::slot::ROOM_WORDS;

// The line that fitted a frame. Where no reply was due it is that of a frame without flags.
fn line_told(reply: Option<Reply>, stood: Option<State>) -> Line
    ensures { result ≡ line_told (reply_flags reply) stood }
{
    let Some((ack, _)) = reply else {
        let mark = mark_of(stood);
        let road = road_of(RestartTlv::Absent, mark, false, Phase::Gone, Phase::Gone);
        let line = road.line;
        return line;
    };
    let Ack::Restart = ack else {
        return Line::Three;
    };
    if is_up(phase_of(stood)) {
        return Line::One;
    }
    Line::Two
}

// Who has the duty on circuit n at a level, of the room as the frame left it. The circuit's settings are those before, which no call changes.
fn why_outranked(before: &[u64], after: &[u64], n: u8, level: u8) -> Reason
    requires { (length before.now ≡ gateway_words) × (length after.now ≡ gateway_words) }
    ensures { (s : Circuit) (h : Hello) → circuit_of (gateway_of before.now).common n ≡ Some s → level ≡ level_in h.link → reason_of result ≡ by_duty (duty_in (rank_of s h) (room_of (gateway_of after.now) n).slots) }
{
    let Some(s) = circuit_of(&before[0..CONTROL_WORDS], n) else {
        return Reason::NotSo;
    };
    let rank = Rank {
        level,
        priority: s.priority,
        mac: s.mac,
    };
    let a = CONTROL_WORDS + ROOM_WORDS * (n as usize - 1);
    match duty_in(&after[a..a + ROOM_WORDS], rank) {
        Some(router) => Reason::Outranked(router),
        None => Reason::NotSo,
    }
}

// By the line that fitted.
fn why_by(before: &[u64], after: &[u64], n: u8, level: u8, line: Line) -> Reason
    requires { (length before.now ≡ gateway_words) × (length after.now ≡ gateway_words) }
    ensures { (s : Circuit) (h : Hello) → circuit_of (gateway_of before.now).common n ≡ Some s → level ≡ level_in h.link → reason_of result ≡ by_line line (duty_in (rank_of s h) (room_of (gateway_of after.now) n).slots) }
{
    let Line::One = line else {
        return Reason::Fits(line);
    };
    why_outranked(before, after, n, level)
}

// Of a frame that was accepted on circuit n. Its record before is looked for by what the answer tells of its key.
fn why_unordered(before: &[u64], after: &[u64], n: u8, mac: u64, orders: Orders) -> Reason
    requires { (length before.now ≡ gateway_words) × (length after.now ≡ gateway_words) }
    ensures { (frame b : List ℕ) (c : Call) → c ≡ At n (Receive mac frame b) → ReceivedAnswer (frame_answer orders) ≡ (step (gateway_of before.now) c).answer → gateway_of after.now ≡ (step (gateway_of before.now) c).next → reason_of result ≡ no_csnps (gateway_of before.now) c (step (gateway_of before.now) c) }
{
    let csnps = orders.csnps;
    let None = csnps else {
        return Reason::NotSo;
    };
    let change = orders.change;
    let reply = orders.reply;
    let level = change.level;
    let key = Key {
        level,
        system: change.system,
        mac,
    };
    let stood = standing_in(before, n, key);
    let line = line_told(reply, stood);
    why_by(before, after, n, level, line)
}

// Of any call.
pub(crate) fn why_silent(before: &[u64], after: &[u64], made: Made, mac: u64) -> Reason
    requires { (length before.now ≡ gateway_words) × (length after.now ≡ gateway_words) }
    ensures { (frame b : List ℕ) (c : Call) → Tells made mac frame b c (step (gateway_of before.now) c).answer → gateway_of after.now ≡ (step (gateway_of before.now) c).next → reason_of result ≡ no_csnps (gateway_of before.now) c (step (gateway_of before.now) c) }
{
    let Made::Frame(n, answer) = made else {
        return Reason::NotSo;
    };
    match answer {
        Err(x) => Reason::Refused(x),
        Ok(orders) => why_unordered(before, after, n, mac, orders),
    }
}
