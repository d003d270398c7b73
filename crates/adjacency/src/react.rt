// One frame's whole effect on the one record with its key.
ghost use Rattle.std.specs.Prelude.{◌≡◌};
ghost use Rattle.adjacency.specs.React.{priority_of, has_tlv, last_of, expiry_in, times_of, state_as, data_by, remaining_in, accepted_by, react_of, OwnRoad};
ghost use Rattle.adjacency.specs.Marks.{time_in, reply_by};
ghost use Rattle.adjacency.specs.Step.{wrong_of};

use crate::marks::{Line, Reply, Road, Times, expiry_by, mark_by, remaining_of, reply_by, road_of};
use crate::record::{
    Data, Last, Mark, Phase, State, is_suppressed, mark_of, phase_of, state_expiry,
};
use crate::step::{Here, Wrong, is_wrong_neighbor, step_of};
use basics::refusal::Refusal;
use hello::read::{Hello, Link};
use restart_tlv::reader::RestartTlv;

// Refused (8), or the record afterwards, the reply, and the line that fitted.
pub type Reaction = Result<(Option<State>, Option<Reply>, Line), Refusal>;

fn priority_of(link: Link) -> u8
    ensures { result ≡ priority_of link }
{
    match link {
        Link::Lan { priority, .. } => priority,
        Link::P2p(_) => 0,
    }
}

fn has_tlv(tlv: RestartTlv) -> bool
    ensures { result ≡ has_tlv tlv }
{
    match tlv {
        RestartTlv::Absent => false,
        RestartTlv::Ignored | RestartTlv::Present { .. } => true,
    }
}

fn last_of(frame: Hello) -> Last
    ensures { result ≡ last_of frame }
{
    Last {
        priority: priority_of(frame.link),
        tlv: has_tlv(frame.restart),
        reverse: frame.reverse,
    }
}

fn expiry_in(adjacency: Option<State>) -> u64
    ensures { result ≡ expiry_in adjacency }
{
    let Some(state) = adjacency else {
        return 0;
    };
    state_expiry(state)
}

fn times_of(here: Here, frame: Hello, remaining: u16, adjacency: Option<State>) -> Times
    requires { remaining ≡ time_in frame.restart }
    ensures { result ≡ times_of here frame adjacency }
{
    Times {
        clock: here.clock,
        hold: frame.hold,
        configured: here.hold,
        remaining,
        expiry: expiry_in(adjacency),
    }
}

fn state_as(after: Phase, kept: Data, mark: Mark) -> Option<State>
    ensures { result ≡ state_as after kept mark }
{
    match after {
        Phase::Gone => None,
        Phase::Init => Some(State::Init(kept)),
        Phase::Up => Some(State::Up(kept, mark)),
    }
}

// The road is that of the frame's own TLV.
fn data_by(road: Road, here: Here, frame: Hello, adjacency: Option<State>) -> Data
    requires { OwnRoad road frame adjacency }
    ensures { result ≡ data_by road.line here frame adjacency }
{
    let line = road.line;
    let suppressed = road.suppressed;
    let times = times_of(here, frame, road.time, adjacency);
    let expiry = expiry_by(line, times, mark_of(adjacency));
    let last = last_of(frame);
    Data {
        expiry,
        suppressed,
        last,
    }
}

fn remaining_in(after: Phase, expiry: u64, clock: u32) -> u16
    ensures { result ≡ remaining_in after expiry clock }
{
    match after {
        Phase::Gone => 0,
        Phase::Init | Phase::Up => remaining_of(expiry, clock),
    }
}

// The reply by the line that fitted. Its Remaining Time is counted only where there is one.
fn reply_in(line: Line, after: Phase, expiry: u64, clock: u32) -> Option<Reply>
    ensures { result ≡ reply_by line (remaining_in after expiry clock) }
{
    let Some((ack, _)) = reply_by(line, 0) else {
        return None;
    };
    Some((ack, remaining_in(after, expiry, clock)))
}

fn accept(road: Road, after: Phase, here: Here, frame: Hello, adjacency: Option<State>) -> Reaction
    requires { OwnRoad road frame adjacency }
    ensures { result ≡ accepted_by road.line after here frame adjacency }
{
    let line = road.line;
    let data = data_by(road, here, frame, adjacency);
    let expiry = data.expiry;
    let state = state_as(after, data, mark_by(line, mark_of(adjacency)));
    let reply = reply_in(line, after, expiry, here.clock);
    Ok((state, reply, line))
}

// Refusal 8, or the frame's effect on the record with its key.
pub fn react_to(here: Here, wrong: Wrong, frame: Hello, adjacency: Option<State>) -> Reaction
    requires { wrong ≡ wrong_of here frame.link }
    ensures { result ≡ react_of here frame adjacency }
{
    let tlv = frame.restart;
    let phase = phase_of(adjacency);
    if is_wrong_neighbor(here, wrong, phase, frame) {
        return Err(Refusal::WrongNeighbor);
    }
    let after = step_of(here, wrong, phase, frame);
    let road = road_of(
        tlv,
        mark_of(adjacency),
        is_suppressed(adjacency),
        phase,
        after,
    );
    accept(road, after, here, frame, adjacency)
}
