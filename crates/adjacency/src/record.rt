// The record of a neighbour on a circuit (document 01, "What the gateway holds").
ghost use Rattle.std.specs.Prelude.{◌≡◌};
ghost use Rattle.adjacency.specs.Record.{advertised, phase_of, expiry_of, mark_of, suppressed_of};

use hello::reverse::ReverseMetric;

// Restart and Planned are never both marked, and only an UP record has either.
#[derive(Clone, Copy, PartialEq, Eq)]
pub enum Mark {
    Clear,
    Restart,
    Planned,
}

// What is kept of the last accepted frame.
#[derive(Clone, Copy)]
pub struct Last {
    pub priority: u8,
    pub tlv: bool,
    pub reverse: Option<ReverseMetric>,
}

// The data of either state.
#[derive(Clone, Copy)]
pub struct Data {
    pub expiry: u64,
    pub suppressed: bool,
    pub last: Last,
}

#[derive(Clone, Copy)]
pub enum State {
    Init(Data),
    Up(Data, Mark),
}

// A LAN record is known by level, System ID and source MAC. A P2P record is known by its System ID; its level and MAC are 0. A level is a number everywhere: C
// may ask for any.
#[derive(Clone, Copy)]
pub struct Key {
    pub level: u8,
    pub system: u64,
    pub mac: u64,
}

#[derive(Clone, Copy)]
pub struct Record {
    pub key: Key,
    pub state: State,
}

// No record, INIT or UP.
#[derive(Clone, Copy, PartialEq, Eq)]
pub enum Phase {
    Gone,
    Init,
    Up,
}

// UP and not Suppressed.
pub fn is_advertised(state: State) -> bool
    ensures { result ≡ advertised state }
{
    match state {
        State::Init(_) => false,
        State::Up(data, _) => !data.suppressed,
    }
}

// No record, INIT or UP.
pub fn phase_of(adjacency: Option<State>) -> Phase
    ensures { result ≡ phase_of adjacency }
{
    match adjacency {
        None => Phase::Gone,
        Some(State::Init(_)) => Phase::Init,
        Some(State::Up(_, _)) => Phase::Up,
    }
}

// The expiry of either state.
pub fn state_expiry(state: State) -> u64
    ensures { result ≡ expiry_of state }
{
    match state {
        State::Init(data) | State::Up(data, _) => data.expiry,
    }
}

// The mark; of no record and of INIT none.
pub fn mark_of(adjacency: Option<State>) -> Mark
    ensures { result ≡ mark_of adjacency }
{
    match adjacency {
        Some(State::Up(_, mark)) => mark,
        Some(State::Init(_)) | None => Mark::Clear,
    }
}

// Whether Suppressed is marked; of no record it is not.
pub fn is_suppressed(adjacency: Option<State>) -> bool
    ensures { result ≡ suppressed_of adjacency }
{
    match adjacency {
        Some(State::Init(data) | State::Up(data, _)) => data.suppressed,
        None => false,
    }
}
