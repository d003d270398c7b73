// What the calls answer (document 01, "What the gateway holds"): `Err` with the refusal, or `Ok` with what follows here; release, clear, and begin and chunk
// of a frame have nothing to report. A notice answers how the timers ended and what they order, setup the hellos that are ordered. An order is an action the
// caller must take. A mask over circuits has the lowest bit for circuit 1.
use adjacency::marks::Reply;
use adjacency::record::{Phase, State};
use basics::levels::Levels;
use basics::refusal::Refusal;
use restart_tlv::flags::Flags;
use timer_parts::t1::Freed;
use timers::hellos::{HelloOrder, HelloOrders};
use timers::outcome::TimerOutcome;

// What became of the record of a frame: its key's level (0 on P2P) and System ID, its state before and after, and whether it is advertised
// after.
#[derive(Clone, Copy)]
pub struct Change {
    pub level: u8,
    pub system: u64,
    pub before: Phase,
    pub after: Phase,
    pub advertised: bool,
}

// Of an accepted frame: the reply that was written, line 1's order, how the timers ended and what they order, whether the frame's T1 was
// stopped for want of a Restart TLV, the hello that is ordered on the circuit (on a LAN, of its level), and what became of the record.
#[derive(Clone, Copy)]
pub struct Orders {
    pub reply: Option<Reply>,
    pub csnps: Option<Levels>,
    pub outcome: TimerOutcome,
    pub freed: Freed,
    pub hello: HelloOrder,
    pub change: Change,
}

// Of a tick: the circuits that lost a record, the hellos that are ordered, and how the timers ended.
#[derive(Clone, Copy)]
pub struct Ticked {
    pub lost: u8,
    pub hellos: HelloOrders,
    pub outcome: TimerOutcome,
}

// Of a look up: the state of the record with the key, if there is one, and whether it is advertised.
#[derive(Clone, Copy)]
pub struct Found {
    pub state: State,
    pub advertised: bool,
}

// How many T1s run, and the lowest circuit with one.
#[derive(Clone, Copy)]
pub struct Waiting {
    pub count: u32,
    pub lowest: Option<u8>,
}
