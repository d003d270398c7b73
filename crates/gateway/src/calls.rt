// The ten calls of document 01 ("What the gateway holds"), clear, which is ours, and begin, chunk and end of document 02 (W-205). The gateway is memory that
// the caller lends; any content of it means some gateway, and memory that was never set up is one without circuits. Circuits are numbered from 1; MACs and
// System IDs are six octets. A refusal leaves the memory and the reply buffer as they were, but that an end which receive refuses drops its frame.
ghost use Rattle.std.specs.Prelude.{◌≡◌, [], length};
ghost use Rattle.basics.specs.Octets.{big};
ghost use Rattle.model.specs.Answers.{received_of, handed_of, ticked_of, released_of, noticed_of, looked_of, metric_of, flags_of, waiting_of};
ghost use Rattle.model.specs.Gateway.{setup};
ghost use Rattle.model.specs.Step.{Hand, Begin, Chunk, End, At, Over, Receive, Tick, Release, Clear, CsnpComplete, DatabaseComplete, LookUp, LinkMetric, NextHello};
ghost use Rattle.model.specs.Step.{Waiting as Waits};
ghost use Rattle.gateway.specs.Given.{key_given, settings_given};
ghost use Rattle.gateway.specs.Whole.{DoesWith, Does, SetsUpWhole};

use crate::config::{GatewaySettings, settings_given};
use crate::pieces::{FRAME_OCTETS, begin_at, chunk_at, end_at};
use crate::whole::{
    GATEWAY_WORDS, clear_at, csnp_at, database_at, flags_at, look_at, metric_at, receive_at,
    release_at, set_up_at, tick_at, waiting_at,
};
use adjacency::record::Key;
use basics::octets::six;
use basics::refusal::Refusal;
use model::answers::{Found, Orders, Ticked, Waiting};
use restart_tlv::flags::Flags;
use timers::hellos::HelloOrders;
use timers::outcome::TimerOutcome;

// A new gateway, whatever the memory was; the answer says which hellos are ordered.
pub fn set_up(
    gateway: &mut [u64; GATEWAY_WORDS],
    settings: GatewaySettings,
) -> Result<HelloOrders, Refusal>
    ensures { SetsUpWhole (setup (settings_given settings)) gateway.old gateway.new result }
{
    set_up_at(gateway, settings_given(settings))
}

// A hello frame from a source MAC; the reply buffer has at least 11 octets.
pub fn receive(
    gateway: &mut [u64; GATEWAY_WORDS],
    circuit: u8,
    source: &[u8; 6],
    frame: &[u8],
    reply: &mut [u8],
) -> Result<Orders, Refusal>
    ensures { Does (At circuit (Receive (big 6 source.now 0) frame.now reply.old)) (received_of result) gateway.old gateway.new reply.new }
{
    receive_at(gateway, circuit, source, frame, reply)
}

// A frame in chunks is begun on a circuit, from a source MAC; one that was begun there before is dropped.
pub fn begin_frame(
    gateway: &mut [u64; GATEWAY_WORDS],
    circuit: u8,
    source: &[u8; 6],
) -> Result<(), Refusal>
    ensures { Does (Hand circuit (Begin (big 6 source.now 0))) (handed_of result) gateway.old gateway.new [] }
{
    begin_at(gateway, circuit, source)
}

// A chunk of it, which may be empty.
pub fn add_chunk(
    gateway: &mut [u64; GATEWAY_WORDS],
    frames: &mut [u8; FRAME_OCTETS],
    circuit: u8,
    octets: &[u8],
) -> Result<(), Refusal>
    ensures { DoesWith (Hand circuit (Chunk octets.now)) (handed_of result) gateway.old frames.old gateway.new frames.new [] }
{
    chunk_at(gateway, frames, circuit, octets)
}

// Its end: a receive of the joined octets, and the frame is dropped.
pub fn end_frame(
    gateway: &mut [u64; GATEWAY_WORDS],
    frames: &[u8; FRAME_OCTETS],
    circuit: u8,
    reply: &mut [u8],
) -> Result<Orders, Refusal>
    ensures { DoesWith (Hand circuit (End reply.old)) (received_of result) gateway.old frames.now gateway.new frames.now reply.new }
{
    end_at(gateway, frames, circuit, reply)
}

// The clock: records whose expiry is reached go, and the timers move.
pub fn tick(gateway: &mut [u64; GATEWAY_WORDS], clock: u32) -> Result<Ticked, Refusal>
    ensures { Does (Over (Tick clock)) (ticked_of result) gateway.old gateway.new [] }
{
    tick_at(gateway, clock)
}

// The circuit's Planned records go.
pub fn release(gateway: &mut [u64; GATEWAY_WORDS], circuit: u8) -> Result<(), Refusal>
    ensures { Does (At circuit Release) (released_of result) gateway.old gateway.new [] }
{
    release_at(gateway, circuit)
}

// The link went down: all records of the circuit go, and no timer is touched.
pub fn clear(gateway: &mut [u64; GATEWAY_WORDS], circuit: u8) -> Result<(), Refusal>
    ensures { Does (At circuit Clear) (released_of result) gateway.old gateway.new [] }
{
    clear_at(gateway, circuit)
}

// The CSNP set of a level is complete on a circuit.
pub fn csnp_complete(
    gateway: &mut [u64; GATEWAY_WORDS],
    circuit: u8,
    level: u8,
) -> Result<TimerOutcome, Refusal>
    ensures { Does (At circuit (CsnpComplete level)) (noticed_of result) gateway.old gateway.new [] }
{
    csnp_at(gateway, circuit, level)
}

// The database of a level is complete.
pub fn database_complete(
    gateway: &mut [u64; GATEWAY_WORDS],
    level: u8,
) -> Result<TimerOutcome, Refusal>
    ensures { Does (Over (DatabaseComplete level)) (noticed_of result) gateway.old gateway.new [] }
{
    database_at(gateway, level)
}

fn key_given(level: u8, system: &[u8], mac: &[u8]) -> Key
    requires { (length system.now ≡ 6) × (length mac.now ≡ 6) }
    ensures { result ≡ key_given level system.now mac.now }
{
    Key {
        level,
        system: six(system, 0),
        mac: six(mac, 0),
    }
}

// The record with a key; on P2P the level and the MAC count for nothing.
pub fn look_up(
    gateway: &[u64; GATEWAY_WORDS],
    circuit: u8,
    level: u8,
    system: &[u8; 6],
    mac: &[u8; 6],
) -> Result<Option<Found>, Refusal>
    ensures { Does (At circuit (LookUp (key_given level system.now mac.now))) (looked_of result) gateway.now gateway.now [] }
{
    look_at(gateway, circuit, key_given(level, system, mac))
}

// The metric of a circuit's link, with a P2P neighbour's reverse metric.
pub fn link_metric(gateway: &[u64; GATEWAY_WORDS], circuit: u8) -> Result<u32, Refusal>
    ensures { Does (At circuit LinkMetric) (metric_of result) gateway.now gateway.now [] }
{
    metric_at(gateway, circuit)
}

// The flags that the next hello on a circuit carries, on a LAN that of a level; on P2P the one hello's at each of its levels.
pub fn next_hello_flags(
    gateway: &[u64; GATEWAY_WORDS],
    circuit: u8,
    level: u8,
) -> Result<Flags, Refusal>
    ensures { Does (At circuit (NextHello level)) (flags_of result) gateway.now gateway.now [] }
{
    flags_at(gateway, circuit, level)
}

// How many T1s run, and the lowest circuit with one.
pub fn waiting_t1s(gateway: &[u64; GATEWAY_WORDS]) -> Waiting
    ensures { Does (Over Waits) (waiting_of result) gateway.now gateway.now [] }
{
    waiting_at(gateway)
}
