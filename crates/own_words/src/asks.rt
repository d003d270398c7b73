// What is asked of a gateway: a record, the link metric, the next hello's flags, the T1s that run. Nothing is changed.
ghost use Rattle.std.specs.Prelude.{◌≡◌, [], ◌<◌, ◌≤◌, length};
ghost use Rattle.basics.specs.Mask.{circuits};
ghost use Rattle.model.specs.Answers.{Told, record_answer, looked_of, metric_of, flags_of, waiting_of};
ghost use Rattle.model.specs.Answers.{Looked as LookedFact};
ghost use Rattle.model.specs.Step.{asks_level, look_up, next_hello, lift, step, At, Over, LookUp, LinkMetric, NextHello};
ghost use Rattle.model.specs.Step.{Waiting as Waits};
ghost use Rattle.own_words.specs.Words.{own_words, gateway_of, Meets};

use adjacency::keys::key_on;
use adjacency::record::{Key, State, is_advertised};
use basics::kind::CircuitKind;
use basics::levels::{Levels, has_level};
use basics::refusal::Refusal;
use control::timing::{count_waiting, lowest_waiting, next_flags};
use control::words::{CONTROL_WORDS, circuit_of};
use metric::link_metric;
use model::answers::{Found, Waiting};
use restart_tlv::flags::Flags;
use room::place::found;
use room::search::first_state;
use settings::circuit::Circuit;
use settings::serving::t1_place;
use slots::slot::ROOM_WORDS;

// Whether a key's level may be asked for on a circuit: it counts on a LAN alone.
pub fn asks_level(kind: CircuitKind, levels: Levels, level: u8) -> bool
    ensures { result ≡ asks_level kind levels level }
{
    match kind {
        CircuitKind::Lan => has_level(levels, level),
        CircuitKind::P2p => true,
    }
}

// "A record is advertised exactly when it is UP and not Suppressed."
fn looked_at(stood: Option<State>) -> Result<Option<Found>, Refusal>
    ensures { looked_of result ≡ Told (LookedFact (record_answer stood)) }
{
    match stood {
        None => Ok(None),
        Some(state) => Ok(Some(Found {
            state,
            advertised: is_advertised(state),
        })),
    }
}

fn look_on(gateway: &[u64], n: u8, s: Circuit, key: Key) -> Result<Option<Found>, Refusal>
    requires { (length gateway.now ≡ own_words) × (0 < n) × (n ≤ circuits) }
    ensures { Meets (looked_of result) (lift (gateway_of gateway.now) n (look_up s key)) gateway.now gateway.now [] }
{
    if asks_level(s.kind, s.levels, key.level) {
        let own = key_on(s.kind, key);
        let a = CONTROL_WORDS + ROOM_WORDS * (n as usize - 1);
        let stood = found(&gateway[a..a + ROOM_WORDS], own);
        return looked_at(stood);
    }
    Err(Refusal::NoCircuit)
}

// The record with a key on a circuit.
pub fn look_in(gateway: &[u64], n: u8, key: Key) -> Result<Option<Found>, Refusal>
    requires { length gateway.now ≡ own_words }
    ensures { Meets (looked_of result) (step (gateway_of gateway.now) (At n (LookUp key))) gateway.now gateway.now [] }
{
    let Some(s) = circuit_of(&gateway[0..CONTROL_WORDS], n) else {
        return Err(Refusal::NoCircuit);
    };
    look_on(gateway, n, s, key)
}

pub fn metric_in(gateway: &[u64], n: u8) -> Result<u32, Refusal>
    requires { length gateway.now ≡ own_words }
    ensures { Meets (metric_of result) (step (gateway_of gateway.now) (At n LinkMetric)) gateway.now gateway.now [] }
{
    let Some(s) = circuit_of(&gateway[0..CONTROL_WORDS], n) else {
        return Err(Refusal::NoCircuit);
    };
    let a = CONTROL_WORDS + ROOM_WORDS * (n as usize - 1);
    let stood = first_state(&gateway[a..a + ROOM_WORDS]);
    Ok(link_metric(s.kind, s.metric, stood))
}

fn flags_on(gateway: &[u64], n: u8, s: Circuit, level: u8) -> Result<Flags, Refusal>
    requires { (length gateway.now ≡ own_words) × (0 < n) × (n ≤ circuits) }
    ensures { Meets (flags_of result) (lift (gateway_of gateway.now) n (next_hello n s level)) gateway.now gateway.now [] }
{
    if !has_level(s.levels, level) {
        return Err(Refusal::NoCircuit);
    }
    let i = t1_place(s.kind, n as usize - 1, level);
    let flags = next_flags(&gateway[0..CONTROL_WORDS], i);
    Ok(flags)
}

// The flags of the next hello on a circuit, at a level.
pub fn flags_in(gateway: &[u64], n: u8, level: u8) -> Result<Flags, Refusal>
    requires { length gateway.now ≡ own_words }
    ensures { Meets (flags_of result) (step (gateway_of gateway.now) (At n (NextHello level))) gateway.now gateway.now [] }
{
    let Some(s) = circuit_of(&gateway[0..CONTROL_WORDS], n) else {
        return Err(Refusal::NoCircuit);
    };
    flags_on(gateway, n, s, level)
}

pub fn waiting_in(gateway: &[u64]) -> Waiting
    requires { length gateway.now ≡ own_words }
    ensures { Meets (waiting_of result) (step (gateway_of gateway.now) (Over Waits)) gateway.now gateway.now [] }
{
    let count = count_waiting(&gateway[0..CONTROL_WORDS]);
    let lowest = lowest_waiting(&gateway[0..CONTROL_WORDS]);
    Waiting { count, lowest }
}
