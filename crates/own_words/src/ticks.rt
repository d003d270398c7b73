// Tick, release and clear: records removed, and the timers moved (document 01, "Marks and holding time" and "Timers while Restarting").
ghost use Rattle.std.specs.Prelude.{◌≡◌, [], map, ◌<◌, length, get_or, set};
ghost use Rattle.basics.specs.Mask.{circuits};
ghost use Rattle.model.specs.Answers.{ticked_of, released_of, lost_bits};
ghost use Rattle.model.specs.Gateway.{with_rooms, no_room};
ghost use Rattle.model.specs.Step.{swept_room, lapsed, step, At, Over, Tick, Release, Clear};
ghost use Rattle.own_words.specs.Words.{own_words, gateway_of, Meets};
ghost use Rattle.own_words.specs.Tick.{SweepsAll};

use basics::mask::{CIRCUITS, put_bit};
use basics::refusal::Refusal;
use control::timing::tick;
use control::words::{CONTROL_WORDS, circuit_of, clock_of, count_of};
use model::answers::Ticked;
use restart_tlv::flags::Flags;
use room::empty::open_room;
use room::sweep::{expire, release};
use slots::slot::ROOM_WORDS;
use timers::hellos::HelloOrders;
use timers::outcome::TimerOutcome;

// Circuit i (from 0): whether a record went.
fn sweep_room(gateway: &mut [u64], i: usize, clock: u32) -> bool
    requires { (length gateway.old ≡ own_words) × (i < circuits) }
    ensures { (result ≡ lapsed clock (get_or (gateway_of gateway.old).rooms i no_room)) × (gateway_of gateway.new ≡ with_rooms (gateway_of gateway.old) (set (gateway_of gateway.old).rooms i (swept_room clock (get_or (gateway_of gateway.old).rooms i no_room)))) }
{
    let a = CONTROL_WORDS + ROOM_WORDS * i;
    expire(&mut gateway[a..a + ROOM_WORDS], u64::from(clock))
}

// Every circuit: the mask of those that lost a record.
fn sweep_rooms(gateway: &mut [u64], clock: u32) -> u8
    requires { length gateway.old ≡ own_words }
    ensures { (lost_bits result ≡ map (lapsed clock) (gateway_of gateway.old).rooms) × (gateway_of gateway.new ≡ with_rooms (gateway_of gateway.old) (map (swept_room clock) (gateway_of gateway.old).rooms)) }
{
    let mut lost = 0u8;
    for i in 0..CIRCUITS {
        lost = put_bit(lost, i, sweep_room(gateway, i, clock));
    }
    lost
}

// The rooms, and then the clock and the timers.
fn sweep_all(gateway: &mut [u64], clock: u32) -> Result<Ticked, Refusal>
    requires { length gateway.old ≡ own_words }
    ensures { SweepsAll clock gateway.old gateway.new (ticked_of result) }
{
    let lost = sweep_rooms(gateway, clock);
    let x = tick(&mut gateway[0..CONTROL_WORDS], clock);
    let hellos = x.hellos;
    let outcome = x.outcome;
    Ok(Ticked {
        lost,
        hellos,
        outcome,
    })
}

// Refusal 10, or the tick. Memory that was never set up has no circuit: there a tick does nothing.
pub fn tick_in(gateway: &mut [u64], clock: u32) -> Result<Ticked, Refusal>
    requires { length gateway.old ≡ own_words }
    ensures { Meets (ticked_of result) (step (gateway_of gateway.old) (Over (Tick clock))) gateway.old gateway.new [] }
{
    if count_of(&gateway[0..CONTROL_WORDS]) == 0 {
        return Ok(Ticked {
            lost: 0,
            hellos: HelloOrders {
                t1s: 0,
                flags: Flags::NONE,
            },
            outcome: TimerOutcome::Idle,
        });
    }
    if clock < clock_of(&gateway[0..CONTROL_WORDS]) {
        return Err(Refusal::ClockBack);
    }
    sweep_all(gateway, clock)
}

// Refusal 1, or the circuit's Planned records go.
pub fn release_in(gateway: &mut [u64], n: u8) -> Result<(), Refusal>
    requires { length gateway.old ≡ own_words }
    ensures { Meets (released_of result) (step (gateway_of gateway.old) (At n Release)) gateway.old gateway.new [] }
{
    let Some(_) = circuit_of(&gateway[0..CONTROL_WORDS], n) else {
        return Err(Refusal::NoCircuit);
    };
    let a = CONTROL_WORDS + ROOM_WORDS * (n as usize - 1);
    release(&mut gateway[a..a + ROOM_WORDS]);
    Ok(())
}

// Refusal 1, or all records of the circuit go.
pub fn clear_in(gateway: &mut [u64], n: u8) -> Result<(), Refusal>
    requires { length gateway.old ≡ own_words }
    ensures { Meets (released_of result) (step (gateway_of gateway.old) (At n Clear)) gateway.old gateway.new [] }
{
    let Some(s) = circuit_of(&gateway[0..CONTROL_WORDS], n) else {
        return Err(Refusal::NoCircuit);
    };
    let a = CONTROL_WORDS + ROOM_WORDS * (n as usize - 1);
    open_room(&mut gateway[a..a + ROOM_WORDS], s.kind);
    Ok(())
}
