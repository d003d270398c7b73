// Setup (document 01, "What the gateway holds"): every setting is checked before a word is written.
ghost use Rattle.std.specs.Prelude.{◌≡◌, ◌<◌, ◌≤◌, length};
ghost use Rattle.basics.specs.Mask.{circuits};
ghost use Rattle.timers.specs.Hellos.{hellos_of};
ghost use Rattle.model.specs.Gateway.{setup};
ghost use Rattle.own_words.specs.Words.{own_words};
ghost use Rattle.own_words.specs.Setup.{PutsCircuit, HoldsCircuits, Begins, SetsUp, counted_basis};

use basics::mask::CIRCUITS;
use basics::refusal::Refusal;
use control::setup::{Basis, begin, store_circuit};
use control::words::CONTROL_WORDS;
use room::empty::open_room;
use settings::circuit::Circuit;
use settings::setup::{Settings, are_settings_ok};
use slots::slot::ROOM_WORDS;
use timers::hellos::HelloOrders;

// Circuit i (from 0) of a gateway that is being set up: its settings are stored, and no record stands there.
pub fn put_in(gateway: &mut [u64], i: usize, s: Circuit)
    requires { (length gateway.old ≡ own_words) × (i < circuits) }
    ensures { PutsCircuit i s gateway.old gateway.new }
{
    let a = CONTROL_WORDS + ROOM_WORDS * i;
    store_circuit(&mut gateway[0..CONTROL_WORDS], i, s);
    open_room(&mut gateway[a..a + ROOM_WORDS], s.kind);
}

fn put_circuits(gateway: &mut [u64], all: [Circuit; CIRCUITS])
    requires { length gateway.old ≡ own_words }
    ensures { HoldsCircuits all gateway.new }
{
    for i in 0..CIRCUITS {
        put_in(gateway, i, all[i]);
    }
}

// The rest of a new gateway, once its circuits are put.
pub fn begin_in(gateway: &mut [u64], s: Basis) -> HelloOrders
    requires { (length gateway.old ≡ own_words) × (s.count ≤ circuits) }
    ensures { Begins s gateway.old gateway.new (hellos_of result) }
{
    begin(&mut gateway[0..CONTROL_WORDS], s)
}

// Refusal 12, or a new gateway, whatever the words were.
pub fn set_up_in(gateway: &mut [u64], s: Settings) -> Result<HelloOrders, Refusal>
    requires { length gateway.old ≡ own_words }
    ensures { SetsUp (setup s) gateway.old gateway.new result }
{
    if are_settings_ok(s) {
        let basis = Basis {
            system: s.system,
            lengths: s.lengths,
            clock: s.clock,
            mode: s.mode,
            count: s.count,
        };
        put_circuits(gateway, s.circuits);
        let hellos = begin_in(gateway, basis);
        return Ok(hellos);
    }
    Err(Refusal::BadSetting)
}

// A count above 8 counts for none, as it does in the words.
pub fn counted(s: Basis) -> Basis
    ensures { (result ≡ counted_basis s) × (result.count ≤ circuits) }
{
    if (CIRCUITS as u8) < s.count {
        return Basis { count: 0, ..s };
    }
    s
}
