// Setup in parts, on the memory whole, for a caller that does not hold eight circuits at a time (document 01, "What the gateway holds").
ghost use Rattle.std.specs.Prelude.{◌≡◌, ◌<◌, ◌≤◌, length};
ghost use Rattle.basics.specs.Mask.{circuits};
ghost use Rattle.timers.specs.Hellos.{hellos_of};
ghost use Rattle.own_words.specs.Setup.{PutsCircuit, counted_basis};
ghost use Rattle.gateway.specs.Whole.{gateway_words, Starts};

use crate::whole::{GATEWAY_WORDS, drop_frames};
use basics::mask::CIRCUITS;
use control::setup::Basis;
use own_words::setup::{begin_in, counted, put_in};
use own_words::words::OWN_WORDS;
use settings::circuit::Circuit;
use timers::hellos::HelloOrders;

fn put_at(gateway: &mut [u64], i: usize, s: Circuit)
    requires { (length gateway.old ≡ gateway_words) × (i < circuits) }
    ensures { PutsCircuit i s gateway.old gateway.new }
{
    put_in(&mut gateway[0..OWN_WORDS], i, s)
}

// Circuit i (from 0) is put; nothing where there is no such circuit.
pub fn put_circuit(gateway: &mut [u64; GATEWAY_WORDS], i: usize, s: Circuit)
    ensures { PutsCircuit i s gateway.old gateway.new }
{
    if CIRCUITS <= i {
        return;
    }
    put_at(gateway, i, s);
}

fn start_at(gateway: &mut [u64], s: Basis) -> HelloOrders
    requires { (length gateway.old ≡ gateway_words) × (s.count ≤ circuits) }
    ensures { Starts s gateway.old gateway.new (hellos_of result) }
{
    let hellos = begin_in(&mut gateway[0..OWN_WORDS], s);
    drop_frames(gateway);
    hellos
}

// .. and then the rest, and no frame is begun; the answer is the hellos that are ordered.
pub fn start(gateway: &mut [u64; GATEWAY_WORDS], s: Basis) -> HelloOrders
    ensures { Starts (counted_basis s) gateway.old gateway.new (hellos_of result) }
{
    start_at(gateway, counted(s))
}
