// Set up from octets: every setting is checked before a word is written, and circuits are read one by one, in both passes, so that no more than one is held.
ghost use Rattle.std.specs.Prelude.{◌≡◌, ◌≤◌, length, take};
ghost use Rattle.basics.specs.Mask.{circuits};
ghost use Rattle.basics.specs.Lists.{every};
ghost use Rattle.settings.specs.Settings.{circuit_ok, settings_ok};
ghost use Rattle.model.specs.Gateway.{setup};
ghost use Rattle.own_words.specs.Setup.{HoldsCircuits};
ghost use Rattle.gateway.specs.Whole.{SetsUpWhole};
ghost use Rattle.isis_gr.specs.Settings.{settings_octets, settings_from};

use crate::config::{CIRCUIT_OCTETS, FIRST_CIRCUIT, basis_in, circuit_at};
use basics::mask::CIRCUITS;
use basics::refusal::Refusal;
use gateway::setup::{put_circuit, start};
use gateway::whole::GATEWAY_WORDS;
use settings::circuit::{is_between, is_circuit_ok};
use settings::setup::are_lengths_ok;
use timers::hellos::HelloOrders;

// By a `for`: with `all` a set-up that is refused for what comes later takes a quarter more.
fn are_circuits_ok(s: &[u8], count: usize) -> bool
    requires { (length s.now ≡ settings_octets) × (count ≤ circuits) }
    ensures { result ≡ every circuit_ok (take count (settings_from s.now).circuits) }
{
    for i in 0..count {
        if !is_circuit_ok(circuit_at(s, FIRST_CIRCUIT + CIRCUIT_OCTETS * i)) {
            return false;
        }
    }
    true
}

fn are_settings_ok(s: &[u8]) -> bool
    requires { length s.now ≡ settings_octets }
    ensures { result ≡ settings_ok (settings_from s.now) }
{
    let basis = basis_in(s);
    is_between(1, u32::from(basis.count), CIRCUITS as u32)
        && are_circuits_ok(s, usize::from(basis.count))
        && are_lengths_ok(basis.lengths)
}

fn put_circuits(gateway: &mut [u64; GATEWAY_WORDS], s: &[u8])
    requires { length s.now ≡ settings_octets }
    ensures { HoldsCircuits (settings_from s.now).circuits gateway.new }
{
    for i in 0..CIRCUITS {
        put_circuit(
            gateway,
            i,
            circuit_at(s, FIRST_CIRCUIT + CIRCUIT_OCTETS * i),
        );
    }
}

// Refusal 12, or a new gateway, whatever the words were.
pub(crate) fn set_up_from(
    gateway: &mut [u64; GATEWAY_WORDS],
    s: &[u8],
) -> Result<HelloOrders, Refusal>
    requires { length s.now ≡ settings_octets }
    ensures { SetsUpWhole (setup (settings_from s.now)) gateway.old gateway.new result }
{
    if are_settings_ok(s) {
        put_circuits(gateway, s);
        let hellos = start(gateway, basis_in(s));
        return Ok(hellos);
    }
    Err(Refusal::BadSetting)
}
