// The settings as a caller gives them to setup (document 01, "What the gateway holds"): MACs and the System ID are six octets.
ghost use Rattle.std.specs.Prelude.{◌≡◌, map};
ghost use Rattle.gateway.specs.Given.{circuit_given, settings_given};

use basics::kind::CircuitKind;
use basics::levels::Levels;
use basics::mask::CIRCUITS;
use basics::octets::six;
use settings::circuit::Circuit;
use settings::lengths::Lengths;
use settings::mode::Mode;
use settings::setup::Settings;

// One circuit's settings, as a caller gives them. The id is our own extended circuit ID, which only a P2P circuit has.
#[derive(Clone, Copy)]
pub struct CircuitSettings {
    pub kind: CircuitKind,
    pub levels: Levels,
    pub mac: [u8; 6],
    pub priority: u8,
    pub hold: u16,
    pub metric: u32,
    pub id: u32,
}

// The gateway's circuits are the first `count` of them, numbered from 1.
#[derive(Clone, Copy)]
pub struct GatewaySettings {
    pub system: [u8; 6],
    pub lengths: Lengths,
    pub clock: u32,
    pub mode: Mode,
    pub count: u8,
    pub circuits: [CircuitSettings; CIRCUITS],
}

fn circuit_given(s: CircuitSettings) -> Circuit
    ensures { result ≡ circuit_given s }
{
    Circuit {
        kind: s.kind,
        levels: s.levels,
        mac: six(&s.mac, 0),
        priority: s.priority,
        hold: s.hold,
        metric: s.metric,
        id: s.id,
    }
}

fn circuits_given(all: [CircuitSettings; CIRCUITS]) -> [Circuit; CIRCUITS]
    ensures { result ≡ map circuit_given all }
{
    all.map(circuit_given)
}

pub(crate) fn settings_given(s: GatewaySettings) -> Settings
    ensures { result ≡ settings_given s }
{
    Settings {
        system: six(&s.system, 0),
        lengths: s.lengths,
        clock: s.clock,
        mode: s.mode,
        count: s.count,
        circuits: circuits_given(s.circuits),
    }
}
