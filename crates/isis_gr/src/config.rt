// The settings of setup from octets; specs/Settings.antt says where each stands, and specs/Words.antt which numbers are known.
ghost use Rattle.std.specs.Prelude.{◌≡◌, ◌+◌, ◌<◌, ◌≤◌, length, take};
ghost use Rattle.basics.specs.Mask.{circuits};
ghost use Rattle.basics.specs.Lists.{every};
ghost use Rattle.control.specs.Setup.{basis_of};
ghost use Rattle.isis_gr.specs.Words.{mode_of, kind_of, levels_of};
ghost use Rattle.isis_gr.specs.Settings.{settings_octets, circuit_places, circuit_from, settings_from, circuit_known, settings_known};

use basics::kind::CircuitKind;
use basics::levels::Levels;
use basics::mask::CIRCUITS;
use basics::octets::{four, six, two};
use control::setup::Basis;
use settings::circuit::Circuit;
use settings::lengths::Lengths;
use settings::mode::Mode;

pub const SETTINGS_OCTETS: usize = FIRST_CIRCUIT + CIRCUIT_OCTETS * CIRCUITS;

// The version of the layout of these octets and of the answers' words.
pub const LAYOUT: u32 = 10;

// Where the settings stand.
const SYSTEM: usize = 0;

pub(crate) const T1: usize = 6;

pub(crate) const T2: usize = 8;

pub(crate) const TRIES: usize = 10;

const CLOCK: usize = 11;

pub(crate) const MODE: usize = 15;

pub(crate) const COUNT: usize = 16;

pub(crate) const FIRST_CIRCUIT: usize = 17;

// The octets of a circuit, and where its settings stand among them.
pub(crate) const CIRCUIT_OCTETS: usize = 19;

pub(crate) const LEVELS: usize = 1;

const MAC: usize = 2;

pub(crate) const PRIORITY: usize = 8;

pub(crate) const HOLD: usize = 9;

pub(crate) const METRIC: usize = 11;

const ID: usize = 15;

fn mode_of(n: u8) -> Mode
    ensures { result ≡ mode_of n }
{
    match n {
        1 => Mode::Restarting,
        2 => Mode::Starting,
        _ => Mode::Running,
    }
}

fn kind_of(n: u8) -> CircuitKind
    ensures { result ≡ kind_of n }
{
    match n {
        1 => CircuitKind::P2p,
        _ => CircuitKind::Lan,
    }
}

fn levels_of(n: u8) -> Levels
    ensures { result ≡ levels_of n }
{
    Levels {
        one: n % 2 == 1,
        two: n / 2 % 2 == 1,
    }
}

// The circuit whose octets start at a place.
pub(crate) fn circuit_at(s: &[u8], at: usize) -> Circuit
    requires { at + 18 < length s.now }
    ensures { result ≡ circuit_from s.now at }
{
    Circuit {
        kind: kind_of(s[at]),
        levels: levels_of(s[at + LEVELS]),
        mac: six(s, at + MAC),
        priority: s[at + PRIORITY],
        hold: two(s, at + HOLD),
        metric: four(s, at + METRIC),
        id: four(s, at + ID),
    }
}

// The settings but for the circuits.
pub(crate) fn basis_in(s: &[u8]) -> Basis
    requires { length s.now ≡ settings_octets }
    ensures { result ≡ basis_of (settings_from s.now) }
{
    Basis {
        system: six(s, SYSTEM),
        lengths: Lengths {
            t1: two(s, T1),
            t2: two(s, T2),
            tries: s[TRIES],
        },
        clock: four(s, CLOCK),
        mode: mode_of(s[MODE]),
        count: s[COUNT],
    }
}

fn is_circuit_known(s: &[u8], at: usize) -> bool
    requires { at + 1 < length s.now }
    ensures { result ≡ circuit_known s.now at }
{
    s[at] < 2 && s[at + LEVELS] < 4
}

fn are_circuits_known(s: &[u8], count: usize) -> bool
    requires { (length s.now ≡ settings_octets) × (count ≤ circuits) }
    ensures { result ≡ every (circuit_known s.now) (take count circuit_places) }
{
    (0..count).all(|i| is_circuit_known(s, FIRST_CIRCUIT + CIRCUIT_OCTETS * i))
}

// Where a number is not known, setup is refused (12).
pub(crate) fn are_settings_known(s: &[u8]) -> bool
    requires { length s.now ≡ settings_octets }
    ensures { result ≡ settings_known s.now }
{
    s[MODE] < 3 && are_circuits_known(s, usize::from(s[COUNT]).min(CIRCUITS))
}
