// All settings, as setup takes them (document 01, "What the gateway holds").
ghost use Rattle.std.specs.Prelude.{◌≡◌};
ghost use Rattle.basics.specs.Lists.{every};
ghost use Rattle.settings.specs.Settings.{circuit_ok, lengths_ok, settings_ok};

use crate::circuit::{Circuit, is_between, is_circuit_ok};
use crate::lengths::Lengths;
use crate::mode::Mode;
use basics::mask::CIRCUITS;

pub const MAX_LENGTH: u32 = 65535;

pub const MAX_TRIES: u32 = 255;

// The gateway's circuits are the first `count` of them, numbered from 1.
#[derive(Clone, Copy)]
pub struct Settings {
    pub system: u64,
    pub lengths: Lengths,
    pub clock: u32,
    pub mode: Mode,
    pub count: u8,
    pub circuits: [Circuit; CIRCUITS],
}

// Whether the lengths are in range.
#[tactic(auto, unfolding(crate::specs::Settings::lengths_ok))]
pub fn are_lengths_ok(s: Lengths) -> bool
    ensures { result ≡ lengths_ok s }
{
    is_between(1, s.t1 as u32, MAX_LENGTH)
        && is_between(1, s.t2 as u32, MAX_LENGTH)
        && is_between(1, s.tries as u32, MAX_TRIES)
}

fn are_circuits_ok(all: &[Circuit]) -> bool
    ensures { result ≡ every circuit_ok all.now }
{
    all.iter().all(|one| is_circuit_ok(*one))
}

// Where not, setup is refused (12) and no gateway results.
#[tactic(auto, unfolding(crate::specs::Settings::settings_ok))]
pub fn are_settings_ok(s: Settings) -> bool
    ensures { result ≡ settings_ok s }
{
    is_between(1, s.count as u32, CIRCUITS as u32)
        && are_circuits_ok(&s.circuits[..s.count as usize])
        && are_lengths_ok(s.lengths)
}
