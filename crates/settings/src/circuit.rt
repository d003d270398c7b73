// One circuit's settings (document 01, "What the gateway holds").
ghost use Rattle.std.specs.Prelude.{◌≡◌};
ghost use Rattle.settings.specs.Settings.{between, circuit_ok};

use basics::kind::CircuitKind;
use basics::levels::{Levels, some_on};

pub const MAX_PRIORITY: u32 = 127;

pub const MAX_HOLD: u32 = 65535;

pub const MAX_METRIC: u32 = 16777214;

// The id is our own extended circuit ID, which only a P2P circuit has.
#[derive(Clone, Copy)]
pub struct Circuit {
    pub kind: CircuitKind,
    pub levels: Levels,
    pub mac: u64,
    pub priority: u8,
    pub hold: u16,
    pub metric: u32,
    pub id: u32,
}

// Whether a number is in a range.
pub fn is_between(low: u32, n: u32, high: u32) -> bool
    ensures { result ≡ between low n high }
{
    low <= n && n <= high
}

// Whether a circuit's settings are in range.
#[tactic(auto, unfolding(crate::specs::Settings::circuit_ok))]
pub fn is_circuit_ok(s: Circuit) -> bool
    ensures { result ≡ circuit_ok s }
{
    some_on(s.levels)
        && is_between(0, s.priority as u32, MAX_PRIORITY)
        && is_between(1, s.hold as u32, MAX_HOLD)
        && is_between(0, s.metric, MAX_METRIC)
}
