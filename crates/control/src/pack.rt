// Settings packed into words, as common::words reads them. Each digit says what it is read as, and bounds itself.
ghost use Rattle.std.specs.Prelude.{◌≡◌, ◌<◌};
ghost use Rattle.control.specs.Words.{kind_in, circuit_in, lengths_in, serving_in};

use basics::bits::digit;
use basics::kind::CircuitKind;
use settings::circuit::Circuit;
use settings::lengths::Lengths;
use settings::serving::Serving;

fn kind_digit(kind: CircuitKind) -> u64
    ensures { (kind_in result ≡ kind) × (result < 2) }
{
    match kind {
        CircuitKind::Lan => 0,
        CircuitKind::P2p => 1,
    }
}

// The word of a circuit's small fields.
pub fn circuit_word(s: Circuit) -> u64
    ensures { circuit_in result s.mac s.id ≡ s }
{
    kind_digit(s.kind)
        + 2 * digit(s.levels.one)
        + 4 * digit(s.levels.two)
        + 256 * (s.priority as u64)
        + 65536 * (s.hold as u64)
        + 4294967296 * (s.metric as u64)
}

// The word of the T1s that there are.
pub fn serving_word(v: Serving) -> u64
    ensures { serving_in result ≡ v }
{
    v.one as u64 + 65536 * (v.two as u64)
}

// The word of the lengths.
pub fn lengths_word(s: Lengths) -> u64
    ensures { lengths_in result ≡ s }
{
    s.t1 as u64 + 65536 * (s.t2 as u64) + 4294967296 * (s.tries as u64)
}
