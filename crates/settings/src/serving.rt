// Which T1s the circuits have, and the levels that each serves (document 02, W-202; RFC 8706, 3.1 and 3.3.3): a LAN has one for each of its
// levels, P2P one for all its levels. A circuit has two places; P2P uses the first. Circuits and places count from 0.
ghost use Rattle.std.specs.Prelude.{◌≡◌, ◌<◌, ◌^◌};
ghost use Rattle.basics.specs.Mask.{circuits, t1_places};
ghost use Rattle.settings.specs.Serving.{t1_place, serving_with, all_t1s, levels_served, served_at};

use basics::bits::digit;
use basics::kind::CircuitKind;
use basics::levels::Levels;
use basics::places::has_place;

// For each level a mask of the T1s that serve it.
#[derive(Clone, Copy)]
pub struct Serving {
    pub one: u16,
    pub two: u16,
}

// The place of circuit i's T1 at a level.
pub fn t1_place(kind: CircuitKind, i: usize, level: u8) -> usize
    requires { i < circuits }
    ensures { (result ≡ t1_place kind i level) × (result < t1_places) }
{
    match kind {
        CircuitKind::Lan => if level == 2 { 2 * i + 1 } else { 2 * i },
        CircuitKind::P2p => 2 * i,
    }
}

// The masks with one circuit more, in the lowest places.
#[tactic(auto, unfolding(crate::specs::Serving::serving_with))]
pub fn serve_circuit(kind: CircuitKind, levels: Levels, v: Serving) -> Serving
    requires { (v.one < 2 ^ 14) × (v.two < 2 ^ 14) }
    ensures { result ≡ serving_with kind levels v }
{
    let a = digit(levels.one) as u16;
    let b = digit(levels.two) as u16;
    let one = a + 4 * v.one;
    match kind {
        CircuitKind::Lan => Serving {
            one,
            two: 2 * b + 4 * v.two,
        },
        CircuitKind::P2p => Serving {
            one,
            two: b + 4 * v.two,
        },
    }
}

// The mask of all T1s.
pub fn all_t1s(v: Serving) -> u16
    ensures { result ≡ all_t1s v }
{
    v.one | v.two
}

// The levels that some T1 serves.
pub fn levels_served(v: Serving) -> Levels
    ensures { result ≡ levels_served v }
{
    Levels {
        one: v.one != 0,
        two: v.two != 0,
    }
}

// The levels that the T1 in place i serves.
#[tactic(auto, unfolding(crate::specs::Serving::served_at))]
pub fn served_at(v: Serving, i: usize) -> Levels
    requires { i < t1_places }
    ensures { result ≡ served_at v i }
{
    Levels {
        one: has_place(v.one, i),
        two: has_place(v.two, i),
    }
}
