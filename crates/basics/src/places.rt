// A mask with two places for each circuit, circuit 1's lowest (document 02, W-202). Callers count places from 0.
ghost use Rattle.std.specs.Prelude.{◌≡◌, false, ◌^◌, ◌<◌, set, get_or};
ghost use Rattle.basics.specs.Mask.{t1_places, place_bits, count_true, any_true, any_shared, first_pair};

use crate::mask::CIRCUITS;

// The digits of a mask.
pub const T1_PLACES: usize = 2 * CIRCUITS;

fn place_bit(i: usize) -> u16
    requires { i < t1_places }
    ensures { result ≡ 2 ^ i }
{
    1u16 << i
}

// The mask with the digit of place i set or cleared. mask::put_bit is its twin on u8: by this one it would owe that the upper eight digits stay 0.
pub fn put_place(m: u16, i: usize, on: bool) -> u16
    requires { i < t1_places }
    ensures { place_bits result ≡ set (place_bits m) i on }
{
    let b = place_bit(i);
    if on { m | b } else { m & !b }
}

// The digit of place i.
pub fn has_place(m: u16, i: usize) -> bool
    requires { i < t1_places }
    ensures { result ≡ get_or (place_bits m) i false }
{
    (m >> i) % 2 == 1
}

// Whether any digit is set.
pub fn any_place(m: u16) -> bool
    ensures { result ≡ any_true (place_bits m) }
{
    m != 0
}

// Whether any digit is set in both.
pub fn share_place(a: u16, b: u16) -> bool
    ensures { result ≡ any_shared (place_bits a) (place_bits b) }
{
    a & b != 0
}

// How many digits are set.
pub fn count_places(m: u16) -> u32
    ensures { result ≡ count_true (place_bits m) }
{
    u16::count_ones(m)
}

// The lowest circuit with a digit that is set, by its number from 1.
pub fn lowest_circuit(m: u16) -> Option<u8>
    ensures { result ≡ first_pair (place_bits m) 1 }
{
    if m == 0 {
        return None;
    }
    Some(1 + (u16::trailing_zeros(m) / 2) as u8)
}
