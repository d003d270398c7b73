// A mask over circuits, the lowest bit for circuit 1 (document 01, "What the gateway holds"). Callers count circuits from 0.
ghost use Rattle.std.specs.Prelude.{◌≡◌, ◌^◌, ◌<◌, set};
ghost use Rattle.basics.specs.Mask.{circuits, bits};

// The most circuits that a gateway has, and so the digits of a mask.
pub const CIRCUITS: usize = 8;

fn bit_of(i: usize) -> u8
    requires { i < circuits }
    ensures { result ≡ 2 ^ i }
{
    1u8 << i
}

// The mask with the digit of circuit i set or cleared.
pub fn put_bit(m: u8, i: usize, on: bool) -> u8
    requires { i < circuits }
    ensures { bits result ≡ set (bits m) i on }
{
    let b = bit_of(i);
    if on { m | b } else { m & !b }
}
