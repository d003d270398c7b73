// A truth value as a digit of a number.
ghost use Rattle.std.specs.Prelude.{◌≡◌, ◌<◌};
ghost use Rattle.basics.specs.Bits.{bit_of};

// 1 for true.
pub fn digit(b: bool) -> u64
    ensures { (result ≡ bit_of b) × (result < 2) }
{
    u64::from(b)
}
