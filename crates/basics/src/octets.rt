// Big-endian numbers of 1, 2, 3, 4 and 6 octets at a position of a slice (document 01, "Hello frames").
//
// An array of octets that stand in a row becomes one load, and its turning one instruction.
ghost use Rattle.std.specs.Prelude.{◌≡◌, ◌+◌, ◌<◌, length};
ghost use Rattle.basics.specs.Octets.{big, octets_of, has_bits, Octet};

// An octet as a length or an index.
pub fn wide(x: u8) -> usize
    ensures { Octet x result }
{
    usize::from(x)
}

// Whether each bit of a mask is set.
#[tactic(auto, unfolding(crate::specs::Octets::has_bits))]
pub fn has_bits(x: u8, mask: u8) -> bool
    ensures { result ≡ has_bits x mask }
{
    x & mask == mask
}

// Two octets as a number, the first highest.
#[tactic(auto, unfolding(crate::specs::Octets::big))]
pub fn two(s: &[u8], at: usize) -> u16
    requires { at + 1 < length s.now }
    ensures { result ≡ big 2 s.now at }
{
    u16::from_be_bytes([s[at], s[at + 1]])
}

// Three octets so.
#[tactic(auto, unfolding(crate::specs::Octets::big))]
pub fn three(s: &[u8], at: usize) -> u32
    requires { at + 2 < length s.now }
    ensures { result ≡ big 3 s.now at }
{
    u32::from_be_bytes([0, s[at], s[at + 1], s[at + 2]])
}

// Four octets so.
#[tactic(auto, unfolding(crate::specs::Octets::big))]
pub fn four(s: &[u8], at: usize) -> u32
    requires { at + 3 < length s.now }
    ensures { result ≡ big 4 s.now at }
{
    u32::from_be_bytes([s[at], s[at + 1], s[at + 2], s[at + 3]])
}

// A System ID or a MAC.
#[tactic(auto, unfolding(crate::specs::Octets::big))]
pub fn six(s: &[u8], at: usize) -> u64
    requires { at + 5 < length s.now }
    ensures { result ≡ big 6 s.now at }
{
    u64::from_be_bytes([
        0,
        0,
        s[at],
        s[at + 1],
        s[at + 2],
        s[at + 3],
        s[at + 4],
        s[at + 5],
    ])
}

// The six octets of such a number; what does not fit is lost.
#[tactic(auto, unfolding(crate::specs::Octets::octets_of))]
pub fn six_octets(x: u64) -> [u8; 6]
    ensures { result ≡ octets_of 6 x }
{
    let [_, _, a, b, c, d, e, f] = x.to_be_bytes();
    [a, b, c, d, e, f]
}
