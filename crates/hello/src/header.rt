// The fixed header of a hello (document 01, "Hello frames"), and refusals 3 and 4.
//
//   octet  1     2       3  4          5     6  7         8           9             10-15      16-17         18-19
//          0x83  header  1  ID length  type  1  reserved  area count  circuit type  source ID  Holding Time  PDU Length
//   then, on a LAN, 20 priority and 21-27 LAN ID; on P2P, 20 local circuit ID. Octet n stands at position n - 1.
ghost use Rattle.std.specs.Prelude.{◌≡◌, ◌≤◌};
ghost use Rattle.hello.specs.Header.{layout_of, same_kind, id_length_ok, not_hello, bad_length};

use basics::kind::CircuitKind;
use basics::octets::{two, wide};

pub const PDU_TYPE: usize = 4;

pub const CIRCUIT_TYPE: usize = 8;

pub const SOURCE_ID: usize = 9;

pub const HOLDING_TIME: usize = 15;

pub const PDU_LENGTH: usize = 17;

pub const PRIORITY: usize = 19;

// The longest PDU that is taken (document 01, refusal 4).
const MAX_PDU: usize = 1492;

// The layout of a hello: the octets of its fixed header, its level (0 on P2P), and the kind of circuit that it is for.
#[derive(Clone, Copy)]
pub struct Layout {
    pub header: usize,
    pub level: u8,
    pub kind: CircuitKind,
}

// The layout that a PDU type chooses.
#[tactic(auto, unfolding(crate::specs::Header::layout_of))]
pub fn select_layout(octet: u8) -> Option<Layout>
    ensures { result ≡ layout_of octet }
{
    match octet % 32 {
        15 => Some(Layout {
            header: 27,
            level: 1,
            kind: CircuitKind::Lan,
        }),
        16 => Some(Layout {
            header: 27,
            level: 2,
            kind: CircuitKind::Lan,
        }),
        17 => Some(Layout {
            header: 20,
            level: 0,
            kind: CircuitKind::P2p,
        }),
        _ => None,
    }
}

fn is_id_length(n: u8) -> bool
    ensures { result ≡ id_length_ok n }
{
    (n == 0) | (n == 6)
}

// Refusal 3, but for the PDU type.
#[tactic(auto, unfolding(crate::specs::Header::not_hello))]
pub fn is_not_hello(s: &[u8]) -> bool
    ensures { result ≡ not_hello s.now }
{
    s.len() < 8 || s[0] != 0x83 || s[2] != 1 || s[5] != 1 || !is_id_length(s[3])
}

// Refusal 4.
#[tactic(auto, unfolding(crate::specs::Header::bad_length))]
pub fn is_bad_length(s: &[u8], header: usize) -> bool
    requires { 20 ≤ header }
    ensures { result ≡ bad_length s.now header }
{
    if s.len() < header || wide(s[1]) != header {
        return true;
    }
    let n = two(s, PDU_LENGTH) as usize;
    n < header || s.len() < n || MAX_PDU < n
}
