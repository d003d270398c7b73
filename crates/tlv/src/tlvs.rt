// The TLVs of a PDU (document 01, "TLVs read"): type octet, length octet, value. The PDU is lent as a part of its own,
// the frame's first PDU Length octets, so nothing past it is in reach.
ghost use Rattle.std.specs.Prelude.{◌≡◌, ◌<◌, ◌≤◌, length, cond, leb};
ghost use Rattle.tlv.specs.Tlv.{tlvs, walk_of, of_type, first_at, first_value, value_at, next_at, several, Finds};

use basics::octets::wide;

// The types that a hello's reader looks for.
pub const IS_NEIGHBOURS: u8 = 6;

pub const REVERSE_METRIC: u8 = 16;

pub const RESTART: u8 = 211;

pub const THREE_WAY: u8 = 240;

// How many TLVs of each of these types there are.
#[derive(Clone, Copy)]
pub struct Counts {
    pub neighbours: usize,
    pub reverse: usize,
    pub restart: usize,
    pub threeway: usize,
}

// A TLV breaks the rule of its type.
#[derive(Clone, Copy)]
pub struct BrokenRule;

// Where the TLV at a position ends and the next one starts; none where it passes the end.
fn next_of(pdu: &[u8], at: usize) -> Option<usize>
    requires { at < length pdu.now }
    ensures { result ≡ cond (leb (next_at pdu.now at) (length pdu.now)) (Some (next_at pdu.now at)) None }
{
    let left = pdu.len() - at;
    if left < 2 {
        return None;
    }
    let value = wide(pdu[at + 1]);
    if left - 2 < value {
        return None;
    }
    Some(at + 2 + value)
}

// The walk that decides refusal 5. It keeps no place of a TLV: each is looked for afresh.
pub fn walked(pdu: &[u8], from: usize) -> Result<Counts, usize>
    ensures { result ≡ walk_of (tlvs pdu.now from) }
{
    let mut counts = Counts {
        neighbours: 0,
        reverse: 0,
        restart: 0,
        threeway: 0,
    };
    let mut at = from;
    while at < pdu.len() {
        let Some(next) = next_of(pdu, at) else {
            return Err(at);
        };
        match pdu[at] {
            IS_NEIGHBOURS => counts.neighbours += 1,
            REVERSE_METRIC => counts.reverse += 1,
            RESTART => counts.restart += 1,
            THREE_WAY => counts.threeway += 1,
            _ => {}
        }
        at = next;
    }
    Ok(counts)
}

// The first TLV of a type from a position on. The search ends at a TLV that passes the end. With `next_of` in its loop the frame of 690
// empty TLVs and three that are looked for takes 7.5 us, and so 6.8.
pub fn find(pdu: &[u8], from: usize, kind: u8) -> Option<usize>
    ensures { Finds pdu.now from kind result }
{
    let mut at = from;
    while at < pdu.len() {
        let left = pdu.len() - at;
        if left < 2 {
            return None;
        }
        let len = wide(pdu[at + 1]);
        if left - 2 < len {
            return None;
        }
        if pdu[at] == kind {
            return Some(at);
        }
        at = at + 2 + len;
    }
    None
}

// The first TLV of a type after the one at a position.
pub fn find_after(pdu: &[u8], at: usize, kind: u8) -> Option<usize>
    requires { next_at pdu.now at ≤ length pdu.now }
    ensures { result ≡ first_at (of_type kind (tlvs pdu.now (next_at pdu.now at))) }
{
    find(pdu, at + 2 + wide(pdu[at + 1]), kind)
}

// The value of the TLV at a position, as a part of the PDU.
pub fn value_at(pdu: &[u8], at: usize) -> &[u8]
    requires { next_at pdu.now at ≤ length pdu.now }
    ensures { result.now ≡ value_at pdu.now at }
{
    let from = at + 2;
    &pdu[from..from + wide(pdu[at + 1])]
}

// The finder: the value of the first TLV of a type from a position on, as a part of the PDU; an empty part where there is
// none. Whether there is none, one or more is asked of the walk first, so that absent and empty differ.
pub fn value_of(pdu: &[u8], from: usize, kind: u8) -> &[u8]
    ensures { result.now ≡ first_value (of_type kind (tlvs pdu.now from)) }
{
    match find(pdu, from, kind) {
        Some(at) => value_at(pdu, at),
        None => &pdu[..0],
    }
}

// Whether there are two at least of a type, from a position on.
pub fn is_repeated(pdu: &[u8], from: usize, kind: u8) -> bool
    ensures { result ≡ several (of_type kind (tlvs pdu.now from)) }
{
    match find(pdu, from, kind) {
        Some(at) => find_after(pdu, at, kind).is_some(),
        None => false,
    }
}
