// The Reverse Metric TLV, type 16 (RFC 8500, 2; document 01, "TLVs read").
//
//   octet  1      2-4     5               6-
//          flags  metric  sub-TLV length  sub-TLVs
ghost use Rattle.std.specs.Prelude.{◌≡◌, cond, ◌≤◌, length};
ghost use Rattle.tlv.specs.Tlv.{tlvs, of_type, broken_rule};
ghost use Rattle.hello.specs.Reverse.{reverse_bad, reverse_of, reverse_fault, reverse_read};

use basics::octets::{has_bits, three, wide};
use tlv::tlvs::{BrokenRule, REVERSE_METRIC, find, find_after, is_repeated, value_at, value_of};

const TE_METRIC: u8 = 18;

// Its flags: Whole LAN and Unreachable.
const W: u8 = 1;

const U: u8 = 2;

// The reverse metric of a frame: the offset, and its flags Whole LAN and Unreachable.
#[derive(Clone, Copy)]
pub struct ReverseMetric {
    pub offset: u32,
    pub whole: bool,
    pub unreachable: bool,
}

#[tactic(auto, unfolding(crate::specs::Reverse::reverse_bad))]
fn is_bad_reverse(v: &[u8]) -> bool
    ensures { result ≡ reverse_bad v.now }
{
    v.len() < 5 || wide(v[4]) != v.len() - 5
}

#[tactic(auto, unfolding(crate::specs::Reverse::reverse_of))]
fn decode_reverse(v: &[u8]) -> Option<ReverseMetric>
    requires { 5 ≤ length v.now }
    ensures { result ≡ reverse_of v.now }
{
    if is_repeated(v, 5, TE_METRIC) {
        return None;
    }
    Some(ReverseMetric {
        offset: three(v, 1),
        whole: has_bits(v[0], W),
        unreachable: has_bits(v[0], U),
    })
}

fn check_reverse(v: &[u8]) -> Result<Option<ReverseMetric>, BrokenRule>
    ensures { result ≡ cond (reverse_bad v.now) (Err broken_rule) (Ok (reverse_of v.now)) }
{
    if is_bad_reverse(v) {
        return Err(BrokenRule);
    }
    Ok(decode_reverse(v))
}

// The reverse metric of a PDU whose TLVs start at `from`, of which `count` are of this type: two or more are ignored, and one goes by its rule.
pub fn read_reverse(
    pdu: &[u8],
    from: usize,
    count: usize,
) -> Result<Option<ReverseMetric>, BrokenRule>
    requires { count ≡ length (of_type 16 (tlvs pdu.now from)) }
    ensures { result ≡ reverse_read (of_type 16 (tlvs pdu.now from)) }
{
    if count == 1 {
        return check_reverse(value_of(pdu, from, REVERSE_METRIC));
    }
    Ok(None)
}

// The Reverse Metric TLV of a PDU that breaks its rule; where there are two or more, none does.
pub fn reverse_fault(pdu: &[u8], from: usize) -> Option<usize>
    ensures { result ≡ reverse_fault (of_type 16 (tlvs pdu.now from)) }
{
    let at = find(pdu, from, REVERSE_METRIC)?;
    if find_after(pdu, at, REVERSE_METRIC).is_none() && is_bad_reverse(value_at(pdu, at)) {
        Some(at)
    } else {
        None
    }
}
