// The Point-to-Point Three-Way Adjacency TLV, type 240 (RFC 5303, 3.1; document 01, "TLVs read").
//
//   octet  1      2-5                      6-11                12-15
//          state  own extended circuit ID  Neighbor System ID  Neighbor Extended Circuit ID
ghost use Rattle.std.specs.Prelude.{◌≡◌, cond, length};
ghost use Rattle.tlv.specs.Tlv.{tlvs, of_type, broken_rule};
ghost use Rattle.hello.specs.ThreeWay.{three_way_length, three_way_bad, state_of, identifiers_of, three_way_of, three_way_fault, three_way_read};

use basics::octets::{four, six};
use tlv::tlvs::{BrokenRule, THREE_WAY, find, find_after, value_at, value_of};

// The neighbour's state of this adjacency.
#[derive(Clone, Copy, PartialEq, Eq)]
pub enum ThreeWayState {
    Up,
    Initializing,
    Down,
}

// What follows the state, by the TLV's length: 1, 5, 11 or 15. The sender's own extended circuit ID, the Neighbor System ID
// and the Neighbor Extended Circuit ID.
#[derive(Clone, Copy)]
pub enum Identifiers {
    Absent,
    Own(u32),
    Neighbor(u32, u64),
    Whole(u32, u64, u32),
}

#[derive(Clone, Copy)]
pub struct ThreeWay {
    pub state: ThreeWayState,
    pub ids: Identifiers,
}

#[tactic(auto, unfolding(crate::specs::ThreeWay::three_way_length))]
fn is_length(n: usize) -> bool
    ensures { result ≡ three_way_length n }
{
    matches!(n, 1 | 5 | 11 | 15)
}

#[tactic(auto, unfolding(crate::specs::ThreeWay::three_way_bad, crate::specs::ThreeWay::three_way_length))]
fn is_bad_three_way(v: &[u8]) -> bool
    ensures { result ≡ three_way_bad v.now }
{
    v.len() < 1 || !is_length(v.len()) || 2 < v[0]
}

#[tactic(auto, unfolding(crate::specs::ThreeWay::state_of))]
fn decode_state(octet: u8) -> ThreeWayState
    ensures { result ≡ state_of octet }
{
    match octet {
        0 => ThreeWayState::Up,
        1 => ThreeWayState::Initializing,
        _ => ThreeWayState::Down,
    }
}

#[tactic(auto, unfolding(crate::specs::ThreeWay::identifiers_of))]
fn decode_identifiers(v: &[u8]) -> Identifiers
    ensures { result ≡ identifiers_of v.now }
{
    if v.len() < 5 {
        return Identifiers::Absent;
    }
    let own = four(v, 1);
    if v.len() < 11 {
        return Identifiers::Own(own);
    }
    let system = six(v, 5);
    if v.len() < 15 {
        return Identifiers::Neighbor(own, system);
    }
    Identifiers::Whole(own, system, four(v, 11))
}

fn check_three_way(v: &[u8]) -> Result<ThreeWay, BrokenRule>
    ensures { result ≡ cond (three_way_bad v.now) (Err broken_rule) (Ok (three_way_of v.now)) }
{
    if is_bad_three_way(v) {
        return Err(BrokenRule);
    }
    let state = decode_state(v[0]);
    let ids = decode_identifiers(v);
    Ok(ThreeWay { state, ids })
}

// The three-way TLV of a PDU whose TLVs start at `from`, of which `count` are three-way TLVs: exactly one, and by its rule.
pub fn read_three_way(pdu: &[u8], from: usize, count: usize) -> Result<ThreeWay, BrokenRule>
    requires { count ≡ length (of_type 240 (tlvs pdu.now from)) }
    ensures { result ≡ three_way_read (length pdu.now) (of_type 240 (tlvs pdu.now from)) }
{
    if count == 1 {
        return check_three_way(value_of(pdu, from, THREE_WAY));
    }
    Err(BrokenRule)
}

// The first three-way TLV of a PDU that breaks a rule; the PDU's end, where there is none.
pub fn three_way_fault(pdu: &[u8], from: usize) -> Option<usize>
    ensures { result ≡ three_way_fault (length pdu.now) (of_type 240 (tlvs pdu.now from)) }
{
    let Some(at) = find(pdu, from, THREE_WAY) else {
        return Some(pdu.len());
    };
    if is_bad_three_way(value_at(pdu, at)) {
        return Some(at);
    }
    find_after(pdu, at, THREE_WAY)
}
