// The IS Neighbours TLVs of a LAN hello, type 6, any number of them, place by place (document 01, "TLVs read").
ghost use Rattle.std.specs.Prelude.{◌≡◌, ◌≤◌, ◌||◌, length};
ghost use Rattle.tlv.specs.Tlv.{tlvs, of_type, value_at, next_at};
ghost use Rattle.neighbours.specs.Neighbours.{listed_in};
ghost use Rattle.neighbours.specs.Lists.{neighbours_fault, list_read};

use crate::search::is_listed_in;
use tlv::tlvs::{BrokenRule, IS_NEIGHBOURS, find, value_at};

// Whether the MAC was listed before, or is in the value of the TLV from `at` to `next`.
fn is_listed_here(listed: bool, pdu: &[u8], at: usize, next: usize, mac: u64) -> bool
    requires { (next ≡ next_at pdu.now at) × (next ≤ length pdu.now) }
    ensures { result ≡ (listed || listed_in mac (value_at pdu.now at)) }
{
    listed || is_listed_in(pdu, at, next, mac)
}

// The list of a PDU that has one, as most have. Apart from the others it costs no loop over TLVs, and its search has more registers.
fn read_lone(pdu: &[u8], from: usize, mac: u64) -> Result<bool, BrokenRule>
    requires { 1 ≡ length (of_type 6 (tlvs pdu.now from)) }
    ensures { result ≡ list_read mac (of_type 6 (tlvs pdu.now from)) }
{
    let Some(p) = find(pdu, from, IS_NEIGHBOURS) else {
        return Ok(false);
    };
    let v = value_at(pdu, p);
    if v.len() % 6 != 0 {
        return Err(BrokenRule);
    }
    Ok(is_listed_in(pdu, p, p + 2 + v.len(), mac))
}

// The lists of a PDU that has any number of them.
fn read_each(pdu: &[u8], from: usize, count: usize, mac: u64) -> Result<bool, BrokenRule>
    requires { count ≡ length (of_type 6 (tlvs pdu.now from)) }
    ensures { result ≡ list_read mac (of_type 6 (tlvs pdu.now from)) }
{
    let mut listed = false;
    let mut at = from;
    for _ in 0..count {
        let Some(p) = find(pdu, at, IS_NEIGHBOURS) else {
            return Ok(listed);
        };
        let v = value_at(pdu, p);
        if v.len() % 6 != 0 {
            return Err(BrokenRule);
        }
        at = p + 2 + v.len();
        listed = is_listed_here(listed, pdu, p, at, mac);
    }
    Ok(listed)
}

// The lists of a PDU whose TLVs start at `from`, of which `count` are lists.
pub fn read_lists(pdu: &[u8], from: usize, count: usize, mac: u64) -> Result<bool, BrokenRule>
    requires { count ≡ length (of_type 6 (tlvs pdu.now from)) }
    ensures { result ≡ list_read mac (of_type 6 (tlvs pdu.now from)) }
{
    if count == 1 {
        return read_lone(pdu, from, mac);
    }
    read_each(pdu, from, count, mac)
}

// The first list of a PDU whose length is no multiple of 6.
pub fn lists_fault(pdu: &[u8], from: usize) -> Option<usize>
    ensures { result ≡ neighbours_fault (of_type 6 (tlvs pdu.now from)) }
{
    let mut at = from;
    while at < pdu.len() {
        let p = find(pdu, at, IS_NEIGHBOURS)?;
        let v = value_at(pdu, p);
        if v.len() % 6 != 0 {
            return Some(p);
        }
        at = p + 2 + v.len();
    }
    None
}
