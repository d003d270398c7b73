// The Restart TLV, type 211 (RFC 8706, 3.2; document 01, "TLVs read"), read from a PDU.
//
//   octet  1      2-3             4-9
//          flags  Remaining Time  Restarting Neighbor System ID
ghost use Rattle.std.specs.Prelude.{◌≡◌, ◌≤◌, length, false, cond};
ghost use Rattle.tlv.specs.Tlv.{tlvs, of_type, broken_rule};
ghost use Rattle.restart_tlv.specs.Restart.{least_length, restart_bad, restart_of, time_of, neighbor_of, restart_fault, restart_read};

use crate::flags::Flags;
use basics::octets::{six, two};
use tlv::tlvs::{BrokenRule, RESTART, find, find_after, value_at, value_of};

// The Restart TLV of a frame. Ignored: it came with flags that may not stand together.
#[derive(Clone, Copy)]
pub enum RestartTlv {
    Absent,
    Ignored,
    Present {
        flags: Flags,
        time: u16,
        neighbor: Option<u64>,
    },
}

#[tactic(auto, unfolding(crate::specs::Restart::least_length))]
fn least_length(flags: Flags) -> usize
    ensures { result ≡ least_length flags.bits }
{
    if flags.needs_neighbor() {
        return 9;
    }
    if flags.has(Flags::PR) {
        return 3;
    }
    1
}

#[tactic(auto, unfolding(crate::specs::Restart::restart_bad))]
fn is_bad_restart(v: &[u8]) -> bool
    ensures { result ≡ restart_bad v.now }
{
    v.len() < 1 || 9 < v.len() || v.len() < least_length(Flags { bits: v[0] })
}

#[tactic(auto, using(crate::proofs::RestartLaws::time_length), unfolding(crate::specs::Restart::time_of))]
fn decode_time(flags: Flags, v: &[u8]) -> u16
    requires { least_length flags.bits ≤ length v.now }
    ensures { result ≡ time_of flags.bits v.now }
{
    if flags.needs_time() {
        return two(v, 1);
    }
    0
}

#[tactic(auto, using(crate::proofs::RestartLaws::neighbor_length), unfolding(crate::specs::Restart::neighbor_of))]
fn decode_neighbor(flags: Flags, v: &[u8]) -> Option<u64>
    requires { least_length flags.bits ≤ length v.now }
    ensures { result ≡ neighbor_of flags.bits v.now }
{
    if flags.needs_neighbor() {
        return Some(six(v, 3));
    }
    None
}

// The fields of a value that breaks no rule.
#[tactic(auto, using(crate::proofs::RestartLaws::has_flags, crate::proofs::RestartLaws::least_le, crate::proofs::RestartLaws::least_counted), unfolding(crate::specs::Restart::restart_with))]
fn decode_restart(v: &[u8]) -> RestartTlv
    requires { restart_bad v.now ≡ false }
    ensures { result ≡ restart_of v.now }
{
    let flags = Flags::counted_of(v[0]);
    if flags.is_invalid() {
        return RestartTlv::Ignored;
    }
    let time = decode_time(flags, v);
    let neighbor = decode_neighbor(flags, v);
    RestartTlv::Present {
        flags,
        time,
        neighbor,
    }
}

fn check_restart(v: &[u8]) -> Result<RestartTlv, BrokenRule>
    ensures { result ≡ cond (restart_bad v.now) (Err broken_rule) (Ok (restart_of v.now)) }
{
    if is_bad_restart(v) {
        return Err(BrokenRule);
    }
    Ok(decode_restart(v))
}

// The Restart TLV of a PDU whose TLVs start at `from`, of which `count` are Restart TLVs: at most one, and by its rule.
pub fn read_restart(pdu: &[u8], from: usize, count: usize) -> Result<RestartTlv, BrokenRule>
    requires { count ≡ length (of_type 211 (tlvs pdu.now from)) }
    ensures { result ≡ restart_read (of_type 211 (tlvs pdu.now from)) }
{
    if count == 0 {
        return Ok(RestartTlv::Absent);
    }
    if count == 1 {
        return check_restart(value_of(pdu, from, RESTART));
    }
    Err(BrokenRule)
}

// The first Restart TLV of a PDU that breaks a rule: its own, or that there is at most one.
pub fn restart_fault(pdu: &[u8], from: usize) -> Option<usize>
    ensures { result ≡ restart_fault (of_type 211 (tlvs pdu.now from)) }
{
    let at = find(pdu, from, RESTART)?;
    if is_bad_restart(value_at(pdu, at)) {
        return Some(at);
    }
    find_after(pdu, at, RESTART)
}
