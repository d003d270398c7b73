// The Restart TLV that answers a hello (document 01, "Marks and holding time"): 211, 9, RA or PA alone, Remaining Time, System ID.
ghost use Rattle.std.specs.Prelude.{◌≡◌, ◌++◌, ◌≤◌, length, drop};
ghost use Rattle.restart_tlv.specs.Restart.{ack_flag, restart_octets};

use crate::flags::Flags;
use basics::octets::six_octets;
use tlv::tlvs::RESTART;

// What a reply acknowledges: a restart (RA) or a planned restart (PA).
#[derive(Clone, Copy)]
pub enum Ack {
    Restart,
    Planned,
}

fn flags_of(ack: Ack) -> Flags
    ensures { result.bits ≡ ack_flag ack }
{
    match ack {
        Ack::Restart => Flags::RA,
        Ack::Planned => Flags::PA,
    }
}

// Writes the answer to `system` into the first 11 octets of a buffer.
#[inline(never)]
pub fn write_restart(out: &mut [u8], ack: Ack, time: u16, system: u64)
    requires { 11 ≤ length out.old }
    ensures { out.new ≡ restart_octets (ack_flag ack) time system ++ drop 11 out.old }
{
    out[..3].copy_from_slice(&[RESTART, 9, flags_of(ack).bits]);
    out[3..5].copy_from_slice(&time.to_be_bytes());
    out[5..11].copy_from_slice(&six_octets(system));
}
