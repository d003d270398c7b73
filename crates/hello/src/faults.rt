// Where refusals 5 and 6 stand in a PDU (document 02, W-206). Refusal 6 asks this once a rule is known to be broken, so an accepted frame pays nothing.
ghost use Rattle.std.specs.Prelude.{◌≡◌, true, ◌+◌, ◌<◌};
ghost use Rattle.tlv.specs.Tlv.{is_found};
ghost use Rattle.hello.specs.Header.{Sized};
ghost use Rattle.hello.specs.Hello.{earlier, link_fault, tlv_fault, fault_in, RefusesAt};
ghost use Rattle.basics.specs.declared.refusal.Refusal.TheVariants.{BadTlv};

use crate::header::{Layout, PDU_TYPE, select_layout};
use crate::reverse::reverse_fault;
use crate::three_way::three_way_fault;
use basics::kind::CircuitKind;
use basics::refusal::Refusal;
use neighbours::lists::lists_fault;
use restart_tlv::reader::restart_fault;

// The document's number of the octet at a place: octets count from 1.
pub fn position_of(at: usize) -> u16
    requires { at < 65535 }
    ensures { result ≡ at + 1 }
{
    (at + 1) as u16
}

// The one that stands first.
#[tactic(auto, unfolding(crate::specs::Hello::earlier))]
fn earlier_of(a: Option<usize>, b: Option<usize>) -> Option<usize>
    ensures { result ≡ earlier a b }
{
    match (a, b) {
        (Some(p), Some(q)) => Some(p.min(q)),
        (Some(_), None) => a,
        (None, _) => b,
    }
}

#[tactic(auto, unfolding(crate::specs::Hello::fault_on))]
fn link_fault(pdu: &[u8], layout: Layout) -> Option<usize>
    ensures { result ≡ link_fault layout pdu.now }
{
    match layout.kind {
        CircuitKind::Lan => lists_fault(pdu, layout.header),
        CircuitKind::P2p => three_way_fault(pdu, layout.header),
    }
}

// The first TLV that breaks a rule.
#[tactic(auto, unfolding(crate::specs::Hello::tlv_fault))]
fn tlv_fault(pdu: &[u8], layout: Layout) -> Option<usize>
    ensures { result ≡ tlv_fault layout pdu.now }
{
    let restart = restart_fault(pdu, layout.header);
    let reverse = reverse_fault(pdu, layout.header);
    let link = link_fault(pdu, layout);
    earlier_of(restart, earlier_of(reverse, link))
}

// Refusal 6 of a PDU in which a TLV breaks a rule. It takes the PDU alone and chooses its layout anew, so that an accepted frame keeps nothing for it. There is
// a layout and a place, since a rule is broken.
pub fn bad_tlv(pdu: &[u8]) -> Refusal
    requires { Sized pdu.now × (is_found (fault_in pdu.now) ≡ true) }
    ensures { RefusesAt BadTlv (fault_in pdu.now) result }
{
    let layout = select_layout(pdu[PDU_TYPE]).unwrap();
    let at = tlv_fault(pdu, layout).unwrap();
    Refusal::BadTlv {
        position: position_of(at),
    }
}
