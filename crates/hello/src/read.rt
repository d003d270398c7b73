// A hello frame, read whole: a refusal of 3 to 6, the first that holds, or the decoded hello.
ghost use Rattle.std.specs.Prelude.{◌≡◌, ◌≤◌, length};
ghost use Rattle.basics.specs.Octets.{octet};
ghost use Rattle.hello.specs.Header.{Sized, layout_of};
ghost use Rattle.tlv.specs.Tlv.{tlvs, counts_of};
ghost use Rattle.hello.specs.Hello.{of_kind, link_read, tlvs_read, pdu_read, layout_read, hello_read};

use crate::faults::{bad_tlv, position_of};
use crate::header::{
    CIRCUIT_TYPE, HOLDING_TIME, Layout, PDU_LENGTH, PDU_TYPE, PRIORITY, SOURCE_ID, is_bad_length,
    is_not_hello, select_layout,
};
use crate::reverse::{ReverseMetric, read_reverse};
use crate::three_way::{ThreeWay, read_three_way};
use basics::kind::CircuitKind;
use basics::octets::{six, two};
use basics::refusal::Refusal;
use neighbours::lists::read_lists;
use restart_tlv::reader::{RestartTlv, read_restart};
use tlv::tlvs::{BrokenRule, Counts, walked};

// What depends on the circuit's kind. Of a LAN: the level, the sender's priority, and whether our MAC is listed.
#[derive(Clone, Copy)]
pub enum Link {
    Lan {
        level: u8,
        priority: u8,
        listed: bool,
    },
    P2p(ThreeWay),
}

// A decoded hello: the source System ID, the Holding Time, and what its TLVs say.
#[derive(Clone, Copy)]
pub struct Hello {
    pub system: u64,
    pub hold: u16,
    pub restart: RestartTlv,
    pub reverse: Option<ReverseMetric>,
    pub link: Link,
}

fn read_lan(pdu: &[u8], layout: Layout, count: usize, mac: u64) -> Result<Link, BrokenRule>
    requires { (20 ≤ length pdu.now) × (count ≡ length (of_kind 6 layout pdu.now)) }
    ensures { result ≡ link_read CircuitKind.Lan layout mac pdu.now }
{
    let listed = read_lists(pdu, layout.header, count, mac)?;
    Ok(Link::Lan {
        level: layout.level,
        priority: pdu[PRIORITY] % 128,
        listed,
    })
}

fn read_p2p(pdu: &[u8], layout: Layout, count: usize, mac: u64) -> Result<Link, BrokenRule>
    requires { count ≡ length (of_kind 240 layout pdu.now) }
    ensures { result ≡ link_read CircuitKind.P2p layout mac pdu.now }
{
    Ok(Link::P2p(read_three_way(pdu, layout.header, count)?))
}

fn read_link(pdu: &[u8], layout: Layout, counts: Counts, mac: u64) -> Result<Link, BrokenRule>
    requires { (20 ≤ length pdu.now) × (counts ≡ counts_of (tlvs pdu.now layout.header)) }
    ensures { result ≡ link_read layout.kind layout mac pdu.now }
{
    match layout.kind {
        CircuitKind::Lan => read_lan(pdu, layout, counts.neighbours, mac),
        CircuitKind::P2p => read_p2p(pdu, layout, counts.threeway, mac),
    }
}

// The TLVs, once they are known to end by the end of the PDU: refusal 6, or the hello. The lists of neighbours come first: they may be long, and
// nothing else is held meanwhile.
fn read_tlvs(pdu: &[u8], layout: Layout, counts: Counts, mac: u64) -> Result<Hello, Refusal>
    requires { Sized pdu.now × (counts ≡ counts_of (tlvs pdu.now layout.header)) × (layout_of (octet pdu.now 4) ≡ Some layout) }
    ensures { result ≡ tlvs_read layout mac pdu.now }
{
    let from = layout.header;
    if pdu[CIRCUIT_TYPE] % 4 == 0 {
        return Err(Refusal::BadTlv {
            position: position_of(CIRCUIT_TYPE),
        });
    }
    let Ok(link) = read_link(pdu, layout, counts, mac) else {
        return Err(bad_tlv(pdu));
    };
    let Ok(restart) = read_restart(pdu, from, counts.restart) else {
        return Err(bad_tlv(pdu));
    };
    let Ok(reverse) = read_reverse(pdu, from, counts.reverse) else {
        return Err(bad_tlv(pdu));
    };
    Ok(Hello {
        system: six(pdu, SOURCE_ID),
        hold: two(pdu, HOLDING_TIME),
        restart,
        reverse,
        link,
    })
}

// Refusal 5, and what follows it.
fn read_pdu(pdu: &[u8], layout: Layout, mac: u64) -> Result<Hello, Refusal>
    requires { Sized pdu.now × (layout_of (octet pdu.now 4) ≡ Some layout) }
    ensures { result ≡ pdu_read layout mac pdu.now }
{
    match walked(pdu, layout.header) {
        Err(at) => Err(Refusal::TlvPastEnd {
            position: position_of(at),
        }),
        Ok(counts) => read_tlvs(pdu, layout, counts, mac),
    }
}

// Refusal 4, and what follows it.
fn read_as(frame: &[u8], layout: Layout, mac: u64) -> Result<Hello, Refusal>
    requires { (20 ≤ layout.header) × (layout_of (octet frame.now 4) ≡ Some layout) }
    ensures { result ≡ layout_read (Some layout) mac frame.now }
{
    if is_bad_length(frame, layout.header) {
        return Err(Refusal::BadLength);
    }
    let end = two(frame, PDU_LENGTH) as usize;
    read_pdu(&frame[..end], layout, mac)
}

// A frame on a circuit of a kind, with our own MAC there.
pub fn read_hello(frame: &[u8], kind: CircuitKind, mac: u64) -> Result<Hello, Refusal>
    ensures { result ≡ hello_read kind mac frame.now }
{
    if is_not_hello(frame) {
        return Err(Refusal::NotHello);
    }
    let Some(layout) = select_layout(frame[PDU_TYPE]) else {
        return Err(Refusal::NotHello);
    };
    if layout.kind == kind {
        return read_as(frame, layout, mac);
    }
    Err(Refusal::NotHello)
}
