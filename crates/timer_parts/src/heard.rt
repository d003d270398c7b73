// What an accepted hello says to the timers of a router that restarts or starts (document 01, "Timers while Restarting"; RFC 8706, 3.3.1 and 3.3.2).
ghost use Rattle.std.specs.Prelude.{◌≡◌};
ghost use Rattle.timer_parts.specs.Heard.{says_up, names_circuit, names_system, addressed, shows_up, acknowledges, heard_without_tlv, heard_tlv, heard_of};

use hello::read::{Hello, Link};
use hello::three_way::{Identifiers, ThreeWayState};
use restart_tlv::flags::Flags;
use restart_tlv::reader::RestartTlv;

// WithoutTlv: a P2P hello with no Restart TLV; true where it shows us Up with our own extended circuit ID. Acknowledged: whether it
// shows us Up, and its Remaining Time. Plain: any other.
#[derive(Clone, Copy)]
pub enum Heard {
    WithoutTlv(bool),
    Acknowledged { up: bool, remaining: u16 },
    Plain,
}

fn says_up(state: ThreeWayState) -> bool
    ensures { result ≡ says_up state }
{
    state == ThreeWayState::Up
}

fn names_circuit(ids: Identifiers, circuit: u32) -> bool
    ensures { result ≡ names_circuit circuit ids }
{
    match ids {
        Identifiers::Absent | Identifiers::Own(_) | Identifiers::Neighbor(_, _) => false,
        Identifiers::Whole(_, _, theirs) => theirs == circuit,
    }
}

fn names_system(neighbor: Option<u64>, system: u64) -> bool
    ensures { result ≡ names_system system neighbor }
{
    neighbor == Some(system)
}

fn shows_up(link: Link) -> bool
    ensures { result ≡ shows_up link }
{
    match link {
        Link::Lan { listed, .. } => listed,
        Link::P2p(said) => says_up(said.state),
    }
}

fn is_addressed(link: Link, neighbor: Option<u64>, system: u64) -> bool
    ensures { result ≡ addressed system link neighbor }
{
    match link {
        Link::Lan { .. } => names_system(neighbor, system),
        Link::P2p(_) => true,
    }
}

#[tactic(auto, unfolding(crate::specs::Heard::acknowledges))]
fn is_acknowledgement(link: Link, flags: Flags, neighbor: Option<u64>, system: u64) -> bool
    ensures { result ≡ acknowledges system link flags neighbor }
{
    flags.has(Flags::RA) && is_addressed(link, neighbor, system)
}

#[tactic(auto, unfolding(crate::specs::Heard::heard_without_tlv))]
fn hear_without_tlv(link: Link, circuit: u32) -> Heard
    ensures { result ≡ heard_without_tlv circuit link }
{
    match link {
        Link::Lan { .. } => Heard::Plain,
        Link::P2p(said) => Heard::WithoutTlv(
            says_up(said.state) && names_circuit(said.ids, circuit),
        ),
    }
}

#[tactic(auto, unfolding(crate::specs::Heard::heard_tlv))]
fn hear_tlv(link: Link, flags: Flags, time: u16, neighbor: Option<u64>, system: u64) -> Heard
    ensures { result ≡ heard_tlv system link flags time neighbor }
{
    if is_acknowledgement(link, flags, neighbor, system) {
        Heard::Acknowledged {
            up: shows_up(link),
            remaining: time,
        }
    } else {
        Heard::Plain
    }
}

// A hello on a circuit, with our own System ID and, on P2P, our own extended circuit ID there.
#[tactic(auto, unfolding(crate::specs::Heard::heard_of))]
pub fn heard_of(hello: Hello, system: u64, circuit: u32) -> Heard
    ensures { result ≡ heard_of system circuit hello }
{
    match hello.restart {
        RestartTlv::Absent => hear_without_tlv(hello.link, circuit),
        RestartTlv::Ignored => Heard::Plain,
        RestartTlv::Present {
            flags,
            time,
            neighbor,
        } => hear_tlv(hello.link, flags, time, neighbor, system),
    }
}
