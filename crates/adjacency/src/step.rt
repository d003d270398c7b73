// Refusals 7 and 8, and the state step (document 01, "Refusals by number" and "The state step").
ghost use Rattle.std.specs.Prelude.{◌≡◌};
ghost use Rattle.adjacency.specs.Record.{is_up};
ghost use Rattle.adjacency.specs.Step.{kept_up, level_off, wrong_source, requests, wrong_system, wrong_circuit, wrong_of, excused, wrong_neighbor, lan_step, p2p_step, as_init, three_way_step, link_step, step_of, rises};

use crate::record::Phase;
use basics::levels::{Levels, has_level};
use hello::read::{Hello, Link};
use hello::three_way::{Identifiers, ThreeWayState};
use restart_tlv::flags::Flags;
use restart_tlv::reader::RestartTlv;

// What is known where a frame comes: the clock, whether the mode is Restarting, our System ID, and the circuit's own extended circuit
// ID and configured holding time.
#[derive(Clone, Copy)]
pub struct Here {
    pub clock: u32,
    pub restarting: bool,
    pub own: u64,
    pub circuit: u32,
    pub hold: u16,
}

fn is_level_off(levels: Levels, link: Link) -> bool
    ensures { result ≡ level_off levels link }
{
    match link {
        Link::Lan { level, .. } => !has_level(levels, level),
        Link::P2p(_) => false,
    }
}

// Refusal 7.
pub fn is_wrong_source(levels: Levels, own: u64, frame: Hello) -> bool
    ensures { result ≡ wrong_source levels own frame }
{
    if is_level_off(levels, frame.link) {
        return true;
    }
    frame.system == own
}

// No record counts as not UP.
pub fn is_up(phase: Phase) -> bool
    ensures { result ≡ is_up phase }
{
    phase == Phase::Up
}

// Whether a record becomes UP with a frame.
pub fn rises(before: Phase, after: Phase) -> bool
    ensures { result ≡ rises before after }
{
    if is_up(after) {
        return !is_up(before);
    }
    false
}

fn is_request(tlv: RestartTlv) -> bool
    ensures { result ≡ requests tlv }
{
    match tlv {
        RestartTlv::Present { flags, .. } => flags.has(Flags::RR),
        RestartTlv::Absent | RestartTlv::Ignored => false,
    }
}

fn is_wrong_system(own: u64, ids: Identifiers) -> bool
    ensures { result ≡ wrong_system own ids }
{
    match ids {
        Identifiers::Absent | Identifiers::Own(_) => false,
        Identifiers::Neighbor(_, system) | Identifiers::Whole(_, system, _) => system != own,
    }
}

fn is_wrong_circuit(own: u32, ids: Identifiers) -> bool
    ensures { result ≡ wrong_circuit own ids }
{
    match ids {
        Identifiers::Absent | Identifiers::Own(_) | Identifiers::Neighbor(_, _) => false,
        Identifiers::Whole(_, _, circuit) => circuit != own,
    }
}

// What of a three-way TLV's identifiers is present and not ours; a LAN frame has none.
#[derive(Clone, Copy)]
pub struct Wrong {
    pub id: bool,
    pub system: bool,
    pub circuit: bool,
}

// A frame's identifiers beside our own. Once it is known, neither they nor ours are held any more.
pub fn wrong_of(here: Here, link: Link) -> Wrong
    ensures { result ≡ wrong_of here link }
{
    let Link::P2p(three_way) = link else {
        return Wrong {
            id: false,
            system: false,
            circuit: false,
        };
    };
    let ids = three_way.ids;
    let system = is_wrong_system(here.own, ids);
    let circuit = is_wrong_circuit(here.circuit, ids);
    Wrong {
        id: system | circuit,
        system,
        circuit,
    }
}

fn is_excused(request: bool, up: bool, system: bool, restarting: bool) -> bool
    ensures { result ≡ excused request up system restarting }
{
    if up {
        return request;
    }
    if system {
        return false;
    }
    restarting
}

// Refusal 8.
pub fn is_wrong_neighbor(here: Here, wrong: Wrong, phase: Phase, frame: Hello) -> bool
    requires { wrong ≡ wrong_of here frame.link }
    ensures { result ≡ wrong_neighbor here phase frame frame.link }
{
    if wrong.id {
        return !is_excused(
            is_request(frame.restart),
            is_up(phase),
            wrong.system,
            here.restarting,
        );
    }
    false
}

fn step_lan(listed: bool) -> Phase
    ensures { result ≡ lan_step listed }
{
    if listed {
        return Phase::Up;
    }
    Phase::Init
}

fn step_p2p(phase: Phase, state: ThreeWayState) -> Phase
    ensures { result ≡ p2p_step phase state }
{
    match state {
        ThreeWayState::Down => Phase::Init,
        ThreeWayState::Initializing => Phase::Up,
        ThreeWayState::Up => match phase {
            Phase::Gone => Phase::Gone,
            Phase::Init | Phase::Up => Phase::Up,
        },
    }
}

fn as_init(phase: Phase) -> Phase
    ensures { result ≡ as_init phase }
{
    match phase {
        Phase::Gone | Phase::Init => Phase::Init,
        Phase::Up => Phase::Up,
    }
}

// A three-way TLV with a state, its Neighbor Extended Circuit ID wrong or not.
fn step_three_way(restarting: bool, wrong: bool, phase: Phase, state: ThreeWayState) -> Phase
    ensures { result ≡ three_way_step restarting wrong phase state }
{
    if restarting {
        if wrong {
            return Phase::Init;
        }
        return step_p2p(as_init(phase), state);
    }
    step_p2p(phase, state)
}

fn step_link(here: Here, wrong: Wrong, phase: Phase, link: Link) -> Phase
    requires { wrong ≡ wrong_of here link }
    ensures { result ≡ link_step here phase link }
{
    match link {
        Link::Lan { listed, .. } => step_lan(listed),
        Link::P2p(three_way) => {
            step_three_way(here.restarting, wrong.circuit, phase, three_way.state)
        }
    }
}

fn is_kept_up(tlv: RestartTlv, phase: Phase) -> bool
    ensures { result ≡ kept_up tlv phase }
{
    if is_request(tlv) {
        return is_up(phase);
    }
    false
}

// The record's phase after an accepted frame.
pub fn step_of(here: Here, wrong: Wrong, phase: Phase, frame: Hello) -> Phase
    requires { wrong ≡ wrong_of here frame.link }
    ensures { result ≡ step_of here phase frame }
{
    if is_kept_up(frame.restart, phase) {
        return Phase::Up;
    }
    step_link(here, wrong, phase, frame.link)
}
