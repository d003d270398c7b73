// The hello frames of the sample runs, and a gateway to take them: one circuit, own System ID 1921.6800.1001, neighbour 1921.6800.1002.
// Frames are octets made by hand from document 01's rows, so states and flags go in as their numbers, and not as the library's types.
use basics::kind::CircuitKind;
use basics::levels::Levels;
use basics::mask::CIRCUITS;
use gateway::calls::set_up;
use gateway::config::{CircuitSettings, GatewaySettings};
use gateway::whole::GATEWAY_WORDS;
use settings::lengths::Lengths;
use settings::mode::Mode;

pub const OWN: [u8; 6] = [0x19, 0x21, 0x68, 0x00, 0x10, 0x01];

pub const NEIGHBOUR: [u8; 6] = [0x19, 0x21, 0x68, 0x00, 0x10, 0x02];

// The neighbour's source MAC.
pub const SOURCE: [u8; 6] = [2, 0, 0, 0, 0, 2];

fn circuit(kind: CircuitKind, metric: u32) -> CircuitSettings {
    CircuitSettings {
        kind,
        levels: Levels {
            one: true,
            two: true,
        },
        mac: [2, 0, 0, 0, 0, 1],
        priority: 64,
        hold: 30,
        metric,
        id: 1,
    }
}

// Configured time 30; T1 and T2 60. No row prints what setup answers: it takes these settings, and the hellos that it orders play no part.
pub fn start(
    gateway: &mut [u64; GATEWAY_WORDS],
    kind: CircuitKind,
    mode: Mode,
    clock: u32,
    metric: u32,
) {
    let one = circuit(kind, metric);
    let _ = set_up(
        gateway,
        GatewaySettings {
            system: OWN,
            lengths: Lengths {
                t1: 60,
                t2: 60,
                tries: 3,
            },
            clock,
            mode,
            count: 1,
            circuits: [one; CIRCUITS],
        },
    );
}

// P2P of the neighbour, Holding Time 27: a PDU Length, a three-way TLV with this state (0 Up, 1 Initializing, 2 Down), and what follows it.
// The octets lent past the PDU Length are never read.
fn p2p(length: u8, state: u8, rest: [u8; 17]) -> [u8; 40] {
    let mut frame = [0; 40];
    frame[..23].copy_from_slice(&[
        0x83, 20, 1, 0, 17, 1, 0, 0, 3, 0x19, 0x21, 0x68, 0x00, 0x10, 0x02, 0, 27, 0, length, 1,
        240, 1, state,
    ]);
    frame[23..].copy_from_slice(&rest);
    frame
}

// With a Restart TLV of a length, its flags and its Remaining Time.
pub fn restart(state: u8, len: u8, flags: u8, time: u16) -> [u8; 40] {
    let [high, low] = time.to_be_bytes();
    p2p(
        25 + len % 16,
        state,
        [
            211, len, flags, high, low, 0x19, 0x21, 0x68, 0x00, 0x10, 0x01, 0, 0, 0, 0, 0, 0,
        ],
    )
}

// Three-way Initializing, with a Reverse Metric TLV (type 16): its flags and its offset.
pub fn reverse(flags: u8, offset: u8) -> [u8; 40] {
    p2p(
        30,
        1,
        [16, 5, flags, 0, 0, offset, 0, 0, 0, 0, 0, 0, 0, 0, 0, 0, 0],
    )
}

// The same with two of them.
pub fn reverse_twice(offset: u8) -> [u8; 40] {
    p2p(
        37,
        1,
        [
            16, 5, 0, 0, 0, offset, 0, 16, 5, 0, 0, 0, offset, 0, 0, 0, 0,
        ],
    )
}

// A PDU Length, and a TLV of type 1 and a length after the three-way TLV: of length 15 it ends at the fortieth octet, of length 14 that octet
// is a lone type octet.
pub fn filled(length: u8, value: u8) -> [u8; 40] {
    p2p(
        length,
        1,
        [1, value, 0, 0, 0, 0, 0, 0, 0, 0, 0, 0, 0, 0, 0, 0, 211],
    )
}

// LAN level 1, from the router of a number, with a Holding Time.
pub fn lan(router: u8, hold: u8) -> [u8; 27] {
    [
        0x83, 27, 1, 0, 15, 1, 0, 0, 3, 0x19, 0x21, 0x68, 0x00, 0x20, router, 0, hold, 0, 27, 64,
        0, 0, 0, 0, 0, 0, 0,
    ]
}
