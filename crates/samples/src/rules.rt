// C8: the Restart TLV's lengths. C13: the PDU Length and the lent octets.
use crate::frames::{SOURCE, filled, restart, start};
use crate::show::verdict;
use basics::kind::CircuitKind;
use gateway::calls::receive;
use gateway::whole::GATEWAY_WORDS;
use settings::mode::Mode;
use std::io;

fn row(
    rt: &impl Print,
    gateway: &mut [u64; GATEWAY_WORDS],
    name: &str,
    what: &str,
    frame: &[u8],
) -> io::Result<()> {
    let mut reply = [0u8; 11];
    let verdict = verdict(receive(gateway, 1, &SOURCE, frame, &mut reply));
    println!(rt; "{name:<5}{what:<43}{verdict}")
}

// A Restart TLV of a length, with flags.
fn restart_row(
    rt: &impl Print,
    gateway: &mut [u64; GATEWAY_WORDS],
    what: &str,
    length: u8,
    flags: u8,
) -> io::Result<()> {
    row(rt, gateway, "C8", what, &restart(0, length, flags, 0))
}

// C8: the Restart TLV's lengths.
pub fn c8(rt: &impl Print) -> io::Result<()> {
    let mut gateway = [0u64; GATEWAY_WORDS];
    start(&mut gateway, CircuitKind::P2p, Mode::Running, 0, 10);
    restart_row(rt, &mut gateway, "TLV 211 of length 0", 0, 0)?;
    restart_row(rt, &mut gateway, "TLV 211 of length 1 with RA", 1, 2)?;
    restart_row(rt, &mut gateway, "TLV 211 of length 2 with PR", 2, 8)?;
    restart_row(rt, &mut gateway, "TLV 211 of length 10", 10, 1)?;
    restart_row(rt, &mut gateway, "TLV 211 of length 3 with PR", 3, 8)
}

// C13: the PDU Length and the lent octets.
pub fn c13(rt: &impl Print) -> io::Result<()> {
    let mut gateway = [0u64; GATEWAY_WORDS];
    start(&mut gateway, CircuitKind::P2p, Mode::Running, 0, 10);
    row(
        rt,
        &mut gateway,
        "C13",
        "PDU Length = lent octets",
        &filled(40, 15),
    )?;
    row(
        rt,
        &mut gateway,
        "C13",
        "PDU Length one more than the lent octets",
        &filled(41, 15),
    )?;
    row(
        rt,
        &mut gateway,
        "C13",
        "a lone type octet at the end",
        &filled(40, 14),
    )
}
