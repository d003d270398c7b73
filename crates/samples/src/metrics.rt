// C10 and C11: the link metric of a P2P circuit.
use crate::frames::{SOURCE, reverse, reverse_twice, start};
use crate::show::Answer;
use basics::kind::CircuitKind;
use gateway::calls::{link_metric, receive};
use gateway::whole::GATEWAY_WORDS;
use settings::mode::Mode;
use std::io;

// The metric after a frame, whose answer C10 and C11 do not print.
fn row(rt: &impl Print, name: &str, what: &str, configured: u32, frame: &[u8]) -> io::Result<()> {
    let mut gateway = [0u64; GATEWAY_WORDS];
    let mut reply = [0u8; 11];
    start(&mut gateway, CircuitKind::P2p, Mode::Running, 0, configured);
    let _ = receive(&mut gateway, 1, &SOURCE, frame, &mut reply);
    println!(rt; "{name:<5}{what:<43}{}", Answer(link_metric(&gateway, 1)))
}

// C10: the link metric.
pub fn c10(rt: &impl Print) -> io::Result<()> {
    row(rt, "C10", "10 + 5", 10, &reverse(0, 5))?;
    row(
        rt,
        "C10",
        "16,777,210 + 10 without U",
        16777210,
        &reverse(0, 10),
    )?;
    row(
        rt,
        "C10",
        "16,777,210 + 10 with U",
        16777210,
        &reverse(2, 10),
    )
}

// C11: two type 16 TLVs.
pub fn c11(rt: &impl Print) -> io::Result<()> {
    row(
        rt,
        "C11",
        "configured 10, two type 16 TLVs",
        10,
        &reverse_twice(5),
    )
}
