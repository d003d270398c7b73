// C1 to C7: a neighbour restarts, then plans to, then restarts.
use crate::frames::{NEIGHBOUR, SOURCE, restart, start};
use crate::show::{Answer, Looked, Received};
use basics::kind::CircuitKind;
use gateway::calls::{look_up, receive, tick};
use gateway::whole::GATEWAY_WORDS;
use settings::mode::Mode;
use std::io;

// A tick to the clock, whose answer no row prints, then the frame; the record afterwards, and the answer. The state and the flags are
// octets of a frame that is made by hand (state: 0 Up, 1 Initializing, 2 Down; flags: 1 RR, 8 PR).
fn row(
    rt: &impl Print,
    gateway: &mut [u64; GATEWAY_WORDS],
    name: &str,
    what: &str,
    clock: u32,
    state: u8,
    flags: u8,
    time: u16,
) -> io::Result<()> {
    let mut reply = [0u8; 11];
    let frame = restart(state, 3, flags, time);
    let _ = tick(gateway, clock);
    let answer = receive(gateway, 1, &SOURCE, &frame, &mut reply);
    let looked = Answer(look_up(gateway, 1, 0, &NEIGHBOUR, &SOURCE).map(Looked));
    let received = Answer(answer.map(|orders| Received {
        orders,
        reply: &reply,
    }));
    println!(rt; "{name:<5}{clock:<7}{what:<36}{looked}{received}")
}

// C1 to C6, one after another.
pub fn c1_to_c6(rt: &impl Print) -> io::Result<()> {
    let mut gateway = [0u64; GATEWAY_WORDS];
    start(&mut gateway, CircuitKind::P2p, Mode::Running, 80, 10);
    println!(rt;
        "row  clock  frame                               state expiry  mark     CSNPs reply"
    )?;
    row(
        rt,
        &mut gateway,
        "",
        "Initializing, flags 0, Holding 27",
        83,
        1,
        0,
        0,
    )?;
    row(rt, &mut gateway, "C1", "RR, Holding 27", 100, 0, 1, 0)?;
    row(rt, &mut gateway, "C2", "RR, Holding 27", 105, 0, 1, 0)?;
    row(
        rt,
        &mut gateway,
        "C3",
        "Up, flags 0, Holding 27",
        106,
        0,
        0,
        0,
    )?;
    row(
        rt,
        &mut gateway,
        "C4",
        "Up, PR, Remaining Time 300",
        110,
        0,
        8,
        300,
    )?;
    row(
        rt,
        &mut gateway,
        "C5",
        "Up, PR, Remaining Time 600",
        120,
        0,
        8,
        600,
    )?;
    row(rt, &mut gateway, "C6", "RR, Holding 27", 130, 0, 1, 0)
}

// C7: no record stands.
pub fn c7(rt: &impl Print) -> io::Result<()> {
    let mut gateway = [0u64; GATEWAY_WORDS];
    start(&mut gateway, CircuitKind::P2p, Mode::Running, 100, 10);
    row(
        rt,
        &mut gateway,
        "C7",
        "no record: Down, RR, Holding 27",
        100,
        2,
        1,
        0,
    )
}
