// C9: T3 is lowered only by an acknowledgement that shows us Up, and only to an earlier time. Its deadline is seen by the tick that orders
// overload.
use crate::frames::{SOURCE, restart, start};
use basics::kind::CircuitKind;
use basics::refusal::Refusal;
use gateway::calls::{receive, tick};
use gateway::whole::GATEWAY_WORDS;
use model::answers::Ticked;
use settings::mode::Mode;
use std::io;
use timers::outcome::{Overload, TimerOutcome};

fn orders_overload(answer: Result<Ticked, Refusal>) -> bool {
    let Ok(ticked) = answer else {
        return false;
    };
    match ticked.outcome {
        TimerOutcome::Idle => false,
        TimerOutcome::Goes { overload, .. } | TimerOutcome::Ended { overload, .. } => {
            matches!(overload, Overload::Set | Overload::Both)
        }
    }
}

// Ticks from a clock on, until one orders overload: its clock, or 60, where T2 ends.
fn deadline(gateway: &mut [u64; GATEWAY_WORDS], from: u32) -> u32 {
    (from..60)
        .find(|clock| orders_overload(tick(gateway, *clock)))
        .unwrap_or(60)
}

// An acknowledgement at a clock: RA, a Remaining Time, and a three-way state. What it did is seen by `deadline`, so its answer is not printed.
fn acknowledge(gateway: &mut [u64; GATEWAY_WORDS], clock: u32, state: u8, time: u16) {
    let mut reply = [0u8; 11];
    let frame = restart(state, 9, 2, time);
    let _ = tick(gateway, clock);
    let _ = receive(gateway, 1, &SOURCE, &frame, &mut reply);
}

// The first acknowledgements of the three.
fn row(rt: &impl Print, what: &str, count: usize) -> io::Result<()> {
    let mut gateway = [0u64; GATEWAY_WORDS];
    start(&mut gateway, CircuitKind::P2p, Mode::Restarting, 0, 10);
    let all = [(5, 0, 40), (10, 0, 50), (12, 1, 20)];
    for (clock, state, time) in all.into_iter().take(count) {
        acknowledge(&mut gateway, clock, state, time);
    }
    println!(rt; "C9   {what:<43}T3 at {}", deadline(&mut gateway, 13))
}

// C9: T3 while Restarting.
pub fn c9(rt: &impl Print) -> io::Result<()> {
    row(rt, "Restarting from 0: at 5 RA 40, Up", 1)?;
    row(rt, ".. at 10 RA 50, Up", 2)?;
    row(rt, ".. at 12 RA 20, not Up", 3)
}
