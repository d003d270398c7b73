// C12: a LAN circuit has room for 16 records, and room freed is used again.
use crate::frames::{lan, start};
use crate::show::verdict;
use basics::kind::CircuitKind;
use basics::refusal::Refusal;
use gateway::calls::{receive, tick};
use gateway::whole::GATEWAY_WORDS;
use model::answers::Orders;
use settings::mode::Mode;
use std::io;

fn send(gateway: &mut [u64; GATEWAY_WORDS], router: u8, hold: u8) -> Result<Orders, Refusal> {
    let mut reply = [0u8; 11];
    let frame = lan(router, hold);
    receive(gateway, 1, &[2, 0, 0, 0, 0, router], &frame, &mut reply)
}

fn row(rt: &impl Print, what: &str, answer: Result<Orders, Refusal>) -> io::Result<()> {
    println!(rt; "C12  {what:<43}{}", verdict(answer))
}

// Router 1 has a Holding Time of 10, the others of 30. The two answers to the 17th key are what C12 prints.
pub fn c12(rt: &impl Print) -> io::Result<()> {
    let mut gateway = [0u64; GATEWAY_WORDS];
    start(&mut gateway, CircuitKind::Lan, Mode::Running, 0, 10);
    let _ = send(&mut gateway, 1, 10);
    for router in 2..17 {
        let _ = send(&mut gateway, router, 30);
    }
    row(rt, "a 17th key", send(&mut gateway, 17, 30))?;
    let _ = tick(&mut gateway, 10);
    row(rt, "again after one expired", send(&mut gateway, 17, 30))
}
