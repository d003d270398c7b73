// The calls of document 01 on the memory whole: each lends the gateway's own words to the function that makes the call, so that the words of unfinished
// frames stay as they are. Setup clears those.
ghost use Rattle.std.specs.Prelude.{◌≡◌, List, [], ℕ, length};
ghost use Rattle.basics.specs.Octets.{big};
ghost use Rattle.model.specs.Answers.{received_of, ticked_of, released_of, noticed_of, looked_of, metric_of, flags_of, waiting_of};
ghost use Rattle.model.specs.Gateway.{setup, with_frames, no_frames};
ghost use Rattle.model.specs.Step.{At, Over, Receive, Tick, Release, Clear, CsnpComplete, DatabaseComplete, LookUp, LinkMetric, NextHello};
ghost use Rattle.model.specs.Step.{Waiting as Waits};
ghost use Rattle.gateway.specs.Whole.{gateway_words, whole_of, Does, SetsUpWhole};

use adjacency::record::Key;
use basics::mask::CIRCUITS;
use basics::refusal::Refusal;
use chunks::slot::{SLOT_WORDS, clear};
use model::answers::{Found, Orders, Ticked, Waiting};
use own_words::asks::{flags_in, look_in, metric_in, waiting_in};
use own_words::frame::receive_in;
use own_words::notices::{csnp_in, database_in};
use own_words::setup::set_up_in;
use own_words::ticks::{clear_in, release_in, tick_in};
use own_words::words::OWN_WORDS;
use restart_tlv::flags::Flags;
use settings::setup::Settings;
use timers::hellos::HelloOrders;
use timers::outcome::TimerOutcome;

// The gateway's own words, and two for each circuit's unfinished frame.
pub const GATEWAY_WORDS: usize = OWN_WORDS + SLOT_WORDS * CIRCUITS;

pub(crate) fn receive_at(
    gateway: &mut [u64],
    n: u8,
    source: &[u8],
    frame: &[u8],
    reply: &mut [u8],
) -> Result<Orders, Refusal>
    requires { (length gateway.old ≡ gateway_words) × (length source.now ≡ 6) }
    ensures { Does (At n (Receive (big 6 source.now 0) frame.now reply.old)) (received_of result) gateway.old gateway.new reply.new }
{
    receive_in(&mut gateway[0..OWN_WORDS], n, source, frame, reply)
}

pub(crate) fn tick_at(gateway: &mut [u64], clock: u32) -> Result<Ticked, Refusal>
    requires { length gateway.old ≡ gateway_words }
    ensures { Does (Over (Tick clock)) (ticked_of result) gateway.old gateway.new [] }
{
    tick_in(&mut gateway[0..OWN_WORDS], clock)
}

pub(crate) fn release_at(gateway: &mut [u64], n: u8) -> Result<(), Refusal>
    requires { length gateway.old ≡ gateway_words }
    ensures { Does (At n Release) (released_of result) gateway.old gateway.new [] }
{
    release_in(&mut gateway[0..OWN_WORDS], n)
}

pub(crate) fn clear_at(gateway: &mut [u64], n: u8) -> Result<(), Refusal>
    requires { length gateway.old ≡ gateway_words }
    ensures { Does (At n Clear) (released_of result) gateway.old gateway.new [] }
{
    clear_in(&mut gateway[0..OWN_WORDS], n)
}

pub(crate) fn csnp_at(gateway: &mut [u64], n: u8, level: u8) -> Result<TimerOutcome, Refusal>
    requires { length gateway.old ≡ gateway_words }
    ensures { Does (At n (CsnpComplete level)) (noticed_of result) gateway.old gateway.new [] }
{
    csnp_in(&mut gateway[0..OWN_WORDS], n, level)
}

pub(crate) fn database_at(gateway: &mut [u64], level: u8) -> Result<TimerOutcome, Refusal>
    requires { length gateway.old ≡ gateway_words }
    ensures { Does (Over (DatabaseComplete level)) (noticed_of result) gateway.old gateway.new [] }
{
    database_in(&mut gateway[0..OWN_WORDS], level)
}

pub(crate) fn look_at(gateway: &[u64], n: u8, key: Key) -> Result<Option<Found>, Refusal>
    requires { length gateway.now ≡ gateway_words }
    ensures { Does (At n (LookUp key)) (looked_of result) gateway.now gateway.now [] }
{
    look_in(&gateway[0..OWN_WORDS], n, key)
}

pub(crate) fn metric_at(gateway: &[u64], n: u8) -> Result<u32, Refusal>
    requires { length gateway.now ≡ gateway_words }
    ensures { Does (At n LinkMetric) (metric_of result) gateway.now gateway.now [] }
{
    metric_in(&gateway[0..OWN_WORDS], n)
}

pub(crate) fn flags_at(gateway: &[u64], n: u8, level: u8) -> Result<Flags, Refusal>
    requires { length gateway.now ≡ gateway_words }
    ensures { Does (At n (NextHello level)) (flags_of result) gateway.now gateway.now [] }
{
    flags_in(&gateway[0..OWN_WORDS], n, level)
}

pub(crate) fn waiting_at(gateway: &[u64]) -> Waiting
    requires { length gateway.now ≡ gateway_words }
    ensures { Does (Over Waits) (waiting_of result) gateway.now gateway.now [] }
{
    waiting_in(&gateway[0..OWN_WORDS])
}

// No frame is begun on any circuit.
pub(crate) fn drop_frames(gateway: &mut [u64])
    requires { length gateway.old ≡ gateway_words }
    ensures { (fs : List ℕ) → whole_of gateway.new fs ≡ with_frames (whole_of gateway.old fs) no_frames }
{
    for i in 0..CIRCUITS {
        let a = OWN_WORDS + SLOT_WORDS * i;
        clear(&mut gateway[a..a + SLOT_WORDS]);
    }
}

pub(crate) fn set_up_at(gateway: &mut [u64], s: Settings) -> Result<HelloOrders, Refusal>
    requires { length gateway.old ≡ gateway_words }
    ensures { SetsUpWhole (setup s) gateway.old gateway.new result }
{
    let hellos = set_up_in(&mut gateway[0..OWN_WORDS], s)?;
    drop_frames(gateway);
    Ok(hellos)
}
