// The daemon's notices that a CSNP set, or a level's database, is complete (document 01, "Timers while Restarting"; document 02, W-201 and W-202).
ghost use Rattle.std.specs.Prelude.{◌≡◌, [], ◌<◌, ◌≤◌, length};
ghost use Rattle.basics.specs.Mask.{circuits};
ghost use Rattle.model.specs.Answers.{noticed_of};
ghost use Rattle.model.specs.Step.{csnp_complete, lift, step, At, CsnpComplete, Over, DatabaseComplete};
ghost use Rattle.own_words.specs.Words.{own_words, gateway_of, Meets};

use basics::levels::{has_level, only_level};
use basics::refusal::Refusal;
use control::head::mode_of;
use control::timing::{notice_csnp, notice_database};
use control::words::{CONTROL_WORDS, circuit_of, levels_of};
use settings::circuit::Circuit;
use settings::mode::is_running;
use settings::serving::t1_place;
use timers::outcome::TimerOutcome;

// A level that is not enabled there (1), then 11.
fn csnp_on(gateway: &mut [u64], n: u8, s: Circuit, level: u8) -> Result<TimerOutcome, Refusal>
    requires { (length gateway.old ≡ own_words) × (0 < n) × (n ≤ circuits) }
    ensures { Meets (noticed_of result) (lift (gateway_of gateway.old) n (csnp_complete n s level)) gateway.old gateway.new [] }
{
    if !has_level(s.levels, level) {
        return Err(Refusal::NoCircuit);
    }
    if is_running(mode_of(&gateway[0..CONTROL_WORDS])) {
        return Err(Refusal::NotRestarting);
    }
    let set = only_level(level);
    let i = t1_place(s.kind, n as usize - 1, level);
    let outcome = notice_csnp(&mut gateway[0..CONTROL_WORDS], i, set);
    Ok(outcome)
}

// The CSNP set of a level is complete on a circuit.
pub fn csnp_in(gateway: &mut [u64], n: u8, level: u8) -> Result<TimerOutcome, Refusal>
    requires { length gateway.old ≡ own_words }
    ensures { Meets (noticed_of result) (step (gateway_of gateway.old) (At n (CsnpComplete level))) gateway.old gateway.new [] }
{
    let Some(s) = circuit_of(&gateway[0..CONTROL_WORDS], n) else {
        return Err(Refusal::NoCircuit);
    };
    csnp_on(gateway, n, s, level)
}

// The database of a level is complete. A level that is enabled on no circuit (1), then 11.
pub fn database_in(gateway: &mut [u64], level: u8) -> Result<TimerOutcome, Refusal>
    requires { length gateway.old ≡ own_words }
    ensures { Meets (noticed_of result) (step (gateway_of gateway.old) (Over (DatabaseComplete level))) gateway.old gateway.new [] }
{
    if !has_level(levels_of(&gateway[0..CONTROL_WORDS]), level) {
        return Err(Refusal::NoCircuit);
    }
    if is_running(mode_of(&gateway[0..CONTROL_WORDS])) {
        return Err(Refusal::NotRestarting);
    }
    let set = only_level(level);
    let outcome = notice_database(&mut gateway[0..CONTROL_WORDS], set);
    Ok(outcome)
}
