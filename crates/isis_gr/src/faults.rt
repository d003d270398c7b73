// Which setting setup refuses; specs/Faults.antt has the numbers. Numbers here too, and no enum: C reads them as they are.
ghost use Rattle.std.specs.Prelude.{◌≡◌, ◌+◌, ◌<◌, ◌≤◌, length, take};
ghost use Rattle.basics.specs.Mask.{circuits};
ghost use Rattle.isis_gr.specs.Settings.{settings_octets, circuit_places};
ghost use Rattle.isis_gr.specs.Faults.{or_else, circuit_fault, circuits_fault, whole_fault, fault_of};

use crate::config::{
    CIRCUIT_OCTETS, COUNT, FIRST_CIRCUIT, HOLD, LAYOUT, LEVELS, METRIC, MODE, PRIORITY, T1, T2,
    TRIES,
};
use basics::mask::CIRCUITS;
use basics::octets::{four, two};
use settings::circuit::{MAX_HOLD, MAX_METRIC, MAX_PRIORITY, is_between};
use settings::setup::{MAX_LENGTH, MAX_TRIES};

// A setting's number, unless it is in range: then the next one's.
fn or_else(ok: bool, n: u32, next: u32) -> u32
    requires { (n ≤ 255) × (next ≤ 255) }
    ensures { (result ≡ or_else ok n next) × (result ≤ 255) }
{
    if ok { next } else { n }
}

fn circuit_fault(s: &[u8], at: usize) -> u32
    requires { at + 18 < length s.now }
    ensures { (result ≡ circuit_fault s.now at) × (result ≤ 255) }
{
    let kind = s[at] < 2;
    let levels = is_between(1, u32::from(s[at + LEVELS]), 3);
    let priority = is_between(0, u32::from(s[at + PRIORITY]), MAX_PRIORITY);
    let hold = is_between(1, u32::from(two(s, at + HOLD)), MAX_HOLD);
    let metric = is_between(0, four(s, at + METRIC), MAX_METRIC);
    let fifth = or_else(metric, 11, 0);
    let fourth = or_else(hold, 10, fifth);
    let third = or_else(priority, 9, fourth);
    let second = or_else(levels, 8, third);
    or_else(kind, 7, second)
}

fn circuits_fault(s: &[u8], count: usize) -> u32
    requires { (length s.now ≡ settings_octets) × (count ≤ circuits) }
    ensures { result ≡ circuits_fault s.now (take count circuit_places) 1 }
{
    for i in 0..count {
        let fault = circuit_fault(s, FIRST_CIRCUIT + CIRCUIT_OCTETS * i);
        if fault != 0 {
            return fault + 256 * (i as u32 + 1);
        }
    }
    0
}

fn whole_fault(s: &[u8]) -> u32
    requires { length s.now ≡ settings_octets }
    ensures { result ≡ whole_fault s.now }
{
    let one = is_between(1, u32::from(two(s, T1)), MAX_LENGTH);
    let other = is_between(1, u32::from(two(s, T2)), MAX_LENGTH);
    let tries = is_between(1, u32::from(s[TRIES]), MAX_TRIES);
    let mode = s[MODE] < 3;
    let count = is_between(1, u32::from(s[COUNT]), CIRCUITS as u32);
    let fifth = or_else(count, 6, 0);
    let fourth = or_else(mode, 5, fifth);
    let third = or_else(tries, 4, fourth);
    let second = or_else(other, 3, third);
    or_else(one, 2, second)
}

pub(crate) fn fault_of(version: u32, s: &[u8]) -> u32
    requires { length s.now ≡ settings_octets }
    ensures { result ≡ fault_of version s.now }
{
    if version != LAYOUT {
        return 1;
    }
    let whole = whole_fault(s);
    if whole != 0 {
        return whole;
    }
    circuits_fault(s, usize::from(s[COUNT]))
}
