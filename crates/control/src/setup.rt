// The settings stored, and the timers started.
ghost use Rattle.std.specs.Prelude.{◌≡◌, ◌≢◌, ℕ, ◌<◌, ◌≤◌, length};
ghost use Rattle.timers.specs.Hellos.{hellos_of};
ghost use Rattle.basics.specs.Mask.{circuits};
ghost use Rattle.control.specs.Words.{control_words, circuit_at, circuits_from};
ghost use Rattle.control.specs.Setup.{settings_on, Stores, SetsControl};

use crate::head::store_head;
use crate::pack::{circuit_word, lengths_word, serving_word};
use crate::words::{
    CIRCUITS_AT, CLOCK_AT, COUNT_AT, ENTRIES_AT, ENTRIES_END, LENGTHS_AT, SEAL, SEAL_AT,
    SERVING_AT, SYSTEM_AT, serving_for,
};
use settings::circuit::Circuit;
use settings::lengths::Lengths;
use settings::mode::Mode;
use settings::serving::{Serving, levels_served};
use timers::events::{Start, start_timers};
use timers::hellos::HelloOrders;

// Circuit i, from 0.
pub fn store_circuit(words: &mut [u64], i: usize, s: Circuit)
    requires { (length words.old ≡ control_words) × (i < circuits) }
    ensures { (circuit_at words.new i ≡ s) × ((j : ℕ) → j ≢ i → circuit_at words.new j ≡ circuit_at words.old j) }
{
    words[CIRCUITS_AT + 3 * i] = circuit_word(s);
    words[CIRCUITS_AT + 3 * i + 1] = s.mac;
    words[CIRCUITS_AT + 3 * i + 2] = s.id as u64;
}

fn store_settings(
    words: &mut [u64],
    system: u64,
    lengths: Lengths,
    clock: u32,
    count: u8,
    v: Serving,
)
    requires { (length words.old ≡ control_words) × (count ≤ circuits) }
    ensures { Stores system lengths clock count v words.old words.new }
{
    words[SEAL_AT] = SEAL;
    words[COUNT_AT] = count as u64;
    words[CLOCK_AT] = clock as u64;
    words[SYSTEM_AT] = system;
    words[LENGTHS_AT] = lengths_word(lengths);
    words[SERVING_AT] = serving_word(v);
}

// The settings but for the circuits.
#[derive(Clone, Copy)]
pub struct Basis {
    pub system: u64,
    pub lengths: Lengths,
    pub clock: u32,
    pub mode: Mode,
    pub count: u8,
}

// The common part of a new gateway whose circuits are stored already; the answer is the hellos that are ordered.
pub fn begin(words: &mut [u64], s: Basis) -> HelloOrders
    requires { (length words.old ≡ control_words) × (s.count ≤ circuits) }
    ensures { SetsControl (settings_on s (circuits_from words.old 0 circuits)) words.new (hellos_of result) }
{
    let serving = serving_for(words, s.count as usize);
    store_settings(words, s.system, s.lengths, s.clock, s.count, serving);
    let start = Start {
        mode: s.mode,
        lengths: s.lengths,
        clock: s.clock,
        serving,
        levels: levels_served(serving),
    };
    let x = start_timers(&mut words[ENTRIES_AT..ENTRIES_END], start);
    store_head(words, x.head);
    x.hellos
}
