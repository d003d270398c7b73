// The T1s of all circuits, two places for each: a mask of those that run, and an entry for each place in two lent words. Places count from 0.
//
//   word  2 i       2 i + 1
//         deadline  expiries + 256 acknowledged + 512 CSNP set of level 1 + 1024 CSNP set of level 2 + 2048 begun
ghost use Rattle.std.specs.Prelude.{◌≡◌, ◌≢◌, map, false, ℕ, ◌<◌, set, get_or, length};
ghost use Rattle.timers.specs.Hellos.{hello_bits};
ghost use Rattle.timer_parts.specs.T1.{tick_t1, hello_due, start_entry};
ghost use Rattle.timers.specs.Timers.{no_t1};
ghost use Rattle.timers.specs.Memory.{t1_count, word_count, entry_of, entry_at, t1s_at};

use basics::bits::digit;
use basics::levels::Levels;
use basics::places::{T1_PLACES, has_place, put_place};
use settings::lengths::Lengths;
use timer_parts::t1::{Entry, T1, is_due, is_hello_due, start_entry, tick_t1};

// How many T1s there are.
pub const T1S: usize = T1_PLACES;

// The words that are lent.
pub const WORDS: usize = 2 * T1S;

fn second_word(e: Entry) -> u64
    ensures { entry_of e.deadline result ≡ e }
{
    e.tries as u64
        + 256 * digit(e.acked)
        + 512 * digit(e.sets.one)
        + 1024 * digit(e.sets.two)
        + 2048 * digit(e.begun)
}

#[tactic(auto, unfolding(crate::specs::Memory::entry_at, crate::specs::Memory::entry_of))]
fn load_entry(words: &[u64], i: usize) -> Entry
    requires { (length words.now ≡ word_count) × (i < t1_count) }
    ensures { result ≡ entry_at words.now i }
{
    let b = words[2 * i + 1];
    Entry {
        begun: b / 2048 % 2 == 1,
        deadline: words[2 * i],
        tries: (b % 256) as u8,
        acked: b / 256 % 2 == 1,
        sets: Levels {
            one: b / 512 % 2 == 1,
            two: b / 1024 % 2 == 1,
        },
    }
}

fn store_entry(words: &mut [u64], i: usize, e: Entry)
    requires { (length words.old ≡ word_count) × (i < t1_count) }
    ensures { (entry_at words.new i ≡ e) × ((j : ℕ) → j ≢ i → entry_at words.new j ≡ entry_at words.old j) }
{
    words[2 * i] = e.deadline;
    words[2 * i + 1] = second_word(e);
}

// The T1 in place i.
pub fn load_t1(words: &[u64], mask: u16, i: usize) -> T1
    requires { (length words.now ≡ word_count) × (i < t1_count) }
    ensures { result ≡ get_or (t1s_at mask words.now) i no_t1 }
{
    T1 {
        runs: has_place(mask, i),
        entry: load_entry(words, i),
    }
}

// The mask with the T1's new digit.
pub fn store_t1(words: &mut [u64], mask: u16, i: usize, t: T1) -> u16
    requires { (length words.old ≡ word_count) × (i < t1_count) }
    ensures { t1s_at result words.new ≡ set (t1s_at mask words.old) i t }
{
    store_entry(words, i, t.entry);
    put_place(mask, i, t.runs)
}

// The mask of running T1s, and that of the hello orders.
#[derive(Clone, Copy)]
pub struct Masks {
    pub mask: u16,
    pub hellos: u16,
}

// No hello is ordered of the T1 in place i so far.
fn tick_t1_at(words: &mut [u64], m: Masks, i: usize, s: Lengths, clock: u32) -> Masks
    requires { (length words.old ≡ word_count) × (i < t1_count) × (get_or (hello_bits m.hellos) i false ≡ false) }
    ensures { (t1s_at result.mask words.new ≡ set (t1s_at m.mask words.old) i (tick_t1 s clock (get_or (t1s_at m.mask words.old) i no_t1)))
        × (hello_bits result.hellos ≡ set (hello_bits m.hellos) i (hello_due s clock (get_or (t1s_at m.mask words.old) i no_t1))) }
{
    let t = load_t1(words, m.mask, i);
    if !is_due(clock, t) {
        return m;
    }
    Masks {
        hellos: put_place(m.hellos, i, is_hello_due(s, clock, t)),
        mask: store_t1(words, m.mask, i, tick_t1(s, clock, t)),
    }
}

// A tick's T1 step.
pub fn tick_t1s(words: &mut [u64], mask: u16, s: Lengths, clock: u32) -> Masks
    requires { length words.old ≡ word_count }
    ensures { (t1s_at result.mask words.new ≡ map (tick_t1 s clock) (t1s_at mask words.old))
        × (hello_bits result.hellos ≡ map (hello_due s clock) (t1s_at mask words.old)) }
{
    let mut m = Masks { mask, hellos: 0 };
    for i in 0..T1S {
        m = tick_t1_at(words, m, i, s, clock);
    }
    m
}

// Each entry as setup leaves it.
pub fn fill_entries(words: &mut [u64], begun: bool, deadline: u64)
    requires { length words.old ≡ word_count }
    ensures { (j : ℕ) → j < t1_count → entry_at words.new j ≡ start_entry begun deadline }
{
    for i in 0..T1S {
        store_entry(words, i, start_entry(begun, deadline));
    }
}
