// The control words (house).
//
//   word  0     1      2      3          4        5             6, 7          8            9    10-15  16-47       48-63  64-87     88-127
//         seal  count  clock  System ID  lengths  timers' head  T2 deadlines  T3 deadline  T1s  free   T1 entries  free   circuits  free
//
// Word 9 says which T1s there are: a mask of those that serve level 1, and of those that serve level 2. A circuit has three words: its
// small fields, its MAC, its extended circuit ID. In memory without the seal the words 1 and 5 count as 0: it has no circuits, and no
// timer runs there.
ghost use Rattle.std.specs.Prelude.{◌≡◌, ◌<◌, ◌≤◌, length};
ghost use Rattle.basics.specs.Mask.{circuits};
ghost use Rattle.settings.specs.Settings.{enabled_levels};
ghost use Rattle.settings.specs.Serving.{serving};
ghost use Rattle.control.specs.Words.{control_words, sealed, count_of, kind_in, circuit_in, circuit_at, circuits_from, lengths_in, serving_in, serving_of, common_of};
ghost use Rattle.control.specs.Common.{with_clock, Chooses};

use basics::kind::CircuitKind;
use basics::levels::{Levels, join_levels};
use basics::mask::CIRCUITS;
use settings::circuit::Circuit;
use settings::lengths::Lengths;
use settings::serving::{Serving, serve_circuit};
use timers::entries::WORDS;

// The octets ISISGR02: of this layout.
pub const SEAL: u64 = 5283647409863405618;

pub const SEAL_AT: usize = 0;

pub const COUNT_AT: usize = 1;

pub const CLOCK_AT: usize = 2;

pub const SYSTEM_AT: usize = 3;

pub const LENGTHS_AT: usize = 4;

pub const HEAD_AT: usize = 5;

pub const SERVING_AT: usize = 9;

pub const ENTRIES_AT: usize = 16;

pub const ENTRIES_END: usize = ENTRIES_AT + WORDS;

pub const CIRCUITS_AT: usize = 64;

// The words of this part.
pub const CONTROL_WORDS: usize = 128;

// A word of memory that was set up.
#[tactic(auto, unfolding(crate::specs::Words::sealed))]
pub fn sealed_at(words: &[u64], i: usize) -> u64
    requires { (length words.now ≡ control_words) × (i < control_words) }
    ensures { result ≡ sealed words.now i }
{
    if words[SEAL_AT] == SEAL { words[i] } else { 0 }
}

// How many circuits there are.
#[tactic(auto, unfolding(crate::specs::Words::count_of))]
pub fn count_of(words: &[u64]) -> usize
    requires { length words.now ≡ control_words }
    ensures { (result ≡ count_of words.now) × (result ≤ circuits) }
{
    let n = sealed_at(words, COUNT_AT);
    if (CIRCUITS as u64) < n { 0 } else { n as usize }
}

fn kind_in(d: u64) -> CircuitKind
    ensures { result ≡ kind_in d }
{
    if d == 0 {
        CircuitKind::Lan
    } else {
        CircuitKind::P2p
    }
}

#[tactic(auto, unfolding(crate::specs::Words::circuit_in))]
fn circuit_in(w: u64, mac: u64, id: u64) -> Circuit
    ensures { result ≡ circuit_in w mac id }
{
    Circuit {
        kind: kind_in(w % 2),
        levels: Levels {
            one: w / 2 % 2 == 1,
            two: w / 4 % 2 == 1,
        },
        mac,
        priority: (w / 256 % 256) as u8,
        hold: (w / 65536 % 65536) as u16,
        metric: (w / 4294967296 % 4294967296) as u32,
        id: (id % 4294967296) as u32,
    }
}

// Circuit i, from 0.
#[tactic(auto, unfolding(crate::specs::Words::circuit_at))]
pub fn load_circuit(words: &[u64], i: usize) -> Circuit
    requires { (length words.now ≡ control_words) × (i < circuits) }
    ensures { result ≡ circuit_at words.now i }
{
    circuit_in(
        words[CIRCUITS_AT + 3 * i],
        words[CIRCUITS_AT + 3 * i + 1],
        words[CIRCUITS_AT + 3 * i + 2],
    )
}

// The circuit of the number n; where there is none, a call on it is refused (1).
pub fn circuit_of(words: &[u64], n: u8) -> Option<Circuit>
    requires { length words.now ≡ control_words }
    ensures { Chooses (common_of words.now) n result }
{
    if n == 0 {
        return None;
    }
    let i = n as usize - 1;
    if count_of(words) <= i {
        return None;
    }
    let circuit = load_circuit(words, i);
    Some(circuit)
}

// The held clock.
#[tactic(auto, unfolding(crate::specs::Words::common_of))]
pub fn clock_of(words: &[u64]) -> u32
    requires { length words.now ≡ control_words }
    ensures { result ≡ (common_of words.now).clock }
{
    (words[CLOCK_AT] % 4294967296) as u32
}

// Our own System ID.
#[tactic(auto, unfolding(crate::specs::Words::common_of))]
pub fn system_of(words: &[u64]) -> u64
    requires { length words.now ≡ control_words }
    ensures { result ≡ (common_of words.now).system }
{
    words[SYSTEM_AT]
}

#[tactic(auto, unfolding(crate::specs::Words::lengths_in))]
fn lengths_in(w: u64) -> Lengths
    ensures { result ≡ lengths_in w }
{
    Lengths {
        t1: (w % 65536) as u16,
        t2: (w / 65536 % 65536) as u16,
        tries: (w / 4294967296 % 256) as u8,
    }
}

// The timers' lengths.
#[tactic(auto, unfolding(crate::specs::Words::common_of))]
pub fn lengths_of(words: &[u64]) -> Lengths
    requires { length words.now ≡ control_words }
    ensures { result ≡ (common_of words.now).lengths }
{
    lengths_in(words[LENGTHS_AT])
}

// The levels that are enabled on some circuit.
pub fn levels_of(words: &[u64]) -> Levels
    requires { length words.now ≡ control_words }
    ensures { result ≡ enabled_levels (common_of words.now).circuits }
{
    let mut found = Levels {
        one: false,
        two: false,
    };
    for i in 0..count_of(words) {
        found = join_levels(found, load_circuit(words, i).levels);
    }
    found
}

#[tactic(auto, unfolding(crate::specs::Words::serving_in))]
fn serving_in(w: u64) -> Serving
    ensures { result ≡ serving_in w }
{
    Serving {
        one: (w % 65536) as u16,
        two: (w / 65536 % 65536) as u16,
    }
}

// Which T1s there are.
pub fn serving_of(words: &[u64]) -> Serving
    requires { length words.now ≡ control_words }
    ensures { result ≡ serving_of words.now }
{
    serving_in(words[SERVING_AT])
}

// Which T1s the first `count` circuits have; from the last of them to the first.
pub fn serving_for(words: &[u64], count: usize) -> Serving
    requires { (length words.now ≡ control_words) × (count ≤ circuits) }
    ensures { result ≡ serving (circuits_from words.now 0 count) }
{
    let mut found = Serving { one: 0, two: 0 };
    for i in (0..count).rev() {
        let one = load_circuit(words, i);
        found = serve_circuit(one.kind, one.levels, found);
    }
    found
}

// The clock is moved, and nothing else.
pub fn move_clock(words: &mut [u64], clock: u32)
    requires { length words.old ≡ control_words }
    ensures { common_of words.new ≡ with_clock clock (common_of words.old) }
{
    words[CLOCK_AT] = clock as u64;
}
