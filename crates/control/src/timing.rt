// The calls on the timers, over the control words. T1s' places count from 0. In the mode Running only a tick's clock is written. Where a
// refusal or a record goes by the mode too, the caller asks for it.
ghost use Rattle.std.specs.Prelude.{◌≡◌, ◌<◌, length, get_or};
ghost use Rattle.timers.specs.Hellos.{hellos_of};
ghost use Rattle.basics.specs.Mask.{circuits, t1_places};
ghost use Rattle.settings.specs.Serving.{t1_place};
ghost use Rattle.timer_parts.specs.T1.{hello_flags};
ghost use Rattle.timers.specs.Timers.{no_t1, csnp_in, notice_t2s, count_runs, lowest_runs};
ghost use Rattle.control.specs.Words.{control_words, common_of};
ghost use Rattle.control.specs.Timing.{On, CommonSettles, CommonHears, CommonTicksOn, CommonTicks};

use crate::head::{load_head, mode_of, store_head};
use crate::words::{ENTRIES_AT, ENTRIES_END, clock_of, lengths_of, move_clock, serving_of};
use basics::kind::CircuitKind;
use basics::levels::Levels;
use restart_tlv::flags::Flags;
use settings::mode::is_running;
use settings::serving::t1_place;
use timer_parts::heard::Heard;
use timer_parts::t1::Freed;
use timers::events::HeardOrders;
use timers::hellos::{HelloOrder, HelloOrders};
use timers::outcome::TimerOutcome;

#[derive(Clone, Copy)]
pub struct TickOrders {
    pub hellos: HelloOrders,
    pub outcome: TimerOutcome,
}

fn hear_in(words: &mut [u64], i: usize, rose: bool, d: Heard) -> HeardOrders
    requires { (length words.old ≡ control_words) × (i < t1_places) × On words.old }
    ensures { CommonHears i rose d words.old words.new result }
{
    let h = load_head(words);
    let v = serving_of(words);
    let s = lengths_of(words);
    let clock = clock_of(words);
    let x = timers::events::hear_hello(
        &mut words[ENTRIES_AT..ENTRIES_END],
        h,
        v,
        s,
        clock,
        i,
        rose,
        d,
    );
    store_head(words, x.head);
    x.orders
}

// An accepted hello on circuit i, from 0, of this kind, at a level, at the held clock and in the held mode; `rose`: its record becomes UP. Which T1 it
// is to is asked where a T1 may run.
pub fn hear(
    words: &mut [u64],
    kind: CircuitKind,
    i: usize,
    level: u8,
    rose: bool,
    d: Heard,
) -> HeardOrders
    requires { (length words.old ≡ control_words) × (i < circuits) }
    ensures { CommonHears (t1_place kind i level) rose d words.old words.new result }
{
    if is_running(mode_of(words)) {
        return HeardOrders {
            outcome: TimerOutcome::Idle,
            freed: Freed::Kept,
            hello: HelloOrder::Nothing,
        };
    }
    hear_in(words, t1_place(kind, i, level), rose, d)
}

// The CSNP sets of the levels `n` are complete, for the T1 in place i.
#[inline(never)]
pub fn notice_csnp(words: &mut [u64], i: usize, n: Levels) -> TimerOutcome
    requires { (length words.old ≡ control_words) × (i < t1_places) × On words.old }
    ensures { CommonSettles (csnp_in i n) words.old words.new result }
{
    let h = load_head(words);
    let v = serving_of(words);
    let x = timers::events::notice_csnp(&mut words[ENTRIES_AT..ENTRIES_END], h, v, i, n);
    store_head(words, x.head);
    x.outcome
}

// The databases of the levels `n` are complete.
pub fn notice_database(words: &mut [u64], n: Levels) -> TimerOutcome
    requires { (length words.old ≡ control_words) × On words.old }
    ensures { CommonSettles (notice_t2s n) words.old words.new result }
{
    let h = load_head(words);
    let v = serving_of(words);
    let x = timers::events::notice_database(h, v, n);
    store_head(words, x.head);
    x.outcome
}

fn tick_in(words: &mut [u64], clock: u32) -> TickOrders
    requires { (length words.old ≡ control_words) × On words.old }
    ensures { CommonTicksOn clock words.old words.new result.outcome (hellos_of result.hellos) }
{
    let h = load_head(words);
    let s = lengths_of(words);
    let v = serving_of(words);
    let x = timers::events::tick_timers(&mut words[ENTRIES_AT..ENTRIES_END], h, v, s, clock);
    store_head(words, x.head);
    TickOrders {
        hellos: x.hellos,
        outcome: x.outcome,
    }
}

fn tick_on(words: &mut [u64], clock: u32) -> TickOrders
    requires { length words.old ≡ control_words }
    ensures { CommonTicksOn clock words.old words.new result.outcome (hellos_of result.hellos) }
{
    if is_running(mode_of(words)) {
        return TickOrders {
            hellos: HelloOrders {
                t1s: 0,
                flags: Flags::NONE,
            },
            outcome: TimerOutcome::Idle,
        };
    }
    tick_in(words, clock)
}

// The clock, and then the timers at it.
pub fn tick(words: &mut [u64], clock: u32) -> TickOrders
    requires { length words.old ≡ control_words }
    ensures { CommonTicks clock words.old words.new result.outcome (hellos_of result.hellos) }
{
    move_clock(words, clock);
    tick_on(words, clock)
}

// The flags of the next hello of the T1 in place i.
pub fn next_flags(words: &[u64], i: usize) -> Flags
    requires { (length words.now ≡ control_words) × (i < t1_places) }
    ensures { result ≡ hello_flags (common_of words.now).timers.mode (get_or (common_of words.now).timers.t1s i no_t1) }
{
    let h = load_head(words);
    timers::events::next_flags(&words[ENTRIES_AT..ENTRIES_END], h, i)
}

// How many T1s run.
pub fn count_waiting(words: &[u64]) -> u32
    requires { length words.now ≡ control_words }
    ensures { result ≡ count_runs (common_of words.now).timers.t1s }
{
    timers::head::count_waiting(load_head(words))
}

// The lowest circuit with one, by its number from 1.
pub fn lowest_waiting(words: &[u64]) -> Option<u8>
    requires { length words.now ≡ control_words }
    ensures { result ≡ lowest_runs (common_of words.now).timers.t1s }
{
    timers::head::lowest_waiting(load_head(words))
}
