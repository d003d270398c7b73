// Each call's share of the timers: start, tick, an accepted hello, the two notices, and the flags of the next hello. T1s' places
// count from 0; `v` says which T1s there are and what each serves. The mode is not Running; refusals are the caller's.
ghost use Rattle.std.specs.Prelude.{◌≡◌, false, ℕ, ◌<◌, length, get_or};
ghost use Rattle.settings.specs.Mode.{is_running};
ghost use Rattle.timer_parts.specs.T1.{hello_flags};
ghost use Rattle.timer_parts.specs.declared.t1.Entry.{Entry};
ghost use Rattle.settings.specs.declared.serving.Serving.{Serving};
ghost use Rattle.timers.specs.Timers.{no_t1, csnp_in, notice_t2s};
ghost use Rattle.timers.specs.Memory.{t1_count, word_count, timers_of, timers_at};
ghost use Rattle.timers.specs.Events.{start_head, Starts, Closes, Ticks, Hears};
ghost use Rattle.timers.specs.Hellos.{hellos_of};

use crate::entries::{fill_entries, load_t1, store_t1, tick_t1s};
use crate::head::{Head, notice_t2s, tick_head, with_mask, with_t3};
use crate::hellos::{HelloOrder, HelloOrders, again_flags, begin_hello, order_hellos};
use crate::outcome::{TimerOutcome, overload_for, settle};
use basics::levels::Levels;
use restart_tlv::flags::Flags;
use settings::lengths::Lengths;
use settings::mode::{Mode, is_restarting, is_starting};
use settings::serving::{Serving, all_t1s, served_at};
use timer_parts::heard::Heard;
use timer_parts::t1::{Freed, begun_by, freed_by, hear_t1, hello_flags, note, satisfy};
use timer_parts::t2::start_t2s;
use timer_parts::t3::{T3, hear_t3};

// What setup gives to the timers: the mode, the lengths, the clock, which T1s the circuits have, and the levels that are enabled on some
// circuit.
#[derive(Clone, Copy)]
pub struct Start {
    pub mode: Mode,
    pub lengths: Lengths,
    pub clock: u32,
    pub serving: Serving,
    pub levels: Levels,
}

#[derive(Clone, Copy)]
pub struct AfterStart {
    pub head: Head,
    pub hellos: HelloOrders,
}

#[derive(Clone, Copy)]
pub struct AfterTick {
    pub head: Head,
    pub hellos: HelloOrders,
    pub outcome: TimerOutcome,
}

// What an accepted hello orders: how the timers ended, whether the frame's T1 was stopped for want of a Restart TLV, and the hello that it
// began with.
#[derive(Clone, Copy)]
pub struct HeardOrders {
    pub outcome: TimerOutcome,
    pub freed: Freed,
    pub hello: HelloOrder,
}

#[derive(Clone, Copy)]
pub struct AfterHello {
    pub head: Head,
    pub orders: HeardOrders,
}

#[derive(Clone, Copy)]
pub struct AfterNotice {
    pub head: Head,
    pub outcome: TimerOutcome,
}

#[tactic(auto, unfolding(crate::specs::Events::head_by))]
fn start_head(s: Start) -> Head
    ensures { result ≡ start_head s }
{
    match s.mode {
        Mode::Running => Head {
            mode: s.mode,
            mask: 0,
            t2s: start_t2s(
                Levels {
                    one: false,
                    two: false,
                },
                0,
            ),
            t3: T3::Idle,
        },
        Mode::Restarting => Head {
            mode: s.mode,
            mask: all_t1s(s.serving),
            t2s: start_t2s(s.levels, s.clock as u64 + s.lengths.t2 as u64),
            t3: T3::Runs(s.clock as u64 + 65535),
        },
        Mode::Starting => Head {
            mode: s.mode,
            mask: 0,
            t2s: start_t2s(s.levels, s.clock as u64 + s.lengths.t2 as u64),
            t3: T3::Idle,
        },
    }
}

// The timers as setup leaves them, and the hellos that it orders.
pub fn start_timers(words: &mut [u64], s: Start) -> AfterStart
    requires { length words.old ≡ word_count }
    ensures { Starts s (timers_at s.serving result.head words.new) (hellos_of result.hellos) }
{
    fill_entries(
        words,
        is_restarting(s.mode),
        s.clock as u64 + s.lengths.t1 as u64,
    );
    let head = start_head(s);
    let hellos = order_hellos(head.mask, Flags::RR);
    AfterStart { head, hellos }
}

// A tick, after its records.
pub fn tick_timers(words: &mut [u64], h: Head, v: Serving, s: Lengths, clock: u32) -> AfterTick
    requires { length words.old ≡ word_count }
    ensures { Ticks s clock (timers_at v h words.old) (timers_at v result.head words.new) result.outcome (hellos_of result.hellos) }
{
    let m = tick_t1s(words, h.mask, s, clock);
    let end = settle(v, h, tick_head(v, clock, with_mask(h, m.mask)));
    AfterTick {
        head: end.head,
        hellos: order_hellos(m.hellos, again_flags(h.mode)),
        outcome: end.outcome,
    }
}

// An accepted hello to the T1 in place i; `rose`: its record becomes UP.
pub fn hear_hello(
    words: &mut [u64],
    h: Head,
    v: Serving,
    s: Lengths,
    clock: u32,
    i: usize,
    rose: bool,
    d: Heard,
) -> AfterHello
    requires { (length words.old ≡ word_count) × (i < t1_count) × (is_running h.mode ≡ false) }
    ensures { Hears s clock i rose d (timers_at v h words.old) (timers_at v result.head words.new) result.orders }
{
    let up = is_starting(h.mode) & rose;
    let t = load_t1(words, h.mask, i);
    let hello = begin_hello(up, t);
    let first = begun_by(up, clock as u64 + s.t1 as u64, t);
    let freed = freed_by(is_restarting(h.mode), d, first);
    let mask = store_t1(words, h.mask, i, hear_t1(served_at(v, i), d, first));
    let end = settle(v, h, with_t3(with_mask(h, mask), hear_t3(clock, d, h.t3)));
    AfterHello {
        head: end.head,
        orders: HeardOrders {
            outcome: overload_for(up, end.outcome),
            freed,
            hello,
        },
    }
}

// The CSNP sets of the levels `n` are complete, for the T1 in place i.
pub fn notice_csnp(words: &mut [u64], h: Head, v: Serving, i: usize, n: Levels) -> AfterNotice
    requires { (length words.old ≡ word_count) × (i < t1_count) }
    ensures { Closes (csnp_in i n) (timers_at v h words.old) (timers_at v result.head words.new) result.outcome }
{
    let t = load_t1(words, h.mask, i);
    let mask = store_t1(words, h.mask, i, satisfy(served_at(v, i), note(n, t)));
    let end = settle(v, h, with_mask(h, mask));
    AfterNotice {
        head: end.head,
        outcome: end.outcome,
    }
}

// The databases of the levels `n` are complete. No entry changes.
pub fn notice_database(h: Head, v: Serving, n: Levels) -> AfterNotice
    ensures { (e : ℕ → Entry) → Closes (notice_t2s n) (timers_of v h e) (timers_of v result.head e) result.outcome }
{
    let end = settle(v, h, notice_t2s(n, h));
    AfterNotice {
        head: end.head,
        outcome: end.outcome,
    }
}

// The flags of the next hello of the T1 in place i.
pub fn next_flags(words: &[u64], h: Head, i: usize) -> Flags
    requires { (length words.now ≡ word_count) × (i < t1_count) }
    ensures { (v : Serving) → result ≡ hello_flags h.mode (get_or (timers_at v h words.now).t1s i no_t1) }
{
    hello_flags(h.mode, load_t1(words, h.mask, i))
}
