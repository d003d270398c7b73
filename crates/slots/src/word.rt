// A record's small fields in one word (house).
//
//   bits   0-1  2-3   4           5            6                7  8-15   16-23     24  25  26-31  32-63
//          tag  mark  suppressed  Restart TLV  reverse metric?  0  level  priority  W   U   0      offset
//
// Tag: 0 no record, 1 INIT, 2 UP, 3 a place that the circuit does not have. Mark: 0 none, 1 Restart, 2 Planned.
ghost use Rattle.std.specs.Prelude.{◌≡◌, ◌+◌, ◌*◌, ◌≤◌};
ghost use Rattle.slots.specs.Word.{reverse_at, last_at, data_at, mark_at, reverse_word, last_word, data_word, mark_word, state_word, FitReverse, FitLast, FitData, FitState};

use adjacency::record::{Data, Last, Mark, State};
use basics::bits::digit;
use hello::reverse::ReverseMetric;

fn reverse_at(w: u64) -> Option<ReverseMetric>
    ensures { result ≡ reverse_at w }
{
    if w / 64 % 2 == 1 {
        return Some(ReverseMetric {
            offset: (w / 4294967296 % 4294967296) as u32,
            whole: w / 16777216 % 2 == 1,
            unreachable: w / 33554432 % 2 == 1,
        });
    }
    None
}

fn last_at(w: u64) -> Last
    ensures { result ≡ last_at w }
{
    let reverse = reverse_at(w);
    Last {
        priority: (w / 65536 % 256) as u8,
        tlv: w / 32 % 2 == 1,
        reverse,
    }
}

// The data of either state, of an expiry and the word.
pub fn data_at(expiry: u64, w: u64) -> Data
    ensures { result ≡ data_at expiry w }
{
    Data {
        expiry,
        suppressed: w / 16 % 2 == 1,
        last: last_at(w),
    }
}

// The mark that the word has.
pub fn mark_at(w: u64) -> Mark
    ensures { result ≡ mark_at w }
{
    match w / 4 % 4 {
        0 => Mark::Clear,
        1 => Mark::Restart,
        _ => Mark::Planned,
    }
}

// Each packing function also says that its argument fits the bits it is given, and bounds the word.
fn reverse_word(reverse: Option<ReverseMetric>) -> u64
    ensures value { result ≡ reverse_word reverse }
    ensures fit_reverse { FitReverse reverse }
    ensures upper_bound { result ≤ 64 + 16777216 + 33554432 + 4294967296 * 4294967295 }
{
    match reverse {
        None => 0,
        Some(asked) => 64
            + 16777216 * digit(asked.whole)
            + 33554432 * digit(asked.unreachable)
            + 4294967296 * (asked.offset as u64),
    }
}

fn last_word(last: Last) -> u64
    ensures value { result ≡ last_word last }
    ensures fit_last { FitLast last }
    ensures upper_bound { result ≤ 32 + 64 + 65536 * 255 + 16777216 + 33554432 + 4294967296 * 4294967295 }
{
    let reverse = last.reverse;
    reverse_word(reverse) + 32 * digit(last.tlv) + 65536 * (last.priority as u64)
}

fn data_word(kept: Data) -> u64
    ensures value { result ≡ data_word kept }
    ensures fit_data { FitData kept }
    ensures upper_bound { result ≤ 16 + 32 + 64 + 65536 * 255 + 16777216 + 33554432 + 4294967296 * 4294967295 }
{
    last_word(kept.last) + 16 * digit(kept.suppressed)
}

fn mark_word(mark: Mark) -> u64
    ensures value { result ≡ mark_word mark }
    ensures upper_bound { result ≤ 8 }
{
    match mark {
        Mark::Clear => 0,
        Mark::Restart => 4,
        Mark::Planned => 8,
    }
}

// The word of a record but for its level.
pub fn state_word(state: State) -> u64
    ensures value { result ≡ state_word state }
    ensures fit_state { FitState state }
    ensures upper_bound { result ≤ 10 + 16 + 32 + 64 + 65536 * 255 + 16777216 + 33554432 + 4294967296 * 4294967295 }
{
    match state {
        State::Init(kept) => 1 + data_word(kept),
        State::Up(kept, mark) => 2 + mark_word(mark) + data_word(kept),
    }
}
