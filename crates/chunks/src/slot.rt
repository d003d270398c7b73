// The two words and the 1,500 octets of one circuit's unfinished frame. The first word is one more than the length of a frame that is begun, so from 1 to
// 1,501; with any other none is begun. The second is the MAC.
ghost use Rattle.std.specs.Prelude.{◌≡◌, ◌++◌, ◌+◌, ◌≤◌, length, take, drop};
ghost use Rattle.basics.specs.Octets.{big};
ghost use Rattle.chunks.specs.Words.{slot_words, pending_of, Loads, Adds};
ghost use Rattle.chunks.specs.Chunks.{most_octets};

use basics::octets::six;
use basics::refusal::Refusal;

// The words of a circuit's unfinished frame, and the most octets that it has.
pub const SLOT_WORDS: usize = 2;

pub const MOST_OCTETS: usize = 1500;

pub fn load(slot: &[u64]) -> Option<(u64, usize)>
    requires { length slot.now ≡ slot_words }
    ensures { Loads slot.now result }
{
    let w = slot[0];
    if w == 0 {
        return None;
    }
    if MOST_OCTETS as u64 + 1 < w {
        return None;
    }
    let n = (w - 1) as usize;
    let mac = slot[1] % 281474976710656;
    Some((mac, n))
}

// A frame is begun, with no octet yet.
pub fn begin(slot: &mut [u64], source: &[u8])
    requires { (length slot.old ≡ slot_words) × (length source.now ≡ 6) }
    ensures { pending_of slot.new ≡ Some (big 6 source.now 0, 0) }
{
    slot[0] = 1;
    slot[1] = six(source, 0);
}

// No frame is begun.
pub fn clear(slot: &mut [u64])
    requires { length slot.old ≡ slot_words }
    ensures { pending_of slot.new ≡ None }
{
    slot[0] = 0;
}

// Octet by octet: `copy_from_slice` is a call of memmove, by which `isis_gr_raw_add_chunk` goes past its limit of stack.
fn copy_in(frame: &mut [u8], at: usize, octets: &[u8])
    requires { at + length octets.now ≤ length frame.old }
    ensures { frame.new ≡ take at frame.old ++ octets.now ++ drop (at + length octets.now) frame.old }
{
    for i in 0..octets.len() {
        frame[at + i] = octets[i];
    }
}

// Refusals 13 and 14, or the chunk is joined.
pub fn add(slot: &mut [u64], frame: &mut [u8], octets: &[u8]) -> Result<(), Refusal>
    requires { (length slot.old ≡ slot_words) × (length frame.old ≡ most_octets) }
    ensures { Adds octets.now slot.old frame.old result slot.new frame.new }
{
    let Some((_, n)) = load(slot) else {
        return Err(Refusal::NotBegun);
    };
    if MOST_OCTETS - n < octets.len() {
        return Err(Refusal::TooLong);
    }
    copy_in(frame, n, octets);
    slot[0] = (n + octets.len() + 1) as u64;
    Ok(())
}
