// The lists of a batch: refusals 15 and 16, or how many frames are taken (document 02, W-207). Of every list but that of the frames' lengths its own length
// alone is asked.
ghost use Rattle.std.specs.Prelude.{◌≡◌, ◌≤◌, length};
ghost use Rattle.batches.specs.Batch.{most_frames, sum, uneven, checked_by};

// The most frames of a batch, and what lies beside each: its MAC, the two words of its answer, its reply room.
pub const MOST_FRAMES: usize = 64;

pub const MAC_OCTETS: usize = 6;

pub const PLACE_WORDS: usize = 2;

pub const REPLY_OCTETS: usize = 11;

// Refusals 15 and 16, in the order checked.
#[derive(Clone, Copy)]
pub enum Misfit {
    UnevenLists,
    WrongSum,
}

// The lengths added up: of 64 lengths at most, so that the sum does not wrap.
fn total(lengths: &[u16]) -> usize
    requires { length lengths.now ≤ most_frames }
    ensures { result ≡ sum lengths.now }
{
    lengths.iter().map(|n| usize::from(*n)).sum()
}

// 15, by the lengths of the lists: n frames, so many circuits, octets of MACs, words of places and octets of reply room.
fn is_uneven(n: usize, circuits: usize, sources: usize, places: usize, room: usize) -> bool
    ensures { result ≡ uneven n circuits sources places room }
{
    MOST_FRAMES < n
        || circuits != n
        || sources != MAC_OCTETS * n
        || places != PLACE_WORDS * n
        || room < REPLY_OCTETS * n
}

// 15, then 16, or how many frames are taken.
pub fn check(
    limit: usize,
    octets: usize,
    lengths: &[u16],
    circuits: usize,
    sources: usize,
    places: usize,
    room: usize,
) -> Result<u8, Misfit>
    ensures { result ≡ checked_by limit octets lengths.now circuits sources places room }
{
    let n = lengths.len();
    if is_uneven(n, circuits, sources, places, room) {
        return Err(Misfit::UnevenLists);
    }
    if total(lengths) != octets {
        return Err(Misfit::WrongSum);
    }
    let k = limit.min(n);
    Ok(k as u8)
}
