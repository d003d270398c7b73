// Frames in chunks (document 02, W-205): begin, chunk and end, on the memory whole and on the octets of unfinished frames. An end reads the frame where its
// octets lie.
ghost use Rattle.std.specs.Prelude.{◌≡◌, [], length};
ghost use Rattle.basics.specs.Octets.{big};
ghost use Rattle.model.specs.Answers.{received_of, handed_of};
ghost use Rattle.model.specs.Step.{Hand, Begin, Chunk, End};
ghost use Rattle.gateway.specs.Whole.{gateway_words, frame_octets, DoesWith, Does};
ghost use Rattle.gateway.specs.Pieces.{Takes};

use crate::whole::receive_at;
use basics::mask::CIRCUITS;
use basics::octets::six_octets;
use basics::refusal::Refusal;
use chunks::slot::{MOST_OCTETS, SLOT_WORDS, add, begin, clear, load};
use control::words::{CONTROL_WORDS, circuit_of};
use model::answers::Orders;
use own_words::words::OWN_WORDS;

// The octets of unfinished frames.
pub const FRAME_OCTETS: usize = MOST_OCTETS * CIRCUITS;

pub(crate) fn begin_at(gateway: &mut [u64], n: u8, source: &[u8]) -> Result<(), Refusal>
    requires { (length gateway.old ≡ gateway_words) × (length source.now ≡ 6) }
    ensures { Does (Hand n (Begin (big 6 source.now 0))) (handed_of result) gateway.old gateway.new [] }
{
    let Some(_) = circuit_of(&gateway[0..CONTROL_WORDS], n) else {
        return Err(Refusal::NoCircuit);
    };
    let a = OWN_WORDS + SLOT_WORDS * (n as usize - 1);
    begin(&mut gateway[a..a + SLOT_WORDS], source);
    Ok(())
}

pub(crate) fn chunk_at(
    gateway: &mut [u64],
    frames: &mut [u8],
    n: u8,
    octets: &[u8],
) -> Result<(), Refusal>
    requires { (length gateway.old ≡ gateway_words) × (length frames.old ≡ frame_octets) }
    ensures { DoesWith (Hand n (Chunk octets.now)) (handed_of result) gateway.old frames.old gateway.new frames.new [] }
{
    let Some(_) = circuit_of(&gateway[0..CONTROL_WORDS], n) else {
        return Err(Refusal::NoCircuit);
    };
    let i = n as usize - 1;
    let a = OWN_WORDS + SLOT_WORDS * i;
    let b = MOST_OCTETS * i;
    add(
        &mut gateway[a..a + SLOT_WORDS],
        &mut frames[b..b + MOST_OCTETS],
        octets,
    )
}

// It is dropped before receive: an end that receive refuses drops it too.
fn take_at(gateway: &mut [u64], n: u8) -> Result<(u64, usize, usize), Refusal>
    requires { length gateway.old ≡ gateway_words }
    ensures { Takes n gateway.old gateway.new result }
{
    let Some(_) = circuit_of(&gateway[0..CONTROL_WORDS], n) else {
        return Err(Refusal::NoCircuit);
    };
    let i = n as usize - 1;
    let a = OWN_WORDS + SLOT_WORDS * i;
    let b = MOST_OCTETS * i;
    let Some((mac, k)) = load(&gateway[a..a + SLOT_WORDS]) else {
        return Err(Refusal::NotBegun);
    };
    clear(&mut gateway[a..a + SLOT_WORDS]);
    Ok((mac, b, b + k))
}

pub(crate) fn end_at(
    gateway: &mut [u64],
    frames: &[u8],
    n: u8,
    reply: &mut [u8],
) -> Result<Orders, Refusal>
    requires { (length gateway.old ≡ gateway_words) × (length frames.now ≡ frame_octets) }
    ensures { DoesWith (Hand n (End reply.old)) (received_of result) gateway.old frames.now gateway.new frames.now reply.new }
{
    let (mac, start, end) = take_at(gateway, n)?;
    let source = six_octets(mac);
    receive_at(gateway, n, &source, &frames[start..end], reply)
}
