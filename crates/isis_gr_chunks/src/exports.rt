// Begin, chunk and end of crate gateway, each with its answer in numbers as crate isis_gr has them. A refusal leaves every lent word and octet as it was, but
// that an end which receive refuses drops its frame.
ghost use Rattle.std.specs.Prelude.{◌≡◌, []};
ghost use Rattle.basics.specs.Octets.{big};
ghost use Rattle.model.specs.Answers.{handed_of};
ghost use Rattle.model.specs.Step.{Hand, Begin, Chunk, End};
ghost use Rattle.gateway.specs.Whole.{frame_octets};
ghost use Rattle.isis_gr.specs.Encodes.{EncodesWith, EncodesFrameWith, Encodes};
ghost use Rattle.isis_gr.specs.Words.{answer_no};

use basics::refusal::Refusal;
use gateway::calls::{add_chunk, begin_frame, end_frame};
use gateway::pieces::FRAME_OCTETS;
use gateway::whole::GATEWAY_WORDS;
use isis_gr::answers::{ReceivedWords, received_words};
use model::numbers::number_of;

// The answer of a begin or a chunk.
fn handed_word(a: Result<(), Refusal>) -> u32
    ensures { result ≡ answer_no (handed_of a) }
{
    match a {
        Err(x) => number_of(x) as u32,
        Ok(()) => 0,
    }
}

// How many octets of unfinished frames a caller lends.
pub fn isis_gr_raw_frame_octets() -> u32
    ensures { result ≡ frame_octets }
{
    FRAME_OCTETS as u32
}

// A frame is begun on a circuit, from a source MAC.
pub fn isis_gr_raw_begin_frame(
    gateway: &mut [u64; GATEWAY_WORDS],
    circuit: u8,
    source: &[u8; 6],
) -> u32
    ensures { Encodes result (Hand circuit (Begin (big 6 source.now 0))) gateway.old gateway.new [] }
{
    handed_word(begin_frame(gateway, circuit, source))
}

// A chunk of it.
pub fn isis_gr_raw_add_chunk(
    gateway: &mut [u64; GATEWAY_WORDS],
    frames: &mut [u8; FRAME_OCTETS],
    circuit: u8,
    octets: &[u8],
) -> u32
    ensures { EncodesWith result (Hand circuit (Chunk octets.now)) gateway.old frames.old gateway.new frames.new [] }
{
    handed_word(add_chunk(gateway, frames, circuit, octets))
}

// Its end.
pub fn isis_gr_raw_end_frame(
    gateway: &mut [u64; GATEWAY_WORDS],
    frames: &[u8; FRAME_OCTETS],
    circuit: u8,
    reply: &mut [u8],
) -> ReceivedWords
    ensures { EncodesFrameWith result (Hand circuit (End reply.old)) gateway.old frames.now gateway.new frames.now reply.new }
{
    received_words(end_frame(gateway, frames, circuit, reply))
}
