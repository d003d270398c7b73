// Frames in chunks for C (document 02, W-205): the calls of crate isis_gr_chunks, exported under their names. Callers: C, by the header.
#![tactic(auto)]

ghost use Rattle.std.specs.Prelude.{◌≡◌, []};
ghost use Rattle.basics.specs.Octets.{big};
ghost use Rattle.model.specs.Step.{Hand, Begin, Chunk, End};
ghost use Rattle.gateway.specs.Whole.{frame_octets};
ghost use Rattle.isis_gr.specs.Encodes.{EncodesWith, EncodesFrameWith, Encodes};

use gateway::pieces::FRAME_OCTETS;
use gateway::whole::GATEWAY_WORDS;
use isis_gr::answers::ReceivedWords;

// How many octets of unfinished frames a caller lends.
#[unsafe(no_mangle)]
pub extern "C" fn isis_gr_raw_frame_octets() -> u32
    ensures { result ≡ frame_octets }
{
    isis_gr_chunks::exports::isis_gr_raw_frame_octets()
}

// A frame is begun on a circuit, from a source MAC.
#[unsafe(no_mangle)]
pub extern "C" fn isis_gr_raw_begin_frame(
    gateway: &mut [u64; GATEWAY_WORDS],
    circuit: u8,
    source: &[u8; 6],
) -> u32
    ensures { Encodes result (Hand circuit (Begin (big 6 source.now 0))) gateway.old gateway.new [] }
{
    isis_gr_chunks::exports::isis_gr_raw_begin_frame(gateway, circuit, source)
}

// A chunk of it.
#[unsafe(no_mangle)]
pub extern "C" fn isis_gr_raw_add_chunk(
    gateway: &mut [u64; GATEWAY_WORDS],
    frames: &mut [u8; FRAME_OCTETS],
    circuit: u8,
    octets: &[u8],
) -> u32
    ensures { EncodesWith result (Hand circuit (Chunk octets.now)) gateway.old frames.old gateway.new frames.new [] }
{
    isis_gr_chunks::exports::isis_gr_raw_add_chunk(gateway, frames, circuit, octets)
}

// Its end.
#[unsafe(no_mangle)]
pub extern "C" fn isis_gr_raw_end_frame(
    gateway: &mut [u64; GATEWAY_WORDS],
    frames: &[u8; FRAME_OCTETS],
    circuit: u8,
    reply: &mut [u8],
) -> ReceivedWords
    ensures { EncodesFrameWith result (Hand circuit (End reply.old)) gateway.old frames.now gateway.new frames.now reply.new }
{
    isis_gr_chunks::exports::isis_gr_raw_end_frame(gateway, frames, circuit, reply)
}
