// Why, for C (document 02, W-204): the call of crate isis_gr_why, exported under its name. Callers: C, by the header.
#![tactic(auto)]

ghost use Rattle.basics.specs.Octets.{big};
ghost use Rattle.gateway.specs.Given.{key_given};
ghost use Rattle.isis_gr_why.specs.Words.{call_from, are_known, EncodesWhy};

use gateway::whole::GATEWAY_WORDS;
use isis_gr_why::words::ReasonWords;

// The reason, for a circuit and a record's key.
#[unsafe(no_mangle)]
pub extern "C" fn isis_gr_raw_why(
    before: &[u64; GATEWAY_WORDS],
    after: &mut [u64; GATEWAY_WORDS],
    question: u8,
    call: u8,
    on: u8,
    of: u8,
    clock: u32,
    source: &[u8; 6],
    frame: &[u8],
    reply: &mut [u8],
    circuit: u8,
    level: u8,
    system: &[u8; 6],
    mac: &[u8; 6],
) -> ReasonWords
    ensures { EncodesWhy question (are_known question call) (call_from call on of clock) (big 6 source.now 0) frame.now reply.old circuit (key_given level system.now mac.now) before.now after.old after.new reply.new result }
{
    isis_gr_why::exports::isis_gr_raw_why(
        before, after, question, call, on, of, clock, source, frame, reply, circuit, level, system,
        mac,
    )
}
