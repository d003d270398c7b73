// The call for C. Of the call in question come its number, the circuit `on` and the level `of` that it names, a tick's clock, and what a receive lends; what
// it does not have is not looked at.
ghost use Rattle.basics.specs.Octets.{big};
ghost use Rattle.gateway.specs.Given.{key_given};
ghost use Rattle.isis_gr_why.specs.Words.{call_from, are_known, EncodesWhy};

use crate::call::why;
use crate::words::{ReasonWords, UNKNOWN, are_known, call_from, question_of, reason_words};
use gateway::whole::GATEWAY_WORDS;

// The reason, for a circuit and a record's key.
pub fn isis_gr_raw_why(
    before: &[u64; GATEWAY_WORDS],
    after: &mut [u64; GATEWAY_WORDS],
    question: u8,
    call: u8,
    on: u8,
    of: u8,
    clock: u32,
    source: &[u8; 6],
    frame: &[u8],
    reply: &mut [u8],
    circuit: u8,
    level: u8,
    system: &[u8; 6],
    mac: &[u8; 6],
) -> ReasonWords
    ensures { EncodesWhy question (are_known question call) (call_from call on of clock) (big 6 source.now 0) frame.now reply.old circuit (key_given level system.now mac.now) before.now after.old after.new reply.new result }
{
    if !are_known(question, call) {
        return ReasonWords {
            answer: UNKNOWN,
            pair: 0,
        };
    }
    let what = question_of(question);
    let given = call_from(call, on, of, clock);
    reason_words(why(
        before, after, what, given, source, frame, reply, circuit, level, system, mac,
    ))
}
