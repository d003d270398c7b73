// Why is a neighbour not advertised, why did it vanish, why were no CSNPs ordered (document 02, W-204)? Of a gateway before a call, which is not changed,
// the call, a circuit and a record's key. The caller lends a second memory: the call is made there.
ghost use Rattle.std.specs.Prelude.{◌≡◌, List, ℕ, length};
ghost use Rattle.basics.specs.Octets.{big};
ghost use Rattle.model.specs.Step.{step};
ghost use Rattle.model.specs.Step.{Call as CallMade};
ghost use Rattle.own_words.specs.Words.{gateway_of};
ghost use Rattle.gateway.specs.Given.{key_given};
ghost use Rattle.gateway.specs.Whole.{gateway_words};
ghost use Rattle.reasons.specs.Why.{reason_of, why_of};
ghost use Rattle.isis_gr_why.specs.Explains.{Explains};
ghost use Rattle.isis_gr_why.specs.Told.{Tells};

use crate::copy::copy_in;
use crate::frames::why_silent;
use crate::made::{Made, make};
use crate::standing::standing_in;
use crate::tell::{why_gone, why_hidden};
use adjacency::record::Key;
use basics::octets::six;
use gateway::whole::GATEWAY_WORDS;
use reasons::why::{Call, Question, Reason};

// The reason, of both memories and of what was told.
fn tell(
    before: &[u64],
    after: &[u64],
    question: Question,
    made: Made,
    mac: u64,
    circuit: u8,
    key: Key,
) -> Reason
    requires { (length before.now ≡ gateway_words) × (length after.now ≡ gateway_words) }
    ensures { (frame b : List ℕ) (c : CallMade) → Tells made mac frame b c (step (gateway_of before.now) c).answer → gateway_of after.now ≡ (step (gateway_of before.now) c).next → reason_of result ≡ why_of question (gateway_of before.now) c circuit key }
{
    match question {
        Question::NotAdvertised => {
            let found = standing_in(after, circuit, key);
            why_hidden(found, made, circuit)
        }
        Question::Vanished => {
            let stood = standing_in(before, circuit, key);
            let left = standing_in(after, circuit, key);
            why_gone(stood, left, made)
        }
        Question::NoCsnps => why_silent(before, after, made, mac),
    }
}

// The reason. At exit the second memory holds the gateway as the call leaves it, and the reply buffer what a receive wrote. Nothing is refused.
pub fn why(
    before: &[u64; GATEWAY_WORDS],
    after: &mut [u64; GATEWAY_WORDS],
    question: Question,
    call: Call,
    source: &[u8; 6],
    frame: &[u8],
    reply: &mut [u8],
    circuit: u8,
    level: u8,
    system: &[u8; 6],
    mac: &[u8; 6],
) -> Reason
    ensures { Explains question call (big 6 source.now 0) frame.now reply.old circuit (key_given level system.now mac.now) before.now after.new reply.new result }
{
    copy_in(before, after);
    let made = make(after, call, source, frame, reply);
    let key = Key {
        level,
        system: six(system, 0),
        mac: six(mac, 0),
    };
    tell(before, after, question, made, six(source, 0), circuit, key)
}
