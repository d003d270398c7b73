// The call in question, made on a memory by the function of crate gateway that makes it. Those that only ask change nothing, and a refusal counts as no change.
ghost use Rattle.basics.specs.Octets.{big};
ghost use Rattle.isis_gr_why.specs.Told.{MadeOn};

use basics::refusal::Refusal;
use gateway::calls::{clear, csnp_complete, database_complete, receive, release, tick};
use gateway::whole::GATEWAY_WORDS;
use model::answers::Orders;
use reasons::why::{Call, Reason};

// A receive on a circuit, with its answer; or another call, and why a record that stood may be gone after it.
#[derive(Clone, Copy)]
pub enum Made {
    Frame(u8, Result<Orders, Refusal>),
    Other(Reason),
}

pub(crate) fn make(
    after: &mut [u64; GATEWAY_WORDS],
    call: Call,
    source: &[u8; 6],
    frame: &[u8],
    reply: &mut [u8],
) -> Made
    ensures { MadeOn call (big 6 source.now 0) frame.now reply.old after.old after.new reply.new result }
{
    match call {
        Call::Receive(n) => Made::Frame(n, receive(after, n, source, frame, reply)),
        Call::Tick(clock) => {
            let _ = tick(after, clock);
            Made::Other(Reason::Expired)
        }
        Call::Release(n) => {
            let _ = release(after, n);
            Made::Other(Reason::Released)
        }
        Call::Clear(n) => {
            let _ = clear(after, n);
            Made::Other(Reason::Cleared)
        }
        Call::CsnpComplete { circuit, level } => {
            let _ = csnp_complete(after, circuit, level);
            Made::Other(Reason::NotSo)
        }
        Call::DatabaseComplete(level) => {
            let _ = database_complete(after, level);
            Made::Other(Reason::NotSo)
        }
        Call::LookUp(_) => Made::Other(Reason::NotSo),
        Call::LinkMetric(_) => Made::Other(Reason::NotSo),
        Call::NextHello {
            circuit: _,
            level: _,
        } => Made::Other(Reason::NotSo),
        Call::Waiting => Made::Other(Reason::NotSo),
    }
}
