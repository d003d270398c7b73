// The reason why a neighbour is not advertised, and why it vanished (document 02, W-204).
ghost use Rattle.std.specs.Prelude.{◌≡◌, List, ℕ};
ghost use Rattle.model.specs.Answers.{Answer};
ghost use Rattle.model.specs.Step.{Call};
ghost use Rattle.reasons.specs.Why.{unknown, not_advertised, gone_by, vanished, reason_of};
ghost use Rattle.isis_gr_why.specs.Told.{Tells};

use crate::made::Made;
use adjacency::record::State;
use reasons::why::Reason;

// No record stands after the call: a receive that was refused on the circuit, or nothing more.
fn why_unknown(made: Made, circuit: u8) -> Reason
    ensures { (mac : ℕ) (frame b : List ℕ) (c : Call) (x : Answer) → Tells made mac frame b c x → reason_of result ≡ unknown circuit c x }
{
    let Made::Frame(n, answer) = made else {
        return Reason::NoRecord;
    };
    let Err(x) = answer else {
        return Reason::NoRecord;
    };
    if n == circuit {
        return Reason::Refused(x);
    }
    Reason::NoRecord
}

// Of the record after the call.
pub(crate) fn why_hidden(left: Option<State>, made: Made, circuit: u8) -> Reason
    ensures { (mac : ℕ) (frame b : List ℕ) (c : Call) (x : Answer) → Tells made mac frame b c x → reason_of result ≡ not_advertised circuit c x left }
{
    let Some(state) = left else {
        return why_unknown(made, circuit);
    };
    let State::Up(data, _) = state else {
        return Reason::Init;
    };
    if data.suppressed {
        return Reason::Suppressed;
    }
    Reason::NotSo
}

fn why_went(made: Made) -> Reason
    ensures { (mac : ℕ) (frame b : List ℕ) (c : Call) (x : Answer) → Tells made mac frame b c x → reason_of result ≡ gone_by c }
{
    let Made::Other(why) = made else {
        return Reason::NotSo;
    };
    why
}

// Of the record before the call and after it.
pub(crate) fn why_gone(stood: Option<State>, left: Option<State>, made: Made) -> Reason
    ensures { (mac : ℕ) (frame b : List ℕ) (c : Call) (x : Answer) → Tells made mac frame b c x → reason_of result ≡ vanished c stood left }
{
    let Some(_) = stood else {
        return Reason::NotSo;
    };
    let None = left else {
        return Reason::NotSo;
    };
    why_went(made)
}
