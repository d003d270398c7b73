// An accepted hello on one circuit: refusals 8 and 9 in this order, then the record that is kept and the reply that is written.
ghost use Rattle.std.specs.Prelude.{◌≡◌, ◌≤◌, length};
ghost use Rattle.slots.specs.Slots.{table_of, room_words};
ghost use Rattle.room.specs.Place.{Spots, Takes};
ghost use Rattle.room.specs.Accept.{kept, written};
ghost use Rattle.room.specs.AcceptWords.{Accepts, AcceptsAt};

use crate::place::{place_of, store_state};
use adjacency::marks::Reply;
use adjacency::react::{Reaction, react_to};
use adjacency::record::{Key, Phase, State, phase_of};
use adjacency::step::{Here, wrong_of};
use basics::refusal::Refusal;
use hello::read::Hello;
use restart_tlv::writer::write_restart;
use slots::slot::PLACES;

// The reply, if one is due.
fn answer(reply: &mut [u8], what: Option<Reply>, system: u64)
    requires { 11 ≤ length reply.old }
    ensures { reply.new ≡ written system what reply.old }
{
    let Some((ack, time)) = what else {
        return;
    };
    write_restart(reply, ack, time, system);
}

// The record of a key at its place; where the step gives none, none stood, and none is kept.
fn keep(words: &mut [u64], i: usize, key: Key, after: Option<State>)
    requires { (length words.old ≡ room_words) × Takes key (table_of words.old) i }
    ensures { table_of words.new ≡ kept key after (table_of words.old) }
{
    let Some(state) = after else {
        return;
    };
    store_state(words, i, key, state);
}

// Refusal 9, or the record and the reply.
fn accept_at(
    words: &mut [u64],
    at: usize,
    key: Key,
    what: Reaction,
    system: u64,
    reply: &mut [u8],
) -> Reaction
    requires { (length words.old ≡ room_words) × Spots key (table_of words.old) at × (11 ≤ length reply.old) }
    ensures { AcceptsAt key what system words.old reply.old words.new reply.new result }
{
    let Ok((after, acknowledgement, line)) = what else {
        return what;
    };
    if PLACES <= at {
        return Err(Refusal::NoRoom);
    }
    keep(words, at, key, after);
    answer(reply, acknowledgement, system);
    Ok((after, acknowledgement, line))
}

// What is decided of a frame, and the state of its record before it.
#[derive(Clone, Copy)]
pub struct Decision {
    pub reaction: Reaction,
    pub before: Phase,
}

// A frame with a key, over its circuit's words.
pub fn accept_in(
    words: &mut [u64],
    here: Here,
    key: Key,
    frame: Hello,
    reply: &mut [u8],
) -> Decision
    requires { (length words.old ≡ room_words) × (11 ≤ length reply.old) }
    ensures { Accepts here key frame words.old reply.old words.new reply.new result }
{
    let system = frame.system;
    let link = frame.link;
    let wrong = wrong_of(here, link);
    let place = place_of(words, key);
    let stood = place.before;
    let at = place.at;
    let before = phase_of(stood);
    let what = react_to(here, wrong, frame, stood);
    let reaction = accept_at(words, at, key, what, system, reply);
    Decision { reaction, before }
}
