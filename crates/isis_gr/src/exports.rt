// The calls of crate gateway, each with its answer as one word (specs/Words.antt). The lowest octet is the code: 0 where the call was
// done, else the refusal's number, which then is the whole word. A refusal leaves every lent word and octet as it was.
ghost use Rattle.std.specs.Prelude.{◌≡◌, []};
ghost use Rattle.basics.specs.Octets.{big};
ghost use Rattle.model.specs.Step.{At, Over, Receive, Tick, Release, Clear, CsnpComplete, DatabaseComplete, LookUp, LinkMetric, NextHello, Waiting};
ghost use Rattle.gateway.specs.Given.{key_given};
ghost use Rattle.gateway.specs.Whole.{gateway_words};
ghost use Rattle.isis_gr.specs.Encodes.{Encodes, EncodesFrame, EncodesFound};
ghost use Rattle.isis_gr.specs.Settings.{setup_from, EncodesSetup};
ghost use Rattle.isis_gr.specs.Faults.{fault_of};

use crate::answers::{
    ReceivedWords, flags_word, looked_word, metric_word, noticed_word, received_words,
    released_word, set_up_word, ticked_word, waiting_word, write_found,
};
pub use crate::config::SETTINGS_OCTETS;
use crate::config::{LAYOUT, are_settings_known};
use crate::faults::fault_of;
use crate::setup::set_up_from;
use basics::refusal::Refusal;
use gateway::calls::{
    clear, csnp_complete, database_complete, link_metric, look_up, next_hello_flags, receive,
    release, tick, waiting_t1s,
};
use gateway::whole::GATEWAY_WORDS;

// How many words of memory a caller lends.
pub fn isis_gr_raw_gateway_words() -> u32
    ensures { result ≡ gateway_words }
{
    GATEWAY_WORDS as u32
}

// The settings' octets stand as specs/Settings.antt says; another version of the layout, or a number that is not known there, is refused (12).
pub fn isis_gr_raw_set_up(
    version: u32,
    gateway: &mut [u64; GATEWAY_WORDS],
    settings: &[u8; SETTINGS_OCTETS],
) -> u32
    ensures { EncodesSetup result (setup_from version settings.now) gateway.old gateway.new }
{
    if version != LAYOUT {
        return set_up_word(Err(Refusal::BadSetting));
    }
    if are_settings_known(settings) {
        return set_up_word(set_up_from(gateway, settings));
    }
    set_up_word(Err(Refusal::BadSetting))
}

// Which setting a set-up with these would refuse; 0 where none.
pub fn isis_gr_raw_fault(version: u32, settings: &[u8; SETTINGS_OCTETS]) -> u32
    ensures { result ≡ fault_of version settings.now }
{
    fault_of(version, settings)
}

// A hello frame from a source MAC.
pub fn isis_gr_raw_receive(
    gateway: &mut [u64; GATEWAY_WORDS],
    circuit: u8,
    source: &[u8; 6],
    frame: &[u8],
    reply: &mut [u8],
) -> ReceivedWords
    ensures { EncodesFrame result (At circuit (Receive (big 6 source.now 0) frame.now reply.old)) gateway.old gateway.new reply.new }
{
    received_words(receive(gateway, circuit, source, frame, reply))
}

// The clock.
pub fn isis_gr_raw_tick(gateway: &mut [u64; GATEWAY_WORDS], clock: u32) -> u64
    ensures { Encodes result (Over (Tick clock)) gateway.old gateway.new [] }
{
    ticked_word(tick(gateway, clock))
}

// A circuit's Planned records go.
pub fn isis_gr_raw_release(gateway: &mut [u64; GATEWAY_WORDS], circuit: u8) -> u32
    ensures { Encodes result (At circuit Release) gateway.old gateway.new [] }
{
    released_word(release(gateway, circuit))
}

// All records of a circuit go.
pub fn isis_gr_raw_clear(gateway: &mut [u64; GATEWAY_WORDS], circuit: u8) -> u32
    ensures { Encodes result (At circuit Clear) gateway.old gateway.new [] }
{
    released_word(clear(gateway, circuit))
}

// The CSNP set of a level is complete on a circuit.
pub fn isis_gr_raw_csnp_complete(gateway: &mut [u64; GATEWAY_WORDS], circuit: u8, level: u8) -> u64
    ensures { Encodes result (At circuit (CsnpComplete level)) gateway.old gateway.new [] }
{
    noticed_word(csnp_complete(gateway, circuit, level))
}

// The database of a level is complete.
pub fn isis_gr_raw_database_complete(gateway: &mut [u64; GATEWAY_WORDS], level: u8) -> u64
    ensures { Encodes result (Over (DatabaseComplete level)) gateway.old gateway.new [] }
{
    noticed_word(database_complete(gateway, level))
}

// The record's two words are its expiry and its data.
pub fn isis_gr_raw_look_up(
    gateway: &[u64; GATEWAY_WORDS],
    circuit: u8,
    level: u8,
    system: &[u8; 6],
    mac: &[u8; 6],
    found: &mut [u64; 2],
) -> u32
    ensures { EncodesFound result (At circuit (LookUp (key_given level system.now mac.now))) gateway.now found.old found.new }
{
    let a = look_up(gateway, circuit, level, system, mac);
    write_found(found, a);
    looked_word(a)
}

// The metric of a circuit's link.
pub fn isis_gr_raw_link_metric(gateway: &[u64; GATEWAY_WORDS], circuit: u8) -> u64
    ensures { Encodes result (At circuit LinkMetric) gateway.now gateway.now [] }
{
    metric_word(link_metric(gateway, circuit))
}

// The flags of the next hello on a circuit, at a level.
pub fn isis_gr_raw_next_hello_flags(gateway: &[u64; GATEWAY_WORDS], circuit: u8, level: u8) -> u32
    ensures { Encodes result (At circuit (NextHello level)) gateway.now gateway.now [] }
{
    flags_word(next_hello_flags(gateway, circuit, level))
}

// How many T1s run, and the lowest circuit with one.
pub fn isis_gr_raw_waiting_t1s(gateway: &[u64; GATEWAY_WORDS]) -> u32
    ensures { Encodes result (Over Waiting) gateway.now gateway.now [] }
{
    waiting_word(waiting_t1s(gateway))
}
