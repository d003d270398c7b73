// The calls of crate isis_gr, exported for C under their names (document 01, "What the gateway holds"): each calls the library's and states its
// clauses again. Callers: C, by the header.
#![tactic(auto)]

ghost use Rattle.std.specs.Prelude.{◌≡◌, []};
ghost use Rattle.basics.specs.Octets.{big};
ghost use Rattle.model.specs.Step.{At, Over, Receive, Tick, Release, Clear, CsnpComplete, DatabaseComplete, LookUp, LinkMetric, NextHello, Waiting};
ghost use Rattle.gateway.specs.Given.{key_given};
ghost use Rattle.gateway.specs.Whole.{gateway_words};
ghost use Rattle.isis_gr.specs.Encodes.{Encodes, EncodesFrame, EncodesFound};
ghost use Rattle.isis_gr.specs.Settings.{setup_from, EncodesSetup};
ghost use Rattle.isis_gr.specs.Faults.{fault_of};

use gateway::whole::GATEWAY_WORDS;
use isis_gr::answers::ReceivedWords;
use isis_gr::exports::SETTINGS_OCTETS;

// How many words of memory a caller lends.
#[unsafe(no_mangle)]
pub extern "C" fn isis_gr_raw_gateway_words() -> u32
    ensures { result ≡ gateway_words }
{
    isis_gr::exports::isis_gr_raw_gateway_words()
}

// The settings' octets stand as specs/Settings.antt says; another version of the layout, or a number that is not known there, is refused (12).
#[unsafe(no_mangle)]
pub extern "C" fn isis_gr_raw_set_up(
    version: u32,
    gateway: &mut [u64; GATEWAY_WORDS],
    settings: &[u8; SETTINGS_OCTETS],
) -> u32
    ensures { EncodesSetup result (setup_from version settings.now) gateway.old gateway.new }
{
    isis_gr::exports::isis_gr_raw_set_up(version, gateway, settings)
}

// Which setting a set-up with these would refuse; 0 where none.
#[unsafe(no_mangle)]
pub extern "C" fn isis_gr_raw_fault(version: u32, settings: &[u8; SETTINGS_OCTETS]) -> u32
    ensures { result ≡ fault_of version settings.now }
{
    isis_gr::exports::isis_gr_raw_fault(version, settings)
}

// A hello frame from a source MAC.
#[unsafe(no_mangle)]
pub extern "C" fn isis_gr_raw_receive(
    gateway: &mut [u64; GATEWAY_WORDS],
    circuit: u8,
    source: &[u8; 6],
    frame: &[u8],
    reply: &mut [u8],
) -> ReceivedWords
    ensures { EncodesFrame result (At circuit (Receive (big 6 source.now 0) frame.now reply.old)) gateway.old gateway.new reply.new }
{
    isis_gr::exports::isis_gr_raw_receive(gateway, circuit, source, frame, reply)
}

// The clock.
#[unsafe(no_mangle)]
pub extern "C" fn isis_gr_raw_tick(gateway: &mut [u64; GATEWAY_WORDS], clock: u32) -> u64
    ensures { Encodes result (Over (Tick clock)) gateway.old gateway.new [] }
{
    isis_gr::exports::isis_gr_raw_tick(gateway, clock)
}

// A circuit's Planned records go.
#[unsafe(no_mangle)]
pub extern "C" fn isis_gr_raw_release(gateway: &mut [u64; GATEWAY_WORDS], circuit: u8) -> u32
    ensures { Encodes result (At circuit Release) gateway.old gateway.new [] }
{
    isis_gr::exports::isis_gr_raw_release(gateway, circuit)
}

// All records of a circuit go.
#[unsafe(no_mangle)]
pub extern "C" fn isis_gr_raw_clear(gateway: &mut [u64; GATEWAY_WORDS], circuit: u8) -> u32
    ensures { Encodes result (At circuit Clear) gateway.old gateway.new [] }
{
    isis_gr::exports::isis_gr_raw_clear(gateway, circuit)
}

// The CSNP set of a level is complete on a circuit.
#[unsafe(no_mangle)]
pub extern "C" fn isis_gr_raw_csnp_complete(
    gateway: &mut [u64; GATEWAY_WORDS],
    circuit: u8,
    level: u8,
) -> u64
    ensures { Encodes result (At circuit (CsnpComplete level)) gateway.old gateway.new [] }
{
    isis_gr::exports::isis_gr_raw_csnp_complete(gateway, circuit, level)
}

// The database of a level is complete.
#[unsafe(no_mangle)]
pub extern "C" fn isis_gr_raw_database_complete(
    gateway: &mut [u64; GATEWAY_WORDS],
    level: u8,
) -> u64
    ensures { Encodes result (Over (DatabaseComplete level)) gateway.old gateway.new [] }
{
    isis_gr::exports::isis_gr_raw_database_complete(gateway, level)
}

// The record's two words are its expiry and its data.
#[unsafe(no_mangle)]
pub extern "C" fn isis_gr_raw_look_up(
    gateway: &[u64; GATEWAY_WORDS],
    circuit: u8,
    level: u8,
    system: &[u8; 6],
    mac: &[u8; 6],
    found: &mut [u64; 2],
) -> u32
    ensures { EncodesFound result (At circuit (LookUp (key_given level system.now mac.now))) gateway.now found.old found.new }
{
    isis_gr::exports::isis_gr_raw_look_up(gateway, circuit, level, system, mac, found)
}

// The metric of a circuit's link.
#[unsafe(no_mangle)]
pub extern "C" fn isis_gr_raw_link_metric(gateway: &[u64; GATEWAY_WORDS], circuit: u8) -> u64
    ensures { Encodes result (At circuit LinkMetric) gateway.now gateway.now [] }
{
    isis_gr::exports::isis_gr_raw_link_metric(gateway, circuit)
}

// The flags of the next hello on a circuit, at a level.
#[unsafe(no_mangle)]
pub extern "C" fn isis_gr_raw_next_hello_flags(
    gateway: &[u64; GATEWAY_WORDS],
    circuit: u8,
    level: u8,
) -> u32
    ensures { Encodes result (At circuit (NextHello level)) gateway.now gateway.now [] }
{
    isis_gr::exports::isis_gr_raw_next_hello_flags(gateway, circuit, level)
}

// How many T1s run, and the lowest circuit with one.
#[unsafe(no_mangle)]
pub extern "C" fn isis_gr_raw_waiting_t1s(gateway: &[u64; GATEWAY_WORDS]) -> u32
    ensures { Encodes result (Over Waiting) gateway.now gateway.now [] }
{
    isis_gr::exports::isis_gr_raw_waiting_t1s(gateway)
}
