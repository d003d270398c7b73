// What is printed of a frame: `NAME refused N`, for 5 and 6 with ` at` and the position, or `NAME LAYOUT SYSTEM hold TIME ..; restart ..; metric ..`.
use basics::kind::CircuitKind;
use basics::refusal::Refusal;
use hello::read::{Hello, Link, read_hello};
use hello::reverse::ReverseMetric;
use hello::three_way::{Identifiers, ThreeWayState};
use model::numbers::{number_of, position_of};
use restart_tlv::flags::Flags;
use restart_tlv::reader::RestartTlv;
use std::io::Write;
use std::{fmt, io};

// Our own MAC, 02:00:00:00:00:01.
const OWN_MAC: u64 = 0x020000000001;

// A System ID as 1921.6800.1002.
#[derive(Clone, Copy)]
struct SystemId(u64);

impl fmt::Display for SystemId {
    fn fmt<W: fmt::Write>(&self, f: &mut fmt::Formatter<W>) -> fmt::Result {
        let high = self.0 >> 32 & 0xffff;
        let middle = self.0 >> 16 & 0xffff;
        let low = self.0 & 0xffff;
        write!(f, "{high:04x}.{middle:04x}.{low:04x}")
    }
}

// A refusal's number, and the position that it brings, where it brings one.
#[derive(Clone, Copy)]
struct Refused(Refusal);

impl fmt::Display for Refused {
    fn fmt<W: fmt::Write>(&self, f: &mut fmt::Formatter<W>) -> fmt::Result {
        write!(f, "refused {}", number_of(self.0))?;
        match position_of(self.0) {
            0 => Ok(()),
            position => write!(f, " at {position}"),
        }
    }
}

fn state_name(state: ThreeWayState) -> &'static str {
    match state {
        ThreeWayState::Up => "up",
        ThreeWayState::Initializing => "initializing",
        ThreeWayState::Down => "down",
    }
}

// What a three-way TLV has after its state.
#[derive(Clone, Copy)]
struct Circuits(Identifiers);

impl fmt::Display for Circuits {
    fn fmt<W: fmt::Write>(&self, f: &mut fmt::Formatter<W>) -> fmt::Result {
        match self.0 {
            Identifiers::Absent => Ok(()),
            Identifiers::Own(own) => write!(f, " circuit {own:08x}"),
            Identifiers::Neighbor(own, system) => {
                write!(f, " circuit {own:08x} names {}", SystemId(system))
            }
            Identifiers::Whole(own, system, circuit) => {
                write!(
                    f,
                    " circuit {own:08x} names {} circuit {circuit:08x}",
                    SystemId(system)
                )
            }
        }
    }
}

// The names of the flags that are set, with `+` between them; `-` where none is.
#[derive(Clone, Copy)]
struct FlagNames(Flags);

impl fmt::Display for FlagNames {
    fn fmt<W: fmt::Write>(&self, f: &mut fmt::Formatter<W>) -> fmt::Result {
        let mut named = false;
        for (flag, name) in [
            (Flags::RR, "RR"),
            (Flags::RA, "RA"),
            (Flags::SA, "SA"),
            (Flags::PR, "PR"),
            (Flags::PA, "PA"),
        ] {
            if self.0.has(flag) {
                if named {
                    f.write_str("+")?;
                }
                f.write_str(name)?;
                named = true;
            }
        }
        if named { Ok(()) } else { f.write_str("-") }
    }
}

// The Restart TLV: its flags, its Remaining Time where they ask for it, and its System ID where it has one.
#[derive(Clone, Copy)]
struct Restart(RestartTlv);

impl fmt::Display for Restart {
    fn fmt<W: fmt::Write>(&self, f: &mut fmt::Formatter<W>) -> fmt::Result {
        let (flags, time, neighbor) = match self.0 {
            RestartTlv::Absent => return f.write_str("none"),
            RestartTlv::Ignored => return f.write_str("ignored"),
            RestartTlv::Present {
                flags,
                time,
                neighbor,
            } => (flags, time, neighbor),
        };
        write!(f, "{}", FlagNames(flags))?;
        if flags.needs_time() {
            write!(f, " {time}")?;
        }
        match neighbor {
            None => Ok(()),
            Some(system) => write!(f, " {}", SystemId(system)),
        }
    }
}

// The reverse metric: its offset and its flags.
#[derive(Clone, Copy)]
struct Metric(Option<ReverseMetric>);

impl fmt::Display for Metric {
    fn fmt<W: fmt::Write>(&self, f: &mut fmt::Formatter<W>) -> fmt::Result {
        let Some(asked) = self.0 else {
            return f.write_str("none");
        };
        write!(f, "{}", asked.offset)?;
        if asked.whole {
            f.write_str(" W")?;
        }
        if asked.unreachable {
            f.write_str(" U")?;
        }
        Ok(())
    }
}

// The fields of a hello.
#[derive(Clone, Copy)]
struct Fields(Hello);

impl fmt::Display for Fields {
    fn fmt<W: fmt::Write>(&self, f: &mut fmt::Formatter<W>) -> fmt::Result {
        let system = SystemId(self.0.system);
        let hold = self.0.hold;
        match self.0.link {
            Link::Lan {
                level,
                priority,
                listed,
            } => {
                let listed = if listed { "listed" } else { "unlisted" };
                write!(
                    f,
                    "LAN{level} {system} hold {hold} priority {priority} {listed}"
                )?;
            }
            Link::P2p(tlv) => {
                let state = state_name(tlv.state);
                let circuits = Circuits(tlv.ids);
                write!(f, "P2P {system} hold {hold} {state}{circuits}")?;
            }
        }
        let restart = Restart(self.0.restart);
        let metric = Metric(self.0.reverse);
        write!(f, "; restart {restart}; metric {metric}")
    }
}

// One frame, and what became of it.
pub fn show_frame(rt: &impl Print, name: &[u8], kind: CircuitKind, frame: &[u8]) -> io::Result<()> {
    io::writer(rt).write_all(name)?;
    match read_hello(frame, kind, OWN_MAC) {
        Err(why) => println!(rt; " {}", Refused(why)),
        Ok(hello) => println!(rt; " {}", Fields(hello)),
    }
}
