// Who sends the CSNPs after line 1 (document 01, "Marks and holding time").
ghost use Rattle.std.specs.Prelude.{◌≡◌};
ghost use Rattle.adjacency.specs.Duty.{greater, marks_restart, rival, outranks};

use crate::record::{Mark, Record, State};
use basics::levels::Levels;

// Our own pair (priority, MAC), at a level.
#[derive(Clone, Copy)]
pub struct Rank {
    pub level: u8,
    pub priority: u8,
    pub mac: u64,
}

fn is_greater(own: Rank, priority: u8, mac: u64) -> bool
    ensures { result ≡ greater own priority mac }
{
    if own.priority < priority {
        return true;
    }
    if own.priority != priority {
        return false;
    }
    own.mac < mac
}

fn marks_restart(mark: Mark) -> bool
    ensures { result ≡ marks_restart mark }
{
    mark == Mark::Restart
}

fn is_rival(own: Rank, mac: u64, state: State) -> bool
    ensures { result ≡ rival own mac state }
{
    let State::Up(data, mark) = state else {
        return false;
    };
    let last = data.last;
    if last.tlv {
        if marks_restart(mark) {
            return false;
        }
        return is_greater(own, last.priority, mac);
    }
    false
}

// Whether a record's router has the duty before us.
pub fn is_outranked_by(own: Rank, entry: Record) -> bool
    ensures { result ≡ outranks own entry }
{
    let key = entry.key;
    if key.level == own.level {
        return is_rival(own, key.mac, entry.state);
    }
    false
}
