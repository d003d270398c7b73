// A question, the call that it is about, and the reason (document 02, W-204).
use adjacency::marks::Line;
use basics::refusal::Refusal;

// Why is this neighbour not advertised, why did it vanish, why did we not order CSNPs?
#[derive(Clone, Copy)]
pub enum Question {
    NotAdvertised,
    Vanished,
    NoCsnps,
}

// A call of document 01 but setup, or clear, which is ours. What a receive lends, its source MAC, frame and reply buffer, stands beside it. The key of
// a look up is not asked for: no reason depends on it.
#[derive(Clone, Copy)]
pub enum Call {
    Receive(u8),
    Tick(u32),
    Release(u8),
    Clear(u8),
    CsnpComplete { circuit: u8, level: u8 },
    DatabaseComplete(u8),
    LookUp(u8),
    LinkMetric(u8),
    NextHello { circuit: u8, level: u8 },
    Waiting,
}

// A router on a LAN that has the CSNP duty before us: of those, the one with the greatest pair (priority, MAC).
#[derive(Clone, Copy)]
pub struct Router {
    pub system: u64,
    pub priority: u8,
    pub mac: u64,
}

#[derive(Clone, Copy)]
pub enum Reason {
    NotSo,
    // not advertised
    Init,
    Suppressed,
    NoRecord,
    // not advertised, and no CSNPs
    Refused(Refusal),
    // vanished
    Expired,
    Released,
    Cleared,
    // no CSNPs: line 2 to 5 fitted, or another router has the duty
    Fits(Line),
    Outranked(Router),
}
