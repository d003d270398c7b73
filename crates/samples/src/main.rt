// Document 01, "Sample runs", C1 to C13, through the public calls: one line a row. What it must print is written from the document.
#![tactic(auto)]

mod frames; // frames.rt: the frames that go in
mod show; // show.rt: what is printed
mod restarts; // restarts.rt: C1 to C7
mod rules; // rules.rt: C8 and C13
mod timing; // timing.rt: C9
mod metrics; // metrics.rt: C10 and C11
mod rooms; // rooms.rt: C12

use std::io;

fn main(rt: HostRuntime) -> io::Result<()> {
    restarts::c1_to_c6(&rt)?;
    restarts::c7(&rt)?;
    rules::c8(&rt)?;
    timing::c9(&rt)?;
    metrics::c10(&rt)?;
    metrics::c11(&rt)?;
    rooms::c12(&rt)?;
    rules::c13(&rt)
}
