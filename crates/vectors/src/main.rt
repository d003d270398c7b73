// Reads every hello frame of data/ and prints one line a frame: its name, and the refusal or the decoded fields. What it must
// print is made by tools/expected_vectors, which shares no code with it.
#![tactic(auto)]

mod lines; // lines.rt: the frames of a file
mod show; // show.rt: what is printed of a frame

use std::io;

fn main(rt: HostRuntime) -> io::Result<()> {
    for name in [
        "header.txt",
        "tlv211.txt",
        "tlv240.txt",
        "tlv6.txt",
        "tlv16.txt",
        "replies.txt",
        "frr.txt",
        "own.txt",
    ] {
        lines::show_file(&rt, name)?;
    }
    Ok(())
}
