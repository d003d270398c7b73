// The frames of a file: a line is `NAME KIND HEX`, and one that begins with `#` is a remark.
ghost use Rattle.std.specs.Prelude.{◌≤◌, ◌<◌, length};

use crate::show::show_frame;
use basics::kind::CircuitKind;
use std::io::Read;
use std::rt::Files;
use std::{fs, io};

// The number of a hexadecimal digit, 0 to 9 or a to f; of another octet 0.
fn digit(octet: u8) -> u8
    ensures { result < 16 }
{
    match octet {
        b'0'..=b'9' => octet - b'0',
        b'a'..=b'f' => octet - b'a' + 10,
        _ => 0,
    }
}

// The octets that pairs of digits stand for, as many as there is room for, and how many they are.
fn octets_of(digits: &[u8], out: &mut [u8]) -> usize
    ensures { result ≤ length out.new }
{
    for (octet, pair) in out.iter_mut().zip(digits.chunks_exact(2)) {
        *octet = digit(pair[0]) * 16 + digit(pair[1]);
    }
    out.len().min(digits.len() / 2)
}

// The kind that a line names, by its first letter.
fn kind_of(name: &[u8]) -> CircuitKind {
    if name.starts_with(b"P") {
        CircuitKind::P2p
    } else {
        CircuitKind::Lan
    }
}

fn show_line(rt: &impl Print, line: &[u8]) -> io::Result<()> {
    let mut words = line.splitn(3, |octet| *octet == b' ');
    let (Some(name), Some(kind), Some(digits)) = (words.next(), words.next(), words.next()) else {
        return Ok(());
    };
    let mut frame = [0u8; 2048];
    let n = octets_of(digits, &mut frame);
    show_frame(rt, name, kind_of(kind), &frame[..n])
}

fn show_lines(rt: &impl Print, text: &[u8]) -> io::Result<()> {
    for line in text.split(|octet| *octet == b'\n') {
        if !line.starts_with(b"#") {
            show_line(rt, line)?;
        }
    }
    Ok(())
}

// Reads until the buffer is full, the file ends or a read fails; how many octets it read. std's `read_to_end` wants a heap, and its
// `read_exact` does not tell how many octets of a shorter file it read.
fn read_full(file: &mut impl Read, buffer: &mut [u8]) -> usize
    ensures { result ≤ length buffer.new }
{
    let mut n = 0;
    while n < buffer.len() {
        match file.read(&mut buffer[n..]) {
            Ok(0) | Err(_) => break,
            Ok(more) => n += more,
        }
    }
    n
}

// Each frame of a file, and what became of it; of a file that cannot be opened, why, on standard error.
pub fn show_file(rt: &(impl Files + Print + Eprint), name: &str) -> io::Result<()> {
    let mut file = match fs::open(rt, name) {
        Ok(file) => file,
        Err(error) => return eprintln!(rt; "{name}: {error}"),
    };
    let mut text = [0u8; 131072];
    let n = read_full(&mut file, &mut text);
    show_lines(rt, &text[..n])
}
