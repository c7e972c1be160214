// Writes what the program `parts` prints for each input that stands in standard input: first from the input whole, then from the input fed byte
// by byte; and after how many bytes its answer is settled. Byte 255 ends each input (tools/replay_parts.py makes them, and says what is expected).
#![tactic(auto)]

use parts_text::Reading;
use std::io;
use std::io::Write;

fn write_whole(rt: &impl Print, input: &[u8]) -> io::Result<()> {
    io::writer(rt).write_all(parts_text::print(input).as_bytes())
}

fn fed_by_bytes(input: &[u8]) -> Reading {
    input.chunks(1).fold(parts_text::start(), parts_text::feed)
}

fn write_by_bytes(rt: &impl Print, input: &[u8]) -> io::Result<()> {
    io::writer(rt).write_all(parts_text::report(fed_by_bytes(input)).as_bytes())
}

// How many bytes of an input settle its answer, if they do. It is fed byte by byte, and only while the answer is open, as `parts` reads.
fn settled_after(input: &[u8]) -> Option<usize> {
    let mut state = parts_text::start();
    for (i, byte) in input.chunks(1).enumerate() {
        state = parts_text::feed(state, byte);
        if parts_text::is_settled(state) {
            return Some(i + 1);
        }
    }
    None
}

fn write_settled(rt: &impl Print, input: &[u8]) -> io::Result<()> {
    match settled_after(input) {
        Some(n) => println!(rt; "settled after {n}"),
        None => println!(rt; "open"),
    }
}

fn write_inputs(rt: &impl Print, inputs: &[u8]) -> io::Result<()> {
    for piece in inputs.split_inclusive(|b| *b == 255) {
        if let [input @ .., 255] = piece {
            write_whole(rt, input)?;
            write_by_bytes(rt, input)?;
            write_settled(rt, input)?;
        }
    }
    Ok(())
}

fn main(rt: HostRuntime) -> io::Result<()> {
    let mut buffer = [0u8; 65536];
    let n = replay_text::fill(&mut rt.stdin(), &mut buffer);
    write_inputs(&rt, &buffer[..n])
}
