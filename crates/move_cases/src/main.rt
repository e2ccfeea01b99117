// The outside cases of the moves, packed on standard input: for each a recording. Prints the line of the move to the short form and of the move to the old one, and behind each that moved a sum over the bytes of the text.
#![tactic(auto)]

use moving::Moved;
use std::io::{self, Input, Read, Write};

// Room for the old form of the longest text.
const ROOM: usize = 262144;

// The line of one move, and the sum over the text.
fn tell<W: Write>(printed: &mut W, m: Moved, out: &[u8]) {
    match m {
        Moved::To(size) => {
            let _ = write!(printed, "moved {size}");
            if let Some(text) = out.get(..size) {
                let sum = program_io::sum_of(text);
                let _ = write!(printed, " {sum}");
            }
        }
        Moved::Refused(place, k) => {
            let _ = write!(printed, "refused {place} {k}");
        }
    }
    let _ = printed.write_all(b"\n");
}

// One case, or an error where there is none.
fn one_case<I: Read, W: Write>(
    input: &mut I,
    printed: &mut W,
    recording: &mut [u8],
    out: &mut [u8],
) -> io::Result<()> {
    let recording = program_io::next_text(input, recording)?;
    let a = moving::shorten(recording, out);
    tell(printed, a, out);
    let b = moving::lengthen(recording, out);
    tell(printed, b, out);
    Ok(())
}

fn main(rt: HostRuntime) {
    let mut recording = [0u8; judging::RECORDING_ROOM];
    let mut out = [0u8; ROOM];
    let mut input = rt.reader();
    let mut printed = io::writer(&rt);
    let _ = (0..program_io::CASES).try_for_each(|_| one_case(
        &mut input,
        &mut printed,
        &mut recording,
        &mut out,
    ));
}
