// The outside cases of mending, packed on standard input as the judge's are. Prints the report of each with its last line, and behind it, where there is one, a sum over the bytes of the mended text.
#![tactic(auto)]

use mender::Told;
use std::io::{self, Input, Read, Write};

// The report, the last line and the sum.
fn tell<W: Write>(printed: &mut W, config: &[u8], recording: &[u8]) {
    let mut out = [0u8; mender::ROOM];
    let mut report = [0u8; mender::ROOM];
    let told = mender::mend_files(config, recording, &mut out, &mut report);
    if let Told::Mended(steps, notes) = told {
        mender::print_notes(printed, &report, notes);
        mender::print_told(printed, told);
        let size = mender::size_of(steps, &out);
        let sum = program_io::sum_of(&out[..size]);
        let _ = writeln!(printed, "sum {sum}");
    } else {
        mender::print_told(printed, told);
    }
}

// One case, or an error where there is none.
fn one_case<I: Read, W: Write>(
    input: &mut I,
    out: &mut W,
    config: &mut [u8],
    recording: &mut [u8],
) -> io::Result<()> {
    let config = program_io::next_text(input, config)?;
    let recording = program_io::next_text(input, recording)?;
    tell(out, config, recording);
    Ok(())
}

fn main(rt: HostRuntime) {
    let mut config = [0u8; judging::CONFIG_ROOM];
    let mut recording = [0u8; judging::RECORDING_ROOM];
    let mut input = rt.reader();
    let mut out = io::writer(&rt);
    let _ = (0..program_io::CASES).try_for_each(|_| one_case(
        &mut input,
        &mut out,
        &mut config,
        &mut recording,
    ));
}
