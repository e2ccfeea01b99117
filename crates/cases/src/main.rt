// The outside cases, packed on standard input: for each a configuration and a recording, each behind its length in four bytes. Prints the line of each.
#![tactic(auto)]

use std::io::{self, Input, Read, Write};

// One case, or an error where there is none.
fn one_case<I: Read, W: Write>(
    input: &mut I,
    out: &mut W,
    config: &mut [u8],
    recording: &mut [u8],
) -> io::Result<()> {
    let config = program_io::next_text(input, config)?;
    let recording = program_io::next_text(input, recording)?;
    program_io::print(out, judging::line_of(config, recording));
    Ok(())
}

fn main(rt: HostRuntime) {
    let mut config = [0u8; judging::CONFIG_ROOM];
    let mut recording = [0u8; judging::RECORDING_ROOM];
    let mut input = rt.reader();
    let mut out = io::writer(&rt);
    let _ = (0..program_io::CASES).try_for_each(|_| one_case(
        &mut input,
        &mut out,
        &mut config,
        &mut recording,
    ));
}
