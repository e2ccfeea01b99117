// The judge for many recordings: `judges HOW CONFIG RECORDING..` prints a line for each recording, in their order. Where HOW is `named`, each stands
// behind its recording's name. A recording `-` is standard input. One that can't be read has no line: standard error says why.
#![tactic(auto)]

use std::env::Env;
use std::io::{self, Input};
use std::rt::Files;

// Prints the line of the recording that argument i names.
fn print_arg<R: Env + Print>(rt: &R, i: usize, named: bool, line: judging::Line) {
    if named {
        let mut name = [0u8; program_io::NAME_ROOM];
        let n = program_io::arg(rt, i, &mut name);
        program_io::print_named(&mut io::writer(rt), &name[..n], line);
    } else {
        program_io::print(&mut io::writer(rt), line);
    }
}

// The recordings, from the third argument on, one after the other. Lines stand behind names where the first argument starts as `named` does.
fn run<R: Env + Files + Input + Print, E: Print>(
    rt: &R,
    stderr: &E,
    config: &mut [u8],
    recording: &mut [u8],
) -> io::Result<()> {
    let config = program_io::read_arg(rt, stderr, 2, config)?;
    let named = program_io::first_letter(rt) == b'n';
    for i in 3..program_io::arg_count(rt) {
        if let Ok(recording) = program_io::read_arg(rt, stderr, i, recording) {
            print_arg(rt, i, named, judging::line_of(config, recording));
        }
    }
    Ok(())
}

fn main(rt: HostRuntime) {
    let mut config = [0u8; judging::CONFIG_ROOM];
    let mut recording = [0u8; judging::RECORDING_ROOM];
    let _ = run(&rt, &rt.stderr(), &mut config, &mut recording);
}
