// The outside cases of the board, packed on standard input: for each a configuration behind its length in four bytes, the number of showings, and for each showing
// the operation, in four bytes too, and a recording behind its length. Prints what each showing tells, then the history; a configuration that can't be read has its line alone.
#![tactic(auto)]

use posting::{Board, Posted, Told};
use std::io::{self, Error, ErrorKind, Input, Read, Write};

// The operation that stands next.
fn next_operation<I: Read>(input: &mut I) -> u32 {
    let mut head = [0u8; 4];
    let _ = program_io::read_whole(input, &mut head);
    wire::number(head[0], head[1], head[2], head[3])
}

// The showings of a case, one after the other; the last of them. Where the input ends before a recording, one of no bytes is shown.
fn every_showing<I: Read, W: Write>(
    input: &mut I,
    out: &mut W,
    config: &[u8],
    recording: &mut [u8],
    count: usize,
) -> Posted {
    let mut p = Posted {
        told: Told::Refused(0),
        board: Board::none(),
    };
    for _ in 0..count {
        let operation = next_operation(input);
        let shown = program_io::next_text(input, recording).unwrap_or(b"");
        p = showing::show_files(config, operation, shown, p.board);
        board_lines::print_told(out, p.told);
    }
    p
}

// One case, or an error where there is none, or its history can't be printed.
fn one_case<I: Read, W: Write>(
    input: &mut I,
    out: &mut W,
    config: &mut [u8],
    recording: &mut [u8],
) -> io::Result<()> {
    let config = program_io::next_text(input, config)?;
    let count = program_io::next_number(input)?;
    let p = every_showing(input, out, config, recording, count);
    if matches!(p.told, Told::Configuration(_, _) | Told::TooLong)
        || board_lines::print_history(out, p.board)
    {
        Ok(())
    } else {
        Err(Error::from(ErrorKind::WriteZero))
    }
}

fn main(rt: HostRuntime) {
    let mut config = [0u8; judging::CONFIG_ROOM];
    let mut recording = [0u8; judging::RECORDING_ROOM];
    let mut input = rt.reader();
    let mut out = io::writer(&rt);
    let _ = (0..program_io::CASES).try_for_each(|_| one_case(
        &mut input,
        &mut out,
        &mut config,
        &mut recording,
    ));
}
