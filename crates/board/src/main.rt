// The plan board: `board OPERATION CONFIG RECORDING..` prints the line of each recording, in their order, then the history. A recording `-` is standard
// input. One that can't be read is shown as one without a byte, UNJUDGED, and standard error says why.
#![tactic(auto)]

ghost use Rattle.std.specs.Prelude.{◌≤◌};

use posting::{Board, Posted, Told};
use std::env::Env;
use std::io::{self, Input};
use std::rt::Files;

// The number that digits make, up to 255, which no operation has; so is a word that is no number. An empty word is 0.
fn number_of(word: &[u8]) -> u32
    ensures { result ≤ 255 }
{
    let mut n = 0;
    for b in word {
        n = n * 10 + digit_of(*b);
        if 255 < n {
            return 255;
        }
    }
    n
}

fn digit_of(b: u8) -> u32
    ensures { result ≤ 255 }
{
    match b {
        b'0'..=b'9' => u32::from(b - b'0'),
        _ => 255,
    }
}

fn operation_asked<R: Env>(rt: &R) -> u32 {
    let mut word = [0u8; 16];
    let n = program_io::arg(rt, 1, &mut word);
    number_of(&word[..n])
}

// The recordings, from the third argument on, one after the other; the last showing.
fn every<R: Env + Files + Input + Print, E: Print>(
    rt: &R,
    stderr: &E,
    config: &[u8],
    recording: &mut [u8],
    operation: u32,
) -> Posted {
    let mut p = Posted {
        told: Told::Refused(0),
        board: Board::none(),
    };
    for i in 3..program_io::arg_count(rt) {
        let shown = program_io::read_arg(rt, stderr, i, recording).unwrap_or(b"");
        p = showing::show_files(config, operation, shown, p.board);
        board_lines::print_told(&mut io::writer(rt), p.told);
    }
    p
}

// Everything shown, and the history where the configuration could be used.
fn run<R: Env + Files + Input + Print, E: Print>(
    rt: &R,
    stderr: &E,
    config: &mut [u8],
    recording: &mut [u8],
) -> io::Result<()> {
    let config = program_io::read_arg(rt, stderr, 2, config)?;
    let p = every(rt, stderr, config, recording, operation_asked(rt));
    if !matches!(p.told, Told::Configuration(_, _) | Told::TooLong) {
        board_lines::print_history(&mut io::writer(rt), p.board);
    }
    Ok(())
}

fn main(rt: HostRuntime) {
    let mut config = [0u8; judging::CONFIG_ROOM];
    let mut recording = [0u8; judging::RECORDING_ROOM];
    let _ = run(&rt, &rt.stderr(), &mut config, &mut recording);
}
