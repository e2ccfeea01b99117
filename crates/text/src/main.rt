// The text form of configurations and recordings. `text show FILE [NAMES]` prints the text of bytes, `text make FILE` the bytes of a text. A FILE `-` is
// standard input. A mistake of a text is said on standard error, by line and column, and then nothing is printed. `text trip TIMES` reads many
// files, each behind its length in four bytes, and prints how many of them came back from their text as they were, as they are and so often damaged.
#![tactic(auto)]

mod expecting;
mod field;
mod forms;
mod making;
mod names;
mod putting;
mod room;
mod showing;
mod taking;
mod tripping;

use making::{Mistake, Unmade};
use names::Known;
use room::Room;
use std::env::Env;
use std::io::{Input, Write};
use std::rt::Files;
use taking::Line;
use tripping::Tally;

// The most bytes of a file, and of a text; the rooms have one more, so that a longer one is seen.
const BYTES: usize = 262144;

const TEXT: usize = 2097152;

const BYTES_ROOM: usize = BYTES + 1;

const TEXT_ROOM: usize = TEXT + 1;

// The file that an argument names, read into a room. Whether all of it was read; if not, it is said why.
fn read_arg<R: Env + Files + Input, E: Print, const N: usize>(
    rt: &R,
    stderr: &E,
    i: usize,
    room: &mut Room<N>,
) -> bool {
    let mut name = [0u8; program_io::NAME_ROOM];
    let n = program_io::arg(rt, i, &mut name);
    match program_io::read_named(rt, &name[..n], &mut room.bytes) {
        Ok(size) => room.size = size,
        Err(e) => {
            program_io::fail(stderr, &name[..n], e);
            return false;
        }
    }
    if room.is_full() {
        say(stderr, b"input too long\n");
    }
    !room.is_full()
}

// Says a line on standard error.
fn say<E: Print>(stderr: &E, words: &[u8]) {
    let _ = stderr.write_all(words);
}

// Prints, or says that it could not.
fn print<R: Print, E: Print>(rt: &R, stderr: &E, text: &[u8]) {
    if rt.write_all(text).is_err() {
        say(stderr, b"not written\n");
    }
}

// Says what is wrong with a text.
fn complain<E: Print>(stderr: &E, forms: &[u8], mistake: Mistake, known: &Known) {
    let mut words = Room::<2048>::new();
    expecting::report(&mut words, forms, mistake, known);
    say(stderr, words.as_bytes());
}

// The bytes of a text.
fn make_text<R: Print, E: Print, const N: usize>(
    rt: &R,
    stderr: &E,
    forms: &[u8],
    text: &[u8],
    out: &mut Room<N>,
) {
    let mut known = Known::new();
    match making::make(forms, text, &mut known, out) {
        Ok(()) => print(rt, stderr, out.as_bytes()),
        Err(Unmade::Wrong(mistake)) => complain(stderr, forms, mistake, &known),
        Err(Unmade::Full) => say(stderr, b"input too long\n"),
    }
}

// The text of bytes, with the names that are known.
fn show_bytes<R: Print, E: Print, const N: usize>(
    rt: &R,
    stderr: &E,
    forms: &[u8],
    bytes: &[u8],
    known: &mut Known,
    out: &mut Room<N>,
) {
    showing::show(out, forms, bytes, known);
    if out.is_full() {
        say(stderr, b"input too long\n");
    } else {
        print(rt, stderr, out.as_bytes());
    }
}

// The names of a text; whether it has no mistake.
fn learn_text<E: Print, const N: usize>(
    stderr: &E,
    forms: &[u8],
    known: &mut Known,
    text: &[u8],
    out: &mut Room<N>,
) -> bool {
    match making::make(forms, text, known, out) {
        Ok(()) => {
            known.forget_counts();
            true
        }
        Err(Unmade::Wrong(mistake)) => {
            say(stderr, b"names ");
            complain(stderr, forms, mistake, known);
            false
        }
        Err(Unmade::Full) => {
            say(stderr, b"input too long\n");
            false
        }
    }
}

// The names of the names file, if there is one; whether it could be read and has no mistake.
fn learn_names<R: Env + Files + Input, E: Print, const M: usize, const N: usize>(
    rt: &R,
    stderr: &E,
    forms: &[u8],
    known: &mut Known,
    text: &mut Room<M>,
    out: &mut Room<N>,
) -> bool {
    program_io::arg_count(rt) < 4
        || read_arg(rt, stderr, 3, text) && learn_text(stderr, forms, known, text.as_bytes(), out)
}

// The text of the file that an argument names.
fn show_arg<R: Env + Files + Input + Print, E: Print, const M: usize, const N: usize>(
    rt: &R,
    stderr: &E,
    forms: &[u8],
    bytes: &mut Room<M>,
    text: &mut Room<N>,
) {
    let mut known = Known::new();
    if learn_names(rt, stderr, forms, &mut known, text, bytes) && read_arg(rt, stderr, 2, bytes) {
        show_bytes(rt, stderr, forms, bytes.as_bytes(), &mut known, text);
    }
}

// The bytes of the text that an argument names.
fn make_arg<R: Env + Files + Input + Print, E: Print, const M: usize, const N: usize>(
    rt: &R,
    stderr: &E,
    forms: &[u8],
    bytes: &mut Room<M>,
    text: &mut Room<N>,
) {
    if read_arg(rt, stderr, 2, text) {
        make_text(rt, stderr, forms, text.as_bytes(), bytes);
    }
}

// How often each file is damaged: the number that the second argument is.
fn times<R: Env>(rt: &R) -> u32 {
    let mut word = [0u8; 16];
    let n = program_io::arg(rt, 2, &mut word);
    Line::of(&word[..n]).take_number().unwrap_or(0)
}

// Prints how many came back.
fn print_tally<R: Print, E: Print>(rt: &R, stderr: &E, tally: Tally) {
    let _ = rt.print(tally.same);
    print(rt, stderr, b" came back, ");
    let _ = rt.print(tally.other);
    print(rt, stderr, b" did not\n");
}

// Files from standard input, turned into text and back; how many came back.
fn trip_input<R: Env + Input + Print, E: Print, const M: usize, const N: usize>(
    rt: &R,
    stderr: &E,
    forms: &[u8],
    bytes: &mut Room<M>,
    text: &mut Room<N>,
) {
    let mut shown = Room::<BYTES_ROOM>::new();
    let size = match program_io::read_whole(&mut rt.reader(), &mut text.bytes) {
        Ok(size) => size,
        Err(e) => return program_io::fail(stderr, b"standard input", e),
    };
    let tally = tripping::trip(forms, &mut text.bytes[..size], &mut shown, bytes, times(rt));
    print_tally(rt, stderr, tally);
}

fn run<R: Env + Files + Input + Print, E: Print, const M: usize, const N: usize>(
    rt: &R,
    stderr: &E,
    forms: &[u8],
    bytes: &mut Room<M>,
    text: &mut Room<N>,
) {
    match program_io::first_letter(rt) {
        b's' => show_arg(rt, stderr, forms, bytes, text),
        b'm' => make_arg(rt, stderr, forms, bytes, text),
        b't' => trip_input(rt, stderr, forms, bytes, text),
        _ => say(stderr, b"show FILE [NAMES] or make FILE\n"),
    }
}

fn main(rt: HostRuntime) {
    let mut bytes = Room::<BYTES_ROOM>::new();
    let mut text = Room::<TEXT_ROOM>::new();
    let forms = forms::FORMS;
    run(&rt, &rt.stderr(), &forms, &mut bytes, &mut text);
}
