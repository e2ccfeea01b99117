// What the programs share: how they are called, an input read to its end, and never half of it, packed cases, and a line printed in one write.
#![tactic(auto)]

ghost use Rattle.std.specs.Prelude.{◌≡◌, ◌%◌, ◌*◌, ◌+◌, ◌<◌, ◌≤◌, [], ◌∷◌, fold, length, IfOk};
ghost use Rattle.judging.specs.Line.{line_of};
ghost use Rattle.lines.specs.Lines.{line_bytes};
ghost use Rattle.printing.specs.Printed.{printed_of};
ghost use Rattle.program_io.specs.Got.{Fits, Reads};
ghost use Rattle.program_io.specs.Named.{named_line};
ghost use Rattle.program_io.specs.Packed.{IsNumber, IsText};
ghost use Rattle.std.specs.Bool.{OnTrue};
ghost use Rattle.std.specs.Io.KnownBytes.{Appends};

use judging::Line;
use std::env::{Env, FillError};
use std::fs::File;
use std::io::{self, Cursor, Error, ErrorKind, Input, Read, Write};
use std::rt::Files;
use wire::Wrote;

// Reads until buf is full or the input ends, also from a pipe that gives little at a time; how many bytes came.
pub fn read_whole<R: Read>(input: &mut R, buf: &mut [u8]) -> io::Result<usize>
    ensures fits { Fits result (length buf.new) }
    ensures bytes { Reads (R.remaining input.old) (R.remaining input.new) result buf.new }
{
    let mut done: usize = 0;
    while done < buf.len() {
        let n = input.read(&mut buf[done..])?;
        if n == 0 {
            return Ok(done);
        }
        done += n;
    }
    Ok(done)
}

// Opens a file to read it. A path is text: a name that is none can't be opened.
fn open<R: Files>(rt: &R, name: &[u8]) -> io::Result<R::File> {
    match std::str::from_utf8(name) {
        Ok(path) => File::open(rt, path),
        Err(_) => Err(Error::from(ErrorKind::InvalidFilename)),
    }
}

// Reads a file by its name; one that is not there counts as empty.
pub fn read_file<R: Files>(rt: &R, name: &[u8], buf: &mut [u8]) -> io::Result<usize>
    ensures { Fits result (length buf.new) }
{
    match open(rt, name) {
        Ok(mut file) => read_whole(&mut file, buf),
        Err(e) if e.kind() == ErrorKind::NotFound => Ok(0),
        Err(e) => Err(e),
    }
}

// Reads what a name stands for: standard input for `-`, else the file, which has to be there.
pub fn read_named<R: Files + Input>(rt: &R, name: &[u8], buf: &mut [u8]) -> io::Result<usize>
    ensures { Fits result (length buf.new) }
{
    if matches!(name, [b'-']) {
        return read_whole(&mut rt.reader(), buf);
    }
    let mut file = open(rt, name)?;
    read_whole(&mut file, buf)
}

// Room for a name: a path has fewer bytes.
pub const NAME_ROOM: usize = 4096;

// Puts the argument of this number at the start of buf, and returns its length: 0 where there is none, or it is longer than buf.
pub fn arg<R: Env>(rt: &R, i: usize, buf: &mut [u8]) -> usize
    ensures { result ≤ length buf.new }
{
    rt.arg(i, buf).unwrap_or(0)
}

// How many arguments there are, the program's name among them.
pub fn arg_count<R: Env>(rt: &R) -> usize {
    for i in 0..usize::MAX {
        if let Err(FillError::NotPresent) = rt.arg(i, &mut []) {
            return i;
        }
    }
    usize::MAX
}

// What the first argument starts with.
pub fn first_letter<R: Env>(rt: &R) -> u8 {
    let mut how = [0u8; 8];
    arg(rt, 1, &mut how);
    how[0]
}

// Reads what the argument of this number names. Where that fails, standard error says what and why.
pub fn read_arg<'a, R: Env + Files + Input, E: Print>(
    rt: &R,
    stderr: &E,
    i: usize,
    buf: &'a mut [u8],
) -> io::Result<&'a [u8]>
    ensures { IfOk result (λ text. length text.now ≤ length buf.old) }
{
    let mut name = [0u8; NAME_ROOM];
    let n = arg(rt, i, &mut name);
    let size = read_named(rt, &name[..n], buf).inspect_err(|e| fail(stderr, &name[..n], *e))?;
    Ok(&buf[..size])
}

// Reads a recording on standard input. Where that fails, standard error says so.
pub fn read_recording<'a, R: Input, E: Print>(
    rt: &R,
    stderr: &E,
    recording: &'a mut [u8],
) -> io::Result<&'a [u8]>
    ensures { IfOk result (λ text. length text.now ≤ length recording.old) }
{
    let size = read_whole(&mut rt.reader(), recording).inspect_err(|e| fail(
        stderr,
        b"standard input",
        *e,
    ))?;
    Ok(&recording[..size])
}

// Reads a recording on standard input that has to leave some of its room. Of a longer one the line `input too long` is printed, and it is an error too.
pub fn read_within<'a, R: Input + Print, E: Print>(
    rt: &R,
    stderr: &E,
    room: &'a mut [u8],
) -> io::Result<&'a [u8]>
    ensures { IfOk result (λ text. length text.now < length room.old) }
{
    let full = room.len();
    let recording = read_recording(rt, stderr, room)?;
    if recording.len() == full {
        print(&mut io::writer(rt), Line::TooLong);
        return Err(Error::from(ErrorKind::FileTooLarge));
    }
    Ok(recording)
}

// Reads rte.cfg, and a recording on standard input. Where one fails, standard error says which and why.
pub fn read_both<'a, R: Files + Input, E: Print>(
    rt: &R,
    stderr: &E,
    config: &'a mut [u8],
    recording: &'a mut [u8],
) -> io::Result<(&'a [u8], &'a [u8])>
    ensures { IfOk result (λ texts. (length texts.0.now ≤ length config.old) × (length texts.1.now ≤ length recording.old)) }
{
    let size = read_file(rt, b"rte.cfg", config).inspect_err(|e| fail(stderr, b"rte.cfg", *e))?;
    let recording = read_recording(rt, stderr, recording)?;
    Ok((&config[..size], recording))
}

// Leaves a text in the file of this name, whole; whether it did. Where the file can't be made, standard error says why.
pub fn keep<R: Files, E: Print>(rt: &R, stderr: &E, name: &str, text: &[u8]) -> bool {
    match File::create(rt, name) {
        Ok(mut file) => file.write_all(text).is_ok(),
        Err(e) => {
            fail(stderr, name.as_bytes(), e);
            false
        }
    }
}

// Says on standard error what failed, and why.
pub fn fail<E: Print>(stderr: &E, what: &[u8], why: Error) {
    let mut text = Cursor::new([0u8; 256]);
    let _ = write!(text, "{why}");
    let _ = stderr.write_all(what);
    let _ = stderr.write_all(b": ");
    let _ = stderr.write_all(reason_in(text.get_ref()));
    let _ = stderr.write_all(b"\n");
}

// The words of an error, which end before its number in the system, or where a text ends in its buffer.
fn reason_in(text: &[u8]) -> &[u8] {
    for i in 0..text.len() {
        if text[i] == 0 || text[i..].starts_with(b" (os error ") {
            return &text[..i];
        }
    }
    text
}

// More packed cases than any input has. A loop that is proved has to end.
pub const CASES: u32 = 1000000;

// The number that stands next in an input, in four bytes.
pub fn next_number<R: Read>(input: &mut R) -> io::Result<usize>
    ensures { IfOk result (λ n. IsNumber (R.remaining input.old) (R.remaining input.new) n) }
{
    let mut head = [0u8; 4];
    let n = read_whole(input, &mut head)?;
    if n < 4 {
        return Err(Error::from(ErrorKind::UnexpectedEof));
    }
    Ok(wire::number(head[0], head[1], head[2], head[3]) as usize)
}

// As many bytes as the number that stands next says, or as are left, read into buf. It is an error where buf is too short for them.
pub fn next_text<'a, R: Read>(input: &mut R, buf: &'a mut [u8]) -> io::Result<&'a [u8]>
    ensures fits { IfOk result (λ text. length text.now ≤ length buf.old) }
    ensures packed { IfOk result (λ text. IsText (R.remaining input.old) (R.remaining input.new) text.now) }
{
    let size = next_number(input)?;
    if buf.len() < size {
        return Err(Error::from(ErrorKind::InvalidData));
    }
    let n = read_whole(input, &mut buf[..size])?;
    Ok(&buf[..n])
}

// A sum over bytes in which each place counts by itself.
pub fn sum_of(text: &[u8]) -> u32
    ensures { result ≡ fold (λ sum b. (sum % 16777213) * 251 + b) 1 text.now }
{
    let mut sum = 1;
    for b in text {
        sum = (sum % 16777213) * 251 + u32::from(*b);
    }
    sum
}

// Reads rte.cfg and a recording on standard input, judges it as often as is said, once at least, and prints the last line. On a read that fails it prints none, and says what failed on standard error.
pub fn run<R: Files + Input + Print, E: Print>(
    rt: &R,
    stderr: &E,
    config: &mut [u8],
    recording: &mut [u8],
    times: u32,
) {
    if let Ok((config, recording)) = read_both(rt, stderr, config, recording) {
        print(&mut io::writer(rt), judged(config, recording, times));
    }
}

// The line of two texts, found as often as is said, once at least.
fn judged(config: &[u8], recording: &[u8], times: u32) -> Line
    ensures { result ≡ line_of config.now recording.now }
{
    let line = judging::line_of(config, recording);
    for _ in 1..times {
        judging::line_of(config, recording);
    }
    line
}

// Prints the line, in one write; whether all of it went out.
pub fn print<W: Write>(out: &mut W, line: Line) -> bool
    ensures { OnTrue result (Appends (W.contents out.old) (W.contents out.new) (printed_of line)) }
{
    let mut text = [0u8; 64];
    let Wrote::To(n) = printing::put_printed(&mut text, 0, line) else {
        return false;
    };
    out.write_all(&text[..n]).is_ok()
}

// Prints a word with a number behind it, in one write; whether all of it went out.
pub fn print_count<W: Write>(out: &mut W, word: &[u8], n: usize) -> bool
    ensures { OnTrue result (Appends (W.contents out.old) (W.contents out.new) (line_bytes word.now (n ∷ []))) }
{
    let mut text = [0u8; 64];
    let Wrote::To(n) = lines::put_line(&mut text, 0, word, [n as u64, 0, 0, 0, 0], 1) else {
        return false;
    };
    out.write_all(&text[..n]).is_ok()
}

// Prints the line behind a name, a colon and a space, in one write; whether all of it went out.
pub fn print_named<W: Write>(out: &mut W, name: &[u8], line: Line) -> bool
    ensures { OnTrue result (Appends (W.contents out.old) (W.contents out.new) (named_line name.now line)) }
{
    let mut text = [0u8; 4200];
    let Wrote::To(at) = wire::write(&mut text, 0, name) else {
        return false;
    };
    let Wrote::To(at) = wire::write(&mut text, at, b": ") else {
        return false;
    };
    let Wrote::To(n) = printing::put_printed(&mut text, at, line) else {
        return false;
    };
    out.write_all(&text[..n]).is_ok()
}
