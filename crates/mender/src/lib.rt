// The mender at work on two files: the answer, the report line by line, and the mended text.
#![tactic(auto)]

ghost use Rattle.std.specs.Prelude.{◌≡◌, [], ◌∷◌, length, ◌*◌, ◌+◌, ◌≤◌};
ghost use Rattle.wire.specs.Bytes.{Written};
ghost use Rattle.lines.specs.Lines.{line_bytes};
ghost use Rattle.std.specs.Bool.{OnTrue};
ghost use Rattle.std.specs.Io.KnownBytes.{Appends};
ghost use Rattle.mender.specs.Told.{told_by, told_of, told_text, told_report, insert_word, gap_word, note_line, note_lines, told_line, text_size};

use gaps::Mended;
use judging::{MAX_CONFIG, MAX_RECORDING};
use reading::Outcome;
use state::State;
use std::io::Write;
use wire::Wrote;

// What came of two files: mended, with the steps of the text and the notes of the report; refused; a configuration that can't be used; or a file that is too long.
#[derive(Clone, Copy)]
pub enum Told {
    Mended(usize, usize),
    Refused(usize, u8),
    Configuration(usize, u8),
    TooLong,
}

// Room for the longest mended text of the longest recording, and for its report.
pub const ROOM: usize = MAX_RECORDING * 4;

impl From<Mended> for Told {
    ghost from_gives = { λ m r. r ≡ told_by m };

    fn from(m: Mended) -> Told {
        match m {
            Mended::Whole(steps, notes) => Told::Mended(steps, notes),
            Mended::Refused(place, k) => Told::Refused(place, k),
        }
    }
}

// Mends a recording under a configuration, both as bytes, from the start state.
#[tactic(auto, unfolding(crate::specs::Told::told_of, crate::specs::Told::told_text, crate::specs::Told::told_report))]
pub fn mend_files(config: &[u8], recording: &[u8], out: &mut [u8], report: &mut [u8]) -> Told
    ensures value { result ≡ told_of config.now recording.now out.old report.old }
    ensures out_after { out.new ≡ told_text config.now recording.now out.old report.old }
    ensures report_after { report.new ≡ told_report config.now recording.now out.old report.old }
{
    if MAX_CONFIG < config.len() || MAX_RECORDING < recording.len() {
        return Told::TooLong;
    }
    let g = reading::read_config(config);
    match g.outcome {
        Outcome::Refused(place, k) => Told::Configuration(place, k),
        Outcome::Whole => {
            let st = State::start(g.config);
            Told::from(mending::mend(g.config, st, recording, out, report))
        }
    }
}

// The line of a note, written from a place on.
pub fn put_note(buf: &mut [u8], at: usize, note: &[u8; gaps::NOTE]) -> Wrote
    ensures { Written buf.old at (note_line note.now) result buf.new }
{
    let number = wire::number(note[4], note[5], note[6], note[7]);
    let high = wire::number(note[8], note[9], note[10], note[11]);
    let low = wire::number(note[12], note[13], note[14], note[15]);
    let place = place_of(high, low);
    if note[0] == 1 {
        return put_insert(buf, at, place, note[1], note[2], note[3], number);
    }
    put_gap(buf, at, place, number)
}

fn place_of(high: u32, low: u32) -> u64
    ensures { result ≡ high * 4294967296 + low }
{
    high as u64 * 4294967296 + low as u64
}

fn put_insert(
    buf: &mut [u8],
    at: usize,
    place: u64,
    code: u8,
    what: u8,
    kind: u8,
    number: u32,
) -> Wrote
    ensures { Written buf.old at (line_bytes insert_word (place ∷ code ∷ what ∷ kind ∷ number ∷ [])) result buf.new }
{
    let numbers = [place, code as u64, what as u64, kind as u64, number as u64];
    lines::put_line(buf, at, b"insert", numbers, 5)
}

fn put_gap(buf: &mut [u8], at: usize, place: u64, passed: u32) -> Wrote
    ensures { Written buf.old at (line_bytes gap_word (place ∷ passed ∷ [])) result buf.new }
{
    lines::put_line(buf, at, b"gap", [place, passed as u64, 0, 0, 0], 2)
}

// The last line, written from a place on.
pub fn put_told(buf: &mut [u8], at: usize, told: Told) -> Wrote
    ensures { Written buf.old at (told_line told) result buf.new }
{
    match told {
        Told::Mended(steps, _) => put_one(buf, at, b"mended", steps),
        Told::Refused(place, k) => put_two(buf, at, b"refused", place, k),
        Told::Configuration(place, k) => put_two(buf, at, b"configuration", place, k),
        Told::TooLong => lines::put_line(buf, at, b"input too long", [0; 5], 0),
    }
}

fn put_one(buf: &mut [u8], at: usize, word: &[u8], n: usize) -> Wrote
    ensures { Written buf.old at (line_bytes word.now (n ∷ [])) result buf.new }
{
    lines::put_line(buf, at, word, [n as u64, 0, 0, 0, 0], 1)
}

fn put_two(buf: &mut [u8], at: usize, word: &[u8], place: usize, k: u8) -> Wrote
    ensures { Written buf.old at (line_bytes word.now (place ∷ k ∷ [])) result buf.new }
{
    lines::put_line(buf, at, word, [place as u64, k as u64, 0, 0, 0], 2)
}

// Prints the lines of the first notes of a report, as many as there are, each in one write; whether all went out.
pub fn print_notes<W: Write>(out: &mut W, report: &[u8], notes: usize) -> bool
    ensures { OnTrue result (Appends (W.contents out.old) (W.contents out.new) (note_lines report.now notes)) }
{
    let mut rest = report;
    for k in 0..notes {
        let Some((note, behind)) = rest.split_first_chunk() else {
            return false;
        };
        if !print_note(out, note) {
            return false;
        }
        rest = behind;
    }
    true
}

// Prints the line of a note, in one write; whether all of it went out.
fn print_note<W: Write>(out: &mut W, note: &[u8; gaps::NOTE]) -> bool
    ensures { OnTrue result (Appends (W.contents out.old) (W.contents out.new) (note_line note.now)) }
{
    let mut text = [0u8; 128];
    let w = put_note(&mut text, 0, note);
    let Wrote::To(n) = w else {
        return false;
    };
    out.write_all(&text[..n]).is_ok()
}

// Prints the last line, in one write; whether all of it went out.
pub fn print_told<W: Write>(out: &mut W, told: Told) -> bool
    ensures { OnTrue result (Appends (W.contents out.old) (W.contents out.new) (told_line told)) }
{
    let mut text = [0u8; 64];
    let w = put_told(&mut text, 0, told);
    let Wrote::To(n) = w else {
        return false;
    };
    out.write_all(&text[..n]).is_ok()
}

// The bytes of a mended text of so many steps; none where the buffer is shorter.
pub fn size_of(steps: usize, out: &[u8]) -> usize
    ensures value { result ≡ text_size steps (length out.now) }
    ensures upper_bound { result ≤ length out.now }
{
    let room = out.len();
    if room < numbers::SIZE_END || (room - numbers::SIZE_END) / numbers::SIZE_STEP < steps {
        return 0;
    }
    steps * numbers::SIZE_STEP + numbers::SIZE_END
}
