// Bytes made of text.
ghost use Rattle.std.specs.Prelude.{◌<◌, length, OnOk};

use crate::forms::Rows;
use crate::names::Known;
use crate::room::Room;
use crate::taking::{Expected, Line, Missed, Taken, before_comment};

// The first mistake of a text: the number of its line, from 0, the line without its comment, and how much of that was left there.
#[derive(Clone, Copy)]
pub(crate) struct Mistake<'t> {
    pub number: usize,
    pub line: &'t [u8],
    pub left: usize,
}

impl Mistake<'_> {
    // Where it stands in its line, from 1.
    pub(crate) fn column(&self) -> usize {
        self.line.len().saturating_sub(self.left).saturating_add(1)
    }
}

// Why a text gives no bytes.
#[derive(Clone, Copy)]
pub(crate) enum Unmade<'t> {
    Wrong(Mistake<'t>),
    // There is no room for the bytes, and for one more.
    Full,
}

// What a line says, by the first row that it has the form of; or where it came furthest.
pub(crate) fn take_line<'f>(
    forms: &'f [u8],
    line: Line,
    known: &Known,
) -> Result<Taken, Missed<'f>> {
    let mut furthest = Missed {
        left: line.left(),
        expected: Expected::End,
    };
    for row in Rows(forms).filter(|row| row.is_line()) {
        match line.take_row(forms, row, known) {
            Ok(taken) => return Ok(taken),
            Err(missed) if missed.left < furthest.left => furthest = missed,
            Err(_) => {}
        }
    }
    Err(furthest)
}

// What stands behind the word bytes at the front of a line.
pub(crate) fn behind_bytes<'a>(line: Line<'a>) -> Option<Line<'a>> {
    let mut behind = line;
    behind.skip_blanks();
    behind.take_word(b"bytes").ok()?;
    Some(behind)
}

// A byte, and the blanks around it.
fn make_byte<'f, const N: usize>(line: &mut Line, out: &mut Room<N>) -> Result<(), Missed<'f>>
    ensures { OnOk result (length line.new.rest.now < length line.old.rest.now) }
{
    line.skip_blanks();
    out.put(line.take_byte()?);
    line.skip_blanks();
    Ok(())
}

// The bytes behind the word, one at least.
fn make_bytes<'f, const N: usize>(mut line: Line, out: &mut Room<N>) -> Result<(), Missed<'f>> {
    make_byte(&mut line, out)?;
    while 0 < line.left() {
        make_byte(&mut line, out)?;
    }
    Ok(())
}

// The bytes of a line without its comment.
fn make_line<'f, const N: usize>(
    forms: &'f [u8],
    line: &[u8],
    known: &mut Known,
    out: &mut Room<N>,
) -> Result<(), Missed<'f>> {
    let mut line = Line::of(line);
    line.skip_blanks();
    if line.left() == 0 {
        return Ok(());
    }
    if let Some(behind) = behind_bytes(line) {
        return make_bytes(behind, out);
    }
    let taken = take_line(forms, line, known)?;
    taken.tell(known);
    if let Some(tag) = taken.field.tag() {
        known.count_tag(tag);
        taken.field.put(out);
    }
    Ok(())
}

// The bytes of a text.
pub(crate) fn make<'t, const N: usize>(
    forms: &[u8],
    text: &'t [u8],
    known: &mut Known,
    out: &mut Room<N>,
) -> Result<(), Unmade<'t>> {
    out.clear();
    for (number, line) in text.split(|b| *b == b'\n').enumerate() {
        let line = before_comment(line);
        if let Err(Missed { left, .. }) = make_line(forms, line, known, out) {
            return Err(Unmade::Wrong(Mistake { number, line, left }));
        }
        if out.is_full() {
            return Err(Unmade::Full);
        }
    }
    Ok(())
}
