// What could have stood at the place of a mistake.
use crate::forms::Rows;
use crate::making::{Mistake, behind_bytes};
use crate::names::Known;
use crate::putting::put_name;
use crate::room::Room;
use crate::taking::{Expected, Line, Missed};

// What should stand there, in words.
fn put_expected<const N: usize>(out: &mut Room<N>, expected: Expected, known: &Known) {
    match expected {
        Expected::Word(word) => {
            out.put(b'\'');
            out.put_all(word);
            out.put(b'\'');
        }
        Expected::Byte => out.put_all(b"a number from 0 to 255"),
        Expected::Long => out.put_all(b"a number from 0 to 4294967295"),
        Expected::Value => out.put_all(b"a value"),
        Expected::Number(number) => {
            out.put_all(b"the number ");
            out.put_decimal(u64::from(number));
        }
        Expected::Name => out.put_all(b"a name of 1 to 32 bytes in quotation marks"),
        Expected::NameOf(part) => {
            out.put_all(b"the name");
            put_name(out, known.name(part));
        }
        Expected::NoName => out.put_all(b"no name behind a number above 15"),
        Expected::NumberAndName => out.put_all(b"a number and a name"),
        Expected::End => out.put_all(b"the end of the line"),
    }
}

// The phrase stands somewhere in a text.
fn occurs(text: &[u8], phrase: &[u8]) -> bool {
    (0..text.len()).any(|i| text[i..].starts_with(phrase))
}

// A phrase more, unless it is there already.
fn put_phrase<const N: usize>(out: &mut Room<N>, phrase: &[u8]) {
    if occurs(out.as_bytes(), phrase) {
        return;
    }
    if !out.as_bytes().is_empty() {
        out.put_all(b" or ");
    }
    out.put_all(phrase);
}

// What each row asks for that the line came as far by as by any.
fn put_rows<const N: usize>(out: &mut Room<N>, forms: &[u8], mistake: Mistake, known: &Known) {
    for row in Rows(forms).filter(|row| row.is_line()) {
        if let Err(Missed { left, expected }) = Line::of(mistake.line).take_row(forms, row, known) {
            if left == mistake.left {
                let mut phrase = Room::<64>::new();
                put_expected(&mut phrase, expected, known);
                put_phrase(out, phrase.as_bytes());
            }
        }
    }
}

// What could have stood there.
fn put_choices<const N: usize>(out: &mut Room<N>, forms: &[u8], mistake: Mistake, known: &Known) {
    let mut line = Line::of(mistake.line);
    if behind_bytes(line).is_some() {
        put_expected(out, Expected::Byte, known);
        return;
    }
    put_rows(out, forms, mistake, known);
    line.skip_blanks();
    if line.left() == mistake.left {
        put_phrase(out, b"'bytes'");
    }
}

// The line and the column of a mistake, and what could have stood there.
pub(crate) fn report<const N: usize>(
    out: &mut Room<N>,
    forms: &[u8],
    mistake: Mistake,
    known: &Known,
) {
    let mut choices = Room::<1024>::new();
    put_choices(&mut choices, forms, mistake, known);
    out.clear();
    out.put_decimal(mistake.number.wrapping_add(1) as u64);
    out.put(b':');
    out.put_decimal(mistake.column() as u64);
    out.put_all(b": expected ");
    out.put_all(choices.as_bytes());
    out.put(b'\n');
}
