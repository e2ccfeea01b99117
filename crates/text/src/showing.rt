// Text made of bytes.
ghost use Rattle.std.specs.Prelude.{◌<◌, length, IfSome};

use crate::field::Field;
use crate::forms::{Rows, size_of};
use crate::making::take_line;
use crate::names::Known;
use crate::putting::put_form;
use crate::room::Room;
use crate::taking::Line;
use reading::Outcome;

// The place of the field that is refused, from 1, and the number.
#[derive(Clone, Copy)]
pub(crate) struct Damage {
    pub place: usize,
    pub number: u8,
}

// The field that bytes start with, and what stands behind it, if a field of either file stands there.
fn split_field(bytes: &[u8]) -> Option<(&[u8], &[u8])>
    ensures { IfSome result (λ p. length p.1.now < length bytes.now) }
{
    let [tag, high, low, behind @ ..] = bytes else {
        return None;
    };
    let size = size_of(*tag)?;
    if *high != 0 || *low as usize != size || behind.len() < size {
        return None;
    }
    Some(bytes.split_at(numbers::HEAD + size))
}

// What is refused in a recording.
fn recording_damage(bytes: &[u8]) -> Option<Damage> {
    let mut rest = bytes;
    let mut place: usize = 1;
    while !rest.is_empty() {
        match recording::read_field(rest, 0) {
            recording::Field::Step(_, _) => {}
            recording::Field::End => return None,
            recording::Field::Refused(past, number) => {
                let place = place.wrapping_add(past as usize);
                return Some(Damage { place, number });
            }
        }
        let Some((_, behind)) = split_field(rest) else {
            break;
        };
        rest = behind;
        place = place.wrapping_add(1);
    }
    Some(Damage {
        place,
        number: numbers::BAD_FIELD,
    })
}

// What is refused in a configuration.
fn config_damage(bytes: &[u8]) -> Option<Damage> {
    match reading::read_config(bytes).outcome {
        Outcome::Whole => None,
        Outcome::Refused(place, number) => Some(Damage { place, number }),
    }
}

// A file that starts with a step or with the end is taken for a recording, any other for a configuration.
fn damage_of(bytes: &[u8]) -> Option<Damage> {
    match bytes {
        [numbers::TAG_STEP | numbers::TAG_END, ..] => recording_damage(bytes),
        _ => config_damage(bytes),
    }
}

// The line, taken and put as any line is, gives the bytes of the file back.
fn gives_back(forms: &[u8], line: &[u8], known: &Known, bytes: &[u8]) -> bool {
    match take_line(forms, Line::of(line), known) {
        Ok(taken) => {
            let mut back = Room::<{ numbers::SIZE_STEP }>::new();
            taken.field.put(&mut back);
            back.as_bytes() == bytes
        }
        Err(_) => false,
    }
}

// The line of a field, whose bytes the file has: the first that gives them back. Whether there is one.
fn put_field<const N: usize>(
    line: &mut Room<N>,
    forms: &[u8],
    field: &Field,
    bytes: &[u8],
    known: &Known,
) -> bool {
    for row in Rows(forms) {
        if field.may_be_of(&row) {
            line.clear();
            put_form(line, forms, row, known, field);
            if gives_back(forms, line.as_bytes(), known, bytes) {
                return true;
            }
        }
    }
    false
}

// Bytes that are no field, as numbers, 16 to a line.
fn put_raw<const N: usize>(out: &mut Room<N>, bytes: &[u8]) {
    for line in bytes.chunks(16) {
        out.put_all(b"bytes");
        for b in line {
            out.put(b' ');
            out.put_decimal(u64::from(*b));
        }
        out.put(b'\n');
    }
}

// The line of a field, or its bytes.
fn show_field<const N: usize>(out: &mut Room<N>, forms: &[u8], bytes: &[u8], known: &mut Known) {
    if let [tag, _, _, body @ ..] = bytes {
        let mut line = Room::<512>::new();
        if put_field(&mut line, forms, &Field::of_file(*tag, body), bytes, known) {
            known.count_tag(*tag);
            out.put_all(line.as_bytes());
            out.put(b'\n');
            return;
        }
    }
    put_raw(out, bytes);
}

// Where a file is shown: the number of the place, from 1, the first tag of the file, what is left of it there, and whether the end came before.
#[derive(Clone, Copy)]
struct Left<'a> {
    place: usize,
    first: u8,
    rest: &'a [u8],
    ended: bool,
}

// Why a field whose frame holds is refused.
fn unfit(tag: u8, first: u8) -> &'static [u8] {
    if first == numbers::TAG_STEP && tag == numbers::TAG_STEP {
        return b"a value is bad";
    }
    if first == numbers::TAG_STEP {
        return b"this field is none of this file";
    }
    match tag {
        numbers::TAG_INCOMING | numbers::TAG_OUTGOING => b"only edition 2 has this field",
        _ => b"this field is none of this file",
    }
}

// Why a frame is refused.
fn unframed(left: Left) -> &'static [u8] {
    let [tag, others @ ..] = left.rest else {
        return b"the end is missing";
    };
    if left.ended {
        return b"bytes stand behind the end";
    }
    let Some(size) = size_of(*tag) else {
        return b"no field has this tag";
    };
    let [high, low, body @ ..] = others else {
        return b"the field is cut";
    };
    if *high != 0 || *low as usize != size {
        return b"the length is not that of this tag";
    }
    if body.len() < size {
        return b"the field is cut";
    }
    unfit(*tag, left.first)
}

// Why a field is one too many.
fn many(rest: &[u8]) -> &'static [u8] {
    match rest {
        [numbers::TAG_INCOMING | numbers::TAG_OUTGOING, ..] => {
            b"a runnable lists four such elements at most"
        }
        _ => b"there are too many parts of this kind",
    }
}

// Why a field is refused.
fn cause(left: Left, number: u8) -> &'static [u8] {
    match number {
        numbers::BAD_ORDER => b"the fields are out of order",
        numbers::TOO_MANY => many(left.rest),
        numbers::OUT_OF_RANGE => b"a number is out of range",
        numbers::NAMES_NOTHING => b"a part is named that is not there",
        numbers::BAD_PAIR => b"these parts do not go together",
        _ => unframed(left),
    }
}

// The comment on the field that stands next, if it is the one that is refused.
fn put_damage<const N: usize>(out: &mut Room<N>, damage: Option<Damage>, left: Left) {
    let Some(Damage { place, number }) = damage else {
        return;
    };
    if place != left.place {
        return;
    }
    out.put_all(b"# refused at place ");
    out.put_decimal(place as u64);
    out.put_all(b" by ");
    out.put_decimal(u64::from(number));
    out.put_all(b": ");
    out.put_all(cause(left, number));
    out.put(b'\n');
}

// The field that stands next as text, or, where there is none, all that is left as bytes. What is left behind it.
fn show_next<'a, const N: usize>(
    out: &mut Room<N>,
    forms: &[u8],
    left: Left<'a>,
    known: &mut Known,
) -> &'a [u8]
    requires { 0 < length left.rest.now }
    ensures { length result.now < length left.entry.rest.now }
{
    match split_field(left.rest) {
        Some((field, behind)) if !left.ended => {
            show_field(out, forms, field, known);
            behind
        }
        _ => {
            put_raw(out, left.rest);
            &[]
        }
    }
}

// The text of a file. Where it fills the room, it may be cut.
pub(crate) fn show<const N: usize>(
    out: &mut Room<N>,
    forms: &[u8],
    bytes: &[u8],
    known: &mut Known,
) {
    let damage = damage_of(bytes);
    let mut left = Left {
        place: 1,
        first: bytes.first().copied().unwrap_or(0),
        rest: bytes,
        ended: false,
    };
    out.clear();
    while let Some(tag) = left.rest.first() {
        put_damage(out, damage, left);
        left = Left {
            place: left.place.wrapping_add(1),
            rest: show_next(out, forms, left, known),
            ended: *tag == numbers::TAG_END,
            ..left
        };
    }
    put_damage(out, damage, left);
}
