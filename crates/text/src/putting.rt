// Lines made of fields.
use crate::field::{Field, Value};
use crate::forms::{Item, Items, Meaning, Row, Rows};
use crate::names::{Known, Name, Part};
use crate::room::Room;

// The kinds of values that have a number beside them: a Number, and a Full its mask.
pub(crate) const NUMBER: u8 = 1;

const FULL: u8 = 8;

// A value of this kind has a number beside it.
pub(crate) fn has_number(kind: u8) -> bool {
    kind == NUMBER || kind == FULL
}

// A value has a number that one of its kind may have: any of a Number, a mask of a Full, and else none.
fn fits(value: Value) -> bool {
    match value.kind {
        NUMBER => true,
        FULL => 0 < value.number && value.number < 65536,
        _ => value.number == 0,
    }
}

// A row of words says a value: that of its kind, with a number that it may have; or the last, for a bad value.
fn says_value(row: &Row, value: Value) -> bool {
    row.choice
        .is_none_or(|kind| kind == value.kind && fits(value))
}

// The row that says a value.
fn value_row(forms: &[u8], value: Value) -> Option<Row<'_>> {
    Rows(forms).find(|row| says_value(row, value))
}

// A space and a number behind it.
fn put_spaced<const N: usize>(out: &mut Room<N>, n: u32) {
    out.put(b' ');
    out.put_decimal(u64::from(n));
}

// A value. Behind the word for a bad one stand its kind and its number.
fn put_value<const N: usize>(out: &mut Room<N>, forms: &[u8], value: Value) {
    let Some(row) = value_row(forms, value) else {
        return;
    };
    out.put_all(row.words);
    if row.choice.is_none() {
        put_spaced(out, u32::from(value.kind));
    }
    if row.choice.is_none() || has_number(value.kind) {
        put_spaced(out, value.number);
    }
}

// A name behind a space, if there is one.
pub(crate) fn put_name<const N: usize>(out: &mut Room<N>, name: Option<Name>) {
    if let Some(name) = name {
        out.put_all(b" \"");
        out.put_all(name.as_bytes());
        out.put(b'"');
    }
}

// What an item of a form asks for. No field has the form of a line that only gives a name.
fn put_meaning<const N: usize>(
    out: &mut Room<N>,
    forms: &[u8],
    meaning: Meaning,
    known: &Known,
    field: &Field,
) {
    match meaning {
        Meaning::Word(word) => out.put_all(word),
        Meaning::Byte(place) => out.put_decimal(u64::from(field.byte(place as usize))),
        Meaning::Long(place) => out.put_decimal(u64::from(field.long(place))),
        Meaning::Value(place) => put_value(out, forms, field.value(place)),
        Meaning::Amount(place) => out.put_decimal(u64::from(field.value(place).number)),
        Meaning::Part { kind, place } => {
            let number = field.byte(place as usize);
            out.put_decimal(u64::from(number));
            put_name(out, known.name(Part { kind, number }));
        }
        Meaning::Own(kind) => out.put_decimal(u64::from(known.count(kind))),
        Meaning::OwnName(kind) => {
            let number = known.count(kind);
            put_name(out, known.name(Part { kind, number }));
        }
        Meaning::Named(_) => {}
    }
}

fn put_item<const N: usize>(
    out: &mut Room<N>,
    forms: &[u8],
    item: Item,
    known: &Known,
    field: &Field,
) {
    if item.spaced {
        out.put(b' ');
    }
    put_meaning(out, forms, item.meaning, known, field);
}

// The line of a field by a row.
pub(crate) fn put_form<const N: usize>(
    out: &mut Room<N>,
    forms: &[u8],
    row: Row,
    known: &Known,
    field: &Field,
) {
    for item in Items(row.words) {
        put_item(out, forms, item, known, field);
    }
}
