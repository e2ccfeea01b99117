// Fields made of lines.
ghost use Rattle.std.specs.Prelude.{◌<◌, ◌≤◌, length, IfSome, OnOk};

use crate::field::{Field, Value};
use crate::forms::{Item, Items, Meaning, Row, Rows};
use crate::names::{Known, Name, Part};
use crate::putting::{NUMBER, has_number};

// What should stand at a place of a line.
#[derive(Clone, Copy)]
pub(crate) enum Expected<'f> {
    // This word of a form.
    Word(&'f [u8]),
    // A number up to 255.
    Byte,
    // A number up to 4,294,967,295.
    Long,
    Value,
    // This number.
    Number(u8),
    Name,
    // The name of this part.
    NameOf(Part),
    NoName,
    NumberAndName,
    End,
}

// Where a line is not as it should be: how much of it was left there, and what should have stood there.
#[derive(Clone, Copy)]
pub(crate) struct Missed<'f> {
    pub left: usize,
    pub expected: Expected<'f>,
}

// What a line says: its field, and the names that it gives to parts that had none. A line names two parts at most.
#[derive(Clone, Copy)]
pub(crate) struct Taken {
    pub field: Field,
    learned: [Option<(Part, Name)>; 2],
}

impl Taken {
    fn of_row(row: &Row) -> Taken {
        Taken {
            field: Field::of_row(row),
            learned: [None; 2],
        }
    }

    fn learn(&mut self, part: Part, name: Name) {
        let i = if self.learned[0].is_none() { 0 } else { 1 };
        self.learned[i] = Some((part, name));
    }

    // The names that the line gives are known from now on.
    pub(crate) fn tell(&self, known: &mut Known) {
        for (part, name) in self.learned.iter().flatten() {
            known.keep(*part, *name);
        }
    }
}

// What is left of a line.
#[derive(Clone, Copy)]
pub(crate) struct Line<'a> {
    rest: &'a [u8],
}

fn is_blank(c: u8) -> bool {
    matches!(c, b' ' | b'\t' | b'\r')
}

// How much of a line stands before its comment. In quotation marks `#` starts none.
pub(crate) fn before_comment(line: &[u8]) -> &[u8]
    ensures { length result.now ≤ length line.now }
{
    let mut quoted = false;
    for (i, c) in line.iter().enumerate() {
        match c {
            b'"' => quoted = !quoted,
            b'#' if !quoted => return &line[..i],
            _ => {}
        }
    }
    line
}

// A name in quotation marks, and what stands behind it.
fn split_name(quoted: &[u8]) -> Option<(Name, &[u8])> {
    let letters = quoted.strip_prefix(b"\"")?;
    let size = letters.iter().position(|c| *c == b'"')?;
    Some((Name::of(&letters[..size])?, &letters[size + 1..]))
}

// What an item of a form asks for.
fn asked<'f>(meaning: Meaning<'f>, known: &Known) -> Expected<'f> {
    match meaning {
        Meaning::Word(word) => Expected::Word(word),
        Meaning::Byte(_) | Meaning::Part { .. } | Meaning::Named(_) => Expected::Byte,
        Meaning::Long(_) | Meaning::Amount(_) => Expected::Long,
        Meaning::Value(_) => Expected::Value,
        Meaning::Own(kind) => Expected::Number(known.count(kind)),
        Meaning::OwnName(_) => Expected::Name,
    }
}

impl<'a> Line<'a> {
    pub(crate) fn of(text: &'a [u8]) -> Line<'a> {
        Line { rest: text }
    }

    // How much is left.
    pub(crate) fn left(&self) -> usize {
        self.rest.len()
    }

    fn missed<'f>(&self, expected: Expected<'f>) -> Missed<'f> {
        Missed {
            left: self.rest.len(),
            expected,
        }
    }

    pub(crate) fn skip_blanks(&mut self)
        ensures { length self.new.rest.now ≤ length self.old.rest.now }
    {
        let blanks = self.rest.iter().position(|c| !is_blank(*c));
        self.rest = &self.rest[blanks.unwrap_or(self.rest.len())..];
    }

    // A word or a number may end here.
    fn is_at_break(&self) -> bool {
        self.rest.first().is_none_or(|c| is_blank(*c))
    }

    // A word, up to a break.
    pub(crate) fn take_word<'f>(&mut self, word: &'f [u8]) -> Result<(), Missed<'f>> {
        match self.rest.strip_prefix(word) {
            Some(rest) if (Line { rest }).is_at_break() => {
                self.rest = rest;
                Ok(())
            }
            _ => Err(self.missed(Expected::Word(word))),
        }
    }

    // The digits of a number of 32 bits, up to a break.
    pub(crate) fn take_number(&mut self) -> Option<u32>
        ensures { IfSome result (λ _. length self.new.rest.now < length self.old.rest.now) }
    {
        let mut number: u32 = 0;
        let mut rest = self.rest;
        while let [d @ b'0'..=b'9', behind @ ..] = rest {
            number = number.checked_mul(10)?.checked_add(u32::from(*d - b'0'))?;
            rest = behind;
        }
        if rest.len() == self.rest.len() || !(Line { rest }).is_at_break() {
            return None;
        }
        self.rest = rest;
        Some(number)
    }

    // A number up to 255.
    pub(crate) fn take_byte<'f>(&mut self) -> Result<u8, Missed<'f>>
        ensures { OnOk result (length self.new.rest.now < length self.old.rest.now) }
    {
        let start = *self;
        match self.take_number() {
            Some(n) if n < 256 => Ok(n as u8),
            _ => Err(start.missed(Expected::Byte)),
        }
    }

    // A number of 32 bits.
    fn take_long<'f>(&mut self) -> Result<u32, Missed<'f>> {
        let start = *self;
        self.take_number().ok_or(start.missed(Expected::Long))
    }

    // Blanks and a number of 32 bits behind them.
    fn take_long_behind<'f>(&mut self) -> Result<u32, Missed<'f>> {
        self.skip_blanks();
        self.take_long()
    }

    // The word of a kind of value: its row.
    fn take_kind<'f>(&mut self, forms: &'f [u8]) -> Option<Row<'f>> {
        for row in Rows(forms) {
            if !row.is_line() && self.take_word(row.words).is_ok() {
                return Some(row);
            }
        }
        None
    }

    // A value. Behind the word for a bad one stand its kind and its number.
    fn take_value<'f>(&mut self, forms: &'f [u8]) -> Result<Value, Missed<'f>> {
        let Some(row) = self.take_kind(forms) else {
            return Err(self.missed(Expected::Value));
        };
        let Some(kind) = row.choice else {
            self.skip_blanks();
            let kind = self.take_byte()?;
            let number = self.take_long_behind()?;
            return Ok(Value { kind, number });
        };
        let number = if has_number(kind) {
            self.take_long_behind()?
        } else {
            0
        };
        Ok(Value { kind, number })
    }

    // The name of a part. One that has none yet gets it.
    fn take_name<'f>(
        &mut self,
        part: Part,
        known: &Known,
        taken: &mut Taken,
    ) -> Result<(), Missed<'f>> {
        let Some((name, rest)) = split_name(self.rest) else {
            return Err(self.missed(Expected::Name));
        };
        if !part.can_have_name() {
            return Err(self.missed(Expected::NoName));
        }
        match known.name(part) {
            None => taken.learn(part, name),
            Some(other) => {
                if other != name {
                    return Err(self.missed(Expected::NameOf(part)));
                }
            }
        }
        self.rest = rest;
        if self.is_at_break() {
            Ok(())
        } else {
            Err(self.missed(Expected::End))
        }
    }

    // The line without the blanks at its front, if a name stands behind them.
    fn at_name(self) -> Option<Line<'a>> {
        let mut ahead = self;
        ahead.skip_blanks();
        ahead.rest.starts_with(b"\"").then_some(ahead)
    }

    // A name that may be there or not.
    fn take_any_name<'f>(
        &mut self,
        part: Part,
        known: &Known,
        taken: &mut Taken,
    ) -> Result<(), Missed<'f>> {
        let Some(ahead) = self.at_name() else {
            return Ok(());
        };
        *self = ahead;
        self.take_name(part, known, taken)
    }

    // The number of a part of a kind and its name.
    fn take_named<'f>(
        &mut self,
        kind: u8,
        known: &Known,
        taken: &mut Taken,
    ) -> Result<(), Missed<'f>> {
        let start = *self;
        let number = self.take_byte()?;
        let Some(ahead) = self.at_name() else {
            return Err(start.missed(Expected::NumberAndName));
        };
        *self = ahead;
        self.take_name(Part { kind, number }, known, taken)
    }

    // The number that the part of this line has. At 255 counting has stopped, and there is none.
    fn take_own<'f>(&mut self, own: u8) -> Result<(), Missed<'f>> {
        let start = *self;
        match self.take_number() {
            Some(n) if own < 255 && n == u32::from(own) => Ok(()),
            _ => Err(start.missed(Expected::Number(own))),
        }
    }

    // What an item of a form asks for.
    fn take_meaning<'f>(
        &mut self,
        forms: &'f [u8],
        meaning: Meaning<'f>,
        known: &Known,
        taken: &mut Taken,
    ) -> Result<(), Missed<'f>> {
        match meaning {
            Meaning::Word(word) => return self.take_word(word),
            Meaning::Byte(place) => taken.field.set(place as usize, self.take_byte()?),
            Meaning::Long(place) => taken.field.set_long(place, self.take_long()?),
            Meaning::Value(place) => taken.field.set_value(place, self.take_value(forms)?),
            Meaning::Amount(place) => {
                let number = self.take_long()?;
                taken.field.set_value(
                    place,
                    Value {
                        kind: NUMBER,
                        number,
                    },
                );
            }
            Meaning::Part { kind, place } => {
                let number = self.take_byte()?;
                taken.field.set(place as usize, number);
                return self.take_any_name(Part { kind, number }, known, taken);
            }
            Meaning::Own(kind) => return self.take_own(known.count(kind)),
            Meaning::OwnName(kind) => {
                let number = known.count(kind);
                return self.take_any_name(Part { kind, number }, known, taken);
            }
            Meaning::Named(kind) => return self.take_named(kind, known, taken),
        }
        Ok(())
    }

    // An item of a form, and the blanks before it, if it asks for some.
    fn take_item<'f>(
        &mut self,
        forms: &'f [u8],
        item: Item<'f>,
        known: &Known,
        taken: &mut Taken,
    ) -> Result<(), Missed<'f>> {
        if item.spaced {
            let start = *self;
            self.skip_blanks();
            if self.left() == start.left() {
                return Err(self.missed(asked(item.meaning, known)));
            }
        }
        self.take_meaning(forms, item.meaning, known, taken)
    }

    // A whole line, by a row.
    pub(crate) fn take_row<'f>(
        mut self,
        forms: &'f [u8],
        row: Row<'f>,
        known: &Known,
    ) -> Result<Taken, Missed<'f>> {
        let mut taken = Taken::of_row(&row);
        self.skip_blanks();
        for item in Items(row.words) {
            self.take_item(forms, item, known, &mut taken)?;
        }
        self.skip_blanks();
        if self.rest.is_empty() {
            Ok(taken)
        } else {
            Err(self.missed(Expected::End))
        }
    }
}
