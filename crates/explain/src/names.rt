// Names of parts, as they are shown, of 16 parts of eight kinds.
// A name is made harmless once, where it is taken: no control character is kept, and for a page nothing that could be markup.
ghost use Rattle.std.specs.Prelude.{◌<◌, ◌≤◌, IfSome};

use crate::putting::{Text, byte_at};

// Of a name 32 bytes are kept, and on a page each takes six at most.
type Name = Text<200>;

const LETTERS: usize = 32;

const KINDS: usize = 8;

const EACH: usize = 16;

const PARTS: usize = KINDS * EACH;

#[derive(Clone, Copy)]
pub struct Names {
    of: [Name; PARTS],
}

impl Names {
    pub(crate) fn new() -> Names {
        Names {
            of: [Text::new(); PARTS],
        }
    }

    // The name of a part; no bytes where it has none.
    pub(crate) fn name_of(&self, tag: u8, number: u8) -> &[u8] {
        match self.of.get(place_of(tag, number)) {
            Some(name) => name.as_bytes(),
            None => &[],
        }
    }

    // Takes every name line of a text.
    pub(crate) fn take(&mut self, text: &[u8], page: bool) {
        let mut rest = text;
        for _ in 0..4096 {
            if rest.is_empty() {
                return;
            }
            self.take_line(rest, page);
            rest = next_line(rest);
        }
    }

    // Takes the line at the front of a text, if it names a part.
    fn take_line(&mut self, text: &[u8], page: bool) {
        if let Some((tag, rest)) = kind_in(without_blanks(text)) {
            if let Some((number, rest)) = number_in(without_blanks(rest)) {
                if let Some((b'"', quoted)) = without_blanks(rest).split_first() {
                    self.keep(tag, number, quoted, page);
                }
            }
        }
    }

    // Keeps the name at the front of a text, which ends at the next quotation mark.
    fn keep(&mut self, tag: u8, number: u8, text: &[u8], page: bool) {
        if let Some(name) = self.of.get_mut(place_of(tag, number)) {
            *name = shown(text, page);
        }
    }
}

// Where the name of a part stands; past the end if it can't have one.
fn place_of(tag: u8, number: u8) -> usize
    ensures { result ≤ 128 }
{
    match tag {
        numbers::TAG_RUNNABLE..=numbers::TAG_TIMER if (number as usize) < EACH => {
            (tag - numbers::TAG_RUNNABLE) as usize * EACH + number as usize
        }
        _ => PARTS,
    }
}

// The words of the kinds of parts that can be named, with their tags.
const WORDS: [(&str, u8); 7] = [
    ("runnable ", numbers::TAG_RUNNABLE),
    ("variable ", numbers::TAG_VARIABLE),
    ("area ", numbers::TAG_AREA),
    ("required ", numbers::TAG_REQUIRED),
    ("provided ", numbers::TAG_PROVIDED),
    ("operation ", numbers::TAG_OPERATION),
    ("timer ", numbers::TAG_TIMER),
];

// The kind of part that a text begins with, and what follows.
fn kind_in(text: &[u8]) -> Option<(u8, &[u8])> {
    for (word, tag) in WORDS {
        if let Some(rest) = text.strip_prefix(word.as_bytes()) {
            return Some((tag, rest));
        }
    }
    None
}

// The number of one or two digits that a text begins with, and what follows.
fn number_in(text: &[u8]) -> Option<(u8, &[u8])> {
    let (high, rest) = digit_in(text)?;
    match digit_in(rest) {
        Some((low, behind)) => Some((high * 10 + low, behind)),
        None => Some((high, rest)),
    }
}

fn digit_in(text: &[u8]) -> Option<(u8, &[u8])>
    ensures { IfSome result (λ p. p.0 < 10) }
{
    match text.split_first() {
        Some((b @ b'0'..=b'9', rest)) => Some((*b - b'0', rest)),
        _ => None,
    }
}

// A text from its first byte on that is no blank.
fn without_blanks(text: &[u8]) -> &[u8] {
    let n = text
        .iter()
        .position(|b| !matches!(*b, b' ' | b'\t'))
        .unwrap_or(text.len());
    &text[n..]
}

// A text behind its next line feed.
fn next_line(text: &[u8]) -> &[u8] {
    match text.iter().position(|b| *b == b'\n') {
        Some(n) => &text[n + 1..],
        None => &[],
    }
}

// The name at the front of a text as it is shown. One that the text does not end is filled up.
fn shown(text: &[u8], page: bool) -> Name {
    let mut name = Text::new();
    let mut before: u8 = 0;
    for i in 0..LETTERS {
        let b = byte_at(text, i);
        if matches!(b, b'"' | b'\n') {
            return name;
        }
        put_letter(&mut name, b, before, page);
        before = b;
    }
    name
}

// A letter of a name. A line, or a page, can't be changed by it.
fn put_letter(name: &mut Name, b: u8, before: u8, page: bool) {
    if b < 32 || b == 127 || before == 0xc2 && b < 0xa0 {
        name.put("?");
    } else if page {
        put_escaped(name, b);
    } else {
        name.put_byte(b);
    }
}

fn put_escaped(name: &mut Name, b: u8) {
    match b {
        b'&' => name.put("&amp;"),
        b'<' => name.put("&lt;"),
        b'>' => name.put("&gt;"),
        b'"' => name.put("&quot;"),
        b'\'' => name.put("&#39;"),
        _ => name.put_byte(b),
    }
}
