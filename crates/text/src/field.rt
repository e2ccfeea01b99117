// Fields: a tag, and a body.
ghost use Rattle.std.specs.Prelude.{◌≡◌, ◌≤◌, ◌++◌, Some, length, take, drop, replicate, min};

use crate::forms::{Row, Subject, choosing, size_of};
use crate::room::Room;

// The longest body.
const BODY: usize = numbers::LENGTH_STEP;

// A value: its kind, and a number, 0 where its kind has none.
#[derive(Clone, Copy)]
pub(crate) struct Value {
    pub kind: u8,
    pub number: u32,
}

// A field, with zeros behind its body. What a line makes that only gives a part its name has no tag.
#[derive(Clone, Copy, PartialEq, Eq)]
pub(crate) struct Field {
    tag: Option<u8>,
    body: [u8; BODY],
}

impl Field {
    // The field of a row before its line is taken: its tag, and the byte that chooses.
    pub(crate) fn of_row(row: &Row) -> Field {
        let mut field = Field {
            tag: None,
            body: [0; BODY],
        };
        if let Subject::Field(tag) = row.subject {
            field.tag = Some(tag);
            if let Some(choice) = row.choice {
                field.body[choosing(tag)] = choice;
            }
        }
        field
    }

    // The field that a file has with this tag and this body.
    pub(crate) fn of_file(tag: u8, body: &[u8]) -> Field
        ensures tagged { result.tag ≡ Some tag }
        ensures same_body { result.body ≡ take (min (length body.now) 13) body.now ++ drop (min (length body.now) 13) (replicate 13 0) }
    {
        let mut all = [0; BODY];
        let size = body.len().min(BODY);
        all[..size].copy_from_slice(&body[..size]);
        Field {
            tag: Some(tag),
            body: all,
        }
    }

    pub(crate) fn tag(&self) -> Option<u8> {
        self.tag
    }

    // The row may be that of the field, by its tag and the byte that chooses.
    pub(crate) fn may_be_of(&self, row: &Row) -> bool {
        let Some(tag) = self.tag else {
            return false;
        };
        let chosen = self.body[choosing(tag)];
        row.subject == Subject::Field(tag) && row.choice.is_none_or(|choice| choice == chosen)
    }

    // The byte at a place of the body, or 0 past its end.
    pub(crate) fn byte(&self, place: usize) -> u8 {
        self.body.get(place).copied().unwrap_or(0)
    }

    // The number in four bytes from a place on.
    fn long_from(&self, from: usize) -> u32
        requires { from ≤ 256 }
    {
        u32::from_be_bytes([
            self.byte(from),
            self.byte(from + 1),
            self.byte(from + 2),
            self.byte(from + 3),
        ])
    }

    pub(crate) fn long(&self, place: u8) -> u32 {
        self.long_from(place as usize)
    }

    // The value in five bytes from a place on.
    pub(crate) fn value(&self, place: u8) -> Value {
        Value {
            kind: self.byte(place as usize),
            number: self.long_from(place as usize + 1),
        }
    }

    // A byte of the body, where there is room.
    pub(crate) fn set(&mut self, place: usize, b: u8) {
        if place < BODY {
            self.body[place] = b;
        }
    }

    fn set_long_from(&mut self, from: usize, n: u32)
        requires { from ≤ 256 }
    {
        for (i, b) in n.to_be_bytes().iter().enumerate() {
            self.set(from + i, *b);
        }
    }

    pub(crate) fn set_long(&mut self, place: u8, n: u32) {
        self.set_long_from(place as usize, n);
    }

    pub(crate) fn set_value(&mut self, place: u8, value: Value) {
        self.set(place as usize, value.kind);
        self.set_long_from(place as usize + 1, value.number);
    }

    // The bytes of the field: its tag, its length in two bytes, and its body.
    pub(crate) fn put<const N: usize>(&self, out: &mut Room<N>) {
        let Some(tag) = self.tag else {
            return;
        };
        let Some(size) = size_of(tag) else {
            return;
        };
        out.put(tag);
        out.put(0);
        out.put(size as u8);
        out.put_all(&self.body[..size]);
    }
}
