// A text of fixed room that grows by pieces, as far as it has room, and is shown in one write.
ghost use Rattle.std.specs.Prelude.{◌≤◌};

use wire::Wrote;

// The byte at a place, 0 past the end.
pub(crate) fn byte_at(s: &[u8], i: usize) -> u8 {
    s.get(i).copied().unwrap_or(0)
}

#[derive(Clone, Copy)]
pub struct Text<const ROOM: usize> {
    bytes: [u8; ROOM],
    size: usize,
    ghost inside: { size ≤ ROOM },
}

// Kept: no `write!`, as it stops at the first piece that finds no room, and `put` leaves that piece out and goes on; and names are bytes, not always a str.
impl<const ROOM: usize> Text<ROOM> {
    pub(crate) fn new() -> Self {
        Text {
            bytes: [0; ROOM],
            size: 0,
        }
    }

    pub(crate) fn len(&self) -> usize {
        self.size
    }

    pub(crate) fn as_bytes(&self) -> &[u8] {
        &self.bytes[..self.size]
    }

    // The bytes of s, all of them or, without room, none.
    pub(crate) fn put_all(&mut self, s: &[u8]) {
        if s.len() <= ROOM - self.size {
            let end = self.size + s.len();
            let bytes = &mut self.bytes[..];
            bytes[self.size..end].copy_from_slice(s);
            self.size = end;
        }
    }

    pub(crate) fn put(&mut self, words: &str) {
        self.put_all(words.as_bytes());
    }

    pub(crate) fn put_byte(&mut self, b: u8) {
        self.put_all(&[b]);
    }

    pub(crate) fn put_number(&mut self, n: u64) {
        let mut digits = [0u8; 20];
        if let Wrote::To(size) = lines::put_decimal(&mut digits, 0, n) {
            self.put_all(digits.get(..size).unwrap_or(&[]));
        }
    }

    // Words and a number behind them.
    pub(crate) fn put_with(&mut self, words: &str, n: u64) {
        self.put(words);
        self.put_number(n);
    }

    // Another byte in the place of one that was put.
    pub(crate) fn replace(&mut self, place: usize, b: u8) {
        if place < self.size {
            self.bytes[place] = b;
        }
    }

    // How many letters stand from a place on: a byte that goes on with a letter does not count.
    pub(crate) fn letters_from(&self, from: usize) -> usize {
        let behind = self.as_bytes().get(from..).unwrap_or(&[]);
        behind.iter().filter(|b| !matches!(**b, 128..=191)).count()
    }

    // Spaces behind what stands from a place on, until it is as wide as is said.
    fn pad(&mut self, from: usize, width: usize) {
        for _ in self.letters_from(from)..width {
            self.put_byte(b' ');
        }
    }

    // Ends a cell that begins at a place: it is made as wide as its column, and two spaces follow.
    pub(crate) fn end_cell(&mut self, from: usize, width: usize) {
        self.pad(from, width);
        self.put("  ");
    }

    // A number at the right end of so many letters.
    pub(crate) fn put_right(&mut self, n: u64, width: usize) {
        let mut digits = Text::<20>::new();
        digits.put_number(n);
        for _ in digits.len()..width {
            self.put_byte(b' ');
        }
        self.put_all(digits.as_bytes());
    }

    // The first bytes of s, 20 at most, each as two digits to the base 16 behind a space.
    pub(crate) fn put_bytes(&mut self, s: &[u8]) {
        for b in s.iter().take(MOST_BYTES) {
            self.put_all(&[b' ', digit(*b / 16), digit(*b % 16)]);
        }
        if MOST_BYTES <= s.len() {
            self.put(" ..");
        }
    }

    pub(crate) fn show<R: Print>(&self, rt: &R) {
        let _ = rt.write_all(self.as_bytes());
    }

    // Takes the spaces at its end away.
    fn trim(&mut self) {
        let text = self.as_bytes();
        let spaces = text.iter().rev().take_while(|b| **b == b' ').count();
        self.size = self.size.saturating_sub(spaces);
    }

    // Shows it as a line, without the spaces at its end.
    pub(crate) fn show_line<R: Print>(&mut self, rt: &R) {
        self.trim();
        self.put("\n");
        self.show(rt);
    }
}

const MOST_BYTES: usize = 20;

// The digit of a number below 16.
fn digit(n: u8) -> u8 {
    match n {
        0..=9 => b'0' + n,
        10..=15 => b'a' - 10 + n,
        _ => b'?',
    }
}

// Shows fixed words in one write.
pub(crate) fn say<R: Print>(rt: &R, words: &str) {
    let _ = rt.write_all(words.as_bytes());
}
