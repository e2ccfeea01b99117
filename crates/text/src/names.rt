// What is known of the parts of a text: how many of each kind there were, and their names.
ghost use Rattle.std.specs.Prelude.{◌<◌, ◌≤◌, IfSome};

// The longest name.
const LONGEST: usize = 32;

// How many kinds of parts can have names, and how many parts of a kind.
const NAMED_KINDS: u8 = 8;

const NAMED_PARTS: u8 = 16;

const NAMES: usize = NAMED_KINDS as usize * NAMED_PARTS as usize;

// A part, by its kind and its number.
#[derive(Clone, Copy)]
pub(crate) struct Part {
    pub kind: u8,
    pub number: u8,
}

impl Part {
    // Where its name stands, if it can have one.
    fn place(self) -> Option<usize>
        ensures { IfSome result (λ p. p < 128) }
    {
        if self.kind < NAMED_KINDS && self.number < NAMED_PARTS {
            return Some(self.kind as usize * NAMED_PARTS as usize + self.number as usize);
        }
        None
    }

    pub(crate) fn can_have_name(self) -> bool {
        self.place().is_some()
    }
}

// A name of 1 to 32 bytes, none a control character, and zeros behind it.
#[derive(Clone, Copy, PartialEq, Eq)]
pub(crate) struct Name {
    letters: [u8; LONGEST],
    size: usize,
    ghost within: { size ≤ 32 },
}

impl Name {
    // The bytes as a name, if they are one.
    pub(crate) fn of(bytes: &[u8]) -> Option<Name> {
        if bytes.is_empty() || LONGEST < bytes.len() || bytes.iter().any(|c| *c < b' ') {
            return None;
        }
        let mut letters = [0; LONGEST];
        letters[..bytes.len()].copy_from_slice(bytes);
        Some(Name {
            letters,
            size: bytes.len(),
        })
    }

    pub(crate) fn as_bytes(&self) -> &[u8] {
        &self.letters[..self.size]
    }
}

// How many parts of each kind there were, and the names of parts. Counting stops at 255.
#[derive(Clone, Copy)]
pub(crate) struct Known {
    counts: [u8; numbers::PART_KINDS as usize],
    names: [Option<Name>; NAMES],
}

impl Known {
    pub(crate) fn new() -> Known {
        Known {
            counts: [0; numbers::PART_KINDS as usize],
            names: [None; NAMES],
        }
    }

    // How many parts of a kind there were, and so the number of the next.
    pub(crate) fn count(&self, kind: u8) -> u8 {
        self.counts.get(kind as usize).copied().unwrap_or(0)
    }

    // A part more, if the tag is that of a part.
    pub(crate) fn count_tag(&mut self, tag: u8) {
        let Some(kind) = tag.checked_sub(numbers::TAG_RUNNABLE) else {
            return;
        };
        if kind < numbers::PART_KINDS {
            let i = kind as usize;
            self.counts[i] = self.counts[i].saturating_add(1);
        }
    }

    // The counts start again at 0, and the names stay.
    pub(crate) fn forget_counts(&mut self) {
        self.counts = [0; numbers::PART_KINDS as usize];
    }

    // The name of a part, if it has one.
    pub(crate) fn name(&self, part: Part) -> Option<Name> {
        self.names[part.place()?]
    }

    // The name of a part, if it can have one.
    pub(crate) fn keep(&mut self, part: Part, name: Name) {
        if let Some(place) = part.place() {
            self.names[place] = Some(name);
        }
    }
}
