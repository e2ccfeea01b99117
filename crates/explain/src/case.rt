// What is explained, and how.
use crate::names::Names;
use config::Config;

// What the call asks for: the text, the text with all steps, or a page.
#[derive(Clone, Copy, PartialEq, Eq)]
pub enum Asked {
    Text,
    All,
    Page,
}

impl Asked {
    // The word of the call, by its first letter: text, all or page.
    pub(crate) fn of(letter: u8) -> Asked {
        match letter {
            b'a' => Asked::All,
            b'p' => Asked::Page,
            _ => Asked::Text,
        }
    }

    pub(crate) fn is_all(self) -> bool {
        self == Asked::All
    }

    pub(crate) fn is_page(self) -> bool {
        self == Asked::Page
    }
}

// The configuration that was read, the recording, the operation that each accepted step is about, and the names of the parts.
#[derive(Clone, Copy)]
pub struct Case<'a> {
    pub cfg: Config,
    pub recording: &'a [u8],
    pub operations: &'a [Option<u8>],
    pub names: &'a Names,
    pub asked: Asked,
}
