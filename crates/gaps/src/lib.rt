// Gaps in a recording, where steps of the scheduler were lost: definitions alone, and the types that they speak of.

#![tactic(auto)]

// How long a note of the report is.
pub const NOTE: usize = 16;

// How many parts there are to spawn, to time out and to tick.
#[derive(Clone, Copy)]
pub struct Choices {
    pub spawns: u8,
    pub timeouts: u8,
    pub ticks: u8,
}

// Mended, with the steps of the text and the notes of the report; or refused, with a place and a number.
#[derive(Clone, Copy)]
pub enum Mended {
    Whole(usize, usize),
    Refused(usize, u8),
}
