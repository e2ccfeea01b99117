// The rules that all steps share, as definitions: what a sound state is, what each code uses, and refusals 2 to 5. They stand in specs/; there is no code here.
#![tactic(auto)]

// What a code uses: who takes it, the tag of the kind of part that it names, the queueing of an element, its argument. By number, as the table of steps in specs/ says.
#[derive(Clone, Copy)]
pub struct Row {
    pub who: u8,
    pub part: u8,
    pub queueing: u8,
    pub argument: u8,
}

// Kept: numbers, since the definition rows (rules/specs/Rows.antt) is of numbers.
// Who takes a step.
pub const NOBODY: u8 = 0;

pub const A_SLOT: u8 = 1;

pub const SCHEDULER: u8 = 2;

// What it names: the tag of the kind of part, or none.
pub const NO_PART: u8 = 0;

// Which queueing an element is to have.
pub const ANYHOW: u8 = 0;

pub const UNQUEUED: u8 = 1;

pub const QUEUED: u8 = 2;

pub const COPIED: u8 = 3;

// Its argument.
pub const NOTHING: u8 = 0;

pub const A_PAYLOAD: u8 = 1;

pub const A_NUMBER: u8 = 2;

pub const A_TIME: u8 = 3;
