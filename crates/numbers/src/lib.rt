// The numbers that the documents give, for code: numbers of refusal, codes of steps, and the tags of fields with the lengths of their bodies.
// specs/ has them for definitions, by the same stems.
#![tactic(auto)]

// Refusals of a step and of a field of a recording.
pub const NOT_SOUND: u8 = 1;

pub const MALFORMED: u8 = 2;

pub const NOT_THERE: u8 = 3;

pub const NOT_OWN: u8 = 4;

pub const BARRED: u8 = 5;

pub const AREA_TAKEN: u8 = 6;

pub const NOT_ON_TOP: u8 = 7;

pub const QUEUE_FULL: u8 = 8;

pub const STILL_WAITS: u8 = 10;

pub const NOT_DUE: u8 = 11;

pub const NO_SLOT_FREE: u8 = 12;

pub const TOO_FAR: u8 = 13;

pub const NOT_OVER: u8 = 14;

pub const AREAS_HELD: u8 = 15;

pub const WRONG_CLIENT: u8 = 16;

pub const OTHER_ANSWER: u8 = 17;

pub const BAD_FIELD: u8 = 18;

// In the place of 9, which has been retired.
pub const NUMBER_BORNE: u8 = 28;

// The edition of the configuration has no such step.
pub const STEP_GONE: u8 = 30;

// Refusals in reading and writing files, and in mending.
pub const BAD_FRAME: u8 = 21;

pub const BAD_ORDER: u8 = 22;

pub const TOO_MANY: u8 = 23;

pub const OUT_OF_RANGE: u8 = 24;

pub const NAMES_NOTHING: u8 = 25;

pub const BAD_PAIR: u8 = 26;

pub const NO_ROOM: u8 = 27;

pub const NO_FILL: u8 = 31;

// Codes of steps: of an instance, then of the scheduler; then those that were added, each of an instance.
pub const CODE_READ_VARIABLE: u8 = 1;

pub const CODE_WRITE_VARIABLE: u8 = 2;

pub const CODE_ENTER: u8 = 3;

pub const CODE_EXIT: u8 = 4;

pub const CODE_READ: u8 = 5;

pub const CODE_WRITE: u8 = 6;

pub const CODE_UPDATED: u8 = 7;

pub const CODE_INVALIDATE: u8 = 8;

pub const CODE_RECEIVE: u8 = 9;

pub const CODE_SEND: u8 = 10;

pub const CODE_CALL: u8 = 11;

pub const CODE_RESULT: u8 = 12;

pub const CODE_HAND_BACK: u8 = 13;

pub const CODE_END: u8 = 14;

pub const CODE_SPAWN: u8 = 15;

pub const CODE_TIMEOUT: u8 = 16;

pub const CODE_TICK: u8 = 17;

pub const CODE_WAIT: u8 = 18;

pub const CODE_FAIL: u8 = 19;

pub const CODE_HOLD: u8 = 20;

pub const CODE_GIVE_UP: u8 = 21;

pub const CODE_READ_COPY: u8 = 22;

pub const CODE_WRITE_COPY: u8 = 23;

// Tags of fields.
pub const TAG_EDITION: u8 = 0x01;

pub const TAG_RUNNABLE: u8 = 0x10;

pub const TAG_VARIABLE: u8 = 0x11;

pub const TAG_AREA: u8 = 0x12;

pub const TAG_REQUIRED: u8 = 0x13;

pub const TAG_PROVIDED: u8 = 0x14;

pub const TAG_LINK: u8 = 0x15;

pub const TAG_OPERATION: u8 = 0x16;

pub const TAG_TIMER: u8 = 0x17;

pub const TAG_DATA_EVENT: u8 = 0x18;

pub const TAG_RETURN_EVENT: u8 = 0x19;

pub const TAG_INCOMING: u8 = 0x1a;

pub const TAG_OUTGOING: u8 = 0x1b;

pub const TAG_STEP: u8 = 0x40;

pub const TAG_END: u8 = 0x7f;

// Lengths of their bodies.
pub const LENGTH_EDITION: usize = 1;

pub const LENGTH_RUNNABLE: usize = 7;

pub const LENGTH_VARIABLE: usize = 6;

pub const LENGTH_AREA: usize = 1;

pub const LENGTH_REQUIRED: usize = 2;

pub const LENGTH_PROVIDED: usize = 2;

pub const LENGTH_LINK: usize = 2;

pub const LENGTH_OPERATION: usize = 7;

pub const LENGTH_TIMER: usize = 5;

pub const LENGTH_DATA_EVENT: usize = 2;

pub const LENGTH_RETURN_EVENT: usize = 2;

pub const LENGTH_LISTED: usize = 2;

pub const LENGTH_STEP: usize = 13;

pub const LENGTH_END: usize = 0;

// The bytes of a field before its body: tag and length.
pub const HEAD: usize = 3;

// The length of an element's, a link's, an event's or a listed element's body.
pub const LENGTH_PAIR: usize = 2;

// More than two bytes can say: no field has this length.
pub const NO_LENGTH: usize = 65536;

// How many kinds of parts there are, with the tags from 10 on.
pub const PART_KINDS: u8 = 12;

// The bytes of whole fields.
pub const SIZE_RUNNABLE: u8 = (HEAD + LENGTH_RUNNABLE) as u8;

pub const SIZE_VARIABLE: u8 = (HEAD + LENGTH_VARIABLE) as u8;

pub const SIZE_AREA: u8 = (HEAD + LENGTH_AREA) as u8;

pub const SIZE_OPERATION: u8 = (HEAD + LENGTH_OPERATION) as u8;

pub const SIZE_TIMER: u8 = (HEAD + LENGTH_TIMER) as u8;

pub const SIZE_PAIR: u8 = (HEAD + LENGTH_PAIR) as u8;

pub const SIZE_STEP: usize = HEAD + LENGTH_STEP;

pub const SIZE_END: usize = HEAD + LENGTH_END;
