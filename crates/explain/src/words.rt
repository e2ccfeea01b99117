// Values, parts and steps in the words of the text form.
use crate::names::Names;
use crate::putting::Text;
use values::{Step, Value};

// What a row of the table of codes says (refusals::row_of): the step is of an instance; its argument is none, a payload or a time.
const A_SLOT: u8 = 1;

pub const NOTHING: u8 = 0;

pub const A_PAYLOAD: u8 = 1;

pub const A_TIME: u8 = 3;

// The kinds of values that have a number, and those that have none.
const VOID: u8 = Value::VOID.kind;

const NUMBER: u8 = 1;

const OK: u8 = Value::OK.kind;

const LIMIT: u8 = Value::LIMIT.kind;

const NO_DATA: u8 = Value::NO_DATA.kind;

const TIMEOUT: u8 = Value::TIMEOUT.kind;

const NEVER_RECEIVED: u8 = Value::NEVER_RECEIVED.kind;

const INVALID: u8 = Value::INVALID.kind;

const FULL: u8 = 8;

const SERVER_ERR: u8 = Value::SERVER_ERR.kind;

impl<const ROOM: usize> Text<ROOM> {
    pub(crate) fn put_value(&mut self, v: Value) {
        match v.kind {
            VOID => self.put("Void"),
            NUMBER => self.put_with("Number ", v.number as u64),
            OK => self.put("Ok"),
            LIMIT => self.put("Limit"),
            NO_DATA => self.put("NoData"),
            TIMEOUT => self.put("Timeout"),
            NEVER_RECEIVED => self.put("NeverReceived"),
            INVALID => self.put("Invalid"),
            FULL => self.put_with("Full ", v.number as u64),
            SERVER_ERR => self.put("ServerErr"),
            kind => self.put_with("a bad value of kind ", kind as u64),
        }
    }

    // The word for a kind of part, by its tag.
    pub(crate) fn put_kind(&mut self, tag: u8) {
        self.put(match tag {
            numbers::TAG_EDITION => "edition",
            numbers::TAG_RUNNABLE => "runnable",
            numbers::TAG_VARIABLE => "variable",
            numbers::TAG_AREA => "area",
            numbers::TAG_REQUIRED => "required",
            numbers::TAG_PROVIDED => "provided",
            numbers::TAG_LINK => "link",
            numbers::TAG_OPERATION => "operation",
            numbers::TAG_TIMER => "timer",
            numbers::TAG_DATA_EVENT => "data event",
            numbers::TAG_RETURN_EVENT => "return event",
            numbers::TAG_INCOMING => "incoming",
            numbers::TAG_OUTGOING => "outgoing",
            numbers::TAG_END => "end",
            _ => "part",
        });
    }

    // A part: its kind, its number and its name.
    pub(crate) fn put_part(&mut self, names: &Names, tag: u8, number: u8) {
        self.put_kind(tag);
        self.put_with(" ", number as u64);
        self.put_name(names, tag, number);
    }

    // The name of a part, behind a space and in quotation marks, if it has one.
    fn put_name(&mut self, names: &Names, tag: u8, number: u8) {
        let name = names.name_of(tag, number);
        if !name.is_empty() {
            self.put(" \"");
            self.put_all(name);
            self.put("\"");
        }
    }

    pub(crate) fn put_slot(&mut self, i: u8) {
        self.put_with("slot ", i as u64);
    }

    // The verb of a code.
    fn put_verb(&mut self, code: u8) {
        self.put(match code {
            numbers::CODE_READ_VARIABLE | numbers::CODE_READ => "read",
            numbers::CODE_WRITE_VARIABLE | numbers::CODE_WRITE => "write",
            numbers::CODE_ENTER => "enter",
            numbers::CODE_EXIT => "exit",
            numbers::CODE_UPDATED => "updated",
            numbers::CODE_INVALIDATE => "invalidate",
            numbers::CODE_RECEIVE => "receive",
            numbers::CODE_SEND => "send",
            numbers::CODE_CALL => "call",
            numbers::CODE_RESULT => "result",
            numbers::CODE_HAND_BACK => "hand back",
            numbers::CODE_END => "end",
            numbers::CODE_SPAWN => "spawn",
            numbers::CODE_TIMEOUT => "timeout",
            numbers::CODE_TICK => "tick",
            numbers::CODE_WAIT => "wait",
            numbers::CODE_FAIL => "fail",
            numbers::CODE_HOLD => "hold",
            numbers::CODE_GIVE_UP => "give up",
            numbers::CODE_READ_COPY => "read copy",
            numbers::CODE_WRITE_COPY => "write copy",
            _ => return self.put_with("step of code ", code as u64),
        });
    }

    // What a step does, with what it hands over left open.
    pub(crate) fn put_option(&mut self, names: &Names, s: Step) {
        self.put_verb(s.code);
        let tag = refusals::row_of(s.code).part;
        if 0 < tag {
            self.put(" ");
            self.put_part(names, tag, s.what);
        }
    }

    // What a step does, without who and without its answer.
    pub(crate) fn put_deed(&mut self, names: &Names, s: Step) {
        self.put_option(names, s);
        self.put_argument(s);
    }

    fn put_argument(&mut self, s: Step) {
        let v = s.argument;
        if s.code == numbers::CODE_WAIT {
            return self.put_with(" ", v.number as u64);
        }
        match refusals::row_of(s.code).argument {
            A_PAYLOAD => {
                self.put(" ");
                self.put_value(v);
            }
            A_TIME => self.put_with(" for ", v.number as u64),
            _ => {}
        }
    }

    // The queues of a mask.
    fn put_full(&mut self, names: &Names, mask: u32) {
        self.put("Full");
        let mut before = ": ";
        for q in 0u8..16 {
            if mask >> q & 1 == 1 {
                self.put(before);
                self.put_part(names, numbers::TAG_REQUIRED, q);
                before = ", ";
            }
        }
    }

    // What a step answers: a Full names its queues.
    pub(crate) fn put_answered(&mut self, names: &Names, v: Value) {
        if v.says_full() {
            self.put_full(names, v.number);
        } else {
            self.put_value(v);
        }
    }

    // An answer behind an arrow; Void goes without saying.
    pub(crate) fn put_answer(&mut self, names: &Names, v: Value) {
        if !v.is_void() {
            self.put(" -> ");
            self.put_answered(names, v);
        }
    }

    // Who takes a step.
    pub(crate) fn put_who(&mut self, s: Step) {
        if is_slots(s.code) {
            self.put_slot(s.who);
        } else {
            self.put("the scheduler");
        }
    }

    // So many things of a name, which ends in s where there are several.
    pub(crate) fn put_count(&mut self, n: u64, name: &str) {
        self.put_number(n);
        self.put(" ");
        self.put(name);
        if n != 1 {
            self.put("s");
        }
    }
}

// A code is that of a step which the instance in a slot takes.
pub(crate) fn is_slots(code: u8) -> bool {
    refusals::row_of(code).who == A_SLOT
}
