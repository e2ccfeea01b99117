// The calls of a recording as its steps go by: for each operation its latest call, where it stands, where it ended and how, and what came too late; and for
// each slot whether its instance has failed.
use crate::case::Case;
use config::OperationConf;
use recording::Field;
use state::{Slot, State};
use values::{Step, Value};

// The most steps that are looked at.
pub const MOST: usize = 4096;

// How a call ended: by its timeout, or by the instance in a slot, which handed something back or had failed.
#[derive(Clone, Copy)]
pub enum How {
    TimedOut,
    HandedBack(u8, Value),
    Failed(u8),
}

// The step that ended a call, and how.
#[derive(Clone, Copy)]
pub struct Ended {
    pub place: usize,
    pub how: How,
}

// A call: its step, who called and when, its end, and the step that handed something back too late.
#[derive(Clone, Copy)]
pub struct Told {
    pub called: usize,
    pub caller: u8,
    pub at: u64,
    pub ended: Option<Ended>,
    pub late: Option<usize>,
}

#[derive(Clone, Copy)]
pub struct Calls {
    of: [Option<Told>; Calls::OPERATIONS],
    failed: [bool; Calls::SLOTS],
}

impl Calls {
    pub const OPERATIONS: usize = OperationConf::MAX;

    const SLOTS: usize = Slot::MAX;

    pub const NONE: Calls = Calls {
        of: [None; Calls::OPERATIONS],
        failed: [false; Calls::SLOTS],
    };

    // The latest call of an operation.
    pub(crate) fn get(&self, o: u8) -> Option<Told> {
        self.of.get(o as usize).copied().flatten()
    }

    fn has_failed(&self, i: u8) -> bool {
        self.failed.get(i as usize).copied().unwrap_or(false)
    }

    // The instance in a slot fails, or a new one starts there.
    fn mark(&mut self, i: u32, failed: bool) {
        if let Some(mark) = self.failed.get_mut(i as usize) {
            *mark = failed;
        }
    }

    // A call starts: nothing of the one before it is kept.
    fn start(&mut self, o: u8, called: usize, caller: u8, at: u64) {
        if let Some(told) = self.of.get_mut(o as usize) {
            *told = Some(Told {
                called,
                caller,
                at,
                ended: None,
                late: None,
            });
        }
    }

    fn end(&mut self, o: u8, place: usize, how: How) {
        if let Some(Some(told)) = self.of.get_mut(o as usize) {
            told.ended = Some(Ended { place, how });
        }
    }

    // An instance that has failed ends its call with ServerErr, whatever it hands back.
    fn hand_back(&mut self, o: u8, place: usize, by: u8, v: Value) {
        if self.has_failed(by) {
            self.end(o, place, How::Failed(by));
        } else {
            self.end(o, place, How::HandedBack(by, v));
        }
    }

    fn come_late(&mut self, o: u8, place: usize) {
        if let Some(Some(told)) = self.of.get_mut(o as usize) {
            told.late = Some(place);
        }
    }

    // After an accepted step about this operation: a call answered Ok starts one, a timeout and a hand back answered 1 end one, a hand back answered 0 is
    // late; a fail marks its slot, and a spawn takes the mark away.
    pub(crate) fn after(&mut self, about: Option<u8>, s: Step, place: usize, ms: u64) {
        let claim = s.claim;
        match (s.code, about) {
            (numbers::CODE_CALL, Some(o)) if claim.kind == Value::OK.kind => {
                self.start(o, place, s.who, ms);
            }
            (numbers::CODE_TIMEOUT, Some(o)) => self.end(o, place, How::TimedOut),
            (numbers::CODE_HAND_BACK, Some(o)) if claim.number == 1 => {
                self.hand_back(o, place, s.who, s.argument);
            }
            (numbers::CODE_HAND_BACK, Some(o)) => self.come_late(o, place),
            (numbers::CODE_SPAWN, _) => self.mark(claim.number, false),
            (numbers::CODE_FAIL, _) => self.mark(s.who as u32, true),
            _ => {}
        }
    }
}

// The step in the 16 bytes of a field, if it is one.
pub(crate) fn step_in(field: &[u8]) -> Option<Step> {
    match recording::read_field(field, 0) {
        Field::Step(x, _) => Some(x),
        _ => None,
    }
}

// The operation that a step is about: a hand back is about the one whose call its instance serves.
fn operation_of(st: State, s: Step) -> Option<u8> {
    match s.code {
        numbers::CODE_CALL | numbers::CODE_RESULT | numbers::CODE_TIMEOUT => Some(s.what),
        numbers::CODE_HAND_BACK => served(st, s.who),
        _ => None,
    }
}

// Notes for each accepted step the operation that it is about; the state that they lead to.
pub(crate) fn note_operations(case: Case, operations: &mut [Option<u8>]) -> State {
    let mut st = State::start(case.cfg);
    let recording = case.recording;
    let steps = recording
        .chunks_exact(numbers::SIZE_STEP)
        .map_while(step_in);
    for (x, o) in steps.zip(operations.iter_mut()) {
        *o = operation_of(st, x);
        st = machine::inner(case.cfg, st, x).state;
    }
    st
}

// The calls after the accepted steps.
pub(crate) fn calls_of(case: Case) -> Calls {
    let mut calls = Calls::NONE;
    let recording = case.recording;
    let steps = recording
        .chunks_exact(numbers::SIZE_STEP)
        .map_while(step_in);
    for (k, (x, o)) in steps.zip(case.operations).enumerate() {
        calls.after(*o, x, k + 1, 0);
    }
    calls
}

// The operation whose call the instance in a slot serves.
pub(crate) fn served(st: State, i: u8) -> Option<u8> {
    let owed = st.slots.get(i).owed;
    if owed.serving {
        Some(owed.client.operation)
    } else {
        None
    }
}

// The slot whose instance waits on an operation, and so has not collected yet.
pub(crate) fn waiter(st: State, o: u8) -> Option<u8> {
    for i in 0..Slot::MAX as u8 {
        let awaited = st.slots.get(i).life.awaited;
        if awaited.part == numbers::TAG_OPERATION && awaited.on == o {
            return Some(i);
        }
    }
    None
}

// The time after a step.
pub(crate) fn later(ms: u64, s: Step) -> u64 {
    if s.code == numbers::CODE_WAIT {
        ms.saturating_add(s.argument.number as u64)
    } else {
        ms
    }
}
