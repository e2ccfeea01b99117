// The steps as a table: a row for each, with the time that has passed, the scheduler, a lane for each slot, and the operations that matter.
use crate::calls::{later, step_in, waiter};
use crate::case::Case;
use crate::names::Names;
use crate::putting::Text;
use crate::words::is_slots;
use config::{Config, OperationConf};
use state::{Slot, State};
use values::{Answer, Step, Value};
use whys::Cause;

// How wide each column is; 0 for one that is not shown.
#[derive(Clone, Copy)]
pub struct Widths {
    pub scheduler: usize,
    lanes: [usize; Widths::LANES],
    operations: [usize; Widths::OPERATIONS],
}

impl Widths {
    const LANES: usize = Slot::MAX;

    const OPERATIONS: usize = OperationConf::MAX;

    const NONE: Widths = Widths {
        scheduler: 9,
        lanes: [0; Widths::LANES],
        operations: [0; Widths::OPERATIONS],
    };

    // One column for all slots.
    const SHARED: usize = 52;

    pub(crate) fn lane(&self, i: u8) -> usize {
        self.lanes.get(i as usize).copied().unwrap_or(0)
    }

    pub(crate) fn operation(&self, o: u8) -> usize {
        self.operations.get(o as usize).copied().unwrap_or(0)
    }

    // More than four lanes share one column.
    fn are_shared(&self) -> bool {
        4 < self.lanes.iter().filter(|width| **width != 0).count()
    }

    fn widen_lane(&mut self, i: u32, n: usize) {
        if let Some(width) = self.lanes.get_mut(i as usize) {
            *width = n.max(*width).max(8);
        }
    }

    fn widen_operation(&mut self, o: u8, n: usize) {
        if let Some(width) = self.operations.get_mut(o as usize) {
            *width = n.max(*width).max(12);
        }
    }

    // The columns with room for one more row. Of an operation that the step is about 20 letters have room for its longest count.
    fn widen(&mut self, case: Case, row: Row) {
        let x = row.step;
        let n = cell_width(case, row);
        if is_slots(x.code) {
            self.widen_lane(x.who as u32, n);
        } else {
            self.scheduler = self.scheduler.max(done_width(case.names, x));
            if x.code == numbers::CODE_SPAWN {
                self.widen_lane(x.claim.number, n);
            }
        }
        if let Some(o) = row.operation {
            self.widen_operation(o, operation_width(row.after, o).max(20));
        }
    }
}

// What the refused step is about.
#[derive(Clone, Copy)]
pub struct Focus {
    pub slot: Option<u8>,
    pub operation: Option<u8>,
    pub runnable: Option<u8>,
    pub area: Option<u8>,
    pub timer: Option<u8>,
}

impl Focus {
    pub const NONE: Focus = Focus {
        slot: None,
        operation: None,
        runnable: None,
        area: None,
        timer: None,
    };

    fn bears_slot(self, s: Step) -> bool {
        if is_slots(s.code) {
            return self.slot == Some(s.who);
        }
        s.code == numbers::CODE_SPAWN
            && (self.slot.is_some_and(|i| i as u32 == s.claim.number)
                || self.runnable == Some(s.what))
    }

    fn bears_part(self, o: Option<u8>, s: Step) -> bool {
        match s.code {
            numbers::CODE_ENTER | numbers::CODE_EXIT => self.area == Some(s.what),
            numbers::CODE_CALL
            | numbers::CODE_RESULT
            | numbers::CODE_HAND_BACK
            | numbers::CODE_TIMEOUT => self.operation == o,
            numbers::CODE_TICK => self.timer == Some(s.what),
            numbers::CODE_WAIT => true,
            _ => false,
        }
    }

    // Whether a step, which is about this operation, bears on it.
    fn bears(self, o: Option<u8>, s: Step) -> bool {
        self.bears_slot(s) || self.bears_part(o, s)
    }
}

// Which accepted steps are shown: all, or those that bear on a focus, without the first so many of them.
#[derive(Clone, Copy)]
pub enum Rows {
    All,
    Bearing(Focus, usize),
}

impl Rows {
    // The last 24 that bear on a focus.
    pub(crate) fn last(case: Case, focus: Focus) -> Rows {
        let mut n: usize = 0;
        let recording = case.recording;
        let steps = recording
            .chunks_exact(numbers::SIZE_STEP)
            .map_while(step_in);
        for (x, o) in steps.zip(case.operations) {
            if focus.bears(*o, x) {
                n = n.saturating_add(1);
            }
        }
        Rows::Bearing(focus, n.saturating_sub(24))
    }
}

// A row: its place, a step with the answer to it, the operation that it is about, and the state and the time after it.
#[derive(Clone, Copy)]
pub struct Row {
    pub place: usize,
    pub step: Step,
    pub operation: Option<u8>,
    pub after: State,
    pub ms: u64,
}

// What a row shows of a slot: its step, its start, that it has failed, that it is held, or only that it lives.
#[derive(Clone, Copy)]
pub enum Lane {
    Acts,
    Starts,
    Failed,
    Held,
    Lives,
    Empty,
}

impl Row {
    pub(crate) fn lane(self, i: u8) -> Lane {
        let x = self.step;
        let slot = self.after.slots.get(i);
        if is_slots(x.code) && x.who == i {
            Lane::Acts
        } else if x.code == numbers::CODE_SPAWN && x.claim.number == i as u32 {
            Lane::Starts
        } else if slot.life.failed {
            Lane::Failed
        } else if slot.life.awaited.part == numbers::TAG_REQUIRED {
            Lane::Held
        } else if slot.used {
            Lane::Lives
        } else {
            Lane::Empty
        }
    }
}

// The refused step, with its cause, its place, and the rule.
#[derive(Clone, Copy)]
pub struct Refused {
    pub step: Step,
    pub cause: Cause,
    pub place: usize,
    pub rule: u8,
}

// ---- cells

// The step of the call that has this number on an operation: of so many calls that were started there, the last.
fn place_of_call(recording: &[u8], o: u8, number: u16) -> usize {
    let mut left = number;
    let steps = recording
        .chunks_exact(numbers::SIZE_STEP)
        .map_while(step_in);
    for (k, x) in steps.enumerate() {
        if starts_call(x, o) {
            if left == 0 {
                return k + 1;
            }
            left -= 1;
        }
    }
    0
}

fn starts_call(x: Step, o: u8) -> bool {
    x.code == numbers::CODE_CALL && x.what == o && x.claim.kind == Value::OK.kind
}

impl<const ROOM: usize> Text<ROOM> {
    // What a new instance is for, or how many activations are pending behind it, where they are counted.
    pub(crate) fn put_start(&mut self, recording: &[u8], after: State, i: u8) {
        let slot = after.slots.get(i);
        self.put("starts");
        if slot.owed.serving {
            let client = slot.owed.client;
            self.put_with(
                ", for the call of step ",
                place_of_call(recording, client.operation, client.number) as u64,
            );
        } else {
            self.put_left(after.runnables.get(slot.life.runnable).pending);
        }
    }

    fn put_left(&mut self, pending: u8) {
        if pending != 0 {
            self.put_with(", ", pending as u64);
            self.put(" more pending");
        }
    }

    // What a hand back came to.
    fn put_remark(&mut self, code: u8, v: Value) {
        match (code, v.number) {
            (numbers::CODE_HAND_BACK, 0) => self.put(", too late"),
            (numbers::CODE_HAND_BACK, 1) => self.put(", in time"),
            _ => {}
        }
    }

    // An answer, and what it means.
    pub(crate) fn put_meant(&mut self, names: &Names, code: u8, v: Value) {
        self.put_answered(names, v);
        self.put_remark(code, v);
    }

    // How many values an end writes; none goes without saying.
    fn put_given(&mut self, n: u8) {
        if n != 0 {
            self.put(", writes ");
            self.put_count(n as u64, "value");
        }
    }

    // What an accepted step came to: a copy holds what its element held at the start, and what is set is written at the end.
    fn put_outcome(&mut self, x: Step) {
        match x.code {
            numbers::CODE_END => self.put_given(x.what),
            numbers::CODE_READ_COPY => self.put(", as at its start"),
            numbers::CODE_WRITE_COPY => self.put(", for its end"),
            code => self.put_remark(code, x.claim),
        }
    }

    // An accepted step in its lane or in the scheduler's column.
    pub(crate) fn put_done(&mut self, names: &Names, x: Step) {
        if x.code == numbers::CODE_FAIL {
            return self.put("fails");
        }
        self.put_deed(names, x);
        self.put_answer(names, x.claim);
        self.put_outcome(x);
    }

    // The scheduler's step, if it is one.
    pub(crate) fn put_scheduled(&mut self, names: &Names, x: Step) {
        if !is_slots(x.code) {
            self.put_done(names, x);
        }
    }

    // The refused step there: what was recorded and what is right, or that it is not possible.
    pub(crate) fn put_refused(&mut self, names: &Names, refused: Refused) {
        let x = refused.step;
        self.put_deed(names, x);
        if let Cause::Differs(v) = refused.cause {
            self.put(": RECORDED ");
            self.put_meant(names, x.code, x.claim);
            self.put("; RIGHT ");
            self.put_meant(names, x.code, v);
        } else {
            self.put(": NOT POSSIBLE");
        }
    }

    // An operation after a step; what its call ended with may wait for its caller.
    pub(crate) fn put_operation(&mut self, st: State, o: u8) {
        let operation = st.operations.get(o);
        if operation.calling {
            self.put_with("open, ", operation.count as u64);
            self.put(" ms left");
        } else if operation.number == 0 {
            self.put("not called yet");
        } else {
            self.put("closed: ");
            self.put_value(operation.done);
            if waiter(st, o).is_some() {
                self.put(", not collected");
            }
        }
    }
}

// ---- columns measured

type Cell = Text<512>;

// A spawn claims the slot that it starts an instance in.
fn started(x: Step) -> u8 {
    (x.claim.number % 32) as u8
}

fn cell_width(case: Case, row: Row) -> usize {
    let x = row.step;
    if x.code != numbers::CODE_SPAWN {
        return done_width(case.names, x);
    }
    let mut cell = Cell::new();
    cell.put_start(case.recording, row.after, started(x));
    cell.letters_from(0)
}

fn done_width(names: &Names, x: Step) -> usize {
    let mut cell = Cell::new();
    cell.put_done(names, x);
    cell.letters_from(0)
}

fn operation_width(after: State, o: u8) -> usize {
    let mut cell = Cell::new();
    cell.put_operation(after, o);
    cell.letters_from(0)
}

// ---- rows

// A row as it is shown.
type Shown = Text<8192>;

fn put_lane(line: &mut Shown, case: Case, row: Row, i: u8) {
    match row.lane(i) {
        Lane::Acts => line.put_done(case.names, row.step),
        Lane::Starts => line.put_start(case.recording, row.after, i),
        Lane::Failed => line.put("(failed)"),
        Lane::Held => line.put("(held)"),
        Lane::Lives => line.put("|"),
        Lane::Empty => {}
    }
}

fn put_cell(line: &mut Shown, case: Case, row: Row, i: u8, width: usize) {
    if width != 0 {
        let from = line.len();
        put_lane(line, case, row, i);
        line.end_cell(from, width);
    }
}

fn put_state(line: &mut Shown, st: State, o: u8, width: usize) {
    if width != 0 {
        let from = line.len();
        line.put_operation(st, o);
        line.end_cell(from, width);
    }
}

// One column for all slots.
fn put_shared(line: &mut Shown, case: Case, row: Row) {
    let x = row.step;
    let from = line.len();
    if is_slots(x.code) {
        line.put_slot(x.who);
        line.put(": ");
        line.put_done(case.names, x);
    } else if x.code == numbers::CODE_SPAWN {
        line.put_slot(started(x));
        line.put(": ");
        line.put_start(case.recording, row.after, started(x));
    }
    line.end_cell(from, Widths::SHARED);
}

// The slots of a row: in one column, or each in its own.
fn put_slots(line: &mut Shown, case: Case, widths: &Widths, row: Row) {
    if widths.are_shared() {
        return put_shared(line, case, row);
    }
    for i in 0..Slot::MAX as u8 {
        put_cell(line, case, row, i, widths.lane(i));
    }
}

// The front of a row: its mark, the step and the time.
fn put_front(line: &mut Shown, mark: &str, place: usize, ms: u64) {
    line.put(mark);
    line.put_right(place as u64, 5);
    line.put_right(ms, 8);
    line.put("  ");
}

fn show_row<R: Print>(rt: &R, case: Case, widths: &Widths, row: Row) {
    let mut line = Shown::new();
    put_front(&mut line, " ", row.place, row.ms);
    let from = line.len();
    line.put_scheduled(case.names, row.step);
    line.end_cell(from, widths.scheduler);
    put_slots(&mut line, case, widths, row);
    for o in 0..OperationConf::MAX as u8 {
        put_state(&mut line, row.after, o, widths.operation(o));
    }
    line.show_line(rt);
}

fn put_lane_head(line: &mut Shown, i: u8, width: usize) {
    if width != 0 {
        let from = line.len();
        line.put_slot(i);
        line.end_cell(from, width);
    }
}

fn put_operation_head(line: &mut Shown, names: &Names, o: u8, width: usize) {
    if width != 0 {
        let from = line.len();
        line.put_part(names, numbers::TAG_OPERATION, o);
        line.end_cell(from, width);
    }
}

fn put_slot_heads(line: &mut Shown, widths: &Widths) {
    if widths.are_shared() {
        let from = line.len();
        line.put("slots");
        return line.end_cell(from, Widths::SHARED);
    }
    for i in 0..Slot::MAX as u8 {
        put_lane_head(line, i, widths.lane(i));
    }
}

pub(crate) fn show_head<R: Print>(rt: &R, names: &Names, widths: &Widths) {
    let mut line = Shown::new();
    line.put("  step      ms  ");
    let from = line.len();
    line.put("scheduler");
    line.end_cell(from, widths.scheduler);
    put_slot_heads(&mut line, widths);
    for o in 0..OperationConf::MAX as u8 {
        put_operation_head(&mut line, names, o, widths.operation(o));
    }
    line.show_line(rt);
}

// The empty lanes of the slots before the one that acts.
fn put_before(line: &mut Shown, widths: &Widths, who: u8) {
    for i in 0..who.min(Slot::MAX as u8) {
        if widths.lane(i) != 0 {
            let from = line.len();
            line.end_cell(from, widths.lane(i));
        }
    }
}

// What stands before a refused step in its row.
fn put_margin(line: &mut Shown, widths: &Widths, x: Step) {
    if !is_slots(x.code) {
        return;
    }
    let from = line.len();
    line.end_cell(from, widths.scheduler);
    if widths.are_shared() {
        line.put_slot(x.who);
        line.put(": ");
    } else {
        put_before(line, widths, x.who);
    }
}

// The refused step's row, where it would stand.
pub(crate) fn show_refused<R: Print>(
    rt: &R,
    names: &Names,
    widths: &Widths,
    refused: Refused,
    ms: u64,
) {
    let mut line = Shown::new();
    put_front(&mut line, "X", refused.place, ms);
    put_margin(&mut line, widths, refused.step);
    line.put_refused(names, refused);
    line.put("\n");
    line.show(rt);
}

fn show_skipped<R: Print>(rt: &R, n: usize) {
    if n == 0 {
        return;
    }
    let mut line = Text::<128>::new();
    line.put_with("   ..  ", n as u64);
    line.put(" not shown here (--all shows them)\n");
    line.show(rt);
}

// ---- walks

// A walk through the accepted steps: the state and the time, how many steps were met that bear on the focus, and how many were left out since the last row.
#[derive(Clone, Copy)]
struct Walk {
    state: State,
    ms: u64,
    bearing: usize,
    skipped: usize,
}

impl Walk {
    fn start(cfg: Config) -> Walk {
        Walk {
            state: State::start(cfg),
            ms: 0,
            bearing: 0,
            skipped: 0,
        }
    }

    // Goes over a step; the step as it is shown.
    fn pass(&mut self, cfg: Config, x: Step) -> Step {
        let before = self.state;
        let r = machine::inner(cfg, before, x);
        self.state = r.state;
        self.ms = later(self.ms, x);
        giving(before, answering(x, r.answer))
    }

    // Whether the step that was gone over, as it is shown, is a row.
    fn meets(&mut self, rows: Rows, o: Option<u8>, x: Step) -> bool {
        let Rows::Bearing(focus, first) = rows else {
            return true;
        };
        if focus.bears(o, x) {
            self.bearing = self.bearing.saturating_add(1);
            if first < self.bearing {
                return true;
            }
        }
        self.skipped = self.skipped.saturating_add(1);
        false
    }

    fn row(&self, place: usize, operation: Option<u8>, step: Step) -> Row {
        Row {
            place,
            step,
            operation,
            after: self.state,
            ms: self.ms,
        }
    }
}

// The step with its answer in place of its claim: a send may claim Limit where it answered Full.
fn answering(x: Step, a: Answer) -> Step {
    match a {
        Answer::Taken(claim) => Step { claim, ..x },
        Answer::Refused(_) => x,
    }
}

// How many values the end of an instance writes: one that has failed writes none.
fn given(st: State, i: u8) -> u8 {
    if st.slots.get(i).life.failed {
        return 0;
    }
    let set = st.outgoing.get(i).at;
    (set.iter().filter(|v| v.is_payload()).count() % 8) as u8
}

// The step with the number of values that it writes in place of a part, where it is an end, which names none.
fn giving(st: State, x: Step) -> Step {
    if x.code == numbers::CODE_END {
        Step {
            what: given(st, x.who),
            ..x
        }
    } else {
        x
    }
}

// The columns with room for all rows.
pub(crate) fn measured(case: Case, rows: Rows) -> Widths {
    let mut widths = Widths::NONE;
    let mut walk = Walk::start(case.cfg);
    let recording = case.recording;
    let steps = recording
        .chunks_exact(numbers::SIZE_STEP)
        .map_while(step_in);
    for (k, (x, o)) in steps.zip(case.operations).enumerate() {
        let y = walk.pass(case.cfg, x);
        if walk.meets(rows, *o, y) {
            widths.widen(case, walk.row(k + 1, *o, y));
        }
    }
    widths
}

// Shows the rows under these columns; the time behind the last step.
pub(crate) fn show_rows<R: Print>(rt: &R, case: Case, rows: Rows, widths: &Widths) -> u64 {
    let mut walk = Walk::start(case.cfg);
    let recording = case.recording;
    let steps = recording
        .chunks_exact(numbers::SIZE_STEP)
        .map_while(step_in);
    for (k, (x, o)) in steps.zip(case.operations).enumerate() {
        let y = walk.pass(case.cfg, x);
        if walk.meets(rows, *o, y) {
            show_skipped(rt, walk.skipped);
            walk.skipped = 0;
            show_either_row(rt, case, widths, walk.row(k + 1, *o, y));
        }
    }
    walk.ms
}

fn show_either_row<R: Print>(rt: &R, case: Case, widths: &Widths, row: Row) {
    if case.asked.is_page() {
        crate::page::show_row(rt, case, widths, row);
    } else {
        show_row(rt, case, widths, row);
    }
}
