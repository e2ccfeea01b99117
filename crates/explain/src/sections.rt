// What stands around the table: what is allowed, where it stands in the file, a guess at what was lost, and the calls of an accepted recording.
use crate::calls::{Calls, How, MOST, Told, later, step_in, waiter};
use crate::case::Case;
use crate::names::Names;
use crate::putting::{Text, say};
use crate::reasons::Why;
use crate::words::is_slots;
use gaps::Mended;
use state::{Slots, State};
use values::{Answer, Step, Value};

// ---- what is allowed

// The line of all that is allowed to one.
type Options = Text<16384>;

fn probe(code: u8, who: u8, what: u8) -> Step {
    Step {
        code,
        who,
        what,
        argument: Value::VOID,
        claim: Value::VOID,
    }
}

// A step that would be taken, behind a semicolon: the payload is left open, but an instance that has failed may hand back Void alone, and a runnable may have
// several activations pending, of which a spawn takes one.
fn put_option(options: &mut Options, st: State, names: &Names, x: Step, v: Value) {
    options.put("; ");
    options.put_option(names, x);
    if x.code == numbers::CODE_HAND_BACK && st.slots.get(x.who).life.failed {
        options.put(" Void");
    }
    let pending = st.runnables.get(x.what).pending;
    if x.code == numbers::CODE_SPAWN && 1 < pending {
        options.put_with(" (", pending as u64);
        options.put(" pending)");
    }
    options.put_answer(names, v);
}

// How many parts a code can name; one try where it names none.
fn tries_of(case: Case, code: u8) -> u8 {
    match refusals::row_of(code).part {
        0 => 1,
        tag => entries::count_of(case.cfg, tag).min(16),
    }
}

// All steps of a code and a slot.
fn put_code(options: &mut Options, case: Case, st: State, code: u8, who: u8) {
    for k in 0..tries_of(case, code) {
        if let Answer::Taken(v) = causes::allowed(case.cfg, st, code, who, k) {
            put_option(options, st, case.names, probe(code, who, k), v);
        }
    }
}

// The steps of a slot.
fn put_codes(options: &mut Options, case: Case, st: State, i: u8) {
    for code in 0u8..255 {
        if is_slots(code) {
            put_code(options, case, st, code, i);
        }
    }
}

fn show_slot<R: Print>(rt: &R, case: Case, st: State, i: u8) {
    let slot = st.slots.get(i);
    if !slot.used {
        return;
    }
    let mut options = Options::new();
    options.put("  ");
    options.put_slot(i);
    options.put(", an instance of ");
    options.put_part(case.names, numbers::TAG_RUNNABLE, slot.life.runnable);
    if slot.life.failed {
        options.put(" that has failed");
    }
    let from = options.len();
    put_codes(&mut options, case, st, i);
    end_options(&mut options, from);
    options.show(rt);
}

// A colon before the first, or there is none.
fn end_options(options: &mut Options, from: usize) {
    if options.len() == from {
        options.put(": nothing\n");
    } else {
        options.replace(from, b':');
        options.put("\n");
    }
}

fn show_scheduler<R: Print>(rt: &R, case: Case, st: State) {
    let mut options = Options::new();
    options.put("  the scheduler");
    let from = options.len();
    put_code(&mut options, case, st, numbers::CODE_SPAWN, 0);
    put_code(&mut options, case, st, numbers::CODE_TIMEOUT, 0);
    put_code(&mut options, case, st, numbers::CODE_TICK, 0);
    put_wait(&mut options, passing::passes(case.cfg, st, u32::MAX));
    end_options(&mut options, from);
    options.show(rt);
}

// How long a wait may be.
fn put_wait(options: &mut Options, most: u32) {
    if most == u32::MAX {
        options.put("; wait, as long as you like");
    } else {
        options.put_with("; wait, up to ", most as u64);
        options.put(" ms");
    }
}

// What may happen in a state.
pub(crate) fn show_allowed<R: Print>(rt: &R, case: Case, st: State) {
    say(rt, "\nAllowed here (what is handed over is left open):\n");
    show_scheduler(rt, case, st);
    for i in 0..Slots::MAX as u8 {
        show_slot(rt, case, st, i);
    }
}

// ---- where it stands

pub(crate) fn show_place<R: Print>(rt: &R, recording: &[u8], place: usize) {
    if place == 0 || MOST < place {
        return;
    }
    let from = (place - 1) * numbers::SIZE_STEP;
    let mut line = Text::<512>::new();
    line.put_with("\nIn the file: field ", place as u64);
    line.put_with(" begins at byte ", from as u64);
    line.put_with(" of ", recording.len() as u64);
    line.put(" (counted from 0):");
    line.put_bytes(
        recording
            .get(from..from + numbers::SIZE_STEP)
            .unwrap_or(&[]),
    );
    line.put("\n");
    line.show(rt);
}

pub(crate) fn show_rest<R: Print>(rt: &R, recording: &[u8], place: usize) {
    let all = recording.len() / numbers::SIZE_STEP;
    if place < all {
        let mut line = Text::<256>::new();
        line.put("Nothing behind it was tried: ");
        line.put_count((all - place) as u64, "more step");
        line.put(" may be right or wrong.\n");
        line.show(rt);
    } else {
        say(
            rt,
            "It is the last step of the recording; nothing behind it was tried.\n",
        );
    }
}

// ---- a guess at what was lost

// Shows the steps that were filled in, the first three at most, which stand before the step itself.
fn show_fill<R: Print>(rt: &R, names: &Names, text: &[u8], steps: usize) {
    if steps < 2 {
        return;
    }
    say(
        rt,
        "\nA guess, and no proof of what happened: with these steps before it, lost by the recorder, the step would have been right.\n",
    );
    let mut lines = Text::<1024>::new();
    for field in text
        .chunks_exact(numbers::SIZE_STEP)
        .take((steps - 1).min(3))
    {
        if let Some(x) = step_in(field) {
            lines.put("  scheduler ");
            lines.put_deed(names, x);
            lines.put_answer(names, x.claim);
            lines.put("\n");
        }
    }
    lines.put(
        "The recording as it stands is refused all the same. ./mend looks for such steps in all of it.\n",
    );
    lines.show(rt);
}

// The bytes of a recording of one step.
const ONE_STEP: usize = numbers::SIZE_STEP + numbers::SIZE_END;

// The fill of the gap before a step, if there is one: a recording of this step alone is mended from the state reached.
pub(crate) fn show_guess<R: Print>(rt: &R, case: Case, st: State, x: Step) {
    let mut one = [0u8; ONE_STEP];
    recording::write_step(&mut one, 0, x);
    recording::write_end(&mut one, numbers::SIZE_STEP);
    let mut text = [0u8; 128];
    let mut report = [0u8; 128];
    if let Mended::Whole(steps, _) = mending::mend(case.cfg, st, &one, &mut text, &mut report) {
        show_fill(rt, case.names, &text, steps);
    }
}

// ---- how a call went

impl<const ROOM: usize> Text<ROOM> {
    fn put_how(&mut self, call: Told) {
        let Some(end) = call.ended else {
            return self.put(" is still open");
        };
        self.put_with(" ended at step ", end.place as u64);
        match end.how {
            How::TimedOut => self.put(" by its timeout"),
            How::Failed(by) => {
                self.put(" by ");
                self.put_slot(by);
                self.put(", which had failed, with ServerErr");
            }
            How::HandedBack(by, v) => {
                self.put(" by ");
                self.put_slot(by);
                self.put(", which handed back ");
                self.put_value(v);
            }
        }
    }
}

// What the latest call of an operation came to, and whether it was collected.
pub(crate) fn put_story(why: &mut Why, names: &Names, st: State, calls: &Calls, o: u8) {
    if Calls::OPERATIONS <= o as usize {
        return;
    }
    let Some(call) = calls.get(o) else {
        why.put(" ");
        why.put_part(names, numbers::TAG_OPERATION, o);
        return why.put(" was never called before.");
    };
    why.put_with(" The call of step ", call.called as u64);
    why.put_how(call);
    if let Some(place) = call.late {
        why.put_with("; what was handed back at step ", place as u64);
        why.put(" came too late");
    }
    if call.ended.is_some() {
        put_uncollected(why, waiter(st, o));
    }
    why.put(".");
}

// Who has not collected what a call ended with.
fn put_uncollected(why: &mut Why, caller: Option<u8>) {
    if let Some(i) = caller {
        why.put("; its caller, ");
        why.put_slot(i);
        why.put(", has not collected yet, and until it has, a call here is answered Limit");
    }
}

// ---- the calls of an accepted recording

// One call that ended at this moment, or was open at the end.
fn show_call<R: Print>(rt: &R, call: Told, ms: u64) {
    let mut line = Text::<512>::new();
    line.put_with("  the call of step ", call.called as u64);
    line.put(" by ");
    line.put_slot(call.caller);
    line.put_how(call);
    if call.at <= ms {
        line.put_with(", after ", ms - call.at);
        line.put(" ms");
    }
    line.put("\n");
    line.show(rt);
}

// How often calls of an operation were started, ended by an instance, ended by the timeout, ended by an instance that had failed, and handed back too
// late; and what a walk has seen.
#[derive(Clone, Copy)]
struct Sums {
    calls: Calls,
    ms: u64,
    started: u32,
    back: u32,
    timeouts: u32,
    failures: u32,
    late: u32,
}

impl Sums {
    const NONE: Sums = Sums {
        calls: Calls::NONE,
        ms: 0,
        started: 0,
        back: 0,
        timeouts: 0,
        failures: 0,
        late: 0,
    };

    // The sums with a step; the call of the operation that it ends.
    fn add(&mut self, o: u8, about: Option<u8>, x: Step, place: usize) -> Option<Told> {
        self.calls.after(about, x, place, self.ms);
        let call = self.calls.get(o)?;
        if call.called == place {
            self.started = self.started.saturating_add(1);
        }
        if call.late == Some(place) {
            self.late = self.late.saturating_add(1);
        }
        let end = call.ended?;
        if end.place != place {
            return None;
        }
        match end.how {
            How::HandedBack(_, _) => self.back = self.back.saturating_add(1),
            How::TimedOut => self.timeouts = self.timeouts.saturating_add(1),
            How::Failed(_) => self.failures = self.failures.saturating_add(1),
        }
        Some(call)
    }
}

// The sums of an operation; of its calls those behind the first so many are shown where they end, if a number is given.
fn tally<R: Print>(rt: &R, case: Case, o: u8, first: Option<u32>) -> Sums {
    let mut sums = Sums::NONE;
    let recording = case.recording;
    let steps = recording
        .chunks_exact(numbers::SIZE_STEP)
        .map_while(step_in);
    for (k, (x, about)) in steps.zip(case.operations).enumerate() {
        if let Some(call) = sums.add(o, *about, x, k + 1) {
            if first.is_some_and(|n| n < sums.started) {
                show_call(rt, call, sums.ms);
            }
        }
        sums.ms = later(sums.ms, x);
    }
    sums
}

fn show_sums<R: Print>(rt: &R, names: &Names, sums: &Sums, o: u8) {
    let mut line = Text::<512>::new();
    line.put_part(names, numbers::TAG_OPERATION, o);
    line.put(": ");
    line.put_count(sums.started as u64, "call");
    line.put_with("; answered in time: ", sums.back as u64);
    line.put_with(", timed out: ", sums.timeouts as u64);
    if sums.failures != 0 {
        line.put_with(", failed: ", sums.failures as u64);
    }
    if sums.late != 0 {
        line.put_with("; handed back too late: ", sums.late as u64);
    }
    line.put("\n");
    line.show(rt);
}

fn show_skipped<R: Print>(rt: &R, n: u32) {
    if n == 0 {
        return;
    }
    let mut line = Text::<128>::new();
    line.put("  the first ");
    line.put_count(n as u64, "call");
    line.put(" not shown (--all shows them)\n");
    line.show(rt);
}

// An operation and its calls: the last twelve, or all.
fn show_operation<R: Print>(rt: &R, case: Case, o: u8) {
    let sums = tally(rt, case, o, None);
    show_sums(rt, case.names, &sums, o);
    if sums.started == 0 {
        return;
    }
    let first = if case.asked.is_all() {
        0
    } else {
        sums.started.saturating_sub(12)
    };
    show_skipped(rt, first);
    let told = tally(rt, case, o, Some(first));
    if let Some(last) = told.calls.get(o) {
        if last.ended.is_none() {
            show_call(rt, last, told.ms);
        }
    }
}

// Every operation and its calls.
pub(crate) fn show_calls<R: Print>(rt: &R, case: Case) {
    for o in 0..case.cfg.operations.n.min(Calls::OPERATIONS as u8) {
        show_operation(rt, case, o);
    }
}
