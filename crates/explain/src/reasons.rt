// The cause of a refusal in words, with what tells it from its neighbours.
use crate::names::Names;
use crate::putting::Text;
use crate::words::{A_PAYLOAD, A_TIME, NOTHING};
use values::{Step, Value};
use whys::Cause;

// The line that says why.
pub type Why = Text<2048>;

// What a rule is about, in a few words.
pub(crate) fn rule_of(k: u8) -> &'static str {
    match k {
        numbers::MALFORMED => "no step of this form",
        numbers::NOT_THERE => "something that is not there",
        numbers::NOT_OWN => "a part that it may not use so",
        numbers::BARRED => "not in this phase of its life",
        numbers::AREA_TAKEN => "the area is taken",
        numbers::NOT_ON_TOP => "not the area entered last",
        numbers::QUEUE_FULL => "the server's queue is full",
        numbers::STILL_WAITS => "the call is still open",
        numbers::NOT_DUE => "it may not start yet",
        numbers::NO_SLOT_FREE => "no free slot",
        numbers::TOO_FAR => "too long a wait",
        numbers::NOT_OVER => "too early, or no call open",
        numbers::AREAS_HELD => "areas are still held",
        numbers::WRONG_CLIENT => "a client too few or too many",
        numbers::OTHER_ANSWER => "a false answer",
        numbers::BAD_FIELD => "a damaged field",
        numbers::NUMBER_BORNE => "its number is still in use",
        numbers::STEP_GONE => "a step that this edition does not have",
        _ => "refused",
    }
}

// The part that a step names.
fn put_named(why: &mut Why, names: &Names, s: Step) {
    why.put_part(names, refusals::row_of(s.code).part, s.what);
}

// The instance that takes a step.
fn put_instance(why: &mut Why, s: Step) {
    why.put("the instance in ");
    why.put_slot(s.who);
}

// 2: the entries of the step.
fn put_argued(why: &mut Why, kind: u8, s: Step) {
    why.put(match kind {
        NOTHING => "this step takes no argument, and here is ",
        A_PAYLOAD => "this step hands over Void or a Number, and here is ",
        A_TIME => "this step takes a Number of 1 to 3,600,000 ms, and here is ",
        _ => "this step takes a Number, and here is ",
    });
    why.put_value(s.argument);
    why.put(".");
}

fn put_who_filled(why: &mut Why, s: Step) {
    why.put("a step of the scheduler names no slot, and this one names ");
    why.put_slot(s.who);
    why.put(".");
}

fn put_what_filled(why: &mut Why, s: Step) {
    why.put_with(
        "this step names no part, and its second entry holds ",
        s.what as u64,
    );
    why.put(".");
}

fn put_no_code(why: &mut Why, s: Step) {
    why.put_with("there is no step of code ", s.code as u64);
    why.put(": the codes are 1 to 23.");
}

fn put_hands_number(why: &mut Why, s: Step) {
    put_instance(why, s);
    why.put(
        " has failed: it may hand back Void alone, which its client gets as ServerErr, and here is ",
    );
    why.put_value(s.argument);
    why.put(".");
}

// 30: what the edition of the configuration does not have.
fn put_step_gone(why: &mut Why, e: u8) {
    why.put_with("the configuration is of edition ", e as u64);
    why.put(", whose units mark no element invalid: this step is there in edition 1 alone.");
}

// 3: what is not there.
fn put_no_slot(why: &mut Why, s: Step) {
    why.put_with("there is no slot ", s.who as u64);
    why.put(": the last one is 31.");
}

fn put_empty_slot(why: &mut Why, s: Step) {
    why.put("nothing runs in ");
    why.put_slot(s.who);
    why.put(": no instance was spawned into it, or it has ended.");
}

fn put_no_part(why: &mut Why, n: u8, s: Step) {
    why.put("the configuration has no ");
    why.put_kind(refusals::row_of(s.code).part);
    why.put_with(" ", s.what as u64);
    if n == 0 {
        why.put(": it has none of that kind.");
    } else {
        why.put_with(": it has ", n as u64);
        why.put(" of that kind, and they are counted from 0.");
    }
}

fn put_not_listed(why: &mut Why, names: &Names, r: u8, tag: u8, k: u8) {
    why.put_part(names, numbers::TAG_RUNNABLE, r);
    why.put(" does not list ");
    why.put_part(names, tag, k);
    why.put(if tag == numbers::TAG_REQUIRED {
        " to be copied at its start, so its instances have no copy of it."
    } else {
        " to be written at its end, so its instances have no copy of it."
    });
}

// 4: whose it is, and whether it is queued.
fn put_foreign(why: &mut Why, names: &Names, own: u8, other: u8, s: Step) {
    put_named(why, names, s);
    why.put_with(" belongs to component ", own as u64);
    why.put(", and the instance in ");
    why.put_slot(s.who);
    why.put_with(" to component ", other as u64);
    why.put(".");
}

fn put_queued(why: &mut Why, names: &Names, s: Step, queued: bool) {
    put_named(why, names, s);
    why.put(if queued {
        " is queued, and this step is for elements that are not."
    } else {
        " is not queued, and this step is for elements that are."
    });
}

// 5: the phase of its life.
fn put_waits(why: &mut Why, names: &Names, o: u8, s: Step) {
    put_instance(why, s);
    why.put(" waits for the result of ");
    why.put_part(names, numbers::TAG_OPERATION, o);
    why.put(", and may do nothing else before it has that result.");
}

fn put_held_on(why: &mut Why, names: &Names, q: u8, s: Step) {
    put_instance(why, s);
    why.put(" is held until there is data in ");
    why.put_part(names, numbers::TAG_REQUIRED, q);
    why.put(", and may do nothing else before it has received from there or given up.");
}

// What the instance is, or has done, and what it may still do.
fn put_phase(why: &mut Why, s: Step, phase: &str) {
    put_instance(why, s);
    why.put(phase);
}

fn put_not_waiting(why: &mut Why, names: &Names, s: Step) {
    if s.code == numbers::CODE_GIVE_UP {
        why.put("giving up is for an instance that is held, and the one in ");
        why.put_slot(s.who);
        why.put(" is not.");
    } else {
        put_named(why, names, s);
        why.put(" is synchronous: its result is for an instance that called and waits, and ");
        why.put_slot(s.who);
        why.put(" does not wait.");
    }
}

// 6, 7, 15: areas.
fn put_held(why: &mut Why, names: &Names, i: u8, s: Step) {
    put_named(why, names, s);
    why.put(" is held by ");
    why.put_slot(i);
    why.put(", which has not exited it.");
}

fn put_on_top(why: &mut Why, names: &Names, area: u8, s: Step) {
    why.put_slot(s.who);
    why.put(" entered ");
    why.put_part(names, numbers::TAG_AREA, area);
    why.put(" last, and has to exit that one first.");
}

fn put_none_held(why: &mut Why, s: Step) {
    why.put_slot(s.who);
    why.put(" holds no area.");
}

fn put_still_held(why: &mut Why, names: &Names, area: u8, s: Step) {
    why.put_slot(s.who);
    why.put(" still holds ");
    why.put_part(names, numbers::TAG_AREA, area);
    why.put(": it has to exit what it entered before it ends.");
}

// 8, 10, 28: calls.
fn put_queue_full(why: &mut Why, names: &Names, r: u8, n: u8) {
    why.put("the queue of the server, ");
    why.put_part(names, numbers::TAG_RUNNABLE, r);
    why.put(", is full: it has room for ");
    why.put_count(n as u64, "request");
    why.put(", and as many wait.");
}

// What both cases of 28 begin with: the number of the call, which went round, is not free yet.
fn put_borne(why: &mut Why, names: &Names, s: Step) {
    why.put("the numbers of ");
    put_named(why, names, s);
    why.put(" have gone round, and the next one is still borne by an old call, ");
}

fn put_still_served(why: &mut Why, names: &Names, i: u8, s: Step) {
    put_borne(why, names, s);
    why.put("which ");
    why.put_slot(i);
    why.put(" serves: it has to hand back first.");
}

fn put_still_queued(why: &mut Why, names: &Names, r: u8, s: Step) {
    put_borne(why, names, s);
    why.put("which waits in the queue of ");
    why.put_part(names, numbers::TAG_RUNNABLE, r);
    why.put(": an instance has to take it and hand back first.");
}

fn put_call_open(why: &mut Why, names: &Names, t: u32, s: Step) {
    why.put("the call of ");
    put_named(why, names, s);
    why.put_with(" is still open, with ", t as u64);
    why.put(" ms left: there is no result before it has ended.");
}

fn put_queue_empty(why: &mut Why, names: &Names, t: u32, s: Step) {
    why.put("there is no data in ");
    put_named(why, names, s);
    why.put(", and the instance in ");
    why.put_slot(s.who);
    why.put_with(", which is held there for ", t as u64);
    why.put(" ms still, does not go on before there is some, or its time is up.");
}

// 11: the need that is missing.
fn put_interval(why: &mut Why, names: &Names, t: u32, s: Step) {
    why.put("the first need of a start is missing: the start interval of ");
    put_named(why, names, s);
    why.put_with(" still runs, with ", t as u64);
    why.put(" ms left.");
}

fn put_runs(why: &mut Why, names: &Names, n: u8, s: Step) {
    why.put("the second need of a start is missing: ");
    put_named(why, names, s);
    why.put(" is not concurrent, and has ");
    why.put_count(n as u64, "instance");
    why.put(" already.");
}

// The third need: a server's is a request, and that of any other an activation.
fn put_nothing_to_do(why: &mut Why, names: &Names, s: Step, lack: &str) {
    why.put("the third need of a start is missing: ");
    put_named(why, names, s);
    why.put(lack);
}

// 13, 14: time.
fn put_stops(why: &mut Why, names: &Names, tag: u8, k: u8, t: u32) {
    why.put_with("no more than ", t as u64);
    why.put(if tag == numbers::TAG_OPERATION {
        " ms may pass here: so much is left to the timeout of the call of "
    } else {
        " ms may pass here: so much is left to the tick of "
    });
    why.put_part(names, tag, k);
    why.put(".");
}

fn put_hold_stops(why: &mut Why, i: u8, t: u32) {
    why.put_with("no more than ", t as u64);
    why.put(" ms may pass: so long the instance in ");
    why.put_slot(i);
    why.put(" is held at most, and it has not gone on.");
}

fn put_hold_runs(why: &mut Why, t: u32, s: Step) {
    put_instance(why, s);
    why.put_with(" is held for ", t as u64);
    why.put(" ms still, so it is too early to give up.");
}

fn put_not_open(why: &mut Why, names: &Names, s: Step) {
    why.put("no call of ");
    put_named(why, names, s);
    why.put(" is open, so none can time out.");
}

fn put_runs_on(why: &mut Why, names: &Names, t: u32, s: Step) {
    put_named(why, names, s);
    why.put_with(": ", t as u64);
    why.put(" ms are left, so it is too early.");
}

// 16: clients.
fn put_no_client(why: &mut Why, s: Step) {
    put_instance(why, s);
    why.put(" serves no call, and has nobody to hand back to.");
}

fn put_has_client(why: &mut Why, names: &Names, o: u8, s: Step) {
    put_instance(why, s);
    why.put(" serves a call of ");
    why.put_part(names, numbers::TAG_OPERATION, o);
    why.put(", and has to hand back before it ends.");
}

// 17: the right answer. A copy answers what came before.
fn put_differs(why: &mut Why, names: &Names, v: Value, s: Step) {
    why.put("the step is possible, and its answer is ");
    why.put_answered(names, v);
    if s.code == numbers::CODE_READ_COPY {
        why.put(", which the element held when the instance started");
    }
    why.put("; ");
    why.put_who(s);
    why.put(" claims ");
    why.put_answered(names, s.claim);
    why.put(".");
}

// 2 to 7 and 15.
fn put_first(why: &mut Why, names: &Names, s: Step, c: Cause) {
    match c {
        Cause::NoCode => put_no_code(why, s),
        Cause::HasWho => put_who_filled(why, s),
        Cause::HasWhat => put_what_filled(why, s),
        Cause::BadArgument(k) => put_argued(why, k, s),
        Cause::HandsNumber => put_hands_number(why, s),
        Cause::StepGone(e) => put_step_gone(why, e),
        Cause::NoSlot => put_no_slot(why, s),
        Cause::EmptySlot => put_empty_slot(why, s),
        Cause::NoPart(n) => put_no_part(why, n, s),
        Cause::NotListed(r, tag, k) => put_not_listed(why, names, r, tag, k),
        Cause::Foreign(a, b) => put_foreign(why, names, a, b, s),
        Cause::IsQueued => put_queued(why, names, s, true),
        Cause::NotQueued => put_queued(why, names, s, false),
        Cause::WaitsOn(o) => put_waits(why, names, o, s),
        Cause::HeldOn(q) => put_held_on(why, names, q, s),
        Cause::IsFinished => put_phase(
            why,
            s,
            " has handed back and is finished: it may only end.",
        ),
        Cause::HasFailed => put_phase(why, s, FAILED),
        Cause::FailedBack => put_phase(why, s, FAILED_BACK),
        Cause::NotWaiting => put_not_waiting(why, names, s),
        Cause::HeldBy(i) => put_held(why, names, i, s),
        Cause::NoneHeld => put_none_held(why, s),
        Cause::OnTop(a) => put_on_top(why, names, a, s),
        Cause::StillHeld(a) => put_still_held(why, names, a, s),
        _ => {}
    }
}

const FAILED: &str = " has failed: it may only hand back Void, exit what it entered, and end.";

const FAILED_BACK: &str =
    " has failed and has handed back: it may only exit what it entered, and end.";

const IDLE: &str = " is not pending, as no event and no tick came since it was started last.";

const NO_REQUEST: &str = " is a server, and no request waits in its queue.";

// The cause of a refusal, as a sentence.
pub(crate) fn put_cause(why: &mut Why, names: &Names, s: Step, c: Cause) {
    match c {
        Cause::QueueFull(r, n) => put_queue_full(why, names, r, n),
        Cause::StillServed(i) => put_still_served(why, names, i, s),
        Cause::StillQueued(r) => put_still_queued(why, names, r, s),
        Cause::CallOpen(t) => put_call_open(why, names, t, s),
        Cause::QueueEmpty(t) => put_queue_empty(why, names, t, s),
        Cause::InInterval(t) => put_interval(why, names, t, s),
        Cause::Runs(n) => put_runs(why, names, n, s),
        Cause::NotPending => put_nothing_to_do(why, names, s, IDLE),
        Cause::NoRequest => put_nothing_to_do(why, names, s, NO_REQUEST),
        Cause::NoRoom => why.put("all 32 slots are in use."),
        Cause::Stops(tag, k, t) => put_stops(why, names, tag, k, t),
        Cause::HoldStops(i, t) => put_hold_stops(why, i, t),
        Cause::NotOpen => put_not_open(why, names, s),
        Cause::CallRuns(t) | Cause::TimerRuns(t) => put_runs_on(why, names, t, s),
        Cause::HoldRuns(t) => put_hold_runs(why, t, s),
        Cause::NoClient => put_no_client(why, s),
        Cause::HasClient(o) => put_has_client(why, names, o, s),
        Cause::Differs(v) => put_differs(why, names, v, s),
        _ => put_first(why, names, s, c),
    }
}
