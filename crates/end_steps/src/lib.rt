// Steps 13, 14, 16 and 19 as code, once refusals 2 to 5 have let them through: the two ways in which a call ends, with the return events, the end of an instance and its failure. Each does what its definition in crate effects says, test for test.
#![tactic(auto)]

ghost use Rattle.std.specs.Prelude.{◌≡◌, ℕ, not, ◌==◌};
ghost use Rattle.laws.specs.Choice.{pick, both};
ghost use Rattle.laws.specs.Loop.{any_below};
ghost use Rattle.values.specs.Values.{server_err_v, is_number};
ghost use Rattle.config.specs.Tables.{return_event_in};
ghost use Rattle.effects.specs.Steps.{closing, closed, returned_runnables, lists_some, answers, finishing, hand_back_of, timeout_of, leaving, emptied, end_of, failing, fail_of};

use config::{Config, ReturnEvent, ReturnEvents, RunnableConfs};
use state::{Client, Life, Operation, Operations, Owed, Runnable, Runnables, Slot, State, Stepped};
use values::Value;

// ---- 13, 16: a call ends

// Done with a value, and the number up by one: behind 65,535 comes 0.
#[tactic(auto, unfolding(effects::specs::Steps::closing))]
fn closing(v: Value, x: Operation) -> Operation
    ensures { result ≡ closing v x }
{
    Operation {
        number: x.number.wrapping_add(1),
        calling: false,
        count: 0,
        done: v,
    }
}

// The return event is one of r on the operation o.
fn is_return(d: ReturnEvent, o: u8, r: u8) -> bool
    ensures { result ≡ both (d.runnable == r) (d.operation == o) }
{
    d.runnable == r && d.operation == o
}

fn is_returned(t: ReturnEvents, o: u8, r: u8) -> bool
    ensures { result ≡ any_below (λ (e : ℕ). both ((return_event_in t e).runnable == r) ((return_event_in t e).operation == o)) t.n }
{
    (0..t.n).any(|e| is_return(t.get(e), o, r))
}

// Each runnable that return events wake, once.
fn returned_runnables(cfg: Config, o: u8, rs: Runnables) -> Runnables
    ensures { result ≡ returned_runnables cfg o rs }
{
    let n = shared_steps::within(cfg.runnables.n, RunnableConfs::MAX as u8);
    let mut u = rs;
    for r in 0..n {
        let k = r as usize;
        let wakes = is_returned(cfg.revents, o, r);
        u.at[k] = shared_steps::woken_if(wakes, cfg.runnables.at[k], u.at[k]);
    }
    u
}

// The state after the call of o has ended with v: the operation is Done with it, and the return events have woken their runnables.
#[tactic(auto, unfolding(effects::specs::Steps::closed))]
fn closed(cfg: Config, st: State, o: u8, v: Value) -> State
    ensures { result ≡ closed cfg st o v }
{
    State {
        operations: st.operations.with(o, closing(v, st.operations.get(o))),
        runnables: returned_runnables(cfg, o, st.runnables),
        ..st
    }
}

// The operation is Calling with the client's number.
#[tactic(auto, unfolding(effects::specs::Steps::answers))]
fn answers(t: Operations, c: Client) -> bool
    ensures { result ≡ answers t c }
{
    let x = t.get(c.operation);
    let same = x.number == c.number;
    x.calling && same
}

// The slot owes nobody any longer, and its instance counts as finished.
fn finishing(x: Slot) -> Slot
    ensures { result ≡ finishing x }
{
    Slot {
        life: Life {
            finished: true,
            ..x.life
        },
        owed: Owed::BLANK,
        ..x
    }
}

// An instance that has failed hands back a Number, where it may hand back Void alone.
fn hands_number(l: Life, v: Value) -> bool
    ensures { result ≡ both l.failed (is_number v) }
{
    l.failed && v.kind == Value::NUMBER
}

// What a hand back delivers: ServerErr for an instance that has failed, its argument for any other.
fn handed_back(l: Life, v: Value) -> Value
    ensures { result ≡ pick l.failed server_err_v v }
{
    if l.failed { Value::SERVER_ERR } else { v }
}

// Number 1 if that ends the client's call, else Number 0, and the operation is untouched.
#[tactic(auto, unfolding(effects::specs::Steps::hand_back_of, effects::specs::Steps::closed))]
pub fn hand_back(cfg: Config, st: State, i: u8, v: Value) -> Stepped
    ensures { result ≡ hand_back_of cfg st i v }
{
    let x = st.slots.get(i);
    if hands_number(x.life, v) {
        return shared_steps::refuse(numbers::MALFORMED, st);
    }
    if !x.owed.serving {
        return shared_steps::refuse(numbers::WRONG_CLIENT, st);
    }
    let c = x.owed.client;
    let slots = st.slots.with(i, finishing(x));
    if answers(st.operations, c) {
        let next = closed(cfg, st, c.operation, handed_back(x.life, v));
        return shared_steps::take(Value::of(1), State { slots, ..next });
    }
    shared_steps::take(Value::of(0), State { slots, ..st })
}

// A call that is open, and whose count has run out, ends with Timeout.
#[tactic(auto, unfolding(effects::specs::Steps::timeout_of))]
pub fn timeout(cfg: Config, st: State, o: u8) -> Stepped
    ensures { result ≡ timeout_of cfg st o }
{
    let x = st.operations.get(o);
    if x.calling && x.count == 0 {
        return shared_steps::take(Value::VOID, closed(cfg, st, o, Value::TIMEOUT));
    }
    shared_steps::refuse(numbers::NOT_OVER, st)
}

// ---- 14: end

fn leaving(x: Runnable) -> Runnable
    ensures { result ≡ leaving x }
{
    Runnable {
        instances: state::down_one(x.instances),
        ..x
    }
}

// The slot is emptied, and the runnable's count goes down by one.
#[tactic(auto, unfolding(state::specs::Parts::no_slot, state::specs::Parts::no_stack))]
fn emptied(st: State, i: u8) -> State
    ensures { result ≡ emptied st i }
{
    let r = st.slots.get(i).life.runnable;
    State {
        runnables: st.runnables.with(r, leaving(st.runnables.get(r))),
        slots: st.slots.with(i, Slot::BLANK),
        ..st
    }
}

// The runnable lists no element, so that its instances have no copies.
fn lists_none(cfg: Config, r: u8) -> bool
    ensures { result ≡ both (not (lists_some cfg.incoming r)) (not (lists_some cfg.outgoing r)) }
{
    !copies::lists_some(cfg.incoming, r) && !copies::lists_some(cfg.outgoing, r)
}

// What the instance has set is written, and then its slot is emptied.
#[tactic(auto, unfolding(effects::specs::Steps::end_of))]
pub fn end(cfg: Config, st: State, i: u8) -> Stepped
    ensures { result ≡ end_of cfg st i }
{
    let x = st.slots.get(i);
    if x.owed.serving {
        return shared_steps::refuse(numbers::WRONG_CLIENT, st);
    }
    if 0 < x.stack.held {
        return shared_steps::refuse(numbers::AREAS_HELD, st);
    }
    let r = x.life.runnable;
    if lists_none(cfg, r) {
        return shared_steps::take(Value::VOID, emptied(st, i));
    }
    let next = emptied(copies::handed_on(cfg, st, i), i);
    shared_steps::take(Value::VOID, copies::uncopied(cfg, next, r, i))
}

// ---- 19: fail

fn failing(x: Slot) -> Slot
    ensures { result ≡ failing x }
{
    Slot {
        life: Life {
            failed: true,
            ..x.life
        },
        ..x
    }
}

// What the instance owes and holds stays with it.
#[tactic(auto, unfolding(effects::specs::Steps::fail_of))]
pub fn fail(st: State, i: u8) -> Stepped
    ensures { result ≡ fail_of st i }
{
    let next = State {
        slots: st.slots.with(i, failing(st.slots.get(i))),
        ..st
    };
    shared_steps::take(Value::VOID, next)
}
