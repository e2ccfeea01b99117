// Steps 11 and 12 as code, once refusals 2 to 5 have let them through: a call and its result. Each does what its definition in crate effects says, test for test.
#![tactic(auto)]

ghost use Rattle.std.specs.Prelude.{◌≡◌, ℕ, leb, ltb};
ghost use Rattle.laws.specs.Choice.{pick, either};
ghost use Rattle.laws.specs.Loop.{sum_below};
ghost use Rattle.config.specs.Tables.{max_runnable_confs};
ghost use Rattle.state.specs.Tables.{max_slots, runnable_in, slot_in};
ghost use Rattle.rules.specs.Sound.{is_client, queued_as, served_as, clients_as, waits_on, is_bound};
ghost use Rattle.effects.specs.Steps.{opening, asking, waiting_on, call_of, poll_of, collect_of, result_of};

use config::{Config, OperationConf, RunnableConf, RunnableConfs};
use state::{
    Awaited, Client, Operation, Owed, Requests, Runnable, Runnables, Slot, Slots, State, Stepped,
};
use values::Value;

// ---- 11: call

fn opening(timeout: u32, x: Operation) -> Operation
    ensures { result ≡ opening timeout x }
{
    Operation {
        number: x.number,
        calling: true,
        count: timeout,
        done: Value::VOID,
    }
}

// The instance waits on the operation o.
#[tactic(auto, unfolding(rules::specs::Sound::waits_on))]
fn waits_on(o: u8, x: Slot) -> bool
    ensures { result ≡ waits_on o x }
{
    let a = x.life.awaited;
    a.part == numbers::TAG_OPERATION && a.on == o
}

// How many slots there are, as a number of a slot.
const SLOTS: u8 = Slots::MAX as u8;

// How many runnables there can be, as a number of one.
const RUNNABLES: u8 = RunnableConfs::MAX as u8;

// Some instance waits on the operation o. Each slot is asked for by `get`: a table that is indexed here is copied place by place in every step.
fn is_bound(t: Slots, o: u8) -> bool
    ensures { result ≡ is_bound t o }
{
    (0..SLOTS).any(|k| waits_on(o, t.get(k)))
}

// A call finds the operation open, or bound by an instance that waits on it.
fn is_busy(x: Operation, t: Slots, o: u8) -> bool
    ensures { result ≡ either x.calling (is_bound t o) }
{
    x.calling || is_bound(t, o)
}

// The client is one of the operation o, and bears the number m.
#[tactic(auto, unfolding(rules::specs::Sound::is_client))]
fn is_client(o: u8, m: u16, c: Client) -> bool
    ensures { result ≡ is_client o m c }
{
    c.operation == o && c.number == m
}

// Some request of a queue does.
fn is_queued_as(o: u8, m: u16, q: Requests) -> bool
    ensures { result ≡ ltb 0 (queued_as o m q) }
{
    (0..q.queued).any(|j| is_client(o, m, q.get(j)))
}

// Some request of all queues does.
fn any_queued_as(o: u8, m: u16, t: Runnables) -> bool
    ensures { result ≡ ltb 0 (sum_below (λ (r : ℕ). queued_as o m (runnable_in t r).requests) max_runnable_confs) }
{
    (0..RUNNABLES).any(|k| is_queued_as(o, m, t.get(k).requests))
}

// The client of an instance does.
#[tactic(auto, unfolding(rules::specs::Sound::served_as))]
fn is_served_as(o: u8, m: u16, w: Owed) -> bool
    ensures { result ≡ ltb 0 (served_as o m w) }
{
    w.serving && is_client(o, m, w.client)
}

// The client of some instance does.
fn any_served_as(o: u8, m: u16, t: Slots) -> bool
    ensures { result ≡ ltb 0 (sum_below (λ (k : ℕ). served_as o m (slot_in t k).owed) max_slots) }
{
    (0..SLOTS).any(|k| is_served_as(o, m, t.get(k).owed))
}

// A client of the operation o, queued or on an instance, bears the number m.
fn is_borne(rs: Runnables, ss: Slots, o: u8, m: u16) -> bool
    ensures { result ≡ ltb 0 (clients_as rs ss o m) }
{
    let queued = any_queued_as(o, m, rs);
    let served = any_served_as(o, m, ss);
    queued || served
}

// The server's queue has no room.
fn requests_full(c: RunnableConf, x: Runnable) -> bool
    ensures { result ≡ leb c.capacity x.requests.queued }
{
    c.capacity <= x.requests.queued
}

fn asking(x: Runnable, c: Client) -> Runnable
    ensures { result ≡ asking x c }
{
    Runnable {
        requests: x.requests.push(c),
        ..x
    }
}

fn waiting_on(x: Slot, o: u8) -> Slot
    ensures { result ≡ waiting_on x o }
{
    shared_steps::awaiting(
        x,
        Awaited {
            part: numbers::TAG_OPERATION,
            on: o,
            left: 0,
        },
    )
}

// The caller of a synchronous operation waits on it.
fn caller_after(conf: OperationConf, o: u8, x: Slot) -> Slot
    ensures { result ≡ pick conf.asynchronous x (waiting_on x o) }
{
    if conf.asynchronous {
        x
    } else {
        waiting_on(x, o)
    }
}

// On an operation that is open or bound Limit, and nothing changes.
#[tactic(auto, unfolding(effects::specs::Steps::call_of, effects::specs::Steps::called, effects::specs::Steps::caller_after, effects::specs::Steps::requests_full))]
pub fn call(cfg: Config, st: State, i: u8, o: u8, v: Value) -> Stepped
    ensures { result ≡ call_of cfg st i o v }
{
    let x = st.operations.get(o);
    if is_busy(x, st.slots, o) {
        return shared_steps::take(Value::LIMIT, st);
    }
    if is_borne(st.runnables, st.slots, o, x.number) {
        return shared_steps::refuse(numbers::NUMBER_BORNE, st);
    }
    let c = cfg.operations.get(o);
    let s = c.server;
    let r = st.runnables.get(s);
    if requests_full(cfg.runnables.get(s), r) {
        return shared_steps::refuse(numbers::QUEUE_FULL, st);
    }
    let client = Client {
        operation: o,
        number: x.number,
        argument: v,
    };
    let next = State {
        operations: st.operations.with(o, opening(c.timeout, x)),
        runnables: st.runnables.with(s, asking(r, client)),
        slots: st.slots.with(i, caller_after(c, o, st.slots.get(i))),
        ..st
    };
    shared_steps::take(Value::OK, next)
}

// ---- 12: result

// Asynchronous: NoData as long as the call has not ended, then what the operation is Done with, which it keeps.
#[tactic(auto, unfolding(effects::specs::Steps::poll_of))]
fn poll(st: State, o: u8) -> Stepped
    ensures { result ≡ poll_of st o }
{
    let x = st.operations.get(o);
    if x.calling {
        return shared_steps::take(Value::NO_DATA, st);
    }
    shared_steps::take(x.done, st)
}

// Synchronous: once the operation is Done the stored value, which stays, and the instance runs on.
#[tactic(auto, unfolding(effects::specs::Steps::collect_of))]
fn collect(st: State, i: u8, o: u8) -> Stepped
    ensures { result ≡ collect_of st i o }
{
    let x = st.operations.get(o);
    if x.calling {
        return shared_steps::refuse(numbers::STILL_WAITS, st);
    }
    shared_steps::take(x.done, shared_steps::gone_on(st, i))
}

#[tactic(auto, unfolding(effects::specs::Steps::result_of))]
pub fn result(cfg: Config, st: State, i: u8, o: u8) -> Stepped
    ensures { result ≡ result_of cfg st i o }
{
    if cfg.operations.get(o).asynchronous {
        poll(st, o)
    } else {
        collect(st, i, o)
    }
}
