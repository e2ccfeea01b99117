// Steps 15, 17 and 18 as code, once refusals 2 to 5 have let them through: spawn, tick and wait. Each does what its definition in crate effects says, test for test.
#![tactic(auto)]

ghost use Rattle.std.specs.Prelude.{◌≡◌};
ghost use Rattle.laws.specs.Choice.{both};
ghost use Rattle.effects.specs.Steps.{is_due, may_spawn, starting, fresh, instance_of, found_empty, spawn_of, tick_of, operation_lets, timer_lets, slot_lets, operations_let, timers_let, slots_let, operation_after, timer_after, runnable_after, slot_after, operations_after, timers_after, runnables_after, slots_after, wait_of};

use config::{Config, RunnableConf, RunnableConfs};
use state::{
    Awaited, Life, Operation, Operations, Owed, Runnable, Runnables, Slot, Slots, Stack, State,
    Stepped, Timer, Timers,
};
use values::Value;

// How many slots there are, as a number of a slot.
const SLOTS: u8 = Slots::MAX as u8;

// ---- 15: spawn

// An activation is pending, or for a server a request.
#[tactic(auto, unfolding(effects::specs::Steps::is_due))]
fn is_due(c: RunnableConf, x: Runnable) -> bool
    ensures { result ≡ is_due c x }
{
    if c.capacity == 0 {
        0 < x.pending
    } else {
        0 < x.requests.queued
    }
}

// The three needs: the start interval has run out; it is concurrent or has no instance; it is due.
#[tactic(auto, unfolding(effects::specs::Steps::may_spawn))]
fn may_spawn(c: RunnableConf, x: Runnable) -> bool
    ensures { result ≡ may_spawn c x }
{
    x.interval == 0 && (x.instances == 0 || c.concurrent) && is_due(c, x)
}

// The interval starts again, there is one instance more, and a plain runnable has one activation less pending, a server not its oldest request.
#[tactic(auto, unfolding(effects::specs::Steps::starting))]
fn starting(c: RunnableConf, x: Runnable) -> Runnable
    ensures { result ≡ starting c x }
{
    let begun = Runnable {
        interval: c.interval,
        instances: state::up_one(x.instances),
        ..x
    };
    if c.capacity == 0 {
        Runnable {
            pending: state::down_one(x.pending),
            ..begun
        }
    } else {
        Runnable {
            requests: x.requests.rest(),
            ..begun
        }
    }
}

// A new instance of r, with what it owes.
fn fresh(r: u8, w: Owed) -> Slot
    ensures { result ≡ fresh r w }
{
    Slot {
        used: true,
        life: Life {
            runnable: r,
            awaited: Awaited::BLANK,
            finished: false,
            failed: false,
        },
        owed: w,
        stack: Stack::BLANK,
    }
}

// A plain runnable's instance has no client, a server's takes the oldest request.
#[tactic(auto, unfolding(effects::specs::Steps::instance_of))]
fn instance_of(c: RunnableConf, r: u8, x: Runnable) -> Slot
    ensures { result ≡ instance_of c r x }
{
    if c.capacity == 0 {
        return fresh(r, Owed::BLANK);
    }
    let owed = Owed {
        serving: true,
        client: x.requests.first(),
    };
    fresh(r, owed)
}

// The lowest empty slot.
// Kept: a loop left by break with the number, as DECISIONS lists it.
fn found_empty(t: Slots) -> Option<u8>
    ensures { result ≡ found_empty t }
{
    'search: {
        for k in 0..SLOTS {
            if !t.get(k).used {
                break 'search Some(k);
            }
        }
        None
    }
}

// The answer is the Number of the slot.
pub fn spawn(cfg: Config, st: State, r: u8) -> Stepped
    ensures { result ≡ spawn_of cfg st r }
{
    let c = cfg.runnables.get(r);
    let x = st.runnables.get(r);
    if !may_spawn(c, x) {
        return shared_steps::refuse(numbers::NOT_DUE, st);
    }
    let Some(k) = found_empty(st.slots) else {
        return shared_steps::refuse(numbers::NO_SLOT_FREE, st);
    };
    let next = State {
        runnables: st.runnables.with(r, starting(c, x)),
        slots: st.slots.with(k, instance_of(c, r, x)),
        ..st
    };
    let slot = Value::of(u32::from(k));
    if copies::lists_some(cfg.incoming, r) {
        return shared_steps::take(slot, copies::copied_to(cfg, next, r, k));
    }
    shared_steps::take(slot, next)
}

// ---- 17: tick

// At count 0: the count becomes the period, and the runnable is woken.
#[tactic(auto, unfolding(effects::specs::Steps::tick_of))]
pub fn tick(cfg: Config, st: State, t: u8) -> Stepped
    ensures { result ≡ tick_of cfg st t }
{
    let x = st.timers.get(t);
    if x.count != 0 {
        return shared_steps::refuse(numbers::NOT_OVER, st);
    }
    let c = cfg.timers.get(t);
    let r = c.runnable;
    let woken = shared_steps::woken(cfg.runnables.get(r), st.runnables.get(r));
    let next = State {
        timers: st.timers.with(t, Timer { count: c.period }),
        runnables: st.runnables.with(r, woken),
        ..st
    };
    shared_steps::take(Value::VOID, next)
}

// ---- 18: wait

// What lets t pass: each open call, each timer and each held instance has t or more left. A start interval holds nothing back.
#[tactic(auto, unfolding(effects::specs::Steps::operation_lets))]
fn operation_lets(t: u32, x: Operation) -> bool
    ensures { result ≡ operation_lets t x }
{
    !x.calling || t <= x.count
}

#[tactic(auto, unfolding(effects::specs::Steps::timer_lets))]
fn timer_lets(t: u32, x: Timer) -> bool
    ensures { result ≡ timer_lets t x }
{
    t <= x.count
}

#[tactic(auto, unfolding(effects::specs::Steps::slot_lets))]
fn slot_lets(t: u32, x: Slot) -> bool
    ensures { result ≡ slot_lets t x }
{
    let a = x.life.awaited;
    a.part != numbers::TAG_REQUIRED || t <= a.left
}

fn operations_let(cfg: Config, os: Operations, t: u32) -> bool
    ensures { result ≡ operations_let cfg os t }
{
    (0..cfg.operations.n).all(|o| operation_lets(t, os.get(o)))
}

fn timers_let(cfg: Config, ts: Timers, t: u32) -> bool
    ensures { result ≡ timers_let cfg ts t }
{
    (0..cfg.timers.n).all(|k| timer_lets(t, ts.get(k)))
}

fn slots_let(ss: Slots, t: u32) -> bool
    ensures { result ≡ slots_let ss t }
{
    (0..SLOTS).all(|i| slot_lets(t, ss.get(i)))
}

fn all_let(cfg: Config, os: Operations, ts: Timers, ss: Slots, t: u32) -> bool
    ensures { result ≡ both (operations_let cfg os t) (both (timers_let cfg ts t) (slots_let ss t)) }
{
    operations_let(cfg, os, t) && timers_let(cfg, ts, t) && slots_let(ss, t)
}

// Each of those has t less, and so has each start interval, which stops at 0.
#[tactic(auto, unfolding(effects::specs::Steps::operation_after))]
fn operation_after(t: u32, x: Operation) -> Operation
    ensures { result ≡ operation_after t x }
{
    if !x.calling {
        return x;
    }
    Operation {
        count: x.count.saturating_sub(t),
        ..x
    }
}

fn timer_after(t: u32, x: Timer) -> Timer
    ensures { result ≡ timer_after t x }
{
    Timer {
        count: x.count.saturating_sub(t),
    }
}

fn runnable_after(t: u32, x: Runnable) -> Runnable
    ensures { result ≡ runnable_after t x }
{
    Runnable {
        interval: x.interval.saturating_sub(t),
        ..x
    }
}

// An instance that is not held has 0 left, which stays.
fn slot_after(t: u32, x: Slot) -> Slot
    ensures { result ≡ slot_after t x }
{
    let a = x.life.awaited;
    let passed = Awaited {
        left: a.left.saturating_sub(t),
        ..a
    };
    shared_steps::awaiting(x, passed)
}

fn operations_after(cfg: Config, os: Operations, t: u32) -> Operations
    ensures { result ≡ operations_after cfg os t }
{
    let mut u = os;
    for o in 0..cfg.operations.n {
        u = u.with(o, operation_after(t, u.get(o)));
    }
    u
}

fn timers_after(cfg: Config, ts: Timers, t: u32) -> Timers
    ensures { result ≡ timers_after cfg ts t }
{
    let mut u = ts;
    for k in 0..cfg.timers.n {
        u = u.with(k, timer_after(t, u.get(k)));
    }
    u
}

fn runnables_after(cfg: Config, rs: Runnables, t: u32) -> Runnables
    ensures { result ≡ runnables_after cfg rs t }
{
    let n = shared_steps::within(cfg.runnables.n, RunnableConfs::MAX as u8);
    let mut u = rs;
    for r in 0..n {
        let k = r as usize;
        u.at[k] = runnable_after(t, u.at[k]);
    }
    u
}

fn slots_after(ss: Slots, t: u32) -> Slots
    ensures { result ≡ slots_after ss t }
{
    let mut u = ss;
    for x in u.at.iter_mut() {
        *x = slot_after(t, *x);
    }
    u
}

// Time passes if every open call, every timer and every held instance lets it.
#[tactic(auto, unfolding(effects::specs::Steps::wait_of, effects::specs::Steps::all_let, effects::specs::Steps::waited))]
pub fn wait(cfg: Config, st: State, t: u32) -> Stepped
    ensures { result ≡ wait_of cfg st t }
{
    if !all_let(cfg, st.operations, st.timers, st.slots, t) {
        return shared_steps::refuse(numbers::TOO_FAR, st);
    }
    let next = State {
        operations: operations_after(cfg, st.operations, t),
        timers: timers_after(cfg, st.timers, t),
        runnables: runnables_after(cfg, st.runnables, t),
        slots: slots_after(st.slots, t),
        ..st
    };
    shared_steps::take(Value::VOID, next)
}
