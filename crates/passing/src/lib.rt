// How far time may go, and which count lets no more of it pass.
#![tactic(auto)]

ghost use Rattle.std.specs.Prelude.{◌≡◌, ℕ};
ghost use Rattle.passing.specs.Passing.{least_below, operation_left, slot_left, operations_pass, timers_pass, slots_pass, passes_of, operation_stops, timer_stops, slot_stops, operation_stop, timer_stop, slot_stop};

use config::Config;
use state::{Operation, Operations, Slot, Slots, State, Timer, Timers};

// How many slots there are, as a number of a slot.
const SLOTS: u8 = Slots::MAX as u8;

#[tactic(auto, unfolding(crate::specs::Passing::operation_left))]
fn operation_left(t: u32, x: Operation) -> u32
    ensures { result ≡ operation_left t x }
{
    if x.calling { x.count } else { t }
}

#[tactic(auto, unfolding(crate::specs::Passing::slot_left))]
fn slot_left(t: u32, x: Slot) -> u32
    ensures { result ≡ slot_left t x }
{
    let a = x.life.awaited;
    if a.part == numbers::TAG_REQUIRED {
        a.left
    } else {
        t
    }
}

// The least of t and of what f gives at the numbers below n.
fn least_of<F: Fn(u8) -> u32>(n: u8, t: u32, f: F) -> u32
    requires { F.IsAlwaysCallable f }
    ensures { (g : ℕ → ℕ) → ((k y : ℕ) → F.post f k y → y ≡ g k) → result ≡ least_below g t n }
{
    let mut u = t;
    for k in 0..n {
        u = u.min(f(k));
    }
    u
}

fn operations_pass(cfg: Config, os: Operations, t: u32) -> u32
    ensures { result ≡ operations_pass cfg os t }
{
    least_of(cfg.operations.n, t, |o| operation_left(t, os.get(o)))
}

fn timers_pass(cfg: Config, ts: Timers, t: u32) -> u32
    ensures { result ≡ timers_pass cfg ts t }
{
    least_of(cfg.timers.n, t, |k| ts.get(k).count)
}

fn slots_pass(ss: Slots, t: u32) -> u32
    ensures { result ≡ slots_pass ss t }
{
    least_of(SLOTS, t, |i| slot_left(t, ss.get(i)))
}

// How much of t milliseconds may pass: all of it, or as much as the least count of an open call, a timer or a held instance lets.
pub fn passes(cfg: Config, st: State, t: u32) -> u32
    ensures { result ≡ passes_of cfg st t }
{
    let a = operations_pass(cfg, st.operations, t);
    let b = timers_pass(cfg, st.timers, t);
    let c = slots_pass(st.slots, t);
    a.min(b.min(c))
}

// Whether a count lets no more than t pass: that of an open call, of a timer, of a held instance.
#[tactic(auto, unfolding(crate::specs::Passing::operation_stops))]
fn operation_stops(t: u32, x: Operation) -> bool
    ensures { result ≡ operation_stops t x }
{
    x.calling && x.count <= t
}

#[tactic(auto, unfolding(crate::specs::Passing::timer_stops))]
fn timer_stops(t: u32, x: Timer) -> bool
    ensures { result ≡ timer_stops t x }
{
    x.count <= t
}

#[tactic(auto, unfolding(crate::specs::Passing::slot_stops))]
fn slot_stops(t: u32, x: Slot) -> bool
    ensures { result ≡ slot_stops t x }
{
    let a = x.life.awaited;
    a.part == numbers::TAG_REQUIRED && a.left <= t
}

// The first operation whose count lets no more than t pass, or how many operations there are; and so for timers and for slots.
// Kept: the number past the last stands for none, as the definition operation_stop has it.
pub fn operation_stop(cfg: Config, os: Operations, t: u32) -> u8
    ensures { result ≡ operation_stop cfg os t }
{
    let n = cfg.operations.n;
    (0..n).find(|o| operation_stops(t, os.get(*o))).unwrap_or(n)
}

// Kept: the number past the last stands for none, as the definition timer_stop has it.
pub fn timer_stop(cfg: Config, ts: Timers, t: u32) -> u8
    ensures { result ≡ timer_stop cfg ts t }
{
    let n = cfg.timers.n;
    (0..n).find(|k| timer_stops(t, ts.get(*k))).unwrap_or(n)
}

// Kept: the number past the last stands for none, as the definition slot_stop has it.
pub fn slot_stop(ss: Slots, t: u32) -> u8
    ensures { result ≡ slot_stop ss t }
{
    (0..SLOTS)
        .find(|i| slot_stops(t, ss.get(*i)))
        .unwrap_or(SLOTS)
}
