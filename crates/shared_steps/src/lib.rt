// What the code of all steps shares: a step refused or taken, what an instance waits for, a runnable woken, and how far a loop over a table goes.
#![tactic(auto)]

ghost use Rattle.std.specs.Prelude.{◌≡◌, ◌≤◌, ltb};
ghost use Rattle.laws.specs.Choice.{pick};
ghost use Rattle.effects.specs.Steps.{awaited};
ghost use Rattle.effects.specs.Steps.{refused, took, one_more, woken, awaiting, gone_on};

use config::RunnableConf;
use state::{Awaited, Life, Runnable, Slot, State, Stepped};
use values::{Answer, Value};

// A refusal leaves the state as it was.
pub fn refuse(n: u8, st: State) -> Stepped
    ensures { result ≡ refused n st }
{
    Stepped {
        answer: Answer::Refused(n),
        state: st,
    }
}

// A step taken: its answer, and the state after it.
pub fn take(v: Value, st: State) -> Stepped
    ensures { result ≡ took v st }
{
    Stepped {
        answer: Answer::Taken(v),
        state: st,
    }
}

// The slot with what its instance waits for.
pub fn awaiting(x: Slot, a: Awaited) -> Slot
    ensures { result ≡ awaiting x a }
{
    Slot {
        life: Life {
            awaited: a,
            ..x.life
        },
        ..x
    }
}

// The state with what the instance i waits for.
pub fn awaited(st: State, i: u8, a: Awaited) -> State
    ensures { result ≡ awaited st i a }
{
    State {
        slots: st.slots.with(i, awaiting(st.slots.get(i), a)),
        ..st
    }
}

// The state after the instance i has gone on: it waits no longer.
pub fn gone_on(st: State, i: u8) -> State
    ensures { result ≡ gone_on st i }
{
    awaited(st, i, Awaited::BLANK)
}

// How many places of a table a loop goes over: those in use, which are no more than there are.
pub fn within(n: u8, top: u8) -> u8
    ensures { (result ≤ top) × (result ≡ pick (ltb n top) n top) }
{
    n.min(top)
}

// One more, but never past the top.
#[tactic(auto, unfolding(effects::specs::Steps::one_more))]
fn one_more(top: u8, n: u8) -> u8
    ensures { result ≡ one_more top n }
{
    if n < top { n + 1 } else { n }
}

// A runnable has one more activation pending, up to its top.
pub fn woken(c: RunnableConf, x: Runnable) -> Runnable
    ensures { result ≡ woken c x }
{
    Runnable {
        pending: one_more(c.top(), x.pending),
        ..x
    }
}

pub fn woken_if(b: bool, c: RunnableConf, x: Runnable) -> Runnable
    ensures { result ≡ pick b (woken c x) x }
{
    if b { woken(c, x) } else { x }
}
