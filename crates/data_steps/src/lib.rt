// Steps 1 to 10, 20 and 21 as code, once refusals 2 to 5 have let them through: variables, areas, elements with the data events, and waiting for data. Each does what its definition in crate effects says, test for test.
#![tactic(auto)]

ghost use Rattle.std.specs.Prelude.{◌≡◌};
ghost use Rattle.state.specs.Tables.{slot_in, with_elements, with_runnables};
ghost use Rattle.rules.specs.Sound.{is_waiting};
ghost use Rattle.feeding.specs.Rooms.{is_full_by, full_mask_by, fed_runnables_by};
ghost use Rattle.effects.specs.Steps.{read_variable_of, write_variable_of, entering, exiting, enter_of, on_top, exit_of, seen, fed_elements, read_of, updated_of, write_of, invalidate_of, sent_of, send_of, receiving, receive_of, hold_of, give_up_of};

use config::{Config, RequiredConfs};
use feeding::Rooms;
use state::{Area, Awaited, Element, Slot, Slots, State, Stepped, Variable};
use values::Value;

// ---- 1, 2: variables

#[tactic(auto, unfolding(effects::specs::Steps::read_variable_of))]
pub fn read_variable(st: State, v: u8) -> Stepped
    ensures { result ≡ read_variable_of st v }
{
    shared_steps::take(st.variables.get(v).value, st)
}

#[tactic(auto, unfolding(effects::specs::Steps::write_variable_of))]
pub fn write_variable(st: State, v: u8, x: Value) -> Stepped
    ensures { result ≡ write_variable_of st v x }
{
    let next = State {
        variables: st.variables.with(v, Variable { value: x }),
        ..st
    };
    shared_steps::take(Value::VOID, next)
}

// ---- 3, 4: areas

fn entering(x: Slot, a: u8) -> Slot
    ensures { result ≡ entering x a }
{
    Slot {
        stack: x.stack.push(a),
        ..x
    }
}

fn exiting(x: Slot) -> Slot
    ensures { result ≡ exiting x }
{
    Slot {
        stack: x.stack.pop(),
        ..x
    }
}

#[tactic(auto, unfolding(effects::specs::Steps::enter_of))]
pub fn enter(st: State, i: u8, a: u8) -> Stepped
    ensures { result ≡ enter_of st i a }
{
    if st.areas.get(a).taken {
        return shared_steps::refuse(numbers::AREA_TAKEN, st);
    }
    let next = State {
        areas: st.areas.with(a, Area { taken: true }),
        slots: st.slots.with(i, entering(st.slots.get(i), a)),
        ..st
    };
    shared_steps::take(Value::VOID, next)
}

#[tactic(auto, unfolding(effects::specs::Steps::on_top))]
fn on_top(x: Slot, a: u8) -> bool
    ensures { result ≡ on_top x a }
{
    0 < x.stack.held && x.stack.top() == a
}

#[tactic(auto, unfolding(effects::specs::Steps::exit_of))]
pub fn exit(st: State, i: u8, a: u8) -> Stepped
    ensures { result ≡ exit_of st i a }
{
    let s = st.slots.get(i);
    if !on_top(s, a) {
        return shared_steps::refuse(numbers::NOT_ON_TOP, st);
    }
    let next = State {
        areas: st.areas.with(a, Area { taken: false }),
        slots: st.slots.with(i, exiting(s)),
        ..st
    };
    shared_steps::take(Value::VOID, next)
}

// ---- 5, 7: an unqueued element read, and its flag asked

fn seen(x: Element) -> Element
    ensures { result ≡ seen x }
{
    Element {
        updated: false,
        ..x
    }
}

#[tactic(auto, unfolding(effects::specs::Steps::read_of))]
pub fn read(st: State, q: u8) -> Stepped
    ensures { result ≡ read_of st q }
{
    let x = st.elements.get(q);
    let next = State {
        elements: st.elements.with(q, seen(x)),
        ..st
    };
    shared_steps::take(x.value, next)
}

#[tactic(auto, unfolding(effects::specs::Steps::updated_of))]
pub fn updated(st: State, q: u8) -> Stepped
    ensures { result ≡ updated_of st q }
{
    let x = st.elements.get(q);
    shared_steps::take(Value::of(u32::from(x.updated)), st)
}

// ---- 6, 8, 10: a value goes to every linked element

// Every linked element has taken the value, and data events have followed; the rooms are those before.
fn fed(cfg: Config, st: State, rooms: Rooms, p: u8, v: Value) -> State
    ensures { result ≡ with_runnables (with_elements st (fed_elements cfg p v st.elements)) (fed_runnables_by cfg rooms p st.runnables) }
{
    State {
        elements: feeding::fed_elements(cfg, p, v, st.elements),
        runnables: feeding::fed_runnables(cfg, rooms, p, st.runnables),
        ..st
    }
}

pub fn write(cfg: Config, st: State, p: u8, v: Value) -> Stepped
    ensures { result ≡ write_of cfg st p v }
{
    let rooms = Rooms::of(cfg, st.elements);
    shared_steps::take(Value::VOID, fed(cfg, st, rooms, p, v))
}

// No data events (ours).
#[tactic(auto, unfolding(effects::specs::Steps::invalidate_of))]
pub fn invalidate(cfg: Config, st: State, p: u8) -> Stepped
    ensures { result ≡ invalidate_of cfg st p }
{
    let next = State {
        elements: feeding::fed_elements(cfg, p, Value::INVALID, st.elements),
        ..st
    };
    shared_steps::take(Value::VOID, next)
}

// The linked queue q is full.
#[tactic(auto, unfolding(feeding::specs::Rooms::is_full_by, effects::specs::Steps::linked))]
fn is_full(cfg: Config, rooms: Rooms, p: u8, q: u8) -> bool
    ensures { result ≡ is_full_by cfg rooms p q }
{
    feeding::linked(cfg.links, p, q) && !rooms.get(q)
}

// The linked queues that are full, each as the bit of its element.
fn full_mask(cfg: Config, rooms: Rooms, p: u8) -> u32
    ensures { result ≡ full_mask_by cfg rooms p }
{
    let n = shared_steps::within(cfg.required.n, RequiredConfs::MAX as u8);
    let mut mask: u32 = 0;
    for q in 0..n {
        if is_full(cfg, rooms, p, q) {
            mask += 1 << q;
        }
    }
    mask
}

// Ok if no linked queue was full, else Full with the mask of those that were.
#[tactic(auto, unfolding(effects::specs::Steps::sent_of))]
fn sent(mask: u32) -> Value
    ensures { result ≡ sent_of mask }
{
    if mask == 0 {
        Value::OK
    } else {
        Value::full(mask)
    }
}

// The answer names the linked queues that were full.
pub fn send(cfg: Config, st: State, p: u8, v: Value) -> Stepped
    ensures { result ≡ send_of cfg st p v }
{
    let rooms = Rooms::of(cfg, st.elements);
    let next = fed(cfg, st, rooms, p, v);
    shared_steps::take(sent(full_mask(cfg, rooms, p)), next)
}

// ---- 9: receive

fn receiving(x: Element) -> Element
    ensures { result ≡ receiving x }
{
    Element {
        queue: x.queue.rest(),
        ..x
    }
}

// The oldest value, removed, and an instance that is held goes on; if there is none, NoData, and 10 for one that is held.
#[tactic(auto, unfolding(effects::specs::Steps::receive_of))]
pub fn receive(st: State, i: u8, q: u8) -> Stepped
    ensures { result ≡ receive_of st i q }
{
    let x = st.elements.get(q);
    if x.queue.queued == 0 {
        if waits(st.slots, i) {
            return shared_steps::refuse(numbers::STILL_WAITS, st);
        }
        return shared_steps::take(Value::NO_DATA, st);
    }
    let next = State {
        elements: st.elements.with(q, receiving(x)),
        ..st
    };
    shared_steps::take(x.queue.first(), shared_steps::gone_on(next, i))
}

// The instance in the slot i waits.
fn waits(slots: Slots, i: u8) -> bool
    ensures { result ≡ is_waiting (slot_in slots i).life }
{
    0 < slots.get(i).life.awaited.part
}

// ---- 20, 21: hold and give up

// An instance is held on the element q for t milliseconds at most, whether or not there is data already.
#[tactic(auto, unfolding(effects::specs::Steps::hold_of))]
pub fn hold(st: State, i: u8, q: u8, t: u32) -> Stepped
    ensures { result ≡ hold_of st i q t }
{
    let a = Awaited {
        part: numbers::TAG_REQUIRED,
        on: q,
        left: t,
    };
    shared_steps::take(Value::VOID, shared_steps::awaited(st, i, a))
}

// A held instance whose time is up goes on, with Timeout.
#[tactic(auto, unfolding(effects::specs::Steps::give_up_of))]
pub fn give_up(st: State, i: u8) -> Stepped
    ensures { result ≡ give_up_of st i }
{
    if st.slots.get(i).life.awaited.left == 0 {
        return shared_steps::take(Value::TIMEOUT, shared_steps::gone_on(st, i));
    }
    shared_steps::refuse(numbers::NOT_OVER, st)
}
