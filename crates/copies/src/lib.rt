// Copies of elements that live with an instance: steps 22 and 23, and what spawn and end do with them. Each does what its definition in crate effects says, test for test.
#![tactic(auto)]

ghost use Rattle.std.specs.Prelude.{◌≡◌, ◌≤◌, length, ℕ};
ghost use Rattle.laws.specs.Choice.{pick};
ghost use Rattle.laws.specs.Row.{each_below};
ghost use Rattle.config.specs.Tables.{max_listed};
ghost use Rattle.config.specs.Lists.{element_at};
ghost use Rattle.state.specs.Tables.{copy_in};
ghost use Rattle.effects.specs.Steps.{seen, lists_some, fed_elements, is_given, given_elements, handed_on, cleared, uncopied, copy_of, copies_of, seen_elements, copied_elements, copied_into, copied_to, read_copy_of, write_copy_of};
ghost use Rattle.copies.specs.Given.{gives_by, is_given_by, given_runnables_by};

use config::{Config, Lists, RequiredConfs, RunnableConfs};
use feeding::Rooms;
use state::{Copied, Copies, Element, Elements, Runnables, State, Stepped};
use values::Value;

// The runnable r lists elements.
pub fn lists_some(t: Lists, r: u8) -> bool
    ensures { result ≡ lists_some t r }
{
    t.lists_at(r, 0)
}

// The first n places of a row, each changed by f, which knows the place.
// Kept: each public function has one answer (docs/contracts.md), and what this one answers is left to its closure, so it stays private.
fn each<T: Copy, F: Fn(u8, T) -> T>(row: &mut [T], n: u8, f: F)
    requires room { n ≤ length row.old }
    requires calls { F.IsAlwaysCallable f }
    ensures { (g : ℕ → T → T) (d : T) → ((k : ℕ) (x y : T) → F.post f k x y → y ≡ g k x) → row.new ≡ each_below g d n row.old }
{
    for k in 0..n {
        let i = k as usize;
        row[i] = f(k, row[i]);
    }
}

// ---- at end: what was set is written

// The element at place j of r's list was set.
#[tactic(auto, unfolding(effects::specs::Steps::is_given))]
fn is_given(t: Lists, r: u8, c: Copies, j: u8) -> bool
    ensures { result ≡ is_given t r c j }
{
    t.lists_at(r, j) && c.get(j).is_payload()
}

// The element at place j is written, if it was set.
fn given_at(cfg: Config, r: u8, c: Copies, j: u8, t: Elements) -> Elements
    ensures { result ≡ pick (is_given cfg.outgoing r c j) (fed_elements cfg (element_at cfg.outgoing r j) (copy_in c j) t) t }
{
    if is_given(cfg.outgoing, r, c, j) {
        feeding::fed_elements(cfg, cfg.outgoing.element_at(r, j), c.get(j), t)
    } else {
        t
    }
}

// In list order, each over what the one before has left.
fn given_elements(cfg: Config, r: u8, c: Copies, t: Elements) -> Elements
    ensures { result ≡ given_elements cfg r c max_listed t }
{
    let mut u = t;
    for j in 0..Lists::MAX_LISTED {
        u = given_at(cfg, r, c, j, u);
    }
    u
}

// The element at place j was set, and feeds a data event of the runnable k.
#[tactic(auto, unfolding(crate::specs::Given::gives_by))]
fn gives(cfg: Config, rooms: Rooms, r: u8, c: Copies, k: u8, j: u8) -> bool
    ensures { result ≡ gives_by cfg rooms r c k j }
{
    is_given(cfg.outgoing, r, c, j) && feeding::is_fed(cfg, rooms, cfg.outgoing.element_at(r, j), k)
}

// Some element that was set feeds a data event of the runnable k.
fn is_given_to(cfg: Config, rooms: Rooms, r: u8, c: Copies, k: u8) -> bool
    ensures { result ≡ is_given_by cfg rooms r c k }
{
    (0..Lists::MAX_LISTED).any(|j| gives(cfg, rooms, r, c, k, j))
}

// Each runnable that these data events wake, once.
fn given_runnables(cfg: Config, rooms: Rooms, r: u8, c: Copies, rs: Runnables) -> Runnables
    ensures { result ≡ given_runnables_by cfg rooms r c rs }
{
    let n = shared_steps::within(cfg.runnables.n, RunnableConfs::MAX as u8);
    let mut u = rs;
    each(&mut u.at, n, |k, x| {
        shared_steps::woken_if(is_given_to(cfg, rooms, r, c, k), cfg.runnables.get(k), x)
    });
    u
}

// What the instance i has set is written, if it lists elements and has not failed.
pub fn handed_on(cfg: Config, st: State, i: u8) -> State
    ensures { result ≡ handed_on cfg st i }
{
    let life = st.slots.get(i).life;
    let r = life.runnable;
    if !lists_some(cfg.outgoing, r) || life.failed {
        return st;
    }
    let c = st.outgoing.get(i);
    let rooms = Rooms::of(cfg, st.elements);
    State {
        elements: given_elements(cfg, r, c, st.elements),
        runnables: given_runnables(cfg, rooms, r, c, st.runnables),
        ..st
    }
}

// No copies in the slot i of the runnable r.
#[tactic(auto, unfolding(effects::specs::Steps::cleared, state::specs::Parts::no_copies))]
fn cleared(t: Lists, r: u8, cs: Copied, i: u8) -> Copied
    ensures { result ≡ cleared t r cs i }
{
    if lists_some(t, r) {
        cs.with(i, Copies::BLANK)
    } else {
        cs
    }
}

pub fn uncopied(cfg: Config, st: State, r: u8, i: u8) -> State
    ensures { result ≡ uncopied cfg st r i }
{
    State {
        incoming: cleared(cfg.incoming, r, st.incoming, i),
        outgoing: cleared(cfg.outgoing, r, st.outgoing, i),
        ..st
    }
}

// ---- at spawn: what is listed is copied

// The copy at place j of a new instance of r.
#[tactic(auto, unfolding(effects::specs::Steps::copy_of))]
fn copy_of(t: Lists, r: u8, es: Elements, j: u8) -> Value
    ensures { result ≡ copy_of t r es j }
{
    if t.lists_at(r, j) {
        es.get(t.element_at(r, j)).value
    } else {
        Value::NEVER_RECEIVED
    }
}

fn copies_of(t: Lists, r: u8, es: Elements) -> Copies
    ensures { result ≡ copies_of t r es }
{
    let mut c = Copies::BLANK;
    each(&mut c.at, Lists::MAX_LISTED, |j, _| copy_of(t, r, es, j));
    c
}

// The element q, whose flag goes off if r lists it.
fn seen_if(listed: bool, x: Element) -> Element
    ensures { result ≡ pick listed (seen x) x }
{
    if listed {
        Element {
            updated: false,
            ..x
        }
    } else {
        x
    }
}

fn seen_elements(cfg: Config, r: u8, es: Elements) -> Elements
    ensures { result ≡ seen_elements cfg r es }
{
    let n = shared_steps::within(cfg.required.n, RequiredConfs::MAX as u8);
    let mut u = es;
    each(&mut u.at, n, |q, x| seen_if(cfg.incoming.has(r, q), x));
    u
}

#[tactic(auto, unfolding(effects::specs::Steps::copied_elements))]
fn copied_elements(cfg: Config, r: u8, es: Elements) -> Elements
    ensures { result ≡ copied_elements cfg r es }
{
    if lists_some(cfg.incoming, r) {
        seen_elements(cfg, r, es)
    } else {
        es
    }
}

#[tactic(auto, unfolding(effects::specs::Steps::copied_into))]
fn copied_into(cfg: Config, r: u8, es: Elements, cs: Copied, k: u8) -> Copied
    ensures { result ≡ copied_into cfg r es cs k }
{
    if lists_some(cfg.incoming, r) {
        cs.with(k, copies_of(cfg.incoming, r, es))
    } else {
        cs
    }
}

// An instance of r in the slot k has copied the elements that r lists.
pub fn copied_to(cfg: Config, st: State, r: u8, k: u8) -> State
    ensures { result ≡ copied_to cfg st r k }
{
    State {
        elements: copied_elements(cfg, r, st.elements),
        incoming: copied_into(cfg, r, st.elements, st.incoming, k),
        ..st
    }
}

// ---- 22, 23: copies read and set

#[tactic(auto, unfolding(effects::specs::Steps::read_copy_of))]
pub fn read_copy(cfg: Config, st: State, i: u8, q: u8) -> Stepped
    ensures { result ≡ read_copy_of cfg st i q }
{
    let r = st.slots.get(i).life.runnable;
    let c = st.incoming.get(i);
    shared_steps::take(c.get(cfg.incoming.place(r, q)), st)
}

#[tactic(auto, unfolding(effects::specs::Steps::write_copy_of))]
pub fn write_copy(cfg: Config, st: State, i: u8, p: u8, v: Value) -> Stepped
    ensures { result ≡ write_copy_of cfg st i p v }
{
    let r = st.slots.get(i).life.runnable;
    let c = st.outgoing.get(i);
    let outgoing = st.outgoing.with(i, c.with(cfg.outgoing.place(r, p), v));
    shared_steps::take(Value::VOID, State { outgoing, ..st })
}
