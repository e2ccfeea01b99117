// A value goes to every linked element, for all steps that hand one over: the elements after it, and the runnables that data events wake.
#![tactic(auto)]

ghost use Rattle.std.specs.Prelude.{◌≡◌, not, ℕ, ltb};
ghost use Rattle.laws.specs.Choice.{either};
ghost use Rattle.laws.specs.Loop.{any_below};
ghost use Rattle.config.specs.Tables.{link_in};
ghost use Rattle.feeding.specs.Rooms.{room_in, rooms_of, feeds_by, is_fed_by, fed_runnables_by};
ghost use Rattle.effects.specs.Steps.{joins, storing, queueing, fed_element, fed_elements};

use config::{Config, Link, Links, RequiredConfs, RunnableConfs};
use state::{Element, Elements, Runnables};
use values::Value;

fn joins(k: Link, p: u8, q: u8) -> bool
    ensures { result ≡ joins k p q }
{
    k.provided == p && k.required == q
}

// The provided element p is linked to the required element q.
pub fn linked(t: Links, p: u8, q: u8) -> bool
    ensures { result ≡ any_below (λ (l : ℕ). joins (link_in t l) p q) t.n }
{
    (0..t.n).any(|l| joins(t.get(l), p, q))
}

// An unqueued element takes any value, a queued one while it has room.
fn accepts(capacity: u8, queued: u8) -> bool
    ensures { result ≡ either (not (ltb 0 capacity)) (ltb queued capacity) }
{
    capacity == 0 || queued < capacity
}

fn storing(v: Value, x: Element) -> Element
    ensures { result ≡ storing v x }
{
    Element {
        value: v,
        updated: true,
        ..x
    }
}

fn queueing(v: Value, x: Element) -> Element
    ensures { result ≡ queueing v x }
{
    Element {
        queue: x.queue.push(v),
        ..x
    }
}

// The element q after p has handed over v: a full queue drops it, and stops no other.
#[tactic(auto, unfolding(effects::specs::Steps::fed_element, effects::specs::Steps::linked, effects::specs::Steps::accepts, entries::specs::Faults::is_queued))]
fn fed_element(cfg: Config, p: u8, v: Value, q: u8, x: Element) -> Element
    ensures { result ≡ fed_element cfg p v q x }
{
    let c = cfg.required.get(q);
    if linked(cfg.links, p, q) && accepts(c.capacity, x.queue.queued) {
        if 0 < c.capacity {
            queueing(v, x)
        } else {
            storing(v, x)
        }
    } else {
        x
    }
}

// Every element after p has handed over v.
// Kept: three loops here, and no function over a row that takes a closure, as in crate copies: the closure takes a copy of the tables at each turn, and a send took a third longer.
pub fn fed_elements(cfg: Config, p: u8, v: Value, t: Elements) -> Elements
    ensures { result ≡ fed_elements cfg p v t }
{
    let n = shared_steps::within(cfg.required.n, RequiredConfs::MAX as u8);
    let mut u = t;
    for q in 0..n {
        let k = q as usize;
        u.at[k] = fed_element(cfg, p, v, q, u.at[k]);
    }
    u
}

// Which required elements take one more value. Past the last place there is none, and nothing holds a value back.
#[derive(Clone, Copy)]
pub struct Rooms {
    pub at: [bool; RequiredConfs::MAX],
}

impl Rooms {
    pub fn of(cfg: Config, t: Elements) -> Rooms
        ensures { result ≡ rooms_of cfg t }
    {
        let mut u = Rooms {
            at: [true; RequiredConfs::MAX],
        };
        for q in 0..RequiredConfs::MAX {
            u.at[q] = accepts(cfg.required.part(q).capacity, t.at[q].queue.queued);
        }
        u
    }

    #[tactic(auto, unfolding(crate::specs::Rooms::room_in))]
    pub fn get(self, q: u8) -> bool
        ensures { result ≡ room_in self q }
    {
        self.at.get(q as usize).copied().unwrap_or(true)
    }
}

// The data event e is one of r, and its element stores what p hands over.
#[tactic(auto, unfolding(crate::specs::Rooms::feeds_by, effects::specs::Steps::linked))]
fn feeds(cfg: Config, rooms: Rooms, p: u8, r: u8, e: u8) -> bool
    ensures { result ≡ feeds_by cfg rooms p r e }
{
    let d = cfg.devents.get(e);
    d.runnable == r && linked(cfg.links, p, d.required) && rooms.get(d.required)
}

pub fn is_fed(cfg: Config, rooms: Rooms, p: u8, r: u8) -> bool
    ensures { result ≡ is_fed_by cfg rooms p r }
{
    (0..cfg.devents.n).any(|e| feeds(cfg, rooms, p, r, e))
}

// Each runnable that data events wake, once.
pub fn fed_runnables(cfg: Config, rooms: Rooms, p: u8, rs: Runnables) -> Runnables
    ensures { result ≡ fed_runnables_by cfg rooms p rs }
{
    let n = shared_steps::within(cfg.runnables.n, RunnableConfs::MAX as u8);
    let mut u = rs;
    for r in 0..n {
        let k = r as usize;
        u.at[k] = shared_steps::woken_if(is_fed(cfg, rooms, p, r), cfg.runnables.at[k], u.at[k]);
    }
    u
}
