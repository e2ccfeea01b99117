// Why a step is refused, finer than its number, number by number: which slot, which need, which count.
#![tactic(auto)]

ghost use Rattle.std.specs.Prelude.{◌≡◌, ◌<◌, get_or, MatchOption};
ghost use Rattle.config.specs.Tables.{runnable_conf_in};
ghost use Rattle.state.specs.Tables.{max_slots, runnable_in, slot_in};
ghost use Rattle.whys.specs.Whys.{form_cause, slot_cause, code_cause, part_cause, there_cause, own_cause, life_cause, holds_of, holder_of, top_cause, full_cause, serves_as, bearer_of, borne_cause, open_cause, due_cause, spawn_cause, stop_cause, early_cause, still_cause, owed_cause, why_of};

use config::{Config, RunnableConf};
use rules::{A_SLOT, NO_PART, Row, SCHEDULER};
use state::{Life, Owed, Runnable, Slots, Stack, State};
use values::{Step, Value};

// Why a step is refused, by the numbers of refusal in brackets, with what tells one case from the next.
#[derive(Clone, Copy)]
pub enum Cause {
    // it is not refused
    NoCause,
    // (2) the code is none of 1 to 23; the scheduler has no slot; no part is named here; the argument is not of this kind: 0 none, 1 a payload, 2 a Number, 3 a time; an instance that has failed hands back a Number
    NoCode,
    HasWho,
    HasWhat,
    BadArgument(u8),
    HandsNumber,
    // (30) the configuration is of this edition, which has no such step
    StepGone(u8),
    // (3) there is no such slot; nothing is in it; there are only so many parts of the kind; this runnable does not list the element, by its tag and number
    NoSlot,
    EmptySlot,
    NoPart(u8),
    NotListed(u8, u8, u8),
    // (4) the part is of the first component, the instance of the second; the element is queued; it is not
    Foreign(u8, u8),
    IsQueued,
    NotQueued,
    // (5) the instance waits on this operation; it is held on this element; it is finished; it has failed, and not handed back; it has failed, and handed back; it does not wait
    WaitsOn(u8),
    HeldOn(u8),
    IsFinished,
    HasFailed,
    FailedBack,
    NotWaiting,
    // (6) the area is held by this slot
    HeldBy(u8),
    // (7) no area is held; this one is on top
    NoneHeld,
    OnTop(u8),
    // (8) the queue of this server is full, which has room for so many
    QueueFull(u8, u8),
    // (28) this slot serves an earlier call that bears the operation's number; one that does waits in the queue of this server
    StillServed(u8),
    StillQueued(u8),
    // (10) the call is open, with so many ms left; the queue is empty, and the instance is held for so many ms still
    CallOpen(u32),
    QueueEmpty(u32),
    // (11) the start interval has so many ms left; so many instances run; it is not pending; no request waits
    InInterval(u32),
    Runs(u8),
    NotPending,
    NoRequest,
    // (12) all slots are in use
    NoRoom,
    // (13) the count of this operation or timer, by its tag and number, lets no more ms pass than this; the instance in this slot, which is held, lets no more
    Stops(u8, u8, u32),
    HoldStops(u8, u32),
    // (14) no call is open; the call, the timer, or the held instance, has so many ms left
    NotOpen,
    CallRuns(u32),
    TimerRuns(u32),
    HoldRuns(u32),
    // (15) this area is on top of those that are still held
    StillHeld(u8),
    // (16) the instance has no client; it has one, of this operation
    NoClient,
    HasClient(u8),
    // (17) this is the right answer
    Differs(Value),
}

const SLOTS: u8 = Slots::MAX as u8;

// 2: an entry that the code leaves empty is filled, or the argument is not of its kind.
#[tactic(auto, unfolding(crate::specs::Whys::form_cause))]
fn form_cause(row: Row, s: Step) -> Cause
    ensures { result ≡ form_cause row s }
{
    if row.part == NO_PART && 0 < s.what {
        Cause::HasWhat
    } else {
        Cause::BadArgument(row.argument)
    }
}

// 2 of a slot's step: its entries, or a Number handed back by an instance that has failed.
#[tactic(auto, unfolding(crate::specs::Whys::slot_cause))]
fn slot_cause(row: Row, s: Step) -> Cause
    ensures { result ≡ slot_cause row s }
{
    if refusals::formed(row, s.what, s.argument) {
        Cause::HandsNumber
    } else {
        form_cause(row, s)
    }
}

#[tactic(auto, unfolding(crate::specs::Whys::code_cause))]
fn code_cause(row: Row, s: Step) -> Cause
    ensures { result ≡ code_cause row s }
{
    match row.who {
        A_SLOT => slot_cause(row, s),
        SCHEDULER if s.who == 0 => form_cause(row, s),
        SCHEDULER => Cause::HasWho,
        _ => Cause::NoCode,
    }
}

// 3 by an instance of the runnable r: the part is there, and so not in the runnable's list; else it is not there.
#[tactic(auto, unfolding(crate::specs::Whys::part_cause))]
fn part_cause(cfg: Config, r: u8, row: Row, n: u8) -> Cause
    ensures { result ≡ part_cause cfg r row n }
{
    let most = entries::count_of(cfg, row.part);
    if n < most {
        Cause::NotListed(r, row.part, n)
    } else {
        Cause::NoPart(most)
    }
}

// 3: the slot or the part is not there, or the part is not listed.
#[tactic(auto, unfolding(crate::specs::Whys::there_cause))]
fn there_cause(cfg: Config, slots: Slots, row: Row, s: Step) -> Cause
    ensures { result ≡ there_cause cfg slots row s }
{
    if row.who != A_SLOT {
        return Cause::NoPart(entries::count_of(cfg, row.part));
    }
    if SLOTS <= s.who {
        return Cause::NoSlot;
    }
    let x = slots.get(s.who);
    if x.used {
        part_cause(cfg, x.life.runnable, row, s.what)
    } else {
        Cause::EmptySlot
    }
}

// 4: the part is another component's, or an element is queued that should not be, or the other way round.
#[tactic(auto, unfolding(crate::specs::Whys::own_cause))]
fn own_cause(cfg: Config, slots: Slots, row: Row, s: Step) -> Cause
    ensures { result ≡ own_cause cfg slots row s }
{
    let own = cfg.runnables.get(slots.get(s.who).life.runnable).component;
    let e = entries::entry_of(cfg, row.part, s.what);
    if e.first != own {
        Cause::Foreign(e.first, own)
    } else if 0 < e.second {
        Cause::IsQueued
    } else {
        Cause::NotQueued
    }
}

// 5: the instance waits or is held, has failed, is finished, or does not wait.
#[tactic(auto, unfolding(crate::specs::Whys::life_cause))]
fn life_cause(l: Life, s: Step) -> Cause
    ensures { result ≡ life_cause l s }
{
    if refusals::waiting_lets(l, s.code, s.what) {
        match (l.failed, l.finished) {
            (true, true) => Cause::FailedBack,
            (true, false) => Cause::HasFailed,
            (false, true) => Cause::IsFinished,
            (false, false) => Cause::NotWaiting,
        }
    } else if l.awaited.part == numbers::TAG_OPERATION {
        Cause::WaitsOn(l.awaited.on)
    } else {
        Cause::HeldOn(l.awaited.on)
    }
}

fn area_at(s: Stack, j: u8) -> u8
    ensures { result ≡ get_or s.at j 0 }
{
    s.at.get(j as usize).copied().unwrap_or(0)
}

// The area a is in the stack.
fn holds(a: u8, s: Stack) -> bool
    ensures { result ≡ holds_of a s }
{
    (0..s.held).any(|j| area_at(s, j) == a)
}

// The slot that holds the area a, or how many slots there are.
// Kept: the number past the last stands for none, as the definition holder_of has it.
fn holder(slots: Slots, a: u8) -> u8
    ensures { result ≡ holder_of slots a }
{
    (0..SLOTS)
        .find(|k| holds(a, slots.get(*k).stack))
        .unwrap_or(SLOTS)
}

// 7: another area is on top, or none is held.
#[tactic(auto, unfolding(crate::specs::Whys::top_cause))]
fn top_cause(slots: Slots, i: u8) -> Cause
    ensures { result ≡ top_cause slots i }
{
    let t = slots.get(i).stack;
    if 0 < t.held {
        Cause::OnTop(t.top())
    } else {
        Cause::NoneHeld
    }
}

// 8: the server's queue is full.
#[tactic(auto, unfolding(crate::specs::Whys::full_cause))]
fn full_cause(cfg: Config, o: u8) -> Cause
    ensures { result ≡ full_cause cfg o }
{
    let server = cfg.operations.get(o).server;
    Cause::QueueFull(server, cfg.runnables.get(server).capacity)
}

// The instance has a client of the operation o with the number m.
#[tactic(auto, unfolding(crate::specs::Whys::serves_as, rules::specs::Sound::is_client))]
fn serves_as(o: u8, m: u16, w: Owed) -> bool
    ensures { result ≡ serves_as o m w }
{
    w.serving && w.client.operation == o && w.client.number == m
}

// The slot whose instance does, if there is one.
fn bearer(slots: Slots, o: u8, m: u16) -> Option<u8>
    ensures { MatchOption result (bearer_of slots o m ≡ max_slots) (λ k. (k < max_slots) × (bearer_of slots o m ≡ k)) }
{
    (0..SLOTS).find(|k| serves_as(o, m, slots.get(*k).owed))
}

// 28: the slot that serves the old client, or the server in whose queue it waits.
#[tactic(auto, unfolding(crate::specs::Whys::borne_cause))]
fn borne_cause(cfg: Config, st: State, o: u8) -> Cause
    ensures { result ≡ borne_cause cfg st o }
{
    match bearer(st.slots, o, st.operations.get(o).number) {
        Some(i) => Cause::StillServed(i),
        None => Cause::StillQueued(cfg.operations.get(o).server),
    }
}

// 11: the first of the three needs that is missing.
#[tactic(auto, unfolding(crate::specs::Whys::spawn_cause))]
fn spawn_cause(c: RunnableConf, x: Runnable) -> Cause
    ensures { result ≡ spawn_cause c x }
{
    if 0 < x.interval {
        Cause::InInterval(x.interval)
    } else if !c.concurrent && 0 < x.instances {
        Cause::Runs(x.instances)
    } else {
        due_cause(c.capacity)
    }
}

// The third need: a plain runnable is not pending, a server has no request.
#[tactic(auto, unfolding(crate::specs::Whys::due_cause))]
fn due_cause(capacity: u8) -> Cause
    ensures { result ≡ due_cause capacity }
{
    if capacity == 0 {
        Cause::NotPending
    } else {
        Cause::NoRequest
    }
}

// 13: the first part whose count lets no more than t pass.
#[tactic(auto, unfolding(crate::specs::Whys::stop_cause))]
fn stop_cause(cfg: Config, st: State, t: u32) -> Cause
    ensures { result ≡ stop_cause cfg st t }
{
    let o = passing::operation_stop(cfg, st.operations, t);
    if o < cfg.operations.n {
        return Cause::Stops(numbers::TAG_OPERATION, o, t);
    }
    let k = passing::timer_stop(cfg, st.timers, t);
    if k < cfg.timers.n {
        return Cause::Stops(numbers::TAG_TIMER, k, t);
    }
    Cause::HoldStops(passing::slot_stop(st.slots, t), t)
}

// How long the instance in the slot i is held still.
fn left_of(slots: Slots, i: u8) -> u32
    ensures { result ≡ (slot_in slots i).life.awaited.left }
{
    slots.get(i).life.awaited.left
}

// 14: no call is open, or the count has not run out.
#[tactic(auto, unfolding(crate::specs::Whys::early_cause))]
fn early_cause(st: State, s: Step) -> Cause
    ensures { result ≡ early_cause st s }
{
    match s.code {
        numbers::CODE_TIMEOUT => {
            let x = st.operations.get(s.what);
            if x.calling {
                Cause::CallRuns(x.count)
            } else {
                Cause::NotOpen
            }
        }
        numbers::CODE_GIVE_UP => Cause::HoldRuns(left_of(st.slots, s.who)),
        _ => Cause::TimerRuns(st.timers.get(s.what).count),
    }
}

// 16: no client, or one that is still owed its answer.
#[tactic(auto, unfolding(crate::specs::Whys::owed_cause))]
fn owed_cause(slots: Slots, i: u8) -> Cause
    ensures { result ≡ owed_cause slots i }
{
    let w = slots.get(i).owed;
    if w.serving {
        Cause::HasClient(w.client.operation)
    } else {
        Cause::NoClient
    }
}

// 15: the area on top of those that are still held.
#[tactic(auto, unfolding(crate::specs::Whys::still_cause))]
fn still_cause(slots: Slots, i: u8) -> Cause
    ensures { result ≡ still_cause slots i }
{
    Cause::StillHeld(slots.get(i).stack.top())
}

// 10: how long the open call may last still, or the instance is held still.
#[tactic(auto, unfolding(crate::specs::Whys::open_cause))]
fn open_cause(st: State, s: Step) -> Cause
    ensures { result ≡ open_cause st s }
{
    if s.code == numbers::CODE_RECEIVE {
        Cause::QueueEmpty(left_of(st.slots, s.who))
    } else {
        Cause::CallOpen(st.operations.get(s.what).count)
    }
}

fn unspawned_cause(cfg: Config, st: State, r: u8) -> Cause
    ensures { result ≡ spawn_cause (runnable_conf_in cfg.runnables r) (runnable_in st.runnables r) }
{
    spawn_cause(cfg.runnables.get(r), st.runnables.get(r))
}

// The cause of a refusal with the number n.
#[tactic(auto, unfolding(crate::specs::Whys::why_of))]
pub fn why(cfg: Config, st: State, s: Step, n: u8) -> Cause
    ensures { result ≡ why_of cfg st s n }
{
    let slots = st.slots;
    let row = refusals::row_of(s.code);
    match n {
        numbers::MALFORMED => code_cause(row, s),
        numbers::NOT_THERE => there_cause(cfg, slots, row, s),
        numbers::NOT_OWN => own_cause(cfg, slots, row, s),
        numbers::BARRED => life_cause(slots.get(s.who).life, s),
        numbers::AREA_TAKEN => Cause::HeldBy(holder(slots, s.what)),
        numbers::NOT_ON_TOP => top_cause(slots, s.who),
        numbers::QUEUE_FULL => full_cause(cfg, s.what),
        numbers::NUMBER_BORNE => borne_cause(cfg, st, s.what),
        numbers::STILL_WAITS => open_cause(st, s),
        numbers::NOT_DUE => unspawned_cause(cfg, st, s.what),
        numbers::NO_SLOT_FREE => Cause::NoRoom,
        numbers::TOO_FAR => stop_cause(cfg, st, passing::passes(cfg, st, s.argument.number)),
        numbers::NOT_OVER => early_cause(st, s),
        numbers::AREAS_HELD => still_cause(slots, s.who),
        numbers::STEP_GONE => Cause::StepGone(cfg.edition),
        _ => owed_cause(slots, s.who),
    }
}
