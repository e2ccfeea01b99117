// The test of a state: the slots are walked once, with a tally that is carried by value, and every other table once behind them, against the tally.
// What is tested of one part is a sentence of "A sound state" and does what its definition in crate rules says, test for test.
// Where a test reads one table of the configuration its function is handed that table alone, and promises the test of a configuration with that table.
#![tactic(auto)]

ghost use Rattle.std.specs.Prelude.{◌≡◌, not, ◌==◌, nat_le, nat_lt, length, slice_index, Bool};
ghost use Rattle.std.specs.Fn.{FnReturnsAt};
ghost use Rattle.laws.specs.Choice.{pick, both, either, all_of};
ghost use Rattle.laws.specs.Row.{filled};
ghost use Rattle.values.specs.Values.{timeout_v, server_err_v, is_void, is_payload};
ghost use Rattle.config.specs.Tables.{required_conf_in};
ghost use Rattle.entries.specs.Faults.{is_server};
ghost use Rattle.rules.specs.Sound.{is_no_client, client_fits, requests_sound, values_sound, most_pending, runnable_sound, variable_sound, is_stored, element_sound, is_outcome, calling_sound, done_sound, operation_sound, timer_sound, waits_well, life_sound, owed_sound, area_fits, stack_sound, is_no_slot, slot_sound, has_copy, is_no_copy, copy_sound, copies_sound, is_client, queued_as, variables_sound, elements_sound, timers_sound, sound_of, is_no_awaited, awaits_well, is_no_life, is_no_owed, is_no_stack, held_well};
ghost use Rattle.sound.specs.Only.{only_variables, only_areas, only_required, only_operations, only_timers};
ghost use Rattle.sound.specs.Tally.{counted, entered, held_below, noting, tallied, noted_at, noted_as};
ghost use Rattle.sound.specs.Walk.{clients_with, client_alone, queue_alone, queue_of, noted_alone, runnable_tallied, waiter_tallied, operation_tallied, area_tallied, runnables_tallied, operations_tallied, areas_tallied, rest_tests, slot_walked, walk_of};

use config::{
    AreaConf, AreaConfs, Config, Lists, OperationConf, OperationConfs, RequiredConfs, RunnableConf,
    RunnableConfs, TimerConfs, VariableConfs,
};
use entries::Entry;
use state::{
    Area, Areas, Awaited, Client, Copied, Copies, Element, Elements, Life, Operation, Operations,
    Owed, Requests, Runnable, Runnables, Slot, Slots, Stack, State, Timer, Timers, Values,
    Variable, Variables,
};
use values::Value;

// The sizes of the tables, as numbers of parts.
const RUNNABLES: u8 = RunnableConfs::MAX as u8;

const VARIABLES: u8 = VariableConfs::MAX as u8;

const AREAS: u8 = AreaConfs::MAX as u8;

const ELEMENTS: u8 = RequiredConfs::MAX as u8;

const OPERATIONS: u8 = OperationConfs::MAX as u8;

const TIMERS: u8 = TimerConfs::MAX as u8;

// ---- rows

// A row whose first n places are in use: each of them passes the one test, and each behind them the other.
fn filled<T, G: Fn(&T) -> bool, B: Fn(&T) -> bool>(row: &[T], n: u8, good: G, blank: B) -> bool
    requires good { G.IsAlwaysCallable good }
    requires blank { B.IsAlwaysCallable blank }
    ensures { (p q : T → Bool) (d : T) → ((x : T) (b : Bool) → FnReturnsAt G.Fn good x b → b ≡ p x) → ((x : T) (b : Bool) → FnReturnsAt B.Fn blank x b → b ≡ q x) → result ≡ filled p q d (length row.now) n row.now }
{
    let used = n as usize;
    row.iter().take(used).all(good) && row.iter().skip(used).all(blank)
}

// ---- clients and queues

// What stands where there is no client.
#[tactic(auto, using(laws::proofs::Choosing::tests), unfolding(rules::specs::Sound::is_no_client, values::specs::Values::is_void))]
fn is_no_client(c: Client) -> bool
    ensures { result ≡ is_no_client c }
{
    c == Client::BLANK
}

// A client names an operation of its server r, and hands over a payload.
#[tactic(auto, using(laws::proofs::Choosing::tests), unfolding(rules::specs::Sound::client_fits, crate::specs::Only::only_operations))]
fn client_fits(t: OperationConfs, r: u8, c: Client) -> bool
    ensures { result ≡ client_fits (only_operations t) r c }
{
    let o = c.operation;
    o < t.n && t.get(o).server == r && c.argument.is_payload()
}

// A queue of requests keeps to the capacity of its server r.
fn requests_sound(cfg: Config, r: u8, q: Requests) -> bool
    ensures { result ≡ requests_sound cfg r q }
{
    q.queued <= cfg.runnables.get(r).capacity
        && filled(
            &q.at,
            q.queued,
            |c| client_fits(cfg.operations, r, *c),
            |c| is_no_client(*c),
        )
}

// A queue of values keeps to its capacity.
fn values_sound(capacity: u8, q: Values) -> bool
    ensures { result ≡ values_sound capacity q.queued q.at }
{
    q.queued <= capacity && filled(&q.at, q.queued, |v| v.is_payload(), |v| v.is_void())
}

// ---- one part at a time

// Without the concurrent flag there is at most one instance.
fn instances_fit(concurrent: bool, instances: u8) -> bool
    ensures { result ≡ either concurrent (nat_le instances 1) }
{
    concurrent || instances <= 1
}

// Only a plain runnable that is there has activations pending, up to its top.
#[tactic(auto, using(laws::proofs::Choosing::tests), unfolding(rules::specs::Sound::most_pending))]
fn most_pending(cfg: Config, r: u8) -> u8
    ensures { result ≡ most_pending cfg r }
{
    if r < cfg.runnables.n && !entries::is_server(cfg, r) {
        cfg.runnables.get(r).top()
    } else {
        0
    }
}

#[tactic(auto, using(laws::proofs::Choosing::tests), unfolding(rules::specs::Sound::runnable_sound, laws::specs::Choice::all_of))]
fn runnable_sound(cfg: Config, r: u8, x: Runnable) -> bool
    ensures { result ≡ runnable_sound cfg r x }
{
    let conf = cfg.runnables.get(r);
    x.interval <= conf.interval
        && instances_fit(conf.concurrent, x.instances)
        && x.pending <= most_pending(cfg, r)
        && requests_sound(cfg, r, x.requests)
}

// A variable holds a payload, an unused one Void.
#[tactic(auto, using(laws::proofs::Choosing::tests), unfolding(rules::specs::Sound::variable_sound, crate::specs::Only::only_variables))]
fn variable_sound(t: VariableConfs, v: u8, x: Variable) -> bool
    ensures { result ≡ variable_sound (only_variables t) v x }
{
    if v < t.n {
        x.value.is_payload()
    } else {
        x.value.is_void()
    }
}

// A payload, NeverReceived, or Invalid where the edition marks so.
#[tactic(auto, using(laws::proofs::Choosing::tests), unfolding(rules::specs::Sound::is_stored))]
fn is_stored(e: u8, v: Value) -> bool
    ensures { result ≡ is_stored e v }
{
    v.is_payload()
        || (v.kind == Value::NEVER_RECEIVED.kind
            || (config::marks_invalid(e) && v.kind == Value::INVALID.kind))
            && v.number == 0
}

fn is_unqueued(t: RequiredConfs, q: u8) -> bool
    ensures { result ≡ both (nat_lt q t.n) ((required_conf_in t q).capacity == 0) }
{
    q < t.n && t.get(q).capacity == 0
}

// What an element holds beside its queue.
fn element_holds(e: u8, t: RequiredConfs, q: u8, x: Element) -> bool
    ensures { result ≡ pick (both (nat_lt q t.n) ((required_conf_in t q).capacity == 0)) (is_stored e x.value) (both (is_void x.value) (not x.updated)) }
{
    if is_unqueued(t, q) {
        is_stored(e, x.value)
    } else {
        x.value.is_void() && !x.updated
    }
}

#[tactic(auto, using(laws::proofs::Choosing::tests), unfolding(rules::specs::Sound::element_sound, crate::specs::Only::only_required))]
fn element_sound(e: u8, t: RequiredConfs, q: u8, x: Element) -> bool
    ensures { result ≡ element_sound (only_required e t) q x }
{
    element_holds(e, t, q, x) && values_sound(t.get(q).capacity, x.queue)
}

// How a call ends without an answer: Timeout or ServerErr.
fn is_unanswered(kind: u8) -> bool
    ensures { result ≡ either (kind == timeout_v.kind) (kind == server_err_v.kind) }
{
    kind == Value::TIMEOUT.kind || kind == Value::SERVER_ERR.kind
}

// A payload, Timeout or ServerErr.
#[tactic(auto, using(laws::proofs::Choosing::tests), unfolding(rules::specs::Sound::is_outcome))]
fn is_outcome(v: Value) -> bool
    ensures { result ≡ is_outcome v }
{
    v.is_payload() || (is_unanswered(v.kind) && v.number == 0)
}

// A Calling operation is there.
#[tactic(auto, using(laws::proofs::Choosing::tests), unfolding(rules::specs::Sound::calling_sound, laws::specs::Choice::all_of, crate::specs::Only::only_operations))]
fn calling_sound(t: OperationConfs, o: u8, x: Operation) -> bool
    ensures { result ≡ calling_sound (only_operations t) o x }
{
    o < t.n && x.count <= t.get(o).timeout && x.done.is_void()
}

// A Done operation; one that isn't there is blank.
#[tactic(auto, using(laws::proofs::Choosing::tests), unfolding(rules::specs::Sound::done_sound, crate::specs::Only::only_operations))]
fn done_sound(t: OperationConfs, o: u8, x: Operation) -> bool
    ensures { result ≡ done_sound (only_operations t) o x }
{
    if o < t.n {
        x.count == 0 && is_outcome(x.done)
    } else {
        x.count == 0 && x.number == 0 && x.done.is_void()
    }
}

#[tactic(auto, using(laws::proofs::Choosing::tests), unfolding(rules::specs::Sound::operation_sound, rules::specs::Sound::calling_sound, rules::specs::Sound::done_sound, crate::specs::Only::only_operations))]
fn operation_sound(t: OperationConfs, o: u8, x: Operation) -> bool
    ensures { result ≡ operation_sound (only_operations t) o x }
{
    if x.calling {
        calling_sound(t, o, x)
    } else {
        done_sound(t, o, x)
    }
}

#[tactic(auto, using(laws::proofs::Choosing::tests), unfolding(rules::specs::Sound::timer_sound, crate::specs::Only::only_timers))]
fn timer_sound(t: TimerConfs, k: u8, x: Timer) -> bool
    ensures { result ≡ timer_sound (only_timers t) k x }
{
    x.count <= t.get(k).period
}

// ---- one slot at a time

// Nothing to wait for.
#[tactic(auto, using(laws::proofs::Choosing::tests), unfolding(rules::specs::Sound::is_no_awaited, laws::specs::Choice::all_of))]
fn is_no_awaited(a: Awaited) -> bool
    ensures { result ≡ is_no_awaited a }
{
    a == Awaited::BLANK
}

// A waiter's operation is there, is synchronous, and belongs to the waiter's component; its count is the call's, and none is here.
#[tactic(auto, using(laws::proofs::Choosing::tests), unfolding(rules::specs::Sound::waits_well, laws::specs::Choice::all_of))]
fn waits_well(cfg: Config, l: Life) -> bool
    ensures { result ≡ waits_well cfg l }
{
    let a = l.awaited;
    let x = cfg.operations.get(a.on);
    a.on < cfg.operations.n
        && !x.asynchronous
        && x.component == cfg.runnables.get(l.runnable).component
        && a.left == 0
}

// The element that holds an instance is there, is queued, and belongs to its component; its count is an hour at most.
#[tactic(auto, using(laws::proofs::Choosing::tests), unfolding(rules::specs::Sound::held_well, laws::specs::Choice::all_of))]
fn held_well(cfg: Config, l: Life) -> bool
    ensures { result ≡ held_well cfg l }
{
    let a = l.awaited;
    a.on < cfg.required.n
        && entries::is_queued(cfg, a.on)
        && cfg.required.get(a.on).component == cfg.runnables.get(l.runnable).component
        && a.left <= Entry::MAX_TIME
}

// An instance waits well on an operation, or is held well on an element, or waits for nothing.
#[tactic(auto, using(laws::proofs::Choosing::tests), unfolding(rules::specs::Sound::awaits_well))]
fn awaits_well(cfg: Config, l: Life) -> bool
    ensures { result ≡ awaits_well cfg l }
{
    match l.awaited.part {
        numbers::TAG_OPERATION => waits_well(cfg, l),
        numbers::TAG_REQUIRED => held_well(cfg, l),
        _ => is_no_awaited(l.awaited),
    }
}

// A plain instance is never finished.
fn finishes_well(cfg: Config, l: Life) -> bool
    ensures { result ≡ either (not l.finished) (is_server cfg l.runnable) }
{
    !l.finished || entries::is_server(cfg, l.runnable)
}

#[tactic(auto, using(laws::proofs::Choosing::tests), unfolding(rules::specs::Sound::life_sound, laws::specs::Choice::all_of))]
fn life_sound(cfg: Config, l: Life) -> bool
    ensures { result ≡ life_sound cfg l }
{
    l.runnable < cfg.runnables.n && finishes_well(cfg, l) && awaits_well(cfg, l)
}

// A server's instance has a client until it is finished.
fn owes(cfg: Config, l: Life) -> bool
    ensures { result ≡ both (is_server cfg l.runnable) (not l.finished) }
{
    entries::is_server(cfg, l.runnable) && !l.finished
}

#[tactic(auto, using(laws::proofs::Choosing::tests), unfolding(rules::specs::Sound::owed_sound, rules::specs::Sound::client_fits, crate::specs::Only::only_operations))]
fn owed_sound(cfg: Config, l: Life, w: Owed) -> bool
    ensures { result ≡ owed_sound cfg l w }
{
    if w.serving {
        owes(cfg, l) && client_fits(cfg.operations, l.runnable, w.client)
    } else {
        !owes(cfg, l) && is_no_client(w.client)
    }
}

// An area in a stack is there, and of the instance's component.
#[tactic(auto, using(laws::proofs::Choosing::tests), unfolding(rules::specs::Sound::area_fits, crate::specs::Only::only_areas))]
fn area_fits(t: AreaConfs, component: u8, a: u8) -> bool
    ensures { result ≡ area_fits (only_areas t) component a }
{
    a < t.n && t.get(a).component == component
}

// The area at place j of a stack, or 0 past the last place.
fn area_at(s: Stack, j: u8) -> u8
    ensures { result ≡ slice_index s.at j }
{
    s.at.get(j as usize).copied().unwrap_or(0)
}

// The areas of a stack fit, and the places above its top are blank.
fn stack_sound(cfg: Config, l: Life, s: Stack) -> bool
    ensures { result ≡ stack_sound cfg l s }
{
    let component = cfg.runnables.get(l.runnable).component;
    s.held <= AREAS
        && filled(
            &s.at,
            s.held,
            |a| area_fits(cfg.areas, component, *a),
            |a| *a == 0,
        )
}

// The life of no instance.
#[tactic(auto, using(laws::proofs::Choosing::tests), unfolding(rules::specs::Sound::is_no_life, rules::specs::Sound::is_no_awaited, laws::specs::Choice::all_of))]
fn is_no_life(l: Life) -> bool
    ensures { result ≡ is_no_life l }
{
    l == Life::BLANK
}

// Nobody is owed.
#[tactic(auto, using(laws::proofs::Choosing::tests), unfolding(rules::specs::Sound::is_no_owed, rules::specs::Sound::is_no_client, values::specs::Values::is_void))]
fn is_no_owed(w: Owed) -> bool
    ensures { result ≡ is_no_owed w }
{
    w == Owed::BLANK
}

// No area is held.
// Kept: no comparison with Stack::BLANK, since the definition is_no_stack goes over the places as it does in use (filled).
fn is_no_stack(s: Stack) -> bool
    ensures { result ≡ is_no_stack s }
{
    s.held == 0 && s.at.iter().all(|a| *a == 0)
}

// An empty slot is blank.
#[tactic(auto, using(laws::proofs::Choosing::tests), unfolding(rules::specs::Sound::is_no_slot, laws::specs::Choice::all_of))]
fn is_no_slot(x: Slot) -> bool
    ensures { result ≡ is_no_slot x }
{
    is_no_life(x.life) && is_no_owed(x.owed) && is_no_stack(x.stack)
}

#[tactic(auto, using(laws::proofs::Choosing::tests), unfolding(rules::specs::Sound::slot_sound, laws::specs::Choice::all_of))]
fn slot_sound(cfg: Config, x: Slot) -> bool
    ensures { result ≡ slot_sound cfg x }
{
    if x.used {
        life_sound(cfg, x.life)
            && owed_sound(cfg, x.life, x.owed)
            && stack_sound(cfg, x.life, x.stack)
    } else {
        is_no_slot(x)
    }
}

// ---- the copies of one slot

// The instance of a slot has a copy at place j: its runnable lists an element there.
#[tactic(auto, using(laws::proofs::Choosing::tests), unfolding(rules::specs::Sound::has_copy))]
fn has_copy(t: Lists, x: Slot, j: u8) -> bool
    ensures { result ≡ has_copy t x j }
{
    x.used && t.lists_at(x.life.runnable, j)
}

// Nothing came, and nothing was set.
#[tactic(auto, using(laws::proofs::Choosing::tests), unfolding(rules::specs::Sound::is_no_copy))]
fn is_no_copy(v: Value) -> bool
    ensures { result ≡ is_no_copy v }
{
    v == Value::NEVER_RECEIVED
}

// A place for a copy holds what an unqueued element may hold, or is blank if the instance has no copy there.
#[tactic(auto, using(laws::proofs::Choosing::tests), unfolding(rules::specs::Sound::copy_sound))]
fn copy_sound(e: u8, t: Lists, x: Slot, c: Copies, j: u8) -> bool
    ensures { result ≡ copy_sound e t x c j }
{
    let v = c.get(j);
    if has_copy(t, x, j) {
        is_stored(e, v)
    } else {
        is_no_copy(v)
    }
}

// Every place for a copy of a slot, by one list.
fn copies_sound(e: u8, t: Lists, x: Slot, c: Copies) -> bool
    ensures { result ≡ copies_sound e t x c }
{
    (0..Lists::MAX_LISTED).all(|j| copy_sound(e, t, x, c, j))
}

// One slot of the walk: it by itself, and the copies of its instance, by the one list and the other.
#[tactic(auto, using(laws::proofs::Choosing::tests), unfolding(crate::specs::Walk::slot_walked))]
fn slot_walked(cfg: Config, x: Slot, i: Copies, o: Copies) -> bool
    ensures { result ≡ slot_walked cfg x i o }
{
    slot_sound(cfg, x)
        && copies_sound(cfg.edition, cfg.incoming, x, i)
        && copies_sound(cfg.edition, cfg.outgoing, x, o)
}

// ---- the tally of the slots

// The clients that instances serve, by operation and number, in the order of the slots; the first `n` places are in use.
// Kept: two arrays and a count, since the definitions no_tally, noting and noted_at (specs/Tally.antt) name these three fields.
#[derive(Clone, Copy)]
struct Noted {
    n: u8,
    operations: [u8; Slots::MAX],
    numbers: [u16; Slots::MAX],
}

// How often each area stands in a stack.
#[derive(Clone, Copy)]
struct Held {
    at: [u16; AreaConfs::MAX],
}

// What the walk over the slots remembers: how many instances each runnable has, how many wait on each operation, how often each area stands in a stack, and the clients.
#[derive(Clone, Copy)]
struct Tally {
    instances: [u8; RunnableConfs::MAX],
    waiters: [u8; OperationConfs::MAX],
    held: Held,
    noted: Noted,
}

impl Tally {
    const BLANK: Tally = Tally {
        instances: [0; RunnableConf::MAX],
        waiters: [0; OperationConf::MAX],
        held: Held {
            at: [0; AreaConf::MAX],
        },
        noted: Noted {
            n: 0,
            operations: [0; Slots::MAX],
            numbers: [0; Slots::MAX],
        },
    };
}

// What the walk comes to: whether every slot is sound, with its copies, and if so the tally of all.
// Kept: no Option of a tally, since the definition walk_of (specs/Walk.antt) and the lemmas rest-is and slot-fails (proofs/Test.antt) are of a Walked.
#[derive(Clone, Copy)]
struct Walked {
    sound: bool,
    tally: Tally,
}

// One more at place i, if so: an instance of a runnable, or a waiter of an operation.
fn counted<const N: usize>(l: [u8; N], more: bool, i: u8) -> [u8; N]
    ensures { result ≡ counted l.entry more i }
{
    let k = i as usize;
    let mut t = l;
    if more && k < N {
        t[k] = state::up_one(l[k]);
    }
    t
}

// The area a once more.
// Kept: not one function with counted, since its counts are wider and the definition entered (specs/Tally.antt) is of a Held; it would take a trait of numbers that wrap.
fn entered(l: Held, a: u8) -> Held
    ensures { result ≡ entered l a }
{
    let k = a as usize;
    let mut t = l;
    if k < AreaConfs::MAX {
        t.at[k] = l.at[k].wrapping_add(1);
    }
    t
}

// Every area of a stack once more.
fn held_by(l: Held, s: Stack) -> Held
    ensures { result ≡ held_below s s.held l }
{
    let mut t = l;
    for j in 0..s.held {
        t = entered(t, area_at(s, j));
    }
    t
}

// The client of an instance, if it serves one.
#[tactic(auto, using(laws::proofs::Choosing::tests), unfolding(crate::specs::Tally::noting))]
fn noting(l: Noted, w: Owed) -> Noted
    ensures { result ≡ noting l w }
{
    if !w.serving {
        return l;
    }
    let k = l.n as usize;
    let mut t = Noted {
        n: state::up_one(l.n),
        ..l
    };
    if k < Slots::MAX {
        t.operations[k] = w.client.operation;
        t.numbers[k] = w.client.number;
    }
    t
}

// The tally with one slot more.
fn tallied(t: Tally, x: Slot) -> Tally
    ensures { result ≡ tallied t x }
{
    let a = x.life.awaited;
    Tally {
        instances: counted(t.instances, x.used, x.life.runnable),
        waiters: counted(t.waiters, a.part == numbers::TAG_OPERATION, a.on),
        held: held_by(t.held, x.stack),
        noted: noting(t.noted, x.owed),
    }
}

// ---- clients

#[tactic(auto, using(laws::proofs::Choosing::tests), unfolding(rules::specs::Sound::is_client))]
fn is_client(o: u8, m: u16, c: Client) -> bool
    ensures { result ≡ is_client o m c }
{
    c.operation == o && c.number == m
}

// How many requests of a queue have the operation o and the number m.
fn queued_as(o: u8, m: u16, q: Requests) -> usize
    ensures { result ≡ queued_as o m q }
{
    (0..q.queued).filter(|j| is_client(o, m, q.get(*j))).count()
}

// The client noted at place j, without its argument.
#[tactic(auto, using(laws::proofs::Choosing::tests), unfolding(crate::specs::Tally::noted_at))]
fn noted_at(l: Noted, j: u8) -> Client
    ensures { result ≡ noted_at l j }
{
    let k = j as usize;
    if k < Slots::MAX {
        Client {
            operation: l.operations[k],
            number: l.numbers[k],
            argument: Value::VOID,
        }
    } else {
        Client::BLANK
    }
}

// How many of the clients noted do.
fn noted_as(o: u8, m: u16, l: Noted) -> usize
    ensures { result ≡ noted_as o m l }
{
    (0..l.n)
        .filter(|j| is_client(o, m, noted_at(l, *j)))
        .count()
}

// How many do in a queue and among the clients noted.
fn clients_with(q: Requests, l: Noted, o: u8, m: u16) -> usize
    ensures { result ≡ clients_with q l o m }
{
    queued_as(o, m, q) + noted_as(o, m, l)
}

// A client shares operation and number with no other of a queue and of those noted.
#[tactic(auto, using(laws::proofs::Choosing::tests), unfolding(crate::specs::Walk::client_alone))]
fn client_alone(q: Requests, l: Noted, c: Client) -> bool
    ensures { result ≡ client_alone q l c }
{
    clients_with(q, l, c.operation, c.number) == 1
}

// Every client of a queue.
fn queue_alone(q: Requests, l: Noted) -> bool
    ensures { result ≡ queue_alone q l }
{
    (0..q.queued).all(|j| client_alone(q, l, q.get(j)))
}

// The queue that the clients of the operation o wait in.
#[tactic(auto, using(laws::proofs::Choosing::tests), unfolding(crate::specs::Walk::queue_of, crate::specs::Only::only_operations))]
fn queue_of(confs: OperationConfs, rs: Runnables, o: u8) -> Requests
    ensures { result ≡ queue_of (only_operations confs) rs o }
{
    rs.get(confs.get(o).server).requests
}

// Every client noted, against those noted: one that waits in a queue too is found there.
fn noted_alone(l: Noted) -> bool
    ensures { result ≡ noted_alone l }
{
    (0..l.n).all(|j| client_alone(Requests::BLANK, l, noted_at(l, j)))
}

// ---- one part against the tally

// A runnable by itself; it counts n instances, as many as it has slots; and each of its clients is alone.
#[tactic(auto, using(laws::proofs::Choosing::tests), unfolding(crate::specs::Walk::runnable_tallied))]
fn runnable_tallied(cfg: Config, l: Noted, n: u8, r: u8, x: Runnable) -> bool
    ensures { result ≡ runnable_tallied cfg l n r x }
{
    runnable_sound(cfg, r, x) && x.instances == n && queue_alone(x.requests, l)
}

// A taken area is there and stands in all stacks together once, a free one not at all.
#[tactic(auto, using(laws::proofs::Choosing::tests), unfolding(crate::specs::Walk::area_tallied))]
fn area_tallied(n: u8, held: u16, a: u8, x: Area) -> bool
    ensures { result ≡ area_tallied n held a x }
{
    if x.taken {
        a < n && held == 1
    } else {
        held == 0
    }
}

// The n waiters of an operation: one at most, and one while a synchronous call is open.
#[tactic(auto, using(laws::proofs::Choosing::tests), unfolding(crate::specs::Walk::waiter_tallied, crate::specs::Only::only_operations))]
fn waiter_tallied(confs: OperationConfs, n: u8, o: u8, x: Operation) -> bool
    ensures { result ≡ waiter_tallied (only_operations confs) n o x }
{
    n <= 1 && (!x.calling || confs.get(o).asynchronous || 0 < n)
}

// An operation by itself; it has n waiters; while it is Calling, one client has its number, neither more nor fewer.
#[tactic(auto, using(laws::proofs::Choosing::tests), unfolding(crate::specs::Walk::operation_tallied))]
fn operation_tallied(
    confs: OperationConfs,
    rs: Runnables,
    l: Noted,
    n: u8,
    o: u8,
    x: Operation,
) -> bool
    ensures { result ≡ operation_tallied (only_operations confs) rs l n o x }
{
    operation_sound(confs, o, x)
        && waiter_tallied(confs, n, o, x)
        && (!x.calling || clients_with(queue_of(confs, rs, o), l, o, x.number) == 1)
}

// ---- whole tables, each once

fn runnables_tallied(cfg: Config, y: Tally, t: Runnables) -> bool
    ensures { result ≡ runnables_tallied cfg y t }
{
    (0..RUNNABLES).all(|k| runnable_tallied(cfg, y.noted, y.instances[k as usize], k, t.get(k)))
}

fn variables_sound(confs: VariableConfs, t: Variables) -> bool
    ensures { result ≡ variables_sound (only_variables confs) t }
{
    (0..VARIABLES).all(|k| variable_sound(confs, k, t.get(k)))
}

fn elements_sound(e: u8, confs: RequiredConfs, t: Elements) -> bool
    ensures { result ≡ elements_sound (only_required e confs) t }
{
    (0..ELEMENTS).all(|k| element_sound(e, confs, k, t.get(k)))
}

fn operations_tallied(confs: OperationConfs, rs: Runnables, y: Tally, t: Operations) -> bool
    ensures { result ≡ operations_tallied (only_operations confs) rs y t }
{
    (0..OPERATIONS).all(|k| operation_tallied(
        confs,
        rs,
        y.noted,
        y.waiters[k as usize],
        k,
        t.get(k),
    ))
}

fn timers_sound(confs: TimerConfs, t: Timers) -> bool
    ensures { result ≡ timers_sound (only_timers confs) t }
{
    (0..TIMERS).all(|k| timer_sound(confs, k, t.get(k)))
}

fn areas_tallied(n: u8, held: Held, t: Areas) -> bool
    ensures { result ≡ areas_tallied n held t }
{
    (0..AREAS).all(|k| area_tallied(n, held.at[k as usize], k, t.get(k)))
}

// ---- the whole state

// What is left to test when the slots are: each part by itself and against the tally.
#[tactic(auto, using(crate::proofs::Whole::only), unfolding(laws::specs::Choice::all_of))]
fn rest_sound(cfg: Config, st: State, y: Tally) -> bool
    ensures { result ≡ all_of (rest_tests cfg st y) }
{
    runnables_tallied(cfg, y, st.runnables)
        && variables_sound(cfg.variables, st.variables)
        && elements_sound(cfg.edition, cfg.required, st.elements)
        && operations_tallied(cfg.operations, st.runnables, y, st.operations)
        && timers_sound(cfg.timers, st.timers)
        && areas_tallied(cfg.areas.n, y.held, st.areas)
        && noted_alone(y.noted)
}

// The one walk over the slots: each by itself with its copies, and its part of the tally.
fn walk(cfg: Config, slots: Slots, incoming: Copied, outgoing: Copied) -> Walked
    ensures { result ≡ walk_of cfg slots incoming outgoing }
{
    let mut t = Tally::BLANK;
    for k in 0..Slots::MAX {
        let x = slots.at[k];
        if !slot_walked(cfg, x, incoming.at[k], outgoing.at[k]) {
            return Walked {
                sound: false,
                tally: Tally::BLANK,
            };
        }
        t = tallied(t, x);
    }
    Walked {
        sound: true,
        tally: t,
    }
}

// A sound state of a sound configuration; the lengths of tables hold by their types.
pub fn is_sound(cfg: Config, st: State) -> bool
    ensures { result ≡ sound_of cfg st }
{
    if !entries::config_sound(cfg) {
        return false;
    }
    let w = walk(cfg, st.slots, st.incoming, st.outgoing);
    w.sound && rest_sound(cfg, st, w.tally)
}
