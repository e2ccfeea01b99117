// Refusals 2 to 5, and 30 behind 2; a slot's steps have all of them, the scheduler's steps have refusals 2 and 3 only. What a code's entries are to be, whether the edition has it, whether the parts are there, whose they are, and what an instance may do as it lives.
#![tactic(auto)]

ghost use Rattle.std.specs.Prelude.{◌≡◌, not};
ghost use Rattle.laws.specs.Choice.{either};
ghost use Rattle.rules.specs.Sound.{is_waiting};
ghost use Rattle.rules.specs.Rows.{row_of};
ghost use Rattle.rules.specs.Refusals.{argues, formed, part_there, lists_of, listed_there, named_there, queues_as, part_own, asks_synchronous, asks_waiting, finished_lets, failed_lets, ends_waiting, waiting_lets, life_lets, owned_refusal, instance_refusal, scheduler_refusal};

use config::{Config, Lists};
use rules::{
    A_NUMBER, A_PAYLOAD, A_SLOT, A_TIME, ANYHOW, COPIED, NO_PART, NOBODY, NOTHING, QUEUED, Row,
    SCHEDULER, UNQUEUED,
};
use state::{Life, Slots};
use values::{Step, Value};

// A row of the table: who takes the step, the part, the queueing, the argument.
macro_rules! row {
    ($who:expr, $part:expr, $queueing:expr, $argument:expr) => {
        Row {
            who: $who,
            part: $part,
            queueing: $queueing,
            argument: $argument,
        }
    };
}

// The row of a code without one, which is nobody's.
const NO_ROW: Row = row!(NOBODY, NO_PART, ANYHOW, NOTHING);

// The table of steps, a row for each code from 0 on.
const ROWS: [Row; 24] = [
    NO_ROW,
    row!(A_SLOT, numbers::TAG_VARIABLE, ANYHOW, NOTHING),
    row!(A_SLOT, numbers::TAG_VARIABLE, ANYHOW, A_PAYLOAD),
    row!(A_SLOT, numbers::TAG_AREA, ANYHOW, NOTHING),
    row!(A_SLOT, numbers::TAG_AREA, ANYHOW, NOTHING),
    row!(A_SLOT, numbers::TAG_REQUIRED, UNQUEUED, NOTHING),
    row!(A_SLOT, numbers::TAG_PROVIDED, UNQUEUED, A_PAYLOAD),
    row!(A_SLOT, numbers::TAG_REQUIRED, UNQUEUED, NOTHING),
    row!(A_SLOT, numbers::TAG_PROVIDED, UNQUEUED, NOTHING),
    row!(A_SLOT, numbers::TAG_REQUIRED, QUEUED, NOTHING),
    row!(A_SLOT, numbers::TAG_PROVIDED, QUEUED, A_PAYLOAD),
    row!(A_SLOT, numbers::TAG_OPERATION, ANYHOW, A_PAYLOAD),
    row!(A_SLOT, numbers::TAG_OPERATION, ANYHOW, NOTHING),
    row!(A_SLOT, NO_PART, ANYHOW, A_PAYLOAD),
    row!(A_SLOT, NO_PART, ANYHOW, NOTHING),
    row!(SCHEDULER, numbers::TAG_RUNNABLE, ANYHOW, NOTHING),
    row!(SCHEDULER, numbers::TAG_OPERATION, ANYHOW, NOTHING),
    row!(SCHEDULER, numbers::TAG_TIMER, ANYHOW, NOTHING),
    row!(SCHEDULER, NO_PART, ANYHOW, A_NUMBER),
    row!(A_SLOT, NO_PART, ANYHOW, NOTHING),
    row!(A_SLOT, numbers::TAG_REQUIRED, QUEUED, A_TIME),
    row!(A_SLOT, NO_PART, ANYHOW, NOTHING),
    row!(A_SLOT, numbers::TAG_REQUIRED, COPIED, NOTHING),
    row!(A_SLOT, numbers::TAG_PROVIDED, COPIED, A_PAYLOAD),
];

// The row of a code; a code without one is nobody's.
#[tactic(auto, unfolding(rules::specs::Rows::row_of, rules::specs::Rows::rows))]
pub fn row_of(code: u8) -> Row
    ensures { result ≡ row_of code }
{
    ROWS.get(code as usize).copied().unwrap_or(NO_ROW)
}

// A value is the argument asked for; none is Void, and a time is a Number of 1 to 3,600,000.
#[tactic(auto, unfolding(rules::specs::Refusals::argues))]
fn argues(k: u8, v: Value) -> bool
    ensures { result ≡ argues k v }
{
    match k {
        NOTHING => v.is_void(),
        A_PAYLOAD => v.is_payload(),
        A_TIME => v.kind == Value::NUMBER && entries::is_time(v.number),
        _ => v.kind == Value::NUMBER,
    }
}

// What and argument are as the row has them.
#[tactic(auto, unfolding(rules::specs::Refusals::formed))]
pub fn formed(row: Row, what: u8, v: Value) -> bool
    ensures { result ≡ formed row what v }
{
    (row.part != NO_PART || what == 0) && argues(row.argument, v)
}

// The part that is named is there, if one is.
#[tactic(auto, unfolding(rules::specs::Refusals::part_there))]
fn part_there(cfg: Config, tag: u8, n: u8) -> bool
    ensures { result ≡ part_there cfg tag n }
{
    tag == NO_PART || n < entries::count_of(cfg, tag)
}

// The list in which elements of a kind are named.
#[tactic(auto, unfolding(rules::specs::Refusals::lists_of))]
fn lists_of(cfg: Config, tag: u8) -> Lists
    ensures { result ≡ lists_of cfg tag }
{
    if tag == numbers::TAG_REQUIRED {
        cfg.incoming
    } else {
        cfg.outgoing
    }
}

// An element of which the row asks that the runnable r lists it is listed by it.
#[tactic(auto, unfolding(rules::specs::Refusals::listed_there))]
fn listed_there(cfg: Config, r: u8, row: Row, n: u8) -> bool
    ensures { result ≡ listed_there cfg r row n }
{
    row.queueing != COPIED || lists_of(cfg, row.part).has(r, n)
}

// What a step by an instance of the runnable r names is there.
#[tactic(auto, unfolding(rules::specs::Refusals::named_there))]
fn named_there(cfg: Config, r: u8, row: Row, n: u8) -> bool
    ensures { result ≡ named_there cfg r row n }
{
    part_there(cfg, row.part, n) && listed_there(cfg, r, row, n)
}

#[tactic(auto, unfolding(rules::specs::Refusals::queues_as))]
fn queues_as(cfg: Config, tag: u8, queueing: u8, n: u8) -> bool
    ensures { result ≡ queues_as cfg tag queueing n }
{
    queueing == ANYHOW || (0 < entries::entry_of(cfg, tag, n).second) == (queueing == QUEUED)
}

#[tactic(auto, unfolding(rules::specs::Refusals::part_own))]
fn part_own(cfg: Config, component: u8, row: Row, n: u8) -> bool
    ensures { result ≡ part_own cfg component row n }
{
    row.part == NO_PART
        || entries::entry_of(cfg, row.part, n).first == component
            && queues_as(cfg, row.part, row.queueing, n)
}

#[tactic(auto, unfolding(rules::specs::Refusals::asks_synchronous))]
fn asks_synchronous(cfg: Config, code: u8, what: u8) -> bool
    ensures { result ≡ asks_synchronous cfg code what }
{
    code == numbers::CODE_RESULT && !cfg.operations.get(what).asynchronous
}

// A step for one that waits alone: a synchronous result, and giving up.
#[tactic(auto, unfolding(rules::specs::Refusals::asks_waiting))]
fn asks_waiting(cfg: Config, code: u8, what: u8) -> bool
    ensures { result ≡ asks_waiting cfg code what }
{
    code == numbers::CODE_GIVE_UP || asks_synchronous(cfg, code, what)
}

// The last test of what an instance may do: some steps are for one that waits.
fn may_ask(cfg: Config, l: Life, code: u8, what: u8) -> bool
    ensures { result ≡ either (not (asks_waiting cfg code what)) (is_waiting l) }
{
    !asks_waiting(cfg, code, what) || is_waiting(l)
}

// A finished instance may end alone, and exit too if it has failed.
#[tactic(auto, unfolding(rules::specs::Refusals::finished_lets))]
fn finished_lets(l: Life, code: u8) -> bool
    ensures { result ≡ finished_lets l code }
{
    !l.finished || code == numbers::CODE_END || l.failed && code == numbers::CODE_EXIT
}

// One that has failed may hand back, exit and end alone.
#[tactic(auto, unfolding(rules::specs::Refusals::failed_lets))]
fn failed_lets(l: Life, code: u8) -> bool
    ensures { result ≡ failed_lets l code }
{
    !l.failed
        || code == numbers::CODE_HAND_BACK
        || code == numbers::CODE_EXIT
        || code == numbers::CODE_END
}

// What ends the waiting of an instance: the result on its operation; or a receive on the element that holds it, or giving up.
#[tactic(auto, unfolding(rules::specs::Refusals::ends_waiting))]
fn ends_waiting(l: Life, code: u8, what: u8) -> bool
    ensures { result ≡ ends_waiting l code what }
{
    let a = l.awaited;
    if a.part == numbers::TAG_OPERATION {
        code == numbers::CODE_RESULT && a.on == what
    } else {
        code == numbers::CODE_GIVE_UP || code == numbers::CODE_RECEIVE && a.on == what
    }
}

// The instance waits.
fn is_waiting(l: Life) -> bool
    ensures { result ≡ is_waiting l }
{
    NO_PART < l.awaited.part
}

// A waiting instance may take only what ends its waiting.
#[tactic(auto, unfolding(rules::specs::Refusals::waiting_lets))]
pub fn waiting_lets(l: Life, code: u8, what: u8) -> bool
    ensures { result ≡ waiting_lets l code what }
{
    !is_waiting(l) || ends_waiting(l, code, what)
}

#[tactic(auto, unfolding(rules::specs::Refusals::life_lets, laws::specs::Choice::all_of))]
fn life_lets(cfg: Config, l: Life, code: u8, what: u8) -> bool
    ensures { result ≡ life_lets cfg l code what }
{
    waiting_lets(l, code, what)
        && finished_lets(l, code)
        && failed_lets(l, code)
        && may_ask(cfg, l, code, what)
}

// For a step of a slot: the first of 2, 30, 3, 4 and 5 that holds, or 0.
#[tactic(auto, unfolding(rules::specs::Refusals::instance_refusal))]
pub fn instance_refusal(cfg: Config, slots: Slots, s: Step) -> u8
    ensures { result ≡ instance_refusal cfg slots (row_of s.code) s }
{
    let row = row_of(s.code);
    if !formed(row, s.what, s.argument) {
        return numbers::MALFORMED;
    }
    if !config::has_step(cfg.edition, s.code) {
        return numbers::STEP_GONE;
    }
    let x = slots.get(s.who);
    if !x.used || !named_there(cfg, x.life.runnable, row, s.what) {
        return numbers::NOT_THERE;
    }
    owned_refusal(cfg, x.life, row, s.code, s.what)
}

// The same from 4 on.
#[tactic(auto, unfolding(rules::specs::Refusals::owned_refusal))]
fn owned_refusal(cfg: Config, l: Life, row: Row, code: u8, what: u8) -> u8
    ensures { result ≡ owned_refusal cfg l row code what }
{
    let own = cfg.runnables.get(l.runnable).component;
    if !part_own(cfg, own, row, what) {
        numbers::NOT_OWN
    } else if !life_lets(cfg, l, code, what) {
        numbers::BARRED
    } else {
        0
    }
}

// For a step of the scheduler, in which who is unused: the first of 2 and 3 that holds, or 0.
#[tactic(auto, unfolding(rules::specs::Refusals::scheduler_refusal))]
pub fn scheduler_refusal(cfg: Config, s: Step) -> u8
    ensures { result ≡ scheduler_refusal cfg (row_of s.code) s }
{
    let row = row_of(s.code);
    if s.who != 0 || !formed(row, s.what, s.argument) {
        numbers::MALFORMED
    } else if !part_there(cfg, row.part, s.what) {
        numbers::NOT_THERE
    } else {
        0
    }
}
