// Entries of a configuration: one shape for every kind of part, and the faults of an entry.
#![tactic(auto)]

ghost use Rattle.std.specs.Prelude.{◌≡◌};
ghost use Rattle.laws.specs.Choice.{alike, bit};
ghost use Rattle.config.specs.Tables.{provided_conf_in};
ghost use Rattle.entries.specs.Entries.{max_of, count_of, entry_of, placed, runnable_entry, variable_entry, area_entry, required_entry, provided_entry, link_entry, operation_entry, timer_entry, data_event_entry, return_event_entry, runnable_part, variable_part, area_part, required_part, provided_part, link_part, operation_part, timer_part, data_event_part, return_event_part, listed_entry, listed_part, flags_of};
ghost use Rattle.entries.specs.Faults.{is_time, in_range, names_there, is_server, is_queued, rises, rises_at, pairs_well, entry_fault, is_no_entry, place_sound, kind_sound, parts_sound, config_sound, has_room, lists_well};

use config::{
    AreaConf, AreaConfs, Config, DataEvent, DataEvents, Link, Links, Listed, Lists, OperationConf,
    OperationConfs, ProvidedConf, ProvidedConfs, RequiredConf, RequiredConfs, ReturnEvent,
    ReturnEvents, RunnableConf, RunnableConfs, TimerConf, TimerConfs, VariableConf, VariableConfs,
};

#[derive(Clone, Copy, PartialEq, Eq)]
pub struct Entry {
    pub first: u8,
    pub second: u8,
    pub third: u8,
    pub number: u32,
}

impl Entry {
    pub const MAX_COMPONENT: u8 = 15;

    // All three flags of a runnable.
    pub const MAX_FLAGS: u8 = 7;

    // An hour in milliseconds.
    pub const MAX_TIME: u32 = 3600000;

    pub const BLANK: Entry = Entry {
        first: 0,
        second: 0,
        third: 0,
        number: 0,
    };
}

// How many parts of a kind there may be.
// Kept: a kind is the number of its tag, here and below, since these functions are public and the definitions go by that number.
#[tactic(auto, unfolding(crate::specs::Entries::max_of))]
pub fn max_of(tag: u8) -> u8
    ensures { result ≡ max_of tag }
{
    match tag {
        numbers::TAG_RUNNABLE => RunnableConfs::MAX as u8,
        numbers::TAG_VARIABLE => VariableConfs::MAX as u8,
        numbers::TAG_AREA => AreaConfs::MAX as u8,
        numbers::TAG_REQUIRED => RequiredConfs::MAX as u8,
        numbers::TAG_PROVIDED => ProvidedConfs::MAX as u8,
        numbers::TAG_LINK => Links::MAX as u8,
        numbers::TAG_OPERATION => OperationConfs::MAX as u8,
        numbers::TAG_TIMER => TimerConfs::MAX as u8,
        numbers::TAG_DATA_EVENT => DataEvents::MAX as u8,
        numbers::TAG_RETURN_EVENT => ReturnEvents::MAX as u8,
        numbers::TAG_INCOMING | numbers::TAG_OUTGOING => Lists::MAX as u8,
        _ => 0,
    }
}

// How many there are.
#[tactic(auto, unfolding(crate::specs::Entries::count_of))]
pub fn count_of(cfg: Config, tag: u8) -> u8
    ensures { result ≡ count_of cfg tag }
{
    match tag {
        numbers::TAG_RUNNABLE => cfg.runnables.n,
        numbers::TAG_VARIABLE => cfg.variables.n,
        numbers::TAG_AREA => cfg.areas.n,
        numbers::TAG_REQUIRED => cfg.required.n,
        numbers::TAG_PROVIDED => cfg.provided.n,
        numbers::TAG_LINK => cfg.links.n,
        numbers::TAG_OPERATION => cfg.operations.n,
        numbers::TAG_TIMER => cfg.timers.n,
        numbers::TAG_DATA_EVENT => cfg.devents.n,
        numbers::TAG_RETURN_EVENT => cfg.revents.n,
        numbers::TAG_INCOMING => cfg.incoming.n,
        numbers::TAG_OUTGOING => cfg.outgoing.n,
        _ => 0,
    }
}

// The flags of a runnable as one number.
fn flags_of(x: RunnableConf) -> u8
    ensures { result ≡ flags_of x }
{
    config::bit(x.concurrent) + 2 * config::bit(x.init) + 4 * config::bit(x.counting)
}

// Each kind's part as an entry, and back.
impl From<RunnableConf> for Entry {
    ghost from_gives = { λ x e. e ≡ runnable_entry x };

    fn from(x: RunnableConf) -> Entry {
        Entry {
            first: x.component,
            second: flags_of(x),
            third: x.capacity,
            number: x.interval,
        }
    }
}

impl From<Entry> for RunnableConf {
    ghost from_gives = { λ e x. x ≡ runnable_part e };

    fn from(e: Entry) -> RunnableConf {
        RunnableConf {
            component: e.first,
            concurrent: e.second % 2 == 1,
            init: 1 < e.second % 4,
            counting: 3 < e.second,
            interval: e.number,
            capacity: e.third,
        }
    }
}

impl From<VariableConf> for Entry {
    ghost from_gives = { λ x e. e ≡ variable_entry x };

    fn from(x: VariableConf) -> Entry {
        Entry {
            first: x.component,
            second: config::bit(x.initialed),
            third: 0,
            number: x.initial,
        }
    }
}

impl From<Entry> for VariableConf {
    ghost from_gives = { λ e x. x ≡ variable_part e };

    fn from(e: Entry) -> VariableConf {
        VariableConf {
            component: e.first,
            initialed: e.second == 1,
            initial: e.number,
        }
    }
}

impl From<AreaConf> for Entry {
    ghost from_gives = { λ x e. e ≡ area_entry x };

    fn from(x: AreaConf) -> Entry {
        Entry {
            first: x.component,
            ..Entry::BLANK
        }
    }
}

impl From<Entry> for AreaConf {
    ghost from_gives = { λ e x. x ≡ area_part e };

    fn from(e: Entry) -> AreaConf {
        AreaConf { component: e.first }
    }
}

impl From<RequiredConf> for Entry {
    ghost from_gives = { λ x e. e ≡ required_entry x };

    fn from(x: RequiredConf) -> Entry {
        Entry {
            first: x.component,
            second: x.capacity,
            ..Entry::BLANK
        }
    }
}

impl From<Entry> for RequiredConf {
    ghost from_gives = { λ e x. x ≡ required_part e };

    fn from(e: Entry) -> RequiredConf {
        RequiredConf {
            component: e.first,
            capacity: e.second,
        }
    }
}

impl From<ProvidedConf> for Entry {
    ghost from_gives = { λ x e. e ≡ provided_entry x };

    fn from(x: ProvidedConf) -> Entry {
        Entry {
            first: x.component,
            second: config::bit(x.queued),
            ..Entry::BLANK
        }
    }
}

impl From<Entry> for ProvidedConf {
    ghost from_gives = { λ e x. x ≡ provided_part e };

    fn from(e: Entry) -> ProvidedConf {
        ProvidedConf {
            component: e.first,
            queued: e.second == 1,
        }
    }
}

impl From<Link> for Entry {
    ghost from_gives = { λ x e. e ≡ link_entry x };

    fn from(x: Link) -> Entry {
        Entry {
            first: x.provided,
            second: x.required,
            ..Entry::BLANK
        }
    }
}

impl From<Entry> for Link {
    ghost from_gives = { λ e x. x ≡ link_part e };

    fn from(e: Entry) -> Link {
        Link {
            provided: e.first,
            required: e.second,
        }
    }
}

impl From<OperationConf> for Entry {
    ghost from_gives = { λ x e. e ≡ operation_entry x };

    fn from(x: OperationConf) -> Entry {
        Entry {
            first: x.component,
            second: config::bit(x.asynchronous),
            third: x.server,
            number: x.timeout,
        }
    }
}

impl From<Entry> for OperationConf {
    ghost from_gives = { λ e x. x ≡ operation_part e };

    fn from(e: Entry) -> OperationConf {
        OperationConf {
            component: e.first,
            asynchronous: e.second == 1,
            server: e.third,
            timeout: e.number,
        }
    }
}

impl From<TimerConf> for Entry {
    ghost from_gives = { λ x e. e ≡ timer_entry x };

    fn from(x: TimerConf) -> Entry {
        Entry {
            first: x.runnable,
            number: x.period,
            ..Entry::BLANK
        }
    }
}

impl From<Entry> for TimerConf {
    ghost from_gives = { λ e x. x ≡ timer_part e };

    fn from(e: Entry) -> TimerConf {
        TimerConf {
            runnable: e.first,
            period: e.number,
        }
    }
}

impl From<DataEvent> for Entry {
    ghost from_gives = { λ x e. e ≡ data_event_entry x };

    fn from(x: DataEvent) -> Entry {
        Entry {
            first: x.runnable,
            second: x.required,
            ..Entry::BLANK
        }
    }
}

impl From<Entry> for DataEvent {
    ghost from_gives = { λ e x. x ≡ data_event_part e };

    fn from(e: Entry) -> DataEvent {
        DataEvent {
            runnable: e.first,
            required: e.second,
        }
    }
}

impl From<ReturnEvent> for Entry {
    ghost from_gives = { λ x e. e ≡ return_event_entry x };

    fn from(x: ReturnEvent) -> Entry {
        Entry {
            first: x.runnable,
            second: x.operation,
            ..Entry::BLANK
        }
    }
}

impl From<Entry> for ReturnEvent {
    ghost from_gives = { λ e x. x ≡ return_event_part e };

    fn from(e: Entry) -> ReturnEvent {
        ReturnEvent {
            runnable: e.first,
            operation: e.second,
        }
    }
}

impl From<Listed> for Entry {
    ghost from_gives = { λ x e. e ≡ listed_entry x };

    fn from(x: Listed) -> Entry {
        Entry {
            first: x.runnable,
            second: x.element,
            ..Entry::BLANK
        }
    }
}

impl From<Entry> for Listed {
    ghost from_gives = { λ e x. x ≡ listed_part e };

    fn from(e: Entry) -> Listed {
        Listed {
            runnable: e.first,
            element: e.second,
        }
    }
}

// The entry of the part of a kind at place i.
#[tactic(auto, unfolding(crate::specs::Entries::entry_of))]
pub fn entry_of(cfg: Config, tag: u8, i: u8) -> Entry
    ensures { result ≡ entry_of cfg tag i }
{
    match tag {
        numbers::TAG_RUNNABLE => cfg.runnables.get(i).into(),
        numbers::TAG_VARIABLE => cfg.variables.get(i).into(),
        numbers::TAG_AREA => cfg.areas.get(i).into(),
        numbers::TAG_REQUIRED => cfg.required.get(i).into(),
        numbers::TAG_PROVIDED => cfg.provided.get(i).into(),
        numbers::TAG_LINK => cfg.links.get(i).into(),
        numbers::TAG_OPERATION => cfg.operations.get(i).into(),
        numbers::TAG_TIMER => cfg.timers.get(i).into(),
        numbers::TAG_DATA_EVENT => cfg.devents.get(i).into(),
        numbers::TAG_RETURN_EVENT => cfg.revents.get(i).into(),
        numbers::TAG_INCOMING => cfg.incoming.get(i).into(),
        numbers::TAG_OUTGOING => cfg.outgoing.get(i).into(),
        _ => Entry::BLANK,
    }
}

// One part more of a kind, or the edition, as the entry says.
#[tactic(auto, unfolding(crate::specs::Entries::placed))]
pub fn placed(cfg: Config, tag: u8, e: Entry) -> Config
    ensures { result ≡ placed cfg tag e }
{
    match tag {
        numbers::TAG_RUNNABLE => Config {
            runnables: cfg.runnables.add(e.into()),
            ..cfg
        },
        numbers::TAG_VARIABLE => Config {
            variables: cfg.variables.add(e.into()),
            ..cfg
        },
        numbers::TAG_AREA => Config {
            areas: cfg.areas.add(e.into()),
            ..cfg
        },
        numbers::TAG_REQUIRED => Config {
            required: cfg.required.add(e.into()),
            ..cfg
        },
        numbers::TAG_PROVIDED => Config {
            provided: cfg.provided.add(e.into()),
            ..cfg
        },
        numbers::TAG_LINK => Config {
            links: cfg.links.add(e.into()),
            ..cfg
        },
        numbers::TAG_OPERATION => Config {
            operations: cfg.operations.add(e.into()),
            ..cfg
        },
        numbers::TAG_TIMER => Config {
            timers: cfg.timers.add(e.into()),
            ..cfg
        },
        numbers::TAG_DATA_EVENT => Config {
            devents: cfg.devents.add(e.into()),
            ..cfg
        },
        numbers::TAG_RETURN_EVENT => Config {
            revents: cfg.revents.add(e.into()),
            ..cfg
        },
        numbers::TAG_INCOMING => Config {
            incoming: cfg.incoming.add(e.into()),
            ..cfg
        },
        numbers::TAG_OUTGOING => Config {
            outgoing: cfg.outgoing.add(e.into()),
            ..cfg
        },
        numbers::TAG_EDITION => Config {
            edition: e.first,
            ..cfg
        },
        _ => cfg,
    }
}

// At least 1, at most an hour.
pub fn is_time(n: u32) -> bool
    ensures { result ≡ is_time n }
{
    0 < n && n <= Entry::MAX_TIME
}

// 24: the numbers of an entry that name no part.
#[tactic(auto, unfolding(crate::specs::Faults::in_range))]
pub fn in_range(tag: u8, e: Entry) -> bool
    ensures { result ≡ in_range tag e }
{
    match tag {
        numbers::TAG_RUNNABLE => {
            e.first <= Entry::MAX_COMPONENT
                && e.second <= Entry::MAX_FLAGS
                && e.number <= Entry::MAX_TIME
                && e.third <= config::MAX_CAPACITY
        }
        numbers::TAG_VARIABLE | numbers::TAG_PROVIDED => {
            e.first <= Entry::MAX_COMPONENT && e.second <= 1
        }
        numbers::TAG_AREA => e.first <= Entry::MAX_COMPONENT,
        numbers::TAG_REQUIRED => {
            e.first <= Entry::MAX_COMPONENT && e.second <= config::MAX_CAPACITY
        }
        numbers::TAG_OPERATION => {
            e.first <= Entry::MAX_COMPONENT && e.second <= 1 && is_time(e.number)
        }
        numbers::TAG_TIMER => is_time(e.number),
        _ => true,
    }
}

// 23: not one too many of its kind, and of listed elements not one too many of its runnable.
#[tactic(auto, unfolding(crate::specs::Faults::has_room))]
pub fn has_room(cfg: Config, tag: u8, i: u8, e: Entry) -> bool
    ensures { result ≡ has_room cfg tag i e }
{
    match tag {
        numbers::TAG_INCOMING => cfg.incoming.below(e.first, i) < Lists::MAX_LISTED,
        numbers::TAG_OUTGOING => cfg.outgoing.below(e.first, i) < Lists::MAX_LISTED,
        _ => i < max_of(tag),
    }
}

// 25: every part that an entry names is there.
#[tactic(auto, unfolding(crate::specs::Faults::names_there))]
pub fn names_there(cfg: Config, tag: u8, e: Entry) -> bool
    ensures { result ≡ names_there cfg tag e }
{
    match tag {
        numbers::TAG_LINK => e.first < cfg.provided.n && e.second < cfg.required.n,
        numbers::TAG_OPERATION => e.third < cfg.runnables.n,
        numbers::TAG_TIMER => e.first < cfg.runnables.n,
        numbers::TAG_DATA_EVENT => e.first < cfg.runnables.n && e.second < cfg.required.n,
        numbers::TAG_RETURN_EVENT => e.first < cfg.runnables.n && e.second < cfg.operations.n,
        numbers::TAG_INCOMING => e.first < cfg.runnables.n && e.second < cfg.required.n,
        numbers::TAG_OUTGOING => e.first < cfg.runnables.n && e.second < cfg.provided.n,
        _ => true,
    }
}

#[tactic(auto, unfolding(crate::specs::Faults::is_server))]
pub fn is_server(cfg: Config, r: u8) -> bool
    ensures { result ≡ is_server cfg r }
{
    0 < cfg.runnables.get(r).capacity
}

#[tactic(auto, unfolding(crate::specs::Faults::is_queued))]
pub fn is_queued(cfg: Config, q: u8) -> bool
    ensures { result ≡ is_queued cfg q }
{
    0 < cfg.required.get(q).capacity
}

// The pair of an entry lies above another's.
#[tactic(auto, unfolding(crate::specs::Faults::rises))]
pub fn rises(d: Entry, e: Entry) -> bool
    ensures { result ≡ rises d e }
{
    (d.first, d.second) < (e.first, e.second)
}

#[tactic(auto, unfolding(crate::specs::Faults::rises_at))]
pub fn rises_at(cfg: Config, tag: u8, i: u8, e: Entry) -> bool
    ensures { result ≡ rises_at cfg tag i e }
{
    i == 0 || rises(entry_of(cfg, tag, i - 1), e)
}

// A link joins two elements that are both queued or both not.
fn link_alike(cfg: Config, e: Entry) -> bool
    ensures { result ≡ alike (provided_conf_in cfg.provided e.first).queued (is_queued cfg e.second) }
{
    cfg.provided.get(e.first).queued == is_queued(cfg, e.second)
}

// A plain runnable may list an unqueued element of its own component; x is the element's entry.
#[tactic(auto, unfolding(crate::specs::Faults::lists_well))]
fn lists_well(cfg: Config, r: u8, x: Entry) -> bool
    ensures { result ≡ lists_well cfg r x }
{
    !is_server(cfg, r) && x.first == cfg.runnables.get(r).component && x.second == 0
}

// 26: no bad pairing.
#[tactic(auto, unfolding(crate::specs::Faults::pairs_well))]
pub fn pairs_well(cfg: Config, tag: u8, i: u8, e: Entry) -> bool
    ensures { result ≡ pairs_well cfg tag i e }
{
    match tag {
        numbers::TAG_RUNNABLE => e.second <= 1 || e.third == 0,
        numbers::TAG_VARIABLE => e.second == 1 || e.number == 0,
        numbers::TAG_LINK => link_alike(cfg, e) && rises_at(cfg, tag, i, e),
        numbers::TAG_OPERATION => is_server(cfg, e.third),
        numbers::TAG_TIMER => !is_server(cfg, e.first),
        numbers::TAG_DATA_EVENT | numbers::TAG_RETURN_EVENT => {
            !is_server(cfg, e.first) && rises_at(cfg, tag, i, e)
        }
        numbers::TAG_INCOMING => {
            let x = entry_of(cfg, numbers::TAG_REQUIRED, e.second);
            lists_well(cfg, e.first, x) && rises_at(cfg, tag, i, e)
        }
        numbers::TAG_OUTGOING => {
            let x = entry_of(cfg, numbers::TAG_PROVIDED, e.second);
            lists_well(cfg, e.first, x) && rises_at(cfg, tag, i, e)
        }
        _ => true,
    }
}

// The first fault of an entry at place i of its kind, or 0.
// Kept: 0 for no fault, since entry_fault is public and its definition has it so.
#[tactic(auto, unfolding(crate::specs::Faults::entry_fault))]
pub fn entry_fault(cfg: Config, tag: u8, i: u8, e: Entry) -> u8
    ensures { result ≡ entry_fault cfg tag i e }
{
    if !config::has_field(cfg.edition, tag) {
        return numbers::BAD_FRAME;
    }
    if !has_room(cfg, tag, i, e) {
        return numbers::TOO_MANY;
    }
    if !in_range(tag, e) {
        return numbers::OUT_OF_RANGE;
    }
    if !names_there(cfg, tag, e) {
        return numbers::NAMES_NOTHING;
    }
    if !pairs_well(cfg, tag, i, e) {
        return numbers::BAD_PAIR;
    }
    0
}

#[tactic(auto, unfolding(crate::specs::Faults::is_no_entry))]
pub fn is_no_entry(e: Entry) -> bool
    ensures { result ≡ is_no_entry e }
{
    e == Entry::BLANK
}

// A place in use has no fault, any other is blank.
#[tactic(auto, unfolding(crate::specs::Faults::place_sound))]
pub fn place_sound(cfg: Config, tag: u8, i: u8) -> bool
    ensures { result ≡ place_sound cfg tag i }
{
    let e = entry_of(cfg, tag, i);
    if i < count_of(cfg, tag) {
        entry_fault(cfg, tag, i, e) == 0
    } else {
        is_no_entry(e)
    }
}

pub fn kind_sound(cfg: Config, tag: u8) -> bool
    ensures { result ≡ kind_sound cfg tag }
{
    let top = max_of(tag);
    count_of(cfg, tag) <= top && (0..top).all(|i| place_sound(cfg, tag, i))
}

// Every place of all kinds.
#[tactic(auto, unfolding(crate::specs::Faults::parts_sound))]
fn parts_sound(cfg: Config) -> bool
    ensures { result ≡ parts_sound cfg }
{
    (0..numbers::PART_KINDS).all(|j| kind_sound(cfg, numbers::TAG_RUNNABLE + j))
}

// 1, of a configuration: its edition, and every place of all kinds.
#[tactic(auto, unfolding(crate::specs::Faults::config_sound))]
pub fn config_sound(cfg: Config) -> bool
    ensures { result ≡ config_sound cfg }
{
    config::is_edition(cfg.edition) && parts_sound(cfg)
}
