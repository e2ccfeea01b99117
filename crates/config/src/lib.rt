// The parts of a configuration at their real sizes. Each kind stands in a table of its own, and a table type says how many it holds.
#![tactic(auto)]

ghost use Rattle.std.specs.Prelude.{◌≡◌, ◌+◌, eqb};
ghost use Rattle.laws.specs.Choice.{bit, both};
ghost use Rattle.config.specs.Editions.{is_edition, marks_invalid, has_step, lists_elements, has_field};
ghost use Rattle.config.specs.Table.{no_parts, part_in, add_part};
ghost use Rattle.config.specs.Tables.{no_runnable_conf, no_variable_conf, no_area_conf, no_required_conf, no_provided_conf, no_link, no_operation_conf, no_timer_conf, no_data_event, no_return_event, no_listed, no_config, top_of};
ghost use Rattle.config.specs.Lists.{listed_below, first_listed, lists_at, element_at, place_of, is_listed};

use values::Part;

// A flag as a number.
pub fn bit(b: bool) -> u8
    ensures { result ≡ bit b }
{
    u8::from(b)
}

// The top of a capacity, and so the places of a queue.
pub const MAX_CAPACITY: u8 = 16;

// The parts of a kind in a configuration, in the order of the file and counted from 0; the first n places are in use.
// Kept: a count beside an array, since there is no heap, and the definitions name both fields (no_parts, add_part).
#[derive(Clone, Copy)]
pub struct Table<T, const N: usize> {
    pub n: u8,
    pub at: [T; N],
}

impl<T: Part, const N: usize> Table<T, N> {
    pub fn none() -> Table<T, N>
        ensures { result ≡ no_parts T.blank }
    {
        Table {
            n: 0,
            at: [T::blank(); N],
        }
    }

    // What stands at place i, or the blank part past the last place.
    pub fn get(self, i: u8) -> T
        ensures { result ≡ part_in T.blank self i }
    {
        self.part(i as usize)
    }

    // The same for a place that may be past what a byte counts.
    #[tactic(auto, unfolding(crate::specs::Table::part_in))]
    pub fn part(self, k: usize) -> T
        ensures { result ≡ part_in T.blank self k }
    {
        if k < N {
            return self.at[k];
        }
        T::blank()
    }

    // One more, at the first unused place; nothing changes where there is none.
    #[tactic(auto, unfolding(crate::specs::Table::add_part))]
    pub fn add(self, x: T) -> Table<T, N>
        ensures { result ≡ add_part self x }
    {
        let k = self.n as usize;
        if k < N && self.n < u8::MAX {
            let mut t = self;
            t.at[k] = x;
            t.n += 1;
            return t;
        }
        self
    }
}

#[derive(Clone, Copy)]
pub struct RunnableConf {
    pub component: u8,
    pub concurrent: bool,
    pub init: bool,
    pub counting: bool,
    pub interval: u32,
    pub capacity: u8,
}

// The runnables, in the order of the file and counted from 0.
pub type RunnableConfs = Table<RunnableConf, { RunnableConf::MAX }>;

impl RunnableConfs {
    pub const MAX: usize = RunnableConf::MAX;
}

impl RunnableConf {
    pub const BLANK: RunnableConf = RunnableConf {
        component: 0,
        concurrent: false,
        init: false,
        counting: false,
        interval: 0,
        capacity: 0,
    };

    // How many a configuration may have.
    pub const MAX: usize = 16;

    // The most activations that are pending where they are counted.
    pub const MAX_PENDING: u8 = 15;

    // The most activations that are pending.
    pub fn top(self) -> u8
        ensures { result ≡ top_of self }
    {
        if self.counting {
            return RunnableConf::MAX_PENDING;
        }
        1
    }
}

impl Part for RunnableConf {
    ghost blank = { no_runnable_conf };

    fn blank() -> RunnableConf {
        RunnableConf::BLANK
    }
}

// Kept: a flag beside what it speaks of, since the field of the file and the definition start_variable have both.
#[derive(Clone, Copy)]
pub struct VariableConf {
    pub component: u8,
    pub initialed: bool,
    pub initial: u32,
}

// The variables, in the order of the file and counted from 0.
pub type VariableConfs = Table<VariableConf, { VariableConf::MAX }>;

impl VariableConfs {
    pub const MAX: usize = VariableConf::MAX;
}

impl VariableConf {
    pub const BLANK: VariableConf = VariableConf {
        component: 0,
        initialed: false,
        initial: 0,
    };

    // How many a configuration may have.
    pub const MAX: usize = 16;
}

impl Part for VariableConf {
    ghost blank = { no_variable_conf };

    fn blank() -> VariableConf {
        VariableConf::BLANK
    }
}

#[derive(Clone, Copy)]
pub struct AreaConf {
    pub component: u8,
}

// The exclusive areas, in the order of the file and counted from 0.
pub type AreaConfs = Table<AreaConf, { AreaConf::MAX }>;

impl AreaConfs {
    pub const MAX: usize = AreaConf::MAX;
}

impl AreaConf {
    pub const BLANK: AreaConf = AreaConf { component: 0 };

    // How many a configuration may have.
    pub const MAX: usize = 16;
}

impl Part for AreaConf {
    ghost blank = { no_area_conf };

    fn blank() -> AreaConf {
        AreaConf::BLANK
    }
}

#[derive(Clone, Copy)]
pub struct RequiredConf {
    pub component: u8,
    pub capacity: u8,
}

// The required elements, in the order of the file and counted from 0.
pub type RequiredConfs = Table<RequiredConf, { RequiredConf::MAX }>;

impl RequiredConfs {
    pub const MAX: usize = RequiredConf::MAX;
}

impl RequiredConf {
    pub const BLANK: RequiredConf = RequiredConf {
        component: 0,
        capacity: 0,
    };

    // How many a configuration may have.
    pub const MAX: usize = 16;
}

impl Part for RequiredConf {
    ghost blank = { no_required_conf };

    fn blank() -> RequiredConf {
        RequiredConf::BLANK
    }
}

#[derive(Clone, Copy)]
pub struct ProvidedConf {
    pub component: u8,
    pub queued: bool,
}

// The provided elements, in the order of the file and counted from 0.
pub type ProvidedConfs = Table<ProvidedConf, { ProvidedConf::MAX }>;

impl ProvidedConfs {
    pub const MAX: usize = ProvidedConf::MAX;
}

impl ProvidedConf {
    pub const BLANK: ProvidedConf = ProvidedConf {
        component: 0,
        queued: false,
    };

    // How many a configuration may have.
    pub const MAX: usize = 16;
}

impl Part for ProvidedConf {
    ghost blank = { no_provided_conf };

    fn blank() -> ProvidedConf {
        ProvidedConf::BLANK
    }
}

#[derive(Clone, Copy)]
pub struct Link {
    pub provided: u8,
    pub required: u8,
}

// The links, in the order of the file and counted from 0.
pub type Links = Table<Link, { Link::MAX }>;

impl Links {
    pub const MAX: usize = Link::MAX;
}

impl Link {
    pub const BLANK: Link = Link {
        provided: 0,
        required: 0,
    };

    // How many a configuration may have.
    pub const MAX: usize = 32;
}

impl Part for Link {
    ghost blank = { no_link };

    fn blank() -> Link {
        Link::BLANK
    }
}

#[derive(Clone, Copy)]
pub struct OperationConf {
    pub component: u8,
    pub asynchronous: bool,
    pub server: u8,
    pub timeout: u32,
}

// The operations, in the order of the file and counted from 0.
pub type OperationConfs = Table<OperationConf, { OperationConf::MAX }>;

impl OperationConfs {
    pub const MAX: usize = OperationConf::MAX;
}

impl OperationConf {
    pub const BLANK: OperationConf = OperationConf {
        component: 0,
        asynchronous: false,
        server: 0,
        timeout: 0,
    };

    // How many a configuration may have.
    pub const MAX: usize = 8;
}

impl Part for OperationConf {
    ghost blank = { no_operation_conf };

    fn blank() -> OperationConf {
        OperationConf::BLANK
    }
}

#[derive(Clone, Copy)]
pub struct TimerConf {
    pub runnable: u8,
    pub period: u32,
}

// The timers, in the order of the file and counted from 0.
pub type TimerConfs = Table<TimerConf, { TimerConf::MAX }>;

impl TimerConfs {
    pub const MAX: usize = TimerConf::MAX;
}

impl TimerConf {
    pub const BLANK: TimerConf = TimerConf {
        runnable: 0,
        period: 0,
    };

    // How many a configuration may have.
    pub const MAX: usize = 8;
}

impl Part for TimerConf {
    ghost blank = { no_timer_conf };

    fn blank() -> TimerConf {
        TimerConf::BLANK
    }
}

#[derive(Clone, Copy)]
pub struct DataEvent {
    pub runnable: u8,
    pub required: u8,
}

// The data events, in the order of the file and counted from 0.
pub type DataEvents = Table<DataEvent, { DataEvent::MAX }>;

impl DataEvents {
    pub const MAX: usize = DataEvent::MAX;
}

impl DataEvent {
    pub const BLANK: DataEvent = DataEvent {
        runnable: 0,
        required: 0,
    };

    // How many a configuration may have.
    pub const MAX: usize = 32;
}

impl Part for DataEvent {
    ghost blank = { no_data_event };

    fn blank() -> DataEvent {
        DataEvent::BLANK
    }
}

#[derive(Clone, Copy)]
pub struct ReturnEvent {
    pub runnable: u8,
    pub operation: u8,
}

// The return events, in the order of the file and counted from 0.
pub type ReturnEvents = Table<ReturnEvent, { ReturnEvent::MAX }>;

impl ReturnEvents {
    pub const MAX: usize = ReturnEvent::MAX;
}

impl ReturnEvent {
    pub const BLANK: ReturnEvent = ReturnEvent {
        runnable: 0,
        operation: 0,
    };

    // How many a configuration may have.
    pub const MAX: usize = 16;
}

impl Part for ReturnEvent {
    ghost blank = { no_return_event };

    fn blank() -> ReturnEvent {
        ReturnEvent::BLANK
    }
}

// An element that a runnable lists: to be copied at its spawn, or to be written at its end.
#[derive(Clone, Copy)]
pub struct Listed {
    pub runnable: u8,
    pub element: u8,
}

// The listed elements, in the order of the file and counted from 0.
pub type Lists = Table<Listed, { Listed::MAX }>;

impl Lists {
    pub const MAX: usize = Listed::MAX;

    // The most elements that one runnable lists.
    pub const MAX_LISTED: u8 = 4;

    // How many of the first n pairs are of the runnable r.
    pub fn below(self, r: u8, n: u8) -> u8
        ensures { result ≡ listed_below self r n }
    {
        let mut m: u8 = 0;
        for k in 0..n {
            m += bit(self.get(k).runnable == r);
        }
        m
    }

    // Where the pairs of the runnable r begin, or how many pairs there are.
    // Kept: the number past the last stands for none, as the definition first_listed has it.
    pub fn first(self, r: u8) -> u8
        ensures { result ≡ first_listed self r }
    {
        for k in 0..self.n {
            if self.get(k).runnable == r {
                return k;
            }
        }
        self.n
    }

    // Where the pair would stand that is j places behind the first of the runnable r.
    fn behind(self, r: u8, j: u8) -> usize
        ensures { result ≡ first_listed self r + j }
    {
        self.first(r) as usize + j as usize
    }

    // The runnable r has a pair j places behind its first.
    #[tactic(auto, unfolding(crate::specs::Lists::lists_at))]
    pub fn lists_at(self, r: u8, j: u8) -> bool
        ensures { result ≡ lists_at self r j }
    {
        let k = self.behind(r, j);
        k < self.n as usize && self.part(k).runnable == r
    }

    // The element of that pair.
    #[tactic(auto, unfolding(crate::specs::Lists::element_at))]
    pub fn element_at(self, r: u8, j: u8) -> u8
        ensures { result ≡ element_at self r j }
    {
        self.part(self.behind(r, j)).element
    }

    // It is there, and its element is q.
    fn has_at(self, r: u8, q: u8, j: u8) -> bool
        ensures { result ≡ both (lists_at self r j) (eqb (element_at self r j) q) }
    {
        self.lists_at(r, j) && self.element_at(r, j) == q
    }

    // The place of the element q among those that the runnable r lists, or 4.
    // Kept: the number past the last stands for none, as the definition place_of has it.
    pub fn place(self, r: u8, q: u8) -> u8
        ensures { result ≡ place_of self r q }
    {
        for j in 0..Lists::MAX_LISTED {
            if self.has_at(r, q, j) {
                return j;
            }
        }
        Lists::MAX_LISTED
    }

    // The runnable r lists the element q.
    pub fn has(self, r: u8, q: u8) -> bool
        ensures { result ≡ is_listed self r q }
    {
        self.place(r, q) < Lists::MAX_LISTED
    }
}

impl Listed {
    pub const BLANK: Listed = Listed {
        runnable: 0,
        element: 0,
    };

    // How many a configuration may have.
    pub const MAX: usize = 64;
}

impl Part for Listed {
    ghost blank = { no_listed };

    fn blank() -> Listed {
        Listed::BLANK
    }
}

// A configuration: its kinds of parts, and its edition.
#[derive(Clone, Copy)]
pub struct Config {
    pub runnables: RunnableConfs,
    pub variables: VariableConfs,
    pub areas: AreaConfs,
    pub required: RequiredConfs,
    pub provided: ProvidedConfs,
    pub links: Links,
    pub operations: OperationConfs,
    pub timers: TimerConfs,
    pub devents: DataEvents,
    pub revents: ReturnEvents,
    pub incoming: Lists,
    pub outgoing: Lists,
    pub edition: u8,
}

impl Config {
    pub const FIRST_EDITION: u8 = 1;

    pub const LAST_EDITION: u8 = 2;

    // No part of any kind, in the first edition.
    pub fn none() -> Config
        ensures { result ≡ no_config }
    {
        Config {
            runnables: RunnableConfs::none(),
            variables: VariableConfs::none(),
            areas: AreaConfs::none(),
            required: RequiredConfs::none(),
            provided: ProvidedConfs::none(),
            links: Links::none(),
            operations: OperationConfs::none(),
            timers: TimerConfs::none(),
            devents: DataEvents::none(),
            revents: ReturnEvents::none(),
            incoming: Lists::none(),
            outgoing: Lists::none(),
            edition: Config::FIRST_EDITION,
        }
    }
}

// 1 or 2.
pub fn is_edition(e: u8) -> bool
    ensures { result ≡ is_edition e }
{
    Config::FIRST_EDITION <= e && e <= Config::LAST_EDITION
}

// Elements can be marked invalid in the first edition alone.
pub fn marks_invalid(e: u8) -> bool
    ensures { result ≡ marks_invalid e }
{
    e == Config::FIRST_EDITION
}

// The edition has a step of this code.
pub fn has_step(e: u8, code: u8) -> bool
    ensures { result ≡ has_step e code }
{
    code != numbers::CODE_INVALIDATE || marks_invalid(e)
}

// Runnables list elements in the second edition alone.
pub fn lists_elements(e: u8) -> bool
    ensures { result ≡ lists_elements e }
{
    e == Config::LAST_EDITION
}

// The edition has fields with this tag.
#[tactic(auto, unfolding(crate::specs::Editions::has_field))]
pub fn has_field(e: u8, tag: u8) -> bool
    ensures { result ≡ has_field e tag }
{
    match tag {
        numbers::TAG_INCOMING | numbers::TAG_OUTGOING => lists_elements(e),
        _ => true,
    }
}
