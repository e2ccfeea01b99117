// The state of a control unit at its real size: nine tables, and the queues and stacks inside their parts.
// A table is read by `get`, which gives the blank part past its end, and changed by `with`, which changes nothing there.
#![tactic(auto)]

ghost use Rattle.std.specs.Prelude.{◌≡◌, ◌-◌, slice_index_or, slice_set};
ghost use Rattle.laws.specs.Row.{shifted};
ghost use Rattle.state.specs.Places.{no_places, place_in, with_place};
ghost use Rattle.state.specs.Parts.{no_client, no_runnable, no_variable, no_area, no_element, no_operation, no_timer, no_slot, no_copies};
ghost use Rattle.state.specs.Tables.{copy_in, with_copy};
ghost use Rattle.state.specs.Queues.{up_one, pushed, oldest, without_oldest, push_area, top_area, pop_area};
ghost use Rattle.state.specs.Start.{start_runnable, start_variable, start_element, started, start_of};

use config::{
    AreaConf, AreaConfs, Config, Lists, OperationConf, RequiredConf, RunnableConf, Table,
    TimerConf, VariableConf,
};
use values::{Answer, Part, Value};

// The parts of a kind, each at its number.
#[derive(Clone, Copy)]
pub struct Places<T, const N: usize> {
    pub at: [T; N],
}

impl<T: Part, const N: usize> Places<T, N> {
    // The table of blank parts.
    #[tactic(auto, unfolding(crate::specs::Places::no_places))]
    pub fn none() -> Places<T, N>
        ensures { result ≡ no_places T.blank }
    {
        Places {
            at: [T::blank(); N],
        }
    }

    // What stands at place i, or the blank part past the last place.
    #[tactic(auto, unfolding(crate::specs::Places::place_in))]
    pub fn get(self, i: u8) -> T
        ensures { result ≡ place_in T.blank self i }
    {
        entry(&self.at, i, T::blank())
    }

    // The table with x at place i; nothing changes past the last place.
    #[tactic(auto, unfolding(crate::specs::Places::with_place))]
    pub fn with(self, i: u8, x: T) -> Places<T, N>
        ensures { result ≡ with_place self i x }
    {
        let mut t = self;
        put(&mut t.at, i, x);
        t
    }
}

// What waits, oldest first; the first `queued` places are in use.
// Kept: a count beside an array, since there is no heap, and definitions name both fields (pushed, without_oldest).
#[derive(Clone, Copy)]
pub struct Queue<T> {
    pub queued: u8,
    pub at: [T; PLACES],
}

impl<T: Part> Queue<T> {
    // What stands at place j, or the blank part past the last place.
    pub fn get(self, j: u8) -> T
        ensures { result ≡ slice_index_or self.at j T.blank }
    {
        entry(&self.at, j, T::blank())
    }

    // One more, at the end.
    #[tactic(auto, unfolding(crate::specs::Queues::pushed))]
    pub fn push(self, x: T) -> Queue<T>
        ensures { result ≡ pushed self x }
    {
        let mut t = self;
        put(&mut t.at, self.queued, x);
        t.queued = up_one(self.queued);
        t
    }

    #[tactic(auto, unfolding(crate::specs::Queues::oldest))]
    pub fn first(self) -> T
        ensures { result ≡ oldest T.blank self }
    {
        self.get(0)
    }

    // The oldest taken.
    #[tactic(auto, unfolding(crate::specs::Queues::without_oldest))]
    pub fn rest(self) -> Queue<T>
        ensures { result ≡ without_oldest T.blank self }
    {
        Queue {
            queued: down_one(self.queued),
            at: shifted(self.at, T::blank()),
        }
    }
}

// A client: the operation called, the number of the call, and what the caller handed over.
#[derive(Clone, Copy, PartialEq, Eq)]
pub struct Client {
    pub operation: u8,
    pub number: u16,
    pub argument: Value,
}

impl Client {
    pub const BLANK: Client = Client {
        operation: 0,
        number: 0,
        argument: Value::VOID,
    };
}

impl Part for Client {
    ghost blank = { no_client };

    fn blank() -> Client {
        Client::BLANK
    }
}

// The requests that wait at a server, oldest first; the first `queued` places are in use.
pub type Requests = Queue<Client>;

impl Requests {
    pub const MAX: usize = PLACES;

    pub const BLANK: Requests = Queue {
        queued: 0,
        at: [Client::BLANK; PLACES],
    };
}

// The state of a runnable: what is left of its start interval, how many activations are pending, how many instances it has, and its requests.
#[derive(Clone, Copy)]
pub struct Runnable {
    pub interval: u32,
    pub pending: u8,
    pub instances: u8,
    pub requests: Requests,
}

impl Runnable {
    pub const BLANK: Runnable = Runnable {
        interval: 0,
        pending: 0,
        instances: 0,
        requests: Requests::BLANK,
    };
}

impl Part for Runnable {
    ghost blank = { no_runnable };

    #[tactic(auto, unfolding(crate::specs::Parts::no_runnable, crate::specs::Parts::no_requests))]
    fn blank() -> Runnable {
        Runnable::BLANK
    }
}

#[derive(Clone, Copy)]
pub struct Variable {
    pub value: Value,
}

impl Variable {
    pub const BLANK: Variable = Variable { value: Value::VOID };
}

impl Part for Variable {
    ghost blank = { no_variable };

    fn blank() -> Variable {
        Variable::BLANK
    }
}

#[derive(Clone, Copy)]
pub struct Area {
    pub taken: bool,
}

impl Area {
    pub const BLANK: Area = Area { taken: false };
}

impl Part for Area {
    ghost blank = { no_area };

    fn blank() -> Area {
        Area::BLANK
    }
}

// The values that wait in a queued element, oldest first; the first `queued` places are in use.
pub type Values = Queue<Value>;

impl Values {
    pub const MAX: usize = PLACES;

    pub const BLANK: Values = Queue {
        queued: 0,
        at: [Value::VOID; PLACES],
    };
}

// The state of a required element: the value and the flag of an unqueued one, the queue of a queued one.
#[derive(Clone, Copy)]
pub struct Element {
    pub value: Value,
    pub updated: bool,
    pub queue: Values,
}

impl Element {
    pub const BLANK: Element = Element {
        value: Value::VOID,
        updated: false,
        queue: Values::BLANK,
    };
}

impl Part for Element {
    ghost blank = { no_element };

    #[tactic(auto, unfolding(crate::specs::Parts::no_element, crate::specs::Parts::no_values))]
    fn blank() -> Element {
        Element::BLANK
    }
}

// The state of an operation: the number of its next or open call; Calling with a count, or Done with a value.
// Kept: a flag beside what it speaks of, since a lent state may hold any of both, and step answers 1 for it (is_sound); see DECISIONS 144.
#[derive(Clone, Copy)]
pub struct Operation {
    pub number: u16,
    pub calling: bool,
    pub count: u32,
    pub done: Value,
}

impl Operation {
    pub const BLANK: Operation = Operation {
        number: 0,
        calling: false,
        count: 0,
        done: Value::VOID,
    };
}

impl Part for Operation {
    ghost blank = { no_operation };

    fn blank() -> Operation {
        Operation::BLANK
    }
}

#[derive(Clone, Copy)]
pub struct Timer {
    pub count: u32,
}

impl Timer {
    pub const BLANK: Timer = Timer { count: 0 };
}

impl Part for Timer {
    ghost blank = { no_timer };

    fn blank() -> Timer {
        Timer::BLANK
    }
}

// What an instance waits for: the tag of its kind of part, 0 while it waits for nothing, its number, and how long at most, for data alone.
// Kept: a tag beside what it speaks of, since a lent state may hold any of both, and step answers 1 for it (is_sound); see DECISIONS 144.
#[derive(Clone, Copy, PartialEq, Eq)]
pub struct Awaited {
    pub part: u8,
    pub on: u8,
    pub left: u32,
}

impl Awaited {
    pub const BLANK: Awaited = Awaited {
        part: 0,
        on: 0,
        left: 0,
    };
}

// How an instance lives: whose it is, what it waits for, whether it is finished, whether it has failed.
#[derive(Clone, Copy, PartialEq, Eq)]
pub struct Life {
    pub runnable: u8,
    pub awaited: Awaited,
    pub finished: bool,
    pub failed: bool,
}

impl Life {
    pub const BLANK: Life = Life {
        runnable: 0,
        awaited: Awaited::BLANK,
        finished: false,
        failed: false,
    };
}

// The client that an instance serves, if it serves one.
// Kept: a flag beside what it speaks of, since a lent state may hold any of both, and step answers 1 for it (is_sound); see DECISIONS 144.
#[derive(Clone, Copy, PartialEq, Eq)]
pub struct Owed {
    pub serving: bool,
    pub client: Client,
}

impl Owed {
    pub const BLANK: Owed = Owed {
        serving: false,
        client: Client::BLANK,
    };
}

// The areas that an instance holds, the last entered last; the first `held` places are in use.
// Kept: a count beside an array, since there is no heap, and definitions name both fields (push_area, pop_area); it is no Queue, since it takes at its end.
#[derive(Clone, Copy)]
pub struct Stack {
    pub held: u8,
    pub at: [u8; AreaConfs::MAX],
}

impl Stack {
    pub const BLANK: Stack = Stack {
        held: 0,
        at: [0; AreaConf::MAX],
    };

    #[tactic(auto, unfolding(crate::specs::Queues::push_area))]
    pub fn push(self, a: u8) -> Stack
        ensures { result ≡ push_area self a }
    {
        let mut t = self;
        put(&mut t.at, self.held, a);
        t.held = up_one(self.held);
        t
    }

    // The last entered.
    #[tactic(auto, unfolding(crate::specs::Queues::top_area))]
    pub fn top(self) -> u8
        ensures { result ≡ top_area self }
    {
        entry(&self.at, down_one(self.held), 0)
    }

    #[tactic(auto, unfolding(crate::specs::Queues::pop_area))]
    pub fn pop(self) -> Stack
        ensures { result ≡ pop_area self }
    {
        let mut t = self;
        t.held = down_one(self.held);
        put(&mut t.at, t.held, 0);
        t
    }
}

// An instance slot: empty, or with an instance in it.
// Kept: a flag beside what it speaks of, since a lent state may hold any of both, and step answers 1 for it (is_sound); see DECISIONS 144.
#[derive(Clone, Copy)]
pub struct Slot {
    pub used: bool,
    pub life: Life,
    pub owed: Owed,
    pub stack: Stack,
}

impl Part for Slot {
    ghost blank = { no_slot };

    #[tactic(auto, unfolding(crate::specs::Parts::no_slot, crate::specs::Parts::no_stack))]
    fn blank() -> Slot {
        Slot::BLANK
    }
}

// The runnables, by their numbers.
pub type Runnables = Places<Runnable, { RunnableConf::MAX }>;

// The variables, by their numbers.
pub type Variables = Places<Variable, { VariableConf::MAX }>;

// The exclusive areas, by their numbers.
pub type Areas = Places<Area, { AreaConf::MAX }>;

// The required elements, by their numbers.
pub type Elements = Places<Element, { RequiredConf::MAX }>;

// The operations, by their numbers.
pub type Operations = Places<Operation, { OperationConf::MAX }>;

// The timers, by their numbers.
pub type Timers = Places<Timer, { TimerConf::MAX }>;

impl Slot {
    pub const BLANK: Slot = Slot {
        used: false,
        life: Life::BLANK,
        owed: Owed::BLANK,
        stack: Stack::BLANK,
    };

    // How many there are.
    pub const MAX: usize = 32;
}

// The instance slots, by their numbers.
pub type Slots = Places<Slot, { Slot::MAX }>;

impl Slots {
    pub const MAX: usize = Slot::MAX;
}

// What one instance has copied of the elements that its runnable lists, or has set: in the places of the list, and NeverReceived where there is none, or where none was set.
// Kept: not Places of Value, since a blank copy is NeverReceived, and the blank part of Value is Void; see DECISIONS 142.
#[derive(Clone, Copy)]
pub struct Copies {
    pub at: [Value; Copies::MAX],
}

impl Copies {
    pub const BLANK: Copies = Copies {
        at: [Value::NEVER_RECEIVED; Copies::MAX],
    };

    pub const MAX: usize = Lists::MAX_LISTED as usize;

    // What stands at place j, or the blank copy past the last place.
    #[tactic(auto, unfolding(crate::specs::Tables::copy_in))]
    pub fn get(self, j: u8) -> Value
        ensures { result ≡ copy_in self j }
    {
        entry(&self.at, j, Value::NEVER_RECEIVED)
    }

    // The copies with v at place j; nothing changes past the last place.
    #[tactic(auto, unfolding(crate::specs::Tables::with_copy))]
    pub fn with(self, j: u8, v: Value) -> Copies
        ensures { result ≡ with_copy self j v }
    {
        let mut t = self;
        put(&mut t.at, j, v);
        t
    }
}

impl Part for Copies {
    ghost blank = { no_copies };

    #[tactic(auto, unfolding(crate::specs::Parts::no_copies))]
    fn blank() -> Copies {
        Copies::BLANK
    }
}

// The copies of all instances, by their slots.
pub type Copied = Places<Copies, { Slot::MAX }>;

#[derive(Clone, Copy)]
pub struct State {
    pub runnables: Runnables,
    pub variables: Variables,
    pub areas: Areas,
    pub elements: Elements,
    pub operations: Operations,
    pub timers: Timers,
    pub slots: Slots,
    pub incoming: Copied,
    pub outgoing: Copied,
}

// What a step came to: its answer, and the state after it, which is the state before it where it was refused.
#[derive(Clone, Copy)]
pub struct Stepped {
    pub answer: Answer,
    pub state: State,
}

impl State {
    // The start state of a configuration, sound or not: place by place, blank beyond each count.
    #[tactic(auto, unfolding(crate::specs::Start::start_of))]
    pub fn start(cfg: Config) -> State
        ensures { result ≡ start_of cfg }
    {
        State {
            runnables: started(cfg.runnables),
            variables: started(cfg.variables),
            areas: Places::none(),
            elements: started(cfg.required),
            operations: Places::none(),
            timers: Places::none(),
            slots: Places::none(),
            incoming: Places::none(),
            outgoing: Places::none(),
        }
    }
}

// A part of a configuration whose state starts by what the configuration says of it.
trait Starts: Part {
    type Begun: Part;

    ghost begun: { Self → Self.Begun };

    fn start(self) -> Self::Begun
        ensures { result ≡ begun self };
}

impl Starts for RunnableConf {
    type Begun = Runnable;

    ghost begun = { start_runnable };

    #[tactic(auto, unfolding(crate::specs::Parts::no_runnable, crate::specs::Parts::no_requests))]
    fn start(self) -> Runnable {
        Runnable {
            pending: config::bit(self.init),
            ..Runnable::BLANK
        }
    }
}

impl Starts for VariableConf {
    type Begun = Variable;

    ghost begun = { start_variable };

    #[tactic(auto, unfolding(crate::specs::Start::start_variable))]
    fn start(self) -> Variable {
        if self.initialed {
            return Variable {
                value: Value::of(self.initial),
            };
        }
        Variable::BLANK
    }
}

impl Starts for RequiredConf {
    type Begun = Element;

    ghost begun = { start_element };

    #[tactic(auto, unfolding(crate::specs::Start::start_element, crate::specs::Parts::no_element, crate::specs::Parts::no_values))]
    fn start(self) -> Element {
        if self.capacity == 0 {
            return Element {
                value: Value::NEVER_RECEIVED,
                ..Element::BLANK
            };
        }
        Element::BLANK
    }
}

// The parts of a table, each as it starts, and blank ones beyond them.
fn started<C: Starts, const N: usize>(t: Table<C, N>) -> Places<C::Begun, N>
    ensures { result ≡ started C.begun C.blank C.Begun.blank t }
{
    let mut s = Places::none();
    for k in 0..usize::from(t.n).min(N) {
        s.at[k] = t.part(k).start();
    }
    s
}

// One more. A count of a sound state is far below 255.
pub fn up_one(n: u8) -> u8
    ensures { result ≡ up_one n }
{
    n.wrapping_add(1)
}

// One less, and 0 stays 0.
pub fn down_one(n: u8) -> u8
    ensures { result ≡ n - 1 }
{
    n.saturating_sub(1)
}

// ---- arrays of any kind of entry

// What stands at place i, or the blank entry past the last place.
fn entry<T: Copy, const N: usize>(at: &[T; N], i: u8, blank: T) -> T
    ensures { result ≡ slice_index_or at.now i blank }
{
    let k = i as usize;
    if k < N {
        return at[k];
    }
    blank
}

// Puts x at place i; nothing changes past the last place.
fn put<T: Copy, const N: usize>(at: &mut [T; N], i: u8, x: T)
    ensures { at.new ≡ slice_set at.old i x }
{
    let k = i as usize;
    if k < N {
        at[k] = x;
    }
}

// The places of a queue.
const PLACES: usize = config::MAX_CAPACITY as usize;

// The array without its first entry: the others move up, and the last place is blank.
fn shifted<T: Copy>(at: [T; PLACES], blank: T) -> [T; PLACES]
    ensures { result ≡ shifted blank at }
{
    let mut t = at;
    t.rotate_left(1);
    t[PLACES - 1] = blank;
    t
}
