// The search for lost steps: the scheduler's steps by their numbers, and what is passed over before the first sequence that fills a gap.
#![tactic(auto)]

ghost use Rattle.std.specs.Prelude.{◌≡◌, ◌-◌, ◌*◌, ◌%◌, ◌≤◌, drop};
ghost use Rattle.effects.specs.Step.{inner_of};
ghost use Rattle.gaps.specs.Orders.{passed_over, behind, sequences, up_to_three};
ghost use Rattle.gaps.specs.Gaps.{choice, counts_of, choices_in, fills};
ghost use Rattle.searching.specs.Search.{count_in, Counted, choice_at, claiming_of, size_of};

use config::Config;
use gaps::Choices;
use state::State;
use values::{Answer, Step, Value};

// How many parts a configuration has to spawn, to time out and to tick.
pub fn choices_of(cfg: Config) -> Choices
    ensures { result ≡ counts_of cfg }
{
    Choices {
        spawns: cfg.runnables.n,
        timeouts: cfg.operations.n,
        ticks: cfg.timers.n,
    }
}

pub fn count_of(all: Choices) -> usize
    ensures { Counted all result }
{
    all.spawns as usize + all.timeouts as usize + all.ticks as usize
}

// A step of the scheduler that may have been lost.
fn choice(code: u8, k: usize) -> Step
    ensures { result ≡ choice code (k % 256) }
{
    Step {
        code,
        who: 0,
        what: (k % 256) as u8,
        argument: Value::VOID,
        claim: Value::VOID,
    }
}

// The choice with the number k: spawns first, then timeouts, then ticks.
pub fn choice_at(all: Choices, k: usize) -> Step
    ensures { result ≡ choice_at all k }
{
    let spawns = all.spawns as usize;
    let both = spawns + all.timeouts as usize;
    if k < spawns {
        return choice(numbers::CODE_SPAWN, k);
    }
    if k < both {
        return choice(numbers::CODE_TIMEOUT, k - spawns);
    }
    choice(numbers::CODE_TICK, k - both)
}

// A choice as it is inserted: its answer is its claim.
pub fn claiming(x: Step, a: Answer) -> Step
    ensures { result ≡ claiming_of x a }
{
    let claim = match a {
        Answer::Taken(v) => v,
        Answer::Refused(_) => Value::VOID,
    };
    Step { claim, ..x }
}

// How many sequences of n choices there are, of k to choose from.
fn size_of(k: usize, n: u8) -> usize
    requires { k ≤ 765 }
    ensures { (result ≡ size_of k n) × (result ≤ 447697125) × (n ≤ 2 → result ≤ 585225) }
{
    match n {
        0 => 1,
        1 => k,
        2 => k * k,
        _ => k * (k * k),
    }
}

// What is passed over of all sequences of n choices, before the first that fills the gap before s: all of them if none does.
#[cycle(chooser_stepper)]
fn stepper(cfg: Config, st: State, s: Step, all: Choices, n: u8) -> usize
    requires { n ≤ 3 }
    ensures { (result ≡ passed_over (fills (inner_of cfg) cfg st s) (sequences (choices_in all) n)) × (result ≤ 447697125) }
{
    if n == 0 {
        return match machine::inner(cfg, st, s).answer {
            Answer::Taken(_) => 0,
            Answer::Refused(_) => 1,
        };
    }
    chooser(cfg, st, s, all, n - 1, count_of(all))
}

// The same of the sequences that begin with one of the last `left` choices and go on with n others. A choice that is refused passes over all that stands behind it.
#[cycle(chooser_stepper)]
fn chooser(cfg: Config, st: State, s: Step, all: Choices, n: u8, left: usize) -> usize
    requires { (n ≤ 2) × (left ≤ count_in all) }
    ensures { (result ≡ passed_over (fills (inner_of cfg) cfg st s) (behind (drop (count_in all - left) (choices_in all)) (sequences (choices_in all) n))) × (result ≤ left * 585225) }
{
    if left == 0 {
        return 0;
    }
    let k = count_of(all);
    let size = size_of(k, n);
    let r = machine::possible(cfg, st, choice_at(all, k - left));
    if let Answer::Taken(_) = r.answer {
        let p = stepper(cfg, r.state, s, all, n);
        if p < size {
            return p;
        }
    }
    size + chooser(cfg, st, s, all, n, left - 1)
}

// What is passed over of all sequences of at most three choices, shorter first, before the first that fills the gap before s: all of them if none does.
pub fn rank(cfg: Config, st: State, s: Step, all: Choices) -> usize
    ensures { (result ≡ passed_over (fills (inner_of cfg) cfg st s) (up_to_three (choices_in all))) × (result ≤ 450000000) }
{
    let k = count_of(all);
    let mut passed: usize = 0;
    for n in 0..4 {
        let found = stepper(cfg, st, s, all, n);
        let count = size_of(k, n);
        if found < count {
            return passed + found;
        }
        passed += count;
    }
    passed
}
