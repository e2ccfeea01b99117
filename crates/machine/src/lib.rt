// One step: refusals 2 to 5, what it does by its code, its claim, and before all the test of soundness.
#![tactic(auto)]

ghost use Rattle.std.specs.Prelude.{◌≡◌};
ghost use Rattle.rules.specs.Refusals.{refusal_of};
ghost use Rattle.effects.specs.Step.{possible_of, is_older, agrees, inner_of, step_of};

use config::Config;
use state::{Slots, State, Stepped};
use values::{Answer, Step, Value};

// The first of refusals 2 to 5 that holds, or 0. A code is of a slot's step or of the scheduler's; any other is 2.
fn refusal(cfg: Config, slots: Slots, s: Step) -> u8
    ensures { result ≡ refusal_of cfg slots s }
{
    match s.code {
        numbers::CODE_READ_VARIABLE..=numbers::CODE_END => refusals::instance_refusal(
            cfg, slots, s,
        ),
        numbers::CODE_SPAWN..=numbers::CODE_WAIT => refusals::scheduler_refusal(cfg, s),
        numbers::CODE_FAIL..=numbers::CODE_WRITE_COPY => refusals::instance_refusal(cfg, slots, s),
        _ => numbers::MALFORMED,
    }
}

// The step before its claim is looked at.
#[tactic(auto, unfolding(effects::specs::Step::possible_of, effects::specs::Step::act_of))]
pub fn possible(cfg: Config, st: State, s: Step) -> Stepped
    ensures { result ≡ possible_of cfg st s }
{
    let n = refusal(cfg, st.slots, s);
    if n != 0 {
        return shared_steps::refuse(n, st);
    }
    let i = s.who;
    let k = s.what;
    let v = s.argument;
    match s.code {
        numbers::CODE_READ_VARIABLE => data_steps::read_variable(st, k),
        numbers::CODE_WRITE_VARIABLE => data_steps::write_variable(st, k, v),
        numbers::CODE_ENTER => data_steps::enter(st, i, k),
        numbers::CODE_EXIT => data_steps::exit(st, i, k),
        numbers::CODE_READ => data_steps::read(st, k),
        numbers::CODE_WRITE => data_steps::write(cfg, st, k, v),
        numbers::CODE_UPDATED => data_steps::updated(st, k),
        numbers::CODE_INVALIDATE => data_steps::invalidate(cfg, st, k),
        numbers::CODE_RECEIVE => data_steps::receive(st, i, k),
        numbers::CODE_SEND => data_steps::send(cfg, st, k, v),
        numbers::CODE_CALL => call_steps::call(cfg, st, i, k, v),
        numbers::CODE_RESULT => call_steps::result(cfg, st, i, k),
        numbers::CODE_HAND_BACK => end_steps::hand_back(cfg, st, i, v),
        numbers::CODE_END => end_steps::end(cfg, st, i),
        numbers::CODE_SPAWN => time_steps::spawn(cfg, st, k),
        numbers::CODE_TIMEOUT => end_steps::timeout(cfg, st, k),
        numbers::CODE_TICK => time_steps::tick(cfg, st, k),
        numbers::CODE_WAIT => time_steps::wait(cfg, st, v.number),
        numbers::CODE_FAIL => end_steps::fail(st, i),
        numbers::CODE_HOLD => data_steps::hold(st, i, k, v.number),
        numbers::CODE_GIVE_UP => data_steps::give_up(st, i),
        numbers::CODE_READ_COPY => copies::read_copy(cfg, st, i, k),
        _ => copies::write_copy(cfg, st, i, k, v),
    }
}

// A send that answers Full, and claims Limit as units do that name no queue.
fn is_older(code: u8, v: Value, claim: Value) -> bool
    ensures { result ≡ is_older code v claim }
{
    code == numbers::CODE_SEND && v.says_full() && claim.same(Value::LIMIT)
}

// What a step of this code answers agrees with what it claims: it is the same, or a Full that a send claims as Limit.
#[tactic(auto, unfolding(effects::specs::Step::agrees))]
pub fn agrees(code: u8, v: Value, claim: Value) -> bool
    ensures { result ≡ agrees code v claim }
{
    is_older(code, v, claim) || v.same(claim)
}

// The step without the test of soundness, for a state that is known to be sound. 17: it could be taken, and its answer does not agree with what it claims.
#[tactic(auto, unfolding(effects::specs::Step::inner_of, effects::specs::Step::claimed_of))]
pub fn inner(cfg: Config, st: State, s: Step) -> Stepped
    ensures { result ≡ inner_of cfg st s }
{
    let r = possible(cfg, st, s);
    let Answer::Taken(v) = r.answer else {
        return r;
    };
    if agrees(s.code, v, s.claim) {
        r
    } else {
        shared_steps::refuse(numbers::OTHER_ANSWER, st)
    }
}

// The step: soundness first.
#[tactic(auto, unfolding(effects::specs::Step::step_of))]
pub fn step(cfg: Config, st: State, s: Step) -> Stepped
    ensures { result ≡ step_of cfg st s }
{
    if sound::is_sound(cfg, st) {
        inner(cfg, st, s)
    } else {
        shared_steps::refuse(numbers::NOT_SOUND, st)
    }
}
