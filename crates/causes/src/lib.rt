// The cause of a refusal, asked of the machine; and what is allowed in a state.
#![tactic(auto)]

ghost use Rattle.std.specs.Prelude.{◌≡◌};
ghost use Rattle.causes.specs.Causes.{claim_cause, cause_of};
ghost use Rattle.causes.specs.Allowed.{sample_of, probe_of, allowed_of};

use config::Config;
use rules::{A_PAYLOAD, A_TIME, NOTHING};
use state::State;
use values::{Answer, Step, Value};
use whys::Cause;

// 17, or no cause: by the answer that the step would have.
#[tactic(auto, unfolding(crate::specs::Causes::claim_cause))]
fn claim_cause(code: u8, v: Value, claim: Value) -> Cause
    ensures { result ≡ claim_cause code v claim }
{
    if machine::agrees(code, v, claim) {
        Cause::NoCause
    } else {
        Cause::Differs(v)
    }
}

// Why the step is refused in this state, or that it is not.
#[tactic(auto, unfolding(crate::specs::Causes::cause_of))]
pub fn cause_of(cfg: Config, st: State, s: Step) -> Cause
    ensures { result ≡ cause_of cfg st s }
{
    match machine::possible(cfg, st, s).answer {
        Answer::Taken(v) => claim_cause(s.code, v, s.claim),
        Answer::Refused(n) => whys::why(cfg, st, s, n),
    }
}

// ---- what is allowed

// A step with this code, by this slot and about this part; its argument is one that the code takes.
#[tactic(auto, unfolding(crate::specs::Allowed::probe_of))]
fn probe(code: u8, who: u8, what: u8) -> Step
    ensures { result ≡ probe_of code who what }
{
    Step {
        code,
        who,
        what,
        argument: sample(refusals::row_of(code).argument),
        claim: Value::VOID,
    }
}

// An argument of a kind: a Number where it has to be one, else Void.
#[tactic(auto, unfolding(crate::specs::Allowed::sample_of))]
fn sample(kind: u8) -> Value
    ensures { result ≡ sample_of kind }
{
    match kind {
        NOTHING | A_PAYLOAD => Value::VOID,
        A_TIME => Value::of(1),
        _ => Value::of(0),
    }
}

// The answer that a step of this code, slot and part would get, whatever payload it hands over.
#[tactic(auto, unfolding(crate::specs::Allowed::allowed_of))]
pub fn allowed(cfg: Config, st: State, code: u8, who: u8, what: u8) -> Answer
    ensures { result ≡ allowed_of cfg st code who what }
{
    machine::possible(cfg, st, probe(code, who, what)).answer
}
