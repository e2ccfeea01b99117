// The lent state: a step taken in place, for a board that keeps one state only.
#![tactic(auto)]

ghost use Rattle.std.specs.Prelude.{◌≡◌};
ghost use Rattle.effects.specs.Step.{step_of};

use config::Config;
use state::State;
use values::{Answer, Step};

// One step on the lent state.
pub fn step_lent(cfg: Config, st: &mut State, s: Step) -> Answer
    ensures { (result ≡ (step_of cfg st.old s).answer) × (st.new ≡ (step_of cfg st.old s).state) }
{
    let r = machine::step(cfg, *st, s);
    *st = r.state;
    r.answer
}
