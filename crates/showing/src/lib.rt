// The plan board at work: the line for a recording that is judged, and the board after it.
#![tactic(auto)]

ghost use Rattle.std.specs.Prelude.{◌≡◌};
ghost use Rattle.showing.specs.Showing.{judged_shown, recording_shown, show_of, show_files_of};

use config::Config;
use judging::{ALLOWED, Judged, MAX_CONFIG, Verdict};
use posting::{Board, Posted, Shown, Told};
use reading::Outcome;
use state::State;

// The line of what was judged.
#[tactic(auto, unfolding(crate::specs::Showing::judged_shown))]
fn judged_shown(operation: u8, j: Judged) -> Shown
    ensures { result ≡ judged_shown operation j }
{
    match j.verdict {
        Verdict::Accepted => posting::operation_shown(j.state.operations.get(operation)),
        Verdict::Refused(_, _) => Shown::Unjudged,
        Verdict::Unfinished => Shown::Unjudged,
    }
}

// The line for a recording, judged from the start state.
#[tactic(auto, unfolding(crate::specs::Showing::recording_shown))]
fn recording_shown(cfg: Config, operation: u8, s: &[u8], allowance: u32) -> Shown
    ensures { result ≡ recording_shown cfg operation s.now allowance }
{
    judged_shown(
        operation,
        judging::judge(cfg, State::start(cfg), s, allowance),
    )
}

// Shows a recording on the board, by its plan operation. An operation that is not there is refused before anything is judged, and the board stays.
#[tactic(auto, unfolding(crate::specs::Showing::show_of))]
pub fn show(cfg: Config, operation: u32, s: &[u8], allowance: u32, board: Board) -> Posted
    ensures { result ≡ show_of cfg operation s.now allowance board }
{
    if operation < u32::from(cfg.operations.n) {
        let x = recording_shown(cfg, operation as u8, s, allowance);
        return Posted {
            told: Told::Line(x),
            board: board.post(x),
        };
    }
    posting::leaves(board, Told::Refused(numbers::NOT_THERE))
}

// The same for the bytes of a configuration and of a recording.
#[tactic(auto, unfolding(crate::specs::Showing::show_files_of))]
pub fn show_files(config: &[u8], operation: u32, recording: &[u8], board: Board) -> Posted
    ensures { result ≡ show_files_of config.now operation recording.now board }
{
    if MAX_CONFIG < config.len() {
        return posting::leaves(board, Told::TooLong);
    }
    let g = reading::read_config(config);
    match g.outcome {
        Outcome::Refused(place, k) => posting::leaves(board, Told::Configuration(place, k)),
        Outcome::Whole => show(g.config, operation, recording, ALLOWED, board),
    }
}
