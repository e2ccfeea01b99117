// Judging: a recording's verdict with its count and state, and the line that the program prints for two files.
#![tactic(auto)]

ghost use Rattle.std.specs.Prelude.{◌≡◌};
ghost use Rattle.judging.specs.Judging.{judged, judge_from, judge_of};
ghost use Rattle.judging.specs.Line.{allowed, verdict_line, judged_line, line_of};
ghost use Rattle.state.specs.Start.{start_of};
ghost use Rattle.effects.specs.Step.{inner_of};

use config::Config;
use reading::Outcome;
use recording::Field;
use state::State;
use values::Answer;

// Accepted to its end; refused, with the place of the field and the number; or unfinished, because the allowance ran out.
#[derive(Clone, Copy)]
pub enum Verdict {
    Accepted,
    Refused(usize, u8),
    Unfinished,
}

// A verdict, how many steps were taken, and the state that they led to.
#[derive(Clone, Copy)]
pub struct Judged {
    pub verdict: Verdict,
    pub count: usize,
    pub state: State,
}

// The line that the program prints. Places come before numbers of refusal.
#[derive(Clone, Copy)]
pub enum Line {
    Accepted(usize),
    Refused(usize, u8),
    Unfinished(usize),
    Configuration(usize, u8),
    TooLong,
}

// What the program allows: bytes of a configuration, bytes of a recording, steps.
pub const MAX_CONFIG: usize = 4096;

pub const MAX_RECORDING: usize = 65536;

pub const ALLOWED: u32 = 4000;

// Room for a file and for one byte more, so that a longer one is seen to be too long.
pub const CONFIG_ROOM: usize = MAX_CONFIG + 1;

pub const RECORDING_ROOM: usize = MAX_RECORDING + 1;

// Judges a recording from a first state, with an allowance of steps.
pub fn judge(cfg: Config, st: State, s: &[u8], allowance: u32) -> Judged
    ensures { result ≡ judge_of cfg st s.now allowance }
{
    if sound::is_sound(cfg, st) {
        return judge_sound(cfg, st, s, allowance);
    }
    given(Verdict::Refused(0, numbers::NOT_SOUND), 0, st)
}

// The same from a state that is known to be sound: each field is taken apart before its step is tried, and no step tests the state again.
fn judge_sound(cfg: Config, st: State, s: &[u8], allowance: u32) -> Judged
    ensures { result ≡ judge_from (inner_of cfg) allowance s.now 0 st }
{
    let mut reached = st;
    let mut left = allowance;
    let mut count: usize = 0;
    let mut at: usize = 0;
    // Kept: a field's length is known only when it is read, and read_field takes a place, so a loop over fields moves a place by lengths.
    loop {
        let f = recording::read_field(s, at);
        let Field::Step(x, size) = f else {
            let verdict = match f {
                Field::Refused(past, k) => Verdict::Refused(count + 1 + past as usize, k),
                _ => Verdict::Accepted,
            };
            return given(verdict, count, reached);
        };
        if left == 0 {
            return given(Verdict::Unfinished, count, reached);
        }
        let r = machine::inner(cfg, reached, x);
        if let Answer::Refused(k) = r.answer {
            return given(Verdict::Refused(count + 1, k), count, reached);
        }
        reached = r.state;
        left -= 1;
        count += 1;
        at += size;
    }
}

fn given(verdict: Verdict, count: usize, st: State) -> Judged
    ensures { result ≡ judged verdict count st }
{
    Judged {
        verdict,
        count,
        state: st,
    }
}

// What a verdict is called.
fn verdict_line(v: Verdict, count: usize) -> Line
    ensures { result ≡ verdict_line v count }
{
    match v {
        Verdict::Accepted => Line::Accepted(count),
        Verdict::Refused(place, k) => Line::Refused(place, k),
        Verdict::Unfinished => Line::Unfinished(count),
    }
}

// The verdict from the start state, as a line.
#[tactic(auto, unfolding(crate::specs::Line::judged_line))]
fn judged_line(cfg: Config, s: &[u8]) -> Line
    ensures { result ≡ judged_line (judge_of cfg (start_of cfg) s.now allowed) }
{
    let j = judge(cfg, State::start(cfg), s, ALLOWED);
    verdict_line(j.verdict, j.count)
}

// The line for the bytes of a configuration and of a recording.
#[tactic(auto, unfolding(crate::specs::Line::line_of, crate::specs::Line::read_line))]
pub fn line_of(config: &[u8], recording: &[u8]) -> Line
    ensures { result ≡ line_of config.now recording.now }
{
    if MAX_CONFIG < config.len() || MAX_RECORDING < recording.len() {
        return Line::TooLong;
    }
    let r = reading::read_config(config);
    match r.outcome {
        Outcome::Refused(place, k) => Line::Configuration(place, k),
        Outcome::Whole => judged_line(r.config, recording),
    }
}
