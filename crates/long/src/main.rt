// The judge for a recording of any length: `long CONFIG` judges the recording on standard input in parts, with the state carried on, in the memory of
// one part, and prints the line of one judging without limits (`parts-as-one` in crate parts).
#![tactic(auto)]

ghost use Rattle.std.specs.Prelude.{◌≡◌, ◌≤◌, length, drop};
ghost use Rattle.std.proofs.Math.Seq.{paste};
ghost use Rattle.numbers.specs.Tags.{step_size};
ghost use Rattle.judging.specs.Judging.{judge_of};
ghost use Rattle.judging.specs.Line.{verdict_line};
ghost use Rattle.parts.specs.Parts.{later, later_verdict, sure, whole_of};
ghost use Rattle.long.specs.Near.{Near};

use config::Config;
use judging::{Judged, Line, Verdict};
use reading::Outcome;
use state::State;
use std::env::Env;
use std::io::{self, Error, ErrorKind, Input, Read};
use std::rt::Files;

// The bytes of a part, the steps of it that are judged before more is read, and where the bytes begin that are held for the next.
const ROOM: usize = 65536;

const SURE: u32 = (ROOM / numbers::SIZE_STEP - 1) as u32;

const HELD: usize = ROOM - numbers::SIZE_STEP;

// More parts than any disk has room for. A loop that is proved has to end.
const PARTS: u32 = 4000000000;

// A verdict with n steps before it.
fn later_verdict(n: usize, v: Verdict) -> Verdict
    requires n_bound { n ≤ 16380000000000 }
    requires near { Near v }
    ensures { result ≡ later_verdict n v }
{
    match v {
        Verdict::Accepted => Verdict::Accepted,
        Verdict::Refused(place, k) => Verdict::Refused(n + place, k),
        Verdict::Unfinished => Verdict::Unfinished,
    }
}

// A part with n steps before it, of which so many steps are judged.
fn judge_after(cfg: Config, st: State, n: usize, s: &[u8], allowance: u32) -> Judged
    requires n_bound { n ≤ 16380000000000 }
    requires allowance_bound { allowance ≤ 65536 }
    ensures { result ≡ later n (judge_of cfg st s.now allowance) }
{
    let j = judging::judge(cfg, st, s, allowance);
    Judged {
        verdict: later_verdict(n, j.verdict),
        count: n + j.count,
        ..j
    }
}

// A part that is full, with n steps before it: as many steps as it is sure of.
fn judge_part(cfg: Config, st: State, n: usize, s: &[u8]) -> Judged
    requires n_bound { n ≤ 16380000000000 }
    requires s_len { length s.now ≡ 65536 }
    ensures { result ≡ later n (judge_of cfg st s.now (sure s.now)) }
{
    judge_after(cfg, st, n, s, SURE)
}

// The last part, with n steps before it: all of it.
fn judge_last(cfg: Config, st: State, n: usize, s: &[u8]) -> Judged
    requires n_bound { n ≤ 16380000000000 }
    requires s_len_bound { length s.now ≤ 65536 }
    ensures { result ≡ later n (whole_of cfg st s.now) }
{
    judge_after(cfg, st, n, s, s.len() as u32)
}

// The bytes that are held, moved to the front of the part.
fn hold(buf: &mut [u8])
    requires { length buf.old ≡ 65536 }
    ensures { buf.new ≡ paste buf.old 0 (drop 65520 buf.old) step_size }
{
    // Kept: no copy_from_slice, as front and rest are one buffer, and the search passes its limit on the goal of a split at 65,520.
    for i in 0..numbers::SIZE_STEP {
        buf[i] = buf[HELD + i];
    }
}

// What a verdict is called.
fn verdict_line(v: Verdict, count: usize) -> Line
    ensures { result ≡ verdict_line v count }
{
    match v {
        Verdict::Accepted => Line::Accepted(count),
        Verdict::Refused(place, k) => Line::Refused(place, k),
        Verdict::Unfinished => Line::Unfinished(count),
    }
}

// The recording on standard input, from the start state on, part by part.
fn judge_parts<I: Read>(input: &mut I, cfg: Config, part: &mut [u8]) -> io::Result<Line>
    requires { length part.old ≡ 65536 }
{
    let mut st = State::start(cfg);
    let mut n: usize = 0;
    let mut held: usize = 0;
    for k in 0..PARTS {
        let end = held + program_io::read_whole(input, &mut part[held..])?;
        if end < ROOM {
            let last = judge_last(cfg, st, n, &part[..end]);
            return Ok(verdict_line(last.verdict, last.count));
        }
        let j = judge_part(cfg, st, n, part);
        match j.verdict {
            Verdict::Unfinished => {
                st = j.state;
                n += SURE as usize;
                hold(part);
                held = numbers::SIZE_STEP;
            }
            v => return Ok(verdict_line(v, j.count)),
        }
    }
    Err(Error::from(ErrorKind::FileTooLarge))
}

// The line for the bytes of a configuration and the recording on standard input.
fn long_line<I: Read>(input: &mut I, config: &[u8], part: &mut [u8]) -> io::Result<Line>
    requires { length part.old ≡ 65536 }
{
    if judging::MAX_CONFIG < config.len() {
        return Ok(Line::TooLong);
    }
    let r = reading::read_config(config);
    match r.outcome {
        Outcome::Refused(place, k) => Ok(Line::Configuration(place, k)),
        Outcome::Whole => judge_parts(input, r.config, part),
    }
}

fn run<R: Env + Files + Input + Print, E: Print>(
    rt: &R,
    stderr: &E,
    config: &mut [u8],
    part: &mut [u8],
) -> io::Result<()>
    requires { length part.old ≡ 65536 }
{
    let config = program_io::read_arg(rt, stderr, 1, config)?;
    let line = long_line(&mut rt.reader(), config, part).inspect_err(|e| program_io::fail(
        stderr,
        b"the recording",
        *e,
    ))?;
    program_io::print(&mut io::writer(rt), line);
    Ok(())
}

fn main(rt: HostRuntime) {
    let mut config = [0u8; judging::CONFIG_ROOM];
    let mut part = [0u8; ROOM];
    let _ = run(&rt, &rt.stderr(), &mut config, &mut part);
}
