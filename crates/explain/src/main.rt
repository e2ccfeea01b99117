// From a line to what happened: `explain WORD CONFIG RECORDING [NAMES]`, where WORD is text, all or page, explains what the judge says of two files.
// What is shown of the machine is what proved functions say: the verdict (judging), each state and the right answer (machine), the cause and what is allowed
// (causes), the guess (mending). The words and the layout are tested.
#![tactic(auto)]

mod calls;
mod case;
mod damaged;
mod names;
mod page;
mod putting;
mod reasons;
mod sections;
mod table;
mod words;

use case::{Asked, Case};
use judging::Line;
use names::Names;
use putting::{Text, say};
use reasons::Why;
use state::State;
use std::env::Env;
use std::io::{self, Input};
use std::rt::Files;
use table::{Focus, Refused, Rows, Widths};
use values::Step;
use whys::Cause;

// ---- the focus of a refusal

fn focus_of(st: State, s: Step) -> Focus {
    let none = Focus {
        slot: if words::is_slots(s.code) {
            Some(s.who)
        } else {
            None
        },
        ..Focus::NONE
    };
    let what = Some(s.what);
    match s.code {
        numbers::CODE_ENTER | numbers::CODE_EXIT => Focus { area: what, ..none },
        numbers::CODE_CALL | numbers::CODE_RESULT | numbers::CODE_TIMEOUT => Focus {
            operation: what,
            ..none
        },
        numbers::CODE_HAND_BACK | numbers::CODE_END | numbers::CODE_FAIL => Focus {
            operation: calls::served(st, s.who),
            ..none
        },
        numbers::CODE_SPAWN => Focus {
            runnable: what,
            ..none
        },
        numbers::CODE_TICK => Focus {
            timer: what,
            ..none
        },
        _ => none,
    }
}

// What the cause adds to the focus.
fn focused(f: Focus, c: Cause) -> Focus {
    match c {
        Cause::WaitsOn(o) | Cause::Stops(numbers::TAG_OPERATION, o, _) => Focus {
            operation: Some(o),
            ..f
        },
        Cause::Stops(numbers::TAG_TIMER, t, _) => Focus {
            timer: Some(t),
            ..f
        },
        Cause::HeldBy(i) => Focus { slot: Some(i), ..f },
        Cause::StillHeld(a) | Cause::OnTop(a) => Focus { area: Some(a), ..f },
        Cause::QueueFull(r, _) => Focus {
            runnable: Some(r),
            ..f
        },
        _ => f,
    }
}

// ---- a refused step

fn show_verdict<R: Print>(rt: &R, case: Case, refused: Refused) {
    let steps = case.recording.len() / numbers::SIZE_STEP;
    let mut line = Headline::new();
    line.put_with("REFUSED at step ", refused.place as u64);
    line.put_with(" of ", steps as u64);
    line.put_with(", by rule ", refused.rule as u64);
    line.put(" (");
    line.put(reasons::rule_of(refused.rule));
    line.put("). ");
    put_headline(&mut line, case.names, refused);
    line.put("\n\n");
    line.show(rt);
}

type Headline = Text<1024>;

// Who says or does what it can't.
fn put_headline(line: &mut Headline, names: &Names, refused: Refused) {
    let x = refused.step;
    if words::is_slots(x.code) {
        line.put_with("Slot ", x.who as u64);
    } else {
        line.put("The scheduler");
    }
    if let Cause::Differs(v) = refused.cause {
        line.put(" says that `");
        line.put_deed(names, x);
        line.put("` answered ");
        line.put_meant(names, x.code, x.claim);
        line.put(". It can't have: the answer is ");
        line.put_meant(names, x.code, v);
        line.put(".");
    } else {
        line.put(" can't `");
        line.put_deed(names, x);
        line.put("` here.");
    }
}

// Why, with what the calls before it came to.
fn show_why<R: Print>(
    rt: &R,
    names: &Names,
    st: State,
    calls: &calls::Calls,
    focus: Focus,
    refused: Refused,
) {
    let mut why = Why::new();
    why.put_with("\nWhy: rule ", refused.rule as u64);
    why.put(": ");
    reasons::put_cause(&mut why, names, refused.step, refused.cause);
    if let Some(o) = focus.operation {
        sections::put_story(&mut why, names, st, calls, o);
    }
    why.put("\n");
    why.show(rt);
}

// All rows of a few steps, of a page, and where they are asked for.
fn rows_of(case: Case, focus: Focus) -> Rows {
    if case.asked != Asked::Text || case.operations.len() < FEW {
        Rows::All
    } else {
        Rows::last(case, focus)
    }
}

// How many steps are too many to be all shown unasked.
const FEW: usize = 31;

// The table of accepted steps: measured, then shown. Its columns, and the time behind the last step.
fn show_table<R: Print>(rt: &R, case: Case, rows: Rows) -> (Widths, u64) {
    let widths = table::measured(case, rows);
    if case.asked.is_page() {
        page::show_head(rt, case.names, &widths);
    } else {
        table::show_head(rt, case.names, &widths);
    }
    let ms = table::show_rows(rt, case, rows, &widths);
    (widths, ms)
}

// What stands around the table of a refused step.
fn show_reasons<R: Print>(rt: &R, case: Case, st: State, focus: Focus, refused: Refused) {
    let calls = calls::calls_of(case);
    start_text(rt, case.asked);
    show_why(rt, case.names, st, &calls, focus, refused);
    sections::show_allowed(rt, case, st);
    sections::show_place(rt, case.recording, refused.place);
    sections::show_rest(rt, case.recording, refused.place);
    sections::show_guess(rt, case, st, refused.step);
    end_text(rt, case.asked);
}

// The accepted steps, and the refused one behind them.
fn show_steps<R: Print>(rt: &R, case: Case, focus: Focus, refused: Refused) {
    let (widths, ms) = show_table(rt, case, rows_of(case, focus));
    if case.asked.is_page() {
        page::show_refused(rt, case.names, refused, ms);
        page::show_foot(rt);
    } else {
        table::show_refused(rt, case.names, &widths, refused, ms);
    }
}

// A step that the machine refuses behind so many accepted ones. On a page the reasons stand before the steps, which may be many.
fn tell_step<R: Print>(
    rt: &R,
    case: Case,
    operations: &mut [Option<u8>],
    x: Step,
    place: usize,
    rule: u8,
) {
    let st = calls::note_operations(case, operations);
    let case = Case { operations, ..case };
    let refused = Refused {
        step: x,
        cause: causes::cause_of(case.cfg, st, x),
        place,
        rule,
    };
    let focus = focused(focus_of(st, x), refused.cause);
    start_text(rt, case.asked);
    show_verdict(rt, case, refused);
    end_text(rt, case.asked);
    if case.asked.is_page() {
        show_reasons(rt, case, st, focus, refused);
        say(rt, "<p><a href=\"#x\">To the refused step</a></p>\n");
        show_steps(rt, case, focus, refused);
    } else {
        show_steps(rt, case, focus, refused);
        show_reasons(rt, case, st, focus, refused);
    }
}

fn start_text<R: Print>(rt: &R, asked: Asked) {
    if asked.is_page() {
        page::open_text(rt);
    }
}

fn end_text<R: Print>(rt: &R, asked: Asked) {
    if asked.is_page() {
        page::close_text(rt);
    }
}

// A field that can't be read, behind the accepted steps.
fn tell_damaged<R: Print>(rt: &R, case: Case, operations: &mut [Option<u8>], place: usize) {
    calls::note_operations(case, operations);
    let case = Case { operations, ..case };
    show_damaged(rt, case.asked, operations.len(), place);
    show_all(rt, case);
    if case.asked.is_page() {
        page::show_foot(rt);
    }
    start_text(rt, case.asked);
    damaged::show_recording(rt, case.recording, operations.len(), place);
    end_text(rt, case.asked);
}

fn show_damaged<R: Print>(rt: &R, asked: Asked, steps: usize, place: usize) {
    let mut line = Text::<256>::new();
    line.put_with("REFUSED at field ", place as u64);
    line.put(", by rule 18 (a damaged field). The ");
    line.put_count(steps as u64, "step");
    line.put(" before it were allowed; the recording can't be read from there on.\n\n");
    start_text(rt, asked);
    line.show(rt);
    end_text(rt, asked);
}

// How many steps can be read from the front.
fn readable(recording: &[u8], most: usize) -> usize {
    recording
        .chunks_exact(numbers::SIZE_STEP)
        .map_while(calls::step_in)
        .take(most)
        .count()
}

fn tell_refused<R: Print>(rt: &R, case: Case, place: usize, rule: u8) {
    let Some(before) = place.checked_sub(1) else {
        return say(rt, "REFUSED: the first state is not sound.\n");
    };
    let mut room = [None; calls::MOST];
    if rule == numbers::BAD_FIELD {
        if let Some(operations) = room.get_mut(..readable(case.recording, before)) {
            tell_damaged(rt, case, operations, place);
        }
        return;
    }
    let field = case.recording.chunks_exact(numbers::SIZE_STEP).nth(before);
    if let Some(x) = field.and_then(calls::step_in) {
        if let Some(operations) = room.get_mut(..before) {
            tell_step(rt, case, operations, x, place, rule);
        }
    }
}

type Taken = Text<256>;

fn put_taken(line: &mut Taken, steps: usize, whole: bool) {
    if steps == 0 {
        return line.put(
            "ACCEPTED: the recording is whole, and has no steps. Nothing was done, and nothing was wrong.\n\n",
        );
    }
    line.put(if whole {
        "ACCEPTED: the recording is whole, and nothing in its "
    } else {
        "UNFINISHED: the first "
    });
    line.put_count(steps as u64, "step");
    line.put(if whole {
        " is against the rules. How each call ended stands below.\n\n"
    } else {
        " were allowed, and no more were looked at. ./judge --long judges all of them.\n\n"
    });
}

// Every step allowed, to the end or to the allowance.
fn tell_taken<R: Print>(rt: &R, case: Case, steps: usize, whole: bool) {
    let mut room = [None; calls::MOST];
    let Some(operations) = room.get_mut(..steps) else {
        return;
    };
    calls::note_operations(case, operations);
    let case = Case { operations, ..case };
    let mut line = Taken::new();
    put_taken(&mut line, steps, whole);
    start_text(rt, case.asked);
    line.show(rt);
    end_text(rt, case.asked);
    if case.asked.is_page() {
        start_text(rt, case.asked);
        sections::show_calls(rt, case);
        end_text(rt, case.asked);
        show_all(rt, case);
        page::show_foot(rt);
        return;
    }
    if steps < FEW || case.asked.is_all() {
        show_all(rt, case);
        say(rt, "\n");
    }
    sections::show_calls(rt, case);
}

// The table of steps that are all accepted.
fn show_all<R: Print>(rt: &R, case: Case) {
    show_table(rt, case, rows_of(case, Focus::NONE));
}

// ---- the two files

fn tell_line<R: Print>(rt: &R, case: Case, config: &[u8], line: Line) {
    match line {
        Line::Accepted(n) => tell_taken(rt, case, n, true),
        Line::Unfinished(n) => tell_taken(rt, case, n, false),
        Line::Refused(place, k) => tell_refused(rt, case, place, k),
        Line::Configuration(place, k) => tell_config(rt, config, case.asked, place, k),
        Line::TooLong => tell_long(rt, case.asked),
    }
}

fn tell_config<R: Print>(rt: &R, config: &[u8], asked: Asked, place: usize, k: u8) {
    start_text(rt, asked);
    damaged::show_config(rt, config, place, k);
    end_text(rt, asked);
}

fn tell_long<R: Print>(rt: &R, asked: Asked) {
    start_text(rt, asked);
    say(
        rt,
        "INPUT TOO LONG: a configuration has at most 4,096 bytes, and a recording at most 65,536. ./judge --long judges a longer recording.\n",
    );
    end_text(rt, asked);
}

fn tell<R: Print>(rt: &R, config: &[u8], recording: &[u8], names: &Names, asked: Asked) {
    let line = judging::line_of(config, recording);
    let case = Case {
        cfg: reading::read_config(config).config,
        recording,
        operations: &[],
        names,
        asked,
    };
    if asked.is_page() {
        page::show_top(rt);
    }
    tell_line(rt, case, config, line);
    if asked.is_page() {
        page::show_end(rt);
    }
}

// Takes the names of the file that the fourth argument names, if there is one.
fn load_names<R: Env + Files + Input, E: Print>(
    rt: &R,
    stderr: &E,
    names: &mut Names,
    text: &mut [u8],
    page: bool,
) -> io::Result<()> {
    if 4 < program_io::arg_count(rt) {
        names.take(program_io::read_arg(rt, stderr, 4, text)?, page);
    }
    Ok(())
}

fn run<R: Env + Files + Input + Print, E: Print>(
    rt: &R,
    stderr: &E,
    config: &mut [u8],
    recording: &mut [u8],
    names: &mut Names,
    text: &mut [u8],
) -> io::Result<()> {
    let asked = Asked::of(program_io::first_letter(rt));
    load_names(rt, stderr, names, text, asked.is_page())?;
    let config = program_io::read_arg(rt, stderr, 2, config)?;
    let recording = program_io::read_arg(rt, stderr, 3, recording)?;
    tell(rt, config, recording, names, asked);
    Ok(())
}

fn main(rt: HostRuntime) {
    let mut config = [0u8; judging::CONFIG_ROOM];
    let mut recording = [0u8; judging::RECORDING_ROOM];
    let mut names = Names::new();
    let mut text = [0u8; 65536];
    // What can't be read has been named on standard error.
    let _ = run(
        &rt,
        &rt.stderr(),
        &mut config,
        &mut recording,
        &mut names,
        &mut text,
    );
}
