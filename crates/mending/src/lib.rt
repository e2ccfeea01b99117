// Mending: the scheduler's steps that a recorder lost, put back as the search finds them.
#![tactic(auto)]

ghost use Rattle.std.specs.Prelude.{◌≡◌, ◌+◌, ◌*◌, ◌≤◌, leb, length};
ghost use Rattle.numbers.specs.Tags.{step_size, end_size};
ghost use Rattle.laws.specs.Choice.{both};
ghost use Rattle.wire.specs.Bytes.{put_at, Written};
ghost use Rattle.recording.specs.Whole.{steps_in, text_of};
ghost use Rattle.effects.specs.Step.{inner_of};
ghost use Rattle.gaps.specs.Gaps.{answered_all, turn_of, turn_steps, turns_of, mended_steps};
ghost use Rattle.gaps.specs.Report.{on_mended, note_size, step_notes, turn_notes, report_from, on_last, survey_of, fitted, mend_to, mend_written, mend_reported};
ghost use Rattle.gaps.specs.declared.Mended.TheVariants.{Whole};
ghost use Rattle.mending.specs.Going.{fields_of, note_of, Room, Fillable, Mendable, crossed_of, most_of, number_at, picks, picks_of, picked, taken_all};

use config::Config;
use gaps::{Choices, Mended, NOTE};
use recording::Field;
use state::State;
use values::{Answer, Step, Value};
use wire::Wrote;

// The state behind a gap and its step, and how many steps were inserted.
#[derive(Clone, Copy)]
pub struct Crossed {
    pub state: State,
    pub inserted: usize,
}

// A sequence of at most three choices, by their numbers.
// Kept: three fields and no array, because the definitions `picks` and `picked` name them.
#[derive(Clone, Copy)]
pub struct Picks {
    pub length: u8,
    pub first: usize,
    pub second: usize,
    pub third: usize,
}

impl Picks {
    // The number of its choice k, of three.
    fn number(self, k: usize) -> usize
        ensures { result ≡ number_at self k }
    {
        match k {
            0 => self.first,
            1 => self.second,
            _ => self.third,
        }
    }

    fn of(length: u8, first: usize, second: usize, third: usize) -> Picks
        ensures { result ≡ picks length first second third }
    {
        Picks {
            length,
            first,
            second,
            third,
        }
    }
}

// How many sequences of at most three choices there are, of k to choose from.
fn most_of(k: usize) -> usize
    requires { k ≤ 765 }
    ensures { (result ≡ most_of k) × (result ≤ 450000000) }
{
    1 + (k + (k * k + k * (k * k)))
}

// The sequence of a rank, by the numbers of its choices: none past the last.
fn picks_of(k: usize, rank: usize) -> Picks
    requires { k ≤ 765 }
    ensures { (result ≡ picks_of k rank) × (result.length ≤ 3) }
{
    if rank < 1 {
        return Picks::of(0, 0, 0, 0);
    }
    let a = rank - 1;
    if a < k {
        return Picks::of(1, a, 0, 0);
    }
    let b = a - k;
    let square = k * k;
    if b < square {
        return Picks::of(2, b / k, b % k, 0);
    }
    let c = b - square;
    if c < k * square {
        let d = c % square;
        return Picks::of(3, c / square, d / k, d % k);
    }
    Picks::of(0, 0, 0, 0)
}

// The state behind a fill whose choices are all taken.
fn taken_all(cfg: Config, st: State, all: Choices, fill: Picks) -> State
    requires { fill.length ≤ 3 }
    ensures { result ≡ taken_all cfg st (picked all fill) }
{
    let mut reached = st;
    for k in 0..usize::from(fill.length) {
        let x = searching::choice_at(all, fill.number(k));
        reached = machine::possible(cfg, reached, x).state;
    }
    reached
}

// What the field behind the steps says: the end, or where the text is damaged.
// Kept: crates merging and moving have the like, but its answer is `Mended`, which is public and has its own `on_last`.
fn ended(f: Field, count: usize, steps: usize, notes: usize) -> Mended
    requires { count ≤ 4611686018427387904 }
    ensures { result ≡ on_last f count (Whole steps notes) }
{
    match f {
        Field::Step(_, _) => Mended::Refused(count + 1, numbers::BAD_FIELD),
        Field::End => Mended::Whole(steps, notes),
        Field::Refused(past, k) => Mended::Refused(count + 1 + past as usize, k),
    }
}

// The walk that writes nothing: what can't be mended, or how many steps and notes there will be. A step that is accepted as it stands is not looked at again.
fn survey(cfg: Config, st: State, s: &[u8]) -> Mended
    ensures { result ≡ survey_of (inner_of cfg) cfg st s.now }
{
    let all = searching::choices_of(cfg);
    let k = searching::count_of(all);
    let most = most_of(k);
    let mut reached = st;
    let mut count: usize = 0;
    let mut steps: usize = 0;
    let mut notes: usize = 0;
    let mut at: usize = 0;
    // Kept: a field's length is known only when it is read, and read_field takes a place, so a loop over fields moves a place by lengths.
    loop {
        let f = recording::read_field(s, at);
        let Field::Step(x, size) = f else {
            return ended(f, count, steps, notes);
        };
        let r = machine::inner(cfg, reached, x);
        match r.answer {
            Answer::Taken(_) => {
                reached = r.state;
                steps += 1;
                count += 1;
                at += size;
            }
            Answer::Refused(_) => {
                let passed = searching::rank(cfg, reached, x, all);
                if most <= passed {
                    return Mended::Refused(count + 1, numbers::NO_FILL);
                }
                let fill = picks_of(k, passed);
                let next = taken_all(cfg, reached, all, fill);
                let last = machine::inner(cfg, next, x);
                reached = last.state;
                let more = fill.length as usize + 1;
                steps += more;
                notes += more;
                count += 1;
                at += size;
            }
        }
    }
}

// A note of the report written from a place on.
fn write_note(
    report: &mut [u8],
    at: usize,
    kind: u8,
    code: u8,
    what: u8,
    v: Value,
    place: usize,
) -> Wrote
    ensures { Written report.old at (note_of kind code what v place) result report.new }
{
    let [n0, n1, n2, n3] = v.number.to_be_bytes();
    let [p0, p1, p2, p3, p4, p5, p6, p7] = place.to_be_bytes();
    let bytes = [
        kind, code, what, v.kind, n0, n1, n2, n3, p0, p1, p2, p3, p4, p5, p6, p7,
    ];
    wire::write(report, at, &bytes)
}

// The inserted steps and their notes, written behind n steps and m notes; the state that they lead to.
fn write_fill(
    cfg: Config,
    st: State,
    all: Choices,
    fill: Picks,
    out: &mut [u8],
    n: usize,
    report: &mut [u8],
    m: usize,
) -> State
    requires { (fill.length ≤ 3) × Room (n + fill.length) (m + fill.length) (length out.old) (length report.old) }
    ensures value { result ≡ taken_all cfg st (picked all fill) }
    ensures out_after { out.new ≡ put_at out.old (n * step_size) (fields_of (answered_all (inner_of cfg) cfg st (picked all fill))) }
    ensures report_after { report.new ≡ put_at report.old (m * note_size) (step_notes n (answered_all (inner_of cfg) cfg st (picked all fill))) }
{
    let mut reached = st;
    for k in 0..usize::from(fill.length) {
        let x = searching::choice_at(all, fill.number(k));
        let r = machine::possible(cfg, reached, x);
        let y = searching::claiming(x, r.answer);
        recording::write_step(out, (n + k) * numbers::SIZE_STEP, y);
        write_note(
            report,
            (m + k) * NOTE,
            1,
            y.code,
            y.what,
            y.claim,
            n + k + 1,
        );
        reached = r.state;
    }
    reached
}

// A gap and its step, written behind n steps and m notes.
fn write_gap(
    cfg: Config,
    st: State,
    s: Step,
    all: Choices,
    out: &mut [u8],
    n: usize,
    report: &mut [u8],
    m: usize,
) -> Crossed
    requires { Fillable cfg st s all n m (length out.old) (length report.old) }
    ensures value { result ≡ crossed_of cfg st s }
    ensures out_after { out.new ≡ put_at out.old (n * step_size) (fields_of (turn_steps (turn_of (inner_of cfg) cfg st s))) }
    ensures report_after { report.new ≡ put_at report.old (m * note_size) (turn_notes n (turn_of (inner_of cfg) cfg st s)) }
{
    let k = searching::count_of(all);
    let passed = searching::rank(cfg, st, s, all);
    let fill = picks_of(k, passed);
    let next = write_fill(cfg, st, all, fill, out, n, report, m);
    let inserted = fill.length as usize;
    recording::write_step(out, (n + inserted) * numbers::SIZE_STEP, s);
    let v = Value {
        kind: Value::VOID.kind,
        number: passed as u32,
    };
    write_note(report, (m + inserted) * NOTE, 2, 0, 0, v, n + inserted + 1);
    let last = machine::inner(cfg, next, s);
    Crossed {
        state: last.state,
        inserted,
    }
}

// The walk that writes, once it is known that all can be mended and has room.
fn write_all(cfg: Config, st: State, s: &[u8], out: &mut [u8], report: &mut [u8])
    requires { Mendable cfg st s.now (length out.old) (length report.old) }
    ensures out_after { out.new ≡ put_at out.old 0 (text_of (mended_steps (turns_of (inner_of cfg) cfg st (steps_in s.now)))) }
    ensures report_after { report.new ≡ put_at report.old 0 (report_from 0 (turns_of (inner_of cfg) cfg st (steps_in s.now))) }
{
    let all = searching::choices_of(cfg);
    let mut reached = st;
    let mut steps: usize = 0;
    let mut notes: usize = 0;
    let mut at: usize = 0;
    loop {
        let f = recording::read_field(s, at);
        let Field::Step(x, size) = f else {
            recording::write_end(out, steps * numbers::SIZE_STEP);
            return;
        };
        let r = machine::inner(cfg, reached, x);
        match r.answer {
            Answer::Taken(_) => {
                recording::write_step(out, steps * numbers::SIZE_STEP, x);
                reached = r.state;
                steps += 1;
                at += size;
            }
            Answer::Refused(_) => {
                let c = write_gap(cfg, reached, x, all, out, steps, report, notes);
                reached = c.state;
                let more = c.inserted + 1;
                steps += more;
                notes += more;
                at += size;
            }
        }
    }
}

// So many steps with their end, and so many notes, have room in buffers of these lengths.
fn has_room(steps: usize, notes: usize, out: usize, report: usize) -> bool
    ensures { result ≡ both (leb (steps * step_size + end_size) out) (leb (notes * note_size) report) }
{
    numbers::SIZE_END <= out
        && steps <= (out - numbers::SIZE_END) / numbers::SIZE_STEP
        && notes <= report / NOTE
}

// Mends a recording from a state that is known to be sound. Where nothing is lost, the text is copied and no step is taken twice.
fn mend_sound(cfg: Config, st: State, s: &[u8], out: &mut [u8], report: &mut [u8]) -> Mended
    ensures value { result ≡ fitted out.old report.old (survey_of (inner_of cfg) cfg st s.now) }
    ensures out_after { out.new ≡ on_mended result (put_at out.old 0 (text_of (mended_steps (turns_of (inner_of cfg) cfg st (steps_in s.now))))) out.old }
    ensures report_after { report.new ≡ on_mended result (put_at report.old 0 (report_from 0 (turns_of (inner_of cfg) cfg st (steps_in s.now)))) report.old }
{
    let r = survey(cfg, st, s);
    let Mended::Whole(steps, notes) = r else {
        return r;
    };
    if !has_room(steps, notes, out.len(), report.len()) {
        return Mended::Refused(0, numbers::NO_ROOM);
    }
    if notes == 0 {
        copying::rewrite(s, out);
    } else {
        write_all(cfg, st, s, out, report);
    }
    r
}

// Mends a recording from a first state: the mended text into one lent buffer, the report into another. A refusal leaves both as they are.
pub fn mend(cfg: Config, st: State, s: &[u8], out: &mut [u8], report: &mut [u8]) -> Mended
    ensures value { result ≡ mend_to cfg st s.now out.old report.old }
    ensures out_after { out.new ≡ mend_written cfg st s.now out.old report.old }
    ensures report_after { report.new ≡ mend_reported cfg st s.now out.old report.old }
{
    if !sound::is_sound(cfg, st) {
        return Mended::Refused(0, numbers::NOT_SOUND);
    }
    mend_sound(cfg, st, s, out, report)
}
