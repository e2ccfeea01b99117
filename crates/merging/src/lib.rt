// Neighbouring waits of a recording merged into one, as recorders do it: the recording that is left is judged as the one that came.
#![tactic(auto)]

ghost use Rattle.std.specs.Prelude.{◌≡◌, ◌+◌, ◌*◌, ◌≤◌, leb, length};
ghost use Rattle.numbers.specs.Tags.{step_size, end_size};
ghost use Rattle.wire.specs.Bytes.{put_at};
ghost use Rattle.recording.specs.declared.Field.TheVariants.{Step as IsStep};
ghost use Rattle.recording.specs.Recording.{field_of};
ghost use Rattle.recording.specs.Whole.{steps_in, text_of};
ghost use Rattle.merging.specs.declared.Merged.TheVariants.{Whole};
ghost use Rattle.merging.specs.Waits.{longest, is_wait, adds_up, joined, merged_of};
ghost use Rattle.merging.specs.Merging.{on_last, survey_of, merge_to, merge_written};

use recording::Field;
use values::{Step, Value};

// What merging comes to: how many steps are left, or a refusal with its place and number.
#[derive(Clone, Copy)]
pub enum Merged {
    Whole(usize),
    Refused(usize, u8),
}

// A wait as recorders write it: by nobody, about no part, with a Number, and Void is its claim.
#[tactic(auto, unfolding(crate::specs::Waits::is_wait))]
fn is_wait(s: Step) -> bool
    ensures { result ≡ is_wait s }
{
    s.code == numbers::CODE_WAIT
        && s.who == 0
        && s.what == 0
        && s.argument.kind == Value::NUMBER
        && s.claim.is_void()
}

// Two waits that one step can hold.
#[tactic(auto, unfolding(crate::specs::Waits::adds_up))]
fn adds_up(s: Step, x: Step) -> bool
    ensures { result ≡ adds_up s x }
{
    is_wait(s) && is_wait(x) && x.argument.number <= u32::MAX - s.argument.number
}

// The one wait for both.
fn joined(s: Step, x: Step) -> Step
    requires { s.argument.number + x.argument.number ≤ longest }
    ensures { result ≡ joined s x }
{
    Step {
        code: numbers::CODE_WAIT,
        who: 0,
        what: 0,
        argument: Value::of(s.argument.number + x.argument.number),
        claim: Value::VOID,
    }
}

// What the field behind the steps says: the end, or where the text is damaged.
// Kept: crates mending and moving have the like, but its answer is `Merged`, which is public and has its own `on_last`.
fn ended(f: Field, count: usize, steps: usize) -> Merged
    requires { count ≤ 4611686018427387904 }
    ensures { result ≡ on_last f count (Whole steps) }
{
    match f {
        Field::Step(_, _) => Merged::Refused(count + 1, numbers::BAD_FIELD),
        Field::End => Merged::Whole(steps),
        Field::Refused(past, k) => Merged::Refused(count + 1 + past as usize, k),
    }
}

// The walk that writes nothing: where the text is damaged, or how many steps will be left.
fn survey(s: &[u8]) -> Merged
    ensures { result ≡ survey_of s.now }
{
    let mut last: Option<Step> = None;
    let mut count: usize = 0;
    let mut steps: usize = 0;
    let mut at: usize = 0;
    // Kept: a field's length is known only when it is read, and read_field takes a place, so a loop over fields moves a place by lengths.
    loop {
        let f = recording::read_field(s, at);
        let Field::Step(x, size) = f else {
            return ended(f, count, steps);
        };
        match last {
            Some(s) if adds_up(s, x) => last = Some(joined(s, x)),
            _ => {
                last = Some(x);
                steps += 1;
            }
        }
        count += 1;
        at += size;
    }
}

// The walk that writes, from a first step on, once it is known that all has room. The last step is held back, as the next may be a wait that adds up with it.
fn write_from(s: &[u8], first: Step, size: usize, out: &mut [u8])
    requires s_value { field_of s.now ≡ IsStep first size }
    requires s_in_bounds { length (text_of (merged_of (steps_in s.now))) ≤ length out.old }
    ensures { out.new ≡ put_at out.old 0 (text_of (merged_of (steps_in s.now))) }
{
    let mut last = first;
    let mut at = size;
    let mut to: usize = 0;
    loop {
        let f = recording::read_field(s, at);
        let Field::Step(x, n) = f else {
            recording::write_step(out, to, last);
            recording::write_end(out, to + numbers::SIZE_STEP);
            return;
        };
        if adds_up(last, x) {
            last = joined(last, x);
        } else {
            recording::write_step(out, to, last);
            last = x;
            to += numbers::SIZE_STEP;
        }
        at += n;
    }
}

// The same of any text that is a recording: one with no step is its end.
fn write_all(s: &[u8], out: &mut [u8])
    requires { length (text_of (merged_of (steps_in s.now))) ≤ length out.old }
    ensures { out.new ≡ put_at out.old 0 (text_of (merged_of (steps_in s.now))) }
{
    let f = recording::read_field(s, 0);
    let Field::Step(x, size) = f else {
        recording::write_end(out, 0);
        return;
    };
    write_from(s, x, size, out);
}

// So many steps with their end have room in a buffer of this length.
fn has_room(steps: usize, out: usize) -> bool
    ensures { result ≡ leb (steps * step_size + end_size) out }
{
    numbers::SIZE_END <= out && steps <= (out - numbers::SIZE_END) / numbers::SIZE_STEP
}

// Merges neighbouring waits of a recording into a lent buffer. A refusal leaves it as it is.
pub fn merge(s: &[u8], out: &mut [u8]) -> Merged
    ensures value { result ≡ merge_to s.now out.old }
    ensures out_after { out.new ≡ merge_written s.now out.old }
{
    let r = survey(s);
    let Merged::Whole(steps) = r else {
        return r;
    };
    if !has_room(steps, out.len()) {
        return Merged::Refused(0, numbers::NO_ROOM);
    }
    write_all(s, out);
    r
}
