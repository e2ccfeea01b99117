// Whole recordings: the test of a text, a text read and written again, and a step written and read back.
#![tactic(auto)]

ghost use Rattle.std.specs.Prelude.{◌≡◌};
ghost use Rattle.recording.specs.Recording.{step_written, write_and_read_of};
ghost use Rattle.recording.specs.Whole.{is_sound, rewrite_to, rewrite_written};

use recording::Field;
use values::Step;
use wire::Wrote;

// A text is a recording: step fields, then the end.
pub fn is_sound(s: &[u8]) -> bool
    ensures { result ≡ is_sound s.now }
{
    let mut at = 0;
    // Kept: a field's length is known only when it is read, and read_field takes a place, so a loop over fields moves a place by lengths.
    loop {
        match recording::read_field(s, at) {
            Field::Step(_, size) => at += size,
            Field::End => return true,
            Field::Refused(_, _) => return false,
        }
    }
}

// A recording read field by field and written again: 18 where it is none, then 27 where it does not fit.
pub fn rewrite(s: &[u8], buf: &mut [u8]) -> Wrote
    ensures value { result ≡ rewrite_to s.now buf.old }
    ensures buf_after { buf.new ≡ rewrite_written s.now buf.old }
{
    if !is_sound(s) {
        return Wrote::Refused(numbers::BAD_FIELD);
    }
    if buf.len() < s.len() {
        return Wrote::Refused(numbers::NO_ROOM);
    }
    let mut at = 0;
    loop {
        match recording::read_field(s, at) {
            Field::Step(step, size) => {
                recording::write_step(buf, at, step);
                at += size;
            }
            Field::End => return recording::write_end(buf, at),
            Field::Refused(_, r) => return Wrote::Refused(r),
        }
    }
}

// A step written and read back.
pub fn write_and_read(buf: &mut [u8], at: usize, s: Step) -> Field
    ensures value { result ≡ write_and_read_of buf.old at s }
    ensures buf_after { buf.new ≡ step_written buf.old at s }
{
    match recording::write_step(buf, at, s) {
        Wrote::To(_) => recording::read_field(buf, at),
        Wrote::Refused(r) => Field::Refused(0, r),
    }
}
