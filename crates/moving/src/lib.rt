// Recordings moved from one form to the other, and a text of either form put into the old one.
#![tactic(auto)]

ghost use Rattle.std.specs.Prelude.{◌≡◌, ◌+◌, ◌*◌, ◌≤◌, leb, length, drop};
ghost use Rattle.numbers.specs.Tags.{step_size};
ghost use Rattle.forms.specs.Numbers.{edition_size};
ghost use Rattle.wire.specs.Bytes.{put_at, wrote_to, wrote_bytes};
ghost use Rattle.recording.specs.Whole.{whole_of, steps_in};
ghost use Rattle.moving.specs.declared.Moved.TheVariants.{To};
ghost use Rattle.moving.specs.Old.{tail_bytes, long_of};
ghost use Rattle.moving.specs.Moves.{short_text_of, on_last, shortens_of, shorten_to, shorten_written, lengthen_to, lengthen_written};

use recording::Field;
use wire::Wrote;

// What a move comes to: how many bytes the moved text has, or a refusal with its place and number.
#[derive(Clone, Copy)]
pub enum Moved {
    To(usize),
    Refused(usize, u8),
}

// The steps that a walk has passed, and the field behind them.
#[derive(Clone, Copy)]
pub struct Passed {
    pub count: usize,
    pub last: Field,
}

// What the field behind the steps says: the end, or where the text is damaged.
// Kept: crates mending and merging have the like, but its answer is `Moved`, which is public and has its own `on_last`.
fn ended(f: Field, count: usize, whole: Moved) -> Moved
    requires { count ≤ 4611686018427387904 }
    ensures { result ≡ on_last f count whole }
{
    match f {
        Field::Step(_, _) => Moved::Refused(count + 1, numbers::BAD_FIELD),
        Field::End => whole,
        Field::Refused(past, k) => Moved::Refused(count + 1 + past as usize, k),
    }
}

// ---- to the short form

// The walk that writes nothing: where the text can't be moved, or how long it will be.
fn survey(s: &[u8]) -> Moved
    ensures { result ≡ shortens_of s.now }
{
    let mut count: usize = 0;
    let mut size: usize = forms::SIZE_EDITION + numbers::SIZE_END;
    let mut at: usize = 0;
    // Kept: a field's length is known only when it is read, and read_field takes a place, so a loop over fields moves a place by lengths.
    loop {
        let f = recording::read_field(s, at);
        let Field::Step(x, n) = f else {
            return ended(f, count, Moved::To(size));
        };
        if !forms::has_short(x) {
            return Moved::Refused(count + 1, forms::NO_SHORT);
        }
        size += forms::short_size(x);
        count += 1;
        at += n;
    }
}

// The walk that writes, once it is known that all has a short form and room.
fn put_shorts(s: &[u8], out: &mut [u8])
    requires s_value { shortens_of s.now ≡ To (length (short_text_of (steps_in s.now))) }
    requires s_in_bounds { length (short_text_of (steps_in s.now)) ≤ length out.old }
    ensures { out.new ≡ put_at out.old 0 (short_text_of (steps_in s.now)) }
{
    forms::write_header(out, 0);
    let mut at: usize = 0;
    let mut to: usize = forms::SIZE_EDITION;
    loop {
        let f = recording::read_field(s, at);
        let Field::Step(x, n) = f else {
            recording::write_end(out, to);
            return;
        };
        forms::write_short(out, to, x);
        to += forms::short_size(x);
        at += n;
    }
}

// Moves a recording to the short form, into a lent buffer: at each field 18, then 29, and 27 last of all. A refusal leaves the buffer as it is.
pub fn shorten(s: &[u8], out: &mut [u8]) -> Moved
    ensures value { result ≡ shorten_to s.now out.old }
    ensures out_after { out.new ≡ shorten_written s.now out.old }
{
    let r = survey(s);
    let Moved::To(size) = r else {
        return r;
    };
    if out.len() < size {
        return Moved::Refused(0, numbers::NO_ROOM);
    }
    put_shorts(s, out);
    r
}

// ---- to the old form

// The walk over the fields behind a header: how many steps there are, and what stands behind them.
fn pass(s: &[u8]) -> Passed
    ensures count_value { result.count ≡ length (steps_in (long_of (drop edition_size s.now))) }
    ensures last_value { result.last ≡ (whole_of (long_of (drop edition_size s.now))).last }
{
    let mut count: usize = 0;
    let mut at: usize = forms::SIZE_EDITION;
    loop {
        let f = forms::read_short(s, at);
        let Field::Step(_, n) = f else {
            return Passed { count, last: f };
        };
        count += 1;
        at += n;
    }
}

// How many bytes stand behind the steps in the old form: the end, nothing, or the end and a byte.
fn tail(f: Field) -> usize
    ensures { result ≡ length (tail_bytes f) }
{
    match f {
        Field::Step(_, _) | Field::Refused(0, _) => 0,
        Field::End => numbers::SIZE_END,
        Field::Refused(_, _) => numbers::SIZE_END + 1,
    }
}

// So many steps and what stands behind them have room in a buffer of this length.
fn has_room(steps: usize, tail: usize, out: usize) -> bool
    ensures { result ≡ leb (steps * step_size + tail) out }
{
    tail <= out && steps <= (out - tail) / numbers::SIZE_STEP
}

// The walk that writes the old form, once it is known that all has room.
fn put_long(s: &[u8], out: &mut [u8])
    requires { length (long_of (drop edition_size s.now)) ≤ length out.old }
    ensures { out.new ≡ put_at out.old 0 (long_of (drop edition_size s.now)) }
{
    let mut at: usize = forms::SIZE_EDITION;
    let mut to: usize = 0;
    loop {
        let f = forms::read_short(s, at);
        let Field::Step(x, n) = f else {
            put_tail(f, out, to);
            return;
        };
        recording::write_step(out, to, x);
        to += numbers::SIZE_STEP;
        at += n;
    }
}

// What stands behind the steps.
fn put_tail(f: Field, out: &mut [u8], to: usize)
    ensures { out.new ≡ wrote_bytes out.old to (tail_bytes f) }
{
    wire::write(out, to, &[numbers::TAG_END, 0, 0, 0][..tail(f)]);
}

// Moves a recording to the old form, into a lent buffer: 18 at place 0 for a bad header, 18 at each field, and 27 last of all. A refusal leaves the buffer as it is.
pub fn lengthen(s: &[u8], out: &mut [u8]) -> Moved
    ensures value { result ≡ lengthen_to s.now out.old }
    ensures out_after { out.new ≡ lengthen_written s.now out.old }
{
    if !forms::is_short(s) || !forms::is_headed(s) {
        return Moved::Refused(0, numbers::BAD_FIELD);
    }
    let p = pass(s);
    let r = ended(p.last, p.count, Moved::To(0));
    let Moved::To(_) = r else {
        return r;
    };
    if !has_room(p.count, numbers::SIZE_END, out.len()) {
        return Moved::Refused(0, numbers::NO_ROOM);
    }
    put_long(s, out);
    Moved::To(p.count * numbers::SIZE_STEP + numbers::SIZE_END)
}

// Puts the fields behind a header into a lent buffer as the old form has them, damage and all: 27 where they do not fit.
pub fn stretch(s: &[u8], out: &mut [u8]) -> Wrote
    ensures value { result ≡ wrote_to out.old 0 (length (long_of (drop edition_size s.now))) }
    ensures out_after { out.new ≡ wrote_bytes out.old 0 (long_of (drop edition_size s.now)) }
{
    let p = pass(s);
    let tail = tail(p.last);
    if !has_room(p.count, tail, out.len()) {
        return Wrote::Refused(numbers::NO_ROOM);
    }
    put_long(s, out);
    Wrote::To(p.count * numbers::SIZE_STEP + tail)
}
