// Recordings: their fields and whole texts, read and written, and both round trips.
#![tactic(auto)]

ghost use Rattle.std.specs.Prelude.{◌≡◌, ◌+◌, ◌≤◌, drop, length};
ghost use Rattle.wire.specs.Bytes.{end_bytes, Written};
ghost use Rattle.recording.specs.Recording.{values_good, tested, value_at, step_in, end_in, field_of, step_to, step_written};

use values::{Step, Value};
use wire::Wrote;

// What stands next in a recording: a step and the size of its field, the end, or a refusal: how many places past the field asked for it stands, and its number.
#[derive(Clone, Copy)]
pub enum Field {
    Step(Step, usize),
    End,
    Refused(u8, u8),
}

// Neither the argument nor the claim is a bad value.
#[tactic(auto, unfolding(crate::specs::Recording::values_good))]
pub fn values_good(s: Step) -> bool
    ensures { result ≡ values_good s }
{
    s.argument.is_good() && s.claim.is_good()
}

// The field of a step whose bytes are all there.
#[tactic(auto, unfolding(crate::specs::Recording::tested))]
fn tested(s: Step) -> Field
    ensures { result ≡ tested s }
{
    if values_good(s) {
        return Field::Step(s, numbers::SIZE_STEP);
    }
    Field::Refused(0, numbers::BAD_FIELD)
}

// The value whose five bytes stand at a place: its kind, then its number.
fn value_at(t: &[u8], i: usize) -> Value
    requires { i + 5 ≤ length t.now }
    ensures { result ≡ value_at t.now i }
{
    Value {
        kind: t[i],
        number: wire::number(t[i + 1], t[i + 2], t[i + 3], t[i + 4]),
    }
}

// The step field at the front of a text.
#[tactic(auto, unfolding(crate::specs::Recording::step_in))]
fn step_in(t: &[u8]) -> Field
    ensures { result ≡ step_in t.now }
{
    if t.len() < numbers::SIZE_STEP {
        return Field::Refused(0, numbers::BAD_FIELD);
    }
    tested(Step {
        code: t[3],
        who: t[4],
        what: t[5],
        argument: value_at(t, 6),
        claim: value_at(t, 11),
    })
}

// The end field at the front of a text: nothing follows it.
#[tactic(auto, unfolding(crate::specs::Recording::end_in))]
pub fn end_in(t: &[u8]) -> Field
    ensures { result ≡ end_in t.now }
{
    if t.len() == numbers::SIZE_END {
        return Field::End;
    }
    Field::Refused(1, numbers::BAD_FIELD)
}

// The field at the front of a text.
#[tactic(auto, unfolding(crate::specs::Recording::field_of))]
fn field_of(t: &[u8]) -> Field
    ensures { result ≡ field_of t.now }
{
    if t.len() < numbers::HEAD {
        return Field::Refused(0, numbers::BAD_FIELD);
    }
    let size = wire::length_of(t[1], t[2]);
    match t[0] {
        numbers::TAG_STEP if size == numbers::LENGTH_STEP => step_in(t),
        numbers::TAG_END if size == numbers::LENGTH_END => end_in(t),
        _ => Field::Refused(0, numbers::BAD_FIELD),
    }
}

// The field at a place of a text.
pub fn read_field(s: &[u8], at: usize) -> Field
    ensures { result ≡ field_of (drop at s.now) }
{
    match s.get(at..) {
        Some(t) => field_of(t),
        None => Field::Refused(0, numbers::BAD_FIELD),
    }
}

// A step's field written from a place on: 18 for a bad value, then 27 where it does not fit.
pub fn write_step(buf: &mut [u8], at: usize, s: Step) -> Wrote
    ensures value { result ≡ step_to buf.old at s }
    ensures buf_after { buf.new ≡ step_written buf.old at s }
{
    if !values_good(s) {
        return Wrote::Refused(numbers::BAD_FIELD);
    }
    let [a, b, c, d] = s.argument.number.to_be_bytes();
    let [e, f, g, h] = s.claim.number.to_be_bytes();
    let bytes = [
        numbers::TAG_STEP,
        0,
        13,
        s.code,
        s.who,
        s.what,
        s.argument.kind,
        a,
        b,
        c,
        d,
        s.claim.kind,
        e,
        f,
        g,
        h,
    ];
    wire::write(buf, at, &bytes)
}

// The end field written from a place on.
pub fn write_end(buf: &mut [u8], at: usize) -> Wrote
    ensures { Written buf.old at end_bytes result buf.new }
{
    wire::write(buf, at, &[numbers::TAG_END, 0, 0])
}
