// The two forms of a recording: fields of the short form read and written, and the header.
#![tactic(auto)]

ghost use Rattle.std.specs.Prelude.{◌≡◌, ◌+◌, ◌≤◌, length, get_or, drop, take};
ghost use Rattle.laws.specs.Choice.{pick};
ghost use Rattle.wire.specs.Bytes.{put_at, Written};
ghost use Rattle.forms.specs.Short.{uses_who, uses_what, uses_argument, is_sparing, has_short, keeps_number, short_value, if_used, body_of, short_bytes, short_to, short_written, value_size, short_value_at, what_at, argument_at, claim_at, short_step_at, short_step_by, short_field_of, header_bytes, is_short, is_headed};

use recording::Field;
use rules::Row;
use values::{Step, Value};
use wire::Wrote;

// Refusal 29: a step has no short form.
pub const NO_SHORT: u8 = 29;

// The tag of a step in the short form.
pub const TAG_SHORT: u8 = 0x41;

// How long the field of the edition is, in all.
pub const SIZE_EDITION: usize = numbers::HEAD + numbers::LENGTH_EDITION;

// The edition of a recording in the short form.
pub const SHORT_EDITION: u8 = 2;

// ---- what stands in a text

// The byte at a place; behind the text there is 0.
fn byte_at(t: &[u8], i: usize) -> u8
    ensures { result ≡ get_or t.now i 0 }
{
    t.get(i).copied().unwrap_or(0)
}

// A kind of value that is written with its number.
fn keeps_number(k: u8) -> bool
    ensures { result ≡ keeps_number k }
{
    k == Value::NUMBER || k == Value::FULL
}

// How many bytes a value of a kind has.
fn value_size(k: u8) -> usize
    ensures { result ≡ value_size k }
{
    if keeps_number(k) { 5 } else { 1 }
}

// The value at a place.
fn value_at(t: &[u8], i: usize) -> Value
    requires { i ≤ 16 }
    ensures { result ≡ short_value_at t.now i }
{
    let kind = byte_at(t, i);
    if keeps_number(kind) {
        let number = wire::number(
            byte_at(t, i + 1),
            byte_at(t, i + 2),
            byte_at(t, i + 3),
            byte_at(t, i + 4),
        );
        return Value { kind, number };
    }
    Value { kind, number: 0 }
}

// ---- what a code uses

// Its step is a slot's.
fn uses_who(r: Row) -> bool
    ensures { result ≡ uses_who r }
{
    r.who == rules::A_SLOT
}

// Its step names a part.
fn uses_what(r: Row) -> bool
    ensures { result ≡ uses_what r }
{
    0 < r.part
}

// Its step takes an argument.
fn uses_argument(r: Row) -> bool
    ensures { result ≡ uses_argument r }
{
    0 < r.argument
}

// Every entry that is not used is empty.
#[tactic(auto, unfolding(crate::specs::Short::is_sparing, laws::specs::Choice::all_of))]
fn is_sparing(r: Row, s: Step) -> bool
    ensures { result ≡ is_sparing r s }
{
    (uses_who(r) || s.who == 0)
        && (uses_what(r) || s.what == 0)
        && (uses_argument(r) || s.argument.is_void())
}

// A step has a short form.
#[tactic(auto, unfolding(crate::specs::Short::has_short))]
pub fn has_short(s: Step) -> bool
    ensures { result ≡ has_short s }
{
    let r = refusals::row_of(s.code);
    0 < r.who && is_sparing(r, s)
}

// ---- a field of the short form read

// Where what stands: behind code and who.
fn what_at(r: Row) -> usize
    ensures { result ≡ what_at r }
{
    if uses_who(r) { 5 } else { 4 }
}

// Where the argument stands: behind what.
fn argument_at(r: Row) -> usize
    ensures { result ≡ argument_at r }
{
    let what = what_at(r);
    if uses_what(r) { what + 1 } else { what }
}

// Where the claim stands: behind the argument.
fn claim_at(r: Row, t: &[u8]) -> usize
    ensures { result ≡ claim_at r t.now }
{
    let at = argument_at(r);
    if uses_argument(r) {
        at + value_size(byte_at(t, at))
    } else {
        at
    }
}

// The step whose field stands first; entries that its code does not use are empty.
fn step_at(r: Row, t: &[u8]) -> Step
    ensures { result ≡ short_step_at r t.now }
{
    let who = if uses_who(r) { byte_at(t, 4) } else { 0 };
    let what = if uses_what(r) {
        byte_at(t, what_at(r))
    } else {
        0
    };
    let argument = if uses_argument(r) {
        value_at(t, argument_at(r))
    } else {
        Value::VOID
    };
    Step {
        code: byte_at(t, 3),
        who,
        what,
        argument,
        claim: value_at(t, claim_at(r, t)),
    }
}

// The field of a step, by the row of its code: a known code, the exact length, all of it there, good values.
#[tactic(auto, unfolding(laws::specs::Choice::all_of))]
fn step_by(r: Row, t: &[u8]) -> Field
    ensures { result ≡ short_step_by r t.now }
{
    let at = claim_at(r, t);
    let end = at + value_size(byte_at(t, at));
    let size = numbers::HEAD + wire::length_of(byte_at(t, 1), byte_at(t, 2));
    if 0 < r.who && end == size && end <= t.len() {
        let s = step_at(r, t);
        if recording::values_good(s) {
            return Field::Step(s, end);
        }
    }
    Field::Refused(0, numbers::BAD_FIELD)
}

// The field at the front of a text in the short form.
#[tactic(auto, unfolding(crate::specs::Short::short_field_of, crate::specs::Short::short_step_in))]
fn field_of(t: &[u8]) -> Field
    ensures { result ≡ short_field_of t.now }
{
    if t.len() < numbers::HEAD {
        return Field::Refused(0, numbers::BAD_FIELD);
    }
    match t[0] {
        TAG_SHORT => step_by(refusals::row_of(byte_at(t, 3)), t),
        numbers::TAG_END if wire::length_of(t[1], t[2]) == numbers::LENGTH_END => recording::end_in(
            t,
        ),
        _ => Field::Refused(0, numbers::BAD_FIELD),
    }
}

// The field at a place of a text in the short form.
pub fn read_short(s: &[u8], at: usize) -> Field
    ensures { result ≡ short_field_of (drop at s.now) }
{
    match s.get(at..) {
        Some(t) => field_of(t),
        None => Field::Refused(0, numbers::BAD_FIELD),
    }
}

// ---- the header

// A text begins as a header does.
#[tactic(auto, unfolding(crate::specs::Short::is_short))]
pub fn is_short(s: &[u8]) -> bool
    ensures { result ≡ is_short s.now }
{
    byte_at(s, 0) == numbers::TAG_EDITION
}

// Behind its first byte it goes on as a header does.
#[tactic(auto, unfolding(crate::specs::Short::is_headed, laws::specs::Choice::all_of))]
pub fn is_headed(s: &[u8]) -> bool
    ensures { result ≡ is_headed s.now }
{
    SIZE_EDITION <= s.len() && s[1] == 0 && s[2] == 1 && s[3] == SHORT_EDITION
}

// ---- a step written in the short form

// The bytes of a value, as many as `value_size` says of its kind; behind them stand others.
fn value_bytes(v: Value) -> [u8; 5]
    ensures { take (value_size v.kind) result ≡ short_value v }
{
    let [a, b, c, d] = v.number.to_be_bytes();
    [v.kind, a, b, c, d]
}

// Bytes written from a place on, if they are used.
fn put_used(buf: &mut [u8], at: usize, used: bool, bytes: &[u8]) -> usize
    requires { at + length (if_used used bytes.now) ≤ length buf.old }
    ensures value { result ≡ at + length (if_used used bytes.now) }
    ensures buf_after { buf.new ≡ put_at buf.old at (if_used used bytes.now) }
{
    if used {
        wire::write(buf, at, bytes);
        return at + bytes.len();
    }
    at
}

// How many bytes an entry has, if it is used.
fn used_size(used: bool, n: usize) -> usize
    ensures { result ≡ pick used n 0 }
{
    if used { n } else { 0 }
}

// How long the body of a step's field is.
fn body_length(r: Row, s: Step) -> usize
    ensures { result ≡ length (body_of r s) }
{
    let who = used_size(uses_who(r), 1);
    let what = used_size(uses_what(r), 1);
    let argument = used_size(uses_argument(r), value_size(s.argument.kind));
    1 + who + what + argument + value_size(s.claim.kind)
}

// How long a step's field is in the short form.
#[tactic(auto, unfolding(crate::specs::Short::short_bytes))]
pub fn short_size(s: Step) -> usize
    ensures { result ≡ length (short_bytes s) }
{
    numbers::HEAD + body_length(refusals::row_of(s.code), s)
}

// The body of a step's field put where it has room.
fn put_body(buf: &mut [u8], at: usize, r: Row, s: Step)
    requires { at + length (body_of r s) ≤ length buf.old }
    ensures { buf.new ≡ put_at buf.old at (body_of r s) }
{
    let argument = value_bytes(s.argument);
    let claim = value_bytes(s.claim);
    wire::write(buf, at, &[s.code]);
    let to = put_used(buf, at + 1, uses_who(r), &[s.who]);
    let to = put_used(buf, to, uses_what(r), &[s.what]);
    let to = put_used(
        buf,
        to,
        uses_argument(r),
        &argument[..value_size(s.argument.kind)],
    );
    wire::write(buf, to, &claim[..value_size(s.claim.kind)]);
}

// The field of a step put where it has room.
fn put_short(buf: &mut [u8], at: usize, s: Step, size: usize)
    requires size_value { size ≡ length (short_bytes s) }
    requires s_in_bounds { at + length (short_bytes s) ≤ length buf.old }
    ensures { buf.new ≡ put_at buf.old at (short_bytes s) }
{
    wire::write(buf, at, &[TAG_SHORT, 0, (size - numbers::HEAD) as u8]);
    put_body(buf, at + numbers::HEAD, refusals::row_of(s.code), s);
}

// The header of the short form written from a place on.
pub fn write_header(buf: &mut [u8], at: usize) -> Wrote
    ensures { Written buf.old at header_bytes result buf.new }
{
    wire::write(buf, at, &[numbers::TAG_EDITION, 0, 1, SHORT_EDITION])
}

// A step's field in the short form written from a place on: 18 for a bad value, 29 where it has no short form, then 27 where it does not fit.
pub fn write_short(buf: &mut [u8], at: usize, s: Step) -> Wrote
    ensures value { result ≡ short_to buf.old at s }
    ensures buf_after { buf.new ≡ short_written buf.old at s }
{
    if !recording::values_good(s) {
        return Wrote::Refused(numbers::BAD_FIELD);
    }
    if !has_short(s) {
        return Wrote::Refused(NO_SHORT);
    }
    let size = short_size(s);
    if buf.len() < size || buf.len() - size < at {
        return Wrote::Refused(numbers::NO_ROOM);
    }
    put_short(buf, at, s, size);
    Wrote::To(at + size)
}
