// A field that can't be read: of a recording (18) or of a configuration (21 to 26). Where it stands, its bytes, and what was expected.
use crate::putting::{Text, byte_at, say};
use values::Value;

// ---- a recording

fn put_bad(line: &mut Text<256>, v: Value) {
    if is_bad(v.kind, 1) && is_bad(v.kind, 0) {
        return line.put("; the kinds of values are 0 to 9.\n");
    }
    line.put_with(" and has the number ", v.number as u64);
    line.put(if v.says_full() {
        "; the mask of a Full is 1 to 65535.\n"
    } else {
        "; only a Number, kind 1, and a Full, kind 8, have one.\n"
    });
}

fn is_bad(kind: u8, number: u32) -> bool {
    !Value { kind, number }.is_good()
}

fn say_value<R: Print>(rt: &R, v: Value, whose: &str) {
    if !v.is_good() {
        let mut line = Text::<256>::new();
        line.put(whose);
        line.put_number(v.kind as u64);
        put_bad(&mut line, v);
        line.show(rt);
    }
}

// A step field: where it has all its bytes, one of its values is bad.
fn say_step<R: Print>(rt: &R, field: &[u8]) {
    if field.len() < numbers::SIZE_STEP {
        return say(
            rt,
            "The file ends in the middle of this step, which has 16 bytes: it was cut off.\n",
        );
    }
    say_value(rt, value_at(field, 6), "Its argument is of kind ");
    say_value(rt, value_at(field, 11), "Its claimed answer is of kind ");
}

// The value at a place of a field that is all there.
fn value_at(field: &[u8], at: usize) -> Value {
    match field.get(at..) {
        Some([kind, a, b, c, d, ..]) => Value {
            kind: *kind,
            number: wire::number(*a, *b, *c, *d),
        },
        _ => Value::VOID,
    }
}

fn number_at(field: &[u8], at: usize) -> u32 {
    match field.get(at..) {
        Some([a, b, c, d, ..]) => wire::number(*a, *b, *c, *d),
        _ => 0,
    }
}

fn say_length<R: Print>(rt: &R, tag: u8, said: usize, want: usize) {
    let mut line = Text::<256>::new();
    line.put_with("Its length says ", said as u64);
    line.put_with("; a field with tag ", tag as u64);
    line.put_with(" has ", want as u64);
    line.put(" bytes behind its head of three.\n");
    line.show(rt);
}

// What is wrong with the field at the front of the rest of a recording.
fn say_field<R: Print>(rt: &R, rest: &[u8]) {
    let [tag, high, low, ..] = *rest else {
        return say_cut(rt, rest);
    };
    let size = wire::length_of(high, low);
    match (tag, size) {
        (numbers::TAG_STEP, numbers::LENGTH_STEP) => say_step(rt, rest),
        (numbers::TAG_STEP, _) => say_length(rt, tag, size, numbers::LENGTH_STEP),
        (numbers::TAG_END, numbers::LENGTH_END) => say(
            rt,
            "The end field stands here, and more bytes follow it: two recordings in one file, or one sent twice?\n",
        ),
        (numbers::TAG_END, _) => say_length(rt, tag, size, numbers::LENGTH_END),
        _ => say(
            rt,
            "It begins with neither 40 (a step) nor 7f (the end): is this a recording at all, or were the two files swapped?\n",
        ),
    }
}

// The rest of a recording has no head of a field.
fn say_cut<R: Print>(rt: &R, rest: &[u8]) {
    say(
        rt,
        if rest.is_empty() {
            "The file ends here, without the end field (7f 00 00): it was cut off, or its end was never written.\n"
        } else {
            "The file ends in the middle of a field's head: it was cut off.\n"
        },
    );
}

// The damaged field of a recording behind so many accepted steps.
pub(crate) fn show_recording<R: Print>(rt: &R, recording: &[u8], steps: usize, place: usize) {
    let from = steps.saturating_mul(numbers::SIZE_STEP);
    let Some(rest) = recording.get(from..) else {
        return;
    };
    let mut line = Text::<512>::new();
    line.put_with("\nIn the file: field ", place as u64);
    line.put_with(", byte ", from as u64);
    line.put_with(" of ", recording.len() as u64);
    line.put(" (counted from 0):");
    line.put_bytes(rest);
    line.put("\n");
    line.show(rt);
    say_field(rt, rest);
    say(
        rt,
        "Expected: 40 00 0d and 13 bytes (code, who, what, argument, claim), or the end 7f 00 00 and nothing behind it.\n",
    );
}

// ---- a configuration

// What is said of a configuration.
type Said = Text<2048>;

// The field at the front of the rest of a configuration, as its length says, and what follows; where the file ends before that, all of it.
fn split_field(rest: &[u8]) -> (&[u8], &[u8]) {
    if let [_, high, low, body @ ..] = rest {
        let size = wire::length_of(*high, *low);
        if size <= body.len() {
            return rest.split_at(numbers::HEAD + size);
        }
    }
    (rest, &[])
}

// A configuration from the field at a place on: frames are followed as their lengths say.
fn rest_from(config: &[u8], place: usize) -> &[u8] {
    let mut rest = config;
    for _ in 1..place.min(4097) {
        rest = split_field(rest).1;
    }
    rest
}

// What each kind of field holds.
fn form_of(tag: u8) -> &'static str {
    match tag {
        numbers::TAG_EDITION => "01 edition: 1 byte, 1 or 2",
        numbers::TAG_RUNNABLE => {
            "10 runnable: 7 bytes: component (0 to 15), flags (0 to 7: 1 concurrent, 2 init, 4 counting), start interval (4 bytes, up to 3,600,000 ms), request capacity (0 to 16)"
        }
        numbers::TAG_VARIABLE => {
            "11 variable: 6 bytes: component (0 to 15), mark (0 or 1), initial (4 bytes)"
        }
        numbers::TAG_AREA => "12 area: 1 byte: component (0 to 15)",
        numbers::TAG_REQUIRED => {
            "13 required element: 2 bytes: component (0 to 15), capacity (0 to 16)"
        }
        numbers::TAG_PROVIDED => {
            "14 provided element: 2 bytes: component (0 to 15), kind (0 unqueued, 1 queued)"
        }
        numbers::TAG_LINK => "15 link: 2 bytes: provided, required",
        numbers::TAG_OPERATION => {
            "16 operation: 7 bytes: component (0 to 15), kind (0 synchronous, 1 asynchronous), server runnable, timeout (4 bytes, 1 to 3,600,000 ms)"
        }
        numbers::TAG_TIMER => "17 timer: 5 bytes: runnable, period (4 bytes, 1 to 3,600,000 ms)",
        numbers::TAG_DATA_EVENT => "18 data event: 2 bytes: runnable, required element",
        numbers::TAG_RETURN_EVENT => "19 return event: 2 bytes: runnable, operation",
        numbers::TAG_INCOMING => {
            "1a incoming: 2 bytes: runnable, required element that it copies at its start; in edition 2 alone"
        }
        numbers::TAG_OUTGOING => {
            "1b outgoing: 2 bytes: runnable, provided element that it writes at its end; in edition 2 alone"
        }
        numbers::TAG_END => "7f end: no bytes, and nothing behind it",
        _ => "a tag of 01, 10 to 1b, or 7f",
    }
}

// What each number says of a field.
fn fault_of(k: u8) -> &'static str {
    match k {
        numbers::BAD_FRAME => {
            "the field is cut off, has an unknown tag, a tag of another edition or a wrong length, bytes follow the end, or the end is missing"
        }
        numbers::BAD_ORDER => {
            "fields stand in the order of their tags, and the edition (01) stands first and once"
        }
        numbers::TOO_MANY => {
            "there are too many parts of this kind, or a runnable lists more than four elements"
        }
        numbers::OUT_OF_RANGE => "a number in it is out of its range",
        numbers::NAMES_NOTHING => {
            "it names a part that is not there: parts of each kind count from 0, and stand before those that name them"
        }
        numbers::BAD_PAIR => {
            "parts that do not go together: a server with the init flag, with counting, a timer or an event; an initial that is not marked; a link of unlike kinds; an operation on a runnable that is no server; pairs of links, events or lists that do not rise; a server that lists elements; a listed element that is queued or of another component"
        }
        _ => "it can't be read",
    }
}

// How many bytes the body of a field has, by its tag.
fn size_of(tag: u8) -> Option<usize> {
    match tag {
        numbers::TAG_EDITION => Some(numbers::LENGTH_EDITION),
        numbers::TAG_RUNNABLE => Some(numbers::LENGTH_RUNNABLE),
        numbers::TAG_VARIABLE => Some(numbers::LENGTH_VARIABLE),
        numbers::TAG_AREA => Some(numbers::LENGTH_AREA),
        numbers::TAG_REQUIRED => Some(numbers::LENGTH_REQUIRED),
        numbers::TAG_PROVIDED => Some(numbers::LENGTH_PROVIDED),
        numbers::TAG_LINK => Some(numbers::LENGTH_LINK),
        numbers::TAG_OPERATION => Some(numbers::LENGTH_OPERATION),
        numbers::TAG_TIMER => Some(numbers::LENGTH_TIMER),
        numbers::TAG_DATA_EVENT => Some(numbers::LENGTH_DATA_EVENT),
        numbers::TAG_RETURN_EVENT => Some(numbers::LENGTH_RETURN_EVENT),
        numbers::TAG_INCOMING | numbers::TAG_OUTGOING => Some(numbers::LENGTH_LISTED),
        numbers::TAG_END => Some(numbers::LENGTH_END),
        _ => None,
    }
}

// A field that edition 2 alone has, in a file that does not start with that edition.
fn is_early(config: &[u8], rest: &[u8], tag: u8) -> bool {
    matches!(tag, numbers::TAG_INCOMING | numbers::TAG_OUTGOING)
        && (rest.len() == config.len() || byte_at(config, 3) != 2)
}

// 21: which of its cases it is.
fn put_frame(said: &mut Said, config: &[u8], rest: &[u8]) {
    let [tag, high, low, ref body @ ..] = *rest else {
        return said.put(if rest.is_empty() {
            " Here the file ends, and the end field (7f 00 00) is missing."
        } else {
            " Here the file ends in the middle of a field's head."
        });
    };
    let Some(want) = size_of(tag) else {
        return said.put_with(" Here the tag is unknown: ", tag as u64);
    };
    let size = wire::length_of(high, low);
    if size != want {
        said.put_with(" Here the length says ", size as u64);
        return said.put_with(", and this field has ", want as u64);
    }
    said.put(if body.len() < want {
        " Here the file ends in the middle of the field."
    } else if is_early(config, rest, tag) {
        " Here no edition 2 stands in front, which alone has this field."
    } else {
        " Here bytes follow the end field."
    });
}

// A number that is above its top.
fn put_high(said: &mut Said, name: &str, n: u32, top: u32) {
    if top < n {
        said.put(" Its ");
        said.put(name);
        said.put_with(" is ", n as u64);
        said.put_with(", and the highest is ", top as u64);
        said.put(".");
    }
}

// A time that is 0, where it may not be, or above an hour.
fn put_time(said: &mut Said, name: &str, n: u32) {
    if n == 0 {
        said.put(" Its ");
        said.put(name);
        said.put(" is 0.");
    } else {
        put_high(said, name, n, 3600000);
    }
}

// An edition that there is not.
fn put_edition(said: &mut Said, e: u8) {
    said.put_with(" It is ", e as u64);
    said.put(", and there are 1 and 2.");
}

// 24: the numbers that are out of range.
fn put_range(said: &mut Said, field: &[u8]) {
    let first = byte_at(field, 3);
    let second = byte_at(field, 4) as u32;
    let tag = byte_at(field, 0);
    match tag {
        numbers::TAG_EDITION => return put_edition(said, first),
        numbers::TAG_TIMER => return put_time(said, "period", number_at(field, 4)),
        _ => put_high(said, "component", first as u32, 15),
    }
    match tag {
        numbers::TAG_RUNNABLE => {
            put_high(said, "flags", second, 7);
            put_high(said, "start interval", number_at(field, 5), 3600000);
            put_high(said, "request capacity", byte_at(field, 9) as u32, 16);
        }
        numbers::TAG_VARIABLE => put_high(said, "mark", second, 1),
        numbers::TAG_REQUIRED => put_high(said, "capacity", second, 16),
        numbers::TAG_PROVIDED => put_high(said, "kind", second, 1),
        numbers::TAG_OPERATION => {
            put_high(said, "kind", second, 1);
            put_time(said, "timeout", number_at(field, 6));
        }
        _ => {}
    }
}

// A field's kind and its bytes.
fn put_field(said: &mut Said, field: &[u8]) {
    if field.is_empty() {
        return said.put(": the file ends here");
    }
    said.put(", ");
    said.put_kind(byte_at(field, 0));
    said.put(":");
    said.put_bytes(field);
}

// The refused field of a configuration.
pub(crate) fn show_config<R: Print>(rt: &R, config: &[u8], place: usize, k: u8) {
    let rest = rest_from(config, place);
    let (field, _) = split_field(rest);
    let mut said = Said::new();
    said.put_with("CONFIGURATION refused at field ", place as u64);
    said.put_with(", by rule ", k as u64);
    said.put(". Nothing was judged.\nWhy: ");
    said.put(fault_of(k));
    said.put(".");
    match k {
        numbers::BAD_FRAME => put_frame(&mut said, config, rest),
        numbers::OUT_OF_RANGE => put_range(&mut said, rest),
        _ => {}
    }
    let from = config.len().saturating_sub(rest.len());
    said.put_with("\nIn the file: byte ", from as u64);
    said.put_with(" of ", config.len() as u64);
    said.put(" (counted from 0)");
    put_field(&mut said, field);
    said.put("\nExpected: ");
    said.put(form_of(byte_at(rest, 0)));
    said.put(".\n");
    said.show(rt);
}
