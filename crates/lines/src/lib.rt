// Lines of text put into a lent buffer: a word, then numbers in decimal behind a space each, then a line feed.
#![tactic(auto)]

ghost use Rattle.std.specs.Prelude.{◌≡◌, ◌+◌, ◌≤◌, length, take};
ghost use Rattle.wire.specs.Bytes.{put_at, Written};
ghost use Rattle.lines.specs.Lines.{decimal_of, number_bytes, tail_of, line_bytes};

use wire::Wrote;

// The most numbers of a line, and the most bytes behind its word: a space and twenty digits for each, and the line feed.
pub const NUMBERS: usize = 5;

const TAIL: usize = NUMBERS * 21 + 1;

// A number in decimal, written from a place on. Where it does not fit: 27, and the buffer stays as it is.
pub fn put_decimal(buf: &mut [u8], at: usize, n: u64) -> Wrote
    ensures written { Written buf.old at (decimal_of n) result buf.new }
    ensures n_len_bound { length (decimal_of n) ≤ 20 }
{
    let mut text = [0u8; 20];
    let size = io::decimal(n, &mut text);
    wire::write(buf, at, &text[..size])
}

// A space and a number behind it, put into a buffer that has room for them; where the text goes on.
fn put_number(buf: &mut [u8], at: usize, n: u64) -> usize
    requires { at + 21 ≤ length buf.old }
    ensures buf_after { buf.new ≡ put_at buf.old at (number_bytes n) }
    ensures value { result ≡ at + length (number_bytes n) }
    ensures upper_bound { result ≤ at + 21 }
{
    wire::write(buf, at, b" ");
    match put_decimal(buf, at + 1, n) {
        Wrote::To(next) => next,
        Wrote::Refused(_) => at,
    }
}

// What stands behind the word, put at the start of a buffer that has room for it; how many bytes these are.
fn put_tail(buf: &mut [u8], numbers: &[u64]) -> usize
    requires in_bounds { 106 ≤ length buf.old }
    requires count_bound { length numbers.now ≤ 5 }
    ensures upper_bound { result ≤ 106 }
    ensures buf_after { take result buf.new ≡ tail_of numbers.now }
{
    let mut at = 0;
    for n in numbers {
        at = put_number(buf, at, *n);
    }
    wire::write(buf, at, b"\n");
    at + 1
}

// A line: a word and the first of the numbers, as many as count says. Where it does not fit: 27, and the buffer stays as it is.
// Kept: numbers as an array and how many of it count, since put_line is public and its signature may not change.
pub fn put_line(
    buf: &mut [u8],
    at: usize,
    word: &[u8],
    numbers: [u64; NUMBERS],
    count: usize,
) -> Wrote
    ensures { Written buf.old at (line_bytes word.now (take count numbers)) result buf.new }
{
    let mut tail = [0u8; TAIL];
    let size = put_tail(&mut tail, &numbers[..count.min(NUMBERS)]);
    let room = buf.len();
    let long = word.len();
    if room < long || room - long < size || room - long - size < at {
        return Wrote::Refused(numbers::NO_ROOM);
    }
    wire::write(buf, at, word);
    wire::write(buf, at + long, &tail[..size])
}
