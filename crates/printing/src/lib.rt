// The judge's line as bytes, put into a lent buffer, so that it goes out in one write.
#![tactic(auto)]

ghost use Rattle.std.specs.Prelude.{◌≤◌};
ghost use Rattle.wire.specs.Bytes.{Written};
ghost use Rattle.lines.specs.Lines.{line_bytes};
ghost use Rattle.printing.specs.Printed.{printed_of};

use judging::Line;
use wire::Wrote;

// The line written from a place on. Where it does not fit: 27, and the buffer stays as it is.
pub fn put_printed(buf: &mut [u8], at: usize, line: Line) -> Wrote
    ensures { Written buf.old at (printed_of line) result buf.new }
{
    match line {
        Line::Accepted(n) => put_numbers(buf, at, b"accepted", [n as u64]),
        Line::Refused(place, k) => put_numbers(buf, at, b"refused", [place as u64, k as u64]),
        Line::Unfinished(n) => put_numbers(buf, at, b"unfinished", [n as u64]),
        Line::Configuration(place, k) => {
            put_numbers(buf, at, b"configuration", [place as u64, k as u64])
        }
        Line::TooLong => put_numbers(buf, at, b"input too long", []),
    }
}

// A line of a word and N numbers.
fn put_numbers<const N: usize>(buf: &mut [u8], at: usize, word: &[u8], numbers: [u64; N]) -> Wrote
    requires { N ≤ 5 }
    ensures { Written buf.old at (line_bytes word.now numbers.entry) result buf.new }
{
    let mut all = [0; lines::NUMBERS];
    all[..N].copy_from_slice(&numbers);
    lines::put_line(buf, at, word, all, N)
}
