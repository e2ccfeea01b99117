// The board's lines and its history as bytes, and printed.
#![tactic(auto)]

ghost use Rattle.std.specs.Prelude.{◌≡◌, ◌+◌, ◌≤◌, length, take};
ghost use Rattle.wire.specs.Bytes.{wrote_bytes, Written};
ghost use Rattle.board_lines.specs.Printed.{shown_line, told_line, history_lines};
ghost use Rattle.std.specs.Bool.{OnTrue};
ghost use Rattle.std.specs.Io.KnownBytes.{Appends};

use posting::{Board, Shown, Told};
use std::io::Write;
use wire::Wrote;

// A line of the board, written from a place on; it has no more than 17 bytes. Where it does not fit: 27, and the buffer stays as it is.
pub fn put_shown(buf: &mut [u8], at: usize, x: Shown) -> Wrote
    ensures written { Written buf.old at (shown_line x) result buf.new }
    ensures x_len_bound { length (shown_line x) ≤ 17 }
{
    match x {
        Shown::Final(n) => lines::put_line(buf, at, b"FINAL", [n as u64, 0, 0, 0, 0], 1),
        Shown::Wait => lines::put_line(buf, at, b"WAIT", [0; 5], 0),
        Shown::NoPlan => lines::put_line(buf, at, b"NO PLAN", [0; 5], 0),
        Shown::None => lines::put_line(buf, at, b"NONE", [0; 5], 0),
        Shown::Unjudged => lines::put_line(buf, at, b"UNJUDGED", [0; 5], 0),
    }
}

// What a showing told, written from a place on.
pub fn put_told(buf: &mut [u8], at: usize, told: Told) -> Wrote
    ensures { Written buf.old at (told_line told) result buf.new }
{
    match told {
        Told::Line(x) => put_shown(buf, at, x),
        Told::Refused(k) => lines::put_line(buf, at, b"refused", [k as u64, 0, 0, 0, 0], 1),
        Told::Configuration(place, k) => {
            lines::put_line(
                buf,
                at,
                b"configuration",
                [place as u64, k as u64, 0, 0, 0],
                2,
            )
        }
        Told::TooLong => lines::put_line(buf, at, b"input too long", [0; 5], 0),
    }
}

// A line put into a buffer that has room for it; where the text goes on.
fn put_row(buf: &mut [u8], at: usize, x: Shown) -> usize
    requires { at + 17 ≤ length buf.old }
    ensures buf_after { buf.new ≡ wrote_bytes buf.old at (shown_line x) }
    ensures value { result ≡ at + length (shown_line x) }
    ensures upper_bound { result ≤ at + 17 }
{
    match put_shown(buf, at, x) {
        Wrote::To(next) => next,
        Wrote::Refused(_) => at,
    }
}

// The history, put at the start of a buffer that has room for it; how many bytes these are.
fn put_rows(buf: &mut [u8], board: Board) -> usize
    requires { 144 ≤ length buf.old }
    ensures upper_bound { result ≤ 144 }
    ensures buf_after { take result buf.new ≡ history_lines board }
{
    wire::write(buf, 0, b"history\n");
    let mut at = 8;
    for i in 0..board.rows() {
        at = put_row(buf, at, board.row(i));
    }
    at
}

// The most bytes of a history: the word, and eight lines.
const HISTORY: usize = 8 + Board::ROWS * 17;

// The history, written from a place on: the word, then the lines of the board, the newest first. Where it does not fit: 27, and the buffer stays as it is.
pub fn put_history(buf: &mut [u8], at: usize, board: Board) -> Wrote
    ensures { Written buf.old at (history_lines board) result buf.new }
{
    let mut text = [0u8; HISTORY];
    let size = put_rows(&mut text, board);
    wire::write(buf, at, &text[..size])
}

// Prints what a showing told, in one write; whether all of it went out.
pub fn print_told<W: Write>(out: &mut W, told: Told) -> bool
    ensures { OnTrue result (Appends (W.contents out.old) (W.contents out.new) (told_line told)) }
{
    let mut text = [0u8; 64];
    let Wrote::To(n) = put_told(&mut text, 0, told) else {
        return false;
    };
    out.write_all(&text[..n]).is_ok()
}

// Prints the history of a board, in one write; whether all of it went out.
pub fn print_history<W: Write>(out: &mut W, board: Board) -> bool
    ensures { OnTrue result (Appends (W.contents out.old) (W.contents out.new) (history_lines board)) }
{
    let mut text = [0u8; HISTORY];
    let Wrote::To(n) = put_history(&mut text, 0, board) else {
        return false;
    };
    out.write_all(&text[..n]).is_ok()
}
