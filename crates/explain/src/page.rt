// The same as a page of its own: no network, no script. Time goes down; a lane for each slot, and a bar for each call from its start to its end.
use crate::case::Case;
use crate::names::Names;
use crate::putting::{Text, say};
use crate::table::{Lane, Refused, Row, Widths};
use crate::words::is_slots;
use config::OperationConfs;
use state::Slots;

// The page up to its table.
pub(crate) fn show_top<R: Print>(rt: &R) {
    say(
        rt,
        "<!DOCTYPE html>\n<html lang=\"en\"><head><meta charset=\"utf-8\"><meta name=\"viewport\" content=\"width=device-width, initial-scale=1\"><title>What was recorded</title>\n",
    );
    say(
        rt,
        "<style>body{font:15px/1.45 system-ui,sans-serif;margin:1em;color:#111;background:#fff}pre{white-space:pre-wrap;font:13px/1.5 ui-monospace,monospace}",
    );
    say(
        rt,
        "div{overflow-x:auto}section{content-visibility:auto;contain-intrinsic-size:auto 1900px}table{border-collapse:collapse;font:12px/1.35 ui-monospace,monospace}td,th{padding:1px 8px;text-align:left;vertical-align:top;white-space:nowrap}",
    );
    say(
        rt,
        "th{border-bottom:2px solid #555;background:#fff}td.n{text-align:right;color:#555}td.l{background:#eef4fb;border-left:3px solid #4a7ebb}td.f{background:#f3e3ee;border-left:3px dashed #8a2f6b}td.o{background:#fdf0d5;border-left:6px solid #d98e04}",
    );
    say(
        rt,
        "td.d{color:#666;border-left:1px solid #ccc}tr.x td{background:#fbdcdc;border-top:2px solid #b00;border-bottom:2px solid #b00;font-weight:bold}tr.g td{color:#666}",
    );
    say(
        rt,
        "@media print{div{overflow:visible}section{content-visibility:visible}table{font-size:8px}td,th{padding:1px 3px;white-space:normal}tr{break-inside:avoid}}",
    );
    say(
        rt,
        "@media(max-width:600px){body{margin:.5em}table{font-size:11px}}</style></head><body>\n",
    );
}

pub(crate) fn show_end<R: Print>(rt: &R) {
    say(rt, "</body></html>\n");
}

// Text of the sections stands as it is.
pub(crate) fn open_text<R: Print>(rt: &R) {
    say(rt, "<pre>");
}

pub(crate) fn close_text<R: Print>(rt: &R) {
    say(rt, "</pre>\n");
}

// The heads of a part of the table.
type Heads = Text<8192>;

// A row as it is shown.
type Shown = Text<16384>;

// The head of a column that is at least so many letters wide, in every part of the table alike.
fn put_wide(heads: &mut Heads, width: usize) {
    heads.put_with("<th style=min-width:", width as u64);
    heads.put("ch>");
}

fn put_lane_head(heads: &mut Heads, i: u8, width: usize) {
    if width != 0 {
        put_wide(heads, width);
        heads.put_slot(i);
        heads.put("</th>");
    }
}

fn put_operation_head(heads: &mut Heads, names: &Names, o: u8, width: usize) {
    if width != 0 {
        put_wide(heads, width);
        heads.put_part(names, numbers::TAG_OPERATION, o);
        heads.put("</th>");
    }
}

fn put_lane_heads(heads: &mut Heads, widths: &Widths) {
    for i in 0..Slots::MAX as u8 {
        put_lane_head(heads, i, widths.lane(i));
    }
}

pub(crate) fn show_head<R: Print>(rt: &R, names: &Names, widths: &Widths) {
    say(rt, "<div>");
    show_part(rt, names, widths);
}

// A part of the table, under its heads. A browser lays out the parts that are in view, so that many steps are there as soon as few.
fn show_part<R: Print>(rt: &R, names: &Names, widths: &Widths) {
    let mut heads = Heads::new();
    heads.put(
        "<section><table><thead><tr><th style=min-width:5ch>step</th><th style=min-width:8ch>ms</th>",
    );
    put_wide(&mut heads, widths.scheduler);
    heads.put("scheduler</th>");
    put_lane_heads(&mut heads, widths);
    for o in 0..OperationConfs::MAX as u8 {
        put_operation_head(&mut heads, names, o, widths.operation(o));
    }
    heads.put("</tr></thead><tbody>\n");
    heads.show(rt);
}

pub(crate) fn show_foot<R: Print>(rt: &R) {
    say(rt, "</tbody></table></section></div>\n");
}

// Every hundred steps a new part.
fn show_break<R: Print>(rt: &R, names: &Names, widths: &Widths, place: usize) {
    if place % 100 == 1 && 1 < place {
        say(rt, "</tbody></table></section>\n");
        show_part(rt, names, widths);
    }
}

// A lane's cell: a step, a start, or only that an instance lives there, is held or has failed.
fn put_lane(line: &mut Shown, case: Case, row: Row, i: u8) {
    match row.lane(i) {
        Lane::Acts => {
            line.put("<td class=l>");
            line.put_done(case.names, row.step);
        }
        Lane::Starts => {
            line.put("<td class=l>");
            line.put_start(case.recording, row.after, i);
        }
        Lane::Failed => line.put("<td class=f>(failed)"),
        Lane::Held => line.put("<td class=l>(held)"),
        Lane::Lives => line.put("<td class=l>"),
        Lane::Empty => line.put("<td>"),
    }
}

fn put_lanes(line: &mut Shown, case: Case, widths: &Widths, row: Row) {
    for i in 0..Slots::MAX as u8 {
        if widths.lane(i) != 0 {
            put_lane(line, case, row, i);
        }
    }
}

// An operation's cell: a bar while its call is open, and where the call starts the moment of its timeout.
fn put_state(line: &mut Shown, row: Row, o: u8) {
    let x = row.step;
    let operation = row.after.operations.get(o);
    if !operation.calling {
        line.put("<td class=d>");
        return line.put_operation(row.after, o);
    }
    line.put("<td class=o>");
    line.put_operation(row.after, o);
    if x.code == numbers::CODE_CALL && x.what == o {
        line.put_with(
            ", timeout at ",
            row.ms.saturating_add(operation.count as u64),
        );
        line.put(" ms");
    }
}

fn put_front(line: &mut Shown, row: Row) {
    line.put_with("<td class=n>", row.place as u64);
    line.put_with("<td class=n>", row.ms);
    line.put("<td>");
}

pub(crate) fn show_row<R: Print>(rt: &R, case: Case, widths: &Widths, row: Row) {
    show_break(rt, case.names, widths, row.place);
    let mut line = Shown::new();
    line.put("<tr>");
    put_front(&mut line, row);
    line.put_scheduled(case.names, row.step);
    put_lanes(&mut line, case, widths, row);
    for o in 0..OperationConfs::MAX as u8 {
        if widths.operation(o) != 0 {
            put_state(&mut line, row, o);
        }
    }
    line.put("\n");
    line.show(rt);
}

pub(crate) fn show_refused<R: Print>(rt: &R, names: &Names, refused: Refused, ms: u64) {
    let x = refused.step;
    let mut line = Text::<2048>::new();
    line.put("<tr class=x id=x>");
    line.put_with("<td class=n>X ", refused.place as u64);
    line.put_with("<td class=n>", ms);
    line.put("<td colspan=42>");
    if is_slots(x.code) {
        line.put_slot(x.who);
        line.put(": ");
    }
    line.put_refused(names, refused);
    line.put("\n");
    line.show(rt);
}
