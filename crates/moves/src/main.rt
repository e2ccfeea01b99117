// Moves a recording from one form to the other: `moves short` to the short form, `moves long` to the old one. Reads the recording from standard input, prints how many bytes the moved text has or what is refused, and leaves that text in the file moved.rec.
#![tactic(auto)]

use judging::Line;
use moving::Moved;
use std::env::Env;
use std::io;
use std::rt::Files;

// Room for the old form of the longest text: a field of the short form has five bytes at least, so 27 never comes.
const ROOM: usize = judging::RECORDING_ROOM / 5 * numbers::SIZE_STEP + numbers::SIZE_END;

// Moves to the short form if the first argument starts with an s, else to the old one, and prints. The line is the last to go out: where it is missing, there is no answer.
fn tell<R: Env + Files + Print, E: Print>(rt: &R, stderr: &E, recording: &[u8], out: &mut [u8]) {
    let moved = if program_io::first_letter(rt) == b's' {
        moving::shorten(recording, out)
    } else {
        moving::lengthen(recording, out)
    };
    match moved {
        Moved::To(size) => {
            if let Some(text) = out.get(..size) {
                if program_io::keep(rt, stderr, "moved.rec", text) {
                    program_io::print_count(&mut io::writer(rt), b"moved", size);
                }
            }
        }
        Moved::Refused(place, k) => {
            program_io::print(&mut io::writer(rt), Line::Refused(place, k));
        }
    }
}

fn main(rt: HostRuntime) {
    let mut recording = [0u8; judging::RECORDING_ROOM];
    let mut out = [0u8; ROOM];
    let stderr = rt.stderr();
    if let Ok(recording) = program_io::read_within(&rt, &stderr, &mut recording) {
        tell(&rt, &stderr, recording, &mut out);
    }
}
