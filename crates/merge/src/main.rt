// Merges neighbouring waits: reads a recording from standard input, prints how many steps are left or what is refused, and leaves the merged recording in the file merged.rec.
#![tactic(auto)]

use judging::Line;
use merging::Merged;
use std::io;
use std::rt::Files;

// Merges and prints. The line is the last to go out: where it is missing, there is no answer.
fn tell<R: Files + Print, E: Print>(rt: &R, stderr: &E, recording: &[u8]) {
    let mut out = [0u8; judging::RECORDING_ROOM];
    match merging::merge(recording, &mut out) {
        Merged::Whole(steps) => {
            let size = mender::size_of(steps, &out);
            if program_io::keep(rt, stderr, "merged.rec", &out[..size]) {
                program_io::print_count(&mut io::writer(rt), b"merged", steps);
            }
        }
        Merged::Refused(place, k) => {
            program_io::print(&mut io::writer(rt), Line::Refused(place, k));
        }
    }
}

fn main(rt: HostRuntime) {
    let mut recording = [0u8; judging::RECORDING_ROOM];
    let stderr = rt.stderr();
    if let Ok(recording) = program_io::read_within(&rt, &stderr, &mut recording) {
        tell(&rt, &stderr, recording);
    }
}
