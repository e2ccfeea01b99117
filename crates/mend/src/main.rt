// The mender: reads rte.cfg, and from standard input a recording; prints the report and a last line, and leaves a mended text in the file mended.rec.
#![tactic(auto)]

use mender::Told;
use std::io;
use std::rt::Files;

// Mends and prints. The last line is the last to go out: where it is missing, there is no answer.
fn tell<R: Files + Print, E: Print>(rt: &R, stderr: &E, config: &[u8], recording: &[u8]) {
    let mut out = [0u8; mender::ROOM];
    let mut report = [0u8; mender::ROOM];
    let told = mender::mend_files(config, recording, &mut out, &mut report);
    if let Told::Mended(steps, notes) = told {
        let size = mender::size_of(steps, &out);
        if !program_io::keep(rt, stderr, "mended.rec", &out[..size]) {
            return;
        }
        if !mender::print_notes(&mut io::writer(rt), &report, notes) {
            return;
        }
    }
    mender::print_told(&mut io::writer(rt), told);
}

fn main(rt: HostRuntime) {
    let mut config = [0u8; judging::CONFIG_ROOM];
    let mut recording = [0u8; judging::RECORDING_ROOM];
    let stderr = rt.stderr();
    if let Ok((config, recording)) = program_io::read_both(
        &rt,
        &stderr,
        &mut config,
        &mut recording,
    ) {
        tell(&rt, &stderr, config, recording);
    }
}
