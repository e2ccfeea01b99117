// The benchmark of mending: takes rte.cfg and the recording from where the mender takes them, mends it as often as it is given words, its own name among them, and prints the last line.
#![tactic(auto)]

use mender::Told;
use std::io;

// The answer for two texts.
fn once(config: &[u8], recording: &[u8]) -> Told {
    let mut out = [0u8; mender::ROOM];
    let mut report = [0u8; mender::ROOM];
    mender::mend_files(config, recording, &mut out, &mut report)
}

fn main(rt: HostRuntime) {
    let mut config = [0u8; judging::CONFIG_ROOM];
    let mut recording = [0u8; judging::RECORDING_ROOM];
    let both = program_io::read_both(&rt, &rt.stderr(), &mut config, &mut recording);
    if let Ok((config, recording)) = both {
        for _ in 1..program_io::arg_count(&rt) {
            once(config, recording);
        }
        mender::print_told(&mut io::writer(&rt), once(config, recording));
    }
}
