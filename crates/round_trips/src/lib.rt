// Both round trips of configurations: bytes read and written again, and a configuration written and read back.
#![tactic(auto)]

ghost use Rattle.std.specs.Prelude.{◌≡◌};
ghost use Rattle.reading.specs.Reading.{config_of};
ghost use Rattle.writing.specs.Writing.{config_to, config_written};
ghost use Rattle.round_trips.specs.Trip.{rewrite_to, rewrite_written, write_and_read_of};

use config::Config;
use reading::{Outcome, Reading};
use wire::Wrote;

// A text read, and what was read written into a lent buffer: a refused text keeps its number, then 27 where the text does not fit.
pub fn rewrite_config(s: &[u8], buf: &mut [u8]) -> Wrote
    ensures value { result ≡ rewrite_to (config_of s.now).outcome s.now buf.old }
    ensures buf_after { buf.new ≡ rewrite_written (config_of s.now).outcome s.now buf.old }
{
    let read = reading::read_config(s);
    match read.outcome {
        Outcome::Whole => writing::write_config(buf, read.config),
        Outcome::Refused(_, number) => Wrote::Refused(number),
    }
}

// A configuration written into a lent buffer and read back from there; a refused one has no place.
pub fn write_and_read(buf: &mut [u8], cfg: Config) -> Reading
    ensures value { result ≡ write_and_read_of (config_to buf.old cfg) cfg }
    ensures buf_after { buf.new ≡ config_written buf.old cfg }
{
    match writing::write_config(buf, cfg) {
        Wrote::To(size) => reading::read_config(&buf[..size]),
        Wrote::Refused(number) => Reading {
            outcome: Outcome::Refused(0, number),
            config: Config::none(),
        },
    }
}
