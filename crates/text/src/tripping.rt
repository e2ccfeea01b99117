// Many files turned into text and back, as they are and with damage, to see that each comes back as it was.
ghost use Rattle.std.specs.Prelude.{◌<◌, ◌≤◌, length, IfSome};

use crate::expecting::report;
use crate::making::{Unmade, make};
use crate::names::Known;
use crate::room::Room;
use crate::showing::show;

// How many came back as they were, and how many did not.
#[derive(Clone, Copy)]
pub(crate) struct Tally {
    pub same: u32,
    pub other: u32,
}

impl Tally {
    fn with(self, same: bool) -> Tally {
        if same {
            return Tally {
                same: self.same.wrapping_add(1),
                ..self
            };
        }
        Tally {
            other: self.other.wrapping_add(1),
            ..self
        }
    }
}

// The next of a row of numbers that look as if drawn by lot.
fn next_seed(seed: u64) -> u64
    ensures { result < 2147483648 }
{
    (seed % 2147483648 * 1103515245 + 12345) % 2147483648
}

// A number below n, by lot; 0 where there is none.
fn below(seed: u64, n: usize) -> usize
    ensures { result ≤ n }
{
    if n == 0 {
        return 0;
    }
    (seed / 256) as usize % n
}

// The text gives these bytes.
fn gives<const N: usize>(forms: &[u8], text: &[u8], bytes: &[u8], back: &mut Room<N>) -> bool {
    make(forms, text, &mut Known::new(), back).is_ok() && back.as_bytes() == bytes
}

// A text with one byte changed: it gives bytes, or a mistake that can be said.
fn shake<const M: usize, const N: usize>(
    forms: &[u8],
    text: &mut Room<M>,
    back: &mut Room<N>,
    seed: u64,
) {
    let mut known = Known::new();
    let place = below(seed, text.as_bytes().len());
    text.change(place, (seed / 65536 % 256) as u8);
    if let Err(Unmade::Wrong(mistake)) = make(forms, text.as_bytes(), &mut known, back) {
        report(back, forms, mistake, &known);
    }
}

// Bytes to text and back; whether they are the same. The text is shaken afterwards.
fn trip_one<const M: usize, const N: usize>(
    forms: &[u8],
    bytes: &[u8],
    shown: &mut Room<M>,
    back: &mut Room<N>,
    seed: u64,
) -> bool {
    show(shown, forms, bytes, &mut Known::new());
    if shown.is_full() {
        return false;
    }
    let same = gives(forms, shown.as_bytes(), bytes, back);
    shake(forms, shown, back, seed);
    same
}

// The bytes with damage: one of them changed, and each fourth time the rest cut off. How many are left.
fn damage(bytes: &mut [u8], seed: u64) -> usize
    ensures { result ≤ length bytes.new }
{
    let place = below(seed, bytes.len());
    if let Some(b) = bytes.get_mut(place) {
        *b = (seed / 1048576 % 256) as u8;
    }
    if seed / 64 % 4 == 0 {
        return below(next_seed(seed), bytes.len());
    }
    bytes.len()
}

// A file as it is, and then so often with damage, each damage upon the one before.
fn trip_file<const M: usize, const N: usize>(
    forms: &[u8],
    file: &mut [u8],
    shown: &mut Room<M>,
    back: &mut Room<N>,
    times: u32,
    tally: Tally,
) -> Tally {
    let mut sum = tally.with(trip_one(forms, file, shown, back, 1));
    let mut seed = file.len() as u64;
    for _ in 0..times {
        seed = next_seed(seed);
        let size = damage(file, seed);
        sum = sum.with(trip_one(forms, &file[..size], shown, back, seed));
    }
    sum
}

// Where a file starts that stands behind its length at a place, and where it ends, if it is there.
fn next_file(packed: &[u8], at: usize) -> Option<(usize, usize)>
    ensures { IfSome result (λ p. (at < p.0) × (p.0 ≤ p.1) × (p.1 ≤ length packed.now)) }
{
    let (head, files) = packed.get(at..)?.split_first_chunk::<4>()?;
    let size = u32::from_be_bytes(*head) as usize;
    if files.len() < size {
        return None;
    }
    let from = packed.len() - files.len();
    Some((from, from + size))
}

// All files of a run, each behind its length in four bytes.
pub(crate) fn trip<const M: usize, const N: usize>(
    forms: &[u8],
    packed: &mut [u8],
    shown: &mut Room<M>,
    back: &mut Room<N>,
    times: u32,
) -> Tally {
    let mut at: usize = 0;
    let mut sum = Tally { same: 0, other: 0 };
    while let Some((from, to)) = next_file(packed, at) {
        sum = trip_file(forms, &mut packed[from..to], shown, back, times, sum);
        at = to;
    }
    sum
}
