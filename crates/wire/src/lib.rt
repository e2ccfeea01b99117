// What every file is made of: numbers as bytes, the high byte first, and runs of bytes put into a lent buffer.
#![tactic(auto)]

ghost use Rattle.std.specs.Prelude.{◌≡◌};
ghost use Rattle.wire.specs.Bytes.{length_of, number_of, Written};

// How far the text reaches now, or the number under which writing it was refused.
#[derive(Clone, Copy)]
pub enum Wrote {
    To(usize),
    Refused(u8),
}

// The number of four bytes.
pub fn number(a: u8, b: u8, c: u8, d: u8) -> u32
    ensures { result ≡ number_of a b c d }
{
    u32::from_be_bytes([a, b, c, d])
}

// The number of the two bytes of a length.
pub fn length_of(a: u8, b: u8) -> usize
    ensures { result ≡ length_of a b }
{
    u16::from_be_bytes([a, b]) as usize
}

// Bytes written from a place on. Where they do not fit: 27, and the buffer stays as it is.
// Kept: a buffer and a place side by side, since write is public and its signature may not change.
pub fn write(buf: &mut [u8], at: usize, bytes: &[u8]) -> Wrote
    ensures { Written buf.old at bytes.now result buf.new }
{
    let room = buf.len();
    let size = bytes.len();
    if room < size || room - size < at {
        return Wrote::Refused(numbers::NO_ROOM);
    }
    buf[at..at + size].copy_from_slice(bytes);
    Wrote::To(at + size)
}
