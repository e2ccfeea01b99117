// Bytes that are put one behind the other into a room of fixed size.
ghost use Rattle.std.specs.Prelude.{◌≤◌};

// Room for N bytes, and how many of them are put. What is put where there is no more room is dropped.
#[derive(Drop)]
pub(crate) struct Room<const N: usize> {
    pub bytes: [u8; N],
    pub size: usize,
    ghost within: { size ≤ N },
}

impl<const N: usize> Room<N> {
    pub(crate) fn new() -> Self {
        Room {
            bytes: [0; N],
            size: 0,
        }
    }

    // What was put.
    pub(crate) fn as_bytes(&self) -> &[u8] {
        &self.bytes[..self.size]
    }

    pub(crate) fn is_full(&self) -> bool {
        self.size == N
    }

    pub(crate) fn clear(&mut self) {
        self.size = 0;
    }

    pub(crate) fn put(&mut self, b: u8) {
        if self.size < N {
            self.bytes[self.size] = b;
            self.size += 1;
        }
    }

    pub(crate) fn put_all(&mut self, bytes: &[u8]) {
        for b in bytes {
            self.put(*b);
        }
    }

    // A number, in digits.
    pub(crate) fn put_decimal(&mut self, n: u64) {
        let mut digits = [0u8; 20];
        let size = io::decimal(n, &mut digits);
        self.put_all(&digits[..size]);
    }

    // Another byte at a place, if one was put there.
    pub(crate) fn change(&mut self, at: usize, b: u8) {
        if at < self.size {
            self.bytes[at] = b;
        }
    }
}
