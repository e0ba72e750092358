//! A number by which outputs are compared.

/// A number that depends on what was put into it, and in which order.
#[derive(Drop)]
pub struct Digest {
    state: u64,
}

/// A number without a pattern in its bits.
const FACTOR: u64 = 0x9e37_79b9_7f4a_7c15;

impl Digest {
    /// Returns a digest into which nothing was put.
    pub fn new() -> Digest {
        Digest { state: 0 }
    }

    /// Returns its value.
    pub fn value(&self) -> u64 {
        self.state ^ (self.state >> 31)
    }

    /// Puts a number into it.
    pub fn put(&mut self, number: u64) {
        let mixed = (self.state ^ number).wrapping_mul(FACTOR);
        self.state = mixed.rotate_left(29);
    }

    /// Puts a text into it, in words of eight bytes, and its length.
    pub fn put_text(&mut self, text: &[u8]) {
        let (words, rest) = text.as_chunks::<8>();
        for word in words {
            self.put(u64::from_le_bytes(*word));
        }
        for byte in rest {
            self.put(u64::from(*byte));
        }
        self.put(text.len() as u64);
    }
}
