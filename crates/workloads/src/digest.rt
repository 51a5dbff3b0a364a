//! A digest of results.

use rv_dis::DisRow;
use rv_text::{Failed, Sink};

/// FNV-1a of 64 bits, whose steps take bytes or, for the texts of rows, words of eight bytes.
#[derive(Clone, Copy)]
pub struct Digest {
    state: u64,
}

impl Digest {
    /// The digest of nothing.
    pub fn new() -> Digest {
        Digest {
            state: 0xcbf2_9ce4_8422_2325,
        }
    }

    /// The digest so far.
    pub fn value(&self) -> u64 {
        self.state
    }

    /// One number more.
    pub fn add(&mut self, word: u64) {
        self.state = (self.state ^ word).wrapping_mul(0x0000_0100_0000_01b3);
    }

    /// These bytes more, each by itself, so that it doesn't matter in which pieces they come.
    pub fn add_bytes(&mut self, bytes: &[u8]) {
        for byte in bytes {
            self.add(u64::from(*byte));
        }
    }

    // This text more, by words of eight bytes, and the bytes after the last one.
    fn add_text(&mut self, text: &str) {
        let (words, rest) = text.as_bytes().as_chunks::<8>();
        for word in words {
            self.add(u64::from_le_bytes(*word));
        }
        self.add_bytes(rest);
    }

    /// One row more of a disassembly.
    pub fn add_row(&mut self, row: &DisRow) {
        self.add(u64::from(row.address) << 8 | u64::from(row.len));
        self.add(u64::from(row.value));
        self.add_text(row.text.as_str());
    }
}

impl Sink for Digest {
    ghost use Rattle.std.specs.Prelude.{None};

    ghost taken = { λ _. None };

    ghost failures = { λ _. 0 };

    fn write(&mut self, bytes: &[u8]) -> Result<usize, Failed> {
        self.add_bytes(bytes);
        Ok(bytes.len())
    }
}
