//! Bytes that are kept one by one.

ghost use Rattle.std.specs.Prelude.{◌≡◌, [], ◌++◌, IfOk, OnOk};
ghost use Rattle.rv_stmt.specs.Data.{width_bytes};
ghost use Rattle.rv_fix.specs.Data.{low_bytes};

use rv_stmt::{DataWidth, word_bits};
use smallvec::SmallVec;
use std::alloc::{AllocError, Global};
use std::marker::Model;

/// A list of bytes. Up to eight, which are as many as two instructions have, take no memory. Contracts see the list.
#[derive(Drop)]
pub struct LineBytes {
    bytes: SmallVec<u8, 8>,
}

impl Model for LineBytes {
    ghost use Rattle.std.specs.Prelude.{ℕ, List};

    ghost Value = { List ℕ };

    ghost view = { λ b. b.bytes.items };
}

impl LineBytes {
    /// No bytes.
    pub fn new(alloc: Global) -> Self
        ensures { result ≡ [] }
    {
        LineBytes {
            bytes: SmallVec::new(alloc),
        }
    }

    /// These bytes.
    pub fn of(alloc: Global, bytes: &[u8]) -> Result<Self, AllocError>
        ensures { IfOk result (λ b. b ≡ bytes.now) }
    {
        let bytes = SmallVec::from_slice(alloc, bytes)?;
        Ok(LineBytes { bytes })
    }

    /// Appends bytes.
    pub fn append(&mut self, bytes: &[u8]) -> Result<(), AllocError>
        ensures { OnOk result (self.new ≡ self.old ++ bytes.now) }
    {
        self.bytes.extend_from_slice(bytes)
    }

    /// Appends the lowest bytes of a value, as many as the width has, the lowest first.
    pub fn append_value(&mut self, width: DataWidth, value: i64) -> Result<(), AllocError>
        ensures { OnOk result (self.new ≡ self.old ++ low_bytes (width_bytes width) value) }
    {
        let bytes = word_bits(value).to_le_bytes();
        let (low, _) = bytes.as_slice().split_at(width.bytes() as usize);
        self.append(low)
    }

    /// The bytes as a slice.
    pub fn as_slice(&self) -> &[u8]
        ensures { result.now ≡ self.now }
    {
        self.bytes.as_slice()
    }
}
