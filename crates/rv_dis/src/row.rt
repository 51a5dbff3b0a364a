//! The rows of a disassembly.

ghost use Rattle.std.specs.Prelude.{◌≡◌, ◌+◌, ◌<◌, ◌≤◌, [], ◌∷◌, ◌++◌, get_or, length, take};

use arrayvec::ArrayString;
use std::marker::Model;

/// The text of a row, of at most 40 bytes, which lie in the row itself. Contracts see its bytes.
#[derive(Drop)]
pub struct RowText {
    text: ArrayString<40>,
}

impl Model for RowText {
    ghost use Rattle.std.specs.Prelude.{ℕ, List};

    ghost Value = { List ℕ };

    ghost view = { λ t. t.text.bytes };
}

impl RowText {
    // The empty text.
    pub(crate) fn new() -> Self
        ensures { result ≡ [] }
    {
        RowText {
            text: ArrayString::new(),
        }
    }

    // Appends a text, for which there must be room.
    #[inline]
    pub(crate) fn push_str(&mut self, text: &str)
        requires { length self.old + length text.now ≤ 40 }
        ensures { self.new ≡ self.old ++ text.now }
    {
        self.text.push_str(text);
    }

    // Appends the beginning of a padded text, for which there must be room. Where there is room for a padding to N bytes
    // too, a constant number of bytes is copied.
    #[inline(always)]
    pub(crate) fn push_padded<const N: usize>(&mut self, padded: &str, len: usize)
        requires within { len ≤ length padded.now }
        requires ascii { get_or padded.now len 0 < 128 }
        requires room { length self.old + len ≤ 40 }
        ensures { self.new ≡ self.old ++ take len padded.now }
    {
        let start = self.text.len();
        if padded.len() == N && N <= 40 - start {
            self.text.push_str(padded);
            self.text.truncate(start + len);
        } else {
            self.text.push_str(&padded[..len]);
        }
    }

    // Appends an ASCII character, for which there must be room.
    #[inline]
    pub(crate) fn push(&mut self, c: char)
        requires room { length self.old < 40 }
        requires ascii { c < 128 }
        ensures { self.new ≡ self.old ++ c ∷ [] }
    {
        self.text.push(c);
    }

    /// The text.
    pub fn as_str(&self) -> &str
        ensures { result.now ≡ self.now }
    {
        self.text.as_str()
    }
}

/// A row of a disassembly.
#[derive(Drop)]
pub struct DisRow {
    /// Where it lies in memory.
    pub address: u32,
    /// The number that its bytes are, the lowest first.
    pub value: u32,
    /// The line that assembles to the bytes: an instruction, `.half` or `.byte`.
    pub text: RowText,
    /// How many bytes it has: 4, 2 or 1.
    pub len: u8,
}

impl DisRow {
    // A row of no bytes at an address.
    #[inline]
    pub(crate) fn at(address: u32) -> Self
        ensures address { result.address ≡ address }
        ensures text { result.text ≡ [] }
    {
        DisRow {
            address,
            value: 0,
            text: RowText::new(),
            len: 0,
        }
    }
}
