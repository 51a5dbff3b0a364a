//! Rows of output text.

ghost use Rattle.std.specs.Prelude.{◌≡◌, ◌+◌, ◌*◌, ◌/◌, ◌%◌, ◌^◌, ◌<◌, ◌≤◌, ◌++◌, ◌∷◌, [], length, decimal};
ghost use Rattle.rv_text.specs.Rows.{hex, hex_digit};

use arrayvec::ArrayVec;
use itoa::Buffer;
use std::marker::Model;

/// A row of output text, or a part of one: at most 64 bytes, put together without taking memory. Contracts see the bytes.
#[derive(Drop)]
pub struct OutputRow {
    bytes: ArrayVec<u8, 64>,
}

impl Model for OutputRow {
    ghost use Rattle.std.specs.Prelude.{ℕ, List, length, ◌≤◌};

    ghost Value = { List ℕ };

    ghost view = { λ r. r.bytes.items };

    ghost invariant = { λ r. length r.bytes.items ≤ 64 };
}

// The digits of the numbers below 16.
const HEX_DIGITS: [u8; 16] = *b"0123456789abcdef";

// The digit of a number below 16, in lower case.
fn hex_digit(n: u8) -> u8
    requires { n < 16 }
    ensures { result ≡ hex_digit n }
{
    HEX_DIGITS[usize::from(n)]
}

// The hexadecimal digit at a place of a number, the last at 0.
fn nibble(n: u32, place: u8) -> u8
    ensures digit { result ≡ n / 2 ^ (4 * place) % 16 }
    ensures small { result < 16 }
{
    if place < 8 {
        ((n >> (4 * place)) % 16) as u8
    } else {
        0
    }
}

impl OutputRow {
    /// A row without a byte.
    pub fn new() -> Self
        ensures { result ≡ [] }
    {
        OutputRow {
            bytes: ArrayVec::new(),
        }
    }

    // One more byte.
    fn push_byte(&mut self, byte: u8)
        requires { length self.old < 64 }
        ensures { self.new ≡ self.old ++ byte ∷ [] }
    {
        self.bytes.push(byte);
    }

    /// The text as it is.
    pub fn push_text(&mut self, text: &[u8])
        requires { length self.old + length text.now ≤ 64 }
        ensures text { self.new ≡ self.old ++ text.now }
        ensures length { length self.new ≡ length self.old + length text.now }
    {
        self.bytes.try_extend_from_slice(text).unwrap();
    }

    /// The number in decimal, without leading zeros.
    pub fn push_decimal(&mut self, n: u32)
        requires { length self.old + 10 ≤ 64 }
        ensures text { self.new ≡ self.old ++ decimal n }
        ensures length { length self.new ≤ length self.old + 10 }
    {
        let mut buffer = Buffer::new();
        self.push_text(buffer.format(n).as_bytes());
    }

    /// The last `digits` hexadecimal digits of the number in lower case, exactly as many, with leading zeros.
    pub fn push_hex(&mut self, digits: u8, n: u32)
        requires { length self.old + digits ≤ 64 }
        ensures text { self.new ≡ self.old ++ hex digits n }
        ensures length { length self.new ≡ length self.old + digits }
    {
        let mut left = digits;
        while left > 0 {
            left -= 1;
            self.push_byte(hex_digit(nibble(n, left)));
        }
    }

    /// The bytes of the row.
    pub fn bytes(&self) -> &[u8]
        ensures { result.now ≡ self.now }
    {
        self.bytes.as_slice()
    }
}
