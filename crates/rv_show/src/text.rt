//! Texts that are put together.

ghost use Rattle.std.specs.Prelude.{◌≡◌, ◌<◌, ◌≤◌, [], ◌∷◌, ◌++◌, replicate, map, OnOk};
ghost use Rattle.rv_text.specs.Rows.{hex};
ghost use Rattle.rv_show.specs.Digits.{upper_digit, upper_hex};
ghost use Rattle.rv_show.specs.Texts.{about, alternatives, quoted, quoted_from, separator};

use crate::characters::{push_excerpt, push_excerpt_from};
use itoa::{Buffer, Integer};
use rv_text::OutputRow;
use std::alloc::{AllocError, Global};
use std::marker::Model;

/// The digit of a number below 16, in upper case.
pub fn upper_digit(n: u8) -> u8
    requires { n < 16 }
    ensures { result ≡ upper_digit n }
{
    if n < 10 { b'0' + n } else { b'A' - 10 + n }
}

/// A text that grows at its end. Contracts see its bytes.
#[derive(Drop)]
pub struct Text {
    bytes: Vec<u8>,
}

impl Model for Text {
    ghost use Rattle.std.specs.Prelude.{ℕ, List};

    ghost Value = { List ℕ };

    ghost view = { λ t. t.bytes.items };
}

impl Text {
    /// A text without a byte.
    pub fn new(alloc: Global) -> Self
        ensures { result ≡ [] }
    {
        Text {
            bytes: Vec::new(alloc),
        }
    }

    /// Its bytes.
    pub fn bytes(&self) -> &[u8]
        ensures { result.now ≡ self.now }
    {
        self.bytes.as_slice()
    }

    /// Appends a text.
    pub fn push(&mut self, text: &[u8]) -> Result<(), AllocError>
        ensures { OnOk result (self.new ≡ self.old ++ text.now) }
    {
        self.bytes.extend_from_slice(text)
    }

    /// Appends a byte.
    pub fn push_byte(&mut self, byte: u8) -> Result<(), AllocError>
        ensures { OnOk result (self.new ≡ self.old ++ byte ∷ []) }
    {
        self.push(&[byte])
    }

    /// Appends a byte so many times.
    pub fn push_repeated(&mut self, byte: u8, count: usize) -> Result<(), AllocError>
        ensures { OnOk result (self.new ≡ self.old ++ replicate count byte) }
    {
        let mut left = count;
        'more: while left > 0 {
            self.push_byte(byte)?;
            left -= 1;
        }
        Ok(())
    }

    /// Appends a number in decimal.
    pub fn push_number<I: Integer>(&mut self, number: I) -> Result<(), AllocError>
        ensures { OnOk result (self.new ≡ self.old ++ I.text number) }
    {
        let mut buffer = Buffer::new();
        self.push(buffer.format(number).as_bytes())
    }

    /// Appends the eight hexadecimal digits of a number.
    pub fn push_word(&mut self, number: u32) -> Result<(), AllocError>
        ensures { OnOk result (self.new ≡ self.old ++ hex 8 number) }
    {
        let mut row = OutputRow::new();
        row.push_hex(8, number);
        self.push(row.bytes())
    }

    /// Appends the two hexadecimal digits of a byte, in upper case.
    pub fn push_upper_hex(&mut self, byte: u8) -> Result<(), AllocError>
        ensures { OnOk result (self.new ≡ self.old ++ upper_hex byte) }
    {
        self.push(&[upper_digit(byte / 16), upper_digit(byte % 16)])
    }

    /// Appends a part of a line in quotation marks.
    #[tactic(auto, unfolding(crate::specs::Texts::quoted))]
    pub fn push_quoted(&mut self, part: &[u8]) -> Result<(), AllocError>
        ensures { OnOk result (self.new ≡ self.old ++ quoted part.now) }
    {
        self.push(b"'")?;
        push_excerpt(self, part)?;
        self.push(b"'")
    }

    /// Appends a part of a line in quotation marks, from a place on.
    #[tactic(auto, unfolding(crate::specs::Texts::quoted_from))]
    pub fn push_quoted_from(&mut self, place: usize, part: &[u8]) -> Result<(), AllocError>
        ensures { OnOk result (self.new ≡ self.old ++ quoted_from place part.now) }
    {
        self.push(b"'")?;
        push_excerpt_from(self, place, part)?;
        self.push(b"'")
    }

    /// Appends a message about a part of a line.
    #[tactic(auto, unfolding(crate::specs::Texts::about))]
    pub fn push_about(&mut self, before: &[u8], part: &[u8], after: &[u8]) -> Result<(), AllocError>
        ensures { OnOk result (self.new ≡ self.old ++ about before.now part.now after.now) }
    {
        self.push(before)?;
        self.push_quoted(part)?;
        self.push(after)
    }
}

// What stands before so many more alternatives.
fn separator<'a>(comma: &'a [u8], or: &'a [u8], left: usize) -> &'a [u8]
    ensures { result.now ≡ separator comma.now or.now left }
{
    match left {
        0 => &[],
        1 => or,
        _ => comma,
    }
}

/// Appends alternatives from a place on, with one sign between the last two and another between the others.
pub fn push_alternatives(
    out: &mut Text,
    comma: &[u8],
    or: &[u8],
    place: usize,
    mut texts: &[&[u8]],
) -> Result<(), AllocError>
    ensures { OnOk result (out.new ≡ out.old ++ alternatives comma.now or.now place (map (λ t. t.now) texts.entry.now)) }
{
    'texts: while let [text, rest @ ..] = texts {
        push_excerpt_from(out, place, text)?;
        out.push(separator(comma, or, rest.len()))?;
        texts = rest;
    }
    Ok(())
}
