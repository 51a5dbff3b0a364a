//! The messages of lexical faults.

ghost use Rattle.std.specs.Prelude.{◌≡◌, ◌<◌, ◌≤◌, ◌++◌, drop, slice_index, OnOk};
ghost use Rattle.std.specs.Option.{option_map_or};
ghost use Rattle.rv_text.specs.Strings.{escaped_at};
ghost use Rattle.rv_report.specs.LexicalMessages.{bad_byte, bad_number, bad_string, base_of, byte_help, digits_of, from_first_wrong, no_digit, number_help, number_wrong, unspelled, string_stopped};

use crate::advice::{Topic, advice};
use rv_show::{Text, byte_at, bytes_from, first_bytes, size_of_first};
use rv_text::escaped;
use std::alloc::AllocError;

// Appends what is written in the place of the character that some bytes begin with.
fn push_byte_help(out: &mut Text, byte: u8, rest: &[u8]) -> Result<(), AllocError>
    ensures { OnOk result (out.new ≡ out.old ++ byte_help byte rest.now) }
{
    if byte == 0 || byte == 0xfe || byte == 0xff {
        return out.push(b"; is the file in UTF-16? save it in UTF-8");
    }
    let character = first_bytes(rest, size_of_first(rest));
    out.push(advice(Topic::Character, character))
}

// Appends that a byte begins no token; the rest of the line begins with it.
#[tactic(auto, unfolding(crate::specs::LexicalMessages::bad_byte))]
fn push_bad_byte(out: &mut Text, byte: u8, rest: &[u8]) -> Result<(), AllocError>
    ensures { OnOk result (out.new ≡ out.old ++ bad_byte byte rest.now) }
{
    out.push(b"byte 0x")?;
    out.push_upper_hex(byte)?;
    out.push(b" begins nothing of the language")?;
    push_byte_help(out, byte, rest)
}

/// The byte at a place of a line, which begins no token.
pub fn push_bad_byte_at(out: &mut Text, line: &[u8], place: u32) -> Result<(), AllocError>
    ensures { OnOk result (out.new ≡ out.old ++ bad_byte (slice_index line.now place) (drop place line.now)) }
{
    push_bad_byte(out, byte_at(line, place), bytes_from(line, place as usize))
}

// The base that the beginning of a number tells.
fn base_of(text: &[u8]) -> u32
    ensures value { result ≡ base_of text.now }
    ensures least { 2 ≤ result }
    ensures most { result ≤ 16 }
{
    match text {
        [b'0', b'x' | b'X', ..] => 16,
        [b'0', b'b' | b'B', ..] => 2,
        [b'0', _, ..] => 8,
        _ => 10,
    }
}

// What stands behind `0x` or `0b`, and all of any other number.
fn digits_of(base: u32, text: &[u8]) -> &[u8]
    ensures { result.now ≡ digits_of base text.now }
{
    if base == 16 || base == 2 {
        return bytes_from(text, 2);
    }
    text
}

// The first byte that is no digit of the base, and what follows it.
fn from_first_wrong(base: u32, mut digits: &[u8]) -> &[u8]
    requires least { 2 ≤ base }
    requires most { base ≤ 16 }
    ensures { result.now ≡ from_first_wrong base digits.entry.now }
{
    'digits: while let [digit, rest @ ..] = digits {
        if !char::from(*digit).is_digit(base) {
            return digits;
        }
        digits = rest;
    }
    digits
}

// That a byte is no digit of the base.
fn no_digit(base: u32) -> &'static [u8]
    ensures { result.now ≡ no_digit base }
{
    match base {
        16 => b" is not a hexadecimal digit",
        2 => b" is not a binary digit",
        8 => b" is not an octal digit, and a number with a leading 0 is octal",
        _ => b" is not a decimal digit, and a name does not begin with a digit",
    }
}

// Appends what is wrong with the digits of a number.
fn push_number_help(
    out: &mut Text,
    base: u32,
    digits: &[u8],
    wrong: &[u8],
) -> Result<(), AllocError>
    ensures { OnOk result (out.new ≡ out.old ++ number_help base digits.now wrong.now) }
{
    if let [digit, ..] = wrong {
        return out.push_about(b"; ", &[*digit], no_digit(base));
    }
    if digits.is_empty() {
        return out.push(b"; digits are missing");
    }
    out.push(b"; the greatest number is 0x7FFFFFFFFFFFFFFF")
}

// Appends what is wrong with a number of a base.
#[tactic(auto, unfolding(crate::specs::LexicalMessages::number_wrong))]
fn push_number_wrong(out: &mut Text, base: u32, digits: &[u8]) -> Result<(), AllocError>
    requires least { 2 ≤ base }
    requires most { base ≤ 16 }
    ensures { OnOk result (out.new ≡ out.old ++ number_wrong base digits.now) }
{
    push_number_help(out, base, digits, from_first_wrong(base, digits))
}

/// A run of digits and letters that is no number.
#[tactic(auto, unfolding(crate::specs::LexicalMessages::bad_number))]
pub fn push_bad_number(out: &mut Text, text: &[u8]) -> Result<(), AllocError>
    ensures { OnOk result (out.new ≡ out.old ++ bad_number text.now) }
{
    let base = base_of(text);
    out.push_about(b"", text, b" is not a number")?;
    push_number_wrong(out, base, digits_of(base, text))
}

// The place behind the byte or escape that begins at a place of a string or character, and 0 where none begins.
fn next_place(text: &[u8], at: usize) -> usize
    ensures value { result ≡ option_map_or (λ p. p.1) (escaped_at text.now at) 0 }
    ensures rises { 0 < result → at < result }
{
    match escaped(text, at) {
        Some((_, next)) => next,
        None => 0,
    }
}

// The first place of a string or character at which neither a byte nor an escape of it begins.
fn stop_of(text: &[u8]) -> usize
    ensures { drop result text.now ≡ unspelled text.now }
{
    let mut at = 1;
    let mut bytes = text;
    'bytes: while let [_, rest @ ..] = bytes {
        let next = next_place(text, at);
        if next == 0 {
            return at;
        }
        at = next;
        bytes = rest;
    }
    at
}

// Appends what is wrong where neither a byte nor an escape begins.
fn push_string_stopped(out: &mut Text, rest: &[u8]) -> Result<(), AllocError>
    ensures { OnOk result (out.new ≡ out.old ++ string_stopped rest.now) }
{
    match rest {
        [] => out.push(b"the closing quotation mark is missing"),
        [b'\\', ..] => out.push_about(
            b"",
            first_bytes(rest, 2),
            b" is not an escape: '\\\\' is a backslash, and octal escapes end at '\\377'",
        ),
        _ => out.push(
            b"a character is one byte of ASCII; a string stands in double quotation marks",
        ),
    }
}

/// A string or a character that is none.
#[tactic(auto, unfolding(crate::specs::LexicalMessages::bad_string))]
pub fn push_bad_string(out: &mut Text, text: &[u8]) -> Result<(), AllocError>
    ensures { OnOk result (out.new ≡ out.old ++ bad_string text.now) }
{
    push_string_stopped(out, bytes_from(text, stop_of(text)))
}
