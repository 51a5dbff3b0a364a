//! The parts of a row, and the texts of answers.

use rv_text::{digits, number};
use std::alloc::{AllocError, Global};
use std::fmt::{Debug, Display, Write};
use std::test::Fail;

/// The first word of a text, and what stands behind the space after it.
pub fn parts_of(text: &str) -> (&str, &str) {
    text.split_once(" ").unwrap_or((text, ""))
}

/// What there is. A row in which it is missing fails, and says why.
pub fn found<T>(value: Option<T>, why: &str) -> Result<T, Fail> {
    match value {
        Some(value) => Ok(value),
        None => Err(Fail::new(why)),
    }
}

/// The number of 32 bits that a word spells, as the language spells numbers.
pub fn number_of(word: &str) -> Result<u32, Fail> {
    let value = found(number(word.as_bytes()), "a word that is no number")?;
    Ok(u32::try_from(value)?)
}

/// The number that a text begins with, and what stands behind the space after it.
pub fn number_before(text: &str) -> Result<(u32, &str), Fail> {
    let (word, rest) = parts_of(text);
    Ok((number_of(word)?, rest))
}

fn byte_of(pair: &[u8]) -> Result<u8, Fail> {
    let byte = found(digits(16, pair), "bytes that are no hexadecimal digits")?;
    Ok(u8::try_from(byte)?)
}

/// The bytes that pairs of hexadecimal digits spell.
pub fn bytes_of(alloc: Global, pairs: &str) -> Result<Vec<u8>, Fail> {
    let mut bytes = Vec::new(alloc);
    for pair in pairs.as_bytes().chunks(2) {
        bytes.push(byte_of(pair)?)?;
    }
    Ok(bytes)
}

/// The pairs of hexadecimal digits of bytes.
pub fn pairs_of(alloc: Global, bytes: &[u8]) -> Result<String, Fail> {
    let mut pairs = String::new(alloc);
    for byte in bytes {
        write!(pairs, "{byte:02x}")?;
    }
    Ok(pairs)
}

/// The text of bytes.
pub fn text_of(alloc: Global, bytes: &[u8]) -> Result<String, Fail> {
    copied(alloc, str::from_utf8(bytes)?)
}

/// A text without the quotes around it. One that is empty, or has spaces at its ends, stands in quotes in a row.
pub fn unquoted(text: &str) -> &str {
    text.trim_matches('"')
}

// Appends what comes up to the next `{`: `3 ab}c` is `abababc`, and a text without `}` is itself.
fn push_part(whole: &mut String, part: &str) -> Result<(), Fail> {
    let Some((repeated, plain)) = part.split_once("}") else {
        return Ok(whole.push_str(part)?);
    };
    let (times, text) = parts_of(repeated);
    for _ in 0..number_of(times)? {
        whole.push_str(text)?;
    }
    Ok(whole.push_str(plain)?)
}

/// A text in which `{3 ab}` stands for `ababab`.
pub fn unfolded(alloc: Global, text: &str) -> Result<String, Fail> {
    let mut whole = String::new(alloc);
    for part in text.split("{") {
        push_part(&mut whole, part)?;
    }
    Ok(whole)
}

/// A text that was made, if memory did not run out.
pub fn made(text: Result<String, AllocError>) -> Result<String, Fail> {
    Ok(text?)
}

/// A text as a `String`.
pub fn copied(alloc: Global, text: &str) -> Result<String, Fail> {
    made(String::from_str(alloc, text))
}

/// A value as `{}` shows it.
pub fn displayed<T: Display + Drop>(alloc: Global, value: T) -> Result<String, Fail> {
    made(format!(in alloc; "{value}"))
}

/// A value as `{:?}` shows it.
pub fn debugged<T: Debug + Drop>(alloc: Global, value: T) -> Result<String, Fail> {
    made(format!(in alloc; "{value:?}"))
}

/// What there is, or `none`.
pub fn shown<T: Display + Drop>(alloc: Global, value: Option<T>) -> Result<String, Fail> {
    match value {
        Some(value) => displayed(alloc, value),
        None => copied(alloc, "none"),
    }
}

/// The name of what there is, or `none`.
pub fn named<T: Debug + Drop>(alloc: Global, value: Option<T>) -> Result<String, Fail> {
    match value {
        Some(value) => debugged(alloc, value),
        None => copied(alloc, "none"),
    }
}
