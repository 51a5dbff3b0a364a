//! The rows of scripts: their words and numbers, bytes that are spelled, and the hash of a long answer.

use rv_text::{MAX_LINE_LENGTH, TokenKind, escaped, number, tokens};
use std::alloc::{AllocError, Global};
use std::test::Fail;

/// The first word of a text, and what stands behind the space after it.
pub fn parts_of(text: &str) -> (&str, &str) {
    text.split_once(" ").unwrap_or((text, ""))
}

/// The number that a text spells, if it is one of 32 bits.
pub fn number_of(text: &str) -> Option<u32> {
    u32::try_from(number(text.as_bytes())?).ok()
}

/// The number that a text spells.
pub fn number_in(text: &str) -> Result<u32, Fail> {
    match number_of(text) {
        Some(number) => Ok(number),
        None => Err(Fail::new("a row without a number")),
    }
}

// The bytes that a string stands for.
fn string_content(alloc: Global, string: &[u8]) -> Result<Vec<u8>, AllocError> {
    let mut bytes = Vec::new(alloc);
    let mut place = 1;
    for _ in string {
        let Some((byte, next)) = escaped(string, place) else {
            break;
        };
        bytes.push(byte)?;
        place = next;
    }
    Ok(bytes)
}

/// Puts bytes behind others so many times.
pub fn push_times(bytes: &mut Vec<u8>, more: &[u8], count: u32) -> Result<(), AllocError> {
    for _ in 0..count {
        bytes.extend_from_slice(more)?;
    }
    Ok(())
}

// Puts the content of a string behind the bytes `count` times, or reads a count. How often the next string stands.
fn push_token(
    alloc: Global,
    bytes: &mut Vec<u8>,
    kind: TokenKind,
    text: &[u8],
    count: u32,
) -> Result<u32, Fail> {
    match kind {
        TokenKind::Str => {
            let content = string_content(alloc, text)?;
            push_times(bytes, content.as_slice(), count)?;
            Ok(1)
        }
        TokenKind::Number => Ok(number_in(str::from_utf8(text)?)?),
        _ => Ok(count),
    }
}

/// The bytes that a text of the language's tokens spells: strings one after another, each of which stands as often as the
/// number before it says, as in `"a" 3 * "b"`.
pub fn spelled_bytes(alloc: Global, text: &str) -> Result<Vec<u8>, Fail> {
    let line = text.as_bytes();
    if line.len() > MAX_LINE_LENGTH {
        return Err(Fail::new("a row that is too long"));
    }
    let mut bytes = Vec::new(alloc);
    let mut count = 1;
    let found = tokens(alloc, line)?;
    for place in 0..found.tokens().len() {
        let kind = found.tokens()[place].kind;
        count = push_token(alloc, &mut bytes, kind, found.text(place), count)?;
    }
    Ok(bytes)
}

/// The hash of no bytes: FNV-1a, of 64 bits.
pub const NO_HASH: u64 = 0xcbf2_9ce4_8422_2325;

/// The hash of bytes that come after others, which have this hash.
pub fn hash_after(mut hash: u64, bytes: &[u8]) -> u64 {
    for byte in bytes {
        hash = (hash ^ u64::from(*byte)).wrapping_mul(0x0000_0100_0000_01b3);
    }
    hash
}

/// FNV-1a, of 64 bits.
pub fn hash_of(bytes: &[u8]) -> u64 {
    hash_after(NO_HASH, bytes)
}
