//! What the bodies of frames say.

ghost use Rattle.std.specs.Prelude.{◌≡◌, ◌≤◌, ◌<◌, length, vec_len, IfOk};

use memchr::memchr;
use serde_json::Value;
use std::alloc::{AllocError, Global};

// What takes the place of half a pair: the escape of U+FFFD.
const REPLACEMENT: &[u8] = b"\\ufffd";

// One half of the pair of surrogates that stands for a character above U+FFFF. (RFC 8259, section 7)
#[derive(Clone, Copy)]
enum Half {
    First,
    Second,
}

// The half whose escape stands at the front of some bytes: a unit of UTF-16 from 0xD800 to 0xDBFF, or from there to 0xDFFF.
fn half_at(bytes: &[u8]) -> Option<Half> {
    let [b'\\', b'u', b'd' | b'D', second, third, fourth, ..] = bytes else {
        return None;
    };
    if !third.is_ascii_hexdigit() || !fourth.is_ascii_hexdigit() {
        return None;
    }
    match second {
        b'8' | b'9' | b'a' | b'b' | b'A' | b'B' => Some(Half::First),
        b'c'..=b'f' | b'C'..=b'F' => Some(Half::Second),
        _ => None,
    }
}

// How many bytes the escape at the front of some bytes has, with that of the second half behind the first.
fn escape_size(bytes: &[u8]) -> usize
    requires { 0 < length bytes.now }
    ensures some { 0 < result }
    ensures within { result ≤ length bytes.now }
{
    let (_, behind) = bytes.split_at(bytes.len().min(REPLACEMENT.len()));
    let size = match half_at(bytes) {
        None => 2,
        Some(Half::First) if matches!(half_at(behind), Some(Half::Second)) => 12,
        Some(Half::First | Half::Second) => 6,
    };
    bytes.len().min(size)
}

// How many bytes at the front of some bytes belong together: an escape, or what stands before the first one.
fn piece_size(bytes: &[u8]) -> usize
    requires { 0 < length bytes.now }
    ensures some { 0 < result }
    ensures within { result ≤ length bytes.now }
{
    match memchr(b'\\', bytes) {
        None => bytes.len(),
        Some(0) => escape_size(bytes),
        Some(before) => before,
    }
}

// What takes the place of some bytes that belong together: of half a pair U+FFFD.
fn settled(piece: &[u8]) -> &[u8]
    ensures { length result.now ≡ length piece.entry.now }
{
    if piece.len() == REPLACEMENT.len() && half_at(piece).is_some() {
        REPLACEMENT
    } else {
        piece
    }
}

// Some bytes of JSON with U+FFFD in the place of each half of a pair that stands alone: strings may have such, and texts have none. (RFC 8259,
// section 8.2)
fn without_halves(alloc: Global, bytes: &[u8]) -> Result<Vec<u8>, AllocError>
    ensures { IfOk result (λ v. vec_len v ≡ length bytes.now) }
{
    let mut whole = Vec::new(alloc);
    let mut rest = bytes;
    'pieces: while !rest.is_empty() {
        let (piece, later) = rest.split_at(piece_size(rest));
        whole.extend_from_slice(settled(piece))?;
        rest = later;
    }
    Ok(whole)
}

// The value that some bytes are, if they are JSON.
fn value_of(alloc: Global, bytes: &[u8]) -> Result<Option<Value>, AllocError> {
    match Value::from_slice(alloc, bytes) {
        Ok(value) => Ok(Some(value)),
        Err(error) => {
            if error.is_memory() {
                Err(AllocError)
            } else {
                Ok(None)
            }
        }
    }
}

/// The message that the body of a frame is, if it is JSON. Half a pair of surrogates that stands alone is read as U+FFFD.
///
/// # Errors
///
/// `AllocError` if there is no memory for it.
pub fn message_in(alloc: Global, body: &[u8]) -> Result<Option<Value>, AllocError> {
    if let Some(value) = value_of(alloc, body)? {
        return Ok(Some(value));
    }
    let whole = without_halves(alloc, body)?;
    value_of(alloc, whole.as_slice())
}

/// Whether a list of texts has this one.
pub fn has_text(list: Option<&Value>, text: &str) -> bool {
    let Some(items) = list.and_then(Value::as_array) else {
        return false;
    };
    for item in items.as_slice() {
        if item.as_str() == Some(text) {
            return true;
        }
    }
    false
}
