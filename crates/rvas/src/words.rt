//! The words that the program is given.

use std::alloc::AllocError;
use std::env::{Env, FillError};

// How many bytes a word has room for at first.
const ROOM: usize = 256;

/// The words, the first of which is the program's name. A byte that is part of no character of UTF-8 is 0 instead, which no word has
/// otherwise: no file has such a name.
pub fn words(rt: &HostRuntime) -> Result<Vec<String>, AllocError> {
    let mut words = Vec::new(rt.alloc());
    for number in 0..usize::MAX {
        match word(rt, number)? {
            Some(bytes) => words.push(text_of(rt, bytes.as_slice())?)?,
            None => return Ok(words),
        }
    }
    Ok(words)
}

// The bytes of the word of a number, if there is one. The room grows until it has room for them.
fn word(rt: &HostRuntime, number: usize) -> Result<Option<Vec<u8>>, AllocError> {
    let mut bytes = Vec::new(rt.alloc());
    let mut room = ROOM;
    for _ in 0..usize::BITS {
        bytes.resize(room, 0u8)?;
        match rt.arg(number, bytes.as_mut_slice()) {
            Ok(length) => {
                bytes.truncate(length);
                return Ok(Some(bytes));
            }
            Err(FillError::NotPresent) => return Ok(None),
            Err(FillError::TooLong) => room = room.saturating_mul(2),
        }
    }
    Err(AllocError)
}

// The text that bytes are, with 0 for each byte that is part of no character.
fn text_of(rt: &HostRuntime, bytes: &[u8]) -> Result<String, AllocError> {
    let mut text = String::new(rt.alloc());
    for chunk in bytes.utf8_chunks() {
        text.push_str(chunk.valid())?;
        push_zeros(&mut text, chunk.invalid())?;
    }
    Ok(text)
}

// Appends 0 for each of some bytes.
fn push_zeros(text: &mut String, bytes: &[u8]) -> Result<(), AllocError> {
    for _ in bytes {
        text.push('\0')?;
    }
    Ok(())
}
