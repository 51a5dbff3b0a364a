//! The ways to write a word of the language.

use rv_manual::ways_to_write;
use std::alloc::{AllocError, Global};

// Appends a line with a name and the words for its operands.
fn push_way(text: &mut String, name: &str, words: &str) -> Result<(), AllocError> {
    text.push_str(name)?;
    if !words.is_empty() {
        text.push_str(" ")?;
        text.push_str(words)?;
    }
    text.push_str("\n")
}

/// The ways to write an instruction or a directive, each in a line with the words for its operands. Any other word has one, its name.
pub fn ways_of(alloc: Global, name: &str) -> Result<String, AllocError> {
    let ways = ways_to_write(alloc, name.as_bytes())?;
    let mut text = String::new(alloc);
    for way in ways.as_slice() {
        push_way(&mut text, name, way.words.as_str())?;
    }
    if ways.is_empty() {
        push_way(&mut text, name, "")?;
    }
    Ok(text)
}
