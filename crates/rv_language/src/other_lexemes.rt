//! Numbers, strings and characters that may be meant in a line with a lexical fault.

use crate::broken_line::{BrokenLine, place};
use crate::fixes::Fixes;
use rv_doc::without_return;
use rv_report::{Topic, replacements};
use rv_show::{Text, bytes_from, size_of_first};
use rv_text::{FaultNumber, Span};
use std::alloc::AllocError;

// The digits of a number without the zeros before them.
fn without_zeros(mut digits: &[u8]) -> &[u8] {
    'digits: while let [b'0', later @ ..] = digits {
        digits = later;
    }
    digits
}

// A number without the letters after it that tell its size in C.
fn without_suffix(mut digits: &[u8]) -> &[u8] {
    'digits: while let [front @ .., b'l' | b'L' | b'u' | b'U'] = digits {
        digits = front;
    }
    digits
}

// Adds a number in other notations.
fn add_number(fixes: &mut Fixes, line: &BrokenLine<'_>) -> Result<(), AllocError> {
    let span = line.fault.span;
    let wrong = line.wrong();
    fixes.add(span, &[without_zeros(wrong)])?;
    fixes.add(span, &[without_suffix(wrong)])?;
    match wrong {
        [digits @ .., b'h' | b'H'] => fixes.add(span, &[b"0x", without_zeros(digits)]),
        _ => Ok(()),
    }
}

// Adds a string with its end, or in the quotation marks of one.
fn add_string(fixes: &mut Fixes, line: &BrokenLine<'_>) -> Result<(), AllocError> {
    let span = line.fault.span;
    let wrong = without_return(line.wrong());
    if let [b'\'', inner @ .., b'\''] = wrong {
        fixes.add(span, &[b"\"", inner, b"\""])?;
    }
    match wrong {
        [mark, ..] => {
            let size = u32::try_from(wrong.len()).unwrap_or(0);
            fixes.add(place(span.from.saturating_add(size)), &[&[*mark]])
        }
        [] => Ok(()),
    }
}

// Appends a character, or what is written in its place.
fn push_character(text: &mut Text, character: &[u8]) -> Result<(), AllocError> {
    match replacements(Topic::Character, character) {
        [replacement, ..] => text.push(replacement.as_bytes()),
        [] => text.push(character),
    }
}

// Adds the rest of a line with what is written in the place of its characters.
fn add_characters(fixes: &mut Fixes, line: &BrokenLine<'_>) -> Result<(), AllocError> {
    let whole = without_return(line.text);
    let mut text = Text::new(line.alloc);
    let mut rest = bytes_from(whole, line.fault.span.from as usize);
    'characters: while !rest.is_empty() {
        let (character, later) = rest.split_at(rest.len().min(size_of_first(rest).max(1)));
        push_character(&mut text, character)?;
        rest = later;
    }
    let span = Span {
        from: line.fault.span.from,
        to: u32::try_from(whole.len()).unwrap_or(u32::MAX),
    };
    fixes.add_text(span, text)
}

/// Adds what may be meant by what is no token.
///
/// # Errors
///
/// `AllocError` if there is no memory for it.
pub fn add_lexemes(fixes: &mut Fixes, line: &BrokenLine<'_>) -> Result<(), AllocError> {
    match line.fault.number {
        FaultNumber::BadNumber => add_number(fixes, line),
        FaultNumber::BadString => add_string(fixes, line),
        FaultNumber::BadByte => add_characters(fixes, line),
        _ => Ok(()),
    }
}
