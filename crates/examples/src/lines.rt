//! The tokens of lines, the numbers in them, and the bytes that strings spell.

ghost use Rattle.std.specs.Prelude.{◌≤◌, length, IfOk};

use crate::row::{
    bytes_of, debugged, displayed, made, number_before, shown, text_of, unfolded, unquoted,
};
use rv_text::{
    Fault, MAX_LINE_LENGTH, Span, Token, TokenKind, Tokens, digits, escaped, is_local_number,
    number, tokens,
};
use std::alloc::{AllocError, Global};
use std::test::Fail;

/// The bytes of a line that a program may have.
pub fn bytes_of_line(line: &str) -> Result<&[u8], Fail>
    ensures { IfOk result (λ bytes. length bytes.now ≤ 1000) }
{
    if line.len() > MAX_LINE_LENGTH {
        return Err(Fail::new("a line that is too long"));
    }
    Ok(line.as_bytes())
}

/// The tokens of a line that a program may have.
pub fn tokens_of(alloc: Global, line: &[u8]) -> Result<Tokens<'_>, Fail> {
    if line.len() > MAX_LINE_LENGTH {
        return Err(Fail::new("a line that is too long"));
    }
    Ok(tokens(alloc, line)?)
}

// The kinds of tokens, and the fault at which they end.
fn kinds_text(alloc: Global, tokens: &[Token], fault: Option<Fault>) -> Result<String, Fail> {
    let kinds = kinds(alloc, tokens)?;
    match fault {
        Some(fault) => made(format!(in alloc; "{kinds:?} {:?}", fault.number)),
        None => made(format!(in alloc; "{kinds:?}")),
    }
}

fn kinds_of(alloc: Global, line: &[u8]) -> Result<String, Fail> {
    let found = tokens_of(alloc, line)?;
    kinds_text(alloc, found.tokens(), found.fault())
}

fn kinds(alloc: Global, tokens: &[Token]) -> Result<Vec<TokenKind>, AllocError> {
    let mut kinds = Vec::new(alloc);
    for token in tokens {
        kinds.push(token.kind)?;
    }
    Ok(kinds)
}

/// The kinds of a line's tokens, and its fault.
pub fn token_kinds(alloc: Global, arguments: &str) -> Result<String, Fail> {
    let line = unfolded(alloc, arguments)?;
    kinds_of(alloc, line.as_str().as_bytes())
}

/// The kinds of the tokens of these bytes, and their fault.
pub fn token_kinds_of_bytes(alloc: Global, arguments: &str) -> Result<String, Fail> {
    let line = bytes_of(alloc, arguments)?;
    kinds_of(alloc, line.as_slice())
}

fn span_ends(span: Span) -> (u32, u32) {
    (span.from, span.to)
}

fn places(alloc: Global, tokens: &[Token]) -> Result<Vec<(u32, u32)>, AllocError> {
    let mut places = Vec::new(alloc);
    for token in tokens {
        places.push(span_ends(token.span))?;
    }
    Ok(places)
}

fn fault_place(fault: Option<Fault>) -> Option<(u32, u32)> {
    Some(span_ends(fault?.span))
}

fn places_text(alloc: Global, tokens: &[Token], fault: Option<Fault>) -> Result<String, Fail> {
    let places = places(alloc, tokens)?;
    let fault = fault_place(fault);
    made(format!(in alloc; "{places:?} {fault:?}"))
}

/// Where a line's tokens begin and end, and where its fault does.
pub fn token_places(alloc: Global, arguments: &str) -> Result<String, Fail> {
    let found = tokens_of(alloc, arguments.as_bytes())?;
    places_text(alloc, found.tokens(), found.fault())
}

// The text of the token of this number.
fn token_at(alloc: Global, line: &[u8], index: usize) -> Result<String, Fail> {
    let found = tokens_of(alloc, line)?;
    if index >= found.tokens().len() {
        return Err(Fail::new("a row without the token"));
    }
    text_of(alloc, found.text(index))
}

/// The text of the token of this number.
pub fn token_text(alloc: Global, arguments: &str) -> Result<String, Fail> {
    let (index, line) = number_before(arguments)?;
    let line = unfolded(alloc, line)?;
    token_at(alloc, line.as_str().as_bytes(), index as usize)
}

/// The value of a number.
pub fn number_value(alloc: Global, arguments: &str) -> Result<String, Fail> {
    shown(alloc, number(unquoted(arguments).as_bytes()))
}

/// The value of decimal digits.
pub fn digits_value(alloc: Global, arguments: &str) -> Result<String, Fail> {
    shown(alloc, digits(10, unquoted(arguments).as_bytes()))
}

/// Whether a text is the number of a local label.
pub fn numbers_local_label(alloc: Global, arguments: &str) -> Result<String, Fail> {
    displayed(alloc, is_local_number(unquoted(arguments).as_bytes()))
}

/// The byte that is spelled at a place of a string or a character, and the place after it.
pub fn spelled_byte(alloc: Global, arguments: &str) -> Result<String, Fail> {
    let (at, text) = number_before(arguments)?;
    debugged(alloc, escaped(text.as_bytes(), at as usize))
}
