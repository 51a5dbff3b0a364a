//! How a line is cut into tokens.

ghost use Rattle.std.specs.Prelude.{◌≡◌, ◌≤◌, ◌<◌, ◌+◌, IfOk, IfSome, length};
ghost use Rattle.std.specs.Char.{is_ascii_alphanumeric};
ghost use Rattle.std.specs.List.{prefix_len};
ghost use Rattle.rv_text.specs.Bytes.{is_identifier_byte};
ghost use Rattle.rv_text.specs.Lexing.{prefix, quoted, FitsIn, SpansFit, lexed_line, numeral, begins_comment, begins_shift};

use crate::classes::{is_identifier_byte, is_identifier_start, is_punctuation_byte, is_whitespace};
use crate::faults::{Fault, FaultNumber};
use crate::lexeme::{MAX_LINE_LENGTH, Prefix, Span, Token, TokenKind};
use crate::numerals::{is_local, number};
use crate::strings::{char_len, string_len};
use crate::token_list::{TextError, Tokens};
use std::alloc::Global;

// Whether a comment begins here.
fn begins_comment(bytes: &[u8]) -> bool
    ensures { result ≡ begins_comment bytes.now }
{
    matches!(bytes, [b'#', ..] | [b'/', b'/', ..])
}

// Whether a sign of two bytes begins here.
fn begins_shift(bytes: &[u8]) -> bool
    ensures { result ≡ begins_shift bytes.now }
{
    matches!(bytes, [b'<', b'<', ..] | [b'>', b'>', ..])
}

// How long the prefix of bytes is that may stand in an identifier.
#[tactic(auto, using(crate::proofs::Runs::run_steps))]
fn identifier_len(bytes: &[u8]) -> usize
    ensures { result ≡ prefix_len is_identifier_byte bytes.now }
{
    let mut n = 0;
    while n < bytes.len() && is_identifier_byte(bytes[n]) {
        n += 1;
    }
    n
}

// How long the prefix of digits and letters is.
#[tactic(auto, using(crate::proofs::Runs::run_steps))]
fn alphanumeric_len(bytes: &[u8]) -> usize
    ensures { result ≡ prefix_len is_ascii_alphanumeric bytes.now }
{
    for (n, b) in bytes.iter().enumerate() {
        if !b.is_ascii_alphanumeric() {
            return n;
        }
    }
    bytes.len()
}

// The prefix of digits and letters: a number, a local label, or wrong.
#[tactic(auto, using(crate::proofs::Runs::run_steps))]
fn numeral(bytes: &[u8]) -> Prefix
    requires { 0 < prefix_len is_ascii_alphanumeric bytes.now }
    ensures exact { result ≡ numeral bytes.now }
    ensures fits { FitsIn (length bytes.now) result }
{
    let len = alphanumeric_len(bytes);
    let run = &bytes[..len];
    if number(run).is_some() {
        Prefix::Lexeme(TokenKind::Number, len)
    } else if is_local(run) {
        Prefix::Lexeme(TokenKind::Local, len)
    } else {
        Prefix::Wrong(FaultNumber::BadNumber, len)
    }
}

// A string or a character of which `len` bytes stand after its first quote; wrong up to the end of the line where it
// has no such end. `left` is how many bytes there are with that quote.
fn quoted(kind: TokenKind, len: Option<usize>, left: usize) -> Prefix
    requires some { IfSome len (λ n. n < left) }
    requires left { 1 ≤ left }
    ensures exact { result ≡ quoted kind len left }
    ensures fits { FitsIn left result }
{
    match len {
        Some(n) => Prefix::Lexeme(kind, n + 1),
        None => Prefix::Wrong(FaultNumber::BadString, left),
    }
}

// What the bytes begin with.
#[tactic(auto, using(crate::proofs::Runs::run_steps))]
fn prefix(bytes: &[u8]) -> Prefix
    ensures exact { result ≡ prefix bytes.now }
    ensures fits { FitsIn (length bytes.now) result }
{
    let Some(first) = bytes.first().copied() else {
        return Prefix::Comment;
    };
    if is_whitespace(first) {
        Prefix::Whitespace
    } else if begins_comment(bytes) {
        Prefix::Comment
    } else if is_identifier_start(first) {
        Prefix::Lexeme(TokenKind::Identifier, identifier_len(bytes))
    } else if first.is_ascii_digit() {
        numeral(bytes)
    } else if first == b'"' {
        quoted(TokenKind::Str, string_len(&bytes[1..]), bytes.len())
    } else if first == b'\'' {
        quoted(TokenKind::Char, char_len(&bytes[1..]), bytes.len())
    } else if begins_shift(bytes) {
        Prefix::Lexeme(TokenKind::Punctuation, 2)
    } else if is_punctuation_byte(first) {
        Prefix::Lexeme(TokenKind::Punctuation, 1)
    } else {
        Prefix::Wrong(FaultNumber::BadByte, 1)
    }
}

// The `len` bytes from a place on.
fn span_at(at: usize, len: usize) -> Span
    requires { at + len ≤ MAX_LINE_LENGTH }
    ensures { result ≡ record { from = at; to = at + len } }
{
    Span {
        from: at as u32,
        to: (at + len) as u32,
    }
}

/// The tokens of a line of at most [`MAX_LINE_LENGTH`] bytes, each the longest that begins at its place, up to the end,
/// to a comment, or to the leftmost lexical fault. They are no more than the line's bytes, and their spans are ranges of
/// it. The only error is out of memory, for the list of tokens.
pub fn tokens(alloc: Global, line: &[u8]) -> Result<Tokens<'_>, TextError>
    requires { length line.now ≤ MAX_LINE_LENGTH }
    ensures exact { IfOk result (λ t. t ≡ lexed_line line.now) }
    ensures few { IfOk result (λ t. length t.tokens ≤ length line.now) }
    ensures fit { IfOk result (λ t. SpansFit line.now t.tokens) }
{
    let mut found = Vec::new(alloc);
    let mut at = 0;
    while at < line.len() {
        match prefix(&line[at..]) {
            Prefix::Whitespace => at += 1,
            Prefix::Comment => return Ok(Tokens::new(line, found, None)),
            Prefix::Lexeme(kind, len) => {
                let span = span_at(at, len);
                found.push(Token { kind, span })?;
                at += len;
            }
            Prefix::Wrong(number, len) => {
                let span = span_at(at, len);
                return Ok(Tokens::new(line, found, Some(Fault { number, span })));
            }
        }
    }
    Ok(Tokens::new(line, found, None))
}
