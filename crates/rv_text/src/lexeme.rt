//! What a line is cut into.

use crate::faults::FaultNumber;

/// The most bytes that a line of a program may have.
pub const MAX_LINE_LENGTH: usize = 1000;

/// The bytes of a line from the place `from` up to, and without, the place `to`, counted from 0.
#[derive(Clone, Copy, Debug, PartialEq, Eq)]
pub struct Span {
    pub from: u32,
    pub to: u32,
}

/// The six kinds of tokens.
#[derive(Clone, Copy, Debug, PartialEq, Eq)]
pub enum TokenKind {
    /// A letter, `_`, `.` or `$`, and then letters, digits and these.
    Identifier,
    /// A number: decimal without a leading zero, or `0` and octal digits, `0x` and hexadecimal ones, `0b` and binary ones.
    Number,
    /// A reference to a local label: its number, and then `b` or `f`.
    Local,
    /// A string between two `"`.
    Str,
    /// A character between two `'`.
    Char,
    /// `<<`, `>>`, or one visible byte that begins no other token.
    Punctuation,
}

/// A token, by its kind and its place in the line.
#[derive(Clone, Copy, Debug, PartialEq, Eq)]
pub struct Token {
    pub kind: TokenKind,
    pub span: Span,
}

/// What some bytes begin with.
#[derive(Clone, Copy, Debug, PartialEq, Eq)]
pub enum Prefix {
    /// One byte of whitespace.
    Whitespace,
    /// A comment, which runs to the end of the line.
    Comment,
    /// A token, and how many bytes it has.
    Lexeme(TokenKind, usize),
    /// A lexical fault, and how many bytes it covers.
    Wrong(FaultNumber, usize),
}
