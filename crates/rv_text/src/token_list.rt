//! The tokens of a line, with their texts.

ghost use Rattle.std.specs.Prelude.{◌≡◌, ◌<◌, length, slice_index_or};
ghost use Rattle.rv_text.specs.declared.lexeme.Token.{Token};
ghost use Rattle.rv_text.specs.declared.token_list.TextError.TheVariants.{Memory};
ghost use Rattle.rv_text.specs.Lexing.{text_at, SpansFit};

use crate::faults::Fault;
use crate::lexeme::Token;
use std::alloc::{AllocError, AllocFailed};
use std::marker::Model;
use thiserror::Error;

/// Why a call that takes memory was refused.
#[derive(Clone, Copy, Debug, PartialEq, Eq, Drop, Error)]
pub enum TextError {
    /// There was no memory for what the call had to keep.
    #[error("out of memory")]
    Memory,
}

impl TextError {
    /// The number of the refusal, 1.
    pub fn number(self) -> u8
        ensures { result ≡ 1 }
    {
        match self {
            TextError::Memory => 1,
        }
    }
}

impl From<AllocError> for TextError {
    ghost from_gives = { λ _ e. e ≡ Memory };

    fn from(_error: AllocError) -> Self {
        TextError::Memory
    }
}

impl<T: Drop> From<AllocFailed<T>> for TextError {
    ghost from_gives = { λ _ e. e ≡ Memory };

    fn from(_error: AllocFailed<T>) -> Self {
        TextError::Memory
    }
}

/// The tokens of a line, which it lends, and the lexical fault at which they end, if there is one. Contracts see a
/// record of the line's bytes, the tokens and the fault.
#[derive(Drop)]
pub struct Tokens<'a> {
    line: &'a [u8],
    found: Vec<Token>,
    wrong: Option<Fault>,
}

impl<'a> Model for Tokens<'a> {
    ghost use Rattle.rv_text.specs.Lexing.{LexedLine, SpansFit};

    ghost Value = { LexedLine };

    ghost view = { λ t. record { line = t.line.now; tokens = t.found.items; fault = t.wrong } };

    ghost invariant = { λ t. SpansFit t.line.now t.found.items };
}

impl<'a> Tokens<'a> {
    // Tokens whose spans lie in the line.
    pub(crate) fn new(line: &'a [u8], found: Vec<Token>, wrong: Option<Fault>) -> Self
        requires { SpansFit line.now found.items }
        ensures { result ≡ record { line = line.now; tokens = found.items; fault = wrong } }
    {
        Tokens { line, found, wrong }
    }

    /// The tokens, in order.
    pub fn tokens(&self) -> &[Token]
        ensures { result.now ≡ self.now.tokens }
    {
        self.found.as_slice()
    }

    /// The lexical fault at which the tokens end.
    pub fn fault(&self) -> Option<Fault>
        ensures { result ≡ self.now.fault }
    {
        self.wrong
    }

    /// The bytes of the line that the token number `k`, counted from 0, covers.
    pub fn text(&self, k: usize) -> &'a [u8]
        requires { k < length self.now.tokens }
        ensures { (d : Token) → result.now ≡ text_at self.now.line (slice_index_or self.now.tokens k d).span }
    {
        let span = self.found[k].span;
        &self.line[span.from as usize..span.to as usize]
    }
}
