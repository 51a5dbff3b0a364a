//! What stands before a place in a line: its statement, and which of its operands is there.

ghost use Rattle.std.specs.Prelude.{◌≡◌, ◌≤◌, length};
ghost use Rattle.rv_language.specs.NameUses.{at_beginning, before_of, depth_with, operand_with, statement_with, with_token};

use crate::comments::comment_in;
use crate::name_uses::{Expected, expected_after};
use rv_show::part;
use rv_text::{Token, TokenKind, tokens};
use std::alloc::{AllocError, Global};

/// What stands before a place in a line.
#[derive(Clone, Copy)]
pub struct Typed<'a> {
    /// What may come there.
    pub expected: Expected,
    /// The name of the instruction or the directive, if it stands before.
    pub statement: &'a [u8],
    /// The number of the operand, from 0 on.
    pub operand: usize,
    /// How many parentheses are open.
    pub depth: u32,
    /// Whether the operand begins there: nothing of it stands before the word but parentheses, or the `%` of a modifier.
    pub begins: bool,
    /// Where the word begins that ends at the place; with the `%` of a modifier.
    pub from: u32,
}

impl<'a> Typed<'a> {
    /// The beginning of a line, before which nothing stands.
    pub fn beginning() -> Typed<'a>
        ensures { before_of result ≡ at_beginning }
    {
        Typed {
            expected: Expected::Statement,
            statement: b"",
            operand: 0,
            depth: 0,
            begins: true,
            from: 0,
        }
    }

    // Whether an operand begins behind a token more.
    fn begins_behind(&self, text: &[u8]) -> bool {
        match text {
            b"," => self.depth == 0,
            b"(" | b"%" => self.begins,
            _ => matches!(self.expected, Expected::Statement),
        }
    }

    // The name of the statement with a token more.
    fn statement_with(&self, text: &'a [u8]) -> &'a [u8]
        ensures { result.now ≡ statement_with (before_of self.now) text.now }
    {
        if self.expected == Expected::Statement {
            text
        } else {
            self.statement
        }
    }

    // The number of the operand with a token more.
    fn operand_with(&self, text: &[u8]) -> usize
        ensures { result ≡ operand_with (before_of self.now) text.now }
    {
        if text == b",".as_slice() && self.depth == 0 {
            self.operand.saturating_add(1)
        } else {
            self.operand
        }
    }

    // How many parentheses are open with a token more.
    fn depth_with(&self, text: &[u8]) -> u32
        ensures { result ≡ depth_with (before_of self.now) text.now }
    {
        if text == b"(".as_slice() {
            self.depth.saturating_add(1)
        } else if text == b")".as_slice() {
            self.depth.saturating_sub(1)
        } else {
            self.depth
        }
    }

    /// What stands before a place with a token more.
    #[tactic(auto, unfolding(crate::specs::NameUses::with_token))]
    pub fn behind(self, token: &Token, text: &'a [u8]) -> Typed<'a>
        ensures { before_of result ≡ with_token (before_of self.entry) token.now.kind text.now }
    {
        Typed {
            expected: expected_after(self.expected, token.kind, text),
            statement: self.statement_with(text),
            operand: self.operand_with(text),
            depth: self.depth_with(text),
            begins: self.begins_behind(text),
            from: token.span.from,
        }
    }

    // The same with the place where a word begins there.
    fn with_word(self, from: u32) -> Typed<'a> {
        let from = if self.expected == Expected::Modifier {
            self.from
        } else {
            from
        };
        Typed { from, ..self }
    }
}

// What stands before the end of some bytes, of which these tokens are left after what was typed before. An identifier that ends there is the word that
// is typed.
fn typed_by<'a>(front: &'a [u8], mut left: &[Token], mut typed: Typed<'a>) -> Typed<'a> {
    'tokens: while let [token, later @ ..] = left {
        let is_last = token.span.to as usize == front.len();
        if is_last && token.kind == TokenKind::Identifier {
            return typed.with_word(token.span.from);
        }
        typed = typed.behind(token, part(front, token.span));
        left = later;
    }
    typed.with_word(u32::try_from(front.len()).unwrap_or(u32::MAX))
}

/// What stands before the end of the front of a line, if that is in no comment, and after no lexical fault. An operand that is a string, a character or
/// a number and is not complete there is no such fault.
///
/// # Errors
///
/// `AllocError` if there is no memory for the tokens.
pub fn typed_in(alloc: Global, front: &[u8]) -> Result<Option<Typed<'_>>, AllocError>
    requires { length front.now ≤ 1000 }
{
    let Ok(found) = tokens(alloc, front) else {
        return Err(AllocError);
    };
    if comment_in(front, &found).is_some() {
        return Ok(None);
    }
    let typed = typed_by(front, found.tokens(), Typed::beginning());
    let Some(fault) = found.fault() else {
        return Ok(Some(typed));
    };
    if typed.expected == Expected::Statement || (fault.span.to as usize) < front.len() {
        return Ok(None);
    }
    Ok(Some(Typed {
        expected: Expected::Sign,
        ..typed
    }))
}
