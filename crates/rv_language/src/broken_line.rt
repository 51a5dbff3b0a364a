//! A line with a fault, for which changes are looked for.

use rv_show::part;
use rv_text::{Fault, Span, Token, TokenKind};
use std::alloc::{AllocError, Global};

/// A line with a fault, and the tokens of its statement, which stand after the labels.
#[derive(Clone, Copy)]
pub struct BrokenLine<'a> {
    pub alloc: Global,
    pub text: &'a [u8],
    pub fault: Fault,
    pub tokens: &'a [Token],
}

/// An empty place of a line.
pub fn place(at: u32) -> Span {
    Span { from: at, to: at }
}

impl<'a> BrokenLine<'a> {
    /// The bytes at the fault.
    pub fn wrong(&self) -> &'a [u8] {
        part(self.text, self.fault.span)
    }

    /// Where the name of the statement stands; an empty place at the beginning of a line without one.
    pub fn name_span(&self) -> Span {
        match self.tokens {
            [name, ..] if name.kind == TokenKind::Identifier => name.span,
            _ => place(0),
        }
    }

    /// The name of the statement.
    pub fn name(&self) -> &'a [u8] {
        part(self.text, self.name_span())
    }

    /// Where the whole statement stands.
    pub fn statement_span(&self) -> Span {
        let name = self.name_span();
        match self.tokens {
            [.., last] => Span {
                from: name.from,
                to: last.span.to,
            },
            [] => name,
        }
    }

    /// The operands of the statement, as they are written.
    ///
    /// # Errors
    ///
    /// `AllocError` if there is no memory for them.
    pub fn operand_spans(&self) -> Result<Vec<Span>, AllocError> {
        let mut spans = Vec::new(self.alloc);
        let (_, mut left) = self.tokens.split_at(self.tokens.len().min(1));
        let mut depth = 0u32;
        let mut operand: Option<Span> = None;
        'tokens: while let [token, later @ ..] = left {
            let text = part(self.text, token.span);
            match text {
                b"(" => depth = depth.saturating_add(1),
                b")" => depth = depth.saturating_sub(1),
                _ => {}
            }
            if depth == 0 && text == b",".as_slice() {
                spans.push(operand.unwrap_or(place(token.span.from)))?;
                operand = None;
            } else {
                operand = Some(Span {
                    from: operand.unwrap_or(token.span).from,
                    to: token.span.to,
                });
            }
            left = later;
        }
        if let Some(span) = operand {
            spans.push(span)?;
        }
        Ok(spans)
    }
}
