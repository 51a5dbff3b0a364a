//! Commas and comments that may be meant in a line with a fault.

ghost use Rattle.std.specs.Prelude.{◌≤◌, length};

use crate::broken_line::{BrokenLine, place};
use crate::fixes::Fixes;
use rv_show::{Text, bytes_from, part};
use rv_stmt::{Body, read_line};
use rv_text::{Span, Tally, Token, TokenKind};
use std::alloc::AllocError;

// Where a comma may be missing: after a token that stands beside the next one without a sign between them.
fn place_of_comma(token: &Token, later: &[Token]) -> Option<u32> {
    let [next, ..] = later else {
        return None;
    };
    if token.kind == TokenKind::Punctuation || next.kind == TokenKind::Punctuation {
        return None;
    }
    Some(token.span.to)
}

/// Adds the commas that are missing among the operands of a statement, all of them at once.
///
/// # Errors
///
/// `AllocError` if there is no memory for them.
pub fn add_commas(fixes: &mut Fixes, line: &BrokenLine<'_>) -> Result<(), AllocError> {
    let [_, operands @ ..] = line.tokens else {
        return Ok(());
    };
    let mut text = Text::new(line.alloc);
    let mut span: Option<Span> = None;
    let mut left = operands;
    'tokens: while let [token, later @ ..] = left {
        if let Some(to) = place_of_comma(token, later) {
            let before = span.unwrap_or(place(to));
            text.push(part(
                line.text,
                Span {
                    from: before.to,
                    to,
                },
            ))?;
            text.push(b",")?;
            span = Some(Span {
                from: before.from,
                to,
            });
        }
        left = later;
    }
    match span {
        Some(span) => fixes.add_text(span, text),
        None => Ok(()),
    }
}

// Adds the comment that a text from a place on may be meant as, unless another statement stands there.
fn add_after_semicolon(
    fixes: &mut Fixes,
    line: &BrokenLine<'_>,
    sign: Span,
) -> Result<(), AllocError>
    requires { length line.now.text.now ≤ 1000 }
{
    let comment = bytes_from(line.text, sign.to as usize);
    if comment.trim_ascii().is_empty() {
        return fixes.add(sign, &[]);
    }
    let Ok(stmt) = read_line(line.alloc, comment, &mut Tally::new()) else {
        return Err(AllocError);
    };
    match stmt.body {
        Body::Faulty(_) | Body::Empty => fixes.add(sign, &[b"#"]),
        _ => Ok(()),
    }
}

// Adds the comment that a text from `/*` on is, if it ends in that line.
fn add_after_star(fixes: &mut Fixes, line: &BrokenLine<'_>, from: u32) -> Result<(), AllocError> {
    let comment = bytes_from(line.text, from as usize).trim_ascii_end();
    let [b'/', b'*', inner @ .., b'*', b'/'] = comment else {
        return Ok(());
    };
    let to = from.saturating_add(u32::try_from(comment.len()).unwrap_or(0));
    fixes.add(Span { from, to }, &[b"#", inner.trim_ascii_end()])
}

/// Adds the comment that the end of a line may be meant as.
///
/// # Errors
///
/// `AllocError` if there is no memory for it.
pub fn add_comment(fixes: &mut Fixes, line: &BrokenLine<'_>) -> Result<(), AllocError>
    requires { length line.now.text.now ≤ 1000 }
{
    let mut left = line.tokens;
    'tokens: while let [token, later @ ..] = left {
        match part(line.text, token.span) {
            b";" => return add_after_semicolon(fixes, line, token.span),
            b"/" => add_after_star(fixes, line, token.span.from)?,
            _ => {}
        }
        left = later;
    }
    Ok(())
}
