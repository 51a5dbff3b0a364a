//! What the manual says of a word of a line.

use crate::named::touches;
use crate::names::text_of;
use crate::semantic_tokens::is_of_language;
use crate::typed::Typed;
use rv_list::{LineView, View};
use rv_manual::{Entry, entry_named};
use rv_show::{Text, part};
use rv_text::tokens;
use std::alloc::{AllocError, Global};

/// What the manual says of the name of an instruction or a directive, or of the register, at a place of a line, if one is there that it has.
///
/// # Errors
///
/// `AllocError` if there is no memory for the tokens of the line.
pub fn entry_at<V: View>(
    alloc: Global,
    view: &V,
    line: &LineView<'_>,
    at: usize,
) -> Result<Option<Entry>, AllocError> {
    let text = text_of(line);
    let Ok(found) = tokens(alloc, text) else {
        return Err(AllocError);
    };
    let mut labels = line.stmt.labels.len().saturating_mul(2);
    let mut typed = Typed::beginning();
    let mut left = found.tokens();
    'tokens: while let [token, later @ ..] = left {
        let bytes = part(text, token.span);
        if labels == 0
            && touches(token.span, at)
            && is_of_language(view, &line.stmt.body, &typed, token, bytes)
        {
            return Ok(entry_named(bytes));
        }
        labels = labels.saturating_sub(1);
        typed = typed.behind(token, bytes);
        left = later;
    }
    Ok(None)
}

/// Appends what a word means, and where that is defined.
///
/// # Errors
///
/// `AllocError` if there is no memory for it.
pub fn push_entry(text: &mut Text, entry: &Entry) -> Result<(), AllocError> {
    text.push(entry.sentence.as_bytes())?;
    text.push(b"\n")?;
    text.push(entry.source.text().as_bytes())
}
