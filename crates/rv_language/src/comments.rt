//! Where lines end, and their comments.

use rv_doc::without_return;
use rv_show::{bytes_from, first_bytes};
use rv_text::{Span, Tokens};

/// How many bytes stand before the end of a line, and the carriage return that belongs to it.
pub fn end_of(text: &[u8]) -> usize {
    without_return(text).len()
}

/// Whether a place is between the two bytes of the sign `//`.
pub fn is_in_sign(text: &[u8], at: usize) -> bool {
    first_bytes(text, at).ends_with(b"/") && bytes_from(text, at).starts_with(b"/")
}

/// The comment of a line, without the carriage return that belongs to the end of the line.
pub fn comment_in(text: &[u8], found: &Tokens<'_>) -> Option<Span> {
    if found.fault().is_some() {
        return None;
    }
    let end = match found.tokens().last() {
        Some(token) => token.span.to,
        None => 0,
    };
    let rest = bytes_from(text, end as usize);
    let at = rest.iter().position(|byte| !byte.is_ascii_whitespace())?;
    Some(Span {
        from: end.saturating_add(u32::try_from(at).ok()?),
        to: u32::try_from(end_of(text)).ok()?,
    })
}
