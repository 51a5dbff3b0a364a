//! The name at a position.

ghost use Rattle.std.specs.Prelude.{◌≡◌, ◌≤◌, length, option_map, IfOk};
ghost use Rattle.rv_list.specs.Shown.{shown_line};
ghost use Rattle.rv_language.specs.NamesAt.{first_touched, name_at, seen_of, touches};
ghost use Rattle.rv_language.specs.References.{without_letter};

use crate::meaning::{Meaning, Written, as_written, meaning_of};
use crate::names::{NameSpan, names_in, text_of};
use rv_doc::{Encoding, before_column};
use rv_list::{LineView, View};
use rv_show::part;
use rv_text::Span;
use std::alloc::{AllocError, Global};

/// A name of a line: what it means, and where it stands, without the letter of a reference to a local label.
#[derive(Clone, Copy)]
pub struct Named<'a> {
    pub meaning: Meaning<'a>,
    pub span: Span,
}

/// Whether a place is in a span. One that ends there counts.
pub fn touches(span: Span, at: usize) -> bool
    ensures { result ≡ touches at span }
{
    span.from as usize <= at && at <= span.to as usize
}

// The first name that a place touches.
fn touched(mut names: &[NameSpan], at: usize) -> Option<NameSpan>
    ensures { result ≡ first_touched at names.entry.now }
{
    'names: while let [name, later @ ..] = names {
        if touches(name.span, at) {
            return Some(*name);
        }
        names = later;
    }
    None
}

/// Where a name of a line stands without the letter of a reference to a local label.
pub fn without_letter(text: &[u8], span: Span) -> Span
    ensures { result ≡ without_letter text.now span }
{
    match as_written(part(text, span)) {
        Some(Written::Back(_) | Written::Forward(_)) => Span {
            from: span.from,
            to: span.to.saturating_sub(1),
        },
        _ => span,
    }
}

/// The name at a column of a line, if there is one and it means something. The line has this number, from 1 on.
///
/// # Errors
///
/// `AllocError` if there is no memory for the names of the line.
#[tactic(auto, unfolding(crate::specs::NamesAt::name_at))]
pub fn name_at<'a, V: View>(
    alloc: Global,
    encoding: Encoding,
    view: &V,
    number: u32,
    line: &LineView<'a>,
    column: u32,
) -> Result<Option<Named<'a>>, AllocError>
    requires { length line.now.stmt.now.labels ≤ 1000 }
    ensures { IfOk result (λ found. option_map seen_of found ≡ name_at encoding (V.shown view.now) number (shown_line line.now) column) }
{
    let text = text_of(line);
    let names = names_in(alloc, line)?;
    let at = before_column(encoding, text, column);
    let Some(name) = touched(names.as_slice(), at) else {
        return Ok(None);
    };
    let Some(written) = as_written(part(text, name.span)) else {
        return Ok(None);
    };
    let Some(meaning) = meaning_of(view, number, written) else {
        return Ok(None);
    };
    let span = without_letter(text, name.span);
    Ok(Some(Named { meaning, span }))
}
