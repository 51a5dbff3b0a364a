//! Places in a text: lines by their numbers, and the places of names.

ghost use Rattle.std.specs.Prelude.{◌≡◌, ◌++◌, ◌≤◌, None, length, IfSome, OnOk};
ghost use Rattle.rv_language.specs.Names.{location, name_range};

use rv_diagnostics::{Context, Message, column_at, put_range};
use rv_doc::Encoding;
use rv_list::{LineSource, View};
use rv_text::Span;
use std::alloc::AllocError;

/// The lines of a text, passed up to one of them, by its number from 1 on, if there is one.
pub fn lines_to<V: View>(view: &V, number: u32) -> Option<V::Lines>
    ensures text { IfSome result (λ l. V.Lines.shown l ≡ V.shown view.now) }
    ensures passed { IfSome result (λ l. V.Lines.passed l ≡ number) }
    ensures first { IfSome result (λ l. 1 ≤ number) }
    ensures last { IfSome result (λ l. number ≤ (V.shown view.now).count) }
    ensures found { 1 ≤ number → number ≤ (V.shown view.now).count → result ≡ None → ⊥ }
{
    if number == 0 || number > view.line_count() {
        return None;
    }
    let mut lines = view.lines();
    for k in 0..number {
        lines.advance();
    }
    Some(lines)
}

/// Writes where a name stands in a line, by its number from 1 on.
#[tactic(auto, unfolding(crate::specs::Names::name_range))]
pub fn put_name_range(
    m: &mut Message,
    encoding: Encoding,
    number: u32,
    text: &[u8],
    span: Span,
) -> Result<(), AllocError>
    requires { length text.now ≤ 1000 }
    ensures { OnOk result (m.new ≡ m.old ++ name_range encoding number text.now span) }
{
    let from = column_at(encoding, text, span.from);
    let to = column_at(encoding, text, span.to);
    put_range(m, number.saturating_sub(1), from, to)
}

/// Writes the place of a name, in a line by its number from 1 on.
#[tactic(auto, unfolding(crate::specs::Names::location))]
pub fn put_location(
    m: &mut Message,
    context: &Context<'_>,
    number: u32,
    text: &[u8],
    span: Span,
) -> Result<(), AllocError>
    requires { length text.now ≤ 1000 }
    ensures { OnOk result (m.new ≡ m.old ++ location context.now.encoding context.now.uri.now number text.now span) }
{
    m.begin_object()?;
    m.put_string("uri", context.uri)?;
    m.key("range")?;
    put_name_range(m, context.encoding, number, text, span)?;
    m.end_object()
}
