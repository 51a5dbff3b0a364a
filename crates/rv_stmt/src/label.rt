//! Labels.

use rv_text::Span;

/// What a label defines.
#[derive(Clone, Copy)]
pub enum LabelName<'a> {
    /// A symbol.
    Symbol(&'a [u8]),
    /// A local label, by its number.
    Local(u16),
}

/// A label; the span is that of its name, without the `:`.
#[derive(Clone, Copy)]
pub struct Label<'a> {
    pub name: LabelName<'a>,
    pub span: Span,
}
