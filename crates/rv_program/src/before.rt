//! A text before an edit.

ghost use Rattle.std.specs.Prelude.{◌≡◌};
ghost use Rattle.rv_program.specs.internal.Revisions.{edited_before, edited_text};

use crate::edit::LineEdit;
use crate::revision::Revision;
use crate::symbol_rows::SymbolRows;
use rv_fix::Entry;
use rv_layout::Measured;

/// A text before an edit, with what is kept of it, and the edit.
#[derive(Clone, Copy)]
pub struct Before<'a, 'e> {
    pub edit: LineEdit<'e>,
    pub symbols: SymbolRows<'a>,
    /// The shapes of the lines.
    pub shapes: &'a [Measured],
    /// The high halves that `%pcrel_lo` takes, by the lines of the labels.
    pub highs: &'a [Entry],
}

impl<'a, 'e> Before<'a, 'e> {
    /// The text and the edit alone.
    pub fn revision(&self) -> Revision<'a, 'e>
        ensures { edited_text result ≡ edited_before self.now }
    {
        let text = &self.symbols.text;
        Revision {
            base: text.base,
            lines: text.lines,
            edit: self.edit,
        }
    }
}
