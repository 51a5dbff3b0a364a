//! The rows from which the values of lines are computed.

ghost use Rattle.std.specs.Prelude.{◌≡◌, ◌≤◌, length};
ghost use Rattle.rv_program.specs.Layout.{shape_at};
ghost use Rattle.rv_program.specs.internal.ValueRows.{AreValueRows, program_of_rows};

use crate::symbol_rows::SymbolRows;
use rv_fix::Entry;
use rv_layout::Measured;

/// A text with the rows from which the values of its lines are computed.
#[derive(Clone, Copy)]
pub struct ValueRows<'a> {
    pub symbols: SymbolRows<'a>,
    /// The shapes of the lines.
    pub shapes: &'a [Measured],
    /// The high halves that `%pcrel_lo` takes, by the lines of the labels.
    pub highs: &'a [Entry],
}

/// The shape of a line.
#[tactic(auto, using(crate::specs::lemmas::TextLines::shape_of_line, crate::specs::lemmas::TextLines::length_of_shapes))]
pub fn shape_on(rows: &ValueRows<'_>, line: u32) -> Measured
    requires rows { AreValueRows rows.now }
    requires first { 1 ≤ line }
    requires last { line ≤ length rows.now.symbols.text.lines.now }
    ensures { result ≡ shape_at (program_of_rows rows.now) line }
{
    rows.shapes[line as usize - 1]
}
