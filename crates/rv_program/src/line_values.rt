//! The values from which the code of a line is made.

ghost use Rattle.std.specs.Prelude.{◌≡◌, ◌≤◌, ◌<◌, ◌+◌, ◌^◌, length, IfOk, IsTrue, ◌↔◌};
ghost use Rattle.rv_stmt.specs.declared.directive.Definition.{Definition};
ghost use Rattle.rv_stmt.specs.declared.statement.Body.{Body};
ghost use Rattle.rv_stmt.specs.Statement.{operands_of};
ghost use Rattle.rv_program.specs.declared.limits.TheConstants.{MAX_LINES};
ghost use Rattle.rv_program.specs.Codes.{values_of_body, values_at};
ghost use Rattle.rv_program.specs.Program.{body_at};
ghost use Rattle.rv_program.specs.internal.Rows.{number_of};
ghost use Rattle.rv_program.specs.internal.SymbolRows.{AreSymbolRows};
ghost use Rattle.rv_program.specs.internal.TextRows.{program_in};
ghost use Rattle.rv_program.specs.internal.ValueRows.{AreValueRows, base_of, program_of_rows, body_in};
ghost use Rattle.rv_program.specs.internal.Work.{value_operands};

use crate::line_names::names_at;
use crate::names::entry_at;
use crate::symbol_rows::SymbolRows;
use crate::text_lines::{place_on, statement_on};
use crate::value_rows::{ValueRows, shape_on};
use rv_expr::ValueFault;
use rv_fix::{Entry, FixError, Values, is_same_entry, operand_values};
use rv_layout::{Measured, is_code};
use rv_list::DefinitionPlace;
use rv_stmt::Body;
use rv_text::Count;
use std::alloc::Global;

/// The values from which, with its statement and its shape, the code of a line is made.
pub enum LineValues {
    /// There are none: the shape of the line is a fault, or it is an `.equ` that is not the definition of its symbol.
    Nothing,
    /// The values of its operands.
    Operands(Values),
    /// The value of the symbol that it defines.
    Symbol(Entry),
    /// The padding of an alignment: whether it is in a section of code, and how many bytes it has.
    Padding(bool, u32),
}

// What a derive would do, but proved once, and not at each way out of a function that has values.
impl Drop for LineValues {
    fn drop(self) {
        match self {
            LineValues::Nothing | LineValues::Symbol(_) | LineValues::Padding(_, _) => {}
            LineValues::Operands(_) => {}
        }
    }
}

impl LineValues {
    /// Whether these are the same values.
    pub fn is_same(&self, other: &LineValues) -> bool
        ensures { IsTrue result ↔ (self.now ≡ other.now) }
    {
        match self {
            LineValues::Nothing => matches!(other, LineValues::Nothing),
            LineValues::Operands(values) => match other {
                LineValues::Operands(others) => values.is_same(others),
                _ => false,
            },
            LineValues::Symbol(entry) => match other {
                LineValues::Symbol(another) => is_same_entry(*entry, *another),
                _ => false,
            },
            LineValues::Padding(in_code, count) => match other {
                LineValues::Padding(other_in_code, other_count) => {
                    in_code == other_in_code && count == other_count
                }
                _ => false,
            },
        }
    }
}

/// The value of the symbol of the `.equ` on a line, if this defines it, by the symbol's number.
pub(crate) fn symbol_value(rows: &SymbolRows<'_>, number: Option<usize>, line: u32) -> LineValues
    requires rows { AreSymbolRows rows.now }
    requires first { 1 ≤ line }
    requires last { line ≤ length rows.now.text.lines.now }
    ensures { (d : Definition) → number_of rows.now.text.names.now d.symbol ≡ number → body_at (program_in rows.now.text) line ≡ Body.Equ d
        → result ≡ values_of_body rows.now.text.base (program_in rows.now.text) line (Body.Equ d) }
{
    let place = entry_at(rows.text.definitions, DefinitionPlace::Nowhere, number);
    let DefinitionPlace::Equ(equ) = place else {
        return LineValues::Nothing;
    };
    if equ != line {
        return LineValues::Nothing;
    }
    let value = entry_at(rows.equ_values, Err(ValueFault::LaterEqu), number);
    LineValues::Symbol(value)
}

// The values of a line whose shape is no fault.
fn values_of_body<C: Count>(
    alloc: Global,
    rows: &ValueRows<'_>,
    line: u32,
    counter: &mut C,
) -> Result<LineValues, FixError>
    requires rows { AreValueRows rows.now }
    requires first { 1 ≤ line }
    requires last { line ≤ length rows.now.symbols.text.lines.now }
    requires few { length rows.now.symbols.text.lines.now ≤ MAX_LINES }
    requires valued { C.valued_count counter.old + length (operands_of (body_in rows.now line)) < 2 ^ 64 }
    ensures values { IfOk result (λ v. v ≡ values_of_body (base_of rows.now) (program_of_rows rows.now) line (body_in rows.now line)) }
    ensures least { C.valued_count counter.old ≤ C.valued_count counter.new }
    ensures most { C.valued_count counter.new ≤ C.valued_count counter.old + value_operands (body_in rows.now line) }
    ensures parsed { C.parsed_count counter.new ≡ C.parsed_count counter.old }
    ensures encoded { C.encoded_count counter.new ≡ C.encoded_count counter.old }
{
    let stmt = statement_on(&rows.symbols.text, line);
    let place = place_on(&rows.symbols.text, line);
    match &stmt.body {
        Body::Align(_) => Ok(LineValues::Padding(is_code(place.section), place.size)),
        Body::Equ(definition) => {
            let number = rows.symbols.text.names.number(definition.symbol.bytes());
            Ok(symbol_value(&rows.symbols, number, line))
        }
        _ => {
            let names = names_at(
                &rows.symbols.text,
                rows.symbols.equ_values,
                rows.highs,
                line,
            );
            let values = operand_values(alloc, stmt, &names, place.address, counter)?;
            Ok(LineValues::Operands(values))
        }
    }
}

impl ValueRows<'_> {
    /// The values of a line.
    ///
    /// The counter's number of expressions computed rises by at most one for each operand of the line, and not at all for an
    /// `.equ`, whatever the outcome.
    ///
    /// # Errors
    ///
    /// `Memory` if there was no memory for the values.
    pub fn values<C: Count>(
        &self,
        alloc: Global,
        line: u32,
        counter: &mut C,
    ) -> Result<LineValues, FixError>
        requires rows { AreValueRows self.now }
        requires first { 1 ≤ line }
        requires last { line ≤ length self.now.symbols.text.lines.now }
        requires few { length self.now.symbols.text.lines.now ≤ MAX_LINES }
        requires valued { C.valued_count counter.old + length (operands_of (body_in self.now line)) < 2 ^ 64 }
        ensures values { IfOk result (λ v. v ≡ values_at (base_of self.now) (program_of_rows self.now) line) }
        ensures least { C.valued_count counter.old ≤ C.valued_count counter.new }
        ensures most { C.valued_count counter.new ≤ C.valued_count counter.old + value_operands (body_in self.now line) }
        ensures parsed { C.parsed_count counter.new ≡ C.parsed_count counter.old }
        ensures encoded { C.encoded_count counter.new ≡ C.encoded_count counter.old }
    {
        match shape_on(self, line) {
            Measured::Faulty(_) => Ok(LineValues::Nothing),
            _ => values_of_body(alloc, self, line, counter),
        }
    }
}
