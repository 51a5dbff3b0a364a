//! The values of the `.equ`s of a text.

ghost use Rattle.std.specs.Prelude.{◌≡◌, ◌≤◌, ◌<◌, ◌+◌, ◌^◌, ◌-◌, length, IfOk, map};
ghost use Rattle.rv_stmt.specs.declared.statement.Body.{Body};
ghost use Rattle.rv_program.specs.declared.limits.TheConstants.{MAX_LINES};
ghost use Rattle.rv_program.specs.Constants.{defined_value};
ghost use Rattle.rv_program.specs.Program.{body_at};
ghost use Rattle.rv_program.specs.internal.KeptEqus.{HasValuesThrough};
ghost use Rattle.rv_program.specs.internal.TextRows.{AreTextRows, AreEquValuesIn, program_in, references_through};
ghost use Rattle.rv_program.specs.internal.Work.{equ_operands, operands_through};

use crate::constants::defined_value;
use crate::definitions::defining_equ_on;
use crate::line_names::references_before;
use crate::line_search::{SearchPart, SearchedLines};
use crate::mask::Kind;
use crate::text_lines::place_on;
use crate::text_rows::TextRows;
use rv_expr::ValueFault;
use rv_fix::Entry;
use rv_stmt::Definition;
use rv_text::Count;
use std::alloc::{AllocError, Global};

// The value that the definition on a line gives its symbol, by those of the `.equ`s before it.
pub(crate) fn value_on<C: Count>(
    text: &TextRows<'_>,
    row: &[Entry],
    line: u32,
    definition: &Definition,
    counter: &mut C,
) -> Entry
    requires rows { AreTextRows text.now }
    requires values { HasValuesThrough text.now (line - 1) row.now }
    requires first { 1 ≤ line }
    requires last { line ≤ length text.now.lines.now }
    requires count { C.valued_count counter.old < 2 ^ 64 - 1 }
    ensures value { result ≡ defined_value (references_through text.now (line - 1) line) (Body.Equ definition.now) }
    ensures valued { C.valued_count counter.old ≤ C.valued_count counter.new }
    ensures valued_within { C.valued_count counter.new ≤ C.valued_count counter.old + 1 }
    ensures operands { C.valued_count counter.new ≤ C.valued_count counter.old + length definition.now.operands }
    ensures parsed { C.parsed_count counter.new ≡ C.parsed_count counter.old }
    ensures encoded { C.encoded_count counter.new ≡ C.encoded_count counter.old }
{
    let names = references_before(text, row, line);
    let here = place_on(text, line).address;
    defined_value(definition, &names, here, counter)
}

/// Goes from the values of the first `i` lines to those of one line more: if the next line has the `.equ` that defines its
/// symbol, the row gets its value. The counter's number of expressions computed rises by at most one.
pub fn settle_equ<C: Count>(text: &TextRows<'_>, i: usize, row: &mut Vec<Entry>, counter: &mut C)
    requires rows { AreTextRows text.now }
    requires within { i < length text.now.lines.now }
    requires few { length text.now.lines.now ≤ MAX_LINES }
    requires before { AreEquValuesIn text.now i row.old.items }
    requires as_many { length row.old.items ≡ length text.now.names.now }
    requires count { C.valued_count counter.old < 2 ^ 64 - 1 }
    ensures after { AreEquValuesIn text.now (i + 1) row.new.items }
    ensures as_many { length row.new.items ≡ length text.now.names.now }
    ensures valued { C.valued_count counter.old ≤ C.valued_count counter.new }
    ensures valued_within { C.valued_count counter.new ≤ C.valued_count counter.old + 1 }
    ensures operands { C.valued_count counter.new ≤ C.valued_count counter.old + equ_operands (body_at (program_in text.now) (i + 1)) }
    ensures parsed { C.parsed_count counter.new ≡ C.parsed_count counter.old }
    ensures encoded { C.encoded_count counter.new ≡ C.encoded_count counter.old }
{
    let line = i as u32 + 1;
    let read = text.lines.line(line);
    let Some((definition, number)) = defining_equ_on(read, line, text.names, text.definitions)
    else {
        return;
    };
    row[number] = value_on(text, row, line, definition, counter);
}

/// The values of the `.equ`s of a text, by the numbers of their names. `searched` has its lines. The counter's number of expressions computed
/// rises by at most the operands of the `.equ`s. Fails only where there is no memory, before anything is computed.
pub fn equ_values<C: Count>(
    alloc: Global,
    text: &TextRows<'_>,
    searched: &SearchedLines<'_>,
    counter: &mut C,
) -> Result<Vec<Entry>, AllocError>
    requires rows { AreTextRows text.now }
    requires searched { searched.now ≡ text.now.lines.now }
    requires few { length text.now.lines.now ≤ MAX_LINES }
    requires count { C.valued_count counter.old ≤ 2 ^ 63 + 2 ^ 32 }
    ensures values { IfOk result (λ row. AreEquValuesIn text.now (length text.now.lines.now) row.items) }
    ensures valued { C.valued_count counter.old ≤ C.valued_count counter.new }
    ensures valued_within { C.valued_count counter.new ≤ C.valued_count counter.old + length text.now.lines.now }
    ensures operands { C.valued_count counter.new ≤ C.valued_count counter.old + operands_through equ_operands (program_in text.now) (length text.now.lines.now) }
    ensures parsed { C.parsed_count counter.new ≡ C.parsed_count counter.old }
    ensures encoded { C.encoded_count counter.new ≡ C.encoded_count counter.old }
{
    let mut row = vec![in alloc; Err(ValueFault::LaterEqu); text.names.len()]?;
    let count = searched.len();
    let mut part = SearchPart::start();
    let mut i = searched.next_of_kind(&mut part, 0, Kind::Equ);
    while i < count {
        settle_equ(text, i, &mut row, counter);
        i = searched.next_of_kind(&mut part, i + 1, Kind::Equ);
    }
    Ok(row)
}
