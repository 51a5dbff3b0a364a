//! What is kept of a line that an edit invalidates is made anew.

ghost use Rattle.std.specs.Prelude.{◌≡◌, ◌≤◌, ◌<◌, ◌+◌, ◌-◌, ◌^◌, true, false, length, unwrap_or, None, Ok, IfOk, IfErr};
ghost use Rattle.rv_program.specs.Codes.{values_at};
ghost use Rattle.rv_program.specs.Counted.{counts_of};
ghost use Rattle.rv_program.specs.Edits.{edit_of};
ghost use Rattle.rv_program.specs.Layout.{shape_at};
ghost use Rattle.rv_program.specs.Program.{program_of};
ghost use Rattle.rv_program.specs.internal.Former.{IsFormer};
ghost use Rattle.rv_program.specs.internal.Items.{IsItem};
ghost use Rattle.rv_program.specs.internal.Renewals.{AreCounted, AreListed};
ghost use Rattle.rv_program.specs.internal.Revisions.{edited_text, revised_lines, invalidates, reencodes, changes, IsRevised};
ghost use Rattle.rv_program.specs.internal.ValueRows.{base_of};

use crate::edit_error::EditError;
use crate::item::Item;
use crate::line_values::LineValues;
use crate::revision::Revision;
use crate::text_lines::operands_are_few_on;
use crate::value_rows::{ValueRows, shape_on};
use rv_layout::Measured;
use rv_text::Count;
use std::alloc::{AllocError, Global};

// Whether a line is new, or has other values or another shape than it had.
fn is_reencoded(
    revision: &Revision<'_, '_>,
    line: u32,
    former: &Item,
    values: &LineValues,
    shape: Measured,
) -> bool
    requires last { line < 2 ^ 32 - 1 }
    requires former { IsFormer revision.now.base revision.now.lines.now (edit_of revision.now.edit) line former.now }
    requires values { values.now ≡ values_at revision.now.base (program_of (revised_lines (edited_text revision.now))) line }
    requires shape { shape ≡ shape_at (program_of (revised_lines (edited_text revision.now))) line }
    ensures { result ≡ reencodes (edited_text revision.now) line }
{
    if revision.edit.line_before(line).is_none() {
        return true;
    }
    !values.is_same(&former.values) || shape != former.shape
}

/// A line anew that an edit invalidates, or `None` where it keeps the item that it had, since its values and its shape are
/// what they were. No more is counted than the line may take. It stays a call: a pass calls it for few of the items that it visits.
#[inline(never)]
pub fn renewed<C: Count>(
    alloc: Global,
    revision: &Revision<'_, '_>,
    rows: &ValueRows<'_>,
    line: u32,
    former: &Item,
    counter: &mut C,
) -> Result<Option<Item>, EditError>
    requires revised { IsRevised (edited_text revision.now) rows.now }
    requires first { 1 ≤ line }
    requires last { line ≤ length rows.now.symbols.text.lines.now }
    requires invalidated { invalidates (edited_text revision.now) line ≡ true }
    requires former { IsFormer revision.now.base revision.now.lines.now (edit_of revision.now.edit) line former.now }
    requires valued { C.valued_count counter.old + 1000 < 2 ^ 64 }
    requires encoded { C.encoded_count counter.old < 2 ^ 64 - 1 }
    ensures item { IfOk result (λ item. IsItem (base_of rows.now) rows.now.symbols.text.lines.now line (unwrap_or item former.now)) }
    ensures kept { result ≡ Ok None → reencodes (edited_text revision.now) line ≡ false }
    ensures memory { IfErr result (λ e. e ≡ EditError.Memory) }
    ensures counted { AreCounted (edited_text revision.now) (line - 1) line (counts_of C.parsed_count C.valued_count C.encoded_count counter.old) (counts_of C.parsed_count C.valued_count C.encoded_count counter.new) }
{
    operands_are_few_on(&rows.symbols.text, line);
    let values = rows.values(alloc, line, counter)?;
    let shape = shape_on(rows, line);
    if !is_reencoded(revision, line, former, &values, shape) {
        return Ok(None);
    }
    let code = rows.code(alloc, line, &values, counter)?;
    let line = rows.symbols.text.lines.line(line);
    Ok(Some(Item {
        line: line.share()?,
        shape,
        values,
        code,
    }))
}

// Whether a line is new or has another code than it had.
fn is_changed(revision: &Revision<'_, '_>, line: u32, former: &Item, item: &Item) -> bool
    requires last { line < 2 ^ 32 - 1 }
    requires former { IsFormer revision.now.base revision.now.lines.now (edit_of revision.now.edit) line former.now }
    requires item { IsItem revision.now.base (revised_lines (edited_text revision.now)) line item.now }
    ensures { result ≡ changes (edited_text revision.now) line }
{
    if revision.edit.line_before(line).is_none() {
        return true;
    }
    !item.code.is_same(&former.code)
}

/// Adds a line to the changed ones if it is new or has another code than it had.
pub fn add_changed(
    revision: &Revision<'_, '_>,
    line: u32,
    former: &Item,
    item: &Item,
    changed: &mut Vec<u32>,
) -> Result<(), AllocError>
    requires first { 1 ≤ line }
    requires last { line < 2 ^ 32 - 1 }
    requires former { IsFormer revision.now.base revision.now.lines.now (edit_of revision.now.edit) line former.now }
    requires item { IsItem revision.now.base (revised_lines (edited_text revision.now)) line item.now }
    ensures { IfOk result (λ _. AreListed (edited_text revision.now) (line - 1) line changed.old.items changed.new.items) }
{
    if is_changed(revision, line, former, item) {
        changed.push(line)?;
    }
    Ok(())
}
