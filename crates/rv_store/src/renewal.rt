//! What is kept of the lines that are due after an edit is made anew.

ghost use Rattle.std.specs.Prelude.{◌≡◌, ◌≤◌, ◌<◌, ◌+◌, ◌-◌, ◌*◌, ◌^◌, None, true, length, IfOk, IfErr};
ghost use Rattle.rv_program.specs.declared.limits.TheConstants.{MAX_LINES};
ghost use Rattle.rv_program.specs.Counted.{counts_of};
ghost use Rattle.rv_program.specs.Edits.{edit_of, line_before_edit};
ghost use Rattle.rv_program.specs.Program.{program_of};
ghost use Rattle.rv_program.specs.Text.{refusal_of, lines_after};
ghost use Rattle.rv_program.specs.internal.Differing.{HasDiffering};
ghost use Rattle.rv_program.specs.internal.Former.{AreFormer};
ghost use Rattle.rv_program.specs.internal.Items.{IsItem, AreItems};
ghost use Rattle.rv_program.specs.internal.Lines.{lines_of};
ghost use Rattle.rv_program.specs.internal.Renewals.{changed_through, AreCounted, AreCountedRenewed, AreListed};
ghost use Rattle.rv_program.specs.internal.Revisions.{edited_text, IsRevised};
ghost use Rattle.rv_program.specs.internal.ValueRows.{base_of};
ghost use Rattle.rv_store.specs.internal.Renewed.{edited_by, AreItemsLeft, ArePut};
ghost use Rattle.rv_store.specs.internal.Surveys.{IsSurvey};
ghost use Rattle.rv_store.specs.internal.Unmoved.{AreUnmoved};

use crate::changed::Changed;
use crate::survey::Survey;
use rv_program::{
    EditError, Item, LineEdit, Lines, NameSet, NameTable, Revision, SearchedLines, ValueRows,
    due_lines, renewed, renewed_in_one_pass,
};
use rv_text::Count;
use rv_tree::SumTree;
use std::alloc::Global;

// The last line of a text, which an edit puts in. It is added to the changed lines.
fn line_behind<C: Count>(
    alloc: Global,
    revision: &Revision<'_, '_>,
    rows: &ValueRows<'_>,
    line: u32,
    changed: &mut Vec<u32>,
    counter: &mut C,
) -> Result<Item, EditError>
    requires revised { IsRevised (edited_text revision.now) rows.now }
    requires first { 1 ≤ line }
    requires last { line ≤ length rows.now.symbols.text.lines.now }
    requires new { line_before_edit (edit_of revision.now.edit) line ≡ None }
    requires valued { C.valued_count counter.old + 1000 < 2 ^ 64 }
    requires encoded { C.encoded_count counter.old < 2 ^ 64 - 1 }
    ensures item { IfOk result (λ item. IsItem (base_of rows.now) rows.now.symbols.text.lines.now line item) }
    ensures listed { IfOk result (λ _. AreListed (edited_text revision.now) (line - 1) line changed.old.items changed.new.items) }
    ensures memory { IfErr result (λ e. e ≡ EditError.Memory) }
    ensures counted { AreCounted (edited_text revision.now) (line - 1) line (counts_of C.parsed_count C.valued_count C.encoded_count counter.old) (counts_of C.parsed_count C.valued_count C.encoded_count counter.new) }
{
    let entered = Item::entered(rows.symbols.text.lines.line(line).share()?);
    let item = match renewed(alloc, revision, rows, line, &entered, counter)? {
        Some(item) => item,
        None => entered,
    };
    changed.push(line)?;
    Ok(item)
}

/// The items of a text after an edit, and which of its lines are new or have another code. `items` has an item for each line, which keeps
/// what was kept of the line before the edit, but maybe none for the last one, where the edit puts that in. `due` are those of their lines
/// that are due.
///
/// The counter's number of expressions computed rises by at most the operands of the lines that the edit invalidates, and its number of
/// lines encoded by at most those that are new or have other values or another shape, whatever the outcome.
///
/// # Errors
///
/// `Memory` if there was no memory for what is kept.
pub fn items_passed<C: Count>(
    alloc: Global,
    revision: &Revision<'_, '_>,
    rows: &ValueRows<'_>,
    items: &SumTree<Item>,
    due: &[u32],
    counter: &mut C,
) -> Result<(SumTree<Item>, Changed), EditError>
    requires revised { IsRevised (edited_text revision.now) rows.now }
    requires left { AreItemsLeft (edited_text revision.now) items.now.items due.now (length rows.now.symbols.text.lines.now) }
    requires valued { C.valued_count counter.old + 1000 * length rows.now.symbols.text.lines.now < 2 ^ 64 }
    requires encoded { C.encoded_count counter.old + length rows.now.symbols.text.lines.now < 2 ^ 64 }
    ensures items { IfOk result (λ r. AreItems (base_of rows.now) rows.now.symbols.text.lines.now r.0.items) }
    ensures changed { IfOk result (λ r. r.1.lines ≡ changed_through (edited_text revision.now) (length rows.now.symbols.text.lines.now)) }
    ensures memory { IfErr result (λ e. e ≡ EditError.Memory) }
    ensures counted { AreCounted (edited_text revision.now) 0 (length rows.now.symbols.text.lines.now) (counts_of C.parsed_count C.valued_count C.encoded_count counter.old) (counts_of C.parsed_count C.valued_count C.encoded_count counter.new) }
{
    let mut changed = Vec::new(alloc);
    let passed = renewed_in_one_pass(alloc, revision, rows, items, due, &mut changed, counter)?;
    let line = passed.len() + 1;
    if line as usize > rows.symbols.text.lines.len() {
        return Ok((passed, Changed::of(changed)));
    }
    let item = line_behind(alloc, revision, rows, line, &mut changed, counter)?;
    Ok((passed.inserted(line, item)?, Changed::of(changed)))
}

/// Like `items_passed`, but by the survey of the text before the edit, `old`, whose lines are `old_lines`, but that it has the lines after the
/// edit already, and by that of the text after it: those that are due are looked for. `still` tells that the edit moved none of them, and
/// `differing` has each symbol that differs on one of them. For each jump to a local label among the invalidated lines, one expression more may
/// be computed.
pub fn items_edited<'a, C: Count>(
    alloc: Global,
    base: u32,
    names: &'a NameTable,
    old: &'a Survey,
    old_lines: &'a Lines<'a>,
    edit: &LineEdit<'_>,
    survey: &'a Survey,
    still: bool,
    differing: &NameSet,
    items: &SumTree<Item>,
    counter: &mut C,
) -> Result<(SumTree<Item>, Changed), EditError>
    requires old { IsSurvey base (program_of old_lines.now) names.now old.now }
    requires old_few { length old_lines.now ≤ MAX_LINES }
    requires allowed { refusal_of old_lines.now (edit_of edit.now) ≡ None }
    requires survey { IsSurvey base (program_of old.now.lines.items) names.now survey.now }
    requires edited { old.now.lines.items ≡ lines_after old_lines.now (edit_of edit.now) }
    requires still { still ≡ true → AreUnmoved old.now.shapes.items (edit_of edit.now) survey.now.shapes.items }
    requires differing { HasDiffering base old_lines.now (edit_of edit.now) differing.now }
    requires few { length old.now.lines.items ≤ MAX_LINES }
    requires lines { lines_of items.now.items ≡ old.now.lines.items }
    requires former { AreFormer base old_lines.now (edit_of edit.now) 0 items.now.items }
    requires valued { C.valued_count counter.old + 1001 * length old.now.lines.items < 2 ^ 64 }
    requires encoded { C.encoded_count counter.old + length old.now.lines.items < 2 ^ 64 }
    ensures items { IfOk result (λ r. AreItems base old.now.lines.items r.0.items) }
    ensures changed { IfOk result (λ r. r.1.lines ≡ changed_through (edited_by base old_lines.now edit.now) (length old.now.lines.items)) }
    ensures memory { IfErr result (λ e. e ≡ EditError.Memory) }
    ensures counted { AreCountedRenewed (edited_by base old_lines.now edit.now) (length old.now.lines.items) (counts_of C.parsed_count C.valued_count C.encoded_count counter.old) (counts_of C.parsed_count C.valued_count C.encoded_count counter.new) }
{
    let before = old.before(old_lines, base, names, edit);
    let lines = old.lines.as_slice();
    let searched = SearchedLines::in_tree(lines, items);
    let column = Lines::in_column(lines);
    let rows = survey.rows(&column, base, names);
    let due = due_lines(
        alloc,
        &before,
        &rows.symbols,
        rows.highs,
        differing,
        &searched,
        still,
        counter,
    )?;
    items_passed(alloc, &before.revision(), &rows, items, &due, counter)
}

/// Like `items_passed`, but where a line is put in the place of another one or behind the last one, and others have to do with it by its
/// names and its local labels alone. `items` are those of the text before that, and `survey` is that of the text after it.
pub fn items_put<C: Count>(
    alloc: Global,
    base: u32,
    names: &NameTable,
    survey: &Survey,
    items: &SumTree<Item>,
    edit: &LineEdit<'_>,
    due: &[u32],
    counter: &mut C,
) -> Result<(SumTree<Item>, Changed), EditError>
    requires survey { IsSurvey base (program_of survey.now.lines.items) names.now survey.now }
    requires few { length survey.now.lines.items ≤ MAX_LINES }
    requires put { ArePut base survey.now.lines.items items.now.items (edit_of edit.now) due.now }
    requires valued { C.valued_count counter.old ≤ 2 ^ 63 + 4 }
    requires encoded { C.encoded_count counter.old ≤ 2 ^ 63 }
    ensures items { IfOk result (λ r. AreItems base survey.now.lines.items r.0.items) }
    ensures changed { IfOk result (λ r. r.1.lines ≡ changed_through (edited_by base (lines_of items.now.items) edit.now) (length survey.now.lines.items)) }
    ensures memory { IfErr result (λ e. e ≡ EditError.Memory) }
    ensures counted { AreCounted (edited_by base (lines_of items.now.items) edit.now) 0 (length survey.now.lines.items) (counts_of C.parsed_count C.valued_count C.encoded_count counter.old) (counts_of C.parsed_count C.valued_count C.encoded_count counter.new) }
{
    let old = Lines::in_items(items);
    let lines = Lines::in_column(survey.lines.as_slice());
    let rows = survey.rows(&lines, base, names);
    let revision = Revision {
        base,
        lines: &old,
        edit: *edit,
    };
    items_passed(alloc, &revision, &rows, items, due, counter)
}
