//! What is kept of a text after an edit is made, by what was kept of it before.

ghost use Rattle.std.specs.Prelude.{◌≡◌, ◌≤◌, ◌+◌, ◌^◌, None, length, true, IfOk, IfErr};
ghost use Rattle.rv_layout.specs.Places.{is_base, IsLimited};
ghost use Rattle.rv_store.specs.internal.Assembled.{AreCountedAfter};
ghost use Rattle.rv_program.specs.Changes.{changed_lines};
ghost use Rattle.rv_program.specs.Counted.{counts_of};
ghost use Rattle.rv_program.specs.Edits.{edit_of};
ghost use Rattle.rv_program.specs.internal.Former.{AreFormer};
ghost use Rattle.rv_program.specs.internal.Items.{AreItems};
ghost use Rattle.rv_program.specs.internal.Lines.{lines_of};
ghost use Rattle.rv_program.specs.internal.NewShapes.{IsNewShape};
ghost use Rattle.rv_program.specs.Program.{program_of};
ghost use Rattle.rv_program.specs.internal.Rows.{Grows};
ghost use Rattle.rv_store.specs.internal.Surveys.{IsSurvey};
ghost use Rattle.rv_program.specs.Text.{refusal_of, lines_after};

use crate::changed::Changed;
use crate::renewal::items_edited;
use crate::survey::Survey;
use rv_layout::Measured;
use rv_program::{EditError, Item, LineEdit, Lines, MAX_LINES, NameTable};
use rv_text::Count;
use rv_tree::SumTree;
use std::alloc::Global;

/// What is kept of a text after an edit, its items, and which lines are new or have another code. `survey` is what is kept of
/// the text before, whose lines are `old`, but that its lines are those after the edit. `items` has an item for each line after
/// the edit, which keeps what was kept of the line. `shape` is that of the line that the edit puts in. The lines are not in the answer. Names that the lines define get numbers, whatever the outcome.
///
/// The counter's number of expressions computed, and that of lines encoded, rise by at most what the edit may take, but for the operand
/// from which that shape follows, whatever the outcome.
///
/// # Errors
///
/// `Memory` if there was no memory for what is kept.
pub fn assembled<C: Count>(
    alloc: Global,
    base: u32,
    names: &mut NameTable,
    survey: &Survey,
    old: &Lines<'_>,
    edit: &LineEdit<'_>,
    items: SumTree<Item>,
    shape: Measured,
    counter: &mut C,
) -> Result<(Survey, SumTree<Item>, Changed), EditError>
    requires base { is_base base ≡ true }
    requires survey { IsSurvey base (program_of old.now) names.old survey.now }
    requires old_few { length old.now ≤ MAX_LINES }
    requires allowed { refusal_of old.now (edit_of edit.now) ≡ None }
    requires edited { survey.now.lines.items ≡ lines_after old.now (edit_of edit.now) }
    requires shape { IsNewShape old.now (edit_of edit.now) shape }
    requires limited { IsLimited shape }
    requires few { length survey.now.lines.items ≤ MAX_LINES }
    requires lines { lines_of items.items ≡ survey.now.lines.items }
    requires former { AreFormer base old.now (edit_of edit.now) 0 items.items }
    requires valued { C.valued_count counter.old ≤ 2 ^ 63 + 1 }
    requires encoded { C.encoded_count counter.old ≤ 2 ^ 63 }
    ensures names { Grows names.old names.new }
    ensures survey { IfOk result (λ r. IsSurvey base (program_of survey.now.lines.items) names.new r.0) }
    ensures items { IfOk result (λ r. AreItems base survey.now.lines.items r.1.items) }
    ensures changed { IfOk result (λ r. r.2.lines ≡ changed_lines base old.now (edit_of edit.now)) }
    ensures memory { IfErr result (λ e. e ≡ EditError.Memory) }
    ensures counted { AreCountedAfter base old.now (edit_of edit.now) (counts_of C.parsed_count C.valued_count C.encoded_count counter.old) (counts_of C.parsed_count C.valued_count C.encoded_count counter.new) }
{
    let (after, still, differing) = survey.after(
        alloc, base, old, edit, names, &items, shape, counter,
    )?;
    let (items, changed) = items_edited(
        alloc, base, names, survey, old, edit, &after, still, &differing, &items, counter,
    )?;
    Ok((after, items, changed))
}
