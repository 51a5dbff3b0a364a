//! Lines with which other lines have to do by their names and their local labels alone: in the place of another one or behind the last one,
//! only that line and those that use one of these are made.

ghost use Rattle.std.specs.Prelude.{◌≡◌, ◌≤◌, ◌+◌, ◌-◌, ◌^◌, ℕ, suc, None, true, false, length, IfOk, IfErr, OnOk, OnErr};
ghost use Rattle.rv_program.specs.declared.limits.TheConstants.{MAX_LINES};
ghost use Rattle.rv_store.specs.internal.Assembled.{AreCountedAfter};
ghost use Rattle.rv_store.specs.internal.Appended.{AreSameLines, AreSameSymbols, AreSymbols};
ghost use Rattle.rv_program.specs.Changes.{changed_lines};
ghost use Rattle.rv_program.specs.Counted.{counts_of};
ghost use Rattle.rv_program.specs.Edits.{edit_of, place_of_edit};
ghost use Rattle.rv_program.specs.internal.Items.{AreItems};
ghost use Rattle.rv_program.specs.Program.{program_of};
ghost use Rattle.rv_program.specs.Text.{refusal_of, lines_after};
ghost use Rattle.rv_program.specs.internal.Locals.{lines_with, with_last, lines_below};
ghost use Rattle.rv_program.specs.internal.Lines.{lines_of};
ghost use Rattle.rv_program.specs.internal.Renewals.{changed_through};
ghost use Rattle.rv_program.specs.internal.Rows.{AreHighs, AreLocals};
ghost use Rattle.rv_program.specs.internal.Still.{set_or_push};
ghost use Rattle.rv_store.specs.internal.Column.{taken_back};
ghost use Rattle.rv_store.specs.internal.HighRows.{AreRows, StayButHighs, AreCountedWithHigh};
ghost use Rattle.rv_store.specs.internal.Renewed.{ArePut, edited_by};
ghost use Rattle.rv_store.specs.internal.Still.{IsPutEdit};
ghost use Rattle.rv_store.specs.internal.StillLines.{IsStillLine, is_behind_with, AreLinesPut, StayButLocals, MayHaveLast, ArePartlyPut, IsFormerLine};
ghost use Rattle.rv_store.specs.internal.Surveys.{IsSurvey};

use crate::changed::Changed;
use crate::ends::Ends;
use crate::renewal::items_put;
use crate::survey::Survey;
use rv_layout::Measured;
use rv_list::LinePlace;
use rv_program::{EditError, Item, Line, LineEdit, NameTable};
use rv_text::Count;
use rv_tree::SumTree;
use std::alloc::{AllocError, Global};

/// What a line is, with which other lines have to do by its names and its local labels alone.
#[derive(Clone, Copy)]
pub struct Still {
    /// Its shape.
    pub shape: Measured,
    /// Where the sections end, behind all lines.
    pub ends: Ends,
    /// Where it lies.
    pub place: LinePlace,
    /// It is behind the text, and defines a name that the text does not.
    pub defines: bool,
    /// It is after the text, and a high half: that of the lines of its section after the first so many.
    pub waiting: Option<usize>,
}

/// What the rows by lines hold of a line, or nothing where they end before it.
#[derive(Drop)]
pub struct FormerLine {
    line: Option<Line>,
    shape: Option<Measured>,
    place: Option<LinePlace>,
    ends: Ends,
}

// Puts a value at a place of a row, or behind its end.
fn set_or_push<T: Drop>(row: &mut Vec<T>, place: usize, value: T) -> Result<(), AllocError>
    requires { place ≤ length row.old.items }
    ensures ok { OnOk result (row.new.items ≡ set_or_push row.old.items place value) }
    ensures err { OnErr result (row.new.items ≡ row.old.items) }
{
    if place < row.len() {
        row[place] = value;
        return Ok(());
    }
    row.push(value)?;
    Ok(())
}

// Takes it back, where this stood there.
fn put_back<T: Drop>(row: &mut Vec<T>, place: usize, former: Option<T>)
    ensures { row.new.items ≡ taken_back row.old.items place former }
{
    match former {
        Some(value) if place < row.len() => row[place] = value,
        Some(_) => {}
        None => row.truncate(place),
    }
}

impl Survey {
    /// What the rows by lines hold of the line at this place.
    pub fn former(&self, place: usize) -> Result<FormerLine, AllocError>
        requires lines { place ≤ length self.now.lines.items }
        requires shapes { length self.now.shapes.items ≡ length self.now.lines.items }
        requires places { length self.now.places.items ≡ length self.now.lines.items }
        ensures { IfOk result (IsFormerLine place self.now) }
    {
        let ends = self.ends;
        if place >= self.lines.len() {
            return Ok(FormerLine {
                line: None,
                shape: None,
                place: None,
                ends,
            });
        }
        Ok(FormerLine {
            line: Some(self.lines.as_slice()[place].share()?),
            shape: Some(self.shapes[place]),
            place: Some(self.places[place]),
            ends,
        })
    }

    // Puts the local labels of a line in, where it is behind the others. Where there is no memory for that, some of the rows may have it.
    fn put_locals(&mut self, alloc: Global, place: usize, line: &Line) -> Result<(), AllocError>
        requires few { place ≤ MAX_LINES }
        requires locals { AreLocals (program_of self.old.lines.items) (length (program_of self.old.lines.items)) self.old.locals }
        ensures ok { OnOk result ((number : ℕ) → lines_with self.new.locals number ≡ with_last (suc place) (is_behind_with self.old place line.now number) (lines_with self.old.locals number)) }
        ensures locals { MayHaveLast place self.old self.new }
        ensures others { StayButLocals self.old self.new }
        ensures symbols { AreSameSymbols self.old self.new }
    {
        if place < self.lines.len() || !line.brief().local_labels {
            return Ok(());
        }
        let labels = line.stmt().labels.as_slice();
        self.locals.put_line(alloc, labels, place as u32 + 1)
    }

    // Takes the local labels of a line back, where it was put behind the others.
    fn take_locals(&mut self, place: usize, behind: bool)
        requires { place ≤ MAX_LINES }
        ensures behind { behind ≡ true → (number : ℕ) → lines_with self.new.locals number ≡ lines_below (suc place) (lines_with self.old.locals number) }
        ensures within { behind ≡ false → (number : ℕ) → lines_with self.new.locals number ≡ lines_with self.old.locals number }
        ensures others { StayButLocals self.old self.new }
        ensures symbols { AreSameSymbols self.old self.new }
    {
        if behind {
            self.locals.take_out(place as u32 + 1);
        }
    }

    // Puts a line in the rows by lines, but in that of high halves, which gets its own after them. Where there is no memory for that, some of
    // them may have it.
    fn put_line(
        &mut self,
        alloc: Global,
        place: usize,
        line: Line,
        still: &Still,
    ) -> Result<(), AllocError>
        requires lines { place ≤ length self.old.lines.items }
        requires few { length self.old.lines.items ≤ MAX_LINES }
        requires locals { AreLocals (program_of self.old.lines.items) (length (program_of self.old.lines.items)) self.old.locals }
        requires shapes { length self.old.shapes.items ≡ length self.old.lines.items }
        requires places { length self.old.places.items ≡ length self.old.lines.items }
        ensures ok { OnOk result (AreLinesPut place line still.now self.old self.new) }
        ensures err { OnErr result (ArePartlyPut place self.old self.new) }
        ensures symbols { AreSameSymbols self.old self.new }
    {
        self.put_locals(alloc, place, &line)?;
        self.lines.put(place, line)?;
        set_or_push(&mut self.shapes, place, still.shape)?;
        set_or_push(&mut self.places, place, still.place)?;
        self.ends = still.ends;
        Ok(())
    }

    /// Takes a line back from the rows by lines that may have it in place, where this stood there.
    pub fn take_back(&mut self, place: usize, former: FormerLine)
        requires { place ≤ MAX_LINES }
        ensures lines { (old : Survey) → ArePartlyPut place old self.old → IsFormerLine place old former → AreSameLines old self.new }
        ensures symbols { AreSameSymbols self.old self.new }
    {
        self.take_locals(place, former.line.is_none());
        self.lines.put_back(place, former.line);
        put_back(&mut self.shapes, place, former.shape);
        put_back(&mut self.places, place, former.place);
        self.ends = former.ends;
    }
}

// Makes the item of a line that was put in place, and those of the lines that use what it touches, after the row of high halves got that of
// the line, if it adds one. The survey has the other rows of the text. Where there is no memory for that, it is what it was.
fn put_items<C: Count>(
    alloc: Global,
    base: u32,
    names: &NameTable,
    survey: &mut Survey,
    items: &SumTree<Item>,
    edit: &LineEdit<'_>,
    still: &Still,
    due: &[u32],
    counter: &mut C,
) -> Result<(SumTree<Item>, Changed), EditError>
    requires rows { AreRows base (program_of survey.old.lines.items) names.now survey.old }
    requires highs { AreHighs base (program_of (lines_of items.now.items)) survey.old.highs.items }
    requires put { (put : ArePut base survey.old.lines.items items.now.items (edit_of edit.now) due.now) × (put.given ≡ still.now) }
    requires few { length survey.old.lines.items ≤ MAX_LINES }
    requires valued { C.valued_count counter.old ≤ 2 ^ 63 + 3 }
    requires encoded { C.encoded_count counter.old ≤ 2 ^ 63 }
    ensures survey { OnOk result (IsSurvey base (program_of survey.new.lines.items) names.now survey.new) }
    ensures highs { OnErr result (survey.new.highs.items ≡ survey.old.highs.items) }
    ensures others { StayButHighs survey.old survey.new }
    ensures items { IfOk result (λ r. AreItems base survey.old.lines.items r.0.items) }
    ensures changed { IfOk result (λ r. r.1.lines ≡ changed_through (edited_by base (lines_of items.now.items) edit.now) (length survey.old.lines.items)) }
    ensures memory { IfErr result (λ e. e ≡ EditError.Memory) }
    ensures counted { AreCountedWithHigh (edited_by base (lines_of items.now.items) edit.now) (length survey.old.lines.items) still.now.waiting (counts_of C.parsed_count C.valued_count C.encoded_count counter.old) (counts_of C.parsed_count C.valued_count C.encoded_count counter.new) }
{
    let former = survey.highs.len();
    survey.put_high(base, names, still, counter)?;
    match items_put(alloc, base, names, survey, items, edit, due, counter) {
        Ok(put) => Ok(put),
        Err(e) => {
            survey.take_high(still, former);
            Err(e)
        }
    }
}

/// Puts a line in the place of another one, or behind the last one, and makes its item and those of the lines that use what it
/// touches, by the survey of the text. `items` are those of the text before that, and `due` are those of its lines that are due. Names that
/// the line defines get numbers, also where there is no memory for the rest.
///
/// The counter's number of expressions computed rises by at most what the edit may take, but for the operand from which the shape of the
/// line follows, and its number of lines encoded by at most what it may take, whatever the outcome.
///
/// # Errors
///
/// `Memory` if there was no memory for what is kept; then some of the rows by lines may have the line, and the rows by names hold
/// what they held.
pub fn put_still<C: Count>(
    alloc: Global,
    base: u32,
    names: &mut NameTable,
    survey: &mut Survey,
    items: &SumTree<Item>,
    edit: &LineEdit<'_>,
    line: Line,
    still: &Still,
    due: &[u32],
    counter: &mut C,
) -> Result<(SumTree<Item>, Changed), EditError>
    requires survey { IsSurvey base (program_of survey.old.lines.items) names.old survey.old }
    requires still { IsStillLine base survey.old.lines.items (place_of_edit (edit_of edit.now)) line still.now due.now }
    requires edited { IsPutEdit survey.old.lines.items (edit_of edit.now) (place_of_edit (edit_of edit.now)) line }
    requires allowed { refusal_of survey.old.lines.items (edit_of edit.now) ≡ None }
    requires few { length (lines_after survey.old.lines.items (edit_of edit.now)) ≤ MAX_LINES }
    requires items { AreItems base survey.old.lines.items items.now.items }
    requires valued { C.valued_count counter.old ≤ 2 ^ 63 + 1 }
    requires encoded { C.encoded_count counter.old ≤ 2 ^ 63 }
    ensures lines { OnOk result (survey.new.lines.items ≡ lines_after survey.old.lines.items (edit_of edit.now)) }
    ensures survey { OnOk result (IsSurvey base (program_of (lines_after survey.old.lines.items (edit_of edit.now))) names.new survey.new) }
    ensures err { OnErr result (ArePartlyPut (place_of_edit (edit_of edit.now) - 1) survey.old survey.new) }
    ensures symbols { OnErr result (AreSymbols base (program_of survey.old.lines.items) (length survey.old.lines.items) names.new survey.new) }
    ensures items { IfOk result (λ r. AreItems base (lines_after survey.old.lines.items (edit_of edit.now)) r.0.items) }
    ensures changed { IfOk result (λ r. r.1.lines ≡ changed_lines base survey.old.lines.items (edit_of edit.now)) }
    ensures memory { IfErr result (λ e. e ≡ EditError.Memory) }
    ensures counted { AreCountedAfter base survey.old.lines.items (edit_of edit.now) (counts_of C.parsed_count C.valued_count C.encoded_count counter.old) (counts_of C.parsed_count C.valued_count C.encoded_count counter.new) }
{
    let new = line.share()?;
    survey.put_line(alloc, edit.place() as usize - 1, line, still)?;
    survey.define_last(alloc, base, names, &new, still.defines, counter)?;
    match put_items(alloc, base, names, survey, items, edit, still, due, counter) {
        Ok(put) => Ok(put),
        Err(e) => {
            survey.forget_last(names, &new, still.defines);
            Err(e)
        }
    }
}
