//! Where the names of a text are defined after an edit: where they were, on the lines as they move, but for names that are defined
//! on a line that the edit takes out or puts in.

ghost use Rattle.std.specs.Prelude.{◌≡◌, ◌≤◌, ◌<◌, ◌-◌, ℕ, List, Some, None, length, IfOk};
ghost use Rattle.rv_stmt.specs.Statement.{statement_of};
ghost use Rattle.rv_list.specs.declared.view.DefinitionPlace.TheVariants.{Nowhere};
ghost use Rattle.rv_program.specs.internal.Defining.{also_on};
ghost use Rattle.rv_program.specs.Definitions.{place_in_statement};
ghost use Rattle.rv_program.specs.Edits.{edit_of, place_of_edit};
ghost use Rattle.rv_program.specs.internal.MovedDefinitions.{is_on, takes_out, line_after_edit, moved_place, place_after, found_after, kept_after, put_in};
ghost use Rattle.rv_program.specs.Program.{program_of};
ghost use Rattle.rv_program.specs.internal.Rows.{number_of, in_row, Grows, HoldsByName, AreDefinitions};
ghost use Rattle.rv_program.specs.Text.{refusal_of, lines_after};

use crate::definitions::{define_line, number_line};
use crate::edit::LineEdit;
use crate::first_definition::first_place;
use crate::limits::MAX_LINES;
use crate::line::Line;
use crate::line_search::SearchedLines;
use crate::lines::Lines;
use crate::names::NameTable;
use rv_list::DefinitionPlace;
use std::alloc::{AllocError, Global};

// Whether a definition stands on a line.
fn is_on(line: u32, place: DefinitionPlace) -> bool
    ensures { result ≡ is_on line place }
{
    match place {
        DefinitionPlace::Nowhere => false,
        DefinitionPlace::Label(defining, _) | DefinitionPlace::Equ(defining) => defining == line,
    }
}

// Whether an edit takes a definition out with its line.
fn takes_out(edit: &LineEdit<'_>, place: DefinitionPlace) -> bool
    ensures { result ≡ takes_out (edit_of edit.now) place }
{
    match *edit {
        LineEdit::Insert(_, _) => false,
        LineEdit::Delete(k) | LineEdit::Replace(k, _) => is_on(k, place),
    }
}

// Where a line stands after an edit that does not take it out.
fn line_after(edit: &LineEdit<'_>, line: u32) -> u32
    ensures { result ≡ line_after_edit (edit_of edit.now) line }
{
    match *edit {
        LineEdit::Insert(k, _) if line < k => line,
        LineEdit::Insert(_, _) => line.saturating_add(1),
        LineEdit::Delete(k) if line < k => line,
        LineEdit::Delete(_) => line.saturating_sub(1),
        LineEdit::Replace(_, _) => line,
    }
}

// A definition on a line that an edit moves.
fn moved_place(edit: &LineEdit<'_>, place: DefinitionPlace) -> DefinitionPlace
    ensures { result ≡ moved_place (line_after_edit (edit_of edit.now)) place }
{
    match place {
        DefinitionPlace::Nowhere => DefinitionPlace::Nowhere,
        DefinitionPlace::Label(line, index) => {
            DefinitionPlace::Label(line_after(edit, line), index)
        }
        DefinitionPlace::Equ(line) => DefinitionPlace::Equ(line_after(edit, line)),
    }
}

// Where a name is defined first from the place of an edit on; `searched` has the lines after the edit.
fn found_after(edit: &LineEdit<'_>, searched: &SearchedLines<'_>, name: &[u8]) -> DefinitionPlace
    requires first { 1 ≤ place_of_edit (edit_of edit.now) }
    requires within { place_of_edit (edit_of edit.now) - 1 ≤ length searched.now }
    requires few { length searched.now ≤ MAX_LINES }
    ensures { result ≡ found_after (edit_of edit.now) searched.now name.now }
{
    first_place(searched, edit.place() as usize - 1, name)
}

// Where the name of a number is defined that was defined at `place`, but for what the line defines that the edit puts in.
fn place_after(
    edit: &LineEdit<'_>,
    searched: &SearchedLines<'_>,
    names: &NameTable,
    number: usize,
    place: DefinitionPlace,
) -> DefinitionPlace
    requires first { 1 ≤ place_of_edit (edit_of edit.now) }
    requires within { place_of_edit (edit_of edit.now) - 1 ≤ length searched.now }
    requires few { length searched.now ≤ MAX_LINES }
    requires named { number < length names.now }
    ensures { (name : List ℕ) → number_of names.now name ≡ Some number → result ≡ place_after (edit_of edit.now) (found_after (edit_of edit.now) searched.now name) place }
{
    if takes_out(edit, place) {
        found_after(edit, searched, names.name(number))
    } else {
        moved_place(edit, place)
    }
}

/// Where all names of a row are defined after an edit that leaves the lines of `searched`, but for what the line defines that it puts in.
pub fn keep_places(
    edit: &LineEdit<'_>,
    searched: &SearchedLines<'_>,
    names: &NameTable,
    row: &mut Vec<DefinitionPlace>,
)
    requires first { 1 ≤ place_of_edit (edit_of edit.now) }
    requires within { place_of_edit (edit_of edit.now) - 1 ≤ length searched.now }
    requires few { length searched.now ≤ MAX_LINES }
    requires named { length row.old.items ≤ length names.now }
    ensures row { in_row names.now row.new.items Nowhere ≡ kept_after (edit_of edit.now) searched.now (in_row names.now row.old.items Nowhere) }
    ensures as_many { length row.new.items ≡ length row.old.items }
{
    for number in 0..row.len() {
        row[number] = place_after(edit, searched, names, number, row[number]);
    }
}

/// Writes what a line defines into a row of what the others define. Its names get numbers.
pub fn define_with_numbers(
    alloc: Global,
    line: &Line,
    number: u32,
    names: &mut NameTable,
    row: &mut Vec<DefinitionPlace>,
) -> Result<(), AllocError>
    requires { length row.old.items ≤ length names.old }
    ensures row { IfOk result (λ _. HoldsByName names.new row.new.items Nowhere (also_on number (in_row names.old row.old.items Nowhere) (place_in_statement number (statement_of line.now)))) }
    ensures names { Grows names.old names.new }
{
    number_line(alloc, line, names)?;
    row.resize(names.len(), DefinitionPlace::Nowhere)?;
    define_line(line, number, names, row);
    Ok(())
}

// Writes what the line defines that an edit puts in.
fn define_put_in(
    alloc: Global,
    old: &Lines<'_>,
    lines: &[Line],
    edit: &LineEdit<'_>,
    names: &mut NameTable,
    row: &mut Vec<DefinitionPlace>,
) -> Result<(), AllocError>
    requires allowed { refusal_of old.now (edit_of edit.now) ≡ None }
    requires edited { lines.now ≡ lines_after old.now (edit_of edit.now) }
    requires named { length row.old.items ≤ length names.old }
    ensures row { IfOk result (λ _. HoldsByName names.new row.new.items Nowhere (also_on (place_of_edit (edit_of edit.now)) (in_row names.old row.old.items Nowhere) (put_in (edit_of edit.now)))) }
    ensures names { Grows names.old names.new }
{
    match *edit {
        LineEdit::Insert(k, _) => {
            define_with_numbers(alloc, &lines[k as usize - 1], k, names, row)
        }
        LineEdit::Delete(_) => Ok(()),
        LineEdit::Replace(k, _) => {
            define_with_numbers(alloc, &lines[k as usize - 1], k, names, row)
        }
    }
}

/// Where each name of a text is defined after an edit, by the names' numbers; `row` says it of the lines before the edit. Definitions
/// move with their lines: only for a name whose definition the edit takes out are the lines from there on searched. Names that the
/// new line defines get numbers if they have none, also where there is no memory for the rest.
pub fn definitions_after(
    alloc: Global,
    row: &[DefinitionPlace],
    old: &Lines<'_>,
    searched: &SearchedLines<'_>,
    edit: &LineEdit<'_>,
    names: &mut NameTable,
) -> Result<Vec<DefinitionPlace>, AllocError>
    requires row { AreDefinitions (program_of old.now) names.old row.now }
    requires old_few { length old.now ≤ MAX_LINES }
    requires allowed { refusal_of old.now (edit_of edit.now) ≡ None }
    requires edited { searched.now ≡ lines_after old.now (edit_of edit.now) }
    requires few { length searched.now ≤ MAX_LINES }
    ensures definitions { IfOk result (λ row'. AreDefinitions (program_of searched.now) names.new row'.items) }
    ensures names { Grows names.old names.new }
{
    let mut after = Vec::from_slice(alloc, row)?;
    keep_places(edit, searched, names, &mut after);
    define_put_in(alloc, old, searched.lines(), edit, names, &mut after)?;
    Ok(after)
}
