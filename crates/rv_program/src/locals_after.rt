//! The local labels of a text after an edit, by those before it.

ghost use Rattle.std.specs.Prelude.{◌≡◌, ◌≤◌, ◌==◌, ◌+◌, ◌++◌, ℕ, None, length, if◌then◌else◌, IfOk, OnOk};
ghost use Rattle.rv_program.specs.internal.Before.{IsBefore, lines_before, edit_on};
ghost use Rattle.rv_program.specs.Edits.{edit_of};
ghost use Rattle.rv_program.specs.internal.MovedLocals.{labels_put_in, line_moved, lines_moved, first_number, rows_behind, row_after};
ghost use Rattle.rv_program.specs.internal.Locals.{AreFrom, AreWithin, lines_with, lines_below};
ghost use Rattle.rv_program.specs.Program.{program_of};
ghost use Rattle.rv_program.specs.internal.Rows.{AreLocals};
ghost use Rattle.rv_program.specs.Text.{refusal_of, lines_after};

use crate::before::Before;
use crate::edit::LineEdit;
use crate::limits::MAX_LINES;
use crate::line::Line;
use crate::lines::Lines;
use crate::local_row::LocalRow;
use crate::locals::Locals;
use rv_stmt::LabelSlice;
use rv_text::Sequence;
use std::alloc::{AllocError, Global};

// The labels of the line that an edit puts in.
fn labels_put_in<'a>(old: &Lines<'_>, lines: &'a [Line], edit: &LineEdit<'_>) -> LabelSlice<'a>
    requires allowed { refusal_of old.now (edit_of edit.now) ≡ None }
    requires edited { lines.now ≡ lines_after old.now (edit_of edit.now) }
    ensures { result ≡ labels_put_in (edit_of edit.now) }
{
    match *edit {
        LineEdit::Insert(k, _) | LineEdit::Replace(k, _) => {
            lines[k as usize - 1].stmt().labels.as_slice()
        }
        LineEdit::Delete(_) => LabelSlice::empty(),
    }
}

// Adds the lines before a place.
fn push_below(row: &mut Sequence<u32>, mut lines: &[u32], place: u32) -> Result<(), AllocError>
    ensures { OnOk result (row.new ≡ row.old ++ lines_below place lines.entry.now) }
{
    'lines: while let [line, later @ ..] = lines {
        if *line < place {
            row.push(*line)?;
        }
        lines = later;
    }
    Ok(())
}

// Where a line behind the lines that an edit puts in or takes out stands after it.
fn line_moved(edit: &LineEdit<'_>, line: u32) -> Option<u32>
    ensures { result ≡ line_moved (edit_of edit.now) line }
{
    match *edit {
        LineEdit::Insert(k, _) if line < k => None,
        LineEdit::Insert(_, _) => Some(line.saturating_add(1)),
        LineEdit::Delete(k) if line <= k => None,
        LineEdit::Delete(_) => Some(line.saturating_sub(1)),
        LineEdit::Replace(k, _) if line <= k => None,
        LineEdit::Replace(_, _) => Some(line),
    }
}

// Adds these lines, as they stand after it.
fn push_moved(
    row: &mut Sequence<u32>,
    mut lines: &[u32],
    edit: &LineEdit<'_>,
) -> Result<(), AllocError>
    ensures { OnOk result (row.new ≡ row.old ++ lines_moved (edit_of edit.now) lines.entry.now) }
{
    'lines: while let [line, later @ ..] = lines {
        if let Some(line) = line_moved(edit, *line) {
            row.push(line)?;
        }
        lines = later;
    }
    Ok(())
}

// Adds these lines.
fn push_lines(row: &mut Sequence<u32>, mut lines: &[u32]) -> Result<(), AllocError>
    ensures { OnOk result (row.new ≡ row.old ++ lines.entry.now) }
{
    'lines: while let [line, later @ ..] = lines {
        row.push(*line)?;
        lines = later;
    }
    Ok(())
}

// The lines of a label after an edit, by those before it and those that the edit puts in.
fn row_after(
    alloc: Global,
    edit: &LineEdit<'_>,
    put_in: &[u32],
    lines: &[u32],
) -> Result<Sequence<u32>, AllocError>
    ensures { IfOk result (λ row. row ≡ row_after (edit_of edit.now) put_in.now lines.now) }
{
    let mut row = Sequence::new(alloc);
    push_below(&mut row, lines, edit.place())?;
    push_lines(&mut row, put_in)?;
    push_moved(&mut row, lines, edit)?;
    Ok(row)
}

// The lesser of the numbers of two first rows.
fn first_number(rows: &[LocalRow], others: &[LocalRow]) -> Option<u16>
    ensures { result ≡ first_number rows.now others.now }
{
    match (rows.first(), others.first()) {
        (Some(row), Some(other)) => Some(row.number.min(other.number)),
        (Some(row), None) => Some(row.number),
        (None, Some(other)) => Some(other.number),
        (None, None) => None,
    }
}

// The lines of the first of some rows and the rows behind it, where it is of this number; no lines and all rows, where all are of
// greater ones.
fn split_row(rows: &[LocalRow], number: u16) -> (&[u32], &[LocalRow])
    requires { AreFrom number rows.now }
    ensures lines { result.0.now ≡ lines_with rows.now number }
    ensures behind { result.1.now ≡ rows_behind number rows.now }
{
    let [row, later @ ..] = rows else {
        return (&[], rows);
    };
    if row.number != number {
        return (&[], rows);
    }
    (row.lines.as_slice(), later)
}

// Adds the row of a number behind those of lesser ones, if it has lines.
fn push_row(rows: &mut Vec<LocalRow>, number: u16, lines: Sequence<u32>) -> Result<(), AllocError>
    requires { AreWithin 0 number rows.old.items }
    ensures sorted { OnOk result (AreWithin 0 (number + 1) rows.new.items) }
    ensures lines { OnOk result ((n : ℕ) → lines_with rows.new.items n ≡ (if number == n then lines else lines_with rows.old.items n)) }
{
    if !lines.as_slice().is_empty() {
        rows.push(LocalRow { number, lines })?;
    }
    Ok(())
}

// The rows after an edit, by those before it and those of the line that it puts in.
fn rows_after(
    alloc: Global,
    edit: &LineEdit<'_>,
    mut put_in: &[LocalRow],
    mut rows: &[LocalRow],
) -> Result<Vec<LocalRow>, AllocError>
    requires put_in { AreFrom 0 put_in.now }
    requires rows { AreFrom 0 rows.now }
    ensures lines { IfOk result (λ after. (number : ℕ) → lines_with after.items number ≡ row_after (edit_of edit.now) (lines_with put_in.entry.now number) (lines_with rows.entry.now number)) }
    ensures sorted { IfOk result (λ after. AreFrom 0 after.items) }
{
    let mut after = Vec::with_capacity(alloc, rows.len() + put_in.len())?;
    'numbers: while let Some(number) = first_number(rows, put_in) {
        let (new, later_new) = split_row(put_in, number);
        let (lines, later_rows) = split_row(rows, number);
        push_row(&mut after, number, row_after(alloc, edit, new, lines)?)?;
        put_in = later_new;
        rows = later_rows;
    }
    Ok(after)
}

/// The local labels of a text after an edit, which has these lines. Each label of a line that stood moves with it, so that only the
/// line that the edit puts in is looked at.
///
/// # Errors
///
/// Fails only where there is no memory.
pub fn locals_after(
    alloc: Global,
    before: &Before<'_, '_>,
    lines: &[Line],
) -> Result<Locals, AllocError>
    requires before { IsBefore before.now }
    requires edited { lines.now ≡ lines_after (lines_before before.now) (edit_on before.now) }
    requires few { length lines.now ≤ MAX_LINES }
    ensures { IfOk result (λ l. AreLocals (program_of lines.now) (length lines.now) l) }
{
    let text = &before.symbols.text;
    let labels = labels_put_in(text.lines, lines, &before.edit);
    let mut put_in = Locals::new(alloc);
    put_in.put_line(alloc, labels, before.edit.place())?;
    let rows = rows_after(alloc, &before.edit, put_in.rows(), text.locals.rows())?;
    Ok(Locals::of_rows(rows))
}
