//! The symbols that an edit changes.

ghost use Rattle.std.specs.Prelude.{◌≡◌, ℕ, List, false, IsTrue, IfSome, IfOk};
ghost use Rattle.rv_program.specs.internal.Before.{IsBefore, IsAfter, base_before, lines_before, edit_on};
ghost use Rattle.rv_program.specs.internal.Differing.{IsOneConstant, DiffersNowhere, TellsAddress, Tells, HasDiffering};
ghost use Rattle.rv_program.specs.internal.Rows.{number_of, IsNumber};
ghost use Rattle.rv_program.specs.internal.SymbolRows.{AreSymbolRows};

use crate::before::Before;
use crate::jumps::rise;
use crate::name_set::{Mark, NameSet};
use crate::names::entry_at;
use crate::symbol_rows::SymbolRows;
use rv_fix::is_same_entry;
use std::alloc::{AllocError, Global};

// Whether the symbol of this number is the same constant on each line as on the line that it was before the edit: no `.equ`
// defines it, or one that stayed and still gives the same constant. Other symbols may be so, too.
fn is_one_constant(before: &Before<'_, '_>, after: &SymbolRows<'_>, number: Option<usize>) -> bool
    requires before { IsBefore before.now }
    requires rows { AreSymbolRows after.now }
    requires after { IsAfter before.now after.now.text }
    requires numbered { IsNumber after.now.text.names.now number }
    ensures { IsTrue result → (name : List ℕ) → number_of after.now.text.names.now name ≡ number → IsOneConstant (lines_before before.now) (edit_on before.now) name }
{
    match (after.equ_of(number), before.symbols.equ_of(number)) {
        (None, None) => true,
        (Some(line), Some(stood)) => {
            before.edit.line_before(line) == Some(stood)
                && entry_at(after.constants, None, number)
                    == entry_at(before.symbols.constants, None, number)
        }
        _ => false,
    }
}

// How far a line behind an edit moved: the one after the line at its place. Where there is none, any number will do.
fn shift_behind(before: &Before<'_, '_>, after: &SymbolRows<'_>) -> i64
    requires before { IsBefore before.now }
    requires rows { AreSymbolRows after.now }
    requires after { IsAfter before.now after.now.text }
{
    let line = before.edit.place().saturating_add(1);
    if line as usize > after.text.lines.len() {
        return 0;
    }
    match before.edit.line_before(line) {
        Some(stood) => rise(&before.symbols.text, &after.text, stood, line),
        None => 0,
    }
}

// What is true of a label that had the one address and has the other, where the lines behind the edit moved so far.
fn mark_of_label(shift: i64, stood: u32, address: u32) -> Mark
    ensures { TellsAddress shift result stood address }
{
    if address == stood {
        return Mark::Same;
    }
    if i64::from(address) - i64::from(stood) == shift {
        return Mark::Moved;
    }
    Mark::Changed
}

// What is true of the symbol of this number, where a label defines it before the edit and after it: `None` where there is no such
// label. The lines behind the edit moved so far.
fn mark_of_labels(
    before: &Before<'_, '_>,
    after: &SymbolRows<'_>,
    shift: i64,
    number: Option<usize>,
) -> Option<Mark>
    requires before { IsBefore before.now }
    requires rows { AreSymbolRows after.now }
    requires after { IsAfter before.now after.now.text }
    ensures { IfSome result (λ mark. (name : List ℕ) → number_of after.now.text.names.now name ≡ number → Tells (base_before before.now) (lines_before before.now) (edit_on before.now) shift mark name) }
{
    let stood = before.symbols.label_of(number)?;
    let address = after.label_of(number)?;
    Some(mark_of_label(shift, stood, address))
}

// Whether the symbol of this number may give another value or another constant on a line than it gave before.
fn may_differ(before: &Before<'_, '_>, after: &SymbolRows<'_>, number: Option<usize>) -> bool
    requires before { IsBefore before.now }
    requires rows { AreSymbolRows after.now }
    requires after { IsAfter before.now after.now.text }
    requires numbered { IsNumber after.now.text.names.now number }
    ensures { result ≡ false → (name : List ℕ) → number_of after.now.text.names.now name ≡ number → DiffersNowhere (base_before before.now) (lines_before before.now) (edit_on before.now) name }
{
    !is_same_entry(after.value_of(number), before.symbols.value_of(number))
        || !is_one_constant(before, after, number)
}

// What is true of the symbol of this number, where the lines behind the edit moved so far.
fn mark_of(
    before: &Before<'_, '_>,
    after: &SymbolRows<'_>,
    shift: i64,
    number: Option<usize>,
) -> Mark
    requires before { IsBefore before.now }
    requires rows { AreSymbolRows after.now }
    requires after { IsAfter before.now after.now.text }
    requires numbered { IsNumber after.now.text.names.now number }
    ensures { (name : List ℕ) → number_of after.now.text.names.now name ≡ number → Tells (base_before before.now) (lines_before before.now) (edit_on before.now) shift result name }
{
    if let Some(mark) = mark_of_labels(before, after, shift, number) {
        return mark;
    }
    if may_differ(before, after, number) {
        return Mark::Changed;
    }
    Mark::Same
}

/// The symbols that give another value or another constant on a line of the text after an edit than they gave before, and
/// maybe others, with what is true of them. A symbol that has no number is defined in neither text. Fails only where there is no
/// memory.
pub fn differing_names(
    alloc: Global,
    before: &Before<'_, '_>,
    after: &SymbolRows<'_>,
) -> Result<NameSet, AllocError>
    requires before { IsBefore before.now }
    requires rows { AreSymbolRows after.now }
    requires after { IsAfter before.now after.now.text }
    ensures { IfOk result (HasDiffering (base_before before.now) (lines_before before.now) (edit_on before.now)) }
{
    let names = after.text.names;
    let shift = shift_behind(before, after);
    let mut differing = NameSet::empty(alloc, shift)?;
    for number in 0..names.len() {
        let bucket = names.bucket(number);
        let mark = mark_of(before, after, shift, Some(number));
        differing.add(bucket, mark);
    }
    Ok(differing)
}
