//! The values of the `.equ`s of a text after an edit, by those of the text before it.

ghost use Rattle.std.specs.Prelude.{◌≡◌, ◌≤◌, ◌<◌, ◌+◌, ◌-◌, ◌^◌, ℕ, List, true, false, Some, length, IfOk, IfSome, IsTrue, map};
ghost use Rattle.rv_list.specs.declared.view.DefinitionPlace.TheVariants.{Equ};
ghost use Rattle.rv_program.specs.internal.Before.{IsBefore, IsAfter, edit_on};
ghost use Rattle.rv_program.specs.internal.KeptEqus.{IsSameThrough, AreValuesAfter, IsLeft};
ghost use Rattle.rv_program.specs.internal.Rows.{number_of, IsNumber};
ghost use Rattle.rv_program.specs.internal.TextRows.{AreTextRows, AreEquValuesIn, program_in};
ghost use Rattle.rv_program.specs.internal.Work.{equ_operands, operands_through};
ghost use Rattle.rv_program.specs.Definitions.{definition_of};
ghost use Rattle.rv_program.specs.Edits.{line_before_edit};
ghost use Rattle.rv_program.specs.Program.{body_at};

use crate::before::Before;
use crate::definitions::defining_equ_on;
use crate::equ_values::{equ_values, value_on};
use crate::line_search::{SearchPart, SearchedLines};
use crate::mask::Kind;
use crate::name_set::{Mark, NameSet};
use crate::names::entry_at;
use crate::text_lines::{brief_on, place_on, statement_on};
use crate::text_rows::{TextRows, address_in};
use crate::uses::uses_local_label;
use rv_expr::ValueFault;
use rv_fix::{Entry, is_same_entry};
use rv_list::DefinitionPlace;
use rv_text::Count;
use std::alloc::{AllocError, Global};

// Where a text defines the symbol of this number.
fn definition_in(text: &TextRows<'_>, number: usize) -> DefinitionPlace
    requires { AreTextRows text.now }
    ensures { (name : List ℕ) → number_of text.now.names.now name ≡ Some number → result ≡ definition_of (program_in text.now) name }
{
    entry_at(text.definitions, DefinitionPlace::Nowhere, Some(number))
}

// Whether the symbol of this number is defined as it was: nowhere, by a label at the address of the former one, or by the
// same `.equ`.
fn is_defined_as_before(before: &Before<'_, '_>, text: &TextRows<'_>, number: usize) -> bool
    requires before { IsBefore before.now }
    requires rows { AreTextRows text.now }
    requires after { IsAfter before.now text.now }
    requires numbered { IsNumber text.now.names.now (Some number) }
    ensures { IsTrue result → (name : List ℕ) → number_of text.now.names.now name ≡ Some number → IsSameThrough before.now text.now 0 name }
{
    let former = &before.symbols.text;
    match (definition_in(text, number), definition_in(former, number)) {
        (DefinitionPlace::Nowhere, DefinitionPlace::Nowhere) => true,
        (DefinitionPlace::Label(line, _), DefinitionPlace::Label(stood, _)) => {
            address_in(text.places, line) == address_in(former.places, stood)
        }
        (DefinitionPlace::Equ(line), DefinitionPlace::Equ(stood)) => {
            before.edit.line_before(line) == Some(stood)
        }
        _ => false,
    }
}

// Whether the symbol of this number is defined by an `.equ` that stood before the edit.
fn is_by_former_equ(before: &Before<'_, '_>, text: &TextRows<'_>, number: usize) -> bool
    requires before { IsBefore before.now }
    requires rows { AreTextRows text.now }
    requires after { IsAfter before.now text.now }
    requires numbered { IsNumber text.now.names.now (Some number) }
    ensures { result ≡ false → (name : List ℕ) (line stood : ℕ) → number_of text.now.names.now name ≡ Some number
        → definition_of (program_in text.now) name ≡ Equ line → line_before_edit (edit_on before.now) line ≡ Some stood → ⊥ }
{
    match definition_in(text, number) {
        DefinitionPlace::Equ(line) => before.edit.line_before(line).is_some(),
        DefinitionPlace::Nowhere | DefinitionPlace::Label(_, _) => false,
    }
}

// The values that the `.equ`s had before the edit, and the symbols that are defined otherwise, or by labels that moved: `None` where an `.equ` that stood
// defines a symbol now that it did not define then. Fails only where there is no memory.
fn former_values(
    alloc: Global,
    before: &Before<'_, '_>,
    text: &TextRows<'_>,
) -> Result<Option<(Vec<Entry>, NameSet)>, AllocError>
    requires before { IsBefore before.now }
    requires rows { AreTextRows text.now }
    requires after { IsAfter before.now text.now }
    ensures { IfOk result (λ found. IfSome found (λ r. AreValuesAfter before.now text.now 0 r.0.items r.1)) }
{
    let names = text.names;
    let mut row = Vec::from_slice(alloc, before.symbols.equ_values)?;
    row.resize(names.len(), Err(ValueFault::LaterEqu))?;
    let mut differing = NameSet::empty(alloc, 0)?;
    for number in 0..names.len() {
        let bucket = names.bucket(number);
        if !is_defined_as_before(before, text, number) {
            if is_by_former_equ(before, text, number) {
                return Ok(None);
            }
            differing.add(bucket, Mark::Changed);
            row[number] = Err(ValueFault::LaterEqu);
        }
    }
    Ok(Some((row, differing)))
}

// Whether a line stood before the edit, and uses no symbol of the set, nor its own address where that is another, nor a local label.
fn is_left(before: &Before<'_, '_>, text: &TextRows<'_>, differing: &NameSet, line: u32) -> bool
    requires before { IsBefore before.now }
    requires rows { AreTextRows text.now }
    requires after { IsAfter before.now text.now }
    requires first { 1 ≤ line }
    requires last { line ≤ length text.now.lines.now }
    ensures { IsTrue result → IsLeft before.now text.now line differing.now }
{
    let Some(stood) = before.edit.line_before(line) else {
        return false;
    };
    let brief = brief_on(text, line);
    if brief.names.meets(differing) {
        return false;
    }
    if brief.address
        && place_on(text, line).address != place_on(&before.symbols.text, stood).address
    {
        return false;
    }
    !uses_local_label(&statement_on(text, line).body)
}

// Goes from the values of the `.equ`s of the first `i` lines to those of one line more. If the next line has the `.equ` that defines its
// symbol, and may give it another value than the row has, the value is computed, and the symbol added to the set if it is another.
// The counter's number of expressions computed rises by at most one.
fn settle_after<C: Count>(
    before: &Before<'_, '_>,
    text: &TextRows<'_>,
    i: usize,
    row: &mut Vec<Entry>,
    differing: &mut NameSet,
    counter: &mut C,
)
    requires before { IsBefore before.now }
    requires rows { AreTextRows text.now }
    requires after { IsAfter before.now text.now }
    requires within { i < length text.now.lines.now }
    requires values { AreValuesAfter before.now text.now i row.old.items differing.old }
    requires count { C.valued_count counter.old < 2 ^ 64 - 1 }
    ensures values { AreValuesAfter before.now text.now (i + 1) row.new.items differing.new }
    ensures valued { C.valued_count counter.old ≤ C.valued_count counter.new }
    ensures valued_within { C.valued_count counter.new ≤ C.valued_count counter.old + 1 }
    ensures operands { C.valued_count counter.new ≤ C.valued_count counter.old + equ_operands (body_at (program_in text.now) (i + 1)) }
    ensures parsed { C.parsed_count counter.new ≡ C.parsed_count counter.old }
    ensures encoded { C.encoded_count counter.new ≡ C.encoded_count counter.old }
{
    let line = i as u32 + 1;
    if is_left(before, text, differing, line) {
        return;
    }
    let read = text.lines.line(line);
    let Some((definition, number)) = defining_equ_on(read, line, text.names, text.definitions)
    else {
        return;
    };
    let value = value_on(text, row, line, definition, counter);
    if is_same_entry(value, row[number]) {
        return;
    }
    differing.add(text.names.bucket(number), Mark::Changed);
    row[number] = value;
}

// Whether there is an `.equ` for each eighth name, or more: the values of fewer take less than to go over the names.
fn are_equs_many(searched: &SearchedLines<'_>, names: usize) -> bool {
    let mut part = SearchPart::start();
    let mut next = 0;
    'equs: for _ in 0..names / 8 {
        next = searched.next_of_kind(&mut part, next, Kind::Equ);
        if next == searched.len() {
            return false;
        }
        next += 1;
    }
    true
}

/// The values of the `.equ`s of the text after an edit, by the numbers of their names. `searched` has its lines. An `.equ` that stood, and
/// uses nothing that gives something else, keeps its value. The counter's number of expressions computed rises by at most the operands of the
/// `.equ`s. Fails only where there is no memory, before anything is computed.
pub fn equ_values_after<C: Count>(
    alloc: Global,
    before: &Before<'_, '_>,
    text: &TextRows<'_>,
    searched: &SearchedLines<'_>,
    counter: &mut C,
) -> Result<Vec<Entry>, AllocError>
    requires before { IsBefore before.now }
    requires rows { AreTextRows text.now }
    requires after { IsAfter before.now text.now }
    requires searched { searched.now ≡ text.now.lines.now }
    requires count { C.valued_count counter.old ≤ 2 ^ 63 + 2 ^ 32 }
    ensures values { IfOk result (λ row. AreEquValuesIn text.now (length text.now.lines.now) row.items) }
    ensures valued { C.valued_count counter.old ≤ C.valued_count counter.new }
    ensures valued_within { C.valued_count counter.new ≤ C.valued_count counter.old + length text.now.lines.now }
    ensures operands { C.valued_count counter.new ≤ C.valued_count counter.old + operands_through equ_operands (program_in text.now) (length text.now.lines.now) }
    ensures parsed { C.parsed_count counter.new ≡ C.parsed_count counter.old }
    ensures encoded { C.encoded_count counter.new ≡ C.encoded_count counter.old }
{
    if !are_equs_many(searched, text.names.len()) {
        return equ_values(alloc, text, searched, counter);
    }
    let Some((mut row, mut differing)) = former_values(alloc, before, text)? else {
        return equ_values(alloc, text, searched, counter);
    };
    let count = searched.len();
    let mut part = SearchPart::start();
    let mut i = searched.next_of_kind(&mut part, 0, Kind::Equ);
    while i < count {
        settle_after(before, text, i, &mut row, &mut differing, counter);
        i = searched.next_of_kind(&mut part, i + 1, Kind::Equ);
    }
    Ok(row)
}
