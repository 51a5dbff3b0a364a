//! Which lines are due after an edit: what is kept of them is made anew.

ghost use Rattle.std.specs.Prelude.{◌≡◌, ◌≤◌, ◌<◌, ◌+◌, ◌-◌, ◌^◌, ℕ, not, true, false, Some, None, length, map, IfOk, IsTrue};
ghost use Rattle.rv_stmt.specs.declared.statement.Body.TheVariants.{Equ as EquBody};
ghost use Rattle.rv_program.specs.internal.Before.{IsBefore, IsAfter, AreStill, base_before, lines_before, edit_on};
ghost use Rattle.rv_program.specs.internal.Briefs.{brief_of};
ghost use Rattle.rv_program.specs.Changes.{is_reencoded, is_due};
ghost use Rattle.rv_program.specs.Codes.{values_of_body};
ghost use Rattle.rv_program.specs.internal.Compared.{IsCompared, AreCompared};
ghost use Rattle.rv_program.specs.Counted.{counts_of};
ghost use Rattle.rv_program.specs.internal.Differing.{HasDiffering, HasLows, HaveSameLows, HasDueMask};
ghost use Rattle.rv_program.specs.internal.LineSearch.{AreUnwanted};
ghost use Rattle.rv_program.specs.Jumps.{target_of};
ghost use Rattle.rv_program.specs.Pairs.{low_symbol_of, is_high_alone};
ghost use Rattle.rv_program.specs.Program.{statement_at, body_at};
ghost use Rattle.rv_program.specs.Sameness.{same_values};
ghost use Rattle.rv_program.specs.internal.Revisions.{edited_before, AreDue};
ghost use Rattle.rv_program.specs.internal.SymbolRows.{AreSymbolRows};
ghost use Rattle.rv_program.specs.internal.TextRows.{AreHighsIn, program_in};
ghost use Rattle.rv_program.specs.Uses.{is_equ};

use crate::before::Before;
use crate::brief::Brief;
use crate::highs::upper_by;
use crate::invalidation::{is_invalidated, may_be_invalidated};
use crate::jumps::{differs_in_distance, differs_in_local_distance, moved_together};
use crate::line_search::{SearchPart, SearchedLines};
use crate::line_values::symbol_value;
use crate::lows::{differing_lows, differs_in_low};
use crate::mask::{Kind, Mask};
use crate::name_set::NameSet;
use crate::pairs::high_in;
use crate::symbol_rows::SymbolRows;
use crate::text_lines::{equ_on, is_high_alone_on, low_symbol_on, target_on};
use crate::used_names::UsedNames;
use rv_expr::{Expr, Node};
use rv_fix::{Entry, is_same_entry};
use rv_stmt::Definition;
use rv_text::Count;
use std::alloc::{AllocError, Global};

// Whether the symbol of an `.equ` on `line` has another value than it had on the line `stood`, or only one of the two lines is
// the definition of the symbol.
fn differs_in_symbol(
    before: &SymbolRows<'_>,
    after: &SymbolRows<'_>,
    definition: &Definition,
    stood: u32,
    line: u32,
) -> bool
    requires before { AreSymbolRows before.now }
    requires after { AreSymbolRows after.now }
    requires names { after.now.text.names.now ≡ before.now.text.names.now }
    requires first_stood { 1 ≤ stood }
    requires last_stood { stood ≤ length before.now.text.lines.now }
    requires first { 1 ≤ line }
    requires last { line ≤ length after.now.text.lines.now }
    requires equ_before { body_at (program_in before.now.text) stood ≡ EquBody definition.now }
    requires equ { body_at (program_in after.now.text) line ≡ EquBody definition.now }
    ensures { result ≡ not (same_values (values_of_body after.now.text.base (program_in after.now.text) line (EquBody definition.now)) (values_of_body before.now.text.base (program_in before.now.text) stood (EquBody definition.now))) }
{
    let number = after.text.names.number(definition.symbol.bytes());
    let value = symbol_value(after, number, line);
    !value.is_same(&symbol_value(before, number, stood))
}

// Whether an `.equ` is due: it is new, or its symbol has another value than it had. All `.equ`s are invalidated.
fn is_equ_due(
    before: &Before<'_, '_>,
    after: &SymbolRows<'_>,
    definition: &Definition,
    line: u32,
) -> bool
    requires before { IsBefore before.now }
    requires rows { AreSymbolRows after.now }
    requires after { IsAfter before.now after.now.text }
    requires first { 1 ≤ line }
    requires last { line ≤ length after.now.text.lines.now }
    requires equ { body_at (program_in after.now.text) line ≡ EquBody definition.now }
    ensures { result ≡ is_reencoded (base_before before.now) (lines_before before.now) (edit_on before.now) line }
{
    match before.edit.line_before(line) {
        Some(stood) => differs_in_symbol(&before.symbols, after, definition, stood, line),
        None => true,
    }
}

// Whether a jump is due: it is new, or its target is another distance from it than it was.
fn is_jump_due<C: Count>(
    before: &Before<'_, '_>,
    after: &SymbolRows<'_>,
    target: &Expr,
    line: u32,
    counter: &mut C,
) -> bool
    requires before { IsBefore before.now }
    requires rows { AreSymbolRows after.now }
    requires after { IsAfter before.now after.now.text }
    requires first { 1 ≤ line }
    requires last { line ≤ length after.now.text.lines.now }
    requires target { target_of (body_at (program_in after.now.text) line) ≡ Some target.now }
    requires count { C.valued_count counter.old < 2 ^ 64 - 1 }
    ensures due { result ≡ is_reencoded (base_before before.now) (lines_before before.now) (edit_on before.now) line }
    ensures compared { IsCompared (edited_before before.now) line (counts_of C.parsed_count C.valued_count C.encoded_count counter.old) (counts_of C.parsed_count C.valued_count C.encoded_count counter.new) }
{
    let Some(stood) = before.edit.line_before(line) else {
        return true;
    };
    let symbols = &before.symbols;
    match &target.node {
        Node::Symbol(name) => differs_in_distance(symbols, after, name.bytes(), stood, line),
        Node::Local(number, direction) => differs_in_local_distance(
            &symbols.text,
            &after.text,
            *number,
            *direction,
            stood,
            line,
            counter,
        ),
        _ => unreachable!(),
    }
}

// Whether a line of which `%pcrel_lo` of a symbol is the only operand is due: it is new, or that gives something else than it gave.
fn is_low_due(
    before: &Before<'_, '_>,
    after: &SymbolRows<'_>,
    highs: &[Entry],
    name: &[u8],
    line: u32,
) -> bool
    requires before { IsBefore before.now }
    requires rows { AreSymbolRows after.now }
    requires after { IsAfter before.now after.now.text }
    requires highs { AreHighsIn after.now.text highs.now }
    requires first { 1 ≤ line }
    requires last { line ≤ length after.now.text.lines.now }
    requires low { low_symbol_of (body_at (program_in after.now.text) line) ≡ Some name.now }
    ensures { result ≡ is_reencoded (base_before before.now) (lines_before before.now) (edit_on before.now) line }
{
    let Some(_stood) = before.edit.line_before(line) else {
        return true;
    };
    let number = after.text.names.number(name);
    differs_in_low(&before.symbols, before.highs, after, highs, number)
}

// Whether a line of which `%pcrel_hi` is the only operand is due: it is new, or that gives something else than it gave.
fn is_high_due(before: &Before<'_, '_>, after: &SymbolRows<'_>, highs: &[Entry], line: u32) -> bool
    requires before { IsBefore before.now }
    requires after { IsAfter before.now after.now.text }
    requires highs { AreHighsIn after.now.text highs.now }
    requires first { 1 ≤ line }
    requires last { line ≤ length after.now.text.lines.now }
    requires high { is_high_alone (body_at (program_in after.now.text) line) ≡ true }
    ensures { result ≡ is_reencoded (base_before before.now) (lines_before before.now) (edit_on before.now) line }
{
    let Some(stood) = before.edit.line_before(line) else {
        return true;
    };
    let upper = upper_by(high_in(highs, line as usize));
    !is_same_entry(upper, upper_by(high_in(before.highs, stood as usize)))
}

// Whether a line that is no `.equ` and no jump is due.
fn is_other_due(
    before: &Before<'_, '_>,
    after: &SymbolRows<'_>,
    highs: &[Entry],
    differing: &NameSet,
    line: u32,
) -> bool
    requires before { IsBefore before.now }
    requires rows { AreSymbolRows after.now }
    requires after { IsAfter before.now after.now.text }
    requires highs { AreHighsIn after.now.text highs.now }
    requires differing { HasDiffering (base_before before.now) (lines_before before.now) (edit_on before.now) differing.now }
    requires first { 1 ≤ line }
    requires last { line ≤ length after.now.text.lines.now }
    requires equ { is_equ (body_at (program_in after.now.text) line) ≡ false }
    requires jump { target_of (body_at (program_in after.now.text) line) ≡ None }
    ensures { result ≡ is_due (base_before before.now) (lines_before before.now) (edit_on before.now) line }
{
    if let Some(name) = low_symbol_on(&after.text, line) {
        return is_low_due(before, after, highs, name, line);
    }
    if is_high_alone_on(&after.text, line) {
        return is_high_due(before, after, highs, line);
    }
    is_invalidated(before, after, differing, line)
}

// Whether a line of the text after an edit is due. `differing` has each symbol that differs on one of the lines.
fn is_due<C: Count>(
    before: &Before<'_, '_>,
    after: &SymbolRows<'_>,
    highs: &[Entry],
    differing: &NameSet,
    line: u32,
    counter: &mut C,
) -> bool
    requires before { IsBefore before.now }
    requires rows { AreSymbolRows after.now }
    requires after { IsAfter before.now after.now.text }
    requires highs { AreHighsIn after.now.text highs.now }
    requires differing { HasDiffering (base_before before.now) (lines_before before.now) (edit_on before.now) differing.now }
    requires first { 1 ≤ line }
    requires last { line ≤ length after.now.text.lines.now }
    requires count { C.valued_count counter.old < 2 ^ 64 - 1 }
    ensures due { result ≡ is_due (base_before before.now) (lines_before before.now) (edit_on before.now) line }
    ensures compared { IsCompared (edited_before before.now) line (counts_of C.parsed_count C.valued_count C.encoded_count counter.old) (counts_of C.parsed_count C.valued_count C.encoded_count counter.new) }
{
    if let Some(definition) = equ_on(&after.text, line) {
        return is_equ_due(before, after, definition, line);
    }
    match target_on(&after.text, line) {
        Some(target) => is_jump_due(before, after, target, line, counter),
        None => is_other_due(before, after, highs, differing, line),
    }
}

// Whether a line with this brief uses how far a symbol is from it, and nothing else, and both moved as far as the lines after the edit: the
// symbol is as far from it as it was.
#[inline]
fn is_carried(
    before: &Before<'_, '_>,
    after: &SymbolRows<'_>,
    differing: &NameSet,
    brief: Brief,
    line: u32,
) -> bool
    requires before { IsBefore before.now }
    requires rows { AreSymbolRows after.now }
    requires after { IsAfter before.now after.now.text }
    requires differing { HasDiffering (base_before before.now) (lines_before before.now) (edit_on before.now) differing.now }
    requires brief { brief ≡ brief_of (statement_at (program_in after.now.text) line) }
    requires first { 1 ≤ line }
    requires last { line ≤ length after.now.text.lines.now }
    ensures { IsTrue result → is_due (base_before before.now) (lines_before before.now) (edit_on before.now) line ≡ false }
{
    match before.edit.line_before(line) {
        Some(stood) if brief.relative && !brief.uncompared => {
            let former = &before.symbols.text;
            moved_together(former, &after.text, differing, brief.names, stood, line)
        }
        _ => false,
    }
}

// Whether `%pcrel_lo` of each of the names that a line uses gives what it gave. `lows` has those for which it does not, or is `None`: then
// `differing` has each that is defined in one of the texts alone, and that is no label that moved.
fn have_same_lows(differing: &NameSet, lows: &Option<NameSet>, names: UsedNames) -> bool
    ensures { IsTrue result → HaveSameLows names differing.now lows.now }
{
    match lows {
        Some(lows) => !names.meets(lows),
        None => names.has_moved(differing) || !names.meets(differing),
    }
}

// Like `is_due`, but usually decides from the line's brief alone. `lows` tells of the symbols of which `%pcrel_lo` gives something else.
#[inline(always)]
fn is_due_by_brief<C: Count>(
    before: &Before<'_, '_>,
    after: &SymbolRows<'_>,
    highs: &[Entry],
    differing: &NameSet,
    lows: &Option<NameSet>,
    brief: Brief,
    line: u32,
    counter: &mut C,
) -> bool
    requires before { IsBefore before.now }
    requires rows { AreSymbolRows after.now }
    requires after { IsAfter before.now after.now.text }
    requires highs { AreHighsIn after.now.text highs.now }
    requires differing { HasDiffering (base_before before.now) (lines_before before.now) (edit_on before.now) differing.now }
    requires lows { HasLows before.now after.now.text lows.now }
    requires brief { brief ≡ brief_of (statement_at (program_in after.now.text) line) }
    requires first { 1 ≤ line }
    requires last { line ≤ length after.now.text.lines.now }
    requires count { C.valued_count counter.old < 2 ^ 64 - 1 }
    ensures due { result ≡ is_due (base_before before.now) (lines_before before.now) (edit_on before.now) line }
    ensures compared { IsCompared (edited_before before.now) line (counts_of C.parsed_count C.valued_count C.encoded_count counter.old) (counts_of C.parsed_count C.valued_count C.encoded_count counter.new) }
{
    let stays = line != before.edit.place();
    let keeps_low = stays && brief.low && have_same_lows(differing, lows, brief.names);
    if keeps_low || !may_be_invalidated(before, after, differing, brief, line) {
        return false;
    }
    !is_carried(before, after, differing, brief, line)
        && is_due(before, after, highs, differing, line, counter)
}

// What the lines that may be due have, but for a new one: they use a symbol of one of the sets, or what is not compared, or their own address,
// but that only where lines moved.
fn due_mask(differing: &NameSet, lows: &Option<NameSet>, still: bool) -> Mask
    ensures { HasDueMask differing.now lows.now still result }
{
    let lows = match lows {
        Some(lows) => lows.mask(),
        None => Mask::none(),
    };
    differing
        .mask()
        .with(lows)
        .with_kind(Kind::Uncompared, true)
        .with_kind(Kind::Addressed, !still)
}

// How many lines there are before the next one after the first `i` that is to be looked at, or is at the place of the edit.
#[inline(always)]
fn lines_up_to_due(
    searched: &SearchedLines<'_>,
    part: &mut SearchPart,
    i: usize,
    wanted: Mask,
    place: u32,
) -> usize
    requires within { i ≤ length searched.now }
    ensures up { i ≤ result }
    ensures within { result ≤ length searched.now }
    ensures passed { AreUnwanted wanted searched.now i result }
    ensures apart { (k : ℕ) → i ≤ k → k < result → k + 1 ≡ place → ⊥ }
{
    if part.has(i) {
        return i;
    }
    let next = searched.next(part, i, wanted);
    let edited = (place as usize).saturating_sub(1);
    if i <= edited { next.min(edited) } else { next }
}

/// The lines of the text after an edit that are due, rising: the edit invalidates each of them, and all others keep their values and their
/// shape. `searched` has the lines of the text, `highs` has what `%pcrel_lo` takes, `differing` has each symbol that differs on one of them, and
/// `still` is only true where each line is where it was.
///
/// The counter's number of expressions computed rises by one for each jump to a local label that stood in the text before: the distance of
/// the label is computed in both texts.
///
/// # Errors
///
/// Fails only where there is no memory.
pub fn due_lines<C: Count>(
    alloc: Global,
    before: &Before<'_, '_>,
    after: &SymbolRows<'_>,
    highs: &[Entry],
    differing: &NameSet,
    searched: &SearchedLines<'_>,
    still: bool,
    counter: &mut C,
) -> Result<Vec<u32>, AllocError>
    requires before { IsBefore before.now }
    requires rows { AreSymbolRows after.now }
    requires after { IsAfter before.now after.now.text }
    requires highs { AreHighsIn after.now.text highs.now }
    requires differing { HasDiffering (base_before before.now) (lines_before before.now) (edit_on before.now) differing.now }
    requires searched { searched.now ≡ after.now.text.lines.now }
    requires still { still ≡ true → AreStill before.now after.now.text }
    requires count { C.valued_count counter.old + length after.now.text.lines.now < 2 ^ 64 }
    ensures due { IfOk result (λ row. AreDue (edited_before before.now) (length after.now.text.lines.now) row.items) }
    ensures compared { AreCompared (edited_before before.now) (length after.now.text.lines.now) (counts_of C.parsed_count C.valued_count C.encoded_count counter.old) (counts_of C.parsed_count C.valued_count C.encoded_count counter.new) }
{
    let lows = differing_lows(alloc, before, after, highs)?;
    let lows = &lows;
    let wanted = due_mask(differing, lows, still);
    let place = before.edit.place();
    let lines = searched.lines();
    let mut row = Vec::new(alloc);
    let mut part = SearchPart::start();
    let mut i = lines_up_to_due(searched, &mut part, 0, wanted, place);
    'lines: while i < lines.len() {
        let line = i as u32 + 1;
        if is_due_by_brief(
            before,
            after,
            highs,
            differing,
            lows,
            lines[i].brief(),
            line,
            counter,
        ) {
            row.push(line)?;
        }
        i = lines_up_to_due(searched, &mut part, i + 1, wanted, place);
    }
    Ok(row)
}
