//! Lines of which `%pcrel_lo` of a symbol is the only operand: what it gives is compared, and no value is computed for that.

ghost use Rattle.std.specs.Prelude.{◌≡◌, ℕ, List, not, IfOk};
ghost use Rattle.std.specs.Option.{option_map};
ghost use Rattle.rv_program.specs.internal.Before.{IsBefore, IsAfter};
ghost use Rattle.rv_program.specs.internal.Differing.{HasLows};
ghost use Rattle.rv_program.specs.internal.Rows.{number_of};
ghost use Rattle.rv_program.specs.internal.SymbolRows.{AreSymbolRows};
ghost use Rattle.rv_program.specs.internal.TextRows.{AreTextRows, AreHighsIn, program_in};
ghost use Rattle.rv_program.specs.Pairs.{low_symbol_among, low_symbol_of, low_by, low_of_symbol};
ghost use Rattle.rv_program.specs.Sameness.{same_entry};

use crate::before::Before;
use crate::line_names::line_of_place;
use crate::name_set::{Mark, NameSet};
use crate::pairs::high_in;
use crate::symbol_rows::SymbolRows;
use rv_expr::LabelReference;
use rv_fix::{Entry, is_same_entry};
use rv_stmt::{Body, Operand, OperandValue, Role, low_part};
use std::alloc::{AllocError, Global};

// The symbol, if there is one operand, which is `%pcrel_lo` of a symbol.
fn low_symbol_among(operands: &[Operand]) -> Option<&[u8]>
    ensures { option_map (λ n. n.now) result ≡ low_symbol_among operands.now }
{
    let [operand] = operands else {
        return None;
    };
    let Role::Immediate = operand.role else {
        return None;
    };
    let OperandValue::PcrelLow(label) = &operand.value else {
        return None;
    };
    match label {
        LabelReference::Symbol(name) => Some(name.bytes()),
        _ => None,
    }
}

/// The symbol of a line of which `%pcrel_lo` of it is the only operand.
pub fn low_symbol(body: &Body) -> Option<&[u8]>
    ensures { option_map (λ n. n.now) result ≡ low_symbol_of body.now }
{
    match body {
        Body::Instr(instruction) => low_symbol_among(instruction.operands.as_slice()),
        _ => None,
    }
}

// The lower part of a high half, if there is one.
fn low_of(high: Entry) -> Entry
    ensures { result ≡ low_by high }
{
    let high = high?;
    Ok(i64::from(low_part(high)))
}

// What `%pcrel_lo` of the symbol of this number, or of one that has none, gives. `highs` has what it takes.
fn low_of_symbol(rows: &SymbolRows<'_>, highs: &[Entry], number: Option<usize>) -> Entry
    requires rows { AreTextRows rows.now.text }
    requires highs { AreHighsIn rows.now.text highs.now }
    ensures { (name : List ℕ) → number_of rows.now.text.names.now name ≡ number → result ≡ low_of_symbol rows.now.text.base (program_in rows.now.text) name }
{
    let line = line_of_place(rows.definition_of(number))?;
    low_of(high_in(highs, line as usize))
}

/// Whether `%pcrel_lo` of the symbol of this number, or of one that has none, gives something else than it gave. The rows of high halves are
/// those of the texts.
pub fn differs_in_low(
    before: &SymbolRows<'_>,
    highs_before: &[Entry],
    after: &SymbolRows<'_>,
    highs: &[Entry],
    number: Option<usize>,
) -> bool
    requires before { AreTextRows before.now.text }
    requires highs_before { AreHighsIn before.now.text highs_before.now }
    requires after { AreTextRows after.now.text }
    requires highs { AreHighsIn after.now.text highs.now }
    requires names { after.now.text.names.now ≡ before.now.text.names.now }
    ensures { (name : List ℕ) → number_of after.now.text.names.now name ≡ number
        → result ≡ not (same_entry (low_of_symbol after.now.text.base (program_in after.now.text) name) (low_of_symbol before.now.text.base (program_in before.now.text) name)) }
{
    !is_same_entry(
        low_of_symbol(after, highs, number),
        low_of_symbol(before, highs_before, number),
    )
}

/// The symbols of which `%pcrel_lo` gives something else after an edit than it gave, and maybe others. `highs` has what it takes. `None` where no
/// line has a high half, before the edit and after it: then it gives a fault, by whether the symbol is defined. A symbol that has no number
/// is defined in neither text. Fails only where there is no memory.
pub fn differing_lows(
    alloc: Global,
    before: &Before<'_, '_>,
    after: &SymbolRows<'_>,
    highs: &[Entry],
) -> Result<Option<NameSet>, AllocError>
    requires before { IsBefore before.now }
    requires rows { AreSymbolRows after.now }
    requires after { IsAfter before.now after.now.text }
    requires highs { AreHighsIn after.now.text highs.now }
    ensures { IfOk result (HasLows before.now after.now.text) }
{
    if highs.is_empty() && before.highs.is_empty() {
        return Ok(None);
    }
    let names = after.text.names;
    let mut lows = NameSet::empty(alloc, 0)?;
    for number in 0..names.len() {
        if differs_in_low(&before.symbols, before.highs, after, highs, Some(number)) {
            lows.add(names.bucket(number), Mark::Changed);
        }
    }
    Ok(Some(lows))
}
