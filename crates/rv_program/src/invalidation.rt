//! Which lines an edit invalidates: their values may differ from those that they had.

ghost use Rattle.std.specs.Prelude.{◌≡◌, ◌≤◌, ℕ, false, Some, length};
ghost use Rattle.rv_program.specs.internal.Before.{IsBefore, IsAfter, base_before, lines_before, edit_on};
ghost use Rattle.rv_program.specs.internal.Briefs.{brief_of};
ghost use Rattle.rv_program.specs.Changes.{differs_in_place, differs_in_uses, is_invalidated};
ghost use Rattle.rv_program.specs.internal.Differing.{HasDiffering};
ghost use Rattle.rv_program.specs.Edits.{line_before_edit};
ghost use Rattle.rv_program.specs.internal.LinePairs.{IsLinePair, IsOpenPair, HasDifferingOn, differs_in_name_on, program_before_pair, program_after_pair};
ghost use Rattle.rv_program.specs.Program.{statement_at, body_at};
ghost use Rattle.rv_program.specs.internal.SymbolRows.{AreSymbolRows};
ghost use Rattle.rv_program.specs.internal.TextRows.{AreTextRows, program_in};

use crate::before::Before;
use crate::brief::Brief;
use crate::name_set::NameSet;
use crate::symbol_rows::SymbolRows;
use crate::text_lines::{brief_on, place_on, statement_on};
use crate::text_rows::TextRows;
use crate::uses::{NameTest, any_name};
use rv_fix::is_same_entry;

// A line of a text after an edit, and the line that it was before it.
#[derive(Drop)]
struct LinePair<'a> {
    before: &'a SymbolRows<'a>,
    after: &'a SymbolRows<'a>,
    stood: u32,
    line: u32,
}

// The symbols that give another value or another constant on the line than they gave before.
impl NameTest for LinePair<'_> {
    ghost can_test = { IsOpenPair };

    ghost test = { differs_in_name_on };

    fn passes(&self, name: &[u8]) -> bool {
        let after = self.after;
        let number = after.text.names.number(name);
        !is_same_entry(self.after.value_of(number), self.before.value_of(number))
            || self.after.constant_of(self.line, number)
                != self.before.constant_of(self.stood, number)
    }
}

// Whether a line has another address than the line `stood` had, or is in another section.
fn differs_in_place(before: &TextRows<'_>, after: &TextRows<'_>, stood: u32, line: u32) -> bool
    requires before { AreTextRows before.now }
    requires after { AreTextRows after.now }
    requires base { after.now.base ≡ before.now.base }
    requires first_stood { 1 ≤ stood }
    requires last_stood { stood ≤ length before.now.lines.now }
    requires first { 1 ≤ line }
    requires last { line ≤ length after.now.lines.now }
    ensures { result ≡ differs_in_place before.now.base (program_in before.now) (program_in after.now) line stood }
{
    let after = place_on(after, line);
    let before = place_on(before, stood);
    after.address != before.address || after.section != before.section
}

impl LinePair<'_> {
    // Whether the line has another address than it had, or is in another section.
    fn differs_in_place(&self) -> bool
        requires { IsLinePair self.now }
        ensures { result ≡ differs_in_place self.now.before.now.text.base (program_before_pair self.now) (program_after_pair self.now) self.now.line self.now.stood }
    {
        differs_in_place(&self.before.text, &self.after.text, self.stood, self.line)
    }

    // Whether what the line uses gives something else than it gave, or it uses what is not compared. `differing` has each
    // symbol that differs on it: if the line uses none of them, it is not asked for its names one by one.
    fn differs_in_uses(&self, differing: &NameSet) -> bool
        requires lines { IsLinePair self.now }
        requires differing { HasDifferingOn self.now differing.now }
        ensures { result ≡ differs_in_uses self.now.before.now.text.base (program_before_pair self.now) (program_after_pair self.now) self.now.line self.now.stood (body_at (program_after_pair self.now) self.now.line) }
    {
        let brief = brief_on(&self.after.text, self.line);
        if brief.uncompared || brief.address && self.differs_in_place() {
            return true;
        }
        brief.names.meets(differing)
            && any_name(&statement_on(&self.after.text, self.line).body, self)
    }
}

// Whether a line is new, has another address than it had, or is in another section.
#[inline]
fn is_new_or_moved(before: &Before<'_, '_>, after: &SymbolRows<'_>, line: u32) -> bool
    requires before { IsBefore before.now }
    requires rows { AreSymbolRows after.now }
    requires after { IsAfter before.now after.now.text }
    requires first { 1 ≤ line }
    requires last { line ≤ length after.now.text.lines.now }
    ensures { result ≡ false → (stood : ℕ) → line_before_edit (edit_on before.now) line ≡ Some stood
        → differs_in_place (base_before before.now) (program_in before.now.symbols.text) (program_in after.now.text) line stood ≡ false }
{
    let Some(stood) = before.edit.line_before(line) else {
        return true;
    };
    differs_in_place(&before.symbols.text, &after.text, stood, line)
}

/// Whether an edit may invalidate a line of the text after it, which has this brief: a test without a look at its statement,
/// which almost all other lines fail. `differing` has each symbol that differs on one of the lines.
#[inline]
pub fn may_be_invalidated(
    before: &Before<'_, '_>,
    after: &SymbolRows<'_>,
    differing: &NameSet,
    brief: Brief,
    line: u32,
) -> bool
    requires before { IsBefore before.now }
    requires rows { AreSymbolRows after.now }
    requires after { IsAfter before.now after.now.text }
    requires differing { HasDiffering (base_before before.now) (lines_before before.now) (edit_on before.now) differing.now }
    requires brief { brief ≡ brief_of (statement_at (program_in after.now.text) line) }
    requires first { 1 ≤ line }
    requires last { line ≤ length after.now.text.lines.now }
    ensures { result ≡ false → is_invalidated (base_before before.now) (lines_before before.now) (edit_on before.now) line ≡ false }
{
    let may_be_new = line == before.edit.place();
    if brief.alone {
        return may_be_new;
    }
    if may_be_new || brief.uncompared || brief.names.meets(differing) {
        return true;
    }
    brief.address && is_new_or_moved(before, after, line)
}

/// Whether an edit invalidates a line of the text after it. `differing` has each symbol that differs on one of the lines.
pub fn is_invalidated(
    before: &Before<'_, '_>,
    after: &SymbolRows<'_>,
    differing: &NameSet,
    line: u32,
) -> bool
    requires before { IsBefore before.now }
    requires rows { AreSymbolRows after.now }
    requires after { IsAfter before.now after.now.text }
    requires differing { HasDiffering (base_before before.now) (lines_before before.now) (edit_on before.now) differing.now }
    requires first { 1 ≤ line }
    requires last { line ≤ length after.now.text.lines.now }
    ensures { result ≡ is_invalidated (base_before before.now) (lines_before before.now) (edit_on before.now) line }
{
    let Some(stood) = before.edit.line_before(line) else {
        return true;
    };
    let pair = LinePair {
        before: &before.symbols,
        after,
        stood,
        line,
    };
    pair.differs_in_uses(differing)
}
