//! The last line of a text, where no other line has to do with it: it goes, and all others stay as they are.

ghost use Rattle.std.specs.Prelude.{◌≡◌, ◌≤◌, ℕ, length, true, IfSome};
ghost use Rattle.rv_layout.specs.Places.{is_base};
ghost use Rattle.rv_program.specs.declared.limits.TheConstants.{MAX_LINES};
ghost use Rattle.rv_program.specs.Program.{program_of};
ghost use Rattle.rv_program.specs.internal.Lines.{lines_of};
ghost use Rattle.rv_store.specs.internal.StillLines.{IsLastLine};
ghost use Rattle.rv_store.specs.internal.Surveys.{IsSurvey};

use crate::apart::adds_apart;
use crate::ends::Ends;
use crate::places::stay_sections;
use crate::survey::Survey;
use rv_program::{Item, Line, MAX_LINES, NameTable, SearchedLines};
use rv_tree::SumTree;
use std::alloc::Global;

/// The last line of a text, with which no other line has to do.
#[derive(Clone, Copy)]
pub struct LastLine {
    /// Where the sections end before it.
    pub before: Ends,
    /// It defines a name that the lines before it do not.
    pub defines: bool,
}

/// What the last line of a text is, if no other line has to do with it: it has no local label and no high half, none uses what it alone
/// defines, and no section moves where it goes. `items` are those of the text.
pub fn last_line(
    alloc: Global,
    base: u32,
    names: &NameTable,
    survey: &Survey,
    items: &SumTree<Item>,
) -> Option<LastLine>
    requires base { is_base base ≡ true }
    requires survey { IsSurvey base (program_of survey.now.lines.items) names.now survey.now }
    requires items { lines_of items.now.items ≡ survey.now.lines.items }
    requires few { length survey.now.lines.items ≤ MAX_LINES }
    ensures { IfSome result (IsLastLine base survey.now.lines.items) }
{
    let (line, earlier) = survey.lines.as_slice().split_last()?;
    let before = survey.ends.before(&survey.places[earlier.len()]);
    if !stay_sections(base, &before, &survey.ends) {
        return None;
    }
    let brief = line.brief();
    if brief.local_labels || brief.pcrel_high {
        return None;
    }
    let end = survey.lines.len() as u32;
    let searched = SearchedLines::in_tree(earlier, items);
    let added = adds_apart(
        alloc,
        &searched,
        survey.lines.uses(),
        names,
        &survey.definitions,
        line,
        end,
    )?;
    if !added.users.is_empty() {
        return None;
    }
    Some(LastLine {
        before,
        defines: added.any,
    })
}

impl Survey {
    /// Takes the last line out, with which no other line has to do.
    pub fn remove_last(&mut self, names: &NameTable, line: &Line, last: &LastLine)
        requires some { 1 ≤ length self.old.lines.items }
        requires few { length self.old.lines.items ≤ MAX_LINES }
        requires named { length self.old.definitions.items ≤ length names.now }
        ensures lines { (base : ℕ) → (is : IsLastLine base self.old.lines.items last.now) → self.new.lines.items ≡ is.lines }
        ensures survey { (base : ℕ) → (is : IsLastLine base self.old.lines.items last.now) → line.now ≡ is.line
            → IsSurvey base (program_of self.old.lines.items) names.now self.old → IsSurvey base (program_of is.lines) names.now self.new }
    {
        self.forget_last(names, line, last.defines);
        let place = self.lines.len() - 1;
        self.lines.truncate(place);
        self.shapes.truncate(place);
        self.places.truncate(place);
        self.highs.truncate(place);
        self.ends = last.before;
    }
}
