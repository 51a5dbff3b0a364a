//! What is kept of the lines of a text.

ghost use Rattle.std.specs.Prelude.{◌≡◌, ℕ, ◌≤◌, ◌<◌, ◌+◌, ◌*◌, ◌^◌, [], None, length, true, IfOk};
ghost use Rattle.rv_layout.specs.Places.{section_base_of, section_end_of, sum_below, IsLimited, AreLimited, is_base};
ghost use Rattle.rv_layout.specs.Sections.{sections};
ghost use Rattle.rv_program.specs.internal.Before.{IsBefore, base_before, lines_before, edit_on};
ghost use Rattle.rv_program.specs.Edits.{edit_of};
ghost use Rattle.rv_program.specs.internal.Differing.{HasDiffering};
ghost use Rattle.rv_program.specs.internal.EditedRows.{HasPlace};
ghost use Rattle.rv_program.specs.internal.Lines.{lines_of};
ghost use Rattle.rv_store.specs.internal.Ends.{ends_of, end_in, place_by_shapes};
ghost use Rattle.rv_store.specs.internal.Unmoved.{AreUnmoved};
ghost use Rattle.rv_program.specs.internal.NewShapes.{IsNewShape, shape_operands};
ghost use Rattle.rv_program.specs.Program.{program_of, for_lines};
ghost use Rattle.rv_program.specs.internal.Rows.{Grows, AreDefinitions, AreConstants, AreShapes, AreLocals};
ghost use Rattle.rv_store.specs.internal.Surveys.{IsSurvey};
ghost use Rattle.rv_program.specs.internal.SymbolRows.{AreSymbolRows};
ghost use Rattle.rv_program.specs.Text.{refusal_of, lines_after};
ghost use Rattle.rv_program.specs.internal.ValueRows.{AreValueRows, base_of};
ghost use Rattle.rv_program.specs.internal.Work.{equ_operands, high_operands, survey_operands, operands_through, work};

use crate::column::Column;
use crate::edited_row::edited_row;
use crate::ends::Ends;
use crate::places::{Placed, place_put_in};
use crate::shapes::{ShapeRows, shapes};
use rv_fix::Entry;
use rv_layout::{Measured, bases_by_ends};
use rv_list::{DefinitionPlace, LinePlace, SectionPlace};
use rv_program::equ_values_after::equ_values_after;
use rv_program::highs::highs;
use rv_program::locals_after::locals_after;
use rv_program::{
    Before, Item, LineEdit, Lines, Locals, MAX_LINES, NameSet, NameTable, SearchedLines,
    SymbolRows, TextRows, ValueRows, definitions_after, differing_names,
};
use rv_text::Count;
use rv_tree::SumTree;
use std::alloc::{AllocError, Global};

/// What the lines of a text say, in rows: one value for each name, by its number, or one for each line. An edit that goes over the
/// lines makes them anew from the first line on. But definitions and local labels move with the lines, and a line keeps its shape where no
/// constant changes it.
pub struct Survey {
    /// The lines.
    pub lines: Column,
    /// Where each name is defined.
    pub definitions: Vec<DefinitionPlace>,
    /// The constant that each name is, if it is one.
    pub constants: Vec<Option<i64>>,
    /// The shape of each line.
    pub shapes: Vec<Measured>,
    /// Where the sections end after all lines.
    pub ends: Ends,
    /// Where each line lies.
    pub places: Vec<LinePlace>,
    /// The lines of the local labels.
    pub locals: Locals,
    /// The value that the `.equ` of each name has.
    pub equ_values: Vec<Entry>,
    /// What `%pcrel_lo` of a label on each line takes. The row may end before the lines do, if there is nothing for those behind its end.
    pub highs: Vec<Entry>,
}

// What a derive would do, but proved once: each way out of a function that has a survey would drop its fields one by one.
impl Drop for Survey {
    fn drop(self) {
        let Survey {
            lines: _,
            definitions: _,
            constants: _,
            shapes: _,
            ends: _,
            places: _,
            locals: _,
            equ_values: _,
            highs: _,
        } = self;
    }
}

impl Survey {
    /// That of no lines, which takes no memory.
    pub fn empty(alloc: Global) -> Self
        ensures survey { (base : ℕ) → IsSurvey base [] [] result }
        ensures lines { result.lines.items ≡ [] }
    {
        Survey {
            lines: Column::new(alloc),
            definitions: Vec::new(alloc),
            constants: Vec::new(alloc),
            shapes: Vec::new(alloc),
            ends: Ends::start(),
            places: Vec::new(alloc),
            locals: Locals::new(alloc),
            equ_values: Vec::new(alloc),
            highs: Vec::new(alloc),
        }
    }

    // Where the lines of the text after an edit lie, which have these shapes: where they lay, if it moved none of them.
    fn placed(
        &self,
        alloc: Global,
        base: u32,
        edit: &LineEdit<'_>,
        sized: &ShapeRows,
    ) -> Result<Placed, AllocError>
        requires base { is_base base ≡ true }
        requires few { length sized.now.shapes.items ≤ MAX_LINES }
        requires limited { AreLimited sized.now.shapes.items }
        requires guess { sum_below (end_in self.now.ends) sections ≤ 2 ^ 30 }
        requires place { HasPlace self.now.shapes.items (edit_of edit.now) }
        requires ends { self.now.ends ≡ ends_of self.now.shapes.items }
        requires places { self.now.places.items ≡ for_lines (place_by_shapes base self.now.shapes.items) (length self.now.shapes.items) }
        requires still { sized.now.still ≡ true → AreUnmoved self.now.shapes.items (edit_of edit.now) sized.now.shapes.items }
        ensures ends { IfOk result (λ p. p.ends ≡ ends_of sized.now.shapes.items) }
        ensures places { IfOk result (λ p. p.places.items ≡ for_lines (place_by_shapes base sized.now.shapes.items) (length sized.now.shapes.items)) }
    {
        if !sized.still {
            return Placed::of(alloc, base, &self.ends, &sized.shapes);
        }
        let place = place_put_in(edit, &self.places);
        Ok(Placed {
            ends: self.ends,
            places: edited_row(alloc, &self.places, edit, place)?,
        })
    }

    /// That of a text after an edit, the first line of which is at `base`, by the rows of the text before it, which has the
    /// lines `old`. `self` holds these rows, and the lines after the edit already, which have these items. `shape` is that of the line that the
    /// edit puts in.
    /// The answer does not get the lines. With it comes whether each line that stood is known to be where it was, and a set that has each
    /// symbol that differs on one of the lines. Names that the lines define get numbers, also where there is no memory for the rest.
    ///
    /// The counter's number of expressions computed rises by at most four for each line, and by at most what the edit
    /// invalidates: the size operands but for that of the new line, the high halves, and the `.equ`s twice.
    pub fn after<C: Count>(
        &self,
        alloc: Global,
        base: u32,
        old: &Lines<'_>,
        edit: &LineEdit<'_>,
        names: &mut NameTable,
        items: &SumTree<Item>,
        shape: Measured,
        counter: &mut C,
    ) -> Result<(Survey, bool, NameSet), AllocError>
        requires base { is_base base ≡ true }
        requires old { IsSurvey base (program_of old.now) names.old self.now }
        requires old_few { length old.now ≤ MAX_LINES }
        requires allowed { refusal_of old.now (edit_of edit.now) ≡ None }
        requires edited { self.now.lines.items ≡ lines_after old.now (edit_of edit.now) }
        requires items { lines_of items.now.items ≡ self.now.lines.items }
        requires shape { IsNewShape old.now (edit_of edit.now) shape }
        requires limited { IsLimited shape }
        requires few { length self.now.lines.items ≤ MAX_LINES }
        requires valued { C.valued_count counter.old ≤ 2 ^ 63 + 1 }
        ensures survey { IfOk result (λ r. IsSurvey base (program_of self.now.lines.items) names.new r.0) }
        ensures still { IfOk result (λ r. r.1 ≡ true → AreUnmoved self.now.shapes.items (edit_of edit.now) r.0.shapes.items) }
        ensures differing { IfOk result (λ r. HasDiffering base old.now (edit_of edit.now) r.2) }
        ensures names { Grows names.old names.new }
        ensures least { C.valued_count counter.old ≤ C.valued_count counter.new }
        ensures most { C.valued_count counter.new ≤ C.valued_count counter.old + 4 * length self.now.lines.items }
        ensures work { C.valued_count counter.new + shape_operands (edit_of edit.now) ≤ C.valued_count counter.old + work survey_operands base old.now (edit_of edit.now) (length self.now.lines.items) }
        ensures parsed { C.parsed_count counter.new ≡ C.parsed_count counter.old }
        ensures encoded { C.encoded_count counter.new ≡ C.encoded_count counter.old }
    {
        let lines = self.lines.as_slice();
        let searched = SearchedLines::in_tree(lines, items);
        let definitions = definitions_after(alloc, &self.definitions, old, &searched, edit, names)?;
        let before = self.before(old, base, names, edit);
        let sized = shapes(alloc, &before, &searched, &definitions, shape, counter)?;
        let placed = self.placed(alloc, base, edit, &sized)?;
        let locals = locals_after(alloc, &before, lines)?;
        let still = sized.still;
        let (survey, differing) = Survey::by_rows(
            alloc,
            &before,
            &searched,
            definitions,
            sized,
            placed,
            locals,
            counter,
        )?;
        Ok((survey, still, differing))
    }

    /// That of the lines of a text after an edit, which `searched` has, by the rows that the others are made from, and a set that has
    /// each symbol that differs on one of the lines. It does not get the lines.
    ///
    /// The counter's number of expressions computed rises by at most two for each line: the `.equ`s, and the high halves that
    /// the edit invalidates.
    pub fn by_rows<C: Count>(
        alloc: Global,
        before: &Before<'_, '_>,
        searched: &SearchedLines<'_>,
        definitions: Vec<DefinitionPlace>,
        sized: ShapeRows,
        placed: Placed,
        locals: Locals,
        counter: &mut C,
    ) -> Result<(Survey, NameSet), AllocError>
        requires base { is_base (base_before before.now) ≡ true }
        requires before { IsBefore before.now }
        requires edited { searched.now ≡ lines_after (lines_before before.now) (edit_on before.now) }
        requires few { length searched.now ≤ MAX_LINES }
        requires definitions { AreDefinitions (program_of searched.now) before.now.symbols.text.names.now definitions.items }
        requires constants { AreConstants (program_of searched.now) (length searched.now) before.now.symbols.text.names.now sized.constants.items }
        requires shapes { AreShapes (program_of searched.now) sized.shapes.items }
        requires limited { AreLimited sized.shapes.items }
        requires ends { placed.ends ≡ ends_of sized.shapes.items }
        requires places { placed.places.items ≡ for_lines (place_by_shapes (base_before before.now) sized.shapes.items) (length sized.shapes.items) }
        requires locals { AreLocals (program_of searched.now) (length searched.now) locals }
        requires valued { C.valued_count counter.old ≤ 2 ^ 63 + 2 ^ 32 }
        ensures survey { IfOk result (λ r. IsSurvey (base_before before.now) (program_of searched.now) before.now.symbols.text.names.now r.0) }
        ensures differing { IfOk result (λ r. HasDiffering (base_before before.now) (lines_before before.now) (edit_on before.now) r.1) }
        ensures least { C.valued_count counter.old ≤ C.valued_count counter.new }
        ensures most { C.valued_count counter.new ≤ C.valued_count counter.old + 2 * length searched.now }
        ensures work { C.valued_count counter.new ≤ C.valued_count counter.old + operands_through equ_operands (program_of searched.now) (length searched.now)
            + work high_operands (base_before before.now) (lines_before before.now) (edit_on before.now) (length searched.now) }
        ensures parsed { C.parsed_count counter.new ≡ C.parsed_count counter.old }
        ensures encoded { C.encoded_count counter.new ≡ C.encoded_count counter.old }
    {
        let column = Lines::in_column(searched.lines());
        let text = TextRows {
            base: before.symbols.text.base,
            lines: &column,
            names: before.symbols.text.names,
            definitions: &definitions,
            places: &placed.places,
            locals: &locals,
        };
        let equ_values = equ_values_after(alloc, before, &text, searched, counter)?;
        let after = SymbolRows {
            text,
            constants: &sized.constants,
            equ_values: &equ_values,
        };
        let differing = differing_names(alloc, before, &after)?;
        let highs = highs(alloc, before, &after, &differing, searched, counter)?;
        let survey = Survey {
            lines: Column::new(alloc),
            definitions,
            constants: sized.constants,
            shapes: sized.shapes,
            ends: placed.ends,
            places: placed.places,
            locals,
            equ_values,
            highs,
        };
        Ok((survey, differing))
    }

    // The text of these lines with what its symbols are.
    fn symbols<'a>(
        &'a self,
        lines: &'a Lines<'a>,
        base: u32,
        names: &'a NameTable,
    ) -> SymbolRows<'a>
        requires { IsSurvey base (program_of lines.now) names.now self.now }
        ensures rows { AreSymbolRows result }
        ensures base { result.text.base ≡ base }
        ensures names { result.text.names.now ≡ names.now }
        ensures lines { result.text.lines.now ≡ lines.now }
    {
        SymbolRows {
            text: TextRows {
                base,
                lines,
                names,
                definitions: &self.definitions,
                places: &self.places,
                locals: &self.locals,
            },
            constants: &self.constants,
            equ_values: &self.equ_values,
        }
    }

    /// The text of these lines with what is kept of it, before an edit that is not refused.
    pub fn before<'a, 'e>(
        &'a self,
        lines: &'a Lines<'a>,
        base: u32,
        names: &'a NameTable,
        edit: &LineEdit<'e>,
    ) -> Before<'a, 'e>
        requires survey { IsSurvey base (program_of lines.now) names.now self.now }
        requires few { length lines.now ≤ MAX_LINES }
        requires allowed { refusal_of lines.now (edit_of edit.now) ≡ None }
        ensures before { IsBefore result }
        ensures base { base_before result ≡ base }
        ensures names { result.symbols.text.names.now ≡ names.now }
        ensures lines { lines_before result ≡ lines.now }
        ensures shapes { result.shapes.now ≡ self.now.shapes.items }
        ensures edit { edit_on result ≡ edit_of edit.now }
    {
        Before {
            edit: *edit,
            symbols: self.symbols(lines, base, names),
            shapes: &self.shapes,
            highs: &self.highs,
        }
    }

    /// Where a section lies, by its number.
    pub fn section(&self, base: u32, section: usize) -> SectionPlace
        requires base { is_base base ≡ true }
        requires section { section < sections }
        requires few { length self.now.shapes.items ≤ MAX_LINES }
        requires limited { AreLimited self.now.shapes.items }
        requires ends { self.now.ends ≡ ends_of self.now.shapes.items }
        ensures { result ≡ record { base = section_base_of base self.now.shapes.items section; size = section_end_of self.now.shapes.items section } }
    {
        SectionPlace {
            base: bases_by_ends(&self.ends.offsets, base)[section],
            size: self.ends.offsets[section],
        }
    }

    /// The rows from which the values of these lines are computed.
    pub fn rows<'a>(
        &'a self,
        lines: &'a Lines<'a>,
        base: u32,
        names: &'a NameTable,
    ) -> ValueRows<'a>
        requires { IsSurvey base (program_of lines.now) names.now self.now }
        ensures rows { AreValueRows result }
        ensures base { base_of result ≡ base }
        ensures names { result.symbols.text.names.now ≡ names.now }
        ensures lines { result.symbols.text.lines.now ≡ lines.now }
    {
        ValueRows {
            symbols: self.symbols(lines, base, names),
            shapes: &self.shapes,
            highs: &self.highs,
        }
    }
}
