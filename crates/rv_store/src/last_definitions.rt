//! What a line at the end of a text defines, with which other lines have to do by its names and its local labels alone: the rows by names
//! get it in place.

ghost use Rattle.std.specs.Prelude.{◌≡◌, ℕ, suc, true, ◌≤◌, ◌<◌, ◌+◌, ◌-◌, ◌*◌, ◌^◌, List, [], ◌∷◌, ◌++◌, false, length, set, OnOk, OnErr};
ghost use Rattle.rv_stmt.specs.Statement.{statement_of};
ghost use Rattle.rv_program.specs.declared.limits.TheConstants.{MAX_LINES};
ghost use Rattle.rv_store.specs.internal.Appended.{AreSameLines, AreSameSymbols, AreSymbols, HavePlaces, StayEqus, IsUnsettled, AreHalfForgotten};
ghost use Rattle.rv_program.specs.Program.{Program, program_of, body_at};
ghost use Rattle.rv_program.specs.internal.Rows.{Grows, ArePlaces, AreLocals};
ghost use Rattle.rv_store.specs.internal.StillLines.{MayWait};
ghost use Rattle.rv_program.specs.internal.Work.{equ_operands};

use crate::survey::Survey;
use rv_expr::ValueFault;
use rv_list::DefinitionPlace;
use rv_program::equ_values::settle_equ;
use rv_program::{
    Line, LineEdit, Lines, MAX_LINES, NameTable, SearchedLines, TextRows, define_line,
    defining_equ_on, keep_places, number_line, settle_constant,
};
use rv_text::Count;
use std::alloc::{AllocError, Global};

// Puts another value at a place of a row, if it is that long.
fn put_at<T: Copy>(row: &mut Vec<T>, number: usize, value: T)
    ensures { row.new.items ≡ set row.old.items number value }
{
    if number < row.len() {
        row[number] = value;
    }
}

impl Survey {
    // Makes the rows by names as long as there are names.
    fn lengthen_rows(&mut self, names: &NameTable) -> Result<(), AllocError>
        ensures places { OnOk result (HavePlaces names.now self.new) }
        ensures symbols { (base : ℕ) → (program : Program) → (k : ℕ) → AreSymbols base program k names.now self.old → AreSymbols base program k names.now self.new }
        ensures lines { AreSameLines self.old self.new }
    {
        self.definitions
            .resize(names.len(), DefinitionPlace::Nowhere)?;
        self.constants.resize(names.len(), None)?;
        self.equ_values
            .resize(names.len(), Err(ValueFault::LaterEqu))?;
        Ok(())
    }

    // Goes from the constants and the values of the `.equ`s before the last line to those of all lines.
    fn settle_last<C: Count>(&mut self, base: u32, names: &NameTable, counter: &mut C)
        requires some { 1 ≤ length self.old.lines.items }
        requires few { length self.old.lines.items ≤ MAX_LINES }
        requires have_places { HavePlaces names.now self.old }
        requires symbols { AreSymbols base (program_of self.old.lines.items) (length self.old.lines.items - 1) names.now self.old }
        requires placed { ArePlaces base (program_of self.old.lines.items) self.old.places.items }
        requires located { AreLocals (program_of self.old.lines.items) (length (program_of self.old.lines.items)) self.old.locals }
        requires count { C.valued_count counter.old < 2 ^ 64 - 2 }
        ensures symbols { AreSymbols base (program_of self.new.lines.items) (length self.new.lines.items) names.now self.new }
        ensures lines { AreSameLines self.old self.new }
        ensures least { C.valued_count counter.old ≤ C.valued_count counter.new }
        ensures most { C.valued_count counter.new ≤ C.valued_count counter.old + 2 }
        ensures operands { C.valued_count counter.new ≤ C.valued_count counter.old + 2 * equ_operands (body_at (program_of self.old.lines.items) (length self.old.lines.items)) }
        ensures parsed { C.parsed_count counter.new ≡ C.parsed_count counter.old }
        ensures encoded { C.encoded_count counter.new ≡ C.encoded_count counter.old }
    {
        let last = self.lines.len() - 1;
        settle_constant(
            self.lines.as_slice(),
            last,
            names,
            &self.definitions,
            &mut self.constants,
            counter,
        );
        let lines = Lines::in_column(self.lines.as_slice());
        let text = TextRows {
            base,
            lines: &lines,
            names,
            definitions: &self.definitions,
            places: &self.places,
            locals: &self.locals,
        };
        settle_equ(&text, last, &mut self.equ_values, counter);
    }

    // Takes the constant and the value of the `.equ` of the last line, which has this number, from the rows by names.
    fn forget_equ(&mut self, names: &NameTable, line: &Line, number: u32)
        ensures symbols { (base : ℕ) → (lines : List (List ℕ)) → number ≡ length lines + 1 → StayEqus base lines line.now
            → AreSymbols base (program_of (lines ++ line.now ∷ [])) (suc (length lines)) names.now self.old → AreHalfForgotten base lines names.now line.now self.new }
        ensures definitions { self.new.definitions ≡ self.old.definitions }
        ensures lines { AreSameLines self.old self.new }
    {
        let Some((_, place)) = defining_equ_on(line, number, names, &self.definitions) else {
            return;
        };
        put_at(&mut self.constants, place, None);
        put_at(&mut self.equ_values, place, Err(ValueFault::LaterEqu));
    }

    /// Takes what the last line defines from the rows by names, if it defines any.
    pub fn forget_last(&mut self, names: &NameTable, line: &Line, any: bool)
        requires some { 1 ≤ length self.old.lines.items }
        requires few { length self.old.lines.items ≤ MAX_LINES }
        requires named { length self.old.definitions.items ≤ length names.now }
        ensures symbols { any ≡ true → (base : ℕ) → (lines : List (List ℕ)) → self.old.lines.items ≡ lines ++ line.now ∷ [] → StayEqus base lines line.now
            → AreSymbols base (program_of self.old.lines.items) (length self.old.lines.items) names.now self.old → AreSymbols base (program_of lines) (length lines) names.now self.new }
        ensures none { any ≡ false → AreSameSymbols self.old self.new }
        ensures lines { AreSameLines self.old self.new }
    {
        if !any {
            return;
        }
        let number = self.lines.len() as u32;
        self.forget_equ(names, line, number);
        let (earlier, _) = self.lines.as_slice().split_at(number as usize - 1);
        let back = LineEdit::Delete(number);
        let searched = SearchedLines::one_by_one(earlier);
        keep_places(&back, &searched, names, &mut self.definitions);
    }

    /// Adds what the last line defines to the rows by names, if it defines any, where the text before it has nothing to do with it. Its names
    /// have numbers and places in the rows before anything is written.
    ///
    /// The counter's number of expressions computed rises by at most two, and only for an `.equ`.
    ///
    /// # Errors
    ///
    /// Where there was no memory, the rows by names hold what they held.
    pub fn define_last<C: Count>(
        &mut self,
        alloc: Global,
        base: u32,
        names: &mut NameTable,
        line: &Line,
        any: bool,
        counter: &mut C,
    ) -> Result<(), AllocError>
        requires unsettled { MayWait base names.old line.now any self.old }
        requires count { C.valued_count counter.old < 2 ^ 64 - 2 }
        ensures symbols { OnOk result (AreSymbols base (program_of self.new.lines.items) (length self.new.lines.items) names.new self.new) }
        ensures none { any ≡ false → (names.new ≡ names.old) × AreSameSymbols self.old self.new }
        ensures defines { OnErr result (any ≡ true) }
        ensures err { OnErr result ((lines : List (List ℕ)) → IsUnsettled base lines names.old line.now self.old → AreSymbols base (program_of lines) (length lines) names.new self.new) }
        ensures lines { AreSameLines self.old self.new }
        ensures names { Grows names.old names.new }
        ensures least { C.valued_count counter.old ≤ C.valued_count counter.new }
        ensures most { C.valued_count counter.new ≤ C.valued_count counter.old + 2 }
        ensures operands { C.valued_count counter.new ≤ C.valued_count counter.old + 2 * equ_operands (statement_of line.now).body }
        ensures parsed { C.parsed_count counter.new ≡ C.parsed_count counter.old }
        ensures encoded { C.encoded_count counter.new ≡ C.encoded_count counter.old }
    {
        if !any {
            return Ok(());
        }
        number_line(alloc, line, names)?;
        self.lengthen_rows(names)?;
        let number = self.lines.len() as u32;
        define_line(line, number, names, &mut self.definitions);
        if line.brief().equ {
            self.settle_last(base, names, counter);
        }
        Ok(())
    }
}
