//! The store.

ghost use Rattle.std.specs.Prelude.{◌≡◌, ◌+◌, ◌-◌, ◌^◌, ◌<◌, ◌≤◌, ◌==◌, [], ◌∷◌, length, map, None, if◌then◌else◌, IfOk, IfErr, IfSome, OnOk, OnErr, slice_get, true, false};
ghost use Rattle.std.specs.Option.{option_map};
ghost use Rattle.rv_stmt.specs.Statement.{statement_of};
ghost use Rattle.rv_layout.specs.Places.{is_base, IsLimited};
ghost use Rattle.rv_layout.specs.Shapes.{shape_of};
ghost use Rattle.rv_store.specs.internal.Assembled.{AreCountedAfter};
ghost use Rattle.rv_program.specs.Changes.{changed_lines, most_values, most_codes};
ghost use Rattle.rv_program.specs.Codes.{code_at};
ghost use Rattle.rv_program.specs.Constants.{constant_of};
ghost use Rattle.rv_program.specs.Counted.{counts_of, lines_read, Counted};
ghost use Rattle.rv_program.specs.Edits.{edit_of, edit_of_read, place_of_edit};
ghost use Rattle.rv_program.specs.internal.Former.{AreFormer};
ghost use Rattle.rv_program.specs.Layout.{address_at};
ghost use Rattle.rv_program.specs.internal.NewShapes.{IsNewShape, shape_operands};
ghost use Rattle.rv_program.specs.Program.{program_of};
ghost use Rattle.rv_store.specs.internal.Still.{IsPutEdit};
ghost use Rattle.rv_store.specs.internal.StillLines.{IsStillLine, IsLastLine};
ghost use Rattle.rv_store.specs.Symbols.{symbol_of};
ghost use Rattle.rv_program.specs.Text.{is_line, at_line, Insert, Delete, Replace, refusal_of, lines_after, text_after, Edits};

mod drafts;
mod names;
mod shown;

use crate::alike::are_alike;
use crate::assembly::assembled;
use crate::changed::Changed;
use crate::ending::{Ending, apart_ending};
use crate::forgetting::{Remembered, has_many_others};
use crate::last_line::{LastLine, last_line};
use crate::new_shape::new_shape;
use crate::still::{Still, put_still};
use crate::survey::Survey;
use crate::symbols::SymValue;
pub use names::NamesOnLine;
use rv_fix::Coded;
use rv_layout::{Measured, base_ok};
use rv_list::{DefinitionPlace, View};
use rv_program::{
    EditError, Item, Line, LineEdit, Lines, MAX_LINES, NameTable, ReadEdit, address_in,
};
use rv_text::Count;
use rv_tree::SumTree;
use std::alloc::Global;
use std::marker::Model;
use std::mem;

/// A text, line by line, with the code of each line.
pub struct Store {
    alloc: Global,
    base: u32,
    names: NameTable,
    survey: Survey,
    items: SumTree<Item>,
}

// What a derive would do, but proved here: a crate that drops a store would prove the derived drop of each type in it.
impl Drop for Store {
    fn drop(self) {
        let Store {
            alloc: _,
            base: _,
            names: _,
            survey: _,
            items: _,
        } = self;
    }
}

impl Model for Store {
    ghost use Rattle.std.specs.Prelude.{map};
    ghost use Rattle.rv_store.specs.internal.Stored.{IsStored};
    ghost use Rattle.rv_program.specs.Text.{Text};

    ghost Value = { Text };

    ghost view = { λ s. record { base = s.base; lines = map (λ i. i.line) s.items.items } };

    ghost invariant = { λ s. IsStored s.base (map (λ i. i.line) s.items.items) s.names s.survey s.items.items };
}

impl Store {
    /// An empty text, whose `.text` begins at the base. Refused with `Base` where `base_ok` does not hold; an empty text
    /// takes no memory.
    pub fn new(alloc: Global, base: u32) -> Result<Store, EditError>
        ensures ok { IfOk result (λ s. (is_base base ≡ true) × (s ≡ record { base = base; lines = [] })) }
        ensures err { IfErr result (λ e. (is_base base ≡ false) × (e ≡ EditError.Base)) }
    {
        if !base_ok(base) {
            return Err(EditError::Base);
        }
        Ok(Store {
            alloc,
            base,
            names: NameTable::new(alloc),
            survey: Survey::empty(alloc),
            items: SumTree::new(alloc),
        })
    }

    /// How many lines there are.
    pub fn len(&self) -> usize
        ensures value { result ≡ length self.now.lines }
        ensures few { result ≤ MAX_LINES }
    {
        self.items.len() as usize
    }

    /// Line number `k`, from 1 on, if there is one: at most `MAX_LINE_LENGTH` bytes, none of them 0x0A.
    pub fn line(&self, k: u32) -> Option<&[u8]>
        ensures value { option_map (λ l. l.now) result ≡ (if k == 0 then None else slice_get self.now.lines (k - 1)) }
        ensures line { IfSome result (λ l. is_line l.now ≡ true) }
    {
        let item = self.items.get(k)?;
        Some(item.line.text())
    }

    /// The address of line number `k`, if there is such a line.
    pub fn address(&self, k: u32) -> Option<u32>
        ensures { result ≡ at_line self.now.lines k (address_at self.now.base (program_of self.now.lines) k) }
    {
        if k == 0 || k > self.items.len() {
            return None;
        }
        Some(self.place(k).address)
    }

    /// The code of line number `k`, if there is such a line: its bytes, and the fault of its body.
    pub fn coded(&self, k: u32) -> Option<&Coded>
        ensures { option_map (λ c. c.now) result ≡ at_line self.now.lines k (code_at self.now.base (program_of self.now.lines) k) }
    {
        let item = self.items.get(k)?;
        Some(&item.code)
    }

    /// What a symbol is, if it is defined: a label with its address, or that of an `.equ` with its value, which a faulty one
    /// has not.
    pub fn symbol(&self, name: &[u8]) -> Option<SymValue>
        ensures { result ≡ symbol_of self.now.base (program_of self.now.lines) name.now }
    {
        match self.definition(name) {
            DefinitionPlace::Nowhere => None,
            DefinitionPlace::Label(line, _) => {
                Some(SymValue::Label(address_in(&self.survey.places, line)))
            }
            DefinitionPlace::Equ(_) => Some(SymValue::Equ(self.value(name))),
        }
    }

    // An edit that is not refused, with its line read.
    fn read<C: Count>(&self, edit: &LineEdit<'_>, counter: &mut C) -> Result<ReadEdit, EditError>
        requires allowed { refusal_of self.now.lines (edit_of edit.now) ≡ None }
        requires parsed { C.parsed_count counter.old ≤ 2 ^ 63 }
        ensures edit { IfOk result (λ r. edit_of_read r ≡ edit_of edit.now) }
        ensures memory { IfErr result (λ e. e ≡ EditError.Memory) }
        ensures read { IfOk result (λ _. C.parsed_count counter.new ≡ C.parsed_count counter.old + lines_read (edit_of edit.now)) }
        ensures parsed_least { C.parsed_count counter.old ≤ C.parsed_count counter.new }
        ensures parsed_most { C.parsed_count counter.new ≤ C.parsed_count counter.old + lines_read (edit_of edit.now) }
        ensures valued { C.valued_count counter.new ≡ C.valued_count counter.old }
        ensures encoded { C.encoded_count counter.new ≡ C.encoded_count counter.old }
    {
        match *edit {
            LineEdit::Insert(k, line) => {
                Ok(ReadEdit::Insert(k, Line::read(self.alloc, line, counter)?))
            }
            LineEdit::Delete(k) => Ok(ReadEdit::Delete(k)),
            LineEdit::Replace(k, line) => {
                Ok(ReadEdit::Replace(k, Line::read(self.alloc, line, counter)?))
            }
        }
    }

    // The shape of the line that an edit puts in.
    fn new_shape<C: Count>(&self, edit: &ReadEdit, counter: &mut C) -> Measured
        requires allowed { refusal_of self.now.lines (edit_of_read edit.now) ≡ None }
        requires valued { C.valued_count counter.old < 2 ^ 64 - 1 }
        ensures shape { IsNewShape self.now.lines (edit_of_read edit.now) result }
        ensures limited { IsLimited result }
        ensures parsed { C.parsed_count counter.new ≡ C.parsed_count counter.old }
        ensures least { C.valued_count counter.old ≤ C.valued_count counter.new }
        ensures one { C.valued_count counter.new ≤ C.valued_count counter.old + 1 }
        ensures most { C.valued_count counter.new ≤ C.valued_count counter.old + shape_operands (edit_of_read edit.now) }
        ensures encoded { C.encoded_count counter.new ≡ C.encoded_count counter.old }
    {
        match edit {
            ReadEdit::Insert(k, line) | ReadEdit::Replace(k, line) => {
                new_shape(&self.survey, &self.names, *k, line, counter)
            }
            ReadEdit::Delete(_) => Measured::Nothing,
        }
    }

    // What a line of this shape is in the place of line `k`, if it is alike, so that all other lines stay as they are.
    fn alike(&self, k: u32, line: &Line, shape: Measured) -> Option<Still>
        requires allowed { refusal_of self.now.lines (Replace k line.now) ≡ None }
        requires shape { shape ≡ shape_of (constant_of (program_of self.now.lines) k) (statement_of line.now).body }
        requires limited { IsLimited shape }
        ensures edit { IfSome result (λ _. IsPutEdit self.now.lines (Replace k line.now) k line.now) }
        ensures still { IfSome result (λ still. IsStillLine self.now.base self.now.lines k line.now still (k ∷ [])) }
    {
        let survey = &self.survey;
        let place = k as usize - 1;
        if !are_alike(
            &survey.lines.as_slice()[place],
            &survey.shapes[place],
            line,
            &shape,
        ) {
            return None;
        }
        Some(Still {
            shape,
            ends: survey.ends,
            place: survey.places[place],
            defines: false,
            waiting: None,
        })
    }

    // What a line of this shape is as line `k`, if that is behind the last one, and other lines have to do with it by its names and its local
    // labels alone.
    fn ending(&self, k: u32, line: &Line, shape: Measured) -> Option<Ending>
        requires allowed { refusal_of self.now.lines (Insert k line.now) ≡ None }
        requires shape { shape ≡ shape_of (constant_of (program_of self.now.lines) k) (statement_of line.now).body }
        requires limited { IsLimited shape }
        ensures edit { IfSome result (λ _. IsPutEdit self.now.lines (Insert k line.now) k line.now) }
        ensures still { IfSome result (λ end. IsStillLine self.now.base self.now.lines k line.now end.still end.users.items) }
    {
        if k <= self.items.len() {
            return None;
        }
        apart_ending(
            self.alloc,
            self.base,
            &self.names,
            &self.survey,
            &self.items,
            line,
            shape,
        )
    }

    // Puts in the line of an edit with which other lines have to do by its names and its local labels alone: only this line is made, and
    // those that use one of them. `due` are those of the lines before the edit that are due. Where there is no memory for that, the text stays.
    fn put<C: Count>(
        &mut self,
        edit: &LineEdit<'_>,
        line: Line,
        still: &Still,
        due: &[u32],
        counter: &mut C,
    ) -> Result<Changed, EditError>
        requires allowed { refusal_of self.old.lines (edit_of edit.now) ≡ None }
        requires edit { IsPutEdit self.old.lines (edit_of edit.now) (place_of_edit (edit_of edit.now)) line }
        requires still { IsStillLine self.old.base self.old.lines (place_of_edit (edit_of edit.now)) line still.now due.now }
        requires valued { C.valued_count counter.old ≤ 2 ^ 63 + 1 }
        requires encoded { C.encoded_count counter.old ≤ 2 ^ 63 }
        ensures ok { OnOk result (self.new ≡ text_after self.old (edit_of edit.now)) }
        ensures err { OnErr result (self.new ≡ self.old) }
        ensures changed { IfOk result (λ c. c.lines ≡ changed_lines self.old.base self.old.lines (edit_of edit.now)) }
        ensures memory { IfErr result (λ e. e ≡ EditError.Memory) }
        ensures parsed { C.parsed_count counter.new ≡ C.parsed_count counter.old }
        ensures valued { (C.valued_count counter.old ≤ C.valued_count counter.new) × (C.valued_count counter.new + 1 < C.valued_count counter.old + 2 ^ 32) }
        ensures encoded { (C.encoded_count counter.old ≤ C.encoded_count counter.new) × (C.encoded_count counter.new < C.encoded_count counter.old + 2 ^ 32) }
        ensures values { C.valued_count counter.new + shape_operands (edit_of edit.now) ≤ C.valued_count counter.old + most_values self.old.base self.old.lines (edit_of edit.now) }
        ensures codes { C.encoded_count counter.new ≤ C.encoded_count counter.old + most_codes self.old.base self.old.lines (edit_of edit.now) }
    {
        let place = edit.place() as usize - 1;
        let former = self.survey.former(place)?;
        match put_still(
            self.alloc,
            self.base,
            &mut self.names,
            &mut self.survey,
            &self.items,
            edit,
            line,
            still,
            due,
            counter,
        ) {
            Ok((items, changed)) => {
                self.items = items;
                drop(former);
                Ok(changed)
            }
            Err(e) => {
                self.survey.take_back(place, former);
                Err(e)
            }
        }
    }

    // What line `k` is, if it is the last one, and no other line has to do with it.
    fn last_line(&self, k: u32) -> Option<LastLine>
        ensures place { IfSome result (λ _. k ≡ length self.now.lines) }
        ensures last { IfSome result (IsLastLine self.now.base self.now.lines) }
    {
        if k != self.items.len() {
            return None;
        }
        last_line(
            self.alloc,
            self.base,
            &self.names,
            &self.survey,
            &self.items,
        )
    }

    // Takes the last line out, with which no other line has to do: nothing is made anew. Where there is no memory for that, the text
    // stays.
    fn shorten(&mut self, last: &LastLine) -> Result<Changed, EditError>
        requires { IsLastLine self.old.base self.old.lines last.now }
        ensures ok { OnOk result (self.new ≡ text_after self.old (Delete (length self.old.lines))) }
        ensures err { OnErr result (self.new ≡ self.old) }
        ensures changed { IfOk result (λ c. c.lines ≡ changed_lines self.old.base self.old.lines (Delete (length self.old.lines))) }
        ensures memory { IfErr result (λ e. e ≡ EditError.Memory) }
    {
        let k = self.items.len();
        let items = self.items.deleted(k)?;
        let line = self.survey.lines.as_slice()[k as usize - 1].share()?;
        self.survey.remove_last(&self.names, &line, last);
        self.items = items;
        Ok(Changed::of(Vec::new(self.alloc)))
    }

    // The items of the text after an edit that is not refused: what was kept of each line, and nothing of the line that the
    // edit puts in.
    fn edited(&self, edit: &ReadEdit) -> Result<SumTree<Item>, EditError>
        requires allowed { refusal_of self.now.lines (edit_of_read edit.now) ≡ None }
        ensures items { IfOk result (λ items. map (λ i. i.line) items.items ≡ lines_after self.now.lines (edit_of_read edit.now)) }
        ensures former { IfOk result (λ items. AreFormer self.now.base self.now.lines (edit_of_read edit.now) 0 items.items) }
        ensures memory { IfErr result (λ e. e ≡ EditError.Memory) }
    {
        match edit {
            ReadEdit::Insert(k, line) => {
                let item = Item::entered(line.share()?);
                Ok(self.items.inserted(*k, item)?)
            }
            ReadEdit::Delete(k) => Ok(self.items.deleted(*k)?),
            ReadEdit::Replace(k, line) => {
                let item = Item::entered(line.share()?);
                Ok(self.items.replaced(*k, item)?)
            }
        }
    }

    // Makes an edit whose line was read and has this shape. `items` are those of the text after it, as they were before it. Where there
    // is no memory for the rest, the text stays.
    fn assemble<C: Count>(
        &mut self,
        edit: &LineEdit<'_>,
        read: ReadEdit,
        items: SumTree<Item>,
        shape: Measured,
        counter: &mut C,
    ) -> Result<Changed, EditError>
        requires allowed { refusal_of self.old.lines (edit_of edit.now) ≡ None }
        requires read { edit_of_read read ≡ edit_of edit.now }
        requires items { map (λ i. i.line) items.items ≡ lines_after self.old.lines (edit_of edit.now) }
        requires former { AreFormer self.old.base self.old.lines (edit_of edit.now) 0 items.items }
        requires shape { IsNewShape self.old.lines (edit_of edit.now) shape }
        requires limited { IsLimited shape }
        requires valued { C.valued_count counter.old ≤ 2 ^ 63 + 1 }
        requires encoded { C.encoded_count counter.old ≤ 2 ^ 63 }
        ensures ok { OnOk result (self.new ≡ text_after self.old (edit_of edit.now)) }
        ensures err { OnErr result (self.new ≡ self.old) }
        ensures changed { IfOk result (λ c. c.lines ≡ changed_lines self.old.base self.old.lines (edit_of edit.now)) }
        ensures memory { IfErr result (λ e. e ≡ EditError.Memory) }
        ensures counted { AreCountedAfter self.old.base self.old.lines (edit_of edit.now) (counts_of C.parsed_count C.valued_count C.encoded_count counter.old) (counts_of C.parsed_count C.valued_count C.encoded_count counter.new) }
    {
        let undo = self.survey.lines.edit(read)?;
        let made = assembled(
            self.alloc,
            self.base,
            &mut self.names,
            &self.survey,
            &Lines::in_items(&self.items),
            edit,
            items,
            shape,
            counter,
        );
        match made {
            Ok((mut survey, items, changed)) => {
                mem::swap(&mut survey.lines, &mut self.survey.lines);
                self.survey = survey;
                self.items = items;
                drop(undo);
                Ok(changed)
            }
            Err(e) => {
                self.survey.lines.take_back(undo);
                Err(e)
            }
        }
    }

    // Names that the text does not define lose their numbers where they are many. Where there is no memory for that, they keep
    // them.
    fn forget_names(&mut self)
        ensures { self.new ≡ self.old }
    {
        if !has_many_others(&self.names, &self.survey.definitions) {
            return;
        }
        let Ok(remembered) = Remembered::of(self.alloc, &self.names, &self.survey) else {
            return;
        };
        self.names = remembered.names;
        self.survey.definitions = remembered.definitions;
        self.survey.constants = remembered.constants;
        self.survey.equ_values = remembered.equ_values;
    }

    // Makes an edit that is not refused, whose line was read and has this shape, by the items that it leaves. Where there is no memory
    // for that, the text stays.
    fn rework<C: Count>(
        &mut self,
        edit: &LineEdit<'_>,
        read: ReadEdit,
        shape: Measured,
        counter: &mut C,
    ) -> Result<Changed, EditError>
        requires allowed { refusal_of self.old.lines (edit_of edit.now) ≡ None }
        requires read { edit_of_read read ≡ edit_of edit.now }
        requires shape { IsNewShape self.old.lines (edit_of edit.now) shape }
        requires limited { IsLimited shape }
        requires valued { C.valued_count counter.old ≤ 2 ^ 63 + 1 }
        requires encoded { C.encoded_count counter.old ≤ 2 ^ 63 }
        ensures ok { OnOk result (self.new ≡ text_after self.old (edit_of edit.now)) }
        ensures err { OnErr result (self.new ≡ self.old) }
        ensures changed { IfOk result (λ c. c.lines ≡ changed_lines self.old.base self.old.lines (edit_of edit.now)) }
        ensures memory { IfErr result (λ e. e ≡ EditError.Memory) }
        ensures parsed { C.parsed_count counter.new ≡ C.parsed_count counter.old }
        ensures valued { (C.valued_count counter.old ≤ C.valued_count counter.new) × (C.valued_count counter.new + 1 < C.valued_count counter.old + 2 ^ 32) }
        ensures encoded { (C.encoded_count counter.old ≤ C.encoded_count counter.new) × (C.encoded_count counter.new < C.encoded_count counter.old + 2 ^ 32) }
        ensures values { C.valued_count counter.new + shape_operands (edit_of edit.now) ≤ C.valued_count counter.old + most_values self.old.base self.old.lines (edit_of edit.now) }
        ensures codes { C.encoded_count counter.new ≤ C.encoded_count counter.old + most_codes self.old.base self.old.lines (edit_of edit.now) }
    {
        self.forget_names();
        let items = self.edited(&read)?;
        self.assemble(edit, read, items, shape, counter)
    }

    // Makes an edit that is not refused, whose line was read. Where there is no memory for that, the text stays.
    fn make<C: Count>(
        &mut self,
        edit: &LineEdit<'_>,
        read: ReadEdit,
        counter: &mut C,
    ) -> Result<Changed, EditError>
        requires allowed { refusal_of self.old.lines (edit_of edit.now) ≡ None }
        requires read { edit_of_read read ≡ edit_of edit.now }
        requires valued { C.valued_count counter.old ≤ 2 ^ 63 }
        requires encoded { C.encoded_count counter.old ≤ 2 ^ 63 }
        ensures ok { OnOk result (self.new ≡ text_after self.old (edit_of edit.now)) }
        ensures err { OnErr result (self.new ≡ self.old) }
        ensures changed { IfOk result (λ c. c.lines ≡ changed_lines self.old.base self.old.lines (edit_of edit.now)) }
        ensures memory { IfErr result (λ e. e ≡ EditError.Memory) }
        ensures parsed { C.parsed_count counter.new ≡ C.parsed_count counter.old }
        ensures valued { (C.valued_count counter.old ≤ C.valued_count counter.new) × (C.valued_count counter.new < C.valued_count counter.old + 2 ^ 32) }
        ensures encoded { (C.encoded_count counter.old ≤ C.encoded_count counter.new) × (C.encoded_count counter.new < C.encoded_count counter.old + 2 ^ 32) }
        ensures values { C.valued_count counter.new ≤ C.valued_count counter.old + most_values self.old.base self.old.lines (edit_of edit.now) }
        ensures codes { C.encoded_count counter.new ≤ C.encoded_count counter.old + most_codes self.old.base self.old.lines (edit_of edit.now) }
    {
        let shape = self.new_shape(&read, counter);
        match &read {
            ReadEdit::Insert(k, line) => match self.ending(*k, line, shape) {
                Some(end) => self.put(edit, line.share()?, &end.still, &end.users, counter),
                None => self.rework(edit, read, shape, counter),
            },
            ReadEdit::Delete(k) => match self.last_line(*k) {
                Some(last) => {
                    self.forget_names();
                    self.shorten(&last)
                }
                None => self.rework(edit, read, shape, counter),
            },
            ReadEdit::Replace(k, line) => match self.alike(*k, line, shape) {
                Some(still) => self.put(edit, line.share()?, &still, &[*k], counter),
                None => self.rework(edit, read, shape, counter),
            },
        }
    }

    // Makes an edit, or says why not.
    fn edit<C: Count>(&mut self, edit: &LineEdit<'_>, counter: &mut C) -> Result<Changed, EditError>
        requires parsed { C.parsed_count counter.old ≤ 2 ^ 63 }
        requires valued { C.valued_count counter.old ≤ 2 ^ 63 }
        requires encoded { C.encoded_count counter.old ≤ 2 ^ 63 }
        ensures edit { Edits self.old (edit_of edit.now) result self.new }
        ensures changed { IfOk result (λ c. c.lines ≡ changed_lines self.old.base self.old.lines (edit_of edit.now)) }
        ensures counted { Counted self.old (edit_of edit.now) result (counts_of C.parsed_count C.valued_count C.encoded_count counter.old) (counts_of C.parsed_count C.valued_count C.encoded_count counter.new) }
        ensures parsed { (C.parsed_count counter.old ≤ C.parsed_count counter.new) × (C.parsed_count counter.new < C.parsed_count counter.old + 2 ^ 32) }
        ensures valued { (C.valued_count counter.old ≤ C.valued_count counter.new) × (C.valued_count counter.new < C.valued_count counter.old + 2 ^ 32) }
        ensures encoded { (C.encoded_count counter.old ≤ C.encoded_count counter.new) × (C.encoded_count counter.new < C.encoded_count counter.old + 2 ^ 32) }
    {
        if let Some(e) = edit.refusal(self.len()) {
            return Err(e);
        }
        let read = self.read(edit, counter)?;
        self.make(edit, read, counter)
    }

    /// Makes `line` the line number `k`, from 1 to one more than there are; the lines from `k` on move down by one.
    ///
    /// Refused, in this order, with `Place` where there can be no line `k`, `Line` where the line holds 0x0A or is longer
    /// than `MAX_LINE_LENGTH`, `TooMany` where there are `MAX_LINES` lines, and `Memory`. A refused edit changes nothing.
    ///
    /// Answers which lines of the text after the edit are new or have another code than before.
    ///
    /// The counter's numbers have to be at most 2^63; none of them falls, and less than 2^32 is added to each. The one line
    /// is read, at most two values are computed for each operand of a line that the edit invalidates, and at most those lines
    /// are encoded that are new or have other values or another shape. A refusal that is not for memory counts nothing.
    pub fn insert<C: Count>(
        &mut self,
        k: u32,
        line: &[u8],
        counter: &mut C,
    ) -> Result<Changed, EditError>
        requires parsed { C.parsed_count counter.old ≤ 2 ^ 63 }
        requires valued { C.valued_count counter.old ≤ 2 ^ 63 }
        requires encoded { C.encoded_count counter.old ≤ 2 ^ 63 }
        ensures edit { Edits self.old (Insert k line.now) result self.new }
        ensures changed { IfOk result (λ c. c.lines ≡ changed_lines self.old.base self.old.lines (Insert k line.now)) }
        ensures counted { Counted self.old (Insert k line.now) result (counts_of C.parsed_count C.valued_count C.encoded_count counter.old) (counts_of C.parsed_count C.valued_count C.encoded_count counter.new) }
        ensures parsed { (C.parsed_count counter.old ≤ C.parsed_count counter.new) × (C.parsed_count counter.new < C.parsed_count counter.old + 2 ^ 32) }
        ensures valued { (C.valued_count counter.old ≤ C.valued_count counter.new) × (C.valued_count counter.new < C.valued_count counter.old + 2 ^ 32) }
        ensures encoded { (C.encoded_count counter.old ≤ C.encoded_count counter.new) × (C.encoded_count counter.new < C.encoded_count counter.old + 2 ^ 32) }
    {
        self.edit(&LineEdit::Insert(k, line), counter)
    }

    /// Takes out the line number `k`, from 1 on; the lines after it move up by one.
    ///
    /// Refused, in this order, with `Place` where there is no line `k`, and `Memory`. A refused edit changes nothing. The
    /// answer and the counter are as for `insert`, but that no line is read.
    pub fn delete<C: Count>(&mut self, k: u32, counter: &mut C) -> Result<Changed, EditError>
        requires parsed { C.parsed_count counter.old ≤ 2 ^ 63 }
        requires valued { C.valued_count counter.old ≤ 2 ^ 63 }
        requires encoded { C.encoded_count counter.old ≤ 2 ^ 63 }
        ensures edit { Edits self.old (Delete k) result self.new }
        ensures changed { IfOk result (λ c. c.lines ≡ changed_lines self.old.base self.old.lines (Delete k)) }
        ensures counted { Counted self.old (Delete k) result (counts_of C.parsed_count C.valued_count C.encoded_count counter.old) (counts_of C.parsed_count C.valued_count C.encoded_count counter.new) }
        ensures parsed { (C.parsed_count counter.old ≤ C.parsed_count counter.new) × (C.parsed_count counter.new < C.parsed_count counter.old + 2 ^ 32) }
        ensures valued { (C.valued_count counter.old ≤ C.valued_count counter.new) × (C.valued_count counter.new < C.valued_count counter.old + 2 ^ 32) }
        ensures encoded { (C.encoded_count counter.old ≤ C.encoded_count counter.new) × (C.encoded_count counter.new < C.encoded_count counter.old + 2 ^ 32) }
    {
        self.edit(&LineEdit::Delete(k), counter)
    }

    /// Puts `line` in the place of line number `k`, from 1 on.
    ///
    /// Refused, in this order, with `Place` where there is no line `k`, `Line` where the line holds 0x0A or is longer than
    /// `MAX_LINE_LENGTH`, and `Memory`. A refused edit changes nothing. The answer and the counter are as for `insert`.
    pub fn replace<C: Count>(
        &mut self,
        k: u32,
        line: &[u8],
        counter: &mut C,
    ) -> Result<Changed, EditError>
        requires parsed { C.parsed_count counter.old ≤ 2 ^ 63 }
        requires valued { C.valued_count counter.old ≤ 2 ^ 63 }
        requires encoded { C.encoded_count counter.old ≤ 2 ^ 63 }
        ensures edit { Edits self.old (Replace k line.now) result self.new }
        ensures changed { IfOk result (λ c. c.lines ≡ changed_lines self.old.base self.old.lines (Replace k line.now)) }
        ensures counted { Counted self.old (Replace k line.now) result (counts_of C.parsed_count C.valued_count C.encoded_count counter.old) (counts_of C.parsed_count C.valued_count C.encoded_count counter.new) }
        ensures parsed { (C.parsed_count counter.old ≤ C.parsed_count counter.new) × (C.parsed_count counter.new < C.parsed_count counter.old + 2 ^ 32) }
        ensures valued { (C.valued_count counter.old ≤ C.valued_count counter.new) × (C.valued_count counter.new < C.valued_count counter.old + 2 ^ 32) }
        ensures encoded { (C.encoded_count counter.old ≤ C.encoded_count counter.new) × (C.encoded_count counter.new < C.encoded_count counter.old + 2 ^ 32) }
    {
        self.edit(&LineEdit::Replace(k, line), counter)
    }
}
