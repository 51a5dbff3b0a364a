//! The lines of a text in a column, which edits change in place.

ghost use Rattle.std.specs.Prelude.{◌≡◌, ◌≤◌, ◌<◌, [], length, get_or, insert, remove, take, set, IfOk, OnOk, OnErr, IsOk};
ghost use Rattle.rv_program.specs.internal.EditedRows.{HasPlace};
ghost use Rattle.rv_store.specs.internal.Column.{HasRoom, taken_back};
ghost use Rattle.rv_program.specs.internal.FirstUses.{AreFirstUses};
ghost use Rattle.rv_program.specs.Edits.{edit_of_read};
ghost use Rattle.rv_program.specs.internal.Still.{set_or_push};
ghost use Rattle.rv_program.specs.Text.{lines_after};

use rv_program::{FirstUses, Line, ReadEdit};
use std::alloc::{AllocError, Global};
use std::marker::Model;
use std::mem;

/// The lines of a text, and where the names of each bucket are first used: a search for the lines that use a name that is new at the end begins
/// there. Contracts see the lines, and for how many there is room.
#[derive(Drop)]
pub struct Column {
    alloc: Global,
    lines: Vec<Line>,
    uses: FirstUses,
}

impl Model for Column {
    ghost use Rattle.std.specs.Prelude.{vec_capacity};
    ghost use Rattle.rv_store.specs.internal.Column.{Listed};
    ghost use Rattle.rv_program.specs.internal.FirstUses.{AreFirstUses};

    ghost Value = { Listed };

    ghost view = { λ c. record { items = c.lines.items; room = vec_capacity c.lines } };

    ghost invariant = { λ c. AreFirstUses c.lines.items c.uses };
}

impl Column {
    /// No lines, which take no memory.
    pub fn new(alloc: Global) -> Self
        ensures { result.items ≡ [] }
    {
        Column {
            alloc,
            lines: Vec::new(alloc),
            uses: FirstUses::unknown(),
        }
    }

    /// How many lines there are.
    pub fn len(&self) -> usize
        ensures { result ≡ length self.now.items }
    {
        self.lines.len()
    }

    /// The lines.
    pub fn as_slice(&self) -> &[Line]
        ensures { result.now ≡ self.now.items }
    {
        self.lines.as_slice()
    }

    /// Where the names of each bucket are first used.
    pub fn uses(&self) -> &FirstUses
        ensures { AreFirstUses self.now.items result.now }
    {
        &self.uses
    }

    // Begins to note where names are first used, before the first line is put in.
    fn begin(&mut self) -> Result<(), AllocError>
        ensures lines { self.new ≡ self.old }
        ensures succeeds { 0 < self.old.room → IsOk result }
    {
        if self.lines.capacity() == 0 {
            self.uses = FirstUses::of_none(self.alloc)?;
        }
        Ok(())
    }

    // Puts a line in at a place. Where there is no memory for that, the lines stay.
    fn insert(&mut self, place: usize, line: Line) -> Result<(), AllocError>
        requires { place ≤ length self.old.items }
        ensures ok { OnOk result (self.new.items ≡ insert self.old.items place line) }
        ensures err { OnErr result (self.new.items ≡ self.old.items) }
        ensures succeeds { length self.old.items < self.old.room → IsOk result }
    {
        let brief = line.brief();
        let count = self.len();
        self.lines.insert(place, line)?;
        self.uses.insert(count, place, brief);
        Ok(())
    }

    // Takes out the line at a place, and keeps the room for it.
    fn remove(&mut self, place: usize) -> Line
        requires { place < length self.old.items }
        ensures line { result ≡ get_or self.old.items place result }
        ensures lines { self.new.items ≡ remove self.old.items place }
        ensures room { length self.new.items < self.new.room }
    {
        let count = self.len();
        self.uses.remove(count, place);
        self.lines.remove(place)
    }

    // Puts a line in the place of another one, and answers that.
    fn replace(&mut self, place: usize, line: Line) -> Line
        requires { place < length self.old.items }
        ensures former { result ≡ get_or self.old.items place result }
        ensures lines { self.new.items ≡ set self.old.items place line }
    {
        self.uses.replace(place, line.brief());
        mem::replace(&mut self.lines[place], line)
    }

    /// Makes an edit, and answers the edit that takes it back. Only the lines behind its place are moved, and only a line that is put in may
    /// want memory. Where there is none for that, the lines stay.
    pub fn edit(&mut self, edit: ReadEdit) -> Result<ReadEdit, AllocError>
        requires place { HasPlace self.old.items (edit_of_read edit) }
        ensures lines { OnOk result (self.new.items ≡ lines_after self.old.items (edit_of_read edit)) }
        ensures stay { OnErr result (self.new.items ≡ self.old.items) }
        ensures succeeds { HasRoom self.old (edit_of_read edit) → IsOk result }
        ensures back { IfOk result (λ undo. lines_after self.new.items (edit_of_read undo) ≡ self.old.items) }
        ensures back_place { IfOk result (λ undo. HasPlace self.new.items (edit_of_read undo)) }
        ensures back_room { IfOk result (λ undo. HasRoom self.new (edit_of_read undo)) }
    {
        match edit {
            ReadEdit::Insert(k, line) => {
                self.begin()?;
                self.insert(k as usize - 1, line)?;
                Ok(ReadEdit::Delete(k))
            }
            ReadEdit::Delete(k) => Ok(ReadEdit::Insert(k, self.remove(k as usize - 1))),
            ReadEdit::Replace(k, line) => {
                let former = self.replace(k as usize - 1, line);
                Ok(ReadEdit::Replace(k, former))
            }
        }
    }

    /// Takes back an edit, by the edit that does so. A line that is put back has the room that it had.
    pub fn take_back(&mut self, undo: ReadEdit)
        requires place { HasPlace self.old.items (edit_of_read undo) }
        requires room { HasRoom self.old (edit_of_read undo) }
        ensures { self.new.items ≡ lines_after self.old.items (edit_of_read undo) }
    {
        let _ = self.edit(undo);
    }

    /// Puts a line at a place, or behind the last one. Where there is no memory for that, the lines stay.
    pub fn put(&mut self, place: usize, line: Line) -> Result<(), AllocError>
        requires { place ≤ length self.old.items }
        ensures ok { OnOk result (self.new.items ≡ set_or_push self.old.items place line) }
        ensures err { OnErr result (self.new.items ≡ self.old.items) }
    {
        if place < self.len() {
            self.replace(place, line);
            return Ok(());
        }
        self.begin()?;
        self.insert(place, line)
    }

    /// Puts back what stood at a place, or takes out the lines from there on where nothing did.
    pub fn put_back(&mut self, place: usize, former: Option<Line>)
        ensures { self.new.items ≡ taken_back self.old.items place former }
    {
        match former {
            Some(line) if place < self.len() => {
                self.replace(place, line);
            }
            Some(_) => {}
            None => self.truncate(place),
        }
    }

    /// Takes out the lines behind the first `count`.
    pub fn truncate(&mut self, count: usize)
        ensures { self.new.items ≡ take count self.old.items }
    {
        self.lines.truncate(count);
    }
}
