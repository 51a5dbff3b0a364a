//! Texts whose lines are read before any of them is assembled.

ghost use Rattle.std.specs.Prelude.{◌≡◌, ◌≤◌, ◌+◌, ◌^◌, true, false, Some, length, [], IfOk, IfErr, OnErr};
ghost use Rattle.rv_layout.specs.Places.{is_base};
ghost use Rattle.rv_program.specs.Text.{Insert, refusal_of, Edits};

use crate::column::Column;
use rv_layout::base_ok;
use rv_program::{EditError, Line, LineEdit};
use rv_text::Count;
use std::alloc::Global;
use std::marker::Model;

/// A text whose lines are read one by one, and of which nothing is assembled: `Store::of_draft` assembles it at once. Contracts see the text.
#[derive(Drop)]
pub struct Draft {
    pub(crate) alloc: Global,
    pub(crate) base: u32,
    pub(crate) lines: Column,
}

impl Model for Draft {
    ghost use Rattle.rv_store.specs.internal.Drafts.{IsDraft};
    ghost use Rattle.rv_program.specs.Text.{Text};

    ghost Value = { Text };

    ghost view = { λ d. record { base = d.base; lines = d.lines.items } };

    ghost invariant = { λ d. IsDraft d.base d.lines.items };
}

impl Draft {
    /// An empty text, whose `.text` begins at the base. Refused with `Base` where `base_ok` does not hold; an empty text
    /// takes no memory.
    pub fn new(alloc: Global, base: u32) -> Result<Draft, EditError>
        ensures ok { IfOk result (λ d. (is_base base ≡ true) × (d ≡ record { base = base; lines = [] })) }
        ensures err { IfErr result (λ e. (is_base base ≡ false) × (e ≡ EditError.Base)) }
    {
        if !base_ok(base) {
            return Err(EditError::Base);
        }
        Ok(Draft {
            alloc,
            base,
            lines: Column::new(alloc),
        })
    }

    /// How many lines there are.
    pub fn len(&self) -> usize
        ensures { result ≡ length self.now.lines }
    {
        self.lines.len()
    }

    /// Adds a line at the end.
    ///
    /// Refused, in this order, with `Line` where the line holds 0x0A or is longer than `MAX_LINE_LENGTH`, `TooMany` where there are
    /// `MAX_LINES` lines, and `Memory`. Then the text stays.
    ///
    /// The counter's number of lines read has to be at most 2^63. The line is read, unless it is refused; nothing else is counted.
    pub fn push<C: Count>(&mut self, line: &[u8], counter: &mut C) -> Result<(), EditError>
        requires { C.parsed_count counter.old ≤ 2 ^ 63 }
        ensures edit { Edits self.old (Insert (length self.old.lines + 1) line.now) result self.new }
        ensures read { IfOk result (λ _. C.parsed_count counter.new ≡ C.parsed_count counter.old + 1) }
        ensures refused { IfErr result (λ e. refusal_of self.old.lines (Insert (length self.old.lines + 1) line.now) ≡ Some e → counter.new ≡ counter.old) }
        ensures parsed { (C.parsed_count counter.old ≤ C.parsed_count counter.new) × (C.parsed_count counter.new ≤ C.parsed_count counter.old + 1) }
        ensures valued { C.valued_count counter.new ≡ C.valued_count counter.old }
        ensures encoded { C.encoded_count counter.new ≡ C.encoded_count counter.old }
    {
        let count = self.lines.len();
        let edit = LineEdit::Insert(count as u32 + 1, line);
        if let Some(e) = edit.refusal(count) {
            return Err(e);
        }
        let read = Line::read(self.alloc, line, counter)?;
        self.lines.put(count, read)?;
        Ok(())
    }
}
