//! Lines that have been read.

ghost use Rattle.std.specs.Prelude.{◌≡◌, ◌≤◌, ◌+◌, ◌^◌, true, length, IfOk, IfErr};
ghost use Rattle.rv_stmt.specs.Statement.{statement_of, data_size_of};
ghost use Rattle.rv_program.specs.internal.Briefs.{brief_of};
ghost use Rattle.rv_program.specs.Text.{is_line};

use crate::brief::Brief;
use crate::edit_error::EditError;
use rv_stmt::{Stmt, data_are_few, read_line};
use rv_text::Count;
use std::alloc::{AllocError, Global};
use std::marker::Model;
use std::rc::Rc;

// The bytes of a line, and its statement.
#[derive(Drop)]
struct Content {
    text: Vec<u8>,
    stmt: Stmt,
}

/// A line of a text with its statement. It is read once, and then shared by all that hold it. Contracts see its bytes.
pub struct Line {
    brief: Brief,
    content: Rc<Content>,
}

// What a derive would do, but proved here: a crate that drops a line would prove the derived drop of each type in it.
impl Drop for Line {
    fn drop(self) {
        let Line {
            brief: _,
            content: _,
        } = self;
    }
}

impl Model for Line {
    ghost use Rattle.std.specs.Prelude.{ℕ, List};
    ghost use Rattle.rv_program.specs.internal.ReadLines.{IsRead};

    ghost Value = { List ℕ };

    ghost view = { λ l. l.content.value.text.items };

    ghost invariant = { λ l. IsRead l.content.value.text.items l.content.value.stmt l.brief };
}

impl Line {
    /// Reads a line. The counter's number of lines read goes up by one. Fails only where there is no memory.
    pub fn read<C: Count>(alloc: Global, bytes: &[u8], counter: &mut C) -> Result<Line, EditError>
        requires line { is_line bytes.now ≡ true }
        requires count { C.parsed_count counter.old ≤ 2 ^ 63 }
        ensures line { IfOk result (λ l. l ≡ bytes.now) }
        ensures memory { IfErr result (λ e. e ≡ EditError.Memory) }
        ensures parsed { C.parsed_count counter.new ≡ C.parsed_count counter.old + 1 }
        ensures valued { C.valued_count counter.new ≡ C.valued_count counter.old }
        ensures encoded { C.encoded_count counter.new ≡ C.encoded_count counter.old }
    {
        let stmt = read_line(alloc, bytes, counter)?;
        let brief = Brief::of(&stmt);
        let text = Vec::from_slice(alloc, bytes)?;
        let content = Rc::new(alloc, Content { text, stmt })?;
        Ok(Line { brief, content })
    }

    /// The same line once more.
    pub fn share(&self) -> Result<Line, AllocError>
        ensures { IfOk result (λ l. l ≡ self.now) }
    {
        let content = Rc::clone(&self.content)?;
        Ok(Line {
            brief: self.brief,
            content,
        })
    }

    /// Its bytes.
    pub fn text(&self) -> &[u8]
        ensures text { result.now ≡ self.now }
        ensures line { is_line result.now ≡ true }
    {
        self.content.text.as_slice()
    }

    /// The data of a line are few: it has at most 1,000 bytes, and each of them gives at most four bytes of data.
    pub fn data_are_few(&self)
        ensures { data_size_of (statement_of self.now).body ≤ 4000 }
    {
        data_are_few();
        // It is a line, so its bytes are few.
        let _ = self.text();
    }

    /// The labels of a line are few, since each takes bytes of its own.
    pub fn labels_are_few(&self)
        ensures { length (statement_of self.now).labels ≤ 1000 }
    {
        // It is a line, so its bytes are few.
        let _ = self.text();
    }

    /// What it defines and uses, in brief.
    pub fn brief(&self) -> Brief
        ensures { result ≡ brief_of (statement_of self.now) }
    {
        self.brief
    }

    /// Its statement.
    pub fn stmt(&self) -> &Stmt
        ensures { result.now ≡ statement_of self.now }
    {
        &self.content.stmt
    }
}
