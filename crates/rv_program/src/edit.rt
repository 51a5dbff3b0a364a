//! Edits of a text.

ghost use Rattle.std.specs.Prelude.{◌≡◌, ◌<◌, ◌-◌, ◌^◌, ℕ, List, None, length};
ghost use Rattle.rv_program.specs.Edits.{edit_of, line_before_edit, place_of_edit};
ghost use Rattle.rv_program.specs.Text.{refusal_of};

use crate::edit_error::EditError;
use crate::line::Line;
use crate::refusals::{delete_refused, insert_refused, replace_refused};

/// A change of a text, at the line of a number from 1 on.
#[derive(Clone, Copy, Debug)]
pub enum LineEdit<'a> {
    /// Make this the line of that number; the lines from there on move down by one.
    Insert(u32, &'a [u8]),
    /// Take the line of this number out.
    Delete(u32),
    /// Put this in the place of the line of that number.
    Replace(u32, &'a [u8]),
}

/// An edit whose line, if it puts one in, has been read.
#[derive(Drop)]
pub enum ReadEdit {
    Insert(u32, Line),
    Delete(u32),
    Replace(u32, Line),
}

impl LineEdit<'_> {
    /// Why a text of so many lines refuses it, whatever the memory, if it does.
    pub fn refusal(&self, count: usize) -> Option<EditError>
        ensures { (lines : List (List ℕ)) → length lines ≡ count → result ≡ refusal_of lines (edit_of self.now) }
    {
        match *self {
            LineEdit::Insert(k, line) => insert_refused(count, k, line),
            LineEdit::Delete(k) => delete_refused(count, k),
            LineEdit::Replace(k, line) => replace_refused(count, k, line),
        }
    }

    /// The number of the line that it puts in, or before which it takes one out. No other line of the text after it is new.
    pub fn place(&self) -> u32
        ensures value { result ≡ place_of_edit (edit_of self.now) }
        ensures only { (line : ℕ) → line_before_edit (edit_of self.now) line ≡ None → line ≡ result }
    {
        match *self {
            LineEdit::Insert(k, _) | LineEdit::Delete(k) | LineEdit::Replace(k, _) => k,
        }
    }

    /// Where a line of the text after the edit stood before it. The line that the edit puts in stood nowhere.
    pub fn line_before(&self, line: u32) -> Option<u32>
        requires { line < 2 ^ 32 - 1 }
        ensures { result ≡ line_before_edit (edit_of self.now) line }
    {
        match *self {
            LineEdit::Insert(k, _) if line < k => Some(line),
            LineEdit::Insert(k, _) if line == k => None,
            LineEdit::Insert(_, _) => Some(line - 1),
            LineEdit::Delete(k) if line < k => Some(line),
            LineEdit::Delete(_) => Some(line + 1),
            LineEdit::Replace(k, _) if line == k => None,
            LineEdit::Replace(_, _) => Some(line),
        }
    }
}
