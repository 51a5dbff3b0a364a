//! Why edits are refused, whatever the memory.

ghost use Rattle.std.specs.Prelude.{◌≡◌, ℕ, List, length};
ghost use Rattle.rv_program.specs.Text.{is_line, Insert, Delete, Replace, refusal_of};

use crate::edit_error::EditError;
use crate::limits::MAX_LINES;
use rv_text::MAX_LINE_LENGTH;

// Whether these bytes can be a line.
fn is_line(bytes: &[u8]) -> bool
    ensures { result ≡ is_line bytes.now }
{
    !bytes.contains(&b'\n') && bytes.len() <= MAX_LINE_LENGTH
}

/// Why a line is not put into so many lines, if it isn't.
pub fn insert_refused(count: usize, k: u32, line: &[u8]) -> Option<EditError>
    ensures { (lines : List (List ℕ)) → length lines ≡ count → result ≡ refusal_of lines (Insert k line.now) }
{
    if k == 0 || k as usize - 1 > count {
        return Some(EditError::Place);
    }
    if !is_line(line) {
        return Some(EditError::Line);
    }
    if count >= MAX_LINES {
        return Some(EditError::TooMany);
    }
    None
}

/// Why a line is not taken out of so many lines, if it isn't.
pub fn delete_refused(count: usize, k: u32) -> Option<EditError>
    ensures { (lines : List (List ℕ)) → length lines ≡ count → result ≡ refusal_of lines (Delete k) }
{
    if k == 0 || k as usize > count {
        return Some(EditError::Place);
    }
    None
}

/// Why a line is not put in the place of one of so many lines, if it isn't.
pub fn replace_refused(count: usize, k: u32, line: &[u8]) -> Option<EditError>
    ensures { (lines : List (List ℕ)) → length lines ≡ count → result ≡ refusal_of lines (Replace k line.now) }
{
    if let Some(e) = delete_refused(count, k) {
        return Some(e);
    }
    if !is_line(line) {
        return Some(EditError::Line);
    }
    None
}
