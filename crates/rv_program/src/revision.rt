//! A text, and an edit of it.

use crate::edit::LineEdit;
use crate::lines::Lines;

/// A text, and an edit of it.
#[derive(Clone, Copy)]
pub struct Revision<'a, 'e> {
    /// Where `.text` begins, kept so that contracts can say where addresses are counted from.
    pub base: u32,
    /// The lines before the edit.
    pub lines: &'a Lines<'a>,
    pub edit: LineEdit<'e>,
}
