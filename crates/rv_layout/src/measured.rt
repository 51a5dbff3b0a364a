//! The shapes of lines.

use crate::alignment::Alignment;
use rv_stmt::Sect;
use rv_text::Fault;

/// The shape of a line: what it does to the section and its offset, wherever it lies.
#[derive(Clone, Copy, Debug, PartialEq, Eq)]
pub enum Measured {
    /// It has so many bytes.
    Bytes(u32),
    /// It rounds the offset up to a multiple.
    Align(Alignment),
    /// It has no bytes, and the lines after it are put into the section.
    Switch(Sect),
    /// It has no bytes.
    Nothing,
    /// It has no bytes, because something is wrong with it.
    Faulty(Fault),
}
