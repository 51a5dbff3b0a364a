//! The lines of one local label.

use rv_text::Sequence;

/// The lines that have the local label of a number, rising.
#[derive(Drop)]
pub struct LocalRow {
    /// The number.
    pub number: u16,
    /// The lines.
    pub lines: Sequence<u32>,
}
