//! What a text holds at most.

/// How many lines a text has at most.
pub const MAX_LINES: usize = 16384;
