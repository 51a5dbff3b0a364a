//! What a tree holds at most.

/// How many items a tree has at most.
pub const MAX_ITEMS: u32 = 16_384;

/// How many nodes a path of a tree has at most.
pub const MAX_HEIGHT: u32 = 20;

/// How many items a leaf has at most.
pub(crate) const WIDTH: u32 = 32;

/// How many items of a full leaf go to the first of the two that it is cut into.
pub(crate) const HALF: u32 = 16;

/// How many items of a leaf a pass is asked about together.
pub(crate) const TOGETHER: u32 = 8;
