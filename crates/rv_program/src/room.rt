//! Room for the rows of a text.

ghost use Rattle.std.specs.Prelude.{◌≡◌, ◌≤◌, [], replicate, vec_capacity, IfOk};

use rv_fix::Entry;
use std::alloc::{AllocError, Global};

// Capacity is rounded up to a multiple of this, so that a text growing line by line can usually reuse its previous allocation.
const STEP: usize = 1024;

/// How many entries there is room for in a row of so many.
pub fn room_for(count: usize) -> usize {
    (count / STEP).saturating_add(1).saturating_mul(STEP)
}

/// An empty row with room for so many entries.
pub fn row_for<T>(alloc: Global, count: usize) -> Result<Vec<T>, AllocError>
    ensures empty { IfOk result (λ row. row.items ≡ []) }
    ensures room { IfOk result (λ row. count ≤ vec_capacity row) }
{
    Vec::with_capacity(alloc, room_for(count).max(count))
}

/// A row of so many entries, all of them this one.
///
/// # Errors
///
/// Fails only where there is no memory.
pub fn row_of(alloc: Global, entry: Entry, count: usize) -> Result<Vec<Entry>, AllocError>
    ensures { IfOk result (λ row. row.items ≡ replicate count entry) }
{
    let mut row = Vec::with_capacity(alloc, room_for(count))?;
    row.resize(count, entry)?;
    Ok(row)
}
