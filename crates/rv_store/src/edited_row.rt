//! The rows of a text after an edit.

ghost use Rattle.std.specs.Prelude.{◌≡◌, IfOk};
ghost use Rattle.rv_program.specs.Edits.{edit_of};
ghost use Rattle.rv_program.specs.internal.EditedRows.{HasPlace, edited_row};

use rv_program::{LineEdit, room_for};
use std::alloc::{AllocError, Global};

/// What each line of a text had before an edit, by the row of it, and this for the line that the edit puts in.
///
/// # Errors
///
/// Fails only where there is no memory.
pub fn edited_row<T: Copy>(
    alloc: Global,
    row: &[T],
    edit: &LineEdit<'_>,
    new: T,
) -> Result<Vec<T>, AllocError>
    requires { HasPlace row.now (edit_of edit.now) }
    ensures { IfOk result (λ after. after.items ≡ edited_row row.now (edit_of edit.now) new) }
{
    let mut after = Vec::with_capacity(alloc, room_for(row.len()))?;
    match *edit {
        LineEdit::Insert(k, _) => {
            let (above, below) = row.split_at(k as usize - 1);
            after.extend_from_slice(above)?;
            after.push(new)?;
            after.extend_from_slice(below)?;
        }
        LineEdit::Delete(k) => {
            let (above, _) = row.split_at(k as usize - 1);
            let (_, below) = row.split_at(k as usize);
            after.extend_from_slice(above)?;
            after.extend_from_slice(below)?;
        }
        LineEdit::Replace(k, _) => {
            after.extend_from_slice(row)?;
            after[k as usize - 1] = new;
        }
    }
    Ok(after)
}
