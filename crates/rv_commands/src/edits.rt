//! Edits of a text.

ghost use Rattle.rv_program.specs.Edits.{edit_of};
ghost use Rattle.rv_program.specs.Text.{Edits};

use rv_store::{EditError, LineEdit, Store};
use rv_text::Tally;

/// Makes an edit, or says why not.
pub fn make_edit(store: &mut Store, edit: LineEdit<'_>) -> Result<(), EditError>
    ensures { Edits store.old (edit_of edit.entry) result store.new }
{
    let mut tally = Tally::new();
    match edit {
        LineEdit::Insert(place, line) => {
            store.insert(place, line, &mut tally)?;
            Ok(())
        }
        LineEdit::Delete(place) => {
            store.delete(place, &mut tally)?;
            Ok(())
        }
        LineEdit::Replace(place, line) => {
            store.replace(place, line, &mut tally)?;
            Ok(())
        }
    }
}
