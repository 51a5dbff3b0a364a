//! The rows of a script that are edits.

ghost use Rattle.std.specs.Prelude.{◌≡◌};

use crate::script::{number_of, parts_of};
use rv_store::{Changed, EditError, Store};
use rv_text::Tally;

/// What an edit does with its line.
#[derive(Clone, Copy)]
pub enum EditKind {
    Append,
    Insert(u32),
    Replace(u32),
    Delete(u32),
}

/// An edit of a text.
#[derive(Clone, Copy)]
pub struct Edit<'a> {
    pub kind: EditKind,
    pub line: &'a str,
}

// What an edit of this name does at a place.
fn kind_at(name: &str, place: u32) -> Option<EditKind> {
    match name {
        "i" => Some(EditKind::Insert(place)),
        "r" => Some(EditKind::Replace(place)),
        "d" => Some(EditKind::Delete(place)),
        _ => None,
    }
}

impl<'a> Edit<'a> {
    /// The edit of a row, if it is one.
    pub fn of_row(row: &'a str) -> Option<Edit<'a>> {
        let (name, rest) = parts_of(row);
        if name == "a" {
            let kind = EditKind::Append;
            return Some(Edit { kind, line: rest });
        }
        let (place, line) = parts_of(rest);
        let kind = kind_at(name, number_of(place)?)?;
        Some(Edit { kind, line })
    }
}

impl EditKind {
    /// Makes the edit with this line.
    pub fn make(
        self,
        store: &mut Store,
        line: &[u8],
        tally: &mut Tally,
    ) -> Result<Changed, EditError>
        requires { tally.old ≡ record { parsed = 0; valued = 0; encoded = 0 } }
    {
        match self {
            EditKind::Append => store.insert(store.len() as u32 + 1, line, tally),
            EditKind::Insert(place) => store.insert(place, line, tally),
            EditKind::Replace(place) => store.replace(place, line, tally),
            EditKind::Delete(place) => store.delete(place, tally),
        }
    }
}
