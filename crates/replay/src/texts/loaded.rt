//! Texts that are loaded at once.

use rv_store::{Draft, EditError, Store};
use rv_text::Tally;
use std::alloc::Global;

// The lines of a text, none of which is assembled.
fn draft_of(alloc: Global, base: u32, store: &Store) -> Result<Draft, EditError> {
    let mut draft = Draft::new(alloc, base)?;
    for place in 0..store.len() as u32 {
        if let Some(line) = store.line(place.saturating_add(1)) {
            draft.push(line, &mut Tally::new())?;
        }
    }
    Ok(draft)
}

/// The same text once more, all lines of it at once, with what that counts.
pub fn loaded(alloc: Global, base: u32, store: &Store) -> Result<(Store, Tally), EditError> {
    let mut tally = Tally::new();
    let draft = draft_of(alloc, base, store)?;
    let store = Store::of_draft(draft, &mut tally)?;
    Ok((store, tally))
}
