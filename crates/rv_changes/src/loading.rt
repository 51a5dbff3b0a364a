//! Texts that are put into a new store.

ghost use Rattle.std.specs.Prelude.{◌≡◌, ◌+◌, ◌<◌, ◌≤◌, ◌++◌, ◌∷◌, ◌==◌, ℕ, List, [], false, true, not, length, map, take, IfOk, OnOk};
ghost use Rattle.std.specs.List.{list_any, list_all};
ghost use Rattle.rv_changes.specs.Assembled.{assembled, assembled_line};

use crate::assembled::assembled_line;
use crate::base::Base;
use rv_doc::Lines;
use rv_store::{Draft, MAX_LINES, Store};
use rv_text::Tally;
use std::alloc::{AllocError, Global};

// Puts a line at the end of a text.
fn append(draft: &mut Draft, line: &[u8]) -> Result<(), AllocError>
    requires few { length draft.old.lines < MAX_LINES }
    requires unbroken { list_any (λ b. b == 10) line.now ≡ false }
    ensures { OnOk result (draft.new ≡ record { base = draft.old.base; lines = draft.old.lines ++ assembled_line line.now ∷ [] }) }
{
    match draft.push(assembled_line(line), &mut Tally::new()) {
        Ok(()) => Ok(()),
        Err(_) => Err(AllocError),
    }
}

// Puts the first lines of a document at the end of a text, at most so many.
fn append_first(draft: &mut Draft, mut lines: Lines<'_>, most: usize) -> Result<(), AllocError>
    requires { length draft.old.lines + most ≤ MAX_LINES }
    ensures { OnOk result (draft.new ≡ record { base = draft.old.base; lines = draft.old.lines ++ map assembled_line (take most lines.entry) }) }
{
    let mut left = most;
    'lines: while left > 0 {
        let Some(line) = lines.next_line() else {
            return Ok(());
        };
        append(draft, line)?;
        left -= 1;
    }
    Ok(())
}

/// The text of the lines of a document that are assembled, from a base on.
///
/// # Errors
///
/// `AllocError` if there is no memory for it.
pub fn load(alloc: Global, base: Base, document: &[u8]) -> Result<Store, AllocError>
    ensures { IfOk result (λ store. store ≡ assembled base document.now) }
{
    let Ok(mut draft) = Draft::new(alloc, base.address()) else {
        unreachable!()
    };
    append_first(&mut draft, Lines::new(document), MAX_LINES)?;
    match Store::of_draft(draft, &mut Tally::new()) {
        Ok(store) => Ok(store),
        Err(_) => Err(AllocError),
    }
}
