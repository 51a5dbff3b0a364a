//! Lines of a text that are replaced where its document may have more lines than a text.

ghost use Rattle.std.specs.Prelude.{◌≡◌, ◌+◌, ◌-◌, ◌≤◌, ◌++◌, ℕ, List, length, map, take, true, IfOk, OnOk};
ghost use Rattle.rv_doc.specs.Edits.{spliced};
ghost use Rattle.rv_changes.specs.Assembled.{assembled_line};

use crate::syncing::{delete_line, insert_line, put_lines};
use rv_doc::Lines;
use rv_store::{MAX_LINES, Store};
use std::alloc::AllocError;

// Takes out the last lines, so that at most so many are left.
fn cut_lines(store: &mut Store, most: usize) -> Result<(), AllocError>
    ensures { OnOk result (store.new ≡ record { base = store.old.base; lines = take most store.old.lines }) }
{
    'lines: while store.len() > most {
        delete_line(store, store.len() - 1)?;
    }
    Ok(())
}

// Puts lines at the end, as many as a text may have.
fn append_lines(store: &mut Store, mut lines: Lines<'_>) -> Result<(), AllocError>
    ensures { OnOk result (store.new ≡ record { base = store.old.base; lines = store.old.lines ++ map assembled_line (take (MAX_LINES - length store.old.lines) lines.entry) }) }
{
    'lines: while store.len() < MAX_LINES {
        let Some(line) = lines.next_line() else {
            return Ok(());
        };
        insert_line(store, store.len(), line)?;
    }
    Ok(())
}

// Puts the lines of a document at the end of a text that its first lines make.
fn fill(store: &mut Store, all: Lines<'_>) -> Result<(), AllocError>
    ensures { store.old.lines ≡ map assembled_line (take (length store.old.lines) all.entry) → OnOk result (store.new ≡ record { base = store.old.base; lines = map assembled_line (take MAX_LINES all.entry) }) }
{
    if store.len() == MAX_LINES {
        return Ok(());
    }
    let left = all.behind(store.len());
    append_lines(store, left)?;
    Ok(())
}

// The same as below, where the text may have as many lines as there can be, before or after.
fn change_at_limit(
    store: &mut Store,
    first: usize,
    count: usize,
    lines: Lines<'_>,
    added: usize,
    all: Lines<'_>,
    most: usize,
) -> Result<bool, AllocError>
    requires added { added ≡ length lines }
    ensures { (old : List (List ℕ)) → store.old.lines ≡ map assembled_line (take MAX_LINES old) → first + count ≤ length old → all.entry ≡ spliced old first count lines.entry → IfOk result (λ done. done ≡ true → store.new ≡ record { base = store.old.base; lines = map assembled_line (take MAX_LINES all.entry) }) }
{
    let room = MAX_LINES.saturating_add(count);
    let kept = store.len().min(room.saturating_sub(added));
    if added > room || first.saturating_add(count) > kept {
        cut_lines(store, first)?;
        fill(store, all)?;
        return Ok(true);
    }
    cut_lines(store, kept)?;
    let done = put_lines(store, first, count, lines, most)?;
    if done {
        fill(store, all)?;
    }
    Ok(done)
}

/// Brings a text to what a document is after `count` of its lines, from number `first` on, counted from 0 on, are replaced by `added` others. `all`
/// are the lines of the document then, of which a text has as many as it may. It gives up, and says so, where more than `most` of the edits may
/// each take a look at each line: then the text is of no use.
///
/// # Errors
///
/// `AllocError` if there is no memory for the lines.
pub fn change_lines(
    store: &mut Store,
    first: usize,
    count: usize,
    lines: Lines<'_>,
    added: usize,
    all: Lines<'_>,
    most: usize,
) -> Result<bool, AllocError>
    requires added { added ≡ length lines }
    ensures { (old : List (List ℕ)) → store.old.lines ≡ map assembled_line (take MAX_LINES old) → first + count ≤ length old → all.entry ≡ spliced old first count lines.entry → IfOk result (λ done. done ≡ true → store.new ≡ record { base = store.old.base; lines = map assembled_line (take MAX_LINES all.entry) }) }
{
    let len = store.len();
    if len < MAX_LINES
        && first.saturating_add(count) <= len
        && added.saturating_add(len) <= MAX_LINES.saturating_add(count)
    {
        let done = put_lines(store, first, count, lines, most)?;
        return Ok(done);
    }
    change_at_limit(store, first, count, lines, added, all, most)
}
