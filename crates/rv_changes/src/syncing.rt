//! Lines of a text that are replaced where its document changes.

ghost use Rattle.std.specs.Prelude.{◌≡◌, ◌+◌, ◌-◌, ◌<◌, ◌≤◌, ◌++◌, ◌∷◌, ◌==◌, ℕ, List, [], false, true, length, map, insert, remove, set, IfOk, OnOk};
ghost use Rattle.std.specs.List.{list_any};
ghost use Rattle.rv_doc.specs.Edits.{spliced};
ghost use Rattle.rv_changes.specs.Assembled.{assembled_line};

use crate::assembled::assembled_line;
use rv_doc::Lines;
use rv_store::{MAX_LINES, Store};
use rv_text::Tally;
use std::alloc::AllocError;

// The number of the line at a place. A text has at most `MAX_LINES` lines.
fn number_at(store: &Store, at: usize) -> u32
    requires { at ≤ length store.now.lines }
    ensures { result ≡ at + 1 }
{
    at.min(store.len()) as u32 + 1
}

// Whether the line at a place is this one.
fn has_line(store: &Store, at: usize, line: &[u8]) -> bool
    requires { at < length store.now.lines }
    ensures { result ≡ true → set store.now.lines at line.now ≡ store.now.lines }
{
    match store.line(number_at(store, at)) {
        Some(old) => old == line,
        None => false,
    }
}

// Puts a line in the place of another, unless it stands there.
fn set_line(store: &mut Store, at: usize, line: &[u8]) -> Result<(), AllocError>
    requires place { at < length store.old.lines }
    requires unbroken { list_any (λ b. b == 10) line.now ≡ false }
    ensures { OnOk result (store.new ≡ record { base = store.old.base; lines = set store.old.lines at (assembled_line line.now) }) }
{
    let number = number_at(store, at);
    match store.replace(number, assembled_line(line), &mut Tally::new()) {
        Ok(_) => Ok(()),
        Err(_) => Err(AllocError),
    }
}

// Puts a line in.
pub(crate) fn insert_line(store: &mut Store, at: usize, line: &[u8]) -> Result<(), AllocError>
    requires place { at ≤ length store.old.lines }
    requires few { length store.old.lines < MAX_LINES }
    requires unbroken { list_any (λ b. b == 10) line.now ≡ false }
    ensures { OnOk result (store.new ≡ record { base = store.old.base; lines = insert store.old.lines at (assembled_line line.now) }) }
{
    let number = number_at(store, at);
    match store.insert(number, assembled_line(line), &mut Tally::new()) {
        Ok(_) => Ok(()),
        Err(_) => Err(AllocError),
    }
}

// Takes a line out.
pub(crate) fn delete_line(store: &mut Store, at: usize) -> Result<(), AllocError>
    requires { at < length store.old.lines }
    ensures { OnOk result (store.new ≡ record { base = store.old.base; lines = remove store.old.lines at }) }
{
    let number = number_at(store, at);
    match store.delete(number, &mut Tally::new()) {
        Ok(_) => Ok(()),
        Err(_) => Err(AllocError),
    }
}

// Takes some lines out.
#[tactic(auto, using(crate::proofs::Kept::taken_count))]
fn delete_lines(store: &mut Store, first: usize, count: usize) -> Result<(), AllocError>
    requires { first + count ≤ length store.old.lines }
    ensures lines { OnOk result (store.new ≡ record { base = store.old.base; lines = spliced store.old.lines first count [] }) }
    ensures count { OnOk result (length store.new.lines + count ≡ length store.old.lines) }
{
    let mut left = count;
    'lines: while left > 0 {
        delete_line(store, first)?;
        left -= 1;
    }
    Ok(())
}

// Whether an edit of a line may define something else: it has a label, or a directive.
fn may_define(line: &[u8]) -> bool {
    line.contains(&b':') || line.contains(&b'.')
}

// The address of the last line.
fn last_address(store: &Store) -> Option<u32> {
    store.address(store.len() as u32)
}

// Puts a line in the place of another, and says whether that may have taken a look at each line: it defines something, or others move.
fn replace_line(store: &mut Store, at: usize, line: &[u8]) -> Result<bool, AllocError>
    requires place { at < length store.old.lines }
    requires unbroken { list_any (λ b. b == 10) line.now ≡ false }
    ensures { OnOk result (store.new ≡ record { base = store.old.base; lines = set store.old.lines at (assembled_line line.now) }) }
{
    let last = last_address(store);
    let defined = match store.line(number_at(store, at)) {
        Some(old) => may_define(old),
        None => true,
    };
    set_line(store, at, line)?;
    Ok(defined || may_define(line) || last_address(store) != last)
}

// Puts a line in the place of the first of so many that are left to replace, or in front of what stands behind them, and says whether that
// may have taken a look at each line.
fn put_line(store: &mut Store, at: usize, left: usize, line: &[u8]) -> Result<bool, AllocError>
    requires place { at + left ≤ length store.old.lines }
    requires few { length store.old.lines + 1 ≤ MAX_LINES + left }
    requires unbroken { list_any (λ b. b == 10) line.now ≡ false }
    ensures base { OnOk result (store.new.base ≡ store.old.base) }
    ensures lines { (later : List (List ℕ)) → OnOk result (spliced store.new.lines (at + 1) (left - 1) later ≡ spliced store.old.lines at left (assembled_line line.now ∷ later)) }
    ensures count { OnOk result (length store.new.lines + left ≡ length store.old.lines + (left - 1) + 1) }
{
    if left == 0 {
        insert_line(store, at, line)?;
        return Ok(true);
    }
    if has_line(store, at, assembled_line(line)) {
        return Ok(false);
    }
    replace_line(store, at, line)
}

// Puts lines in the place of some lines of a text. It gives up, and says so, where more than so many of the edits may each take a look at each
// line.
pub(crate) fn put_lines(
    store: &mut Store,
    first: usize,
    count: usize,
    mut lines: Lines<'_>,
    most: usize,
) -> Result<bool, AllocError>
    requires place { first + count ≤ length store.old.lines }
    requires few { length store.old.lines + length lines ≤ MAX_LINES + count }
    ensures count { IfOk result (λ done. done ≡ true → length store.new.lines + count ≡ length store.old.lines + length lines.entry) }
    ensures lines { IfOk result (λ done. done ≡ true → store.new ≡ record { base = store.old.base; lines = spliced store.old.lines first count (map assembled_line lines.entry) }) }
{
    let mut at = first;
    let mut left = count;
    let mut costly = most;
    'lines: while let Some(line) = lines.next_line() {
        if put_line(store, at, left, line)? {
            if costly == 0 {
                return Ok(false);
            }
            costly -= 1;
        }
        at += 1;
        left = left.saturating_sub(1);
    }
    delete_lines(store, at, left)?;
    Ok(true)
}
