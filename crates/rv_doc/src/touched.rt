//! The lines in which two texts differ.

ghost use Rattle.std.specs.Prelude.{◌≡◌, ◌+◌, ◌-◌, ◌≤◌, length, take, drop};
ghost use Rattle.rv_doc.specs.Borders.{IsLineStart, IsLineEnd};
ghost use Rattle.rv_doc.specs.Edits.{spliced};
ghost use Rattle.rv_doc.specs.Positions.{lines_of};

use crate::lines::{line_breaks, line_count, line_end_behind, line_start_before};
use crate::shared::{shared_back, shared_front};

/// Some lines of a text, and those in their place in another, which has the same lines before and behind them.
#[derive(Clone, Copy, Debug)]
pub struct Touched<'a> {
    /// How many lines stand before them.
    pub first: usize,
    /// How many lines of the old text they are.
    pub count: usize,
    /// The lines of the old text, with line breaks between them.
    pub old: &'a [u8],
    /// Those of the new text.
    pub new: &'a [u8],
}

// The lines between two places that the texts share, the second counted from their ends.
fn lines_between<'a>(old: &'a [u8], new: &'a [u8], start: usize, behind: usize) -> Touched<'a>
    requires old { start + behind ≤ length old.now }
    requires new { start + behind ≤ length new.now }
    requires front { take start old.now ≡ take start new.now }
    requires back { drop (length old.now - behind) old.now ≡ drop (length new.now - behind) new.now }
    requires starts { IsLineStart new.now start }
    requires ends { IsLineEnd new.now (length new.now - behind) }
    ensures lines { lines_of new.entry.now ≡ spliced (lines_of old.entry.now) result.first result.count (lines_of result.new.now) }
    ensures count { result.count ≡ length (lines_of result.old.now) }
    ensures within { result.first + result.count ≤ length (lines_of old.entry.now) }
{
    let (front, rest) = old.split_at(start);
    let (old_lines, _) = rest.split_at(rest.len() - behind);
    let (_, rest) = new.split_at(start);
    let (new_lines, _) = rest.split_at(rest.len() - behind);
    Touched {
        first: line_breaks(front),
        count: line_count(old_lines),
        old: old_lines,
        new: new_lines,
    }
}

/// The lines in which two texts differ, from the first such line to the last; a single line where they do not.
pub fn touched_lines<'a>(old: &'a [u8], new: &'a [u8]) -> Touched<'a>
    ensures lines { lines_of new.entry.now ≡ spliced (lines_of old.entry.now) result.first result.count (lines_of result.new.now) }
    ensures count { result.count ≡ length (lines_of result.old.now) }
    ensures within { result.first + result.count ≤ length (lines_of old.entry.now) }
{
    let front = shared_front(old, new);
    let start = line_start_before(new, front);
    let (_, old_rest) = old.split_at(front);
    let (_, new_rest) = new.split_at(front);
    let back = shared_back(old_rest, new_rest);
    let end = line_end_behind(new, new.len() - back);
    lines_between(old, new, start, new.len() - end)
}
