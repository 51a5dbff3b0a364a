//! Lines that may have to do with a name, or be of a kind, found by the sums of a tree.

ghost use Rattle.std.specs.Prelude.{◌≡◌, ◌≤◌, ◌<◌, ◌==◌, ℕ, List, length};
ghost use Rattle.rv_program.specs.internal.LineSearch.{AreUnwanted, AreFirst};
ghost use Rattle.rv_program.specs.internal.Lines.{lines_of};
ghost use Rattle.rv_program.specs.internal.LineSums.{lacks_wanted};
ghost use Rattle.rv_program.specs.internal.LinesWithout.{is_of_kind, AreWithout};
ghost use Rattle.rv_program.specs.internal.Masks.{shared};
ghost use Rattle.rv_program.specs.Program.{program_of};

use crate::item::Item;
use crate::line::Line;
use crate::line_sum::LineSum;
use crate::mask::{Kind, Mask};
use rv_tree::{Sought, SumTree};
use std::marker::Model;

// What a search by sums looks for: anything of a mask.
#[derive(Clone, Copy)]
struct Wanted {
    mask: Mask,
}

impl Sought<Item> for Wanted {
    ghost lacks = { λ w s. shared w.mask s.mask == 0 };

    fn skips(&self, sum: &LineSum) -> bool {
        sum.mask.lacks(self.mask)
    }

    ghost lacks_parts = { λ p a b v w k. lacks_wanted p.mask a b v w k };
}

/// The part of the lines at which a search is: they are to be looked at one by one, the others are found by the sums of the tree.
#[derive(Clone, Copy)]
pub struct SearchPart {
    begin: usize,
    end: usize,
}

impl SearchPart {
    /// That of a search that has not begun.
    pub fn start() -> SearchPart {
        SearchPart { begin: 0, end: 0 }
    }

    /// Whether the line after the first `i` is in it.
    #[inline(always)]
    pub fn has(&self, i: usize) -> bool {
        self.begin <= i && i < self.end
    }
}

/// The lines of a text that are searched, and the tree by whose sums they are, if there is one. Contracts see the lines.
#[derive(Drop)]
pub struct SearchedLines<'a> {
    lines: &'a [Line],
    items: Option<&'a SumTree<Item>>,
}

impl<'a> Model for SearchedLines<'a> {
    ghost use Rattle.std.specs.Prelude.{ℕ, List};
    ghost use Rattle.std.specs.Option.{option_map};
    ghost use Rattle.rv_program.specs.internal.LineSearch.{AreOf};

    ghost Value = { List (List ℕ) };

    ghost view = { λ s. s.lines.now };

    ghost invariant = { λ s. AreOf (option_map (λ tree. tree.now.items) s.items) s.lines.now };
}

impl<'a> SearchedLines<'a> {
    /// Lines that are asked one by one.
    pub fn one_by_one(lines: &'a [Line]) -> Self
        ensures { result ≡ lines.now }
    {
        SearchedLines { lines, items: None }
    }

    /// Lines that have the first ones of these items, or all of them.
    pub fn in_tree(lines: &'a [Line], items: &'a SumTree<Item>) -> Self
        requires { AreFirst lines.now (lines_of items.now.items) }
        ensures { result ≡ lines.now }
    {
        SearchedLines {
            lines,
            items: Some(items),
        }
    }

    /// How many lines there are.
    pub fn len(&self) -> usize
        ensures { result ≡ length self.now }
    {
        self.lines.len()
    }

    /// The lines.
    pub fn lines(&self) -> &'a [Line]
        ensures { result.now ≡ self.now }
    {
        self.lines
    }

    /// How many lines there are before the next one after the first `i` that is to be looked at; all of them, if none is. Those before it have
    /// nothing of what is wanted. `part` is that of this search.
    #[inline]
    pub fn next(&self, part: &mut SearchPart, i: usize, wanted: Mask) -> usize
        requires within { i ≤ length self.now }
        ensures up { i ≤ result }
        ensures within { result ≤ length self.now }
        ensures passed { AreUnwanted wanted self.now i result }
    {
        if part.has(i) {
            return i;
        }
        self.next_part(part, i, wanted)
    }

    // The same, where the part before ends. Without a tree all lines are one part.
    #[inline(never)]
    fn next_part(&self, part: &mut SearchPart, i: usize, wanted: Mask) -> usize
        requires within { i ≤ length self.now }
        ensures up { i ≤ result }
        ensures within { result ≤ length self.now }
        ensures passed { AreUnwanted wanted self.now i result }
    {
        let Some(items) = self.items else {
            *part = SearchPart {
                begin: i,
                end: self.lines.len(),
            };
            return i;
        };
        // There are no more lines than items, and the number of these has 32 bits.
        let _all = items.len();
        let next = items.next_part(i as u32, &Wanted { mask: wanted });
        *part = SearchPart {
            begin: next.begin as usize,
            end: next.end as usize,
        };
        self.lines.len().min(part.begin)
    }

    /// How many lines there are before the next one of a kind after the first `i`; all of them, if none is. `part` is that of this search.
    #[inline(always)]
    pub fn next_of_kind(&self, part: &mut SearchPart, i: usize, kind: Kind) -> usize
        requires within { i ≤ length self.now }
        ensures up { i ≤ result }
        ensures within { result ≤ length self.now }
        ensures passed { (lines : List (List ℕ)) → self.now ≡ lines → AreWithout (is_of_kind kind) (program_of lines) i result }
    {
        let wanted = Mask::of_kind(kind);
        let mut at = self.next(part, i, wanted);
        while at < self.lines.len() {
            if self.lines[at].brief().is_of(kind) {
                return at;
            }
            at = self.next(part, at + 1, wanted);
        }
        at
    }
}
