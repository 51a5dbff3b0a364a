//! The lines of a text, in a column or in the items of a tree.

ghost use Rattle.std.specs.Prelude.{◌≡◌, ◌≤◌, ◌-◌, length, map, get_or};

use crate::item::Item;
use crate::line::Line;
use rv_tree::SumTree;
use std::marker::Model;

/// Where the lines of a text stand.
#[derive(Clone, Copy)]
pub enum Standing<'a> {
    /// One behind the other.
    Column(&'a [Line]),
    /// In the items of a tree.
    Items(&'a SumTree<Item>),
}

/// The lines of a text, from the first to the last. Contracts see the list of them.
#[derive(Drop)]
pub struct Lines<'a> {
    standing: Standing<'a>,
}

impl<'a> Model for Lines<'a> {
    ghost use Rattle.std.specs.Prelude.{ℕ, List};
    ghost use Rattle.rv_program.specs.internal.Lines.{lines_in};

    ghost Value = { List (List ℕ) };

    ghost view = { λ l. lines_in l.standing };
}

impl<'a> Lines<'a> {
    /// Those that stand in a column.
    pub fn in_column(lines: &'a [Line]) -> Self
        ensures { result ≡ lines.now }
    {
        Lines {
            standing: Standing::Column(lines),
        }
    }

    /// Those of the items of a tree.
    pub fn in_items(items: &'a SumTree<Item>) -> Self
        ensures { result ≡ map (λ i. i.line) items.now.items }
    {
        Lines {
            standing: Standing::Items(items),
        }
    }

    /// How many lines there are.
    pub fn len(&self) -> usize
        ensures { result ≡ length self.now }
    {
        match self.standing {
            Standing::Column(lines) => lines.len(),
            Standing::Items(items) => items.len() as usize,
        }
    }

    /// The line of this number, from 1 on.
    pub fn line(&self, number: u32) -> &'a Line
        requires first { 1 ≤ number }
        requires last { number ≤ length self.now }
        ensures { result.now ≡ get_or self.now (number - 1) result.now }
    {
        match self.standing {
            Standing::Column(lines) => &lines[number as usize - 1],
            Standing::Items(items) => match items.get(number) {
                Some(item) => &item.line,
                None => unreachable!(),
            },
        }
    }
}
