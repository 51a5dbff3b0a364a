//! The items of a tree, one after another.

ghost use Rattle.std.specs.Prelude.{◌≡◌, ◌≤◌, ◌+◌, ◌++◌, [], length};
ghost use Rattle.rv_tree.specs.declared.limits.TheConstants.{MAX_HEIGHT};
ghost use Rattle.rv_tree.specs.Items.{subtrees, items_left, AreLow};
ghost use Rattle.rv_tree.specs.Rows.{values};

use crate::limits::MAX_HEIGHT;
use crate::node::Subtree;
use crate::sums::Summed;
use arrayvec::ArrayVec;
use std::marker::Model;
use std::rc::Rc;

// How many subtrees are left at once at most.
const PATH: usize = MAX_HEIGHT as usize;

/// The items of a tree that are left, in order. Contracts see the list of them. Takes no memory.
#[derive(Drop)]
pub struct Items<'a, T: Summed> {
    // The items of a leaf, of which the first `seen` were given.
    row: &'a [Rc<T>],
    seen: usize,
    // The subtrees that are left, the next one last.
    left: ArrayVec<Option<&'a Subtree<T>>, PATH>,
}

impl<'a, T: Summed> Model for Items<'a, T> {
    ghost use Rattle.std.specs.Prelude.{List, length, drop, ◌++◌, ◌≤◌};
    ghost use Rattle.rv_tree.specs.Items.{subtrees, items_left, AreLow};
    ghost use Rattle.rv_tree.specs.Rows.{values};

    ghost Value = { List T };

    ghost view = { λ s. drop s.seen (values s.row.now) ++ items_left (subtrees s.left.items) };

    ghost invariant = { λ s. (s.seen ≤ length s.row.now) × AreLow 0 (subtrees s.left.items) };
}

impl<'a, T: Summed> Items<'a, T> {
    /// No items.
    pub(crate) fn new() -> Items<'a, T>
        ensures { result ≡ [] }
    {
        Items {
            row: &[],
            seen: 0,
            left: ArrayVec::new(),
        }
    }

    /// The items of a tree.
    pub(crate) fn of(tree: &'a Subtree<T>) -> Items<'a, T>
        requires { tree.now.height ≤ MAX_HEIGHT }
        ensures { result ≡ tree.now.items }
    {
        let mut left = ArrayVec::new();
        left.push(Some(tree));
        Items {
            row: &[],
            seen: 0,
            left,
        }
    }
}

// The items of the first leaf below a node. The subtrees behind it are put behind those that are left.
fn first_below<'a, T: Summed>(
    node: &'a Subtree<T>,
    left: &mut ArrayVec<Option<&'a Subtree<T>>, PATH>,
) -> &'a [Rc<T>]
    requires low { AreLow 0 (subtrees left.old.items) }
    requires fits { node.now.height + length left.old.items ≤ MAX_HEIGHT }
    ensures items { node.now.items ++ items_left (subtrees left.old.items) ≡ values result.now ++ items_left (subtrees left.new.items) }
    ensures some { 1 ≤ length result.now }
    ensures low { AreLow 0 (subtrees left.new.items) }
{
    if node.height() == 1 {
        return node.row().items();
    }
    let (first, right) = node.sides();
    left.push(Some(right));
    first_below(first, left)
}

impl<'a, T: Summed> Iterator for Items<'a, T> {
    type Item = &'a T;

    ghost use Rattle.std.specs.Iterator.{YieldsFirstRef, item_count};

    ghost next_gives = { YieldsFirstRef (λ s. s) };

    ghost remaining = { item_count (λ s. s) };

    fn next(&mut self) -> Option<&'a T> {
        if self.seen < self.row.len() {
            let item = &self.row[self.seen];
            self.seen += 1;
            return Some(item);
        }
        let node = self.left.pop()??;
        let row = first_below(node, &mut self.left);
        self.row = row;
        self.seen = 1;
        Some(&row[0])
    }
}
