//! One item put in, taken out or replaced in a leaf.

ghost use Rattle.std.specs.Prelude.{◌≡◌, ◌+◌, ◌≤◌, ◌<◌, length, [], ◌++◌, IfOk, IfSome, IsTrue, MatchOption, slice_set, insert, remove};

use crate::limits::{HALF, MAX_ITEMS, WIDTH};
use crate::node::Subtree;
use crate::row::Row;
use crate::sums::{Joined, Summed};
use std::alloc::{AllocError, Global};
use std::rc::Rc;

impl<T: Summed> Subtree<T> {
    // A leaf of the items of `row`, and one more behind the first `before`.
    pub(crate) fn inserted_in_leaf(
        alloc: Global,
        tree: &Rc<Subtree<T>>,
        row: &Row<T>,
        before: u32,
        item: Rc<T>,
    ) -> Result<Rc<Subtree<T>>, AllocError>
        requires items { tree.now.value.items ≡ row.now }
        requires height { tree.now.value.height ≡ 1 }
        requires place { before ≤ length row.now }
        ensures items { IfOk result (λ t. t.value.items ≡ insert row.now before item.value) }
        ensures height { IfOk result (λ t. (1 ≤ t.value.height) × (t.value.height ≤ 2)) }
    {
        if row.len() >= WIDTH {
            return Subtree::inserted_in_full_leaf(alloc, tree, row, before, item);
        }
        if before == row.len() {
            let leaf: &Subtree<T> = tree;
            return leaf.extended(alloc, row, item);
        }
        Subtree::of_row(alloc, Row::with_item(alloc, row.items(), before, item)?)
    }

    // This leaf, which has the items of `row`, with one more at its end: its sum goes on from that of the others.
    fn extended(
        &self,
        alloc: Global,
        row: &Row<T>,
        item: Rc<T>,
    ) -> Result<Rc<Subtree<T>>, AllocError>
        requires items { self.now.items ≡ row.now }
        requires room { length row.now < WIDTH }
        ensures items { IfOk result (λ t. t.value.items ≡ insert row.now (length row.now) item.value) }
        ensures height { IfOk result (λ t. t.value.height ≡ 1) }
    {
        let own: &T = &item;
        let sum = own.sum();
        sum.known();
        let sum = self.sum().join(&sum);
        let row = Row::with_item(alloc, row.items(), row.len(), item)?;
        Ok(Rc::new(alloc, Subtree::leaf_with_sum(row, sum))?)
    }

    // Two leaves of the items of a full `row`, and one more behind the first `before`. At either end it gets a leaf of its own.
    fn inserted_in_full_leaf(
        alloc: Global,
        tree: &Rc<Subtree<T>>,
        row: &Row<T>,
        before: u32,
        item: Rc<T>,
    ) -> Result<Rc<Subtree<T>>, AllocError>
        requires full { length row.now ≡ WIDTH }
        requires items { tree.now.value.items ≡ row.now }
        requires height { tree.now.value.height ≡ 1 }
        requires place { before ≤ WIDTH }
        ensures items { IfOk result (λ t. t.value.items ≡ insert row.now before item.value) }
        ensures height { IfOk result (λ t. t.value.height ≡ 2) }
    {
        if before == 0 {
            let new = Subtree::of_one(alloc, item)?;
            return Subtree::joined(alloc, new, Rc::clone(tree)?);
        }
        if before == WIDTH {
            let new = Subtree::of_one(alloc, item)?;
            return Subtree::joined(alloc, Rc::clone(tree)?, new);
        }
        Subtree::cut_in_two(alloc, row, before, item)
    }

    // Two leaves of the items of a full `row`, and one more behind the first `before`.
    fn cut_in_two(
        alloc: Global,
        row: &Row<T>,
        before: u32,
        item: Rc<T>,
    ) -> Result<Rc<Subtree<T>>, AllocError>
        requires full { length row.now ≡ WIDTH }
        requires place { before ≤ WIDTH }
        ensures items { IfOk result (λ t. t.value.items ≡ insert row.now before item.value) }
        ensures height { IfOk result (λ t. t.value.height ≡ 2) }
    {
        let (first, second) = row.halves();
        if before <= HALF {
            let first = Row::with_item(alloc, first, before, item)?;
            return Subtree::two_leaves(alloc, first, Row::of(alloc, second)?);
        }
        let second = Row::with_item(alloc, second, before - HALF, item)?;
        Subtree::two_leaves(alloc, Row::of(alloc, first)?, second)
    }

    // Two leaves of the items of these rows.
    fn two_leaves(
        alloc: Global,
        first: Row<T>,
        second: Row<T>,
    ) -> Result<Rc<Subtree<T>>, AllocError>
        requires some { (1 ≤ length first) × (1 ≤ length second) }
        requires few { length first + length second ≤ MAX_ITEMS }
        ensures items { IfOk result (λ t. t.value.items ≡ first ++ second) }
        ensures height { IfOk result (λ t. t.value.height ≡ 2) }
    {
        let left = Subtree::of_row(alloc, first)?;
        let right = Subtree::of_row(alloc, second)?;
        Subtree::joined(alloc, left, right)
    }

    // A leaf of the items of `row` without the one behind the first `before`.
    pub(crate) fn deleted_from_leaf(
        alloc: Global,
        row: &Row<T>,
        before: u32,
    ) -> Result<Option<Rc<Subtree<T>>>, AllocError>
        requires place { before < length row.now }
        ensures items { IfOk result (λ o. MatchOption o (remove row.now before ≡ []) (λ t. t.value.items ≡ remove row.now before)) }
        ensures height { IfOk result (λ o. IfSome o (λ t. t.value.height ≡ 1)) }
    {
        if row.len() == 1 {
            return Ok(None);
        }
        let mut row = row.copied(alloc)?;
        row.remove(before);
        Ok(Some(Subtree::of_row(alloc, row)?))
    }

    // Whether it has two leaves whose items fit in one.
    pub(crate) fn is_thin(&self) -> bool
        ensures { IsTrue result → (self.now.height ≡ 2) × (length self.now.items ≤ WIDTH) }
    {
        self.height() == 2 && self.len() <= WIDTH
    }

    // One leaf of the items of two, without the one behind the first `before`.
    pub(crate) fn united(
        alloc: Global,
        tree: &Subtree<T>,
        before: u32,
    ) -> Result<Rc<Subtree<T>>, AllocError>
        requires leaves { tree.now.height ≡ 2 }
        requires few { length tree.now.items ≤ WIDTH }
        requires place { before < length tree.now.items }
        ensures items { IfOk result (λ t. t.value.items ≡ remove tree.now.items before) }
        ensures height { IfOk result (λ t. t.value.height ≡ 1) }
    {
        let (left, right) = tree.sides();
        let mut row = left.row().joined(alloc, right.row())?;
        row.remove(before);
        Subtree::of_row(alloc, row)
    }

    // A leaf of the items of another, with another one behind the first `before`. It keeps the sum where the new item has that of the old one.
    pub(crate) fn replaced_in_leaf(
        alloc: Global,
        leaf: &Subtree<T>,
        before: u32,
        item: Rc<T>,
    ) -> Result<Rc<Subtree<T>>, AllocError>
        requires leaf { leaf.now.height ≡ 1 }
        requires place { before < length leaf.now.items }
        ensures items { IfOk result (λ t. t.value.items ≡ slice_set leaf.now.items before item.value) }
        ensures height { IfOk result (λ t. t.value.height ≡ 1) }
    {
        let same = item.has_sum_of(leaf.row().get(before));
        let mut row = leaf.row().copied(alloc)?;
        row.replace(before, item);
        leaf.remade(alloc, row, same)
    }
}
