//! One item put in, taken out or replaced. Only the nodes on the path to it are made anew.

ghost use Rattle.std.specs.Prelude.{◌≡◌, ◌+◌, ◌≤◌, ◌<◌, length, [], ◌++◌, IfOk, IfSome, MatchOption, slice_set, insert, remove};
ghost use Rattle.rv_tree.specs.Shape.{IsNear, IsSettled};

use crate::limits::MAX_ITEMS;
use crate::node::Subtree;
use crate::sums::Summed;
use std::alloc::{AllocError, Global};
use std::rc::Rc;

impl<T: Summed> Subtree<T> {
    // Puts an item in behind the first `before`.
    pub(crate) fn inserted(
        alloc: Global,
        tree: &Rc<Subtree<T>>,
        before: u32,
        item: Rc<T>,
    ) -> Result<Rc<Subtree<T>>, AllocError>
        requires place { before ≤ length tree.now.value.items }
        requires room { length tree.now.value.items < MAX_ITEMS }
        ensures items { IfOk result (λ t. t.value.items ≡ insert tree.now.value.items before item.value) }
        ensures height { IfOk result (λ t. (tree.now.value.height ≤ t.value.height) × (t.value.height ≤ tree.now.value.height + 1)) }
    {
        let here: &Subtree<T> = tree;
        if here.height() == 1 {
            return Subtree::inserted_in_leaf(alloc, tree, here.row(), before, item);
        }
        let (left, right) = here.sides();
        let left_len = left.len();
        if before <= left_len {
            let side = Subtree::inserted(alloc, left, before, item)?;
            return Subtree::balanced(alloc, side, Rc::clone(right)?);
        }
        let side = Subtree::inserted(alloc, right, before - left_len, item)?;
        Subtree::balanced(alloc, Rc::clone(left)?, side)
    }

    // Takes out the item behind the first `before`. Of a single item nothing is left, and two leaves whose items fit in one
    // become one.
    pub(crate) fn deleted(
        alloc: Global,
        tree: &Subtree<T>,
        before: u32,
    ) -> Result<Option<Rc<Subtree<T>>>, AllocError>
        requires place { before < length tree.now.items }
        requires few { length tree.now.items ≤ MAX_ITEMS }
        ensures items { IfOk result (λ o. MatchOption o (remove tree.now.items before ≡ []) (λ t. t.value.items ≡ remove tree.now.items before)) }
        ensures height { IfOk result (λ o. MatchOption o (tree.now.height ≡ 1) (λ t. (t.value.height ≤ tree.now.height) × (tree.now.height ≤ t.value.height + 1))) }
    {
        if tree.is_thin() {
            return Ok(Some(Subtree::united(alloc, tree, before)?));
        }
        if tree.height() == 1 {
            return Subtree::deleted_from_leaf(alloc, tree.row(), before);
        }
        let (left, right) = tree.sides();
        let left_len = left.len();
        if before < left_len {
            let side = Subtree::deleted(alloc, left, before)?;
            return Ok(Some(Subtree::left_over(alloc, side, right)?));
        }
        let side = Subtree::deleted(alloc, right, before - left_len)?;
        Ok(Some(Subtree::right_over(alloc, left, side)?))
    }

    // The tree of what is left of a left side, and a right side.
    fn left_over(
        alloc: Global,
        left: Option<Rc<Subtree<T>>>,
        right: &Rc<Subtree<T>>,
    ) -> Result<Rc<Subtree<T>>, AllocError>
        requires near { IfSome left (λ l. IsNear l.value.height right.now.value.height) }
        requires few { IfSome left (λ l. length l.value.items + length right.now.value.items ≤ MAX_ITEMS) }
        ensures items { IfOk result (λ t. MatchOption left (t.value.items ≡ right.now.value.items) (λ l. t.value.items ≡ l.value.items ++ right.now.value.items)) }
        ensures height { IfOk result (λ t. MatchOption left (t.value.height ≡ right.now.value.height) (λ l. IsSettled l.value.height right.now.value.height t.value.height)) }
    {
        match left {
            None => Rc::clone(right),
            Some(left) => Subtree::balanced(alloc, left, Rc::clone(right)?),
        }
    }

    // The tree of a left side, and what is left of a right side.
    fn right_over(
        alloc: Global,
        left: &Rc<Subtree<T>>,
        right: Option<Rc<Subtree<T>>>,
    ) -> Result<Rc<Subtree<T>>, AllocError>
        requires near { IfSome right (λ r. IsNear left.now.value.height r.value.height) }
        requires few { IfSome right (λ r. length left.now.value.items + length r.value.items ≤ MAX_ITEMS) }
        ensures items { IfOk result (λ t. MatchOption right (t.value.items ≡ left.now.value.items) (λ r. t.value.items ≡ left.now.value.items ++ r.value.items)) }
        ensures height { IfOk result (λ t. MatchOption right (t.value.height ≡ left.now.value.height) (λ r. IsSettled left.now.value.height r.value.height t.value.height)) }
    {
        match right {
            None => Rc::clone(left),
            Some(right) => Subtree::balanced(alloc, Rc::clone(left)?, right),
        }
    }

    // Replaces the item behind the first `before`.
    pub(crate) fn replaced(
        alloc: Global,
        tree: &Subtree<T>,
        before: u32,
        item: Rc<T>,
    ) -> Result<Rc<Subtree<T>>, AllocError>
        requires place { before < length tree.now.items }
        requires few { length tree.now.items ≤ MAX_ITEMS }
        ensures items { IfOk result (λ t. t.value.items ≡ slice_set tree.now.items before item.value) }
        ensures height { IfOk result (λ t. t.value.height ≡ tree.now.height) }
    {
        if tree.height() == 1 {
            return Subtree::replaced_in_leaf(alloc, tree, before, item);
        }
        let (left, right) = tree.sides();
        let left_len = left.len();
        if before < left_len {
            let side = Subtree::replaced(alloc, left, before, item)?;
            return Subtree::joined(alloc, side, Rc::clone(right)?);
        }
        let side = Subtree::replaced(alloc, right, before - left_len, item)?;
        Subtree::joined(alloc, Rc::clone(left)?, side)
    }
}
