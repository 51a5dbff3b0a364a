//! Two trees made one, whose heights may be up to 2 apart.

ghost use Rattle.std.specs.Prelude.{◌≡◌, ◌+◌, ◌≤◌, max, length, ◌++◌, IfOk};
ghost use Rattle.rv_tree.specs.Shape.{IsBalanced, IsNear, IsSettled};

use crate::limits::MAX_ITEMS;
use crate::node::Subtree;
use crate::sums::Summed;
use std::alloc::{AllocError, Global};
use std::rc::Rc;

impl<T: Summed> Subtree<T> {
    // The tree of these two sides.
    pub(crate) fn joined(
        alloc: Global,
        left: Rc<Subtree<T>>,
        right: Rc<Subtree<T>>,
    ) -> Result<Rc<Subtree<T>>, AllocError>
        requires balanced { IsBalanced left.value.height right.value.height }
        requires few { length left.value.items + length right.value.items ≤ MAX_ITEMS }
        ensures items { IfOk result (λ t. t.value.items ≡ left.value.items ++ right.value.items) }
        ensures height { IfOk result (λ t. t.value.height ≡ max left.value.height right.value.height + 1) }
    {
        Ok(Rc::new(alloc, Subtree::fork(left, right))?)
    }

    // A tree of the items of two sides, one of which may be 2 higher than the other.
    pub(crate) fn balanced(
        alloc: Global,
        left: Rc<Subtree<T>>,
        right: Rc<Subtree<T>>,
    ) -> Result<Rc<Subtree<T>>, AllocError>
        requires near { IsNear left.value.height right.value.height }
        requires few { length left.value.items + length right.value.items ≤ MAX_ITEMS }
        ensures items { IfOk result (λ t. t.value.items ≡ left.value.items ++ right.value.items) }
        ensures height { IfOk result (λ t. IsSettled left.value.height right.value.height t.value.height) }
    {
        let (left_height, right_height) = (left.height(), right.height());
        if left_height > right_height + 1 {
            Subtree::rotated_right(alloc, &left, right)
        } else if right_height > left_height + 1 {
            Subtree::rotated_left(alloc, left, &right)
        } else {
            Subtree::joined(alloc, left, right)
        }
    }

    // The left side is 2 higher.
    fn rotated_right(
        alloc: Global,
        left: &Subtree<T>,
        right: Rc<Subtree<T>>,
    ) -> Result<Rc<Subtree<T>>, AllocError>
        requires higher { left.now.height ≡ right.value.height + 2 }
        requires positive { 1 ≤ right.value.height }
        requires few { length left.now.items + length right.value.items ≤ MAX_ITEMS }
        ensures items { IfOk result (λ t. t.value.items ≡ left.now.items ++ right.value.items) }
        ensures height { IfOk result (λ t. (left.now.height ≤ t.value.height) × (t.value.height ≤ left.now.height + 1)) }
    {
        let (outer, inner) = left.sides();
        if outer.height() >= inner.height() {
            let low = Subtree::joined(alloc, Rc::clone(inner)?, right)?;
            return Subtree::joined(alloc, Rc::clone(outer)?, low);
        }
        Subtree::shared_out(alloc, Rc::clone(outer)?, inner, right)
    }

    // The right side is 2 higher.
    fn rotated_left(
        alloc: Global,
        left: Rc<Subtree<T>>,
        right: &Subtree<T>,
    ) -> Result<Rc<Subtree<T>>, AllocError>
        requires higher { right.now.height ≡ left.value.height + 2 }
        requires positive { 1 ≤ left.value.height }
        requires few { length left.value.items + length right.now.items ≤ MAX_ITEMS }
        ensures items { IfOk result (λ t. t.value.items ≡ left.value.items ++ right.now.items) }
        ensures height { IfOk result (λ t. (right.now.height ≤ t.value.height) × (t.value.height ≤ right.now.height + 1)) }
    {
        let (inner, outer) = right.sides();
        if outer.height() >= inner.height() {
            let low = Subtree::joined(alloc, left, Rc::clone(inner)?)?;
            return Subtree::joined(alloc, low, Rc::clone(outer)?);
        }
        Subtree::shared_out(alloc, left, inner, Rc::clone(outer)?)
    }

    // The one in the middle is 1 higher than the others: each of them gets one side of it.
    fn shared_out(
        alloc: Global,
        left: Rc<Subtree<T>>,
        middle: &Subtree<T>,
        right: Rc<Subtree<T>>,
    ) -> Result<Rc<Subtree<T>>, AllocError>
        requires level { left.value.height ≡ right.value.height }
        requires higher { middle.now.height ≡ left.value.height + 1 }
        requires positive { 1 ≤ left.value.height }
        requires few { length left.value.items + length middle.now.items + length right.value.items ≤ MAX_ITEMS }
        ensures items { IfOk result (λ t. t.value.items ≡ left.value.items ++ middle.now.items ++ right.value.items) }
        ensures height { IfOk result (λ t. t.value.height ≡ left.value.height + 2) }
    {
        let (first, second) = middle.sides();
        let low_left = Subtree::joined(alloc, left, Rc::clone(first)?)?;
        let low_right = Subtree::joined(alloc, Rc::clone(second)?, right)?;
        Subtree::joined(alloc, low_left, low_right)
    }
}
