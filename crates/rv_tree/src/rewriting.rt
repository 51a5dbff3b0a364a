//! A pass over all items. A part whose items are all kept is shared, not made anew.

ghost use Rattle.std.specs.Prelude.{◌≡◌, ◌+◌, ◌≤◌, max, length, ◌++◌, List, IfOk, OnErr, IsTrue, false};
ghost use Rattle.rv_tree.specs.Passes.{Runs, Stops};
ghost use Rattle.rv_tree.specs.Shape.{IsBalanced};
ghost use Rattle.rv_tree.specs.Sums.{total, AllSums};

use crate::limits::MAX_ITEMS;
use crate::node::Subtree;
use crate::passes::Pass;
use crate::row::Row;
use crate::sums::{Joined, Summed};
use std::alloc::{AllocError, Global};
use std::rc::Rc;

// What became of a tree.
#[derive(Drop)]
pub(crate) struct Rewritten<T: Summed> {
    pub(crate) tree: Rc<Subtree<T>>,
    // Where it is false the tree is the old one.
    pub(crate) changed: bool,
}

impl<T: Summed> Rewritten<T> {
    // A tree that stays as it is.
    fn kept(tree: &Rc<Subtree<T>>) -> Result<Rewritten<T>, AllocError>
        ensures { IfOk result (λ r. r.tree.value ≡ tree.now.value) }
    {
        Ok(Rewritten {
            tree: Rc::clone(tree)?,
            changed: false,
        })
    }

    // The sum of the new items up to the end of the tree, where `before` is that of those before it.
    fn sum_behind(&self, before: &T::Sum) -> T::Sum
        ensures value { result ≡ T.Sum.op before.now (total T.Sum.empty T.Sum.op T.sum_of self.now.tree.value.items) }
        ensures sums { AllSums T.Sum.IsValue T.sum_of self.now.tree.value.items }
    {
        let tree: &Subtree<T> = &self.tree;
        before.join(tree.sum())
    }
}

impl<T: Summed> Subtree<T> {
    // Whether a pass may leave the tree out, since it would keep all items.
    fn is_left_out<P: Pass<T>>(&self, before: &T::Sum, pass: &P) -> bool
        requires { length self.now.items ≤ MAX_ITEMS }
        ensures known { T.Sum.IsValue before.now }
        ensures kept { IsTrue result → Runs P.gives T.Sum.op T.sum_of pass.now before.now self.now.items self.now.items pass.now }
    {
        before.known();
        pass.skips(before, self.sum())
    }

    // `before` is the sum of the new items before the tree.
    pub(crate) fn rewritten<P: Pass<T>>(
        alloc: Global,
        tree: &Rc<Subtree<T>>,
        before: &T::Sum,
        pass: &mut P,
    ) -> Result<Rewritten<T>, AllocError>
        requires accepted { (rest : List T) × P.accepts pass.old before.now (tree.now.value.items ++ rest) }
        requires few { length tree.now.value.items ≤ MAX_ITEMS }
        ensures runs { IfOk result (λ r. Runs P.gives T.Sum.op T.sum_of pass.old before.now tree.now.value.items r.tree.value.items pass.new) }
        ensures shape { IfOk result (λ r. (r.tree.value.height ≡ tree.now.value.height) × (length r.tree.value.items ≡ length tree.now.value.items)) }
        ensures same { IfOk result (λ r. r.changed ≡ false → r.tree.value.items ≡ tree.now.value.items) }
        ensures stops { OnErr result (Stops P.gives P.refuses T.Sum.op T.sum_of pass.old before.now tree.now.value.items pass.new) }
    {
        let here: &Subtree<T> = tree;
        if here.is_left_out(before, pass) {
            return Rewritten::kept(tree);
        }
        if here.height() == 1 {
            return Subtree::rewritten_leaf(alloc, tree, here.row(), before, pass);
        }
        let (left, right) = here.sides();
        let first = Subtree::rewritten(alloc, left, before, pass)?;
        let middle = first.sum_behind(before);
        let second = Subtree::rewritten(alloc, right, &middle, pass)?;
        Subtree::rejoined(alloc, tree, first, second)
    }

    // A leaf of the items of `row`.
    fn rewritten_leaf<P: Pass<T>>(
        alloc: Global,
        tree: &Rc<Subtree<T>>,
        row: &Row<T>,
        before: &T::Sum,
        pass: &mut P,
    ) -> Result<Rewritten<T>, AllocError>
        requires some { 1 ≤ length row.now }
        requires accepted { (rest : List T) × P.accepts pass.old before.now (row.now ++ rest) }
        requires items { tree.now.value.items ≡ row.now }
        requires height { tree.now.value.height ≡ 1 }
        ensures runs { IfOk result (λ r. Runs P.gives T.Sum.op T.sum_of pass.old before.now row.now r.tree.value.items pass.new) }
        ensures height { IfOk result (λ r. r.tree.value.height ≡ 1) }
        ensures length { IfOk result (λ r. length r.tree.value.items ≡ length row.now) }
        ensures same { IfOk result (λ r. r.changed ≡ false → r.tree.value.items ≡ row.now) }
        ensures stops { OnErr result (Stops P.gives P.refuses T.Sum.op T.sum_of pass.old before.now row.now pass.new) }
    {
        let mut same = true;
        match row.rewritten(alloc, before, &mut same, pass)? {
            None => Rewritten::kept(tree),
            Some(row) => Ok(Rewritten {
                tree: tree.remade(alloc, row, same)?,
                changed: true,
            }),
        }
    }

    // A tree whose sides became these.
    fn rejoined(
        alloc: Global,
        tree: &Rc<Subtree<T>>,
        first: Rewritten<T>,
        second: Rewritten<T>,
    ) -> Result<Rewritten<T>, AllocError>
        requires balanced { IsBalanced first.tree.value.height second.tree.value.height }
        requires few { length first.tree.value.items + length second.tree.value.items ≤ MAX_ITEMS }
        requires height { tree.now.value.height ≡ max first.tree.value.height second.tree.value.height + 1 }
        requires same { first.changed ≡ false → second.changed ≡ false → tree.now.value.items ≡ first.tree.value.items ++ second.tree.value.items }
        ensures items { IfOk result (λ r. r.tree.value.items ≡ first.tree.value.items ++ second.tree.value.items) }
        ensures height { IfOk result (λ r. r.tree.value.height ≡ tree.now.value.height) }
        ensures same { IfOk result (λ r. r.changed ≡ false → r.tree.value.items ≡ tree.now.value.items) }
    {
        if first.changed || second.changed {
            return Ok(Rewritten {
                tree: Subtree::joined(alloc, first.tree, second.tree)?,
                changed: true,
            });
        }
        Rewritten::kept(tree)
    }
}
