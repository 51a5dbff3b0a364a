//! The nodes of a tree. Items stand in its leaves, and each other node has two sides whose heights are at most 1 apart.

ghost use Rattle.std.specs.Prelude.{◌≡◌, ◌+◌, ◌≤◌, max, map, length, [], ◌∷◌, ◌++◌, IfOk, IsTrue};
ghost use Rattle.rv_tree.specs.Sums.{total, AllSums};
ghost use Rattle.rv_tree.specs.Shape.{IsBalanced, fewest};

use crate::limits::{MAX_HEIGHT, MAX_ITEMS};
use crate::row::Row;
use crate::sums::{Joined, Summed};
use std::alloc::{AllocError, Global};
use std::marker::Model;
use std::rc::Rc;

/// A node with all nodes below it.
#[cycle(subtree)]
#[derive(Drop)]
pub(crate) struct Subtree<T: Summed> {
    pub(crate) node: Node<T>,
}

#[cycle(subtree)]
#[derive(Drop)]
pub(crate) enum Node<T: Summed> {
    Leaf {
        row: Row<T>,
        // The sum of all items.
        sum: T::Sum,
    },
    Fork {
        left: Rc<Subtree<T>>,
        right: Rc<Subtree<T>>,
        // How many items there are.
        len: u32,
        // How many nodes the longest path has.
        height: u32,
        // The sum of all items.
        sum: T::Sum,
    },
}

impl<T: Summed> Model for Subtree<T> {
    ghost use Rattle.rv_tree.specs.Contents.{Contents};

    ghost Value = { Contents T };

    ghost use Rattle.rv_tree.specs.Shape.{contents, IsSound};

    ghost view = { λ t. contents t.node };

    ghost invariant = { λ t. IsSound T.Sum.IsValue T.Sum.empty T.Sum.op T.sum_of t.node };

    ghost size = { λ c. c.height };

    ghost use Rattle.std.proofs.Common.{arith};

    ghost size_decreases = { λ t h. Prim.grind arith };
}

impl<T: Summed> Subtree<T> {
    fn leaf(row: Row<T>) -> Subtree<T>
        requires { 1 ≤ length row }
        ensures items { result.items ≡ row }
        ensures height { result.height ≡ 1 }
    {
        let sum = row.sum(0, row.len());
        Subtree {
            node: Node::Leaf { row, sum },
        }
    }

    // The tree of the items of a row.
    pub(crate) fn of_row(alloc: Global, row: Row<T>) -> Result<Rc<Subtree<T>>, AllocError>
        requires { 1 ≤ length row }
        ensures items { IfOk result (λ t. t.value.items ≡ row) }
        ensures height { IfOk result (λ t. t.value.height ≡ 1) }
    {
        Ok(Rc::new(alloc, Subtree::leaf(row))?)
    }

    // A leaf of the items of a row in the place of this one. Where `same` says that these have one by one the sums of the items of this leaf,
    // it keeps its sum.
    pub(crate) fn remade(
        &self,
        alloc: Global,
        row: Row<T>,
        same: bool,
    ) -> Result<Rc<Subtree<T>>, AllocError>
        requires some { 1 ≤ length row }
        requires same { IsTrue same → map T.sum_of row ≡ map T.sum_of self.now.items }
        ensures items { IfOk result (λ t. t.value.items ≡ row) }
        ensures height { IfOk result (λ t. t.value.height ≡ 1) }
    {
        if same {
            let leaf = Subtree::leaf_with_sum(row, self.own_sum());
            return Ok(Rc::new(alloc, leaf)?);
        }
        Subtree::of_row(alloc, row)
    }

    // A leaf of the items of a row, whose sum is known.
    pub(crate) fn leaf_with_sum(row: Row<T>, sum: T::Sum) -> Subtree<T>
        requires some { 1 ≤ length row }
        requires sum { sum ≡ total T.Sum.empty T.Sum.op T.sum_of row }
        requires sums { AllSums T.Sum.IsValue T.sum_of row }
        ensures items { result.items ≡ row }
        ensures height { result.height ≡ 1 }
    {
        Subtree {
            node: Node::Leaf { row, sum },
        }
    }

    // The sum of all items, as a value of the caller's own.
    pub(crate) fn own_sum(&self) -> T::Sum
        ensures value { result ≡ total T.Sum.empty T.Sum.op T.sum_of self.now.items }
        ensures sums { AllSums T.Sum.IsValue T.sum_of self.now.items }
    {
        self.sum().join(&T::Sum::unit())
    }

    pub(crate) fn of_one(alloc: Global, item: Rc<T>) -> Result<Rc<Subtree<T>>, AllocError>
        ensures items { IfOk result (λ t. t.value.items ≡ item.value ∷ []) }
        ensures height { IfOk result (λ t. t.value.height ≡ 1) }
    {
        Subtree::of_row(alloc, Row::of_one(alloc, item)?)
    }

    // How many items there are.
    pub(crate) fn len(&self) -> u32
        ensures { result ≡ length self.now.items }
    {
        match &self.node {
            Node::Leaf { row, .. } => row.len(),
            Node::Fork { len, .. } => *len,
        }
    }

    // How many nodes the longest path has.
    pub(crate) fn height(&self) -> u32
        ensures value { result ≡ self.now.height }
        ensures positive { 1 ≤ result }
        ensures low { result ≤ length self.now.items }
        ensures full { fewest self.now.height ≤ length self.now.items }
        ensures bounded { length self.now.items ≤ MAX_ITEMS → self.now.height ≤ MAX_HEIGHT }
    {
        match &self.node {
            Node::Leaf { .. } => 1,
            Node::Fork { height, .. } => *height,
        }
    }

    // The items of a leaf.
    pub(crate) fn row(&self) -> &Row<T>
        requires { self.now.height ≡ 1 }
        ensures items { result.now ≡ self.now.items }
        ensures some { 1 ≤ length result.now }
    {
        let Node::Leaf { row, .. } = &self.node else {
            unreachable!()
        };
        row
    }

    // The two sides of a node that is no leaf.
    pub(crate) fn sides(&self) -> (&Rc<Subtree<T>>, &Rc<Subtree<T>>)
        requires { 2 ≤ self.now.height }
        ensures items { result.0.now.value.items ++ result.1.now.value.items ≡ self.now.items }
        ensures height { max result.0.now.value.height result.1.now.value.height + 1 ≡ self.now.height }
        ensures balanced { IsBalanced result.0.now.value.height result.1.now.value.height }
        ensures high { (1 ≤ result.0.now.value.height) × (1 ≤ result.1.now.value.height) }
    {
        let Node::Fork { left, right, .. } = &self.node else {
            unreachable!()
        };
        (left, right)
    }

    // The sum of all items.
    pub(crate) fn sum(&self) -> &T::Sum
        ensures value { result.now ≡ total T.Sum.empty T.Sum.op T.sum_of self.now.items }
        ensures sums { AllSums T.Sum.IsValue T.sum_of self.now.items }
    {
        match &self.node {
            Node::Leaf { sum, .. } => sum,
            Node::Fork { sum, .. } => sum,
        }
    }

    pub(crate) fn fork(left: Rc<Subtree<T>>, right: Rc<Subtree<T>>) -> Subtree<T>
        requires balanced { IsBalanced left.value.height right.value.height }
        requires few { length left.value.items + length right.value.items ≤ MAX_ITEMS }
        ensures items { result.items ≡ left.value.items ++ right.value.items }
        ensures height { result.height ≡ max left.value.height right.value.height + 1 }
    {
        let first: &Subtree<T> = &left;
        let second: &Subtree<T> = &right;
        let len = first.len() + second.len();
        let height = first.height().max(second.height()) + 1;
        let sum = first.sum().join(second.sum());
        Subtree {
            node: Node::Fork {
                left,
                right,
                len,
                height,
                sum,
            },
        }
    }
}
