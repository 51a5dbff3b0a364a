//! The list of items that callers see.

ghost use Rattle.std.specs.Prelude.{◌≡◌, ◌+◌, ◌-◌, ◌≤◌, ◌<◌, ◌==◌, length, [], None, if◌then◌else◌, IfOk, IfErr, IfNone, OnErr, slice_get, slice_set, take, insert, remove, unwrap_or};
ghost use Rattle.std.specs.Option.{option_map};
ghost use Rattle.rv_tree.specs.Passes.{Runs, Stops};
ghost use Rattle.rv_tree.specs.Refusals.{insert_refusal, place_refusal};
ghost use Rattle.rv_tree.specs.Search.{IsNextPart};
ghost use Rattle.rv_tree.specs.Sums.{total, AllSums};

use crate::error::TreeError;
use crate::items::Items;
use crate::limits::{MAX_HEIGHT, MAX_ITEMS};
use crate::node::Subtree;
use crate::passes::Pass;
use crate::rewriting::Rewritten;
use crate::sought::{Part, Sought};
use crate::sums::{Joined, Summed};
use std::alloc::{AllocError, Global};
use std::marker::Model;
use std::rc::Rc;

/// A list of items, counted from 1, that shares its nodes with the lists that it was made from. An edit gives a new list and
/// leaves the old one as it is; no item is cloned.
#[derive(Drop)]
pub struct SumTree<T: Summed> {
    alloc: Global,
    root: Option<Rc<Subtree<T>>>,
}

impl<T: Summed> Model for SumTree<T> {
    ghost use Rattle.rv_tree.specs.Contents.{Contents, IsWithinLimits};
    ghost use Rattle.rv_tree.specs.Root.{contents_of_root};

    ghost Value = { Contents T };

    ghost view = { λ t. contents_of_root t.root };

    ghost invariant = { λ t. IsWithinLimits (contents_of_root t.root) };
}

impl<T: Summed> SumTree<T> {
    /// No items. It takes no memory.
    pub fn new(alloc: Global) -> SumTree<T>
        ensures items { result.items ≡ [] }
        ensures height { result.height ≡ 0 }
    {
        SumTree { alloc, root: None }
    }

    /// How many items there are.
    pub fn len(&self) -> u32
        ensures value { result ≡ length self.now.items }
        ensures few { result ≤ MAX_ITEMS }
    {
        match &self.root {
            None => 0,
            Some(root) => root.len(),
        }
    }

    /// How many nodes the longest path has. No call goes deeper.
    pub fn height(&self) -> u32
        ensures value { result ≡ self.now.height }
        ensures bounded { result ≤ MAX_HEIGHT }
    {
        match &self.root {
            None => 0,
            Some(root) => root.height(),
        }
    }

    /// Item number `k`, if there is one.
    pub fn get(&self, k: u32) -> Option<&T>
        ensures { option_map (λ x. x.now) result ≡ (if k == 0 then None else slice_get self.now.items (k - 1)) }
    {
        if k == 0 || k > self.len() {
            return None;
        }
        let root: &Subtree<T> = self.root.as_ref()?;
        Some(root.get(k - 1))
    }

    /// The items in order.
    pub fn iter(&self) -> Items<'_, T>
        ensures { result ≡ self.now.items }
    {
        let Some(root) = &self.root else {
            return Items::new();
        };
        Items::of(root)
    }

    /// The sum of the first `k` items. There have to be so many.
    pub fn prefix(&self, k: u32) -> T::Sum
        requires { k ≤ length self.now.items }
        ensures { result ≡ total T.Sum.empty T.Sum.op T.sum_of (take k self.now.items) }
    {
        match &self.root {
            None => T::Sum::unit(),
            Some(root) => root.prefix(k),
        }
    }

    /// The sum of all items.
    pub fn total(&self) -> T::Sum
        ensures value { result ≡ total T.Sum.empty T.Sum.op T.sum_of self.now.items }
        ensures sums { AllSums T.Sum.IsValue T.sum_of self.now.items }
    {
        match &self.root {
            None => T::Sum::unit(),
            Some(root) => root.sum().join(&T::Sum::unit()),
        }
    }

    /// The next part of the list, after the first `before` items, that a search does not pass over. It goes past each part whose sum says that
    /// nothing in it is sought; the leaves after the first one that are not passed over belong to the answer, too.
    pub fn next_part<S: Sought<T>>(&self, before: u32, sought: &S) -> Part
        requires { before ≤ length self.now.items }
        ensures { IsNextPart (λ x. S.lacks sought.now (T.sum_of x)) self.now.items before result.begin result.end }
    {
        let Some(root) = &self.root else {
            return Part { begin: 0, end: 0 };
        };
        let leaf = root.next_leaf(before, sought);
        Part {
            begin: leaf.begin,
            end: root.run_end(leaf.end, sought),
        }
    }

    /// The list with `item` as number `k`, from 1 to one more than there are; the items from `k` on move by one.
    ///
    /// Refused, in this order, with `Place` where there can be no such number, `Full` where there are `MAX_ITEMS` items, and
    /// `Memory`.
    pub fn inserted(&self, k: u32, item: T) -> Result<SumTree<T>, TreeError>
        ensures allowed { IfOk result (λ _. insert_refusal k (length self.now.items) ≡ None) }
        ensures refused { IfErr result (λ e. e ≡ unwrap_or (insert_refusal k (length self.now.items)) TreeError.Memory) }
        ensures items { IfOk result (λ t. t.items ≡ insert self.now.items (k - 1) item) }
        ensures height { IfOk result (λ t. t.height ≤ MAX_HEIGHT) }
    {
        if let Some(refusal) = self.insert_refusal(k) {
            return Err(refusal);
        }
        let root = self.root_with(k - 1, item)?;
        Ok(SumTree::with_root(self.alloc, root))
    }

    // Why no item becomes number `k`, whatever the memory.
    fn insert_refusal(&self, k: u32) -> Option<TreeError>
        ensures refusal { result ≡ insert_refusal k (length self.now.items) }
        ensures inside { IfNone result ((1 ≤ k) × (k ≤ length self.now.items + 1)) }
        ensures room { IfNone result (length self.now.items < MAX_ITEMS) }
    {
        let len = self.len();
        if k == 0 {
            return Some(TreeError::Place);
        }
        if k > len + 1 {
            return Some(TreeError::Place);
        }
        if len >= MAX_ITEMS {
            return Some(TreeError::Full);
        }
        None
    }

    // Why item number `k` is not deleted or replaced, whatever the memory.
    fn place_refusal(&self, k: u32) -> Option<TreeError>
        ensures refusal { result ≡ place_refusal k (length self.now.items) }
        ensures inside { IfNone result ((1 ≤ k) × (k ≤ length self.now.items)) }
    {
        if k == 0 {
            return Some(TreeError::Place);
        }
        if k > self.len() {
            return Some(TreeError::Place);
        }
        None
    }

    // The root of the list with an item behind the first `before`.
    fn root_with(&self, before: u32, item: T) -> Result<Rc<Subtree<T>>, AllocError>
        requires place { before ≤ length self.now.items }
        requires room { length self.now.items < MAX_ITEMS }
        ensures items { IfOk result (λ t. t.value.items ≡ insert self.now.items before item) }
        ensures few { IfOk result (λ t. length t.value.items ≤ MAX_ITEMS) }
    {
        let item = Rc::new(self.alloc, item)?;
        match &self.root {
            None => Subtree::of_one(self.alloc, item),
            Some(root) => Subtree::inserted(self.alloc, root, before, item),
        }
    }

    /// The list without item number `k`.
    ///
    /// Refused, in this order, with `Place` where there is no such item, and `Memory`.
    pub fn deleted(&self, k: u32) -> Result<SumTree<T>, TreeError>
        ensures allowed { IfOk result (λ _. place_refusal k (length self.now.items) ≡ None) }
        ensures refused { IfErr result (λ e. e ≡ unwrap_or (place_refusal k (length self.now.items)) TreeError.Memory) }
        ensures items { IfOk result (λ t. t.items ≡ remove self.now.items (k - 1)) }
        ensures height { IfOk result (λ t. t.height ≤ MAX_HEIGHT) }
    {
        if let Some(refusal) = self.place_refusal(k) {
            return Err(refusal);
        }
        match &self.root {
            None => Err(TreeError::Place),
            Some(root) => match Subtree::deleted(self.alloc, root, k - 1)? {
                None => Ok(SumTree::new(self.alloc)),
                Some(root) => Ok(SumTree::with_root(self.alloc, root)),
            },
        }
    }

    /// The list with `item` in place of number `k`.
    ///
    /// Refused, in this order, with `Place` where there is no such item, and `Memory`.
    pub fn replaced(&self, k: u32, item: T) -> Result<SumTree<T>, TreeError>
        ensures allowed { IfOk result (λ _. place_refusal k (length self.now.items) ≡ None) }
        ensures refused { IfErr result (λ e. e ≡ unwrap_or (place_refusal k (length self.now.items)) TreeError.Memory) }
        ensures items { IfOk result (λ t. t.items ≡ slice_set self.now.items (k - 1) item) }
        ensures height { IfOk result (λ t. t.height ≤ MAX_HEIGHT) }
    {
        if let Some(refusal) = self.place_refusal(k) {
            return Err(refusal);
        }
        match &self.root {
            None => Err(TreeError::Place),
            Some(root) => {
                let item = Rc::new(self.alloc, item)?;
                let root = Subtree::replaced(self.alloc, root, k - 1, item)?;
                Ok(SumTree::with_root(self.alloc, root))
            }
        }
    }

    /// The list that a pass makes of the items, handed one by one from the first on. A part that the pass skips, or all of
    /// whose items it keeps, is shared.
    ///
    /// Refused with `Memory` alone, where there was none for a node or for what the pass makes. The pass was then handed
    /// the items of a prefix, and is in the state in which these left it.
    pub fn rewritten<P: Pass<T>>(&self, pass: &mut P) -> Result<SumTree<T>, TreeError>
        requires accepted { P.accepts pass.old T.Sum.empty self.now.items }
        ensures refused { IfErr result (λ e. e ≡ TreeError.Memory) }
        ensures runs { IfOk result (λ t. Runs P.gives T.Sum.op T.sum_of pass.old T.Sum.empty self.now.items t.items pass.new) }
        ensures stops { OnErr result (Stops P.gives P.refuses T.Sum.op T.sum_of pass.old T.Sum.empty self.now.items pass.new) }
        ensures height { IfOk result (λ t. t.height ≡ self.now.height) }
    {
        match &self.root {
            None => Ok(SumTree::new(self.alloc)),
            Some(root) => {
                let unit = T::Sum::unit();
                let Rewritten { tree, .. } = Subtree::rewritten(self.alloc, root, &unit, pass)?;
                Ok(SumTree::with_root(self.alloc, tree))
            }
        }
    }

    fn with_root(alloc: Global, root: Rc<Subtree<T>>) -> SumTree<T>
        requires few { length root.value.items ≤ MAX_ITEMS }
        ensures same { result ≡ root.value }
        ensures bounded { result.height ≤ MAX_HEIGHT }
    {
        let _height = root.height();
        SumTree {
            alloc,
            root: Some(root),
        }
    }
}
