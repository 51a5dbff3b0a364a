//! The items of a leaf, side by side.

ghost use Rattle.std.specs.Prelude.{◌≡◌, ◌+◌, ◌-◌, ◌≤◌, ◌<◌, length, [], ◌∷◌, ◌++◌, IfOk, OnOk, slice_get, slice_set, Some, insert, remove};
ghost use Rattle.rv_tree.specs.Rows.{values, some_behind};
ghost use Rattle.rv_tree.specs.Sums.{total, AllSums};

use crate::limits::{HALF, WIDTH};
use crate::sums::{Joined, Summed};
use std::alloc::{AllocError, Global};
use std::marker::Model;
use std::rc::Rc;

/// Up to `WIDTH` items. Rows share their items, so a copy of a row copies none.
#[derive(Drop)]
pub(crate) struct Row<T: Summed> {
    items: Vec<Rc<T>>,
}

impl<T: Summed> Model for Row<T> {
    ghost use Rattle.std.specs.Prelude.{List, ◌≤◌, length};
    ghost use Rattle.rv_tree.specs.declared.limits.TheConstants.{WIDTH};
    ghost use Rattle.rv_tree.specs.Rows.{values};

    ghost Value = { List T };

    ghost view = { λ r. values r.items.items };

    ghost invariant = { λ r. length r.items.items ≤ WIDTH };
}

impl<T: Summed> Row<T> {
    pub(crate) fn of_one(alloc: Global, item: Rc<T>) -> Result<Row<T>, AllocError>
        ensures { IfOk result (λ r. r ≡ item.value ∷ []) }
    {
        let mut items = Vec::with_capacity(alloc, 1)?;
        items.push(item)?;
        Ok(Row { items })
    }

    // No items, and room for so many.
    fn with_room(alloc: Global, room: usize) -> Result<Row<T>, AllocError>
        ensures { IfOk result (λ r. r ≡ []) }
    {
        Ok(Row {
            items: Vec::with_capacity(alloc, room)?,
        })
    }

    // Shares items, behind those that are there.
    fn share(&mut self, shared: &[Rc<T>]) -> Result<(), AllocError>
        requires { length self.old + length shared.now ≤ WIDTH }
        ensures { OnOk result (self.new ≡ self.old ++ values shared.now) }
    {
        self.items.extend_with_clones(shared)
    }

    // A row of these items, with room for one more.
    pub(crate) fn of(alloc: Global, shared: &[Rc<T>]) -> Result<Row<T>, AllocError>
        requires { length shared.now ≤ WIDTH }
        ensures { IfOk result (λ r. r ≡ values shared.now) }
    {
        let mut row = Row::with_room(alloc, shared.len() + 1)?;
        row.share(shared)?;
        Ok(row)
    }

    // A row of these items, and one more behind the first `before`.
    pub(crate) fn with_item(
        alloc: Global,
        shared: &[Rc<T>],
        before: u32,
        item: Rc<T>,
    ) -> Result<Row<T>, AllocError>
        requires place { before ≤ length shared.now }
        requires room { length shared.now < WIDTH }
        ensures { IfOk result (λ r. r ≡ insert (values shared.now) before item.value) }
    {
        let mut row = Row::of(alloc, shared)?;
        row.insert(before, item)?;
        Ok(row)
    }

    // The items of this row, and behind them those of another.
    pub(crate) fn joined(&self, alloc: Global, other: &Row<T>) -> Result<Row<T>, AllocError>
        requires { length self.now + length other.now ≤ WIDTH }
        ensures { IfOk result (λ r. r ≡ self.now ++ other.now) }
    {
        let mut row = Row::with_room(alloc, self.items.len() + other.items.len())?;
        row.share(self.items.as_slice())?;
        row.share(other.items.as_slice())?;
        Ok(row)
    }

    pub(crate) fn copied(&self, alloc: Global) -> Result<Row<T>, AllocError>
        ensures { IfOk result (λ r. r ≡ self.now) }
    {
        Row::of(alloc, self.items.as_slice())
    }

    pub(crate) fn len(&self) -> u32
        ensures value { result ≡ length self.now }
        ensures few { result ≤ WIDTH }
    {
        self.items.len() as u32
    }

    pub(crate) fn items(&self) -> &[Rc<T>]
        ensures value { values result.now ≡ self.now }
    {
        self.items.as_slice()
    }

    // The item behind the first `before`.
    pub(crate) fn get(&self, before: u32) -> &T
        requires { before < length self.now }
        ensures { slice_get self.now before ≡ Some result.now }
    {
        &self.items[before as usize]
    }

    // Puts an item in behind the first `before`.
    fn insert(&mut self, before: u32, item: Rc<T>) -> Result<(), AllocError>
        requires place { before ≤ length self.old }
        requires room { length self.old < WIDTH }
        ensures { OnOk result (self.new ≡ insert self.old before item.value) }
    {
        Ok(self.items.insert(before as usize, item)?)
    }

    // Takes the item behind the first `before` out.
    pub(crate) fn remove(&mut self, before: u32)
        requires { before < length self.old }
        ensures { self.new ≡ remove self.old before }
    {
        let _removed = self.items.remove(before as usize);
    }

    // Puts an item in the place of the one behind the first `before`.
    pub(crate) fn replace(&mut self, before: u32, item: Rc<T>)
        requires { before < length self.old }
        ensures { self.new ≡ slice_set self.old before item.value }
    {
        self.items[before as usize] = item;
    }

    // The first `HALF` items of a full row, and the others.
    pub(crate) fn halves(&self) -> (&[Rc<T>], &[Rc<T>])
        requires full { length self.now ≡ WIDTH }
        ensures items { self.now ≡ values result.0.now ++ values result.1.now }
        ensures first { length result.0.now ≡ HALF }
        ensures second { length result.1.now ≡ HALF }
    {
        self.items.as_slice().split_at(HALF as usize)
    }

    // The sum of the items behind the first `from`, up to the first `end`.
    pub(crate) fn sum(&self, from: u32, end: u32) -> T::Sum
        requires order { from ≤ end }
        requires within { end ≤ length self.now }
        ensures value { result ≡ total T.Sum.empty T.Sum.op T.sum_of (some_behind from (end - from) self.now) }
        ensures sums { AllSums T.Sum.IsValue T.sum_of (some_behind from (end - from) self.now) }
    {
        let mut sum = T::Sum::unit();
        let mut left = end;
        while left > from {
            left -= 1;
            let item = self.get(left).sum();
            item.known();
            sum = item.join(&sum);
        }
        sum
    }
}
