//! A pass over the items of a leaf. Its row is copied where the first of them is changed.

ghost use Rattle.std.specs.Prelude.{◌≡◌, ◌+◌, ◌-◌, ◌≤◌, ◌<◌, length, ◌++◌, List, map, IfOk, IfSome, IsTrue, OnOk, OnErr, take, drop, slice_set, unwrap_or};
ghost use Rattle.rv_tree.specs.declared.limits.TheConstants.{MAX_ITEMS};
ghost use Rattle.rv_tree.specs.Passes.{Runs, Stops};
ghost use Rattle.rv_tree.specs.Rows.{some_behind};
ghost use Rattle.rv_tree.specs.Sums.{total, AllSums};

use crate::limits::TOGETHER;
use crate::passes::Pass;
use crate::row::Row;
use crate::sums::{Joined, Summed};
use std::alloc::{AllocError, Global};
use std::rc::Rc;

impl<T: Summed> Row<T> {
    // Puts another item behind the first `at` of `made`, or of a copy of this row where nothing was made yet.
    fn change(
        &self,
        alloc: Global,
        made: &mut Option<Row<T>>,
        at: u32,
        item: T,
    ) -> Result<(), AllocError>
        requires within { at < length (unwrap_or made.old self.now) }
        ensures { OnOk result (unwrap_or made.new self.now ≡ slice_set (unwrap_or made.old self.now) at item) }
    {
        let item = Rc::new(alloc, item)?;
        let mut row = match made.take() {
            Some(row) => row,
            None => self.copied(alloc)?,
        };
        row.replace(at, item);
        *made = Some(row);
        Ok(())
    }

    // Hands the item behind the first `at` to a pass. `made` is what it made of the row so far, or nothing where it changed
    // nothing. The sum is that of the new items up to this one. It stays a call: its variables are as large as an item, and few items are handed
    // over.
    #[inline(never)]
    fn hand_over<P: Pass<T>>(
        &self,
        alloc: Global,
        made: &mut Option<Row<T>>,
        same: &mut bool,
        at: u32,
        before: &T::Sum,
        pass: &mut P,
    ) -> Result<T::Sum, AllocError>
        requires within { at < length self.now }
        requires same { length (unwrap_or made.old self.now) ≡ length self.now }
        requires behind { drop at (unwrap_or made.old self.now) ≡ drop at self.now }
        requires accepted { (rest : List T) × P.accepts pass.old before.now (drop at self.now ++ rest) }
        ensures runs { OnOk result (Runs P.gives T.Sum.op T.sum_of pass.old before.now (some_behind at 1 self.now) (some_behind at 1 (unwrap_or made.new self.now)) pass.new) }
        ensures sum { IfOk result (λ s. s ≡ T.Sum.op before.now (total T.Sum.empty T.Sum.op T.sum_of (some_behind at 1 (unwrap_or made.new self.now)))) }
        ensures sums { OnOk result (AllSums T.Sum.IsValue T.sum_of (some_behind at 1 (unwrap_or made.new self.now))) }
        ensures front { OnOk result (take at (unwrap_or made.new self.now) ≡ take at (unwrap_or made.old self.now)) }
        ensures behind { OnOk result (drop (at + 1) (unwrap_or made.new self.now) ≡ drop (at + 1) self.now) }
        ensures same { OnOk result (length (unwrap_or made.new self.now) ≡ length self.now) }
        ensures alike { OnOk result (IsTrue same.new → IsTrue same.old × (map T.sum_of (some_behind at 1 (unwrap_or made.new self.now)) ≡ map T.sum_of (some_behind at 1 self.now))) }
        ensures stops { OnErr result (Stops P.gives P.refuses T.Sum.op T.sum_of pass.old before.now (drop at self.now) pass.new) }
    {
        let item = self.get(at);
        match pass.visit(before, item)? {
            None => {
                let sum = item.sum();
                sum.known();
                Ok(before.join(&sum))
            }
            Some(new) => {
                let sum = new.sum();
                sum.known();
                *same = *same && new.has_sum_of(item);
                self.change(alloc, made, at, new)?;
                Ok(before.join(&sum))
            }
        }
    }

    // The sum of the new items up to the first `end` items, if a pass may leave out those behind the first `at`, since it would keep them all.
    // `before` is that of the new items before these.
    fn sum_behind_kept<P: Pass<T>>(
        &self,
        at: u32,
        end: u32,
        before: &T::Sum,
        pass: &P,
    ) -> Option<T::Sum>
        requires order { at ≤ end }
        requires within { end ≤ length self.now }
        requires few { end ≤ MAX_ITEMS }
        ensures runs { IfSome result (λ _. Runs P.gives T.Sum.op T.sum_of pass.now before.now (some_behind at (end - at) self.now) (some_behind at (end - at) self.now) pass.now) }
        ensures sum { IfSome result (λ s. s ≡ T.Sum.op before.now (total T.Sum.empty T.Sum.op T.sum_of (some_behind at (end - at) self.now))) }
        ensures sums { AllSums T.Sum.IsValue T.sum_of (some_behind at (end - at) self.now) }
    {
        before.known();
        let sum = self.sum(at, end);
        if !pass.skips(before, &sum) {
            return None;
        }
        Some(before.join(&sum))
    }

    // Goes on behind the first `at` items: past some or one that a pass keeps, or else past one that is handed to it. Answers how many items it went
    // past, and the sum of the new items up to there. `made` is what the pass made of the row so far, or nothing where it changed nothing.
    fn go_on<P: Pass<T>>(
        &self,
        alloc: Global,
        made: &mut Option<Row<T>>,
        same: &mut bool,
        at: u32,
        before: &T::Sum,
        pass: &mut P,
    ) -> Result<(u32, T::Sum), AllocError>
        requires within { at < length self.now }
        requires same { length (unwrap_or made.old self.now) ≡ length self.now }
        requires behind { drop at (unwrap_or made.old self.now) ≡ drop at self.now }
        requires accepted { (rest : List T) × P.accepts pass.old before.now (drop at self.now ++ rest) }
        ensures further { IfOk result (λ r. (0 < r.0) × (at + r.0 ≤ length self.now)) }
        ensures runs { IfOk result (λ r. Runs P.gives T.Sum.op T.sum_of pass.old before.now (some_behind at r.0 self.now) (some_behind at r.0 (unwrap_or made.new self.now)) pass.new) }
        ensures sum { IfOk result (λ r. r.1 ≡ T.Sum.op before.now (total T.Sum.empty T.Sum.op T.sum_of (some_behind at r.0 (unwrap_or made.new self.now)))) }
        ensures sums { IfOk result (λ r. AllSums T.Sum.IsValue T.sum_of (some_behind at r.0 (unwrap_or made.new self.now))) }
        ensures front { OnOk result (take at (unwrap_or made.new self.now) ≡ take at (unwrap_or made.old self.now)) }
        ensures behind { IfOk result (λ r. drop (at + r.0) (unwrap_or made.new self.now) ≡ drop (at + r.0) self.now) }
        ensures same { OnOk result (length (unwrap_or made.new self.now) ≡ length self.now) }
        ensures alike { IfOk result (λ r. IsTrue same.new → IsTrue same.old × (map T.sum_of (some_behind at r.0 (unwrap_or made.new self.now)) ≡ map T.sum_of (some_behind at r.0 self.now))) }
        ensures stops { OnErr result (Stops P.gives P.refuses T.Sum.op T.sum_of pass.old before.now (drop at self.now) pass.new) }
    {
        let count = self.len();
        if at % TOGETHER == 0 {
            let end = count.min(at + TOGETHER);
            if let Some(sum) = self.sum_behind_kept(at, end, before, pass) {
                return Ok((end - at, sum));
            }
        }
        if let Some(sum) = self.sum_behind_kept(at, at + 1, before, pass) {
            return Ok((1, sum));
        }
        let sum = self.hand_over(alloc, made, same, at, before, pass)?;
        Ok((1, sum))
    }

    // What a pass makes of the row, or nothing where it changes nothing. `before` is the sum of the new items before it.
    pub(crate) fn rewritten<P: Pass<T>>(
        &self,
        alloc: Global,
        before: &T::Sum,
        same: &mut bool,
        pass: &mut P,
    ) -> Result<Option<Row<T>>, AllocError>
        requires accepted { (rest : List T) × P.accepts pass.old before.now (self.now ++ rest) }
        ensures runs { IfOk result (λ r. Runs P.gives T.Sum.op T.sum_of pass.old before.now self.now (unwrap_or r self.now) pass.new) }
        ensures same { IfOk result (λ r. length (unwrap_or r self.now) ≡ length self.now) }
        ensures alike { IfOk result (λ r. IsTrue same.new → map T.sum_of (unwrap_or r self.now) ≡ map T.sum_of self.now) }
        ensures stops { OnErr result (Stops P.gives P.refuses T.Sum.op T.sum_of pass.old before.now self.now pass.new) }
    {
        before.known();
        let mut made = None;
        let mut sum = before.join(&T::Sum::unit());
        let mut at = 0;
        while at < self.len() {
            let (count, behind) = self.go_on(alloc, &mut made, same, at, &sum, pass)?;
            at += count;
            sum = behind;
        }
        Ok(made)
    }
}
