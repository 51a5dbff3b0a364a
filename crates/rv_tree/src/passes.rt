//! What is done to the items of a list, from the first to the last.

ghost use Rattle.std.specs.Prelude.{◌≤◌, List, ◌∷◌, length, IfOk, OnErr, IsTrue, unwrap_or};
ghost use Rattle.rv_tree.specs.declared.limits.TheConstants.{MAX_ITEMS};
ghost use Rattle.rv_tree.specs.Sums.{total, AllSums};
ghost use Rattle.rv_tree.specs.Passes.{Runs};

use crate::sums::Summed;
use std::alloc::AllocError;

/// A walk over the items of a list, from the first to the last, that keeps, replaces or passes over each. `docs/TREE.md`
/// says how to write one.
pub trait Pass<T: Summed> {
    /// In this state, and behind new items of this sum, it can be handed these items one by one.
    ghost accepts: { Self → T.Sum → List T → Type 0 };

    /// Handed the first item behind new items of this sum, it leaves the second item in its place, and is then in the second
    /// state.
    ghost gives: { Self → T.Sum → T → T → Self → Type 0 };

    /// Handed an item behind new items of this sum, it has no memory for it, and is then in the second state.
    ghost refuses: { Self → T.Sum → T → Self → Type 0 };

    /// Behind new items of the first sum it would keep all items of any part whose sum is the second, and stay as it is.
    ghost keeps: { Self → T.Sum → T.Sum → Type 0 };

    /// What takes the place of an item, or `None` to keep it. `before` is the sum of the new items before it.
    fn visit(&mut self, before: &T::Sum, item: &T) -> Result<Option<T>, AllocError>
        requires accepted { (rest : List T) × accepts self.old before.now (item.now ∷ rest) }
        ensures given { IfOk result (λ o. gives self.old before.now item.now (unwrap_or o item.now) self.new) }
        ensures refused { OnErr result (refuses self.old before.now item.now self.new) };

    /// Whether a part of the list may be passed over. `before` is the sum of the new items before it, and `sum` its own.
    fn skips(&self, before: &T::Sum, sum: &T::Sum) -> bool
        ensures { IsTrue result → keeps self.now before.now sum.now };

    /// Having left an item, it can be handed the items behind it.
    ghost accepts_rest: { (p q : Self) (b : T.Sum) (x y : T) (xs : List T) → accepts p b (x ∷ xs) → gives p b x y q → accepts q (T.Sum.op b (T.sum_of y)) xs };

    /// Where it keeps all items of a part, it leaves each of them as it is, one by one, and is then in the state it was in.
    ghost kept: { (p : Self) (b : T.Sum) (xs : List T) → length xs ≤ MAX_ITEMS → T.Sum.IsValue b → AllSums T.Sum.IsValue T.sum_of xs → keeps p b (total T.Sum.empty T.Sum.op T.sum_of xs) → Runs gives T.Sum.op T.sum_of p b xs xs p };
}
