//! What can be joined, and what has a sum.

ghost use Rattle.std.specs.Prelude.{◌≡◌, IsTrue};
ghost use Rattle.rv_tree.specs.Sums.{JoinLaws};

/// Values with a join that is associative and has a unit. A sum has to fit its type however many items it is of, so
/// counts saturate or are modular. `docs/TREE.md` has an example of each.
pub trait Joined: Drop {
    /// Which terms are values of the type: the laws hold of these.
    ghost IsValue: { Self → Type 0 };

    /// The sum of no items.
    ghost empty: { Self };

    /// The join of two values.
    ghost op: { Self → Self → Self };

    /// The sum of no items.
    fn unit() -> Self
        ensures { result ≡ empty };

    /// The sum of the items of `self` and, after them, those of `other`.
    fn join(&self, other: &Self) -> Self
        ensures { result ≡ op self.now other.now };

    /// Tells a caller's proof that what it has in hand is a value. It does nothing.
    fn known(&self)
        ensures { IsValue self.now };

    /// The unit is a value and a unit on both sides; a join of values is a value, and associative.
    ghost laws: { JoinLaws IsValue empty op };
}

/// Items that have a sum.
pub trait Summed: Drop {
    /// What the items add up to.
    type Sum: Joined;

    /// The sum of one item.
    ghost sum_of: { Self → Self.Sum };

    /// The sum of this item alone.
    fn sum(&self) -> Self::Sum
        ensures { result ≡ sum_of self.now };

    /// Whether this item has the sum of another one, as far as that is told without making both: then a leaf in which it takes the place of
    /// the other keeps its sum. It may be false where they are the same.
    fn has_sum_of(&self, other: &Self) -> bool
        ensures { IsTrue result → sum_of self.now ≡ sum_of other.now };
}
