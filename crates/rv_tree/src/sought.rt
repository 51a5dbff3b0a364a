//! What is looked for among the items of a list.

ghost use Rattle.std.specs.Prelude.{◌≡◌, ◌+◌, ◌<◌, ◌^◌, Bool, true};

use crate::sums::Summed;

/// What is looked for by sums alone: they tell of a part of the list that nothing in it is sought.
pub trait Sought<T: Summed> {
    /// Nothing that is sought is in a part of this sum.
    ghost lacks: { Self → T.Sum → Bool };

    /// Whether a part of this sum may be passed over, since nothing that is sought is in it.
    fn skips(&self, sum: &T::Sum) -> bool
        ensures { result ≡ lacks self.now sum.now };

    /// What is not in a part is in neither of two parts of that.
    ghost lacks_parts: { (p : Self) (a b : T.Sum) → T.Sum.IsValue a → T.Sum.IsValue b → lacks p (T.Sum.op a b) ≡ true → (lacks p a ≡ true) × (lacks p b ≡ true) };
}

/// A part of a list, which a search does not pass over.
#[derive(Clone, Copy, Debug, PartialEq, Eq)]
pub struct Part {
    /// How many items there are before it; all of them, if there is no such part.
    pub begin: u32,
    /// How many there are up to its end.
    pub end: u32,
}

impl Part {
    // The same in a list that has so many items before.
    pub(crate) fn after(self, count: u32) -> Part
        requires begin { self.begin + count < 2 ^ 32 }
        requires end { self.end + count < 2 ^ 32 }
        ensures begin { result.begin ≡ count + self.begin }
        ensures end { result.end ≡ count + self.end }
    {
        Part {
            begin: count + self.begin,
            end: count + self.end,
        }
    }
}
