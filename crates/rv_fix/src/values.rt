//! The values of a line's operands, together.

ghost use Rattle.std.specs.Prelude.{◌≡◌, [], ◌∷◌, IsTrue, ◌↔◌};

use rv_expr::ValueFault;
use rv_text::Sequence;
use std::marker::Model;

/// The value of an operand, or why it has none.
pub type Entry = Result<i64, ValueFault>;

// How the values are kept.
#[derive(Drop)]
enum Kept {
    // One, as most lines have.
    One([Entry; 1]),
    // Any number.
    Several(Sequence<Entry>),
}

/// The values of a line's operands. One value takes no memory, and neither does none. Contracts see the list of them.
#[derive(Drop)]
pub struct Values {
    kept: Kept,
}

impl Model for Values {
    ghost use Rattle.std.specs.Prelude.{List};
    ghost use Rattle.rv_fix.specs.KeptValues.{entries_of};
    ghost use Rattle.rv_fix.specs.Values.{Entry};

    ghost Value = { List Entry };

    ghost view = { λ v. entries_of v.kept };
}

impl Values {
    // One value.
    pub(crate) fn one(entry: Entry) -> Self
        ensures { result ≡ entry ∷ [] }
    {
        Values {
            kept: Kept::One([entry]),
        }
    }

    // These values.
    pub(crate) fn several(entries: Sequence<Entry>) -> Self
        ensures { result ≡ entries }
    {
        Values {
            kept: Kept::Several(entries),
        }
    }

    /// One for each operand, from left to right.
    pub fn entries(&self) -> &[Entry]
        ensures { result.now ≡ self.now }
    {
        match &self.kept {
            Kept::One(entry) => entry.as_slice(),
            Kept::Several(entries) => entries.as_slice(),
        }
    }

    /// Whether these are the same values and faults.
    pub fn is_same(&self, other: &Values) -> bool
        ensures { IsTrue result ↔ (self.now ≡ other.now) }
    {
        are_same(self.entries(), other.entries())
    }
}

/// Whether two operands have the same value or the same fault.
pub fn is_same_entry(left: Entry, right: Entry) -> bool
    ensures { IsTrue result ↔ (left ≡ right) }
{
    match left {
        Ok(x) => match right {
            Ok(y) => x == y,
            Err(_) => false,
        },
        Err(x) => match right {
            Ok(_) => false,
            Err(y) => x == y,
        },
    }
}

// Whether two lists of operands have the same values and faults.
fn are_same(mut left: &[Entry], mut right: &[Entry]) -> bool
    ensures { IsTrue result ↔ (left.entry.now ≡ right.entry.now) }
{
    while let [x, more_left @ ..] = left {
        let [y, more_right @ ..] = right else {
            return false;
        };
        if !is_same_entry(*x, *y) {
            return false;
        }
        left = more_left;
        right = more_right;
    }
    right.is_empty()
}
