//! The names that a line defines, in brief.

ghost use Rattle.std.specs.Prelude.{◌≡◌, IsTrue};
ghost use Rattle.rv_stmt.specs.LentLabels.{name_lent};
ghost use Rattle.rv_program.specs.internal.DefinedNames.{defined_by_label, defined_in, mask_of_defined};

use crate::mask::Mask;
use crate::name_set::bucket_of;
use rv_stmt::{Body, LabelName, Stmt};

/// The names that a line defines: none, the bucket of the only one, or any.
#[derive(Clone, Copy)]
pub enum DefinedNames {
    /// None.
    Nothing,
    /// One, of this bucket.
    One(u16),
    /// It has several labels, or a label and an `.equ`.
    Many,
}

// Those of a label.
fn defined_by_label(label: LabelName<'_>) -> DefinedNames
    ensures { result ≡ defined_by_label (name_lent label.entry) }
{
    match label {
        LabelName::Symbol(symbol) => DefinedNames::One(bucket_of(symbol)),
        LabelName::Local(_) => DefinedNames::Nothing,
    }
}

impl DefinedNames {
    /// Those of a statement.
    pub fn of(stmt: &Stmt) -> DefinedNames
        ensures { result ≡ defined_in stmt.now }
    {
        let Some((label, others)) = stmt.labels.as_slice().split_first() else {
            return match &stmt.body {
                Body::Equ(definition) => DefinedNames::One(bucket_of(definition.symbol.bytes())),
                _ => DefinedNames::Nothing,
            };
        };
        match &stmt.body {
            Body::Equ(_) => DefinedNames::Many,
            _ if !others.is_empty() => DefinedNames::Many,
            _ => defined_by_label(label.name),
        }
    }

    /// Whether both are the same.
    pub fn are_same(self, other: DefinedNames) -> bool
        ensures { IsTrue result → self ≡ other }
    {
        match (self, other) {
            (DefinedNames::Nothing, DefinedNames::Nothing) => true,
            (DefinedNames::One(bucket), DefinedNames::One(another)) => bucket == another,
            (DefinedNames::Many, DefinedNames::Many) => true,
            _ => false,
        }
    }

    /// Their mask.
    pub fn mask(self) -> Mask
        ensures { result ≡ mask_of_defined self }
    {
        match self {
            DefinedNames::Nothing => Mask::none(),
            DefinedNames::One(bucket) => Mask::of_bucket(bucket),
            DefinedNames::Many => Mask::of_all_names(),
        }
    }
}
