//! The names that a line uses, in brief.

ghost use Rattle.std.specs.Prelude.{◌≡◌, ◌==◌, false, IsTrue};
ghost use Rattle.rv_program.specs.internal.NameSets.{no_names, with_name, mask_of_one, mask_of_used, is_bucket, IsOutside, IsMoved, may_have};

use crate::groups::Groups;
use crate::mask::Mask;
use crate::name_set::{NameSet, bucket_of};

/// The names that a line uses: the buckets of one or two, or the groups of the buckets of more.
#[derive(Clone, Copy)]
pub enum UsedNames {
    Few(Option<u16>, Option<u16>),
    Many(Groups),
}

// Whether it is this bucket.
fn is_bucket(other: Option<u16>, bucket: u16) -> bool
    ensures { result ≡ is_bucket other bucket }
{
    match other {
        Some(other) => other == bucket,
        None => false,
    }
}

// Whether a set has the names of a bucket, if it is one.
#[inline]
fn has_names(set: &NameSet, bucket: Option<u16>) -> bool
    ensures { result ≡ false → IsOutside (UsedNames.Few bucket None) set.now }
{
    match bucket {
        Some(bucket) => set.has(bucket),
        None => false,
    }
}

// The mask of a bucket, if it is one.
fn mask_of_one(bucket: Option<u16>) -> Mask
    ensures { result ≡ mask_of_one bucket }
{
    match bucket {
        Some(bucket) => Mask::of_bucket(bucket),
        None => Mask::none(),
    }
}

impl UsedNames {
    /// No names.
    pub fn none() -> UsedNames
        ensures { result ≡ no_names }
    {
        UsedNames::Few(None, None)
    }

    /// These and one more.
    pub fn with(self, name: &[u8]) -> UsedNames
        ensures { result ≡ with_name self name.now }
    {
        let bucket = bucket_of(name);
        match self {
            UsedNames::Few(None, second) => UsedNames::Few(Some(bucket), second),
            UsedNames::Few(Some(first), None) => UsedNames::Few(Some(first), Some(bucket)),
            UsedNames::Few(Some(first), Some(second)) => {
                UsedNames::Many(Groups::none().with(first).with(second).with(bucket))
            }
            UsedNames::Many(groups) => UsedNames::Many(groups.with(bucket)),
        }
    }

    /// The mask of their buckets.
    pub fn mask(self) -> Mask
        ensures { result ≡ mask_of_used self }
    {
        match self {
            UsedNames::Few(first, second) => mask_of_one(first).with(mask_of_one(second)),
            UsedNames::Many(groups) => Mask::of_remainders(groups.bits()),
        }
    }

    /// Whether both are the same.
    pub fn are_same(self, other: UsedNames) -> bool
        ensures { IsTrue result → self ≡ other }
    {
        match (self, other) {
            (UsedNames::Few(first, second), UsedNames::Few(third, fourth)) => {
                first == third && second == fourth
            }
            (UsedNames::Many(groups), UsedNames::Many(others)) => groups.are_same(others),
            _ => false,
        }
    }

    /// Whether one of them may be in a set.
    #[inline]
    pub fn meets(self, set: &NameSet) -> bool
        ensures { result ≡ false → IsOutside self set.now }
    {
        match self {
            UsedNames::Few(first, second) => has_names(set, first) || has_names(set, second),
            UsedNames::Many(groups) => set.meets(groups),
        }
    }

    /// Whether it is one name, which moved as far as the lines behind the edit, if it gives an address.
    #[inline]
    pub fn has_moved(self, set: &NameSet) -> bool
        ensures { IsTrue result → IsMoved self set.now }
    {
        match self {
            UsedNames::Few(Some(bucket), None) => set.has_moved(bucket),
            _ => false,
        }
    }

    /// Whether one of them may be of a bucket.
    #[inline]
    pub fn may_have(self, bucket: u16) -> bool
        ensures { result ≡ may_have self bucket }
    {
        match self {
            UsedNames::Few(first, second) => is_bucket(first, bucket) || is_bucket(second, bucket),
            UsedNames::Many(groups) => groups.has(bucket),
        }
    }
}
