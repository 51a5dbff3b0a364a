//! Sets of names by their buckets, which may also have names that do not differ.

ghost use Rattle.std.specs.Prelude.{◌≡◌, ◌<◌, ℕ, IfOk, IsTrue, true, false};
ghost use Rattle.rv_program.specs.declared.name_set.Mark.TheVariants.{Unknown};
ghost use Rattle.rv_program.specs.internal.NameSets.{bucket_of, differs, IsBelow, HasMoved, mark_of, has_bucket};
ghost use Rattle.rv_program.specs.internal.Groups.{has_group};
ghost use Rattle.rv_program.specs.internal.Masks.{has_name};

use crate::groups::Groups;
use crate::mask::Mask;
use std::alloc::{AllocError, Global};
use std::marker::Model;

/// How many buckets there are.
pub const BUCKETS: usize = 16_384;

/// The bucket of a name. By the factor 439 names that are numbered alike share buckets less often than they would by chance.
pub fn bucket_of(mut name: &[u8]) -> u16
    ensures bucket { result ≡ bucket_of name.entry.now }
    ensures below { result < 16384 }
{
    let mut bucket = 0;
    while let [byte, rest @ ..] = name {
        bucket = (bucket * 439 + u32::from(*byte)) % 16384;
        name = rest;
    }
    bucket as u16
}

/// What is true of the symbols of a bucket after an edit.
#[derive(Clone, Copy)]
pub enum Mark {
    /// None of them has a number.
    Unknown,
    /// They give what they gave.
    Same,
    /// They are labels, which moved as far as the lines behind the edit.
    Moved,
    /// They may give anything else.
    Changed,
}

impl Mark {
    // What is true of all symbols of which the one or the other is.
    fn with(self, other: Mark) -> Mark
        ensures first { IsBelow self result }
        ensures second { IsBelow other result }
    {
        match self {
            Mark::Unknown => other,
            Mark::Same => match other {
                Mark::Unknown | Mark::Same => Mark::Same,
                Mark::Moved | Mark::Changed => Mark::Changed,
            },
            Mark::Moved => match other {
                Mark::Unknown | Mark::Moved => Mark::Moved,
                Mark::Same | Mark::Changed => Mark::Changed,
            },
            Mark::Changed => Mark::Changed,
        }
    }

    // Whether one of the symbols may differ.
    #[inline]
    fn differs(self) -> bool
        ensures { result ≡ differs self }
    {
        match self {
            Mark::Unknown | Mark::Same => false,
            Mark::Moved | Mark::Changed => true,
        }
    }

    // Whether each of the symbols that gives an address moved as far as the lines behind the edit.
    #[inline]
    fn has_moved(self) -> bool
        ensures { IsTrue result → HasMoved self }
    {
        match self {
            Mark::Unknown | Mark::Moved => true,
            Mark::Same | Mark::Changed => false,
        }
    }
}

/// What an edit did to the symbols, by the buckets of their names: the set has all names of a bucket of which one may differ. Contracts
/// see a mark for each bucket, and how far the lines behind the edit moved.
pub struct NameSet {
    // How far the lines behind the edit moved.
    shift: i64,
    // The mask of the buckets of which a name may differ, and maybe others.
    mask: Mask,
    marks: Vec<Mark>,
}

// What a derive would do, but proved once, and not at each way out of a function that has a set.
impl Drop for NameSet {
    fn drop(self) {
        let NameSet {
            shift: _,
            mask: _,
            marks: _,
        } = self;
    }
}

impl Model for NameSet {
    ghost use Rattle.rv_program.specs.internal.NameSets.{Marks, IsSized, AreMasked};

    ghost Value = { Marks };

    ghost view = { λ s. record { shift = s.shift; marks = s.marks.items } };

    ghost invariant = { λ s. IsSized s.marks.items × AreMasked s.marks.items s.mask };
}

impl NameSet {
    /// The set of no names, where the lines behind the edit moved so far.
    pub fn empty(alloc: Global, shift: i64) -> Result<NameSet, AllocError>
        ensures none { IfOk result (λ set. (bucket : ℕ) → mark_of set bucket ≡ Unknown) }
        ensures shift { IfOk result (λ set. set.shift ≡ shift) }
    {
        let marks = vec![in alloc; Mark::Unknown; BUCKETS]?;
        Ok(NameSet {
            shift,
            mask: Mask::none(),
            marks,
        })
    }

    /// How far the lines behind the edit moved.
    pub fn shift(&self) -> i64
        ensures { result ≡ self.now.shift }
    {
        self.shift
    }

    /// Adds a name of this bucket, of which this is true.
    pub fn add(&mut self, bucket: u16, mark: Mark)
        requires { bucket < 16384 }
        ensures kept { (other : ℕ) → IsBelow (mark_of self.old other) (mark_of self.new other) }
        ensures added { IsBelow mark (mark_of self.new bucket) }
        ensures shift { self.new.shift ≡ self.old.shift }
    {
        let place = usize::from(bucket);
        let mark = self.marks[place].with(mark);
        self.marks[place] = mark;
        if mark.differs() {
            self.mask = self.mask.with(Mask::of_bucket(bucket));
        }
    }

    // What is true of the names of a bucket.
    #[inline]
    fn mark(&self, bucket: u16) -> Mark
        ensures { result ≡ mark_of self.now bucket }
    {
        self.marks
            .get(usize::from(bucket))
            .copied()
            .unwrap_or(Mark::Unknown)
    }

    /// Whether it has the names of a bucket.
    #[inline]
    pub fn has(&self, bucket: u16) -> bool
        ensures { result ≡ has_bucket self.now bucket }
    {
        self.mark(bucket).differs()
    }

    /// The mask of its names, and maybe others.
    pub fn mask(&self) -> Mask
        ensures { (bucket : ℕ) → has_bucket self.now bucket ≡ true → has_name result bucket ≡ true }
    {
        self.mask
    }

    /// Whether it may have names of these groups.
    pub fn meets(&self, groups: Groups) -> bool
        ensures { result ≡ false → (bucket : ℕ) → has_bucket self.now bucket ≡ true → has_group groups bucket ≡ false }
    {
        !Mask::of_remainders(groups.bits()).lacks(self.mask)
    }

    /// Whether each name of a bucket that gives an address moved as far as the lines behind the edit.
    #[inline]
    pub fn has_moved(&self, bucket: u16) -> bool
        ensures { IsTrue result → HasMoved (mark_of self.now bucket) }
    {
        self.mark(bucket).has_moved()
    }
}
