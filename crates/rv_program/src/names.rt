//! Names that have numbers.

ghost use Rattle.std.specs.Prelude.{◌≡◌, ◌<◌, ℕ, List, [], ◌∷◌, ◌++◌, None, Some, length, IfSome, IfOk, OnOk};
ghost use Rattle.rv_program.specs.internal.NameSets.{bucket_of};
ghost use Rattle.rv_program.specs.internal.Rows.{number_of, IsNumber, entry_at, in_row, Grows};

use crate::name_set::bucket_of;
use indexmap::IndexSet;
use std::alloc::{AllocError, Global};
use std::marker::Model;

/// The names that have numbers, from 0 on. Contracts see the list of them, in the order of their numbers.
#[derive(Drop)]
pub struct NameTable {
    names: IndexSet<Vec<u8>>,
    // The bucket of each name.
    buckets: Vec<u16>,
}

impl Model for NameTable {
    ghost use Rattle.std.specs.Prelude.{ℕ, List, map};

    ghost Value = { List (List ℕ) };

    ghost view = { λ t. map (λ n. n.items) t.names.keys };

    ghost use Rattle.std.specs.Prelude.{◌≡◌};
    ghost use Rattle.rv_program.specs.internal.NameSets.{bucket_of};

    ghost invariant = { λ t. t.buckets.items ≡ map bucket_of (map (λ n. n.items) t.names.keys) };
}

impl NameTable {
    /// A table of no names, which takes no memory.
    pub fn new(alloc: Global) -> Self
        ensures { result ≡ [] }
    {
        NameTable {
            names: IndexSet::new(alloc),
            buckets: Vec::new(alloc),
        }
    }

    /// How many names there are.
    pub fn len(&self) -> usize
        ensures { result ≡ length self.now }
    {
        self.names.len()
    }

    /// The number of a name, if it has one.
    pub fn number(&self, name: &[u8]) -> Option<usize>
        ensures number { result ≡ number_of self.now name.now }
        ensures below { IfSome result (λ n. n < length self.now) }
    {
        self.names.get_index_of(name)
    }

    /// The name that has this number.
    pub fn name(&self, number: usize) -> &[u8]
        requires { number < length self.now }
        ensures { number_of self.now result.now ≡ Some number }
    {
        self.names.as_slice()[number].as_slice()
    }

    /// The bucket of the name that has this number.
    pub fn bucket(&self, number: usize) -> u16
        requires { number < length self.now }
        ensures bucket { (name : List ℕ) → number_of self.now name ≡ Some number → result ≡ bucket_of name }
        ensures below { result < 16384 }
        ensures numbered { IsNumber self.now (Some number) }
    {
        let _name = self.name(number);
        self.buckets[number]
    }

    /// The number of a name, which gets the next one if it has none. Names that have numbers keep them, also where there is
    /// no memory for one more.
    pub fn intern(&mut self, alloc: Global, name: &[u8]) -> Result<usize, AllocError>
        ensures number { IfOk result (λ n. number_of self.new name.now ≡ Some n) }
        ensures last { number_of self.old name.now ≡ None → OnOk result (self.new ≡ self.old ++ name.now ∷ []) }
        ensures grows { Grows self.old self.new }
    {
        if let Some(number) = self.number(name) {
            return Ok(number);
        }
        let owned = Vec::from_slice(alloc, name)?;
        self.buckets.reserve(1)?;
        let (number, _) = self.names.insert_full(owned)?;
        self.buckets.push_reserved(bucket_of(name));
        Ok(number)
    }
}

/// What a row by the numbers of names holds for a name: the other value where the name has no place in the row.
pub fn entry_of<T: Copy>(names: &NameTable, row: &[T], other: T, name: &[u8]) -> T
    ensures { result ≡ in_row names.now row.now other name.now }
{
    entry_at(row, other, names.number(name))
}

/// What a row by the numbers of names holds for the name of this number: the other value where the name has no number, or no
/// place in the row.
pub fn entry_at<T: Copy>(row: &[T], other: T, number: Option<usize>) -> T
    ensures { result ≡ entry_at row.now other number }
{
    let Some(number) = number else {
        return other;
    };
    row.get(number).copied().unwrap_or(other)
}
