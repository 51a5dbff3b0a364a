//! Blocks, and how many there are and how long they are together.

ghost use Rattle.tree_example.specs.Extents.{IsExtent, no_extent, both_extents, extent_laws, extent_of};

use rv_tree::{Joined, Summed};

/// How many blocks there are, and how many bytes they have.
#[derive(Clone, Copy, Debug, PartialEq, Eq)]
pub struct Extent {
    /// How many blocks; `u32::MAX` stands for so many or more.
    pub count: u32,
    /// How many bytes, modulo 2^64.
    pub size: u64,
}

impl Joined for Extent {
    ghost IsValue = { IsExtent };

    ghost empty = { no_extent };

    ghost op = { both_extents };

    fn unit() -> Extent {
        Extent { count: 0, size: 0 }
    }

    fn join(&self, other: &Extent) -> Extent {
        Extent {
            count: self.count.saturating_add(other.count),
            size: self.size.wrapping_add(other.size),
        }
    }

    fn known(&self) {
        let _count = self.count;
        let _size = self.size;
    }

    ghost laws = { extent_laws };
}

/// A block of so many bytes.
#[derive(Clone, Copy, Debug, PartialEq, Eq)]
pub struct Block {
    pub size: u64,
}

impl Summed for Block {
    type Sum = Extent;

    ghost sum_of = { extent_of };

    fn sum(&self) -> Extent {
        Extent {
            count: 1,
            size: self.size,
        }
    }

    fn has_sum_of(&self, other: &Block) -> bool {
        self.size == other.size
    }
}
