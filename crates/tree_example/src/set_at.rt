//! A pass that replaces one block, and skips every part without it.

ghost use Rattle.std.specs.Prelude.{◌≡◌, ◌+◌};
ghost use Rattle.tree_example.specs.SetAt.{IsSet, IsApart, set_at_kept};

use crate::extent::{Block, Extent};
use rv_tree::Pass;
use std::alloc::AllocError;
use std::cell::Cell;

/// Replaces block number `place` by one of `size` bytes.
#[derive(Drop)]
pub struct SetAt {
    pub place: u32,
    pub size: u64,
    /// How many blocks it was handed.
    pub handed: Cell<u32>,
    /// How many parts it was asked about.
    pub asked: Cell<u32>,
}

impl Pass<Block> for SetAt {
    ghost accepts = { λ p b xs. Unit {0} };

    ghost gives = { λ p b x y q. IsSet p.place p.size b x y × (q.place ≡ p.place) × (q.size ≡ p.size) };

    ghost refuses = { λ p b x q. ⊥ };

    ghost keeps = { λ p b s. IsApart p.place b s };

    fn visit(&mut self, before: &Extent, item: &Block) -> Result<Option<Block>, AllocError> {
        self.handed.set(self.handed.get().wrapping_add(1));
        if before.count < self.place && self.place - before.count == 1 {
            Ok(Some(Block { size: self.size }))
        } else {
            Ok(None)
        }
    }

    fn skips(&self, before: &Extent, sum: &Extent) -> bool {
        self.asked.set(self.asked.get().wrapping_add(1));
        match before.count.checked_add(sum.count) {
            Some(end) => end < u32::MAX && (end < self.place || self.place <= before.count),
            None => false,
        }
    }

    ghost accepts_rest = { λ p q b x y xs c g. tt };

    ghost kept = { λ p b xs n v a k. set_at_kept _ p p.place p.size (λ c x h. (h, refl, refl)) b xs v a k };

    ghost use Rattle.std.proofs.Common.{refl};
}
