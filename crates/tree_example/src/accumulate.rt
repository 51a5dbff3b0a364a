//! A pass that replaces every block.

ghost use Rattle.std.specs.Prelude.{◌≡◌};
ghost use Rattle.tree_example.specs.Accumulate.{with_before};

use crate::extent::{Block, Extent};
use rv_tree::Pass;
use std::alloc::AllocError;

/// Adds to each block the bytes of all new blocks before it.
#[derive(Drop)]
pub struct Accumulate;

impl Pass<Block> for Accumulate {
    ghost accepts = { λ p b xs. Unit {0} };

    ghost gives = { λ p b x y q. y ≡ with_before b x };

    ghost refuses = { λ p b x q. ⊥ };

    ghost keeps = { λ p b s. ⊥ };

    fn visit(&mut self, before: &Extent, item: &Block) -> Result<Option<Block>, AllocError> {
        Ok(Some(Block {
            size: item.size.wrapping_add(before.size),
        }))
    }

    fn skips(&self, before: &Extent, sum: &Extent) -> bool {
        false
    }

    ghost accepts_rest = { λ p q b x y xs c g. tt };

    ghost kept = { λ p b xs n v a k. absurd k };
}
