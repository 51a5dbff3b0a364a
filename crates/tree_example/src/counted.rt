//! A pass that counts on a counter of its caller.

ghost use Rattle.std.specs.Prelude.{◌≡◌, ◌+◌, ◌<◌, ◌^◌, length, map, IfOk, OnErr, ◌≤◌};
ghost use Rattle.tree_example.specs.Counted.{limited};

use crate::extent::{Block, Extent};
use rv_tree::{Pass, SumTree, TreeError};
use std::alloc::AllocError;

/// Cuts each block to `limit` bytes, and counts the blocks that it was handed.
#[derive(Drop)]
struct Cut<'a> {
    limit: u64,
    count: &'a mut u64,
}

impl<'a> Pass<Block> for Cut<'a> {
    ghost accepts = { λ p b xs. p.count.now + length xs < 2 ^ 64 };

    ghost gives = { λ p b x y q. (y ≡ limited p.limit x) × (q.count.now ≡ p.count.now + 1) × (q.limit ≡ p.limit) × (q.count.ghost_name ≡ p.count.ghost_name) };

    ghost refuses = { λ p b x q. ⊥ };

    ghost keeps = { λ p b s. ⊥ };

    fn visit(&mut self, before: &Extent, item: &Block) -> Result<Option<Block>, AllocError> {
        *self.count += 1;
        if item.size > self.limit {
            Ok(Some(Block { size: self.limit }))
        } else {
            Ok(None)
        }
    }

    fn skips(&self, before: &Extent, sum: &Extent) -> bool {
        false
    }

    ghost use Rattle.std.proofs.Common.{arith};

    ghost accepts_rest = { λ p q b x y xs c g. Prim.grind arith };

    ghost kept = { λ p b xs n v a k. absurd k };
}

/// The blocks cut to `limit` bytes. `count` rises by how many blocks were looked at.
pub fn cut_blocks(
    tree: &SumTree<Block>,
    limit: u64,
    count: &mut u64,
) -> Result<SumTree<Block>, TreeError>
    requires { count.old ≤ 2 ^ 63 }
    ensures items { IfOk result (λ t. t.items ≡ map (limited limit) tree.now.items) }
    ensures counted { IfOk result (λ t. count.new ≡ count.old + length tree.now.items) }
    ensures stopped { OnErr result (count.new ≤ count.old + length tree.now.items) }
{
    let _few = tree.len();
    let mut pass = Cut { limit, count };
    tree.rewritten(&mut pass)
}
