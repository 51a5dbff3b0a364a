//! Calls of `rv_tree`.

use crate::calls::call::Answer;
use rv_tree::{Pass, SumTree, TreeError};
use std::alloc::{AllocError, Global};
use tree_example::extent::{Block, Extent};

/// A call on a tree.
#[derive(Clone, Copy)]
pub enum TreeCall {
    Insert,
    Delete,
    Replace,
    Rewrite,
}

const BEFORE: &[u64] = &[10, 20, 30, 40, 50];

// Adds to each block the bytes before it, and takes memory for the sum.
#[derive(Drop)]
struct Accumulate {
    alloc: Global,
}

impl Pass<Block> for Accumulate {
    ghost accepts = { λ p b xs. Unit {0} };

    ghost gives = { λ p b x y q. Unit {0} };

    ghost refuses = { λ p b x q. Unit {0} };

    ghost keeps = { λ p b s. ⊥ };

    fn visit(&mut self, before: &Extent, item: &Block) -> Result<Option<Block>, AllocError> {
        let size = Box::new(self.alloc, item.size.wrapping_add(before.size))?;
        Ok(Some(Block { size: *size }))
    }

    fn skips(&self, before: &Extent, sum: &Extent) -> bool {
        false
    }

    ghost accepts_rest = { λ p q b x y xs c g. tt };

    ghost kept = { λ p b xs n v a k. absurd k };
}

fn make_tree(alloc: Global) -> Result<SumTree<Block>, TreeError> {
    let mut tree = SumTree::new(alloc);
    for size in BEFORE {
        tree = tree.inserted(tree.len() + 1, Block { size: *size })?;
    }
    Ok(tree)
}

// Whether a block of this size stands behind the first `k`, and these have this sum.
fn has_block(tree: &SumTree<Block>, k: u32, size: u64, sum: u64) -> bool {
    if k >= tree.len() {
        return false;
    }
    match tree.get(k + 1) {
        Some(block) => block.size == size && tree.prefix(k).size == sum,
        None => false,
    }
}

// Whether these are the sizes of the blocks, and the sums those of the first blocks.
fn has_blocks(tree: &SumTree<Block>, sizes: &[u64]) -> bool {
    let mut sum = 0u64;
    let mut k = 0u32;
    for size in sizes {
        if !has_block(tree, k, *size, sum) {
            return false;
        }
        sum = sum.wrapping_add(*size);
        k = k.wrapping_add(1);
    }
    tree.len() as usize == sizes.len() && tree.total().size == sum
}

impl TreeCall {
    // Makes it on a tree. The insertion and the deletion put the tree of five blocks out of balance.
    fn result(self, alloc: Global, tree: &SumTree<Block>) -> Result<SumTree<Block>, TreeError> {
        match self {
            TreeCall::Insert => tree.inserted(6, Block { size: 60 }),
            TreeCall::Delete => tree.deleted(1),
            TreeCall::Replace => tree.replaced(4, Block { size: 44 }),
            TreeCall::Rewrite => tree.rewritten(&mut Accumulate { alloc }),
        }
    }

    // The sizes of the blocks after it.
    fn sizes_after(self) -> &'static [u64] {
        match self {
            TreeCall::Insert => &[10, 20, 30, 40, 50, 60],
            TreeCall::Delete => &[20, 30, 40, 50],
            TreeCall::Replace => &[10, 20, 30, 44, 50],
            TreeCall::Rewrite => &[10, 30, 70, 150, 310],
        }
    }

    // Whether it gives what it has to on a tree of five blocks, which stays as it is.
    fn answer(self, alloc: Global, tree: &SumTree<Block>) -> Answer {
        let result = self.result(alloc, tree);
        if !has_blocks(tree, BEFORE) {
            return Answer::Wrong;
        }
        match result {
            Ok(found) => Answer::of(has_blocks(&found, self.sizes_after())),
            Err(TreeError::Memory) => Answer::Refused,
            Err(_) => Answer::Wrong,
        }
    }

    /// Makes it on a tree of five blocks, and once more on the same tree where it is refused.
    pub fn make(self, alloc: Global) -> Answer {
        let Ok(tree) = make_tree(alloc) else {
            return Answer::Refused;
        };
        match self.answer(alloc, &tree) {
            Answer::Refused => Answer::after_refusal(self.answer(alloc, &tree) == Answer::Right),
            answer => answer,
        }
    }
}
