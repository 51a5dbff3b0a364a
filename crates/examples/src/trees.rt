//! Lists of blocks that are kept in a tree. A list is shown as its blocks with the sums between them: `0 +10 10 +20 30` has blocks
//! of 10 and of 20 bytes.

use crate::row::{found, made, number_before, number_of, parts_of};
use rv_tree::{SumTree, TreeError};
use std::alloc::Global;
use std::cell::Cell;
use std::fmt::Write;
use std::test::Fail;
use tree_example::accumulate::Accumulate;
use tree_example::counted::cut_blocks;
use tree_example::extent::Block;
use tree_example::set_at::SetAt;

// A block of as many bytes as a word spells.
fn block_of(size: &str) -> Result<Block, Fail> {
    Ok(Block {
        size: u64::from(number_of(size)?),
    })
}

// Appends the sum of the first `k` blocks, and the block behind them.
fn push_block(shown: &mut String, tree: &SumTree<Block>, k: u32) -> Result<(), Fail> {
    if k >= tree.len() {
        return Err(Fail::new("a place behind the list"));
    }
    let sum = tree.prefix(k).size;
    let block = found(tree.get(k + 1), "a place without a block")?;
    Ok(write!(shown, "{sum} +{} ", block.size)?)
}

// The blocks, each behind the sum of those before it, and the sum of all.
fn list_text(alloc: Global, tree: &SumTree<Block>) -> Result<String, Fail> {
    let mut shown = String::new(alloc);
    for k in 0..tree.len() {
        push_block(&mut shown, tree, k)?;
    }
    write!(shown, "{}", tree.total().size)?;
    Ok(shown)
}

// The blocks cut to so many bytes. Each has to be looked at once.
fn cut(tree: &SumTree<Block>, limit: u32) -> Result<SumTree<Block>, Fail> {
    let mut count = 0u64;
    let cut = cut_blocks(tree, u64::from(limit), &mut count)?;
    if count != u64::from(tree.len()) {
        return Err(Fail::new("another count of blocks"));
    }
    Ok(cut)
}

// The list that a pass gives.
fn passed(tree: &SumTree<Block>, call: &str, limit: &str) -> Result<SumTree<Block>, Fail> {
    match call {
        "accumulate" => Ok(tree.rewritten(&mut Accumulate)?),
        "cut" => cut(tree, number_of(limit)?),
        _ => Err(Fail::new("no edit of a list")),
    }
}

// The list that an edit gives: `insert 1 30`, `delete 1`, `replace 2 7`, `accumulate` or `cut 25`.
fn edited(tree: &SumTree<Block>, edit: &str) -> Result<SumTree<Block>, Fail> {
    let (call, arguments) = parts_of(edit);
    let (place, size) = parts_of(arguments);
    match call {
        "insert" => Ok(tree.inserted(number_of(place)?, block_of(size)?)?),
        "delete" => Ok(tree.deleted(number_of(place)?)?),
        "replace" => Ok(tree.replaced(number_of(place)?, block_of(size)?)?),
        _ => passed(tree, call, place),
    }
}

// The texts of lists, with semicolons between them.
fn lists_text(alloc: Global, trees: &[SumTree<Block>]) -> Result<String, Fail> {
    let mut texts = Vec::new(alloc);
    for tree in trees {
        texts.push(list_text(alloc, tree)?)?;
    }
    made(texts.as_slice().join(alloc, "; "))
}

// Appends the list that an edit makes of the last one.
fn push_edited(trees: &mut Vec<SumTree<Block>>, edit: &str) -> Result<(), Fail> {
    let tree = found(trees.as_slice().last(), "no list")?;
    let next = edited(tree, edit)?;
    Ok(trees.push(next)?)
}

/// The empty list and those that edits make of it, one after another. All are shown as they are after the last edit.
pub fn lists(alloc: Global, edits: &str) -> Result<String, Fail> {
    let mut trees = Vec::new(alloc);
    trees.push(SumTree::new(alloc))?;
    for edit in edits.split(", ") {
        push_edited(&mut trees, edit)?;
    }
    lists_text(alloc, trees.as_slice())
}

// A list of blocks of these sizes.
fn list_of(alloc: Global, sizes: &str) -> Result<SumTree<Block>, Fail> {
    let mut tree = SumTree::new(alloc);
    for size in sizes.split(" ") {
        tree = tree.inserted(tree.len() + 1, block_of(size)?)?;
    }
    Ok(tree)
}

// The name of an error.
fn error_name(error: Option<TreeError>) -> &'static str {
    match error {
        Some(TreeError::Place) => "Place",
        Some(TreeError::Full) => "Full",
        Some(TreeError::Memory) => "Memory",
        None => "none",
    }
}

// With what the insertion of a block at a place is refused.
fn insertion_refusal(tree: &SumTree<Block>, place: u32) -> &'static str {
    error_name(tree.inserted(place, Block { size: 1 }).err())
}

// With what the deletion, the replacement and the insertion of a block at a place are refused, whether there is a block, and
// the list after them.
fn refusals_at(alloc: Global, tree: &SumTree<Block>, place: u32) -> Result<String, Fail> {
    let deletion = error_name(tree.deleted(place).err());
    let replacement = error_name(tree.replaced(place, Block { size: 1 }).err());
    let insertion = insertion_refusal(tree, place);
    let found = tree.get(place).map_or("none", |_| "block");
    let list = list_text(alloc, tree)?;
    let texts = [deletion, replacement, insertion, found, list.as_str()];
    made(texts.as_slice().join(alloc, ", "))
}

/// With what the deletion, the replacement and the insertion of a block at a place of a list are refused, whether there is a
/// block, and the list after them.
pub fn refusals(alloc: Global, arguments: &str) -> Result<String, Fail> {
    let (place, sizes) = number_before(arguments)?;
    refusals_at(alloc, &list_of(alloc, sizes)?, place)
}

/// The errors of a tree with their numbers.
pub fn error_numbers(alloc: Global) -> Result<String, Fail> {
    let place = TreeError::Place.number();
    let full = TreeError::Full.number();
    let memory = TreeError::Memory.number();
    made(format!(in alloc; "Place {place}, Full {full}, Memory {memory}"))
}

// A list in a tree, and the sizes of its blocks in a `Vec`.
#[derive(Drop)]
struct ListAndVec {
    tree: SumTree<Block>,
    sizes: Vec<u64>,
}

impl ListAndVec {
    // Puts a block in first.
    fn add_in_front(&mut self, size: u64) -> Result<(), Fail> {
        self.tree = self.tree.inserted(1, Block { size })?;
        Ok(self.sizes.insert(0, size)?)
    }

    // Puts a block in last.
    fn add_behind(&mut self, size: u64) -> Result<(), Fail> {
        self.tree = self.tree.inserted(self.tree.len() + 1, Block { size })?;
        Ok(self.sizes.push(size)?)
    }

    // As many blocks in front, and behind them as many as make all.
    fn grown(alloc: Global, front: u32, all: u32) -> Result<ListAndVec, Fail> {
        let mut grown = ListAndVec {
            tree: SumTree::new(alloc),
            sizes: Vec::new(alloc),
        };
        for size in 0..front {
            grown.add_in_front(u64::from(size))?;
        }
        for size in front..all {
            grown.add_behind(u64::from(size))?;
        }
        Ok(grown)
    }

    // Whether the tree has this block behind the first `k`, and the sum of these.
    fn has(&self, k: u32, size: u64, sum: u64) -> bool {
        k <= self.tree.len()
            && self.tree.prefix(k).size == sum
            && self.tree.get(k.saturating_add(1)) == Some(&Block { size })
    }

    // How many of the blocks of the `Vec` are in the tree at their places, and how many bytes they have.
    fn equal(&self) -> (u32, u64) {
        let mut equal = 0u32;
        let mut sum = 0u64;
        for size in self.sizes.as_slice() {
            equal = equal.wrapping_add(u32::from(self.has(equal, *size, sum)));
            sum = sum.wrapping_add(*size);
        }
        (equal, sum)
    }

    // How many blocks and bytes are in the tree, and how many of the `Vec`. A height of up to 15 is shown as 15.
    fn compared(&self, alloc: Global) -> Result<String, Fail> {
        let (equal, sum) = self.equal();
        let len = self.tree.len();
        let total = self.tree.total().size;
        let height = self.tree.height().max(15);
        made(format!(in alloc;
            "{len} blocks of {total} bytes, {equal} of {sum} as in a Vec, height up to {height}"
        ))
    }
}

/// A list that grows to so many blocks in front, and behind them to so many in all, compared with a `Vec`.
pub fn grown(alloc: Global, arguments: &str) -> Result<String, Fail> {
    let (front, all) = number_before(arguments)?;
    ListAndVec::grown(alloc, front, number_of(all)?)?.compared(alloc)
}

// As many blocks as a tree has, the last put in first: block `k` has `k` bytes.
fn full_tree(alloc: Global) -> Result<SumTree<Block>, TreeError> {
    let mut tree = SumTree::new(alloc);
    for k in 0..16_384u32 {
        let size = u64::from(16_384 - k);
        tree = tree.inserted(1, Block { size })?;
    }
    Ok(tree)
}

// With what insertions at some places are refused.
fn refused_insertions(alloc: Global, tree: &SumTree<Block>, places: &str) -> Result<String, Fail> {
    let mut refusals = Vec::new(alloc);
    for place in places.split(" ") {
        refusals.push(insertion_refusal(tree, number_of(place)?))?;
    }
    made(refusals.as_slice().join(alloc, " "))
}

/// With what insertions into a full tree at some places are refused.
pub fn full(alloc: Global, places: &str) -> Result<String, Fail> {
    let tree = full_tree(alloc)?;
    refused_insertions(alloc, &tree, places)
}

/// How many blocks a full tree has, and how many without the first.
pub fn full_length(alloc: Global) -> Result<String, Fail> {
    let tree = full_tree(alloc)?;
    let (len, without) = (tree.len(), tree.deleted(1)?.len());
    made(format!(in alloc; "{len} {without}"))
}

// What a pass did to a tree that set the block of a place to no bytes.
fn set_text(
    alloc: Global,
    tree: &SumTree<Block>,
    set: &SumTree<Block>,
    pass: &SetAt,
) -> Result<String, Fail> {
    let left = found(set.get(pass.place), "a place without a block")?.size;
    let total = tree.total().size;
    let removed = total.wrapping_sub(set.total().size);
    let (handed, asked) = (pass.handed.get() / 1000, pass.asked.get() / 1000);
    made(format!(in alloc;
        "{total} bytes, {removed} removed, {left} left there, {handed} thousand handed, {asked} thousand asked"
    ))
}

/// A pass that sets a block of a full tree to no bytes: how many bytes the tree had, how many fewer it has then, how many the
/// block has, how many thousand blocks the pass was handed, and about how many thousand parts it was asked.
pub fn skipping(alloc: Global, place: &str) -> Result<String, Fail> {
    let tree = full_tree(alloc)?;
    let mut pass = SetAt {
        place: number_of(place)?,
        size: 0,
        handed: Cell::new(0),
        asked: Cell::new(0),
    };
    let set = tree.rewritten(&mut pass)?;
    set_text(alloc, &tree, &set, &pass)
}
