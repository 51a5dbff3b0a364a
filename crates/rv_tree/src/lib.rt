//! A persistent list of items that knows the sum of its first items: an edit shares all nodes with the list before it
//! but those of one path.
#![tactic(auto)]

mod balance;
mod edits;
mod error;
mod items;
mod leaf_edits;
mod limits;
mod look_up;
mod node;
mod passes;
mod rewriting;
mod row;
mod row_rewriting;
mod searching;
mod sought;
mod sums;
mod tree;

pub use error::TreeError;
pub use items::Items;
pub use limits::{MAX_HEIGHT, MAX_ITEMS};
pub use passes::Pass;
pub use sought::{Part, Sought};
pub use sums::{Joined, Summed};
pub use tree::SumTree;
