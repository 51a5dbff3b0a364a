//! One item, and the sum of the first items.

ghost use Rattle.std.specs.Prelude.{◌≡◌, ◌≤◌, ◌<◌, length, slice_get, take, Some};
ghost use Rattle.rv_tree.specs.Sums.{total};

use crate::node::{Node, Subtree};
use crate::sums::{Joined, Summed};

impl<T: Summed> Subtree<T> {
    // The item behind the first `before`.
    pub(crate) fn get(&self, before: u32) -> &T
        requires { before < length self.now.items }
        ensures { slice_get self.now.items before ≡ Some result.now }
    {
        match &self.node {
            Node::Leaf { row, .. } => row.get(before),
            Node::Fork { left, right, .. } => {
                let left_len = left.len();
                if before < left_len {
                    left.get(before)
                } else {
                    right.get(before - left_len)
                }
            }
        }
    }

    // The sum of the first `count` items.
    pub(crate) fn prefix(&self, count: u32) -> T::Sum
        requires { count ≤ length self.now.items }
        ensures { result ≡ total T.Sum.empty T.Sum.op T.sum_of (take count self.now.items) }
    {
        match &self.node {
            Node::Leaf { row, .. } => row.sum(0, count),
            Node::Fork { left, right, .. } => {
                let left_len = left.len();
                if count <= left_len {
                    left.prefix(count)
                } else {
                    let rest = right.prefix(count - left_len);
                    left.sum().join(&rest)
                }
            }
        }
    }
}
