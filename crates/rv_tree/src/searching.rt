//! A search by sums: parts of the list in which nothing is sought are passed over.

ghost use Rattle.std.specs.Prelude.{◌≤◌, length};
ghost use Rattle.rv_tree.specs.Search.{IsNextPart};

use crate::limits::MAX_ITEMS;
use crate::node::Subtree;
use crate::sought::{Part, Sought};
use crate::sums::Summed;

impl<T: Summed> Subtree<T> {
    // The next part after the first `before` items that is not passed over: what is left of a leaf.
    pub(crate) fn next_leaf<S: Sought<T>>(&self, before: u32, sought: &S) -> Part
        requires place { before ≤ length self.now.items }
        requires few { length self.now.items ≤ MAX_ITEMS }
        ensures { IsNextPart (λ x. S.lacks sought.now (T.sum_of x)) self.now.items before result.begin result.end }
    {
        let len = self.len();
        if sought.skips(self.sum()) {
            return Part {
                begin: len,
                end: len,
            };
        }
        if self.height() == 1 {
            return Part {
                begin: before,
                end: len,
            };
        }
        let (left, right) = self.sides();
        let left_len = left.len();
        if left_len <= before {
            return right.next_leaf(before - left_len, sought).after(left_len);
        }
        let first = left.next_leaf(before, sought);
        if first.begin < left_len {
            return first;
        }
        right.next_leaf(0, sought).after(left_len)
    }

    // How many items there are before the first leaf after the first `before` items that is passed over.
    pub(crate) fn run_end<S: Sought<T>>(&self, before: u32, sought: &S) -> u32
        requires place { before ≤ length self.now.items }
        requires few { length self.now.items ≤ MAX_ITEMS }
        ensures up { before ≤ result }
        ensures within { result ≤ length self.now.items }
    {
        if sought.skips(self.sum()) {
            return before;
        }
        if self.height() == 1 {
            return self.len();
        }
        let (left, right) = self.sides();
        let left_len = left.len();
        if left_len <= before {
            return left_len + right.run_end(before - left_len, sought);
        }
        let end = left.run_end(before, sought);
        if end < left_len {
            return end;
        }
        left_len + right.run_end(0, sought)
    }
}
