//! What lines add up to.

ghost use Rattle.rv_program.specs.internal.LineSums.{IsLineSum, no_line_sum, both_line_sums, line_sum_laws};

use crate::mask::Mask;
use rv_tree::Joined;

/// How many lines there are, which names they use and define, and of which kinds they are. Where they are, rows say.
#[derive(Clone, Copy)]
pub struct LineSum {
    /// How many; `u32::MAX` stands for so many or more.
    pub count: u32,
    /// The names and the kinds, and maybe others.
    pub mask: Mask,
}

impl Joined for LineSum {
    ghost IsValue = { IsLineSum };

    ghost empty = { no_line_sum };

    ghost op = { both_line_sums };

    fn unit() -> LineSum {
        LineSum {
            count: 0,
            mask: Mask::none(),
        }
    }

    fn join(&self, other: &LineSum) -> LineSum {
        LineSum {
            count: self.count.saturating_add(other.count),
            mask: self.mask.with(other.mask),
        }
    }

    fn known(&self) {
        let _count = self.count;
        self.mask.known();
    }

    ghost laws = { line_sum_laws };
}
