//! The lines of a text with their codes.

ghost use Rattle.std.specs.Prelude.{◌≡◌};
ghost use Rattle.rv_program.specs.internal.LineSums.{line_sum_of};

use crate::line::Line;
use crate::line_sum::LineSum;
use crate::line_values::LineValues;
use rv_fix::Coded;
use rv_layout::Measured;
use rv_tree::Summed;

/// A line with what is kept of it: its code, its shape, and the values from which its code is made. What is read of all lines to find
/// their faults stands first, so that it lies together.
pub struct Item {
    pub code: Coded,
    pub line: Line,
    pub shape: Measured,
    pub values: LineValues,
}

// What a derive would do, but proved here: a crate that drops an item would prove the derived drop of each type in it.
impl Drop for Item {
    fn drop(self) {
        let Item {
            code: _,
            line: _,
            shape: _,
            values: _,
        } = self;
    }
}

impl Summed for Item {
    type Sum = LineSum;

    ghost sum_of = { line_sum_of };

    fn sum(&self) -> LineSum {
        LineSum {
            count: 1,
            mask: self.line.brief().mask(),
        }
    }

    fn has_sum_of(&self, other: &Item) -> bool {
        self.line.brief().is_same(&other.line.brief())
    }
}

impl Item {
    /// A line that was just read, of which nothing is kept yet.
    pub fn entered(line: Line) -> Item
        ensures { result.line ≡ line }
    {
        Item {
            line,
            shape: Measured::Nothing,
            values: LineValues::Nothing,
            code: Coded::padding(false, 0),
        }
    }
}
