//! How many operands may stand after a name.

ghost use Rattle.std.specs.Prelude.{◌≡◌};
ghost use Rattle.rv_stmt.specs.OperandCounts.{takes};

/// How many operands may stand after a name.
#[derive(Clone, Copy, Debug, PartialEq, Eq)]
pub enum OperandCount {
    /// So many.
    Exactly(usize),
    /// The first number of them or more, up to the second.
    Between(usize, usize),
    /// So many or more.
    AtLeast(usize),
}

impl OperandCount {
    /// Whether so many operands may stand there.
    pub fn takes(self, count: usize) -> bool
        ensures { result ≡ takes self count }
    {
        match self {
            OperandCount::Exactly(number) => count == number,
            OperandCount::Between(least, most) => least <= count && count <= most,
            OperandCount::AtLeast(least) => count >= least,
        }
    }
}
