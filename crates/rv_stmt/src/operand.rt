//! The operands whose values expressions give.

ghost use Rattle.std.specs.Prelude.{◌≡◌};
ghost use Rattle.rv_stmt.specs.Data.{width_bytes};

use rv_expr::{Expr, LabelReference};
use rv_text::Span;

/// How many bytes a value takes among data.
#[derive(Clone, Copy, Debug, PartialEq, Eq)]
pub enum DataWidth {
    Byte,
    Half,
    Word,
}

impl DataWidth {
    /// The number of bytes: 1, 2 or 4.
    pub fn bytes(self) -> u32
        ensures { result ≡ width_bytes self }
    {
        match self {
            DataWidth::Byte => 1,
            DataWidth::Half => 2,
            DataWidth::Word => 4,
        }
    }
}

/// What the operand of an alignment is.
#[derive(Clone, Copy, Debug, PartialEq, Eq)]
pub enum AlignmentUnit {
    /// The number of bytes, a power of two.
    Bytes,
    /// The exponent of that power.
    Exponent,
}

/// What the value of an operand is for.
#[derive(Clone, Copy, Debug, PartialEq, Eq)]
pub enum Role {
    /// It is the value of the instruction.
    Immediate,
    /// It is a number of five bits in the place of `rs1`.
    SourceImmediate,
    /// It is an address, whose displacement is the value of the instruction.
    Target,
    /// It is an address that two instructions reach: `auipc` into `rs1`, then the instruction.
    PairTarget,
    /// It is a constant that the instruction loads, by one instruction or by two.
    Constant,
    /// It is a value among data.
    Data(DataWidth),
    /// It is a constant: how many bytes are filled.
    Size,
    /// It is the byte that they are filled with.
    FillByte,
    /// It is a constant, to a multiple of which the place is rounded up.
    Alignment(AlignmentUnit),
    /// It is the value of a symbol.
    Definition,
}

/// What gives the value of an operand: an expression, or a modifier, which takes a part of a value.
#[derive(Drop)]
pub enum OperandValue {
    /// The value of the expression.
    Plain(Expr),
    /// `%hi(expression)`: the upper 20 bits, which with the signed lower 12 bits give the value.
    High(Expr),
    /// `%lo(expression)`: the lower 12 bits, with a sign.
    Low(Expr),
    /// `%pcrel_hi(expression)`: `%hi` of the value less the address of the line.
    PcrelHigh(Expr),
    /// `%pcrel_lo(label)`: the lower 12 bits that belong to the `%pcrel_hi` at the label.
    PcrelLow(LabelReference),
}

/// An operand whose value an expression gives.
pub struct Operand {
    pub value: OperandValue,
    pub role: Role,
    /// The whole operand, at which the faults of its value are reported.
    pub span: Span,
}

// What a derive would do, but proved here: a crate that reads a list of operands would prove the derived drop of each type in one.
impl Drop for Operand {
    fn drop(self) {
        let Operand {
            value,
            role: _,
            span: _,
        } = self;
        drop(value);
    }
}
