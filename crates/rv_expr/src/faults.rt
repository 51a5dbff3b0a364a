//! Why there is no expression, and why an expression has no value.

ghost use Rattle.std.specs.Prelude.{◌≡◌};
ghost use Rattle.rv_expr.specs.declared.faults.ReadFault.TheVariants.{Memory};
ghost use Rattle.rv_expr.specs.Faults.{refusal_number, line_fault};

use rv_text::FaultNumber;
use std::alloc::{AllocError, AllocFailed};
use thiserror::Error;

/// Why a run of tokens was not read as an expression. Reasons are tried in this order, but memory may run out at any
/// time.
#[derive(Clone, Copy, Debug, PartialEq, Eq, Error)]
pub enum ReadFault {
    /// More than 64 parentheses are open at one place.
    #[error("more than 64 parentheses are open")]
    Deep,
    /// The run is no expression.
    #[error("not an expression")]
    Operand,
    /// There was no memory for the expression.
    #[error("out of memory")]
    Memory,
}

impl ReadFault {
    /// The number of the refusal, from 1 to 3.
    pub fn number(self) -> u8
        ensures { result ≡ refusal_number self }
    {
        match self {
            ReadFault::Deep => 1,
            ReadFault::Operand => 2,
            ReadFault::Memory => 3,
        }
    }
}

impl From<AllocError> for ReadFault {
    ghost from_gives = { λ _ e. e ≡ Memory };

    fn from(_: AllocError) -> Self {
        ReadFault::Memory
    }
}

impl<T: Drop> From<AllocFailed<T>> for ReadFault {
    ghost from_gives = { λ _ e. e ≡ Memory };

    fn from(_: AllocFailed<T>) -> Self {
        ReadFault::Memory
    }
}

/// Why an expression has no value.
#[derive(Clone, Copy, Debug, PartialEq, Eq, Error)]
pub enum ValueFault {
    /// A size names what is no constant of an earlier line.
    #[error("not a constant")]
    NotConstant,
    /// A symbol or a local label without a definition.
    #[error("undefined")]
    Undefined,
    /// A constant that names a constant of a later line, or itself.
    #[error("defined on a later line")]
    LaterEqu,
    /// The name of a constant that is faulty.
    #[error("the constant is faulty")]
    FaultyEqu,
    /// A result that is not from -2^63 to 2^63 - 1, a divisor of 0, or a shift by less than 0 or more than 63.
    #[error("the value cannot be computed")]
    Arithmetic,
    /// The label of a low half names no line with a high half.
    #[error("the label names no high half")]
    NoPartner,
}

impl ValueFault {
    /// The fault of a line whose operand has no value.
    pub fn line_fault(self) -> FaultNumber
        ensures { result ≡ line_fault self }
    {
        match self {
            ValueFault::NotConstant => FaultNumber::NotConstant,
            ValueFault::Undefined => FaultNumber::Undefined,
            ValueFault::LaterEqu => FaultNumber::LaterEqu,
            ValueFault::FaultyEqu => FaultNumber::FaultyEqu,
            ValueFault::Arithmetic => FaultNumber::Arithmetic,
            ValueFault::NoPartner => FaultNumber::NoPartner,
        }
    }
}
