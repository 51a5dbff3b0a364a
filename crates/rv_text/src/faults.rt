//! What can be wrong with a line.

ghost use Rattle.std.specs.Prelude.{◌≡◌};
ghost use Rattle.rv_text.specs.Faults.{fault_number};

use crate::lexeme::Span;

/// What is wrong, from the lexical faults to those of values and places. Each has a number, by which it is reported
/// and by which the least of several is chosen.
#[derive(Clone, Copy, Debug, PartialEq, Eq)]
pub enum FaultNumber {
    /// A byte that begins no token.
    BadByte = 1,
    /// A run of digits and letters that is neither a number nor a local label, or a number that is too large.
    BadNumber = 2,
    /// A wrong escape, a missing end, or a `'` that begins no character.
    BadString = 3,
    /// The body of a statement begins with no identifier.
    NoStatement = 4,
    /// No instruction and no directive has the name.
    UnknownName = 5,
    /// The name takes another number of operands.
    OperandCount = 6,
    /// No register stands where one has to stand.
    BadRegister = 7,
    /// The form does not take the register.
    RegisterRange = 8,
    /// Another wrong shape: of an expression, a modifier, a set, a string or a name.
    BadOperand = 9,
    /// More than 64 parentheses are open.
    TooDeep = 10,
    /// A size that is not constant.
    NotConstant = 11,
    /// A name or a local label without a definition.
    Undefined = 12,
    /// A constant that names a constant of a later line, or itself.
    LaterEqu = 13,
    /// The name of a constant that is faulty.
    FaultyEqu = 14,
    /// A value that cannot be computed.
    Arithmetic = 15,
    /// A value outside the range of its place.
    Range = 16,
    /// A value in range that is not a multiple of what its place asks for.
    Multiple = 17,
    /// The low half of a relative address whose high half is missing.
    NoPartner = 18,
    /// A second definition of a name.
    Duplicate = 19,
    /// An instruction at an odd address.
    OddAddress = 20,
    /// A byte other than 0 in a section that holds none.
    InBss = 21,
}

impl FaultNumber {
    /// The number, from 1 to 21.
    pub fn number(self) -> u8
        ensures { result ≡ fault_number self }
    {
        self as u8
    }
}

/// What is wrong with a line, and the bytes of it at which that is reported.
#[derive(Clone, Copy, Debug, PartialEq, Eq)]
pub struct Fault {
    /// Which fault it is.
    pub number: FaultNumber,
    /// The bytes of the line that are at fault.
    pub span: Span,
}
