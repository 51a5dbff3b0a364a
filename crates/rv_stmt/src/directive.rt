//! The bodies of lines with a directive.

ghost use Rattle.std.specs.Prelude.{◌≡◌, ◌+◌, ◌<◌, ◌^◌};
ghost use Rattle.rv_stmt.specs.Data.{data_width, values_size, data_size};
ghost use Rattle.rv_stmt.specs.Statement.{operands_of_content};

use crate::operand::{Operand, Role};
use rv_expr::Name;
use rv_text::{Sequence, Span};

/// A directive whose operands are expressions.
#[derive(Drop)]
pub struct Directive {
    /// The name as it is written.
    pub name: Span,
    pub operands: Sequence<Operand>,
}

/// What stands among data.
#[derive(Drop)]
pub enum DataContent {
    /// Values, each of the width that its role says.
    Values(Sequence<Operand>),
    /// The bytes of strings.
    Bytes(Sequence<u8>),
}

/// The data that a line gives.
#[derive(Drop)]
pub struct Data {
    /// The name of the directive as it is written.
    pub name: Span,
    pub content: DataContent,
}

/// The definition of a symbol by an expression.
#[derive(Drop)]
pub struct Definition {
    pub symbol: Name,
    /// Where the symbol stands.
    pub span: Span,
    /// The one operand, which gives the value.
    pub operands: Sequence<Operand>,
}

// How many bytes a value takes in its role.
fn data_width(role: Role) -> u32
    ensures { result ≡ data_width role }
{
    match role {
        Role::Data(width) => width.bytes(),
        _ => 0,
    }
}

// How many bytes values take together.
fn values_size(mut operands: &[Operand]) -> u32
    requires { values_size operands.now < 2 ^ 32 }
    ensures { result ≡ values_size operands.entry.now }
{
    let mut size = 0;
    while let [operand, rest @ ..] = operands {
        size += data_width(operand.role);
        operands = rest;
    }
    size
}

impl Data {
    /// The operands whose values expressions give.
    pub fn operands(&self) -> &[Operand]
        ensures { result.now ≡ operands_of_content self.now.content }
    {
        match &self.content {
            DataContent::Values(operands) => operands.as_slice(),
            DataContent::Bytes(_) => &[],
        }
    }

    /// How many bytes they are. (The data of a line of 1,000 bytes are at most 4,000.)
    pub fn size(&self) -> u32
        requires { data_size self.now.content < 2 ^ 32 }
        ensures { result ≡ data_size self.now.content }
    {
        match &self.content {
            DataContent::Values(operands) => values_size(operands.as_slice()),
            DataContent::Bytes(bytes) => bytes.as_slice().len() as u32,
        }
    }
}
