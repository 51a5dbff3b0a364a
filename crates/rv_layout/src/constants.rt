//! The operands that have to be constants.

ghost use Rattle.std.specs.Prelude.{◌≡◌, ◌-◌, ◌<◌, ◌≤◌, ◌+◌, ◌^◌, Some, None, IfSome};
ghost use Rattle.rv_layout.specs.Shapes.{constants, is_size, size_operand, value_of_constant, value_at, constant_of_operand, count_of_value};

use crate::consts::Consts;
use rv_expr::{Direction, LabelReference, Names, ValueFault, value};
use rv_stmt::{Operand, OperandValue, Role};
use rv_text::{Count, Fault, Span};

// What a constant may hold: numbers, and the names that are constants themselves.
#[derive(Drop)]
struct Constants<'a, C> {
    consts: &'a C,
}

impl<'a, C: Consts> Names for Constants<'a, C> {
    ghost environment = { λ n here. constants (C.constant_of n.consts.now) };

    fn symbol(&self, _here: u32, name: &[u8]) -> Result<i64, ValueFault> {
        match self.consts.constant(name) {
            Some(value) => Ok(value),
            None => Err(ValueFault::NotConstant),
        }
    }

    fn local(&self, _here: u32, _number: u16, _direction: Direction) -> Result<i64, ValueFault> {
        Err(ValueFault::NotConstant)
    }

    fn here(&self, _here: u32) -> Result<i64, ValueFault> {
        Err(ValueFault::NotConstant)
    }

    fn paired_high(&self, _here: u32, _label: &LabelReference) -> Result<i64, ValueFault> {
        Err(ValueFault::NotConstant)
    }
}

// Whether an operand has to be a constant, since the size of its line follows from it.
fn is_size(role: Role) -> bool
    ensures { result ≡ is_size role }
{
    match role {
        Role::Constant | Role::Size | Role::Alignment(_) => true,
        Role::Immediate
        | Role::SourceImmediate
        | Role::Target
        | Role::PairTarget
        | Role::Data(_)
        | Role::FillByte
        | Role::Definition => false,
    }
}

/// The first operand from which the size of its line follows.
pub(crate) fn size_operand(mut operands: &[Operand]) -> Option<&Operand>
    ensures some { IfSome result (λ operand. size_operand operands.entry.now ≡ Some operand.now) }
    ensures none { result ≡ None → size_operand operands.entry.now ≡ None }
{
    while let [operand, rest @ ..] = operands {
        if is_size(operand.role) {
            return Some(operand);
        }
        operands = rest;
    }
    None
}

// The value of an operand that has to be a constant. A modifier gives none.
fn value_of_constant<C: Consts, N: Count>(
    operand: &OperandValue,
    consts: &C,
    count: &mut N,
) -> Result<i64, ValueFault>
    requires { N.valued_count count.old < 2 ^ 64 - 1 }
    ensures value { result ≡ value_of_constant (constants (C.constant_of consts.now)) operand.now }
    ensures least { N.valued_count count.old ≤ N.valued_count count.new }
    ensures valued { N.valued_count count.new ≤ N.valued_count count.old + count_of_value operand.now }
    ensures parsed { N.parsed_count count.new ≡ N.parsed_count count.old }
    ensures encoded { N.encoded_count count.new ≡ N.encoded_count count.old }
{
    match operand {
        OperandValue::Plain(expression) => value(expression, &Constants { consts }, 0, count),
        _ => Err(ValueFault::NotConstant),
    }
}

/// The value of an operand at a span, or its fault.
pub fn value_at(span: Span, value: Result<i64, ValueFault>) -> Result<i64, Fault>
    ensures { result ≡ value_at span value }
{
    match value {
        Ok(value) => Ok(value),
        Err(fault) => Err(Fault {
            number: fault.line_fault(),
            span,
        }),
    }
}

/// The constant that an operand is, or the first fault of its value, at the operand.
pub(crate) fn constant_of_operand<C: Consts, N: Count>(
    operand: &Operand,
    consts: &C,
    count: &mut N,
) -> Result<i64, Fault>
    requires { N.valued_count count.old < 2 ^ 64 - 1 }
    ensures value { result ≡ constant_of_operand (constants (C.constant_of consts.now)) operand.now }
    ensures least { N.valued_count count.old ≤ N.valued_count count.new }
    ensures valued { N.valued_count count.new ≤ N.valued_count count.old + count_of_value operand.now.value }
    ensures parsed { N.parsed_count count.new ≡ N.parsed_count count.old }
    ensures encoded { N.encoded_count count.new ≡ N.encoded_count count.old }
{
    value_at(
        operand.span,
        value_of_constant(&operand.value, consts, count),
    )
}
