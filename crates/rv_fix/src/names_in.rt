//! Whether a line depends on other lines.

ghost use Rattle.std.specs.Prelude.{◌≡◌};
ghost use Rattle.std.specs.List.{list_any};
ghost use Rattle.rv_fix.specs.Alone.{has_names, value_uses_names, uses_names};

use rv_expr::{Expr, Node};
use rv_stmt::{Body, Operand, OperandValue};

// Whether a symbol or a local label stands in an expression.
fn has_names(expression: &Expr) -> bool
    ensures { result ≡ has_names expression.now }
{
    match &expression.node {
        Node::Number(_) | Node::Here => false,
        Node::Symbol(_) | Node::Local(_, _) => true,
        Node::Unary(_, operand) => has_names(operand),
        Node::Binary(_, left, right) => has_names(left) || has_names(right),
    }
}

// Whether the value of an operand depends on other lines.
fn value_uses_names(value: &OperandValue) -> bool
    ensures { result ≡ value_uses_names value.now }
{
    match value {
        OperandValue::Plain(expression)
        | OperandValue::High(expression)
        | OperandValue::Low(expression)
        | OperandValue::PcrelHigh(expression) => has_names(expression),
        OperandValue::PcrelLow(_) => true,
    }
}

// Whether the value of one of the operands does.
fn operands_use_names(mut operands: &[Operand]) -> bool
    ensures { result ≡ list_any (λ o. value_uses_names o.value) operands.entry.now }
{
    while let [operand, rest @ ..] = operands {
        if value_uses_names(&operand.value) {
            return true;
        }
        operands = rest;
    }
    false
}

/// Whether a body uses a symbol, a local label or `%pcrel_lo`. The symbol that an `.equ` defines is no use of it.
pub fn uses_names(body: &Body) -> bool
    ensures { result ≡ uses_names body.now }
{
    operands_use_names(body.operands())
}
