//! Bodies with the same high half.

ghost use Rattle.std.specs.Prelude.{◌≡◌, IsTrue};
ghost use Rattle.rv_program.specs.Pairs.{pcrel_high_of};

use rv_expr::{Expr, Node};
use rv_program::highs::pcrel_high;
use rv_stmt::Body;

// Whether two expressions are the same, operand by operand.
fn are_same(expression: &Expr, other: &Expr) -> bool
    ensures { IsTrue result → expression.now ≡ other.now }
{
    match (&expression.node, &other.node) {
        (Node::Number(value), Node::Number(another)) => value == another,
        (Node::Symbol(name), Node::Symbol(another)) => name.bytes() == another.bytes(),
        (Node::Local(number, direction), Node::Local(another, way)) => {
            number == another && direction == way
        }
        (Node::Here, Node::Here) => true,
        (Node::Unary(op, operand), Node::Unary(sign, another)) => {
            op == sign && are_same(operand, another)
        }
        (Node::Binary(op, left, right), Node::Binary(sign, first, second)) => {
            op == sign && are_same(left, first) && are_same(right, second)
        }
        _ => false,
    }
}

/// Whether neither of two bodies is a high half, or both have the same expression.
pub fn are_same_highs(body: &Body, other: &Body) -> bool
    ensures { IsTrue result → pcrel_high_of body.now ≡ pcrel_high_of other.now }
{
    match (pcrel_high(body), pcrel_high(other)) {
        (None, None) => true,
        (Some(expression), Some(another)) => are_same(expression, another),
        _ => false,
    }
}
