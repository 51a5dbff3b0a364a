//! The value of an expression.

ghost use Rattle.std.specs.Prelude.{◌≡◌, ℕ, ℤ, Result, ◌+◌, ◌-◌, ◌<◌, ◌^◌};
ghost use Rattle.rv_expr.specs.Value.{Environment, value_of};

use crate::arithmetic::{apply, apply_unary};
use crate::faults::ValueFault;
use crate::tree::{Direction, Expr, LabelReference, Node};
use rv_text::Count;

/// What names give on one line of a text. Every call is given `here`, the address of that line.
pub trait Names {
    /// What symbols, local labels, `.` and the labels of `%pcrel_lo` give at an address: each a value, or why there is
    /// none.
    ghost environment: { Self → ℕ → Environment };

    /// The value of a symbol.
    fn symbol(&self, here: u32, name: &[u8]) -> Result<i64, ValueFault>
        ensures { result ≡ (environment self.now here).symbol name.now };

    /// The address of a local label.
    fn local(&self, here: u32, number: u16, direction: Direction) -> Result<i64, ValueFault>
        ensures { result ≡ (environment self.now here).local number direction };

    /// The value of `.`: the line's address, unless what is computed has to be a constant.
    fn here(&self, here: u32) -> Result<i64, ValueFault>
        ensures { result ≡ (environment self.now here).here };

    /// For the label of `%pcrel_lo`: the operand of the `%pcrel_hi` at that label, less the address of the line that
    /// holds it, modulo 2^32.
    fn paired_high(&self, here: u32, label: &LabelReference) -> Result<i64, ValueFault>
        ensures { result ≡ (environment self.now here).paired_high label.now };
}

// The value of an expression, uncounted.
fn evaluate<N: Names>(expression: &Expr, names: &N, here: u32) -> Result<i64, ValueFault>
    ensures { result ≡ value_of (N.environment names.now here) expression.now }
{
    match &expression.node {
        Node::Number(n) => Ok(*n),
        Node::Symbol(name) => names.symbol(here, name.bytes()),
        Node::Local(number, direction) => names.local(here, *number, *direction),
        Node::Here => names.here(here),
        Node::Unary(op, operand) => {
            let x = evaluate(operand, names, here)?;
            apply_unary(*op, x).ok_or(ValueFault::Arithmetic)
        }
        Node::Binary(op, left, right) => {
            let x = evaluate(left, names, here)?;
            let y = evaluate(right, names, here)?;
            apply(*op, x, y).ok_or(ValueFault::Arithmetic)
        }
    }
}

/// The value of an expression on a line at the address `here`, or its first fault: that of the left operand, then that
/// of the right one, then that of the operator. Each call is counted once, whatever comes of it.
pub fn value<N: Names, C: Count>(
    expression: &Expr,
    names: &N,
    here: u32,
    count: &mut C,
) -> Result<i64, ValueFault>
    requires { C.valued_count count.old < 2 ^ 64 - 1 }
    ensures value { result ≡ value_of (N.environment names.now here) expression.now }
    ensures valued { C.valued_count count.new ≡ C.valued_count count.old + 1 }
    ensures parsed { C.parsed_count count.new ≡ C.parsed_count count.old }
    ensures encoded { C.encoded_count count.new ≡ C.encoded_count count.old }
{
    count.valued();
    evaluate(expression, names, here)
}
