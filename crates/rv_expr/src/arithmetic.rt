//! The operators on whole numbers from -2^63 to 2^63 - 1. None is a fault of arithmetic.

ghost use Rattle.std.specs.Prelude.{◌≡◌, ◌<◌, ◌^◌, pos};
ghost use Rattle.rv_expr.specs.Arithmetic.{count_of, quotient, remainder, shifted_left, shifted_right, apply, apply_unary};

use crate::tree::{BinaryOp, UnaryOp};

// The quotient, rounded toward zero.
#[tactic(auto, using(crate::proofs::Fitting::fitting_is))]
fn quotient(x: i64, y: i64) -> Option<i64>
    ensures { result ≡ quotient x y }
{
    x.checked_div(y)
}

// What is left of the dividend. That of -2^63 by -1 is 0, though their quotient is out of range.
fn remainder(x: i64, y: i64) -> Option<i64>
    ensures { result ≡ remainder x y }
{
    if y == 0 {
        None
    } else {
        Some(x.wrapping_rem(y))
    }
}

// 2^count.
fn power_of_two(count: u32) -> i64
    requires { count < 63 }
    ensures { result ≡ pos (2 ^ count) }
{
    1 << count
}

// The count of a shift.
fn shift_count(y: i64) -> Option<u32>
    ensures { result ≡ count_of y }
{
    u32::try_from(y).ok().filter(|count| *count < 64)
}

// The number times 2^count; 2^63 itself is out of range.
#[tactic(auto, using(crate::proofs::Fitting::fitting_is))]
fn shifted_left(x: i64, y: i64) -> Option<i64>
    ensures { result ≡ shifted_left x y }
{
    let count = shift_count(y)?;
    if count < 63 {
        return x.checked_mul(power_of_two(count));
    }
    match x {
        0 => Some(0),
        -1 => Some(i64::MIN),
        _ => None,
    }
}

// The number divided by 2^count, rounded down.
fn shifted_right(x: i64, y: i64) -> Option<i64>
    ensures { result ≡ shifted_right x y }
{
    Some(x >> shift_count(y)?)
}

// What a unary operator gives.
#[tactic(auto, using(crate::proofs::Fitting::fitting_is))]
pub(crate) fn apply_unary(op: UnaryOp, x: i64) -> Option<i64>
    ensures { result ≡ apply_unary op x }
{
    match op {
        UnaryOp::Neg => x.checked_neg(),
        UnaryOp::Not => Some(!x),
    }
}

// What an operator between two operands gives.
#[tactic(auto, using(crate::proofs::Fitting::fitting_is))]
pub(crate) fn apply(op: BinaryOp, x: i64, y: i64) -> Option<i64>
    ensures { result ≡ apply op x y }
{
    match op {
        BinaryOp::Mul => x.checked_mul(y),
        BinaryOp::Div => quotient(x, y),
        BinaryOp::Rem => remainder(x, y),
        BinaryOp::Shl => shifted_left(x, y),
        BinaryOp::Shr => shifted_right(x, y),
        BinaryOp::And => Some(x & y),
        BinaryOp::Or => Some(x | y),
        BinaryOp::Xor => Some(x ^ y),
        BinaryOp::Add => x.checked_add(y),
        BinaryOp::Sub => x.checked_sub(y),
    }
}
