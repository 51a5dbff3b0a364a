//! The values of operands: expressions, with or without a modifier.

ghost use Rattle.std.specs.Prelude.{◌≡◌, IfOk, option_and_then};
ghost use Rattle.rv_stmt.specs.Tokens.{identifier_at};
ghost use Rattle.rv_stmt.specs.Values.{expression, plain, modifier_named, modifier_of_shape, label_reference, value_of_modifier, modified_value, immediate};

use crate::modifiers::{Modifier, modifier_named, takes_modifier};
use crate::operand::OperandValue;
use crate::reading::Attempt;
use crate::token_range::TokenRange;
use rv_expr::{Expr, LabelReference, ReadFault};
use rv_ops::Shape;
use rv_text::FaultNumber;
use std::alloc::{AllocError, Global};

// The expression that some tokens are.
fn expression(alloc: Global, run: &TokenRange<'_>) -> Attempt<Expr>
    ensures { IfOk result (λ r. r ≡ expression run.now) }
{
    match run.read(alloc) {
        Ok(expr) => Ok(Ok(expr)),
        Err(ReadFault::Deep) => Ok(Err(FaultNumber::TooDeep)),
        Err(ReadFault::Operand) => Ok(Err(FaultNumber::BadOperand)),
        Err(ReadFault::Memory) => Err(AllocError),
    }
}

/// The value that some tokens are, without a modifier.
pub fn plain(alloc: Global, run: &TokenRange<'_>) -> Attempt<OperandValue>
    ensures { IfOk result (λ r. r ≡ plain run.now) }
{
    Ok(expression(alloc, run)?.map(OperandValue::Plain))
}

// The modifier whose name stands after a `%`, if the shape takes it.
fn modifier_of(shape: Shape, run: &TokenRange<'_>) -> Option<Modifier>
    ensures { result ≡ modifier_of_shape shape (option_and_then modifier_named (identifier_at run.now 1)) }
{
    let name = run.identifier_at(1)?;
    let modifier = modifier_named(name)?;
    if takes_modifier(shape, modifier) {
        Some(modifier)
    } else {
        None
    }
}

// The symbol, the local label or the `.` that one token is.
fn label_reference(alloc: Global, run: &TokenRange<'_>) -> Attempt<LabelReference>
    ensures { IfOk result (λ r. r ≡ label_reference run.now) }
{
    if run.len() != 1 {
        return Ok(Err(FaultNumber::BadOperand));
    }
    match expression(alloc, run)? {
        Ok(expr) => Ok(expr.into_label().ok_or(FaultNumber::BadOperand)),
        Err(fault) => Ok(Err(fault)),
    }
}

// What a modifier makes of an expression or a label.
fn value_of_modifier(
    alloc: Global,
    modifier: Modifier,
    run: &TokenRange<'_>,
) -> Attempt<OperandValue>
    ensures { IfOk result (λ r. r ≡ value_of_modifier modifier run.now) }
{
    Ok(match modifier {
        Modifier::High => expression(alloc, run)?.map(OperandValue::High),
        Modifier::Low => expression(alloc, run)?.map(OperandValue::Low),
        Modifier::PcrelHigh => expression(alloc, run)?.map(OperandValue::PcrelHigh),
        Modifier::PcrelLow => label_reference(alloc, run)?.map(OperandValue::PcrelLow),
    })
}

/// The value `%name(..)`, with a modifier that the shape takes.
pub fn modified_value(alloc: Global, shape: Shape, run: &TokenRange<'_>) -> Attempt<OperandValue>
    ensures { IfOk result (λ r. r ≡ modified_value shape run.now) }
{
    let length = run.len();
    if !(length >= 4 && run.punctuation_at(b"(", 2) && run.punctuation_at(b")", length - 1)) {
        return Ok(Err(FaultNumber::BadOperand));
    }
    match modifier_of(shape, run) {
        Some(modifier) => value_of_modifier(alloc, modifier, &run.part(3, length - 1)),
        None => Ok(Err(FaultNumber::BadOperand)),
    }
}

/// The value of an immediate: an expression, or one with a modifier that the shape takes.
pub fn immediate(alloc: Global, shape: Shape, run: &TokenRange<'_>) -> Attempt<OperandValue>
    ensures { IfOk result (λ r. r ≡ immediate shape run.now) }
{
    if run.punctuation_at(b"%", 0) {
        modified_value(alloc, shape, run)
    } else {
        plain(alloc, run)
    }
}
