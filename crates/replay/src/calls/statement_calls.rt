//! Calls of `rv_expr` and `rv_stmt`.

use crate::calls::call::Answer;
use rv_expr::{BinaryOp, Expr, Name, Node, ReadFault, UnaryOp, read};
use rv_stmt::{
    Body, Data, DataContent, Instruction, LabelName, LabelSlice, Operand, OperandValue, Role,
    read_line,
};
use rv_text::{Span, Tally, tokens};
use std::alloc::{AllocError, Global};

// The longest name that is kept in place, and one that is longer.
const NAMES: [&[u8]; 2] = [b"fourteen_bytes", b"fifteen_bytes__"];

// `Name::of` some bytes.
fn has_bytes(alloc: Global, bytes: &[u8]) -> Result<bool, AllocError> {
    let name = Name::of(alloc, bytes)?;
    Ok(name.bytes() == bytes)
}

/// `Name::of` a name that is kept in place, and of one that is not.
pub fn name(alloc: Global) -> Answer {
    let [short, long] = NAMES;
    let Ok(is_short) = has_bytes(alloc, short) else {
        return Answer::Refused;
    };
    match has_bytes(alloc, long) {
        Ok(is_long) => Answer::of(is_short && is_long),
        Err(_) => Answer::Refused,
    }
}

// Whether this is the symbol.
fn is_symbol(found: &Expr, symbol: &[u8]) -> bool {
    matches!(&found.node, Node::Symbol(name) if name.bytes() == symbol)
}

// Whether this is the number.
fn is_number(found: &Expr, number: i64) -> bool {
    matches!(&found.node, Node::Number(value) if *value == number)
}

// Whether this is `-.`.
fn is_minus_here(found: &Expr) -> bool {
    match &found.node {
        Node::Unary(UnaryOp::Neg, operand) => matches!(operand.node, Node::Here),
        _ => false,
    }
}

// Whether this is `2 + -.`.
fn is_sum(found: &Expr) -> bool {
    match &found.node {
        Node::Binary(BinaryOp::Add, left, right) => is_number(left, 2) && is_minus_here(right),
        _ => false,
    }
}

// Whether this is `(2 + -.) * 3`.
fn is_product(found: &Expr) -> bool {
    match &found.node {
        Node::Binary(BinaryOp::Mul, left, right) => is_sum(left) && is_number(right, 3),
        _ => false,
    }
}

// Whether this is `symbol - (2 + -.) * 3`.
fn is_difference(found: &Expr) -> bool {
    match &found.node {
        Node::Binary(BinaryOp::Sub, left, right) => is_symbol(left, b"symbol") && is_product(right),
        _ => false,
    }
}

/// `read` of an expression.
pub fn expression(alloc: Global) -> Answer {
    let Ok(tokens) = tokens(alloc, b"symbol - (2 + -.) * 3") else {
        return Answer::Refused;
    };
    match read(alloc, &tokens, 0, tokens.tokens().len()) {
        Ok(expression) => Answer::of(is_difference(&expression)),
        Err(ReadFault::Memory) => Answer::Refused,
        Err(_) => Answer::Wrong,
    }
}

// Whether these are the labels `start: 1:`.
fn are_labels(found: &LabelSlice<'_>) -> bool {
    let Some((start, later)) = found.split_first() else {
        return false;
    };
    let Some((one, later)) = later.split_first() else {
        return false;
    };
    matches!(start.name, LabelName::Symbol(name) if name == b"start".as_slice())
        && matches!(one.name, LabelName::Local(1))
        && later.is_empty()
}

// Whether this is the expression `x + 4`.
fn is_offset(found: &Expr) -> bool {
    match &found.node {
        Node::Binary(BinaryOp::Add, left, right) => is_symbol(left, b"x") && is_number(right, 4),
        _ => false,
    }
}

// Whether these are the operands of `lw a0, x + 4(a1)`.
fn are_operands(found: &[Operand]) -> bool {
    match found {
        [
            Operand {
                value: OperandValue::Plain(offset),
                role: Role::Immediate,
                ..
            },
        ] => is_offset(offset),
        _ => false,
    }
}

// Whether this is the instruction `lw a0, x + 4(a1)`, its name at byte 10.
fn is_load(found: &Instruction) -> bool {
    found.name == Span { from: 10, to: 12 }
        && found.fields.rd.number() == 10
        && found.fields.rs1.number() == 11
        && are_operands(found.operands.as_slice())
}

/// `read_line` of an instruction with labels.
pub fn instruction(alloc: Global) -> Answer {
    let Ok(statement) = read_line(alloc, b"start: 1: lw a0, x + 4(a1)", &mut Tally::new()) else {
        return Answer::Refused;
    };
    match &statement.body {
        Body::Instr(load) => {
            Answer::of(are_labels(&statement.labels.as_slice()) && is_load(load))
        },
        _ => Answer::Wrong,
    }
}

// Whether these are the bytes of the strings `"hello, "` and `"world"`, each with its zero.
fn are_strings(found: &Data) -> bool {
    match &found.content {
        DataContent::Bytes(bytes) => bytes.as_slice() == b"hello, \0world\0".as_slice(),
        DataContent::Values(_) => false,
    }
}

/// `read_line` of a directive with strings.
pub fn directive(alloc: Global) -> Answer {
    let Ok(statement) = read_line(alloc, b".asciz \"hello, \", \"world\"", &mut Tally::new()) else {
        return Answer::Refused;
    };
    match &statement.body {
        Body::Emit(data) => Answer::of(statement.labels.is_empty() && are_strings(data)),
        _ => Answer::Wrong,
    }
}
