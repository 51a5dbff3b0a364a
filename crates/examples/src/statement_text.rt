//! Statements as text: each label with its span, and then the body.

use rv_expr::{Direction, Expr, LabelReference, Node};
use rv_ops::name_of;
use rv_stmt::{
    Body, Data, DataContent, Definition, Instruction, Label, LabelName, LabelSlice, Operand,
    OperandValue, Stmt,
};
use rv_text::Span;
use std::alloc::{AllocError, Global};
use std::fmt::Write;
use std::test::Fail;

// A name is ASCII.
fn push_name(text: &mut String, name: &[u8]) -> Result<(), AllocError> {
    for byte in name {
        text.push(char::from(*byte))?;
    }
    Ok(())
}

fn push_local(text: &mut String, number: u16, direction: Direction) -> Result<(), AllocError> {
    match direction {
        Direction::Back => write!(text, "{number}b"),
        Direction::Forward => write!(text, "{number}f"),
    }
}

// A node without its operands.
fn push_node(text: &mut String, node: &Node) -> Result<(), AllocError> {
    match node {
        Node::Number(number) => write!(text, "{number}"),
        Node::Symbol(name) => push_name(text, name.bytes()),
        Node::Local(number, direction) => push_local(text, *number, *direction),
        Node::Here => text.push('.'),
        Node::Unary(op, _) => write!(text, "{op:?}"),
        Node::Binary(op, _, _) => write!(text, "{op:?}"),
    }
}

// The expression with its operators after their operands, each part after a space.
fn push_expression(text: &mut String, expr: &Expr) -> Result<(), AllocError> {
    match &expr.node {
        Node::Unary(_, operand) => push_expression(text, operand)?,
        Node::Binary(_, left, right) => {
            push_expression(text, left)?;
            push_expression(text, right)?;
        }
        _ => {}
    }
    text.push(' ')?;
    push_node(text, &expr.node)
}

fn push_label_reference(text: &mut String, label: &LabelReference) -> Result<(), AllocError> {
    match label {
        LabelReference::Symbol(name) => push_name(text, name.bytes()),
        LabelReference::Local(number, direction) => push_local(text, *number, *direction),
        LabelReference::Here => text.push('.'),
    }
}

fn push_modified(text: &mut String, modifier: &str, expr: &Expr) -> Result<(), AllocError> {
    text.push_str(modifier)?;
    push_expression(text, expr)
}

fn push_value(text: &mut String, value: &OperandValue) -> Result<(), AllocError> {
    match value {
        OperandValue::Plain(expr) => push_expression(text, expr),
        OperandValue::High(expr) => push_modified(text, " %hi", expr),
        OperandValue::Low(expr) => push_modified(text, " %lo", expr),
        OperandValue::PcrelHigh(expr) => push_modified(text, " %pcrel_hi", expr),
        OperandValue::PcrelLow(label) => {
            text.push_str(" %pcrel_lo ")?;
            push_label_reference(text, label)
        }
    }
}

// The role, the span and the value.
fn push_operand(text: &mut String, operand: &Operand) -> Result<(), AllocError> {
    let (role, from, to) = (operand.role, operand.span.from, operand.span.to);
    write!(text, " [{role:?} {from}-{to}")?;
    push_value(text, &operand.value)?;
    text.push(']')
}

fn push_operands(text: &mut String, operands: &[Operand]) -> Result<(), AllocError> {
    for operand in operands {
        push_operand(text, operand)?;
    }
    Ok(())
}

fn push_bytes(text: &mut String, bytes: &[u8]) -> Result<(), AllocError> {
    for byte in bytes {
        write!(text, " {byte}")?;
    }
    Ok(())
}

// A kind, and the span of a name.
fn push_kind(text: &mut String, kind: &str, name: Span) -> Result<(), AllocError> {
    write!(text, "{kind} {}-{}", name.from, name.to)
}

// The kind, the span of the mnemonic, the operation, rd, rs1, rs2 and the value.
fn push_instruction(
    text: &mut String,
    kind: &str,
    instruction: &Instruction,
) -> Result<(), AllocError> {
    let op = name_of(instruction.op);
    let fields = &instruction.fields;
    let (rd, rs1, rs2) = (fields.rd.number(), fields.rs1.number(), fields.rs2.number());
    let value = fields.value;
    push_kind(text, kind, instruction.name)?;
    write!(text, " {op} {rd} {rs1} {rs2} {value}")
}

fn push_label(text: &mut String, label: Label<'_>) -> Result<(), AllocError> {
    match label.name {
        LabelName::Symbol(name) => push_name(text, name)?,
        LabelName::Local(number) => write!(text, "{number}")?,
    }
    let (from, to) = (label.span.from, label.span.to);
    write!(text, "@{from}-{to} ")
}

fn push_labels(text: &mut String, mut labels: LabelSlice<'_>) -> Result<(), AllocError> {
    while let Some((label, later)) = labels.split_first() {
        push_label(text, label)?;
        labels = later;
    }
    Ok(())
}

// The kind, the span of the name, and the bytes if they are known.
fn push_data(text: &mut String, data: &Data) -> Result<(), AllocError> {
    match &data.content {
        DataContent::Values(_) => push_kind(text, "data", data.name),
        DataContent::Bytes(bytes) => {
            push_kind(text, "bytes", data.name)?;
            push_bytes(text, bytes.as_slice())
        }
    }
}

// The symbol with its span.
fn push_definition(text: &mut String, definition: &Definition) -> Result<(), AllocError> {
    let (from, to) = (definition.span.from, definition.span.to);
    text.push_str("equ ")?;
    push_name(text, definition.symbol.bytes())?;
    write!(text, "@{from}-{to}")
}

// A body without its operands.
fn push_body(text: &mut String, body: &Body) -> Result<(), AllocError> {
    match body {
        Body::Empty => text.push_str("empty"),
        Body::Ignored => text.push_str("ignored"),
        Body::Instr(instruction) => push_instruction(text, "one", instruction),
        Body::Pseudo(instruction) => push_instruction(text, "pseudo", instruction),
        Body::Emit(data) => push_data(text, data),
        Body::Fill(directive) => push_kind(text, "fill", directive.name),
        Body::Align(directive) => push_kind(text, "align", directive.name),
        Body::Switch(section) => write!(text, "switch {section:?}"),
        Body::Equ(definition) => push_definition(text, definition),
        Body::Faulty(fault) => {
            let number = fault.number.number();
            let (from, to) = (fault.span.from, fault.span.to);
            write!(text, "fault {number} {from}-{to}")
        }
    }
}

fn push_statement(text: &mut String, stmt: &Stmt) -> Result<(), AllocError> {
    push_labels(text, stmt.labels.as_slice())?;
    push_body(text, &stmt.body)?;
    push_operands(text, stmt.body.operands())
}

/// The statement as text.
pub fn text_of(alloc: Global, stmt: &Stmt) -> Result<String, Fail> {
    let mut text = String::new(alloc);
    push_statement(&mut text, stmt)?;
    Ok(text)
}
