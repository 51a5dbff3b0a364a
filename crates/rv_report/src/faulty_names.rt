//! The name that an operand has no value for.

ghost use Rattle.std.specs.Prelude.{◌≡◌, ◌++◌, option_map, OnOk};
ghost use Rattle.rv_report.specs.FaultyNames.{direction_text, faulty_label, faulty_name, faulty_name_of, faulty_name_of_value, low_label_of, low_label_of_value, name_text, name_used, unless_valued};

use rv_expr::{Direction, Expr, LabelReference, Names, Node, ValueFault};
use rv_show::Text;
use rv_stmt::{Operand, OperandValue};
use std::alloc::AllocError;

/// A name that an operand uses.
#[derive(Clone, Copy)]
pub enum UsedName<'a> {
    /// A symbol.
    Symbol(&'a [u8]),
    /// A local label, by its number and where it is looked for.
    Local(u16, Direction),
    /// The address of the line.
    Here,
}

// A name, if it has no value.
fn unless_valued(value: Result<i64, ValueFault>, name: UsedName<'_>) -> Option<UsedName<'_>>
    ensures { option_map name_used result ≡ unless_valued value (name_used name.entry) }
{
    match value {
        Ok(_) => None,
        Err(_) => Some(name),
    }
}

// The first name of an expression without a value of its own.
fn faulty_name<'a, N: Names>(expression: &'a Expr, names: &N, here: u32) -> Option<UsedName<'a>>
    ensures { option_map name_used result ≡ faulty_name (N.environment names.now here) expression.now }
{
    match &expression.node {
        Node::Number(_) => None,
        Node::Symbol(name) => {
            let name = name.bytes();
            unless_valued(names.symbol(here, name), UsedName::Symbol(name))
        }
        Node::Local(number, direction) => unless_valued(
            names.local(here, *number, *direction),
            UsedName::Local(*number, *direction),
        ),
        Node::Here => unless_valued(names.here(here), UsedName::Here),
        Node::Unary(_, operand) => faulty_name(operand, names, here),
        Node::Binary(_, left, right) => match faulty_name(left, names, here) {
            Some(name) => Some(name),
            None => faulty_name(right, names, here),
        },
    }
}

// The label of a low half.
fn used_label(label: &LabelReference) -> UsedName<'_>
    ensures { name_used result ≡ label.now }
{
    match label {
        LabelReference::Symbol(name) => UsedName::Symbol(name.bytes()),
        LabelReference::Local(number, direction) => UsedName::Local(*number, *direction),
        LabelReference::Here => UsedName::Here,
    }
}

// The label of a low half, if it has no definition.
fn faulty_label<'a, N: Names>(
    label: &'a LabelReference,
    names: &N,
    here: u32,
) -> Option<UsedName<'a>>
    ensures { option_map name_used result ≡ faulty_label (N.environment names.now here) label.now }
{
    match label {
        LabelReference::Symbol(name) => {
            let name = name.bytes();
            unless_valued(names.symbol(here, name), UsedName::Symbol(name))
        }
        LabelReference::Local(number, direction) => unless_valued(
            names.local(here, *number, *direction),
            UsedName::Local(*number, *direction),
        ),
        LabelReference::Here => Some(UsedName::Here),
    }
}

// The first name of an operand's value without a value of its own.
fn faulty_name_of_value<'a, N: Names>(
    value: &'a OperandValue,
    names: &N,
    here: u32,
) -> Option<UsedName<'a>>
    ensures { option_map name_used result ≡ faulty_name_of_value (N.environment names.now here) value.now }
{
    match value {
        OperandValue::Plain(expression) => faulty_name(expression, names, here),
        OperandValue::High(expression) => faulty_name(expression, names, here),
        OperandValue::Low(expression) => faulty_name(expression, names, here),
        OperandValue::PcrelHigh(expression) => faulty_name(expression, names, here),
        OperandValue::PcrelLow(label) => faulty_label(label, names, here),
    }
}

/// The first name of an operand, in the order of evaluation, that has no value itself. There is none where the label of a
/// low half is defined, and the fault is that of its high half.
pub fn faulty_name_of<'a, N: Names>(
    operand: Option<&'a Operand>,
    names: &N,
    here: u32,
) -> Option<UsedName<'a>>
    ensures { option_map name_used result ≡ faulty_name_of (N.environment names.now here) (option_map (λ o. o.now) operand.entry) }
{
    match operand {
        Some(operand) => faulty_name_of_value(&operand.value, names, here),
        None => None,
    }
}

/// The label of a low half.
pub fn low_label_of(operand: Option<&Operand>) -> Option<UsedName<'_>>
    ensures { option_map name_used result ≡ low_label_of (option_map (λ o. o.now) operand.entry) }
{
    match operand {
        Some(operand) => match &operand.value {
            OperandValue::PcrelLow(label) => Some(used_label(label)),
            _ => None,
        },
        None => None,
    }
}

// The letter of a direction.
fn direction_text(direction: Direction) -> &'static [u8]
    ensures { result.now ≡ direction_text direction }
{
    match direction {
        Direction::Back => b"b",
        Direction::Forward => b"f",
    }
}

/// Appends a name as it is written.
pub fn push_name(out: &mut Text, name: UsedName<'_>) -> Result<(), AllocError>
    ensures { OnOk result (out.new ≡ out.old ++ name_text (name_used name.entry)) }
{
    match name {
        UsedName::Symbol(name) => out.push(name),
        UsedName::Local(number, direction) => {
            out.push_number(number)?;
            out.push(direction_text(direction))
        }
        UsedName::Here => out.push(b"."),
    }
}
