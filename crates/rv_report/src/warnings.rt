//! Warnings: what a line may do that its writer did not mean.

ghost use Rattle.std.specs.Prelude.{◌≡◌, [], ◌++◌, option_map, OnOk};
ghost use Rattle.rv_report.specs.Warnings.{first_warning, is_label, label_in, label_of_operand, warning_about, warning_message, warning_of, warning_seen};

use crate::wanted::takes_csr;
use rv_expr::{Expr, Node};
use rv_list::{DefinitionPlace, View};
use rv_show::Text;
use rv_stmt::{Operand, OperandValue, Role, Stmt};
use rv_text::Span;
use std::alloc::AllocError;

/// A warning about a line: a label gives the number of a control and status register.
#[derive(Clone, Copy)]
pub struct Warning<'a> {
    /// The operand that uses the label.
    pub span: Span,
    /// The label.
    pub label: &'a [u8],
}

// Whether a name is defined by a label.
fn is_label(place: DefinitionPlace) -> bool
    ensures { result ≡ is_label place }
{
    match place {
        DefinitionPlace::Label(_, _) => true,
        DefinitionPlace::Nowhere | DefinitionPlace::Equ(_) => false,
    }
}

// The first label that an expression uses.
fn label_in<'a, V: View>(expression: &'a Expr, view: &V) -> Option<&'a [u8]>
    ensures { option_map (λ t. t.now) result ≡ label_in (V.shown view.now) expression.now }
{
    match &expression.node {
        Node::Symbol(name) => {
            if is_label(view.definition(name.bytes())) {
                Some(name.bytes())
            } else {
                None
            }
        }
        Node::Number(_) | Node::Local(_, _) | Node::Here => None,
        Node::Unary(_, operand) => label_in(operand, view),
        Node::Binary(_, left, right) => match label_in(left, view) {
            Some(label) => Some(label),
            None => label_in(right, view),
        },
    }
}

// The label in an operand, if it is an immediate.
fn label_of_operand<'a, V: View>(role: Role, value: &'a OperandValue, view: &V) -> Option<&'a [u8]>
    ensures { option_map (λ t. t.now) result ≡ label_of_operand (V.shown view.now) role value.now }
{
    match (role, value) {
        (Role::Immediate, OperandValue::Plain(expression)) => label_in(expression, view),
        _ => None,
    }
}

// The warning about an operand.
fn warning_about<'a, V: View>(operand: &'a Operand, view: &V) -> Option<Warning<'a>>
    ensures { option_map warning_seen result ≡ warning_about (V.shown view.now) operand.now }
{
    match label_of_operand(operand.role, &operand.value, view) {
        Some(label) => Some(Warning {
            span: operand.span,
            label,
        }),
        None => None,
    }
}

// The first warning about some operands.
fn first_warning<'a, V: View>(mut operands: &'a [Operand], view: &V) -> Option<Warning<'a>>
    ensures { option_map warning_seen result ≡ first_warning (V.shown view.now) operands.entry.now }
{
    'operands: while let [operand, rest @ ..] = operands {
        let warning = warning_about(operand, view);
        if warning.is_some() {
            return warning;
        }
        operands = rest;
    }
    None
}

/// The warning about a line of a text, by its statement, if there is one: the operand for the number of a control and status register
/// uses a label. A line has at most one such operand.
pub fn find_warning<'a, V: View>(view: &V, stmt: &'a Stmt) -> Option<Warning<'a>>
    ensures { option_map warning_seen result ≡ warning_of (V.shown view.now) stmt.now.body }
{
    if takes_csr(&stmt.body) {
        first_warning(stmt.body.operands(), view)
    } else {
        None
    }
}

/// Appends what a warning says.
#[tactic(auto, unfolding(crate::specs::Warnings::warning_message))]
pub fn push_warning_message(out: &mut Text, label: &[u8]) -> Result<(), AllocError>
    ensures { OnOk result (out.new ≡ out.old ++ warning_message label.now) }
{
    out.push_about(
        b"",
        label,
        b" is a label: its address is taken as the number of the register; .equ gives such a number a name",
    )
}
