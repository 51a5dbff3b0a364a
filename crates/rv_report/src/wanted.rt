//! What a statement wants where a name stands that is a register's.

ghost use Rattle.std.specs.Prelude.{◌≡◌, ◌++◌, OnOk};
ghost use Rattle.rv_ops.specs.Table.{shape_of};
ghost use Rattle.rv_report.specs.Lines.{line_of};
ghost use Rattle.rv_report.specs.Messages.{operand_of_line};
ghost use Rattle.rv_report.specs.Wanted.{is_csr_shape, register_given, takes_csr, wanted_in, wanted_of, wanted_text};

use crate::advice::{Topic, advice};
use crate::faulty_line::{FaultyLine, operand_in};
use rv_ops::{Op, Shape, shape};
use rv_show::Text;
use rv_stmt::{Body, Role};
use rv_text::Span;
use std::alloc::AllocError;

/// What an operand has to be.
#[derive(Clone, Copy, PartialEq, Eq)]
pub enum Wanted {
    Number,
    Address,
    /// A control and status register, by its name or its number.
    Csr,
}

// Whether the value of an operation is the number of a control and status register.
pub fn takes_csr_number(op: Op) -> bool
    ensures { result ≡ is_csr_shape (shape_of op) }
{
    matches!(shape(op), Shape::Csr | Shape::CsrImmediate)
}

/// Whether the value of a body's operation is the number of a control and status register.
pub fn takes_csr(body: &Body) -> bool
    ensures { result ≡ takes_csr body.now }
{
    match body {
        Body::Instr(instruction) => takes_csr_number(instruction.op),
        Body::Pseudo(instruction) => takes_csr_number(instruction.op),
        _ => false,
    }
}

// What an operand has to be in its role.
fn wanted_in(body: &Body, role: Role) -> Wanted
    ensures { result ≡ wanted_in body.now role }
{
    match role {
        Role::Target | Role::PairTarget => Wanted::Address,
        Role::Immediate if takes_csr(body) => Wanted::Csr,
        _ => Wanted::Number,
    }
}

/// What the operand at a span of a line has to be.
pub fn wanted_at(line: &FaultyLine<'_>, span: Span) -> Wanted
    ensures { result ≡ wanted_of line.now.stmt.now.body (operand_of_line (line_of line.now) span) }
{
    match operand_in(line, span) {
        Some(operand) => wanted_in(&line.stmt.body, operand.role),
        None => Wanted::Number,
    }
}

// What is wanted, as the end of a sentence.
fn wanted_text(wanted: Wanted) -> &'static [u8]
    ensures { result.now ≡ wanted_text wanted }
{
    match wanted {
        Wanted::Number => b" takes a number here",
        Wanted::Address => b" takes an address here",
        Wanted::Csr => b" takes a control and status register here",
    }
}

/// Appends that a register stands in the place of something else.
#[tactic(auto, unfolding(crate::specs::Wanted::register_given))]
pub fn push_register_given(
    out: &mut Text,
    statement: &[u8],
    wanted: Wanted,
    name: &[u8],
) -> Result<(), AllocError>
    ensures { OnOk result (out.new ≡ out.old ++ register_given statement.now wanted name.now) }
{
    out.push_about(b"", name, b" is a register; ")?;
    out.push_about(b"", statement, wanted_text(wanted))?;
    out.push(advice(Topic::RegisterGiven, statement))
}
