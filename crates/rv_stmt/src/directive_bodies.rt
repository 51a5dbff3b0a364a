//! Reads the operands of directives.

ghost use Rattle.std.specs.Prelude.{◌≡◌, [], option_and_then, option_map, Ok, IfOk};
ghost use Rattle.rv_stmt.specs.declared.directive.DataContent.TheVariants.{Values, Bytes};
ghost use Rattle.rv_stmt.specs.declared.operand.Role.TheVariants as role;
ghost use Rattle.rv_stmt.specs.declared.statement.Body.TheVariants.{Emit, Fill, Align, Equ};
ghost use Rattle.rv_stmt.specs.DirectiveBodies.{next_role, operand_in_role, with_operands, first_operand, section_in, directive, symbol_of_text, symbol_in, definition_in, body_of_kind, body_of_form};
ghost use Rattle.rv_stmt.specs.Readings.{and_then};
ghost use Rattle.rv_stmt.specs.Strings.{with_strings};
ghost use Rattle.rv_stmt.specs.Tokens.{one_identifier};

use crate::directive::{Data, DataContent, Definition, Directive};
use crate::directives::{DirectiveForm, DirectiveKind};
use crate::operand::{AlignmentUnit, DataWidth, Operand, Role};
use crate::reading::Outcome;
use crate::runs::Run;
use crate::section::{Sect, section_named};
use crate::statement::Body;
use crate::string_data::strings;
use crate::token_range::TokenRange;
use crate::values::plain;
use rv_expr::Name;
use rv_text::{Fault, FaultNumber, Sequence, Span};
use std::alloc::{AllocError, Global};

// The role of the operand after one of this role: a size may have a byte after it.
fn next_role(role: Role) -> Role
    ensures { result ≡ next_role role }
{
    match role {
        Role::Size => Role::FillByte,
        _ => role,
    }
}

// The expression that an operand is, in its role.
fn operand_in_role(alloc: Global, role: Role, run: &Run<'_>) -> Outcome<Operand>
    ensures { IfOk result (λ r. r ≡ operand_in_role role run.now) }
{
    let span = run.span;
    match run.operand(plain(alloc, &run.tokens)?) {
        Ok(value) => Ok(Ok(Operand { value, role, span })),
        Err(fault) => Ok(Err(fault)),
    }
}

// The expressions that the operands are, the first of them in this role, up to the first fault.
fn operands(alloc: Global, mut role: Role, mut runs: &[Run<'_>]) -> Outcome<Sequence<Operand>>
    ensures { IfOk result (λ r. r ≡ with_operands role runs.entry.now []) }
{
    let mut operands = Sequence::with_room(alloc, runs.len())?;
    while let [run, rest @ ..] = runs {
        match operand_in_role(alloc, role, run)? {
            Ok(operand) => operands.push(operand)?,
            Err(fault) => return Ok(Err(fault)),
        }
        role = next_role(role);
        runs = rest;
    }
    Ok(Ok(operands))
}

// The section whose name an operand is.
fn section_in(run: &Run<'_>) -> Result<Sect, Fault>
    ensures { result ≡ section_in run.now }
{
    let section = run.tokens.one_identifier().and_then(section_named);
    run.operand(section.ok_or(FaultNumber::BadOperand))
}

// The identifier other than `.` that some tokens are.
fn symbol_text<'a>(run: &TokenRange<'a>) -> Option<&'a [u8]>
    ensures { option_map (λ text. text.now) result ≡ option_and_then symbol_of_text (one_identifier run.now) }
{
    let text = run.one_identifier()?;
    if text == b".".as_slice() {
        return None;
    }
    Some(text)
}

// The symbol that an operand is.
fn symbol_in(alloc: Global, run: &Run<'_>) -> Outcome<Name>
    ensures { IfOk result (λ r. r ≡ symbol_in run.now) }
{
    match run.operand(symbol_text(&run.tokens).ok_or(FaultNumber::BadOperand)) {
        Ok(text) => Ok(Ok(Name::of(alloc, text)?)),
        Err(fault) => Ok(Err(fault)),
    }
}

// The body of a symbol and the expression that defines it.
fn body_of_definition(alloc: Global, name: Span, runs: &[Run<'_>]) -> Outcome<Body>
    ensures { IfOk result (λ r. r ≡ and_then (definition_in name runs.now) (λ d. Ok (Equ d))) }
{
    let [first, rest @ ..] = runs else {
        return Ok(Err(Fault {
            number: FaultNumber::OperandCount,
            span: name,
        }));
    };
    let symbol = match symbol_in(alloc, first)? {
        Ok(symbol) => symbol,
        Err(fault) => return Ok(Err(fault)),
    };
    let span = first.span;
    match operands(alloc, Role::Definition, rest)? {
        Ok(operands) => Ok(Ok(Body::Equ(Definition {
            symbol,
            span,
            operands,
        }))),
        Err(fault) => Ok(Err(fault)),
    }
}

// The body of data that are values of this width.
fn data_of_values(alloc: Global, width: DataWidth, name: Span, runs: &[Run<'_>]) -> Outcome<Body>
    ensures { IfOk result (λ r. r
        ≡ and_then (with_operands (role.Data width) runs.now []) (λ os. Ok (Emit (record { name = name; content = Values os })))) }
{
    match operands(alloc, Role::Data(width), runs)? {
        Ok(operands) => Ok(Ok(Body::Emit(Data {
            name,
            content: DataContent::Values(operands),
        }))),
        Err(fault) => Ok(Err(fault)),
    }
}

// The body of data that are strings, with an end after each.
fn data_of_strings(alloc: Global, end: &[u8], name: Span, runs: &[Run<'_>]) -> Outcome<Body>
    ensures { IfOk result (λ r. r
        ≡ and_then (with_strings end.now runs.now []) (λ bs. Ok (Emit (record { name = name; content = Bytes bs })))) }
{
    match strings(alloc, end, runs)? {
        Ok(bytes) => Ok(Ok(Body::Emit(Data {
            name,
            content: DataContent::Bytes(bytes),
        }))),
        Err(fault) => Ok(Err(fault)),
    }
}

// The body of equal bytes.
fn fill(alloc: Global, name: Span, runs: &[Run<'_>]) -> Outcome<Body>
    ensures { IfOk result (λ r. r ≡ and_then (with_operands role.Size runs.now []) (λ os. Ok (Fill (directive name os)))) }
{
    match operands(alloc, Role::Size, runs)? {
        Ok(operands) => Ok(Ok(Body::Fill(Directive { name, operands }))),
        Err(fault) => Ok(Err(fault)),
    }
}

// The body of an alignment in this unit.
fn alignment(alloc: Global, unit: AlignmentUnit, name: Span, runs: &[Run<'_>]) -> Outcome<Body>
    ensures { IfOk result (λ r. r ≡ and_then (with_operands (role.Alignment unit) runs.now []) (λ os. Ok (Align (directive name os)))) }
{
    match operands(alloc, Role::Alignment(unit), runs)? {
        Ok(operands) => Ok(Ok(Body::Align(Directive { name, operands }))),
        Err(fault) => Ok(Err(fault)),
    }
}

// The section whose name the first operand is.
fn first_section(name: Span, runs: &[Run<'_>]) -> Result<Sect, Fault>
    ensures { result ≡ and_then (first_operand name runs.now) section_in }
{
    match runs.first() {
        Some(first) => section_in(first),
        None => Err(Fault {
            number: FaultNumber::OperandCount,
            span: name,
        }),
    }
}

// What a directive of this kind makes of its operands.
fn body_of_kind(alloc: Global, kind: DirectiveKind, name: Span, runs: &[Run<'_>]) -> Outcome<Body>
    ensures { IfOk result (λ r. r ≡ body_of_kind kind name runs.now) }
{
    match kind {
        DirectiveKind::Data(width) => data_of_values(alloc, width, name, runs),
        DirectiveKind::Strings => data_of_strings(alloc, b"", name, runs),
        DirectiveKind::TerminatedStrings => data_of_strings(alloc, b"\0", name, runs),
        DirectiveKind::Fill => fill(alloc, name, runs),
        DirectiveKind::Alignment(unit) => alignment(alloc, unit, name, runs),
        DirectiveKind::Switch(section) => Ok(Ok(Body::Switch(section))),
        DirectiveKind::Section => Ok(first_section(name, runs).map(Body::Switch)),
        DirectiveKind::Definition => body_of_definition(alloc, name, runs),
        DirectiveKind::Ignored => Ok(Ok(Body::Ignored)),
    }
}

/// The body of a directive and its operands.
pub fn body_of_form(
    alloc: Global,
    form: DirectiveForm,
    name: Span,
    runs: &[Run<'_>],
) -> Result<Body, AllocError>
    ensures { IfOk result (λ b. b ≡ body_of_form form name runs.now) }
{
    if !form.count.takes(runs.len()) {
        return Ok(Body::Faulty(Fault {
            number: FaultNumber::OperandCount,
            span: name,
        }));
    }
    match body_of_kind(alloc, form.kind, name, runs)? {
        Ok(body) => Ok(body),
        Err(fault) => Ok(Body::Faulty(fault)),
    }
}
