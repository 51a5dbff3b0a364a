//! Statements: the labels of a line and its body.

ghost use Rattle.std.specs.Prelude.{◌≡◌, ◌<◌, ◌^◌, Ok, length, IfOk};
ghost use Rattle.rv_stmt.specs.DirectiveBodies.{is_ignored};
ghost use Rattle.rv_stmt.specs.Directives.{directive_named};
ghost use Rattle.rv_stmt.specs.Statement.{body_of_draft, body_of_form, body_of_mnemonic, unless_lexical, body_of_directive, is_directive_name, body_of_name, body_of, statement_of_lexed, operands_of, name_of};

use crate::directive::{Data, DataContent, Definition, Directive};
use crate::directive_bodies;
use crate::directives::{DirectiveKind, directive_named};
use crate::draft::Draft;
use crate::expansion::{Expansion, expansion_of};
use crate::form::{Form, form_of};
use crate::label_list::Labels;
use crate::labels::labels;
use crate::operand::Operand;
use crate::runs::{Run, runs};
use crate::section::Sect;
use crate::token_range::{Lexeme, TokenRange};
use rv_code::Fields;
use rv_ops::Op;
use rv_text::{Fault, FaultNumber, Sequence, Span, TokenKind, Tokens};
use std::alloc::{AllocError, Global};

/// An instruction, or those that a mnemonic stands for: the operation, its fields, and the operands whose values are still
/// to come.
#[derive(Drop)]
pub struct Instruction {
    /// The mnemonic as it is written.
    pub name: Span,
    pub op: Op,
    /// The fields that the mnemonic and the operands gave; 0 where a value is still to come.
    pub fields: Fields,
    pub operands: Sequence<Operand>,
}

/// What follows the labels of a line.
#[derive(Drop)]
pub enum Body {
    /// Nothing.
    Empty,
    /// One instruction, written in its own way.
    Instr(Instruction),
    /// One or two instructions, by another mnemonic, with operands left out, in a further way, or with an address that
    /// takes two.
    Pseudo(Instruction),
    /// Data.
    Emit(Data),
    /// Equal bytes: the operands are their number and, where it is not 0, the byte.
    Fill(Directive),
    /// The place rounded up: the operand says to a multiple of what.
    Align(Directive),
    /// The section that the lines after this one are put into.
    Switch(Sect),
    /// A symbol defined by an expression.
    Equ(Definition),
    /// A directive without effect.
    Ignored,
    /// What is wrong with the line.
    Faulty(Fault),
}

/// The statement of a line.
pub struct Stmt {
    /// The labels, from left to right.
    pub labels: Labels,
    pub body: Body,
}

// What a derive would do, but proved here: a crate that drops a statement would prove the derived drop of each type in it.
impl Drop for Stmt {
    fn drop(self) {
        let Stmt { labels: _, body: _ } = self;
    }
}

impl Body {
    /// The operands whose values expressions give, from left to right.
    pub fn operands(&self) -> &[Operand]
        ensures { result.now ≡ operands_of self.now }
    {
        match self {
            Body::Instr(instruction) | Body::Pseudo(instruction) => instruction.operands.as_slice(),
            Body::Emit(data) => data.operands(),
            Body::Fill(directive) | Body::Align(directive) => directive.operands.as_slice(),
            Body::Equ(definition) => definition.operands.as_slice(),
            Body::Empty | Body::Switch(_) | Body::Ignored | Body::Faulty(_) => &[],
        }
    }

    /// Where the name stands of what gives bytes.
    pub fn name(&self) -> Option<Span>
        ensures { result ≡ name_of self.now }
    {
        match self {
            Body::Instr(instruction) | Body::Pseudo(instruction) => Some(instruction.name),
            Body::Emit(data) => Some(data.name),
            Body::Fill(directive) | Body::Align(directive) => Some(directive.name),
            Body::Empty | Body::Switch(_) | Body::Equ(_) | Body::Ignored | Body::Faulty(_) => None,
        }
    }
}

// The body of an instruction whose operands are read.
fn body_of_draft(form: &Form, name: Span, draft: Draft) -> Body
    ensures { result ≡ body_of_draft form.now name (Ok draft) }
{
    let Draft { fields, operands } = draft;
    let expansion = expansion_of(operands.as_slice());
    let instruction = Instruction {
        name,
        op: form.op,
        fields,
        operands,
    };
    match expansion {
        Expansion::Itself if form.own => Body::Instr(instruction),
        _ => Body::Pseudo(instruction),
    }
}

// The body of an instruction that is written in this way.
fn body_of_form(
    alloc: Global,
    form: &Form,
    name: Span,
    runs: &[Run<'_>],
) -> Result<Body, AllocError>
    ensures { IfOk result (λ b. b ≡ body_of_form name runs.now (Ok form.now)) }
{
    let draft = Draft::new(alloc, form.fields);
    match draft.read_operands(alloc, form.op, form.slots, runs)? {
        Ok(draft) => Ok(body_of_draft(form, name, draft)),
        Err(fault) => Ok(Body::Faulty(fault)),
    }
}

// The body of an instruction's mnemonic and its runs.
fn body_of_mnemonic(alloc: Global, name: &Lexeme<'_>, runs: &[Run<'_>]) -> Result<Body, AllocError>
    ensures { IfOk result (λ b. b ≡ body_of_mnemonic name.now runs.now) }
{
    match form_of(name.text, runs.len()) {
        Ok(form) => body_of_form(alloc, &form, name.span, runs),
        Err(number) => Ok(Body::Faulty(Fault {
            number,
            span: name.span,
        })),
    }
}

// The lexical fault, if there is one, or else the body.
fn unless_lexical(lexical: Option<Fault>, body: Body) -> Body
    ensures { result ≡ unless_lexical lexical body }
{
    match lexical {
        Some(fault) => Body::Faulty(fault),
        None => body,
    }
}

// Whether a name is that of a directive.
fn is_directive_name(name: &[u8]) -> bool
    ensures { result ≡ is_directive_name name.now }
{
    match name.first() {
        Some(byte) => *byte == b'.',
        None => false,
    }
}

// The body of a directive's name and the tokens after it, which a lexical fault may end. The rest of an ignored directive
// is not read, so the fault does not count there.
fn body_of_directive(
    alloc: Global,
    lexical: Option<Fault>,
    name: &Lexeme<'_>,
    after: &TokenRange<'_>,
) -> Result<Body, AllocError>
    ensures { IfOk result (λ b. b ≡ body_of_directive lexical name.now after.now (directive_named name.now.text)) }
{
    let Some(form) = directive_named(name.text) else {
        let fault = Fault {
            number: FaultNumber::UnknownName,
            span: name.span,
        };
        return Ok(unless_lexical(lexical, Body::Faulty(fault)));
    };
    if form.kind == DirectiveKind::Ignored {
        return Ok(Body::Ignored);
    }
    if let Some(fault) = lexical {
        return Ok(Body::Faulty(fault));
    }
    let runs = runs(alloc, after, name.span.to)?;
    directive_bodies::body_of_form(alloc, form, name.span, runs.as_slice())
}

// The body of a name and the tokens after it, which a lexical fault may end.
fn body_of_name(
    alloc: Global,
    lexical: Option<Fault>,
    name: &Lexeme<'_>,
    after: &TokenRange<'_>,
) -> Result<Body, AllocError>
    ensures { IfOk result (λ b. b ≡ body_of_name lexical name.now after.now) }
{
    if is_directive_name(name.text) {
        return body_of_directive(alloc, lexical, name, after);
    }
    if let Some(fault) = lexical {
        return Ok(Body::Faulty(fault));
    }
    let runs = runs(alloc, after, name.span.to)?;
    body_of_mnemonic(alloc, name, runs.as_slice())
}

// The body that some tokens are, which a lexical fault may end.
fn body_of(
    alloc: Global,
    lexical: Option<Fault>,
    tokens: &TokenRange<'_>,
) -> Result<Body, AllocError>
    ensures { IfOk result (λ b. b ≡ body_of lexical tokens.now) }
{
    let Some((first, after)) = tokens.split_first() else {
        return Ok(unless_lexical(lexical, Body::Empty));
    };
    if first.kind == TokenKind::Identifier {
        return body_of_name(alloc, lexical, &first, &after);
    }
    let fault = Fault {
        number: FaultNumber::NoStatement,
        span: first.span,
    };
    Ok(unless_lexical(lexical, Body::Faulty(fault)))
}

/// The statement of a line's tokens.
#[tactic(auto, using(crate::proofs::StatementLemmas::all_spelled_tokens, rv_text::specs::TokenLaws::count_of_spelled_tokens))]
pub fn statement(alloc: Global, tokens: &Tokens<'_>) -> Result<Stmt, AllocError>
    requires { length tokens.now.tokens < 2 ^ 31 }
    ensures { IfOk result (λ s. s ≡ statement_of_lexed tokens.now) }
{
    let line = TokenRange::new(tokens, 0, tokens.tokens().len());
    let (labels, place) = labels(alloc, &line)?;
    let body = body_of(alloc, tokens.fault(), &line.skip(place))?;
    Ok(Stmt { labels, body })
}
