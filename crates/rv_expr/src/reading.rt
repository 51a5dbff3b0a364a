//! Reads a run of tokens as an expression.

ghost use Rattle.std.specs.Prelude.{◌≡◌, ◌≤◌, [], ◌∷◌, List, Option, Some, length, IfOk, IfErr, MatchResult};
ghost use Rattle.rv_expr.specs.Depth.{depth_of};
ghost use Rattle.rv_expr.specs.ReaderState.{waits, primary_tree, expression_token_role, left_of, Fails};
ghost use Rattle.rv_expr.specs.Reading.{signed, joined, expecting_operand, after_operand, run_of, expression_of};
ghost use Rattle.rv_expr.specs.TokenRoles.{TokenRole};
ghost use Rattle.rv_expr.specs.Refusals.{Refuses};
ghost use Rattle.rv_expr.specs.Tree.{Tree, Unary, Binary, level};

use crate::depth::{MAX_DEPTH, parenthesis_depth};
use crate::expression_tokens::{ExpressionToken, Primary, expression_token_at};
use crate::faults::ReadFault;
use crate::naming::Name;
use crate::tree::{BinaryOp, Expr, Node, UnaryOp};
use rv_text::Tokens;
use std::alloc::{AllocError, Global};

/// What waits while the tokens after it are read.
#[derive(Drop)]
pub enum Pending {
    /// A unary operator, for its operand.
    Before(UnaryOp),
    /// An operator with its left operand, for the right one.
    After(BinaryOp, Expr),
    /// An open parenthesis, for the one that closes it.
    Parenthesis,
}

// The level of the operators that bind loosest.
const LOOSEST_LEVEL: u32 = 3;

// The level of an operator, from the tightest on.
fn level(op: BinaryOp) -> u32
    ensures { result ≡ level op }
{
    match op {
        BinaryOp::Mul | BinaryOp::Div | BinaryOp::Rem | BinaryOp::Shl | BinaryOp::Shr => 1,
        BinaryOp::And | BinaryOp::Or | BinaryOp::Xor => 2,
        BinaryOp::Add | BinaryOp::Sub => 3,
    }
}

// A unary operator with its operand.
fn make_unary(alloc: Global, op: UnaryOp, operand: Expr) -> Result<Expr, AllocError>
    ensures { IfOk result (λ e. e ≡ Unary op operand) }
{
    let operand = Box::new(alloc, operand)?;
    Ok(Expr {
        node: Node::Unary(op, operand),
    })
}

// An operator with its two operands.
fn make_binary(alloc: Global, op: BinaryOp, left: Expr, right: Expr) -> Result<Expr, AllocError>
    ensures { IfOk result (λ e. e ≡ Binary op left right) }
{
    let left = Box::new(alloc, left)?;
    let right = Box::new(alloc, right)?;
    Ok(Expr {
        node: Node::Binary(op, left, right),
    })
}

// The unary operators before an operand act on it.
#[tactic(auto, using(crate::proofs::Waits::waits_push))]
fn apply_unary_operators(
    alloc: Global,
    pending: &mut Vec<Pending>,
    operand: Expr,
) -> Result<Expr, AllocError>
    ensures { IfOk result (λ t. (next : List Pending → Tree → Option Tree)
        → signed next (waits pending.old.items) operand ≡ next (waits pending.new.items) t) }
{
    let mut whole = operand;
    while let Some(last) = pending.pop() {
        match last {
            Pending::Before(op) => whole = make_unary(alloc, op, whole)?,
            other => {
                pending.push(other)?;
                return Ok(whole);
            }
        }
    }
    Ok(whole)
}

// The operators that bind as tightly as `bound`, or tighter, act on what stands on their two sides.
#[tactic(auto, using(crate::proofs::Waits::waits_push))]
fn apply_operators(
    alloc: Global,
    pending: &mut Vec<Pending>,
    bound: u32,
    operand: Expr,
) -> Result<Expr, AllocError>
    ensures { IfOk result (λ t. (next : List Pending → Tree → Option Tree)
        → joined bound next (waits pending.old.items) operand ≡ next (waits pending.new.items) t) }
{
    let mut whole = operand;
    while let Some(last) = pending.pop() {
        match last {
            Pending::After(op, left) if level(op) <= bound => {
                whole = make_binary(alloc, op, left, whole)?;
            }
            other => {
                pending.push(other)?;
                return Ok(whole);
            }
        }
    }
    Ok(whole)
}

// The expression that is one operand.
fn make_operand(alloc: Global, operand: Primary<'_>) -> Result<Expr, AllocError>
    ensures { IfOk result (λ e. e ≡ primary_tree operand.entry) }
{
    let node = match operand {
        Primary::Number(n) => Node::Number(n),
        Primary::Symbol(name) => Node::Symbol(Name::of(alloc, name)?),
        Primary::Local(number, direction) => Node::Local(number, direction),
        Primary::Here => Node::Here,
    };
    Ok(Expr { node })
}

// A step where an operand is expected.
#[tactic(auto, using(crate::proofs::Waits::waits_push))]
fn step_expecting_operand(
    alloc: Global,
    pending: &mut Vec<Pending>,
    token: ExpressionToken<'_>,
) -> Result<Option<Expr>, ReadFault>
    ensures ok { IfOk result (λ have. (rs : List TokenRole)
        → expecting_operand (waits pending.old.items) (expression_token_role token.entry ∷ rs) ≡ left_of pending.new.items have rs) }
    ensures err { IfErr result (λ f. (rs : List TokenRole) → Fails f (expecting_operand (waits pending.old.items) (expression_token_role token.entry ∷ rs))) }
{
    match token {
        ExpressionToken::Operand(operand) => {
            let operand = make_operand(alloc, operand)?;
            Ok(Some(apply_unary_operators(alloc, pending, operand)?))
        }
        ExpressionToken::Operator(Some(op), _) => {
            pending.push(Pending::Before(op))?;
            Ok(None)
        }
        ExpressionToken::Open => {
            pending.push(Pending::Parenthesis)?;
            Ok(None)
        }
        ExpressionToken::Operator(None, _) | ExpressionToken::Close => Err(ReadFault::Operand),
    }
}

// A step after an operand.
#[tactic(auto, using(crate::proofs::Waits::waits_push))]
fn step_after_operand(
    alloc: Global,
    pending: &mut Vec<Pending>,
    operand: Expr,
    token: ExpressionToken<'_>,
) -> Result<Option<Expr>, ReadFault>
    ensures ok { IfOk result (λ have. (rs : List TokenRole)
        → after_operand (waits pending.old.items) operand (expression_token_role token.entry ∷ rs) ≡ left_of pending.new.items have rs) }
    ensures err { IfErr result (λ f. (rs : List TokenRole)
        → Fails f (after_operand (waits pending.old.items) operand (expression_token_role token.entry ∷ rs))) }
{
    match token {
        ExpressionToken::Operator(_, Some(op)) => {
            let left = apply_operators(alloc, pending, level(op), operand)?;
            pending.push(Pending::After(op, left))?;
            Ok(None)
        }
        ExpressionToken::Close => {
            let inner = apply_operators(alloc, pending, LOOSEST_LEVEL, operand)?;
            match pending.pop() {
                Some(Pending::Parenthesis) => Ok(Some(apply_unary_operators(
                    alloc, pending, inner,
                )?)),
                _ => Err(ReadFault::Operand),
            }
        }
        ExpressionToken::Operand(_) | ExpressionToken::Operator(_, None) | ExpressionToken::Open =>
            Err(ReadFault::Operand),
    }
}

// A step after an operand that is there, or where one is expected.
fn step(
    alloc: Global,
    pending: &mut Vec<Pending>,
    have: Option<Expr>,
    token: ExpressionToken<'_>,
) -> Result<Option<Expr>, ReadFault>
    ensures ok { IfOk result (λ now. (rs : List TokenRole)
        → left_of pending.old.items have (expression_token_role token.entry ∷ rs) ≡ left_of pending.new.items now rs) }
    ensures err { IfErr result (λ f. (rs : List TokenRole) → Fails f (left_of pending.old.items have (expression_token_role token.entry ∷ rs))) }
{
    match have {
        Some(operand) => step_after_operand(alloc, pending, operand, token),
        None => step_expecting_operand(alloc, pending, token),
    }
}

// The end of the tokens, after an operand.
fn finish(alloc: Global, pending: &mut Vec<Pending>, operand: Expr) -> Result<Expr, ReadFault>
    ensures { MatchResult result
        (λ e. after_operand (waits pending.old.items) operand [] ≡ Some e)
        (λ f. Fails f (after_operand (waits pending.old.items) operand [])) }
{
    let whole = apply_operators(alloc, pending, LOOSEST_LEVEL, operand)?;
    if pending.is_empty() {
        Ok(whole)
    } else {
        Err(ReadFault::Operand)
    }
}

// The expression of a run of tokens.
fn expression(alloc: Global, tokens: &Tokens<'_>, from: usize, to: usize) -> Result<Expr, ReadFault>
    requires ordered { from ≤ to }
    requires within { to ≤ length tokens.now.tokens }
    ensures { MatchResult result
        (λ e. expression_of (run_of tokens.now from to) ≡ Some e)
        (λ f. Fails f (expression_of (run_of tokens.now from to))) }
{
    let mut pending = Vec::new(alloc);
    let mut have = None;
    for k in from..to {
        have = step(alloc, &mut pending, have, expression_token_at(tokens, k))?;
    }
    match have {
        Some(operand) => finish(alloc, &mut pending, operand),
        None => Err(ReadFault::Operand),
    }
}

/// Reads the tokens `from..to` of a line, counted from 0, as one expression.
///
/// Operators bind from the tightest on in this order, each level from left to right: unary `-` and `~`; `*`, `/`, `%`,
/// `<<` and `>>`; `&`, `|` and `^`; `+` and `-`. Operands are numbers, characters, symbols, `.`, local labels and
/// expressions in parentheses.
///
/// # Errors
///
/// `Deep` if more than 64 parentheses are open at one place, whatever else is wrong; else `Operand` if the tokens are no
/// expression. `Memory` says only that there was no memory.
#[tactic(auto, using(crate::proofs::Refusals::refused))]
pub fn read(alloc: Global, tokens: &Tokens<'_>, from: usize, to: usize) -> Result<Expr, ReadFault>
    requires ordered { from ≤ to }
    requires within { to ≤ length tokens.now.tokens }
    ensures depth { IfOk result (λ e. depth_of (run_of tokens.now from to) ≤ 64) }
    ensures expression { IfOk result (λ e. expression_of (run_of tokens.now from to) ≡ Some e) }
    ensures refused { IfErr result (λ f. Refuses f (run_of tokens.now from to)) }
{
    if parenthesis_depth(tokens, from, to) > MAX_DEPTH {
        return Err(ReadFault::Deep);
    }
    expression(alloc, tokens, from, to)
}
