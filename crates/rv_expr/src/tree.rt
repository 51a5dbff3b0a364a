//! The tree of an expression.

ghost use Rattle.std.specs.Prelude.{◌≡◌};
ghost use Rattle.rv_expr.specs.Tree.{label_reference_of};

use crate::naming::Name;
use std::marker::Model;

/// An operator between two operands.
#[derive(Clone, Copy, Debug, PartialEq, Eq)]
pub enum BinaryOp {
    /// `*`
    Mul,
    /// `/`, rounded toward zero.
    Div,
    /// `%`, with the sign of the dividend.
    Rem,
    /// `<<`, by 0 to 63.
    Shl,
    /// `>>`, by 0 to 63, rounded down: it keeps the sign.
    Shr,
    /// `&`
    And,
    /// `|`
    Or,
    /// `^`
    Xor,
    /// `+`
    Add,
    /// `-`
    Sub,
}

/// An operator before its operand.
#[derive(Clone, Copy, Debug, PartialEq, Eq)]
pub enum UnaryOp {
    /// `-`
    Neg,
    /// `~`
    Not,
}

/// Where a local label is looked for.
#[derive(Clone, Copy, Debug, PartialEq, Eq)]
pub enum Direction {
    /// `b`: the last one on this line or an earlier one.
    Back,
    /// `f`: the first one on a later line.
    Forward,
}

/// An expression. Matching on `node` takes it apart, and the operands of an operator are expressions again.
///
/// Contracts see its tree, apart from where it lies in memory.
#[cycle(expr)]
#[derive(Drop)]
pub struct Expr {
    /// The root of the tree.
    pub node: Node,
}

/// The root of an expression: an operand by itself, or an operator with its operands.
#[cycle(expr)]
#[derive(Drop)]
pub enum Node {
    /// A whole number, or a character as the number of its byte.
    Number(i64),
    /// A symbol, also one that is spelt like a register.
    Symbol(Name),
    /// A local label, by its number and where it is looked for.
    Local(u16, Direction),
    /// `.`, the address of the line.
    Here,
    /// An operator and its operand.
    Unary(UnaryOp, Box<Expr>),
    /// An operator, its left operand and its right one.
    Binary(BinaryOp, Box<Expr>, Box<Expr>),
}

impl Model for Expr {
    ghost use Rattle.rv_expr.specs.Tree.{Tree, tree_size};
    ghost use Rattle.rv_expr.specs.TreeCode.{tree_code};

    ghost Value = { Tree };

    ghost coded = { tree_code };

    ghost use Rattle.rv_expr.specs.Nodes.{tree_of_node};

    ghost view = { λ a. tree_of_node a.node };

    ghost size = { tree_size };

    ghost use Rattle.std.proofs.Common.{arith};

    ghost size_decreases = { λ a h. Prim.grind arith };
}

/// What the label of `%pcrel_lo` is named by.
#[derive(Drop)]
pub enum LabelReference {
    /// The name of a symbol.
    Symbol(Name),
    /// A local label, by its number and where it is looked for.
    Local(u16, Direction),
    /// `.`, which is no label.
    Here,
}

impl Expr {
    /// The label that the expression is, where it is a symbol, a local label or `.` alone.
    pub fn into_label(self) -> Option<LabelReference>
        ensures { result ≡ label_reference_of self }
    {
        match self.node {
            Node::Symbol(name) => Some(LabelReference::Symbol(name)),
            Node::Local(number, direction) => Some(LabelReference::Local(number, direction)),
            Node::Here => Some(LabelReference::Here),
            Node::Number(_) | Node::Unary(_, _) | Node::Binary(_, _, _) => None,
        }
    }
}
