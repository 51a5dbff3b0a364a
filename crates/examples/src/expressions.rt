//! Expressions: their roots, labels, parentheses and values.

use crate::lines::tokens_of;
use crate::row::{
    copied, debugged, displayed, found, made, number_before, shown, unfolded, unquoted,
};
use rv_expr::{
    Direction, Expr, LabelReference, Names, Node, ReadFault, ValueFault, depth_after, label_number,
    parenthesis_depth, read, value,
};
use rv_ops::first_named;
use rv_text::Tally;
use std::alloc::Global;
use std::test::Fail;

// Every symbol gives the one answer, and every local label the other.
#[derive(Clone, Copy)]
struct Given {
    symbol: Result<i64, ValueFault>,
    local: Result<i64, ValueFault>,
}

impl Names for Given {
    ghost use Rattle.std.specs.Prelude.{Ok, Err, pos};
    ghost use Rattle.rv_expr.specs.declared.faults.ValueFault.TheVariants.{NoPartner};

    ghost environment = { λ n here. record {
      symbol = λ name. n.symbol;
      local = λ number direction. n.local;
      here = Ok (pos here);
      paired_high = λ label. Err NoPartner;
    } };

    fn symbol(&self, _here: u32, _name: &[u8]) -> Result<i64, ValueFault> {
        self.symbol
    }

    fn local(&self, _here: u32, _number: u16, _direction: Direction) -> Result<i64, ValueFault> {
        self.local
    }

    fn here(&self, here: u32) -> Result<i64, ValueFault> {
        Ok(i64::from(here))
    }

    fn paired_high(&self, _here: u32, _label: &LabelReference) -> Result<i64, ValueFault> {
        Err(ValueFault::NoPartner)
    }
}

// No symbol and no local label is defined.
const NO_NAMES: Given = Given {
    symbol: Err(ValueFault::Undefined),
    local: Err(ValueFault::Undefined),
};

// The expression of a line's tokens from a token on.
fn expression_from(
    alloc: Global,
    line: &str,
    from: usize,
) -> Result<Result<Expr, ReadFault>, Fail> {
    let found = tokens_of(alloc, line.as_bytes())?;
    let to = found.tokens().len();
    Ok(read(alloc, &found, from.min(to), to))
}

// The value of an expression without names, which is counted once.
fn value_text(alloc: Global, expression: &Expr, here: u32) -> Result<String, Fail> {
    let mut tally = Tally::new();
    let found = value(expression, &NO_NAMES, here, &mut tally);
    let calls = (
        tally.parsed_calls(),
        tally.valued_calls(),
        tally.encoded_calls(),
    );
    if calls != (0, 1, 0) {
        return Err(Fail::new("a value that is not counted once"));
    }
    match found {
        Ok(value) => displayed(alloc, value),
        Err(fault) => debugged(alloc, fault),
    }
}

// The value at an address of the expression of a line's tokens from a token on, or why there is none.
fn value_in_line(alloc: Global, here: u32, from: usize, line: &str) -> Result<String, Fail> {
    match expression_from(alloc, line, from)? {
        Ok(expression) => value_text(alloc, &expression, here),
        Err(fault) => debugged(alloc, fault),
    }
}

/// The value of an expression at an address, or why there is none.
pub fn expression_value(alloc: Global, arguments: &str) -> Result<String, Fail> {
    let (here, line) = number_before(arguments)?;
    value_in_line(alloc, here, 0, unfolded(alloc, line)?.as_str())
}

/// The value at an address of the expression that stands in a line from a token on.
pub fn operand_value(alloc: Global, arguments: &str) -> Result<String, Fail> {
    let (here, rest) = number_before(arguments)?;
    let (from, line) = number_before(rest)?;
    value_in_line(alloc, here, from as usize, unfolded(alloc, line)?.as_str())
}

/// The values at address 10 of `(a0 - .) * 12b`, where a symbol gives 30 and a local label -4, and where the symbol is a constant
/// of a later line; and how many values were counted.
pub fn values_of_names(alloc: Global, _arguments: &str) -> Result<String, Fail> {
    let expression = expression_from(alloc, "(a0 - .) * 12b", 0)??;
    let given = Given {
        symbol: Ok(30),
        local: Ok(-4),
    };
    let later = Given {
        symbol: Err(ValueFault::LaterEqu),
        local: Err(ValueFault::Undefined),
    };
    let mut tally = Tally::new();
    let first = value(&expression, &given, 10, &mut tally);
    let second = value(&expression, &later, 10, &mut tally);
    let counted = tally.valued_calls();
    made(format!(in alloc; "{first:?} {second:?} {counted}"))
}

fn symbol_text(alloc: Global, name: &[u8]) -> Result<String, Fail> {
    let name = str::from_utf8(name)?;
    made(format!(in alloc; "symbol {name}"))
}

fn local_text(alloc: Global, number: u16, direction: Direction) -> Result<String, Fail> {
    made(format!(in alloc; "local {number} {direction:?}"))
}

fn node_text(alloc: Global, node: &Node) -> Result<String, Fail> {
    match node {
        Node::Number(n) => made(format!(in alloc; "number {n}")),
        Node::Symbol(name) => symbol_text(alloc, name.bytes()),
        Node::Local(number, direction) => local_text(alloc, *number, *direction),
        Node::Here => copied(alloc, "here"),
        Node::Unary(op, _) => debugged(alloc, *op),
        Node::Binary(op, _, _) => debugged(alloc, *op),
    }
}

/// The root of an expression.
pub fn root(alloc: Global, arguments: &str) -> Result<String, Fail> {
    let expression = expression_from(alloc, arguments, 0)??;
    node_text(alloc, &expression.node)
}

fn label_text(alloc: Global, label: &LabelReference) -> Result<String, Fail> {
    match label {
        LabelReference::Symbol(name) => symbol_text(alloc, name.bytes()),
        LabelReference::Local(number, direction) => local_text(alloc, *number, *direction),
        LabelReference::Here => copied(alloc, "here"),
    }
}

/// The label that an expression is.
pub fn label(alloc: Global, arguments: &str) -> Result<String, Fail> {
    match expression_from(alloc, arguments, 0)??.into_label() {
        Some(label) => label_text(alloc, &label),
        None => copied(alloc, "none"),
    }
}

/// The number of a local label.
pub fn label_value(alloc: Global, arguments: &str) -> Result<String, Fail> {
    shown(alloc, label_number(unquoted(arguments).as_bytes()))
}

// How many parentheses are open at one place of a line from a token on.
fn depth_from(alloc: Global, line: &[u8], from: usize) -> Result<usize, Fail> {
    let found = tokens_of(alloc, line)?;
    let to = found.tokens().len();
    Ok(parenthesis_depth(&found, from.min(to), to))
}

/// How many parentheses are open at one place of a line from a token on.
pub fn depth(alloc: Global, arguments: &str) -> Result<String, Fail> {
    let (from, line) = number_before(arguments)?;
    displayed(alloc, depth_from(alloc, line.as_bytes(), from as usize)?)
}

// How many parentheses are open after a line's one token, where so many are before it.
fn depth_behind(alloc: Global, line: &[u8], depth: u32) -> Result<usize, Fail> {
    let found = tokens_of(alloc, line)?;
    match found.tokens() {
        [token] => Ok(depth_after(depth as usize, token.kind, line)),
        _ => Err(Fail::new("a row of other than one token")),
    }
}

/// How many parentheses are open after a token, where so many are before it.
pub fn depth_after_token(alloc: Global, arguments: &str) -> Result<String, Fail> {
    let (depth, line) = number_before(arguments)?;
    displayed(alloc, depth_behind(alloc, line.as_bytes(), depth)?)
}

// The fault of a line for a fault of a value, and its number.
fn line_fault(alloc: Global, fault: ValueFault) -> Result<String, Fail> {
    let found = fault.line_fault();
    let number = found.number();
    made(format!(in alloc; "{found:?} {number}"))
}

// The faults of values by their names.
const VALUE_FAULTS: [(ValueFault, &str); 6] = [
    (ValueFault::NotConstant, "NotConstant"),
    (ValueFault::Undefined, "Undefined"),
    (ValueFault::LaterEqu, "LaterEqu"),
    (ValueFault::FaultyEqu, "FaultyEqu"),
    (ValueFault::Arithmetic, "Arithmetic"),
    (ValueFault::NoPartner, "NoPartner"),
];

/// The fault of a line for the fault of a value that has this name.
pub fn fault_of_line(alloc: Global, arguments: &str) -> Result<String, Fail> {
    let fault = first_named(&VALUE_FAULTS, arguments.as_bytes());
    line_fault(alloc, found(fault, "no fault of a value")?)
}

/// The numbers of the refusals to read an expression: too deep, no expression, out of memory.
pub fn reading_refusals(alloc: Global, _arguments: &str) -> Result<String, Fail> {
    let deep = ReadFault::Deep.number();
    let operand = ReadFault::Operand.number();
    let memory = ReadFault::Memory.number();
    made(format!(in alloc; "{deep} {operand} {memory}"))
}
