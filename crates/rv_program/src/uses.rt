//! What a line uses of other lines and of its own place.

ghost use Rattle.std.specs.Prelude.{◌≡◌, true};
ghost use Rattle.std.specs.List.{list_any, flat_map};
ghost use Rattle.rv_program.specs.internal.NameSets.{with_names, brief_of_names};
ghost use Rattle.rv_program.specs.Uses.{names_in, has_here, has_local_label, expression_of, is_pcrel_low, is_relative, operand_uses_address, names_used, uses_address, uses_local_label, uses_paired_high, is_equ, is_sized, uses_symbols};
ghost use Rattle.rv_layout.specs.Shapes.{is_size};

use crate::used_names::UsedNames;
use rv_expr::{Expr, LabelReference, Node};
use rv_stmt::{Body, Operand, OperandValue, Role};

/// A test of names.
pub trait NameTest {
    ghost use Rattle.std.specs.Prelude.{ℕ, List, Bool};

    /// In this state it can be asked.
    ghost can_test: { Self → Type 0 };

    /// Whether a name passes.
    ghost test: { Self → List ℕ → Bool };

    /// Whether a name passes.
    fn passes(&self, name: &[u8]) -> bool
        requires { can_test self.now }
        ensures { result ≡ test self.now name.now };
}

// Whether a symbol in an expression passes.
fn any_in<T: NameTest>(expression: &Expr, names: &T) -> bool
    requires { T.can_test names.now }
    ensures { result ≡ list_any (T.test names.now) (names_in expression.now) }
{
    match &expression.node {
        Node::Number(_) | Node::Local(_, _) | Node::Here => false,
        Node::Symbol(name) => names.passes(name.bytes()),
        Node::Unary(_, operand) => any_in(operand, names),
        Node::Binary(_, left, right) => {
            if any_in(left, names) {
                return true;
            }
            any_in(right, names)
        }
    }
}

// Whether a symbol in an operand passes.
fn any_in_value<T: NameTest>(value: &OperandValue, names: &T) -> bool
    requires { T.can_test names.now }
    ensures { result ≡ list_any (T.test names.now) (names_in (expression_of value.now)) }
{
    match value {
        OperandValue::Plain(expression)
        | OperandValue::High(expression)
        | OperandValue::Low(expression)
        | OperandValue::PcrelHigh(expression) => any_in(expression, names),
        OperandValue::PcrelLow(LabelReference::Symbol(name)) => names.passes(name.bytes()),
        OperandValue::PcrelLow(_) => false,
    }
}

// Whether a symbol in one of the operands passes.
fn any_in_operands<T: NameTest>(mut operands: &[Operand], names: &T) -> bool
    requires { T.can_test names.now }
    ensures { result ≡ list_any (T.test names.now) (flat_map (λ o. names_in (expression_of o.value)) operands.entry.now) }
{
    while let [operand, rest @ ..] = operands {
        if any_in_value(&operand.value, names) {
            return true;
        }
        operands = rest;
    }
    false
}

/// Whether a symbol that a line uses passes.
pub fn any_name<T: NameTest>(body: &Body, names: &T) -> bool
    requires { T.can_test names.now }
    ensures { result ≡ list_any (T.test names.now) (names_used body.now) }
{
    any_in_operands(body.operands(), names)
}

// Adds the symbols in an expression to the names of a line. The calls that end it take no stack, since they hand on what it was given:
// only a left operand takes some.
fn add_names_in(expression: &Expr, names: &mut UsedNames)
    ensures { names.new ≡ with_names names.old (names_in expression.now) }
{
    match &expression.node {
        Node::Number(_) | Node::Local(_, _) | Node::Here => {}
        Node::Symbol(name) => *names = names.with(name.bytes()),
        Node::Unary(_, operand) => add_names_in(operand, names),
        Node::Binary(_, left, right) => {
            add_names_in(left, names);
            add_names_in(right, names);
        }
    }
}

// Adds the symbols in an operand to the names of a line.
fn add_names_in_value(value: &OperandValue, names: &mut UsedNames)
    ensures { names.new ≡ with_names names.old (names_in (expression_of value.now)) }
{
    match value {
        OperandValue::Plain(expression)
        | OperandValue::High(expression)
        | OperandValue::Low(expression)
        | OperandValue::PcrelHigh(expression) => add_names_in(expression, names),
        OperandValue::PcrelLow(LabelReference::Symbol(name)) => *names = names.with(name.bytes()),
        OperandValue::PcrelLow(_) => {}
    }
}

/// The symbols that a line uses, in brief.
pub fn brief_names(body: &Body) -> UsedNames
    ensures { result ≡ brief_of_names (names_used body.now) }
{
    let mut operands = body.operands();
    let mut names = UsedNames::none();
    while let [operand, rest @ ..] = operands {
        add_names_in_value(&operand.value, &mut names);
        operands = rest;
    }
    names
}

// Every name passes.
#[derive(Drop)]
struct EveryName;

impl NameTest for EveryName {
    ghost can_test = { λ t. true ≡ true };

    ghost test = { λ t name. true };

    fn passes(&self, _name: &[u8]) -> bool {
        true
    }
}

/// Whether a line uses symbols.
pub fn uses_symbols(body: &Body) -> bool
    ensures { result ≡ uses_symbols body.now }
{
    any_name(body, &EveryName)
}

// Whether the size of a line follows from an operand in this role.
fn is_size(role: Role) -> bool
    ensures { result ≡ is_size role }
{
    matches!(role, Role::Constant | Role::Size | Role::Alignment(_))
}

/// Whether the shape of a line follows from the value of an operand.
pub fn is_sized(body: &Body) -> bool
    ensures { result ≡ is_sized body.now }
{
    body.operands().iter().any(|o| is_size(o.role))
}

// Whether `.` stands in an expression.
fn has_here(expression: &Expr) -> bool
    ensures { result ≡ has_here expression.now }
{
    match &expression.node {
        Node::Number(_) | Node::Symbol(_) | Node::Local(_, _) => false,
        Node::Here => true,
        Node::Unary(_, operand) => has_here(operand),
        Node::Binary(_, left, right) => has_here(left) || has_here(right),
    }
}

// Whether a local label stands in an expression.
fn has_local_label(expression: &Expr) -> bool
    ensures { result ≡ has_local_label expression.now }
{
    match &expression.node {
        Node::Number(_) | Node::Symbol(_) | Node::Here => false,
        Node::Local(_, _) => true,
        Node::Unary(_, operand) => has_local_label(operand),
        Node::Binary(_, left, right) => has_local_label(left) || has_local_label(right),
    }
}

// Whether a value in this role is counted from the address of its line.
fn is_relative(role: Role) -> bool
    ensures { result ≡ is_relative role }
{
    matches!(role, Role::Target | Role::PairTarget | Role::Alignment(_))
}

// Whether the value of an operand follows from the address of its line.
fn operand_uses_address(operand: &Operand) -> bool
    ensures { result ≡ operand_uses_address operand.now }
{
    let by_value = match &operand.value {
        OperandValue::Plain(expression)
        | OperandValue::High(expression)
        | OperandValue::Low(expression) => has_here(expression),
        OperandValue::PcrelHigh(_) | OperandValue::PcrelLow(LabelReference::Here) => true,
        OperandValue::PcrelLow(_) => false,
    };
    by_value || is_relative(operand.role)
}

// Whether a local label stands in an operand.
fn operand_uses_local_label(operand: &Operand) -> bool
    ensures { result ≡ has_local_label (expression_of operand.now.value) }
{
    match &operand.value {
        OperandValue::Plain(expression)
        | OperandValue::High(expression)
        | OperandValue::Low(expression)
        | OperandValue::PcrelHigh(expression) => has_local_label(expression),
        OperandValue::PcrelLow(LabelReference::Local(_, _)) => true,
        OperandValue::PcrelLow(_) => false,
    }
}

// Whether the value of one of the operands does.
fn any_uses_address(operands: &[Operand]) -> bool
    ensures { result ≡ list_any operand_uses_address operands.now }
{
    operands.iter().any(|o| operand_uses_address(o))
}

/// Whether a line uses its own address.
pub fn uses_address(body: &Body) -> bool
    ensures { result ≡ uses_address body.now }
{
    match body {
        Body::Align(_) => true,
        _ => any_uses_address(body.operands()),
    }
}

/// Whether a line uses a local label.
pub fn uses_local_label(body: &Body) -> bool
    ensures { result ≡ uses_local_label body.now }
{
    body.operands().iter().any(|o| operand_uses_local_label(o))
}

/// Whether a line uses the high half that belongs to a `%pcrel_lo`.
pub fn uses_paired_high(body: &Body) -> bool
    ensures { result ≡ uses_paired_high body.now }
{
    body.operands()
        .iter()
        .any(|o| matches!(o.value, OperandValue::PcrelLow(_)))
}

/// Whether a line is an `.equ`.
pub fn is_equ(body: &Body) -> bool
    ensures { result ≡ is_equ body.now }
{
    matches!(body, Body::Equ(_))
}
