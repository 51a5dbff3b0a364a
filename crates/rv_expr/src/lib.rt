//! Expressions of operands: how tokens are read as an expression, and the value that an expression has.
#![tactic(auto)]

mod arithmetic;
mod depth;
mod evaluation;
mod expression_tokens;
mod faults;
mod laws;
mod naming;
mod reading;
mod tree;

pub use depth::{MAX_DEPTH, depth_after, parenthesis_depth};
pub use evaluation::{Names, value};
pub use expression_tokens::label_number;
pub use faults::{ReadFault, ValueFault};
pub use laws::{depth_is_open_at_once, reads_the_grammar};
pub use naming::Name;
pub use reading::read;
pub use tree::{BinaryOp, Direction, Expr, LabelReference, Node, UnaryOp};
