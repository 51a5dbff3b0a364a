//! The diagnostics of a text as the messages that editors show: of its faults, of warnings about it, and of lines past a limit.
#![tactic(auto)]

mod counting;
mod defined_names;
mod diagnostics;
mod message;
mod part;
mod publishing;
mod ranges;
mod told;

pub use diagnostics::{Context, column_at};
pub use message::Message;
pub use part::Part;
pub use publishing::{publish_lines, publish_none, put_nearest};
pub use ranges::{put_position, put_range};
pub use told::Told;
