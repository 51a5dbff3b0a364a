//! The commands of the editor: bytes come in, commands are cut from them and answered, and the answers go out.
#![tactic(auto)]

mod answer;
mod answer_error;
mod chunk;
mod columns;
mod command;
mod disassembly;
mod edited;
mod edits;
mod numbered;
mod pages;
mod run_error;
mod running;

pub use edited::live_assembler_is_exact;
pub use run_error::{RunError, message, status};
pub use running::{MAX_INPUT, run};
pub use rv_store::LineEdit;
