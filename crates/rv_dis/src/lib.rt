//! The disassembler: the texts of instructions and the rows of stretches of bytes, which assemble to the bytes again.
#![tactic(auto)]

mod decimals;
mod disassembly;
mod error;
mod laws;
mod names;
mod numbers;
mod operand_lists;
mod operand_texts;
mod pairs;
mod row;
mod text;

pub use disassembly::{disassemble, first_row};
pub use error::DisError;
pub use laws::{rows_are_unique, rows_give_the_bytes, texts_are_instructions, texts_assemble};
pub use row::{DisRow, RowText};
pub use text::instruction_text;
