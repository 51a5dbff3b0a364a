//! RISC-V instructions and their encodings.
#![tactic(auto)]

mod decoding;
mod encoding;
mod fitting;
mod groups;
mod instruction;
mod laws;
mod word;

pub use decoding::{decode16, decode32};
pub use encoding::{encode, word_of};
pub use fitting::in_class;
pub use instruction::{Fields, Ins};
pub use laws::words_tell_instructions_apart;
pub use word::Word;
