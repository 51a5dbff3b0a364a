//! The text of a program in pieces: the tokens of a line and their faults, the counters of the work done, the readers
//! and writers that bytes come from and go to, and rows and blocks of output text.
#![tactic(auto)]

mod block;
mod classes;
mod counting;
mod failing;
mod faults;
mod laws;
mod lexeme;
mod lexer;
mod memory;
mod numerals;
mod outside;
mod rows;
mod sequence;
mod streams;
mod strings;
mod token_list;

pub use block::{BLOCK_SIZE, OutputBlock};
pub use counting::{Count, Tally};
pub use failing::FailsAt;
pub use faults::{Fault, FaultNumber};
pub use laws::{reads_join, tokens_are_lexical, tokens_fit, writes_join};
pub use lexeme::{MAX_LINE_LENGTH, Prefix, Span, Token, TokenKind};
pub use lexer::tokens;
pub use memory::{MemSink, MemSource};
pub use numerals::{digits, is_local_number, number};
pub use outside::{StdSink, StdSource};
pub use rows::OutputRow;
pub use sequence::Sequence;
pub use streams::{Failed, Sink, Source, write_all};
pub use strings::escaped;
pub use token_list::{TextError, Tokens};
