//! Reports of faults for people: the message of each fault, and the rows that show where it is.
#![tactic(auto)]

mod advice;
mod advice_tables;
mod bounds;
mod constant_messages;
mod counts;
mod csr_messages;
mod faulty_line;
mod faulty_names;
mod language_names;
mod laws;
mod lexical_messages;
mod messages;
mod name_messages;
mod notes;
mod operand_messages;
mod operands;
mod parentheses;
mod reports;
mod statement_messages;
mod statement_words;
mod text_words;
mod unknown_names;
mod value_messages;
mod wanted;
mod warnings;

pub use advice::{Topic, replacements};
pub use csr_messages::{csr_list, number_of_csr};
pub use faulty_line::FaultyLine;
pub use faulty_names::UsedName;
pub use language_names::names_like;
pub use laws::limits_are_those_of_range;
pub use messages::message;
pub use name_messages::faulty_name_at;
pub use reports::{report, report_warning};
pub use text_words::{TextWords, UnknownWord};
pub use unknown_names::is_of_others;
pub use warnings::{Warning, find_warning, push_warning_message};
