//! What the names of instructions, directives, registers, and control and status registers mean, each in a sentence, and what the fields of encodings
//! mean.
#![tactic(auto)]

mod atomic_instructions;
mod compressed_instructions;
mod directives;
mod entry;
mod field_texts;
mod fields;
mod formats;
mod instructions;
mod look_up;
mod operands;
mod pseudo_instructions;
mod registers;

pub use entry::{Entry, Source};
pub use field_texts::{FieldBits, FieldLabel, FieldMeaning, FieldRow};
pub use fields::{EncodedField, encoded_fields, formats_have_the_fixed_bits, instruction_of};
pub use formats::{FORMATS, FieldKind, FieldName, FieldNames, FormatRow, Stretch};
pub use look_up::entry_named;
pub use operands::{Way, directive_words, slot_words, ways_to_write};
