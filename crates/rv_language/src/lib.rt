//! What an editor is told of the lines of a text: what stands at a place, what may be typed there, where names stand and what they mean, and which
//! changes of a line may take its fault away.
#![tactic(auto)]

mod broken_line;
mod comments;
mod completion;
mod definition;
mod document_symbols;
mod encoding;
mod explained;
mod fixes;
mod folds;
mod hints;
mod hover;
mod line_fixes;
mod meaning;
mod name_uses;
mod named;
mod names;
mod new_names;
mod operand_lists;
mod other_lexemes;
mod other_names;
mod other_operands;
mod other_signs;
mod places;
mod references;
mod rename;
mod rewrites;
mod sections;
mod semantic_tokens;
mod signature_help;
mod symbol_text;
mod typed;

pub use broken_line::BrokenLine;
pub use completion::put_completions;
pub use definition::put_definition;
pub use document_symbols::put_document_symbols;
pub use encoding::put_encoding;
pub use fixes::{Fix, Fixes};
pub use folds::put_folds;
pub use hints::put_hints;
pub use hover::put_hover;
pub use line_fixes::{colon_fixes, possible_fixes};
pub use meaning::{LocalLabel, Meaning, Written};
pub use named::{Named, name_at};
pub use names::text_of;
pub use places::lines_to;
pub use references::{PlaceForm, Wanted, put_edit, put_references};
pub use rename::{NameRefusal, RenameError, put_name, put_rename};
pub use sections::put_section_places;
pub use semantic_tokens::{TOKEN_TYPES, put_semantic_tokens};
pub use signature_help::put_signature_help;
