//! A text kept as a list of lines, with the code of each line.
#![tactic(auto)]

mod alike;
mod apart;
mod assembly;
mod changed;
mod column;
mod draft;
mod edited_row;
mod ending;
mod ends;
mod forgetting;
mod last_definitions;
mod last_line;
mod loading;
mod new_shape;
mod places;
mod renewal;
mod same_highs;
mod shapes;
mod still;
mod store;
mod survey;
mod symbols;
mod waiting;

pub use changed::{Changed, LineNumbers};
pub use draft::Draft;
pub use rv_layout::base_ok;
pub use rv_program::{
    EditError, LineEdit, MAX_LINES, constants_are_values, only_invalidated_lines_change,
};
pub use rv_text::MAX_LINE_LENGTH;
pub use store::{NamesOnLine, Store};
pub use symbols::SymValue;
