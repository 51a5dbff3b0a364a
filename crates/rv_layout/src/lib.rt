//! Where the lines of a text lie: the shape of each line, and the sections, offsets, bases and addresses that follow.
#![tactic(auto)]

mod advance;
mod alignment;
mod base;
mod constants;
mod consts;
mod effect;
mod laws;
mod layout;
mod measured;
mod places;
mod sections;
mod shapes;
mod sizes;

pub use alignment::Alignment;
pub use base::base_ok;
pub use constants::value_at;
pub use consts::Consts;
pub use laws::{layouts_join, layouts_tell_places, shapes_are_limited, size_operands_are_few};
pub use layout::Layout;
pub use measured::Measured;
pub use places::{bases, bases_by_ends, place};
pub use sections::{CODE_SECTIONS, SECTIONS, is_code, section_number};
pub use shapes::measure;
pub use sizes::{alignment_by_role, fill_size, is_loadable, with_value};
