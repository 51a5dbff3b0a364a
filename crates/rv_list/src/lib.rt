//! What an editor shows of a text: its image, its listing, its symbols and its faults.
#![tactic(auto)]

mod bytes_left;
mod error;
mod faults;
mod image;
mod listing;
mod rows;
mod symbols;
mod untested;
mod view;

pub use bytes_left::section_bytes;
pub use error::ListError;
pub use faults::{
    MAX_FAULTS, count_faults, fault_name, find_faults, is_at_odd_address, write_faults,
    write_tested_faults,
};
pub use image::write_image;
pub use listing::write_listing;
pub use rows::push_row;
pub use symbols::write_symbols;
pub use view::{DefinitionPlace, LinePlace, LineSource, LineView, SectionPlace, TestedLines, View};
