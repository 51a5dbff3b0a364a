//! A tool over files, but for the opening of them: the lines of a file, and the formats that a text is written in.
#![tactic(auto)]

mod bin;
mod counting;
mod elf;
mod elf_headers;
mod elf_symbols;
mod hex;
mod laws;
mod limits;
mod lines;
mod loading;
mod marks;
mod numbers;
mod odd_addresses;
mod pieces;
mod repeated;
mod report_error;
mod reporting;
mod sections;
mod segment;
mod segment_bytes;
mod text_symbols;
mod unknown_words;

pub use bin::write_bin;
pub use counting::{Counts, report_counts};
pub use elf::{Elf, write_elf};
pub use hex::write_hex;
pub use laws::{
    bin_holds_the_segments, elf_is_loaded, hex_is_loaded, hex_rows_are_unique, lines_are_the_file,
    lines_have_their_sizes, segments_of_texts_are_loadable, texts_are_loaded,
    texts_are_within_limits,
};
pub use limits::LoadError;
pub use lines::Lines;
pub use loading::load;
pub use marks::line_marks;
pub use report_error::ReportError;
pub use reporting::{Wanted, write_reports};
pub use sections::segments;
pub use segment::Segment;
pub use segment_bytes::SegmentBytes;
pub use text_symbols::{Symbol, first_names, first_symbols, searched, symbols};
pub use unknown_words::first_unknown_words;
