//! What people are shown of a text: parts of its lines, numbers, near names, and the rows of a report.
//!
//! Calls that append to a `Text` answer `AllocError` if there is no memory. Nothing is said of the text then.
#![tactic(auto)]

mod characters;
mod near_names;
mod numbers;
mod origins;
mod page;
mod parts;
mod rows;
mod text;
mod totals;

pub use characters::{is_visible, push_excerpt, size_of_first};
pub use near_names::{first_few, place_shown, push_did_you_mean, push_question, suggestions};
pub use numbers::{Notation, push_number_in};
pub use origins::{LineMark, Origin, origin_of};
pub use page::{Gravity, Page, Style};
pub use parts::{byte_at, bytes_from, first_bytes, part};
pub use rows::{push_line_row, push_mark_row, push_message_row, push_place};
pub use text::{Text, push_alternatives, upper_digit};
pub use totals::{push_amount, push_report_count};
