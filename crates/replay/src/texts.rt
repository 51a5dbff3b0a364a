//! Texts, their edits, and what is asked of them.

mod answers;
mod both_faults;
mod edits;
mod loaded;
mod text;

pub use text::Text;
