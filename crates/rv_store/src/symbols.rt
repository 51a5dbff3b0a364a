//! The symbols of a text.

/// What a symbol is.
#[derive(Clone, Copy, Debug, PartialEq, Eq)]
pub enum SymValue {
    /// A label, by its address.
    Label(u32),
    /// The symbol of an `.equ`, with its value if it has one.
    Equ(Option<i64>),
}
