//! Parts of messages.

/// A token of JSON; a number by its value.
#[derive(Clone, Copy)]
pub enum Part<'a> {
    BeginObject,
    EndObject,
    BeginArray,
    EndArray,
    Key(&'a str),
    Text(&'a str),
    Number(u64),
    Boolean(bool),
}
