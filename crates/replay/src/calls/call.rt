//! The calls, and what one can answer.

use crate::calls::tree_call::TreeCall;

/// Which call is made.
#[derive(Clone, Copy)]
pub enum Call {
    Tokens,
    Sink,
    Items,
    Room,
    Name,
    Expression,
    Instruction,
    Directive,
    Values,
    Code,
    LineAlone,
    LineRead,
    LineWithNames,
    PayloadBytes,
    InstructionText,
    Rows,
    SectionBytes,
    Tree(TreeCall),
    Edited,
    Load,
}

/// The calls, by the names that the input gives them.
pub const CALLS: [(&str, Call); 23] = [
    ("tokens", Call::Tokens),
    ("sink", Call::Sink),
    ("items", Call::Items),
    ("room", Call::Room),
    ("name", Call::Name),
    ("expression", Call::Expression),
    ("instruction", Call::Instruction),
    ("directive", Call::Directive),
    ("values", Call::Values),
    ("code", Call::Code),
    ("line_alone", Call::LineAlone),
    ("line_read", Call::LineRead),
    ("line_with_names", Call::LineWithNames),
    ("payload_bytes", Call::PayloadBytes),
    ("instruction_text", Call::InstructionText),
    ("rows", Call::Rows),
    ("section_bytes", Call::SectionBytes),
    ("tree_insert", Call::Tree(TreeCall::Insert)),
    ("tree_delete", Call::Tree(TreeCall::Delete)),
    ("tree_replace", Call::Tree(TreeCall::Replace)),
    ("tree_rewrite", Call::Tree(TreeCall::Rewrite)),
    ("edited", Call::Edited),
    ("load", Call::Load),
];

/// What a call answered.
#[derive(Clone, Copy, PartialEq, Eq)]
pub enum Answer {
    /// What it has to.
    Right,
    /// That there was no memory, and all was as before.
    Refused,
    /// Something else.
    Wrong,
}

impl Answer {
    /// That of a call that found memory.
    pub fn of(is_right: bool) -> Answer {
        if is_right {
            Answer::Right
        } else {
            Answer::Wrong
        }
    }

    /// That of a call that found none, all being as before, and that was made once more.
    pub fn after_refusal(is_right: bool) -> Answer {
        if is_right {
            Answer::Refused
        } else {
            Answer::Wrong
        }
    }
}
