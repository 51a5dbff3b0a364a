//! Calls that may find no memory.

mod call;
mod code_calls;
mod dis_calls;
mod edited_call;
mod list_call;
mod load_call;
mod statement_calls;
mod text_calls;
mod tree_call;

use call::{Answer, CALLS, Call};
use code_calls::{code, line_alone, line_read, line_with_names, payload_bytes, values};
use dis_calls::{rows, text_of_instruction};
use edited_call::edited;
use list_call::bytes_of_section;
use load_call::load;
use statement_calls::{directive, expression, instruction, name};
use std::alloc::Global;
use text_calls::{items, room, sink, tokens_of_line};

// Makes a call.
fn make(alloc: Global, call: Call) -> Answer {
    match call {
        Call::Tokens => tokens_of_line(alloc),
        Call::Sink => sink(alloc),
        Call::Items => items(alloc),
        Call::Room => room(alloc),
        Call::Name => name(alloc),
        Call::Expression => expression(alloc),
        Call::Instruction => instruction(alloc),
        Call::Directive => directive(alloc),
        Call::Values => values(alloc),
        Call::Code => code(alloc),
        Call::LineAlone => line_alone(alloc),
        Call::LineRead => line_read(alloc),
        Call::LineWithNames => line_with_names(alloc),
        Call::PayloadBytes => payload_bytes(alloc),
        Call::InstructionText => text_of_instruction(alloc, 0x00b5_0463),
        Call::Rows => rows(alloc),
        Call::SectionBytes => bytes_of_section(alloc),
        Call::Tree(call) => call.make(alloc),
        Call::Edited => edited(alloc),
        Call::Load => load(alloc),
    }
}

// What came of a call.
fn outcome(alloc: Global, call: Call) -> &'static str {
    match make(alloc, call) {
        Answer::Right => "made",
        Answer::Refused if make(alloc, call) == Answer::Right =>
            "refused, and made when asked again",
        _ => "WRONG",
    }
}

/// Makes the call of this name, once more where it finds no memory, and says what came of it.
pub fn outcome_of(alloc: Global, name: &str) -> &'static str {
    for (known, call) in &CALLS {
        if name == *known {
            return outcome(alloc, *call);
        }
    }
    "no such call"
}
