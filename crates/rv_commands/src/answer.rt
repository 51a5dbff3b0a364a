//! The answer to one command.

ghost use Rattle.std.specs.Prelude.{◌≡◌, ◌-◌, ◌^◌, ◌<◌, ◌≤◌};
ghost use Rattle.rv_text.specs.Streams.{failures_after};
ghost use Rattle.rv_text.specs.Blocks.{Gathers};
ghost use Rattle.rv_program.specs.Edits.{edit_of};
ghost use Rattle.rv_commands.specs.Disassembly.{IsDisassembly};
ghost use Rattle.rv_commands.specs.Pages.{page_text};
ghost use Rattle.rv_commands.specs.Steps.{edit_answer, AnswersCommand, GathersAnswer, GathersEditAnswer, GathersOne, failures_by_answer};

use crate::answer_error::AnswerError;
use crate::command::{Command, read_command};
use crate::disassembly::{push_disassembly, section_rows};
use crate::edits::make_edit;
use crate::numbered::push_numbered;
use crate::pages::{Page, write_page};
use rv_layout::CODE_SECTIONS;
use rv_store::{EditError, LineEdit, Store};
use rv_text::{Failed, OutputBlock, Sink};
use std::alloc::Global;

// Answers an edit that was tried, after which there are `len` lines.
fn answer_edit<W: Sink>(
    block: &mut OutputBlock,
    sink: &mut W,
    len: usize,
    edited: &Result<(), EditError>,
) -> Result<(), Failed>
    requires failures { W.failures sink.old < 2 ^ 64 - 1 }
    requires few { len ≤ 16384 }
    ensures text { Gathers (W.taken sink.old) block.old (edit_answer len edited.now) result (W.taken sink.new) block.new }
    ensures count { W.failures sink.new ≡ failures_after (W.failures sink.old) result }
{
    match edited {
        Ok(_) => push_numbered(block, sink, b"ok ", len),
        Err(reason) => push_numbered(block, sink, b"refused ", usize::from(reason.number())),
    }
}

// Makes an edit, and answers it.
fn answer_change<W: Sink>(
    store: &mut Store,
    block: &mut OutputBlock,
    sink: &mut W,
    edit: LineEdit<'_>,
) -> Result<(), Failed>
    requires { W.failures sink.old < 2 ^ 64 - 1 }
    ensures text { GathersEditAnswer store.old (edit_of edit.entry) (W.taken sink.old) block.old result (W.taken sink.new) block.new store.new }
    ensures count { W.failures sink.new ≡ failures_after (W.failures sink.old) result }
{
    let edited = make_edit(store, edit);
    let len = store.len();
    answer_edit(block, sink, len, &edited)
}

// Writes a page after the answers before it. It stays a call, so that an edit has not the blocks of all pages on the stack.
#[inline(never)]
fn answer_page<W: Sink>(
    block: &mut OutputBlock,
    sink: &mut W,
    store: &Store,
    page: Page,
) -> Result<(), Failed>
    requires { W.failures sink.old < 2 ^ 64 - 1 }
    ensures text { Gathers (W.taken sink.old) block.old (page_text page store.now) result (W.taken sink.new) block.new }
    ensures count { W.failures sink.new ≡ failures_after (W.failures sink.old) result }
{
    block.flush(sink)?;
    match write_page(page, store, sink) {
        Ok(()) => Ok(()),
        Err(_) => Err(Failed),
    }
}

// Adds the disassembly of the sections of code, once there is memory for all of it.
fn answer_disassembly<W: Sink>(
    alloc: Global,
    block: &mut OutputBlock,
    sink: &mut W,
    store: &Store,
) -> Result<(), AnswerError>
    requires { W.failures sink.old < 2 ^ 64 - 1 }
    ensures text { GathersOne (IsDisassembly store.now) (W.taken sink.old) block.old result (W.taken sink.new) block.new }
    ensures count { W.failures sink.new ≡ failures_by_answer (W.failures sink.old) result }
{
    let [init, text] = CODE_SECTIONS;
    let first = section_rows(alloc, store, init)?;
    let next = section_rows(alloc, store, text)?;
    push_disassembly(block, sink, &first, &next)?;
    Ok(())
}

/// Does what a command, without its line break, asks for, and gathers the answer.
pub fn answer_command<W: Sink>(
    alloc: Global,
    store: &mut Store,
    block: &mut OutputBlock,
    sink: &mut W,
    command: &[u8],
) -> Result<(), AnswerError>
    requires { W.failures sink.old < 2 ^ 64 - 1 }
    ensures text { GathersAnswer store.old command.now (W.taken sink.old) block.old result (W.taken sink.new) block.new store.new }
    ensures count { W.failures sink.new ≡ failures_by_answer (W.failures sink.old) result }
{
    match read_command(command) {
        Some(Command::Append(line)) => {
            let last = store.len() as u32 + 1;
            let edit = LineEdit::Insert(last, line);
            answer_change(store, block, sink, edit).map_err(AnswerError::from)
        }
        Some(Command::Change(edit)) => {
            answer_change(store, block, sink, edit).map_err(AnswerError::from)
        }
        Some(Command::Show(page)) => {
            answer_page(block, sink, store, page).map_err(AnswerError::from)
        }
        Some(Command::Disassemble) => answer_disassembly(alloc, block, sink, store),
        None => block.push(sink, b"bad\n").map_err(AnswerError::from),
    }
}

/// Answers a command, and writes the answer.
pub fn answer_alone<W: Sink>(
    alloc: Global,
    store: &mut Store,
    sink: &mut W,
    command: &[u8],
) -> Result<(), AnswerError>
    requires { W.failures sink.old < 2 ^ 64 - 1 }
    ensures text { AnswersCommand store.old command.now (W.taken sink.old) result (W.taken sink.new) store.new }
    ensures count { W.failures sink.new ≡ failures_by_answer (W.failures sink.old) result }
{
    let mut block = OutputBlock::new();
    answer_command(alloc, store, &mut block, sink, command)?;
    block.flush(sink)?;
    Ok(())
}
