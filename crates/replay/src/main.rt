//! Answers the rows of a script, by the calls of a store and of what stands on it. What it prints is the script, with the answer of
//! a row behind ` => `. `# REMARK` and empty rows say nothing.
//!
//! A row `base B` begins a text without lines, from whose base on its sections lie. Where B is no base, its refusal, and the text
//! stays. Rows that make its edits are `a LINE`, `i K LINE`, `r K LINE` and `d K`, as in the commands of the editor. The answer has
//! the numbers of the lines that have another code, or the number of the refusal. More rows about a text:
//!
//! - `spelled EDIT`: an edit whose LINE is spelled by strings of the language, as in `"a" 3 * "b"`.
//! - `repeat N LINE`: LINE is put behind the others N times; the answer is how many lines there are then.
//! - `chain N`: `.equ n0, 1`, `.equ n1, n0 + 1` and so on, N lines, are put behind the others; the answer is that of `repeat`.
//! - `loaded`: the same text, loaded at once, is put in its place, for the rows that follow; the answer is that of `repeat`.
//! - `again`: the last edit once more, where it found no memory.
//! - `counts P V E`: whether the last edit, or `loaded`, read P lines, and computed at most V values and encoded at most E lines; a refused
//!   one may have read none.
//! - `length`: how many lines there are.
//! - `line K`, `tokens K`: the bytes of line K as the language spells them in a string, and how many tokens it has.
//! - `code K`: the bytes of line K in hexadecimal digits, or `-` where there are none, and the name and the span of its fault.
//! - `address K`, `symbol NAME`: where line K lies, and what NAME is.
//! - `show`: each line, with its address and code; and the image, the symbols, the listing and the faults.
//! - `faults`: the faults; `hash faults`: how many bytes these are, and their FNV-1a hash of 64 bits.
//! - `base_ok B`, `errors`: whether B is a base, and the numbers of the refusals.
//!
//! A row `session B` begins a session of the editor without commands, over a text whose sections lie from B on. Rows about it:
//!
//! - `> COMMAND`: a command, with its line break.
//! - `spelled BYTES`: bytes that strings of the language spell, as in `"a" 3 * "b"`.
//! - `repeat N ROW`: N times the bytes of a row of these two kinds.
//! - `run`: how a run over the bytes so far ends, and what it writes beyond that of the last run.
//! - `run by 3`: whether a run whose reader gives three bytes at once ends and writes as the last one.
//! - `run in brief`: how a run ends, how many bytes it writes, and their FNV-1a hash of 64 bits.
//! - `writes`: in how many calls of the writer the last run wrote.
//! - `reads fail`: call 1, 2 and so on of a reader of three bytes at once is failed, up to a run that ends well. How many bytes
//!   of the answers each run writes before it ends with a read fault.
//! - `writes fail`: the same of a writer that takes three bytes at once; which runs write none, some and all of the answers.
//! - `interrupted N`: how a run ends whose reader is interrupted behind N bytes, and how many bytes of the answers it writes.
//! - `edits`, `edits fail`: a list of edits, and bytes that are disassembled, by `live_assembler_is_exact`.
//! - `errors`: the numbers, statuses and messages of the ends of a run.
//!
//! A row `searched K` makes a text of 16,384 lines of which line K alone uses a name, and searches for it: whether the line is found, and about how
//! many thousand parts the search was asked.
//!
//! A row `call NAME` makes a call, once more where it finds no memory, and is answered what came of it. `tools/refusals` runs such
//! a row with each request for memory refused in turn. What a call needs is made with it, so that this may be refused too. Whatever
//! is refused, the call says that there was no memory, leaves its arguments as its contract says, and is made when it is asked again.
#![tactic(auto)]

mod calls;
mod editor;
mod script;
mod searches;
mod texts;

use calls::outcome_of;
use editor::Session;
use script::{number_in, number_of, parts_of};
use searches::searched;
use std::io::Read;
use std::test::Fail;
use texts::Text;

// A text and a session of the editor, and which of them the rows are about.
#[derive(Drop)]
struct Replay<'a> {
    text: Text<'a>,
    session: Session,
    is_session: bool,
}

impl<'a> Replay<'a> {
    // Begins a text.
    fn begin_text(&mut self, rt: &HostRuntime, row: &str, base: u32) -> Result<(), Fail> {
        self.is_session = false;
        self.text.begin(rt, row, base)
    }

    // Begins a session.
    fn begin_session(&mut self, rt: &HostRuntime, row: &str, base: u32) -> Result<(), Fail> {
        self.is_session = true;
        self.session = Session::new(rt.alloc(), base);
        println!(rt; "{row}")?;
        Ok(())
    }

    // Prints a row about the text or the session, with its answer.
    fn answer(&mut self, rt: &HostRuntime, row: &'a str) -> Result<(), Fail> {
        if self.is_session {
            self.session.answer(rt, row)
        } else {
            self.text.answer(rt, row)
        }
    }

    // Prints a row with its answer.
    fn print_answered(&mut self, rt: &HostRuntime, row: &'a str) -> Result<(), Fail> {
        let (name, rest) = parts_of(row);
        match name {
            "base" => match number_of(rest) {
                Some(base) => self.begin_text(rt, row, base),
                None => self.answer(rt, row),
            },
            "session" => match number_of(rest) {
                Some(base) => self.begin_session(rt, row, base),
                None => self.answer(rt, row),
            },
            "searched" => {
                let found = searched(rt.alloc(), number_in(rest)?)?;
                Ok(println!(rt; "{row} => {found}")?)
            }
            "call" => Ok(println!(rt; "{row} => {}", outcome_of(rt.alloc(), rest))?),
            _ => self.answer(rt, row),
        }
    }
}

// Prints the rows with their answers.
fn print_rows(rt: &HostRuntime, script: &str) -> Result<(), Fail> {
    let mut replay = Replay {
        text: Text::new(rt.alloc(), 0)?,
        session: Session::new(rt.alloc(), 0),
        is_session: false,
    };
    for row in script.lines() {
        if row.is_empty() || row.starts_with("#") {
            println!(rt; "{row}")?;
        } else {
            replay.print_answered(rt, row)?;
        }
    }
    Ok(())
}

fn main(rt: HostRuntime) -> Result<(), Fail> {
    let mut input = Vec::new(rt.alloc());
    rt.reader().read_to_end(&mut input)?;
    print_rows(&rt, str::from_utf8(input.as_slice())?)
}
