//! The rows of a session.

use crate::editor::edited::{failing_edits, shown_edits};
use crate::editor::failing::{failing_reads, failing_writes};
use crate::editor::interrupted::end_where_interrupted;
use crate::editor::running::{ALL, Calls, Ended, end_text, reports, run_of};
use crate::script::{hash_of, number_in, parts_of, push_times, spelled_bytes};
use std::alloc::Global;
use std::test::Fail;

/// The bytes of a session, and what the last run over them wrote.
#[derive(Drop)]
pub struct Session {
    base: u32,
    input: Vec<u8>,
    output: Vec<u8>,
    end: &'static str,
    writes: u64,
}

// The bytes of a row of commands.
fn command_bytes(alloc: Global, row: &str) -> Result<Vec<u8>, Fail> {
    let (name, rest) = parts_of(row);
    match name {
        ">" => Ok(Vec::from_slice(alloc, format!(in alloc; "{rest}\n")?.as_bytes())?),
        "spelled" => spelled_bytes(alloc, rest),
        _ => Err(Fail::new("a row of no kind")),
    }
}

// What a run wrote behind the answers before it.
fn new_answers<'a>(output: &'a [u8], before: &[u8]) -> Result<&'a [u8], Fail> {
    if !output.starts_with(before) {
        return Err(Fail::new("answers that are not those of the run before"));
    }
    let (_, new) = output.split_at(before.len());
    Ok(new)
}

impl Session {
    /// A session without commands.
    pub fn new(alloc: Global, base: u32) -> Self {
        Session {
            base,
            input: Vec::new(alloc),
            output: Vec::new(alloc),
            end: "none",
            writes: 0,
        }
    }

    // Puts the bytes of a row behind the others so many times.
    fn push(&mut self, alloc: Global, row: &str, count: u32) -> Result<(), Fail> {
        let bytes = command_bytes(alloc, row)?;
        Ok(push_times(&mut self.input, bytes.as_slice(), count)?)
    }

    // Runs over the bytes.
    fn run(&self, alloc: Global, reads: Calls) -> Result<Ended, Fail> {
        run_of(alloc, self.base, self.input.as_slice(), reads, ALL)
    }

    // Keeps what a run wrote, and says how it ended.
    fn keep(&mut self, alloc: Global, ended: &Ended) -> Result<&'static str, Fail> {
        self.output = Vec::from_slice(alloc, ended.output())?;
        self.end = end_text(ended.done);
        self.writes = ended.writes();
        Ok(self.end)
    }

    // How a run ends, and below that what it writes beyond that of the last one.
    fn run_further(&mut self, alloc: Global) -> Result<String, Fail> {
        let ended = self.run(alloc, ALL)?;
        let new = new_answers(ended.output(), self.output.as_slice())?;
        let text = Vec::from_slice(alloc, new)?;
        let end = self.keep(alloc, &ended)?;
        Ok(format!(in alloc; "{end}\n{}", str::from_utf8(text.as_slice())?)?)
    }

    // How a run ends, how many bytes it writes, and their hash.
    fn run_in_brief(&mut self, alloc: Global) -> Result<String, Fail> {
        let ended = self.run(alloc, ALL)?;
        let end = self.keep(alloc, &ended)?;
        let output = self.output.as_slice();
        Ok(format!(in alloc; "{end}, {} bytes, {:016x}\n", output.len(), hash_of(output))?)
    }

    // Whether a run whose reader gives few bytes at once ends and writes as the last one.
    fn run_by(&self, alloc: Global, most: u32) -> Result<String, Fail> {
        let most = most as usize;
        let ended = self.run(alloc, Calls { most, failing: 0 })?;
        if end_text(ended.done) == self.end && ended.output() == self.output.as_slice() {
            return Ok(format!(in alloc; "the same\n")?);
        }
        Ok(format!(in alloc; "another\n")?)
    }

    // What a row that is no command asks for.
    fn answer_text(&mut self, alloc: Global, row: &str) -> Result<String, Fail> {
        let (input, output) = (self.input.as_slice(), self.output.as_slice());
        let (name, rest) = parts_of(row);
        match row {
            "run" => self.run_further(alloc),
            "run in brief" => self.run_in_brief(alloc),
            "run by 3" => self.run_by(alloc, 3),
            "writes" => Ok(format!(in alloc; "{}\n", self.writes)?),
            "reads fail" => failing_reads(alloc, self.base, input, output),
            "writes fail" => failing_writes(alloc, self.base, input, output),
            "edits" => shown_edits(alloc),
            "edits fail" => failing_edits(alloc),
            "errors" => Ok(reports(alloc)?),
            _ if name == "interrupted" => {
                end_where_interrupted(alloc, self.base, input, number_in(rest)?, output)
            }
            _ => Err(Fail::new("a row that is no command and no question")),
        }
    }

    /// Takes the bytes of a row, or prints what it asks for.
    pub fn answer(&mut self, rt: &HostRuntime, row: &str) -> Result<(), Fail> {
        let (name, rest) = parts_of(row);
        match name {
            ">" | "spelled" => {
                self.push(rt.alloc(), row, 1)?;
                println!(rt; "{row}")?;
            }
            "repeat" => {
                let (count, repeated) = parts_of(rest);
                self.push(rt.alloc(), repeated, number_in(count)?)?;
                println!(rt; "{row}")?;
            }
            _ => print!(rt; "{row} => {}", self.answer_text(rt.alloc(), row)?)?,
        }
        Ok(())
    }
}
