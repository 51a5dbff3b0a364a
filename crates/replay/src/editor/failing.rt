//! Runs of which one call of the reader or the writer fails.

use crate::editor::running::{ALL, Calls, Ended, end_text, run_of};
use std::alloc::{AllocError, Global};
use std::test::Fail;

// Three bytes at once, and this call fails.
fn three_bytes(failing: u64) -> Calls {
    Calls { most: 3, failing }
}

// How many of the answers a run wrote that a read fault ended, or what is wrong with it.
fn cut_answers(alloc: Global, ended: &Ended, answers: &[u8]) -> Result<String, AllocError> {
    let end = end_text(ended.done);
    if end == "read fault" && answers.starts_with(ended.output()) {
        return format!(in alloc; "{} ", ended.output().len());
    }
    format!(in alloc; "{end} after other answers ")
}

// Whether a run ended well and wrote all the answers.
fn is_whole(ended: &Ended, answers: &[u8]) -> bool {
    ended.done.is_ok() && ended.output() == answers
}

/// How many bytes of the answers the runs write where call 1, 2 and so on of the reader fails, up to one that writes all.
pub fn failing_reads(
    alloc: Global,
    base: u32,
    input: &[u8],
    answers: &[u8],
) -> Result<String, Fail> {
    let mut text = String::new(alloc);
    for call in 1..1000u64 {
        let ended = run_of(alloc, base, input, three_bytes(call), ALL)?;
        if is_whole(&ended, answers) {
            text.push_str("all\n")?;
            return Ok(text);
        }
        text.push_str(cut_answers(alloc, &ended, answers)?.as_str())?;
    }
    Ok(text)
}

// Whether the first call leaves none of the answers and another one some, in a run that a write fault ended.
fn is_cut(ended: &Ended, answers: &[u8], call: u64) -> bool {
    end_text(ended.done) == "write fault"
        && answers.starts_with(ended.output())
        && ended.output().is_empty() == (call == 1)
}

// How many of the failing calls of the writer cut the answers, before a run that writes all.
fn cut_count(alloc: Global, base: u32, input: &[u8], answers: &[u8]) -> Result<u64, Fail> {
    for call in 1..1000u64 {
        let ended = run_of(alloc, base, input, ALL, three_bytes(call))?;
        if is_whole(&ended, answers) {
            return Ok(call.saturating_sub(1));
        }
        if !is_cut(&ended, answers, call) {
            return Err(Fail::new("answers that no write fault has cut"));
        }
    }
    Ok(0)
}

/// What the runs write where call 1, 2 and so on of the writer fails, up to one that writes all.
pub fn failing_writes(
    alloc: Global,
    base: u32,
    input: &[u8],
    answers: &[u8],
) -> Result<String, Fail> {
    let count = cut_count(alloc, base, input, answers)?;
    if count >= 150 {
        return Ok(format!(in alloc; "none, then some in 150 calls or more, then all\n")?);
    }
    Ok(format!(in alloc; "{count} calls\n")?)
}
