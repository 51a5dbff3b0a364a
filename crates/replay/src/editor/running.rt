//! Runs of the editor over bytes in memory.

ghost use Rattle.std.specs.Prelude.{◌≡◌, true, IfOk};
ghost use Rattle.rv_layout.specs.Places.{is_base};

use crate::editor::pieces::Pieces;
use rv_commands::{RunError, message, run, status};
use rv_store::base_ok;
use rv_text::{FailsAt, MemSink, MemSource, TextError};
use std::alloc::{AllocError, Global};
use std::test::Fail;

/// How the calls of a reader or a writer go.
#[derive(Clone, Copy)]
pub struct Calls {
    /// How many bytes a call gives or takes at most.
    pub most: usize,
    /// The number of the call that fails, or 0.
    pub failing: u64,
}

/// All bytes are given or taken, and no call fails.
pub const ALL: Calls = Calls {
    most: usize::MAX,
    failing: 0,
};

/// How a run ended, and what was written.
#[derive(Drop)]
pub struct Ended {
    pub done: Result<(), RunError>,
    sink: FailsAt<Pieces<MemSink>>,
}

impl Ended {
    /// What was written.
    pub fn output(&self) -> &[u8] {
        self.sink.inner.inner.bytes()
    }

    /// How many calls of the writer there were.
    pub fn writes(&self) -> u64 {
        self.sink.inner.calls
    }
}

/// What is taken of at most 256 KiB.
pub fn sink_of(alloc: Global, writes: Calls) -> Result<FailsAt<Pieces<MemSink>>, TextError>
    ensures inside { IfOk result (λ sink. sink.inner.inner.failures ≡ 0) }
    ensures outside { IfOk result (λ sink. sink.failures ≡ 0) }
{
    let inner = MemSink::new(alloc, 262_144)?;
    Ok(FailsAt::new(Pieces::new(inner, writes.most), writes.failing))
}

// Runs over the bytes.
fn run_over(
    alloc: Global,
    base: u32,
    input: &[u8],
    reads: Calls,
    writes: Calls,
) -> Result<Ended, TextError>
    requires { is_base base ≡ true }
{
    let bytes = Pieces::new(MemSource::new(input), reads.most);
    let mut source = FailsAt::new(bytes, reads.failing);
    let mut sink = sink_of(alloc, writes)?;
    let done = run(alloc, &mut source, &mut sink, base);
    Ok(Ended { done, sink })
}

/// The base of a session, where it is one.
pub fn session_base(base: u32) -> Result<u32, Fail>
    ensures { IfOk result (λ b. is_base b ≡ true) }
{
    if !base_ok(base) {
        return Err(Fail::new("a session with a wrong base"));
    }
    Ok(base)
}

/// Runs over the bytes.
pub fn run_of(
    alloc: Global,
    base: u32,
    input: &[u8],
    reads: Calls,
    writes: Calls,
) -> Result<Ended, Fail> {
    let base = session_base(base)?;
    Ok(run_over(alloc, base, input, reads, writes)?)
}

/// How a run ended, as a word.
pub fn end_text(done: Result<(), RunError>) -> &'static str {
    match done {
        Ok(()) => "ok",
        Err(RunError::Read) => "read fault",
        Err(RunError::Write) => "write fault",
        Err(RunError::Memory) => "out of memory",
    }
}

// The number, the status and the message of an error.
fn report(alloc: Global, error: RunError) -> Result<String, AllocError> {
    format!(in alloc; "{} {} {}", error.number(), status(&error), message(&error))
}

/// The numbers, statuses and messages of the errors.
pub fn reports(alloc: Global) -> Result<String, AllocError> {
    let read = report(alloc, RunError::Read)?;
    let write = report(alloc, RunError::Write)?;
    let memory = report(alloc, RunError::Memory)?;
    format!(in alloc; "{read}; {write}; {memory}\n")
}
