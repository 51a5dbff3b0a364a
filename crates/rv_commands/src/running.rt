//! The loop over the input.

ghost use Rattle.std.specs.Prelude.{◌≡◌, ◌-◌, ◌^◌, ◌<◌, true, [], length, OnOk, IfErr};
ghost use Rattle.rv_layout.specs.Places.{is_base};
ghost use Rattle.rv_commands.specs.Outcomes.{EndsWell, EndsEarly, IsReadCount, failures_by_write};
ghost use Rattle.rv_commands.specs.Steps.{Finishes, failures_by_answer};

use crate::answer::answer_alone;
use crate::answer_error::AnswerError;
use crate::chunk::{answer_chunk, read_chunk};
use crate::run_error::RunError;
use rv_store::Store;
use rv_text::{Sink, Source};
use std::alloc::Global;

/// How many bytes of input are read at most.
pub const MAX_INPUT: usize = 67108864;

// How many bytes are read at once at most.
const CHUNK: usize = 8192;

// Answers the last piece of the input, which is a command unless it is empty.
fn finish<W: Sink>(
    alloc: Global,
    store: &mut Store,
    sink: &mut W,
    piece: &[u8],
) -> Result<(), AnswerError>
    requires { W.failures sink.old < 2 ^ 64 - 1 }
    ensures text { Finishes store.old piece.now (W.taken sink.old) result (W.taken sink.new) }
    ensures count { W.failures sink.new ≡ failures_by_answer (W.failures sink.old) result }
{
    if piece.is_empty() {
        return Ok(());
    }
    answer_alone(alloc, store, sink, piece)
}

// Answers the commands of the input over an empty text, with a buffer for what is read at once.
fn answer_input<R: Source, W: Sink>(
    alloc: Global,
    store: &mut Store,
    source: &mut R,
    sink: &mut W,
    buffer: &mut [u8],
) -> Result<(), RunError>
    requires empty { store.old.lines ≡ [] }
    requires room { 0 < length buffer.old }
    requires reads { R.failures source.old < 2 ^ 64 - 1 }
    requires writes { W.failures sink.old < 2 ^ 64 - 1 }
    ensures ok { OnOk result (EndsWell store.old.base (R.left source.old) (R.left source.new) (W.taken sink.old) (W.taken sink.new)) }
    ensures err { IfErr result (λ e. EndsEarly e store.old.base (R.failures source.old) (R.failures source.new)
        (R.left source.old) (R.left source.new) (W.taken sink.old) (W.taken sink.new)) }
    ensures reads { IsReadCount (R.failures source.old) result (R.failures source.new) }
    ensures writes { W.failures sink.new ≡ failures_by_write (W.failures sink.old) result }
{
    let mut pending: Vec<u8> = Vec::new(alloc);
    let mut total: usize = 0;
    'reading: while total < MAX_INPUT {
        let Ok(n) = read_chunk(source, buffer, MAX_INPUT - total) else {
            return Err(RunError::Read);
        };
        if n == 0 {
            finish(alloc, store, sink, pending.as_slice())?;
            return Ok(());
        }
        let (chunk, _) = buffer.split_at(n);
        answer_chunk(alloc, store, sink, &mut pending, chunk)?;
        total += n;
    }
    let Ok(beyond) = read_chunk(source, buffer, 1) else {
        return Err(RunError::Read);
    };
    if beyond > 0 {
        return Err(RunError::Read);
    }
    finish(alloc, store, sink, pending.as_slice())?;
    Ok(())
}

/// Answers the commands of the input over a text that is empty at first and begins at the base. A command is answered
/// before any further read once its line break was read.
pub fn run<R: Source, W: Sink>(
    alloc: Global,
    source: &mut R,
    sink: &mut W,
    base: u32,
) -> Result<(), RunError>
    requires base { is_base base ≡ true }
    requires reads { R.failures source.old < 2 ^ 64 - 1 }
    requires writes { W.failures sink.old < 2 ^ 64 - 1 }
    ensures ok { OnOk result (EndsWell base (R.left source.old) (R.left source.new) (W.taken sink.old) (W.taken sink.new)) }
    ensures err { IfErr result (λ e. EndsEarly e base (R.failures source.old) (R.failures source.new)
        (R.left source.old) (R.left source.new) (W.taken sink.old) (W.taken sink.new)) }
    ensures reads { IsReadCount (R.failures source.old) result (R.failures source.new) }
    ensures writes { W.failures sink.new ≡ failures_by_write (W.failures sink.old) result }
{
    let Ok(mut store) = Store::new(alloc, base) else {
        unreachable!()
    };
    let mut buffer = [0u8; CHUNK];
    answer_input(alloc, &mut store, source, sink, &mut buffer)
}
