//! A chunk of the input: how it is read, and how its commands are answered.

ghost use Rattle.std.specs.Prelude.{◌≡◌, ◌-◌, ◌^◌, ◌<◌, ◌++◌, ◌∷◌, [], length, IfOk, OnOk, OnErr, IfErr};
ghost use Rattle.rv_text.specs.Streams.{failures_after};
ghost use Rattle.rv_commands.specs.Steps.{IsUnbroken, Answered, Gathered, StopsGathering, StopsBy, ReadsChunk, failures_by_answer};

use crate::answer::answer_command;
use crate::answer_error::AnswerError;
use memchr::memchr;
use rv_store::Store;
use rv_text::{Failed, OutputBlock, Sink, Source};
use std::alloc::Global;

/// Reads some bytes, at most that many, to the start of the buffer, and says how many.
pub fn read_chunk<R: Source>(
    source: &mut R,
    buffer: &mut [u8],
    most: usize,
) -> Result<usize, Failed>
    requires failures { R.failures source.old < 2 ^ 64 - 1 }
    requires room { 0 < length buffer.old }
    requires some { 0 < most }
    ensures ok { IfOk result (λ n. ReadsChunk (R.left source.old) (R.left source.new) buffer.new most n) }
    ensures failed { OnErr result (R.left source.new ≡ R.left source.old) }
    ensures count { R.failures source.new ≡ failures_after (R.failures source.old) result }
{
    let (prefix, _) = buffer.split_at_mut(most.min(buffer.len()));
    source.read(prefix)
}

/// Gathers the answer to each command of these bytes that a line break ends, and returns what is left of them.
pub fn answer_commands<'a, W: Sink>(
    alloc: Global,
    store: &mut Store,
    block: &mut OutputBlock,
    sink: &mut W,
    bytes: &'a [u8],
) -> Result<&'a [u8], AnswerError>
    requires { W.failures sink.old < 2 ^ 64 - 1 }
    ensures ok { IfOk result (λ rest. Gathered store.old bytes.entry.now rest.now (W.taken sink.old) block.old (W.taken sink.new) block.new store.new) }
    ensures unbroken { IfOk result (λ rest. IsUnbroken rest.now) }
    ensures err { IfErr result (λ e. StopsGathering e store.old bytes.entry.now (W.taken sink.old) block.old (W.taken sink.new) block.new) }
    ensures count { W.failures sink.new ≡ failures_by_answer (W.failures sink.old) result }
{
    let mut rest = bytes;
    'commands: while let Some(at) = memchr(b'\n', rest) {
        let (command, after) = rest.split_at(at);
        answer_command(alloc, store, block, sink, command)?;
        let (_, next) = after.split_at(1);
        rest = next;
    }
    Ok(rest)
}

// Gathers the answers to a first command and to each command of the bytes after its line break, and returns what is left
// of the bytes.
fn gather_all<'a, W: Sink>(
    alloc: Global,
    store: &mut Store,
    block: &mut OutputBlock,
    sink: &mut W,
    first: &[u8],
    bytes: &'a [u8],
) -> Result<&'a [u8], AnswerError>
    requires failures { W.failures sink.old < 2 ^ 64 - 1 }
    requires unbroken { IsUnbroken first.now }
    ensures ok { IfOk result (λ rest. Gathered store.old (first.now ++ 10 ∷ bytes.entry.now) rest.now (W.taken sink.old) block.old (W.taken sink.new) block.new store.new) }
    ensures unbroken { IfOk result (λ rest. IsUnbroken rest.now) }
    ensures err { IfErr result (λ e. StopsGathering e store.old (first.now ++ 10 ∷ bytes.entry.now) (W.taken sink.old) block.old (W.taken sink.new) block.new) }
    ensures count { W.failures sink.new ≡ failures_by_answer (W.failures sink.old) result }
{
    answer_command(alloc, store, block, sink, first)?;
    answer_commands(alloc, store, block, sink, bytes)
}

/// Answers a first command and each command of the bytes after its line break, writes the answers, and returns what is
/// left of the bytes. Where memory runs out, the answers before are written.
pub fn answer_all<'a, W: Sink>(
    alloc: Global,
    store: &mut Store,
    sink: &mut W,
    first: &[u8],
    bytes: &'a [u8],
) -> Result<&'a [u8], AnswerError>
    requires failures { W.failures sink.old < 2 ^ 64 - 1 }
    requires unbroken { IsUnbroken first.now }
    ensures ok { IfOk result (λ rest. Answered store.old (first.now ++ 10 ∷ bytes.entry.now) rest.now (W.taken sink.old) (W.taken sink.new) store.new) }
    ensures unbroken { IfOk result (λ rest. IsUnbroken rest.now) }
    ensures err { IfErr result (λ e. StopsBy e store.old (first.now ++ 10 ∷ bytes.entry.now) (W.taken sink.old) (W.taken sink.new)) }
    ensures count { W.failures sink.new ≡ failures_by_answer (W.failures sink.old) result }
{
    let mut block = OutputBlock::new();
    match gather_all(alloc, store, &mut block, sink, first, bytes) {
        Ok(rest) => {
            block.flush(sink)?;
            Ok(rest)
        }
        Err(AnswerError::Memory) => {
            block.flush(sink)?;
            Err(AnswerError::Memory)
        }
        Err(AnswerError::Write) => Err(AnswerError::Write),
    }
}

/// Answers the commands that this chunk ends, of which the pending bytes begin the first, and keeps what is left as
/// the pending bytes.
pub fn answer_chunk<W: Sink>(
    alloc: Global,
    store: &mut Store,
    sink: &mut W,
    pending: &mut Vec<u8>,
    chunk: &[u8],
) -> Result<(), AnswerError>
    requires failures { W.failures sink.old < 2 ^ 64 - 1 }
    requires unbroken { IsUnbroken pending.old.items }
    ensures ok { OnOk result (Answered store.old (pending.old.items ++ chunk.now) pending.new.items (W.taken sink.old) (W.taken sink.new) store.new) }
    ensures unbroken { OnOk result (IsUnbroken pending.new.items) }
    ensures err { IfErr result (λ e. StopsBy e store.old (pending.old.items ++ chunk.now) (W.taken sink.old) (W.taken sink.new)) }
    ensures count { W.failures sink.new ≡ failures_by_answer (W.failures sink.old) result }
{
    let Some(at) = memchr(b'\n', chunk) else {
        pending.extend_from_slice(chunk)?;
        return Ok(());
    };
    let (head, after) = chunk.split_at(at);
    pending.extend_from_slice(head)?;
    let (_, next) = after.split_at(1);
    let rest = answer_all(alloc, store, sink, pending.as_slice(), next)?;
    pending.clear();
    pending.extend_from_slice(rest)?;
    Ok(())
}
