//! A session over a reader and a writer.

ghost use Rattle.std.specs.Prelude.{◌≡◌, ◌≤◌, ◌<◌, ◌-◌, ◌^◌, [], length, IfOk, OnOk};
ghost use Rattle.rv_text.specs.Streams.{Writes};
ghost use Rattle.rvls.specs.Steps.{IsStepWithin};
ghost use Rattle.rvls.specs.declared.run.RunError.TheVariants.{Memory};

use crate::server::{CUT_OFF, Next, Server};
use rv_doc::{Frame, frame_at};
use rv_show::bytes_from;
use rv_text::{Failed, Sink, Source, write_all};
use std::alloc::{AllocError, Global};

/// Why a session ended early.
#[derive(Clone, Copy)]
pub enum RunError {
    Read,
    Write,
    Memory,
}

impl From<AllocError> for RunError {
    ghost from_gives = { λ _ e. e ≡ Memory };

    fn from(_: AllocError) -> Self {
        RunError::Memory
    }
}

// How many bytes are read at once at most.
const CHUNK: usize = 65_536;

// What is said of a frame whose length is not known.
const BAD_FRAME: &str = "rvls: a message without a right Content-Length ends the session";

/// What the bytes at the front of those that were read come to.
#[derive(Clone, Copy)]
pub enum Step {
    /// They are not all of a frame.
    Wait,
    /// They begin with a frame of so many bytes, which is answered.
    Done(usize),
    /// The session ends with this status.
    Exit(u8),
}

// Answers a message, and says whether to go on. Where there is no memory for the whole answer, none of it stays.
fn answer_whole(server: &mut Server, body: &[u8], out: &mut Vec<u8>) -> Result<Next, AllocError> {
    let answered = out.len();
    match server.answer(body, out) {
        Ok(next) => Ok(next),
        Err(error) => {
            out.truncate(answered);
            Err(error)
        }
    }
}

// Answers the frame at the front of some bytes, if all of it is there.
fn answer_frame(server: &mut Server, bytes: &[u8], out: &mut Vec<u8>) -> Result<Step, AllocError>
    ensures { IfOk result (λ step. IsStepWithin step (length bytes.now)) }
{
    match frame_at(bytes) {
        Frame::More => Ok(Step::Wait),
        Frame::Bad => Ok(Step::Exit(server.give_up(BAD_FRAME, out)?)),
        Frame::Body(start, end) => {
            let (front, _) = bytes.split_at(end);
            let (_, body) = front.split_at(start);
            match answer_whole(server, body, out)? {
                Next::Go => Ok(Step::Done(end)),
                Next::Exit(status) => Ok(Step::Exit(status)),
            }
        }
    }
}

// Writes what is answered, of which nothing is left then.
fn write_answers<W: Sink>(out: &mut Vec<u8>, sink: &mut W) -> Result<(), RunError>
    requires { W.failures sink.old < 2 ^ 64 - 1 }
    ensures written { Writes (W.taken sink.old) out.old.items result (W.taken sink.new) }
    ensures empty { OnOk result (out.new.items ≡ []) }
    ensures count { OnOk result (W.failures sink.new ≡ W.failures sink.old) }
{
    let Ok(()) = write_all(sink, out.as_slice()) else {
        return Err(RunError::Write);
    };
    out.clear();
    Ok(())
}

// Publishes the diagnostics of the document that changed last, if no frame that was read is left.
fn publish_changed<W: Sink>(
    server: &mut Server,
    out: &mut Vec<u8>,
    sink: &mut W,
) -> Result<(), RunError>
    requires { W.failures sink.old < 2 ^ 64 - 1 }
    ensures { OnOk result (W.failures sink.new ≡ W.failures sink.old) }
{
    server.publish_changed(out)?;
    write_answers(out, sink)
}

// Answers the frames at the front of some bytes, each before the next one, and says how many bytes they have, and whether to go on.
fn answer_frames<W: Sink>(
    server: &mut Server,
    bytes: &[u8],
    out: &mut Vec<u8>,
    sink: &mut W,
) -> Result<(usize, Next), RunError>
    requires { W.failures sink.old < 2 ^ 64 - 1 }
    ensures within { IfOk result (λ r. r.0 ≤ length bytes.now) }
    ensures count { OnOk result (W.failures sink.new ≡ W.failures sink.old) }
{
    let mut at = 0;
    'frames: while at < bytes.len() {
        let (_, rest) = bytes.split_at(at);
        let step = answer_frame(server, rest, out)?;
        write_answers(out, sink)?;
        match step {
            Step::Wait => {
                publish_changed(server, out, sink)?;
                return Ok((at, Next::Go));
            }
            Step::Done(count) => at += count,
            Step::Exit(status) => return Ok((at, Next::Exit(status))),
        }
    }
    publish_changed(server, out, sink)?;
    Ok((at, Next::Go))
}

/// A session: the server, what was read and is not answered, and what is answered and not written.
#[derive(Drop)]
struct Session {
    alloc: Global,
    server: Server,
    pending: Vec<u8>,
    out: Vec<u8>,
}

impl Session {
    // A session that has not begun.
    fn new(alloc: Global) -> Session {
        Session {
            alloc,
            server: Server::new(alloc),
            pending: Vec::new(alloc),
            out: Vec::new(alloc),
        }
    }

    // Answers the frames that are whole with some bytes more, and says whether to go on.
    fn answer<W: Sink>(&mut self, chunk: &[u8], sink: &mut W) -> Result<Next, RunError>
        requires { W.failures sink.old < 2 ^ 64 - 1 }
        ensures { OnOk result (W.failures sink.new ≡ W.failures sink.old) }
    {
        self.pending.extend_from_slice(chunk)?;
        let bytes = self.pending.as_slice();
        let (done, next) = answer_frames(&mut self.server, bytes, &mut self.out, sink)?;
        self.drop_front(done)?;
        Ok(next)
    }

    // Takes bytes out at the front of those that were read.
    fn drop_front(&mut self, count: usize) -> Result<(), AllocError> {
        if count == 0 {
            return Ok(());
        }
        let rest = bytes_from(self.pending.as_slice(), count);
        self.pending = Vec::from_slice(self.alloc, rest)?;
        Ok(())
    }

    // Answers messages that are read into a buffer, until the session ends, and returns its status.
    fn answer_all<R: Source, W: Sink>(
        &mut self,
        source: &mut R,
        sink: &mut W,
        buffer: &mut [u8],
    ) -> Result<u8, RunError>
        requires reads { R.failures source.old < 2 ^ 64 - 1 }
        requires writes { W.failures sink.old < 2 ^ 64 - 1 }
    {
        'reading: for _ in 0..u64::MAX {
            let Ok(count) = source.read(buffer) else {
                return Err(RunError::Read);
            };
            if count == 0 {
                return Ok(CUT_OFF);
            }
            let (chunk, _) = buffer.split_at(count);
            if let Next::Exit(status) = self.answer(chunk, sink)? {
                return Ok(status);
            }
        }
        Ok(CUT_OFF)
    }
}

/// Answers messages until the session ends, and returns its status.
///
/// # Errors
///
/// `Read` and `Write` if a call of the reader or the writer failed, and `Memory` if there is no memory.
pub fn run<R: Source, W: Sink>(alloc: Global, source: &mut R, sink: &mut W) -> Result<u8, RunError>
    requires reads { R.failures source.old < 2 ^ 64 - 1 }
    requires writes { W.failures sink.old < 2 ^ 64 - 1 }
{
    let mut buffer = [0u8; CHUNK];
    let mut session = Session::new(alloc);
    session.answer_all(source, sink, &mut buffer)
}
