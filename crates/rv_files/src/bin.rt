//! The bytes of segments as they lie in memory, with zeros between them.

ghost use Rattle.std.specs.Prelude.{◌≡◌, ◌+◌, ◌-◌, ◌^◌, ◌<◌, ◌++◌, length, replicate, IfOk};
ghost use Rattle.rv_text.specs.Streams.{failures_after, Writes};
ghost use Rattle.rv_files.specs.Bin.{bin_bytes, bytes_up_to, end_of};

use crate::repeated::write_repeated;
use crate::segment::Segment;
use rv_text::{Failed, Sink};

// Writes zeros from an address up to a segment, and then its bytes. Says at which address they end.
fn write_bytes<W: Sink>(sink: &mut W, at: u64, segment: &Segment) -> Result<u64, Failed>
    requires { W.failures sink.old < 2 ^ 64 - 1 }
    ensures text { Writes (W.taken sink.old) (replicate (segment.now.address - at) 0 ++ segment.now.bytes) result (W.taken sink.new) }
    ensures end { IfOk result (λ end. end ≡ segment.now.address + length segment.now.bytes) }
    ensures count { W.failures sink.new ≡ failures_after (W.failures sink.old) result }
{
    let address = u64::from(segment.address());
    let bytes = segment.bytes();
    write_repeated(sink, 0, address.saturating_sub(at))?;
    bytes.write(sink)?;
    Ok(address + bytes.len() as u64)
}

// Writes zeros from an address up to a segment, and then its bytes, or nothing where it has none. Says at which address they end.
fn write_segment<W: Sink>(sink: &mut W, at: u64, segment: &Segment) -> Result<u64, Failed>
    requires { W.failures sink.old < 2 ^ 64 - 1 }
    ensures text { Writes (W.taken sink.old) (bytes_up_to at segment.now) result (W.taken sink.new) }
    ensures end { IfOk result (λ end. end ≡ end_of at segment.now) }
    ensures count { W.failures sink.new ≡ failures_after (W.failures sink.old) result }
{
    if segment.bytes().is_empty() {
        return Ok(at);
    }
    write_bytes(sink, at, segment)
}

/// Writes the bytes of segments from an address on, up to the first failure of the writer: zeros up to each segment that has bytes,
/// and then its bytes. The segments are given in ascending order; zeros at the end are left out.
///
/// # Errors
///
/// `Failed` if a call of the writer failed.
pub fn write_bin<W: Sink>(base: u32, mut segments: &[Segment], sink: &mut W) -> Result<(), Failed>
    requires { W.failures sink.old < 2 ^ 64 - 1 }
    ensures text { Writes (W.taken sink.old) (bin_bytes base segments.entry.now) result (W.taken sink.new) }
    ensures count { W.failures sink.new ≡ failures_after (W.failures sink.old) result }
{
    let mut at = u64::from(base);
    'segments: while let [segment, later @ ..] = segments {
        at = write_segment(sink, at, segment)?;
        segments = later;
    }
    Ok(())
}
