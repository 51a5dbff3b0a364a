//! Frames: a header with the length of the body, an empty line, and the body.

ghost use Rattle.std.specs.Prelude.{◌≡◌, ◌+◌, ◌<◌, ◌≤◌, drop, length, IfSome};
ghost use Rattle.rv_doc.specs.Frames.{IsFrame, IsWithin, body_of, frame_by, is_length_field, length_in, length_of, number_of, trimmed};

use memchr::memmem;
use rv_ops::is_name;
use rv_show::{bytes_from, first_bytes};

/// What stands at the front of the bytes that were read.
#[derive(Clone, Copy)]
pub enum Frame {
    /// Not all of a frame.
    More,
    /// A header that is too long, or gives no length.
    Bad,
    /// A frame: where its body starts, and where it ends.
    Body(usize, usize),
}

/// How many bytes a header has at most.
pub const MAX_HEADER: usize = 4096;

/// How many bytes a body has at most.
pub const MAX_BODY: usize = 67_108_864;

// The field of a header that gives the length of the body, in lower case.
const LENGTH_FIELD: &str = "content-length:";

// What ends a row of a header, and the header.
const ROW_END: &[u8] = b"\r\n";

const HEADER_END: &[u8] = b"\r\n\r\n";

// Whether a row of a header is the field that gives the length.
fn is_length_field(row: &[u8]) -> bool
    ensures { result ≡ is_length_field row.now }
{
    row.len() >= LENGTH_FIELD.len() && is_name(LENGTH_FIELD, first_bytes(row, LENGTH_FIELD.len()))
}

// What this field gives.
fn value_in(row: &[u8]) -> &[u8]
    ensures { result.now ≡ trimmed (drop 15 row.now) }
{
    bytes_from(row, LENGTH_FIELD.len()).trim_ascii()
}

// The number of 32 bits that some digits spell.
fn number_of(digits: &[u8]) -> Option<u32>
    ensures { result ≡ number_of digits.now }
{
    u32::try_from(rv_text::digits(10, digits)?).ok()
}

// The length that this field gives, if it is a number, and not too large.
fn length_in(row: &[u8]) -> Option<usize>
    ensures value { result ≡ length_in row.now }
    ensures few { IfSome result (λ n. n ≤ MAX_BODY) }
{
    let length = number_of(value_in(row))? as usize;
    if length <= MAX_BODY {
        Some(length)
    } else {
        None
    }
}

// The length that a header gives, if it gives one.
#[tactic(auto, using(crate::proofs::HeaderRows::first_row, crate::proofs::HeaderRows::last_row))]
fn length_of(header: &[u8]) -> Option<usize>
    ensures value { result ≡ length_of header.now }
    ensures few { IfSome result (λ n. n ≤ MAX_BODY) }
{
    let mut rest = header;
    'rows: while let Some(at) = memmem::find(rest, ROW_END) {
        let row = first_bytes(rest, at);
        if is_length_field(row) {
            return length_in(row);
        }
        rest = bytes_from(rest, at + ROW_END.len());
    }
    if is_length_field(rest) {
        length_in(rest)
    } else {
        None
    }
}

// The body of a length after so many of some bytes.
fn body_of(start: usize, count: usize, length: Option<usize>) -> Frame
    requires start { (0 < start) × (start ≤ count) }
    requires length { IfSome length (λ n. n ≤ MAX_BODY) }
    ensures value { result ≡ body_of start count length }
    ensures within { IsWithin result count }
{
    match length {
        None => Frame::Bad,
        Some(length) if count - start < length => Frame::More,
        Some(length) => Frame::Body(start, start + length),
    }
}

// The frame at the front of some bytes, whose header ends after so many, or not yet.
fn frame_by(bytes: &[u8], end: Option<usize>) -> Frame
    requires { IfSome end (λ n. n + 4 ≤ length bytes.now) }
    ensures value { result ≡ frame_by bytes.now end }
    ensures within { IsWithin result (length bytes.now) }
{
    match end {
        None if bytes.len() >= MAX_HEADER + HEADER_END.len() => Frame::Bad,
        None => Frame::More,
        Some(end) if end > MAX_HEADER => Frame::Bad,
        Some(end) => {
            let length = length_of(first_bytes(bytes, end));
            body_of(end + HEADER_END.len(), bytes.len(), length)
        }
    }
}

/// The frame at the front of some bytes.
pub fn frame_at(bytes: &[u8]) -> Frame
    ensures frame { IsFrame result bytes.now }
    ensures within { IsWithin result (length bytes.now) }
{
    frame_by(bytes, memmem::find(bytes, HEADER_END))
}
