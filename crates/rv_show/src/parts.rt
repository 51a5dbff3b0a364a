//! Parts of a line.

ghost use Rattle.std.specs.Prelude.{◌≡◌, drop, take, slice_index};
ghost use Rattle.rv_show.specs.Parts.{part};

use rv_text::Span;

/// The bytes of a line that a span covers.
pub fn part(line: &[u8], span: Span) -> &[u8]
    ensures { result.now ≡ part line.now span }
{
    let (_, rest) = line.split_at(line.len().min(span.from as usize));
    let size = span.to.saturating_sub(span.from) as usize;
    let (part, _) = rest.split_at(rest.len().min(size));
    part
}

/// The first bytes of some, as many as that if there are.
pub fn first_bytes(bytes: &[u8], count: usize) -> &[u8]
    ensures { result.now ≡ take count bytes.now }
{
    let (first, _) = bytes.split_at(bytes.len().min(count));
    first
}

/// The bytes from a place on.
pub fn bytes_from(bytes: &[u8], place: usize) -> &[u8]
    ensures { result.now ≡ drop place bytes.now }
{
    let (_, rest) = bytes.split_at(bytes.len().min(place));
    rest
}

/// The byte of a line at a place, and 0 behind its end.
pub fn byte_at(line: &[u8], place: u32) -> u8
    ensures { result ≡ slice_index line.now place }
{
    match line.get(place as usize) {
        Some(byte) => *byte,
        None => 0,
    }
}
