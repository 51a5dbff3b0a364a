//! The classes of bytes.

ghost use Rattle.std.specs.Prelude.{◌≡◌};
ghost use Rattle.rv_text.specs.Bytes.{is_whitespace, is_identifier_start, is_identifier_byte, is_punctuation_byte};

// A tab, a form feed, a carriage return or a space.
pub(crate) fn is_whitespace(b: u8) -> bool
    ensures { result ≡ is_whitespace b }
{
    matches!(b, b'\t' | 0x0C | b'\r' | b' ')
}

// A letter, `_`, `.` or `$`.
pub(crate) fn is_identifier_start(b: u8) -> bool
    ensures { result ≡ is_identifier_start b }
{
    b.is_ascii_alphabetic() || b == b'_' || b == b'.' || b == b'$'
}

// What may stand in an identifier after its first byte.
pub(crate) fn is_identifier_byte(b: u8) -> bool
    ensures { result ≡ is_identifier_byte b }
{
    is_identifier_start(b) || b.is_ascii_digit()
}

// A visible byte that is no quote.
pub(crate) fn is_punctuation_byte(b: u8) -> bool
    ensures { result ≡ is_punctuation_byte b }
{
    0x21 <= b && b <= 0x7E && b != b'"' && b != b'\''
}
