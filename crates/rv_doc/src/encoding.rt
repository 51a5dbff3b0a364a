//! How columns are counted.

ghost use Rattle.std.specs.Prelude.{◌≡◌, ◌≤◌, ◌<◌, ◌^◌, length};
ghost use Rattle.rv_doc.specs.Positions.{goes_on, units, before_column, columns};

/// What a column counts: bytes, or halves of UTF-16.
#[derive(Clone, Copy, Debug, PartialEq, Eq)]
pub enum Encoding {
    Utf8,
    Utf16,
}

// The least of the bytes that begin a character of four bytes, which UTF-16 writes as two halves.
const FOUR_BYTES: u8 = 0xF0;

// Whether a byte goes on a character of UTF-8.
fn goes_on(byte: u8) -> bool
    ensures { result ≡ goes_on byte }
{
    (0x80..0xC0).contains(&byte)
}

// How many columns a byte adds.
fn units(encoding: Encoding, byte: u8) -> u32
    ensures { result ≡ units encoding byte }
{
    match encoding {
        Encoding::Utf8 => 1,
        Encoding::Utf16 => {
            if goes_on(byte) {
                0
            } else if byte < FOUR_BYTES {
                1
            } else {
                2
            }
        }
    }
}

/// How many bytes of a line stand before a column, all of them where the line is shorter. A column within a character is where the
/// character begins.
pub fn before_column(encoding: Encoding, line: &[u8], column: u32) -> usize
    ensures value { result ≡ before_column encoding line.now column }
    ensures within { result ≤ length line.now }
{
    let mut left = column;
    let mut rest = line;
    let mut at = 0;
    'bytes: while let [byte, others @ ..] = rest {
        let units = units(encoding, *byte);
        if left < units {
            return at;
        }
        left -= units;
        rest = others;
        at += 1;
    }
    at
}

/// The column behind these bytes of a line.
pub fn column_of(encoding: Encoding, front: &[u8]) -> u32
    requires { length front.now < 2 ^ 31 }
    ensures { result ≡ columns encoding front.now }
{
    let mut column = 0;
    let mut rest = front;
    'bytes: while let [byte, others @ ..] = rest {
        column += units(encoding, *byte);
        rest = others;
    }
    column
}
