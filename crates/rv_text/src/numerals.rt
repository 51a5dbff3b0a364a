//! Numbers in text.

ghost use Rattle.std.specs.Prelude.{◌≡◌, ◌≤◌, option_map, pos};
ghost use Rattle.std.specs.Char.{is_ascii_digit};
ghost use Rattle.std.specs.List.{list_all};
ghost use Rattle.rv_text.specs.Numbers.{number_of, digits_number, is_local_number, is_local};

/// The value of a slice that is one or more digits of the base, from 2 to 16, where it is at most 2^63 - 1. Letters are
/// digits in either case.
pub fn digits(base: u32, digits: &[u8]) -> Option<i64>
    requires low { 2 ≤ base }
    requires high { base ≤ 16 }
    ensures { result ≡ option_map pos (digits_number base digits.now) }
{
    if digits.is_empty() {
        return None;
    }
    let mut value: u64 = 0;
    for d in digits {
        let digit = char::from(*d).to_digit(base)?;
        value = value
            .checked_mul(u64::from(base))?
            .checked_add(u64::from(digit))?;
    }
    i64::try_from(value).ok()
}

/// The value of a slice that is one number as a whole: decimal without a leading zero, `0`, `0` and octal digits, `0x`
/// and hexadecimal digits, or `0b` and binary digits, of a value of at most 2^63 - 1.
pub fn number(slice: &[u8]) -> Option<i64>
    ensures { result ≡ option_map pos (number_of slice.now) }
{
    match slice {
        [b'0'] => Some(0),
        [b'0', b'x' | b'X', rest @ ..] => digits(16, rest),
        [b'0', b'b' | b'B', rest @ ..] => digits(2, rest),
        [b'0', rest @ ..] => digits(8, rest),
        _ => digits(10, slice),
    }
}

// Whether each byte is a decimal digit.
fn are_digits(bytes: &[u8]) -> bool
    ensures { result ≡ list_all is_ascii_digit bytes.now }
{
    bytes.iter().all(|b| b.is_ascii_digit())
}

/// Whether the bytes are the number of a local label: `0`, or one to four decimal digits without a leading zero.
pub fn is_local_number(digits: &[u8]) -> bool
    ensures { result ≡ is_local_number digits.now }
{
    if digits.is_empty() {
        return false;
    }
    digits.len() <= 4 && are_digits(digits) && (digits[0] != b'0' || digits.len() == 1)
}

/// Whether the run refers to a local label: its number, and then `b` or `f`.
pub(crate) fn is_local(run: &[u8]) -> bool
    ensures { result ≡ is_local run.now }
{
    if run.is_empty() {
        return false;
    }
    let last = run[run.len() - 1];
    is_local_number(&run[..run.len() - 1]) && (last == b'b' || last == b'f')
}
