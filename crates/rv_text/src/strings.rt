//! Strings and characters.

ghost use Rattle.std.specs.Prelude.{◌≡◌, ◌≤◌, ◌<◌, [], ◌∷◌, IfSome, IfNone, length, min};
ghost use Rattle.std.specs.List.{prefix_len};
ghost use Rattle.rv_text.specs.Strings.{letter_escape, is_octal, octal_escape, escape, spelled, string_len, char_len, may_stand, escaped_at, content_from};

use crate::numerals::digits;

/// A byte, and how many bytes spell it.
#[derive(Clone, Copy, Debug, PartialEq, Eq)]
pub struct Spelling {
    pub byte: u8,
    pub len: usize,
}

// What a letter, a backslash or a quote stands for after a backslash.
fn letter_escape(c: u8) -> Option<u8>
    ensures { result ≡ letter_escape c }
{
    match c {
        b'n' => Some(b'\n'),
        b't' => Some(b'\t'),
        b'r' => Some(b'\r'),
        b'b' => Some(0x08),
        b'f' => Some(0x0C),
        b'\\' | b'"' | b'\'' => Some(c),
        _ => None,
    }
}

// An octal digit.
fn is_octal(c: u8) -> bool
    ensures { result ≡ is_octal c }
{
    b'0' <= c && c <= b'7'
}

// What may begin a character's spelling.
fn may_stand(b: u8) -> bool
    ensures { result ≡ may_stand b }
{
    0x20 <= b && b <= 0x7E && b != b'\''
}

// How long the prefix of octal digits is, up to three.
#[tactic(auto, using(crate::proofs::Runs::run_steps))]
fn octal_len(bytes: &[u8]) -> usize
    ensures { result ≡ min 3 (prefix_len is_octal bytes.now) }
{
    let mut n = 0;
    while n < 3 && n < bytes.len() && is_octal(bytes[n]) {
        n += 1;
    }
    n
}

// One to three octal digits, as many as stand there, of a value of at most 255.
#[tactic(auto, using(crate::proofs::Runs::run_steps))]
fn octal_escape(bytes: &[u8]) -> Option<Spelling>
    requires { 0 < prefix_len is_octal bytes.now }
    ensures exact { result ≡ octal_escape bytes.now }
    ensures fits { IfSome result (λ s. (1 ≤ s.len) × (s.len ≤ length bytes.now)) }
{
    let len = octal_len(bytes);
    let value = digits(8, &bytes[..len])?;
    let byte = u8::try_from(value).ok()?;
    Some(Spelling { byte, len })
}

// What stands after a backslash.
fn escape(bytes: &[u8]) -> Option<Spelling>
    ensures exact { result ≡ escape bytes.now }
    ensures fits { IfSome result (λ s. (1 ≤ s.len) × (s.len ≤ length bytes.now)) }
{
    let first = bytes.first().copied()?;
    if is_octal(first) {
        octal_escape(bytes)
    } else {
        let byte = letter_escape(first)?;
        Some(Spelling { byte, len: 1 })
    }
}

// The byte whose spelling some bytes begin with: an escape, or a byte that stands for itself.
pub(crate) fn spelled(bytes: &[u8]) -> Option<Spelling>
    ensures exact { result ≡ spelled bytes.now }
    ensures fits { IfSome result (λ s. (1 ≤ s.len) × (s.len ≤ length bytes.now)) }
{
    let byte = bytes.first().copied()?;
    if byte != b'\\' {
        return Some(Spelling { byte, len: 1 });
    }
    let escaped = escape(&bytes[1..])?;
    Some(Spelling {
        byte: escaped.byte,
        len: escaped.len + 1,
    })
}

// How many bytes there are after an opening `"`, up to and with the closing one.
pub(crate) fn string_len(bytes: &[u8]) -> Option<usize>
    ensures exact { result ≡ string_len 0 bytes.now }
    ensures fits { IfSome result (λ n. n ≤ length bytes.now) }
{
    let mut at = 0;
    while at < bytes.len() {
        if bytes[at] == b'"' {
            return Some(at + 1);
        }
        let next = spelled(&bytes[at..])?;
        at += next.len;
    }
    None
}

// How many bytes there are after an opening `'`, up to and with the closing one.
pub(crate) fn char_len(bytes: &[u8]) -> Option<usize>
    ensures exact { result ≡ char_len bytes.now }
    ensures fits { IfSome result (λ n. n ≤ length bytes.now) }
{
    let first = bytes.first().copied()?;
    if !may_stand(first) {
        return None;
    }
    let only = spelled(bytes)?;
    if only.len < bytes.len() && bytes[only.len] == b'\'' {
        Some(only.len + 1)
    } else {
        None
    }
}

/// The byte whose spelling begins at the place `at` of a string or a character, quotes and all, and the place after it.
/// None at the closing quote, which is the byte that the slice begins with, past the end, and at a wrong escape. From place
/// 1 on, these bytes in order are the content of a string.
#[tactic(auto, using(crate::proofs::ContentSteps::content_end))]
pub fn escaped(slice: &[u8], at: usize) -> Option<(u8, usize)>
    ensures value { result ≡ escaped_at slice.now at }
    ensures rises { IfSome result (λ r. at < r.1) }
    ensures within { IfSome result (λ r. r.1 ≤ length slice.now) }
    ensures content { IfSome result (λ r. content_from slice.now at ≡ r.0 ∷ content_from slice.now r.1) }
    ensures end { IfNone result (content_from slice.now at ≡ []) }
{
    if at >= slice.len() || slice[at] == slice[0] {
        return None;
    }
    let next = spelled(&slice[at..])?;
    Some((next.byte, at + next.len))
}
