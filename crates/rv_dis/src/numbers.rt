//! The numbers in texts.

ghost use Rattle.std.specs.Prelude.{◌≡◌, ◌+◌, ◌<◌, ◌≤◌, ◌++◌, false, length};
ghost use Rattle.std.specs.Fmt.{digits, signed_decimal};
ghost use Rattle.rv_text.specs.Rows.{hex, hex_digit};
ghost use Rattle.rv_dis.specs.Text.{hexadecimal, hexadecimal_of};

use crate::decimals::push_below_hundred;
use crate::pairs::pair_at;
use crate::row::RowText;
use itoa::Buffer;

// The two hexadecimal digits of each number below 256.
const HEX_PAIRS: &str = "\
    000102030405060708090a0b0c0d0e0f\
    101112131415161718191a1b1c1d1e1f\
    202122232425262728292a2b2c2d2e2f\
    303132333435363738393a3b3c3d3e3f\
    404142434445464748494a4b4c4d4e4f\
    505152535455565758595a5b5c5d5e5f\
    606162636465666768696a6b6c6d6e6f\
    707172737475767778797a7b7c7d7e7f\
    808182838485868788898a8b8c8d8e8f\
    909192939495969798999a9b9c9d9e9f\
    a0a1a2a3a4a5a6a7a8a9aaabacadaeaf\
    b0b1b2b3b4b5b6b7b8b9babbbcbdbebf\
    c0c1c2c3c4c5c6c7c8c9cacbcccdcecf\
    d0d1d2d3d4d5d6d7d8d9dadbdcdddedf\
    e0e1e2e3e4e5e6e7e8e9eaebecedeeef\
    f0f1f2f3f4f5f6f7f8f9fafbfcfdfeff";

// The digit of a number below 16, in lower case.
fn hex_digit(n: u32) -> char
    requires { n < 16 }
    ensures value { result ≡ hex_digit n }
    ensures ascii { result < 128 }
{
    let n = n as u8;
    char::from(if n < 10 { b'0' + n } else { b'a' + (n - 10) })
}

// The last hexadecimal digits of a number, exactly as many as are wanted.
fn push_last_digits(out: &mut RowText, count: u32, n: u32)
    requires count { count ≤ 8 }
    requires room { length out.old + count ≤ 40 }
    ensures { out.new ≡ out.old ++ hex count n }
{
    let mut left = count;
    while left > 0 {
        left -= 1;
        out.push(hex_digit((n >> (4 * left)) % 16));
    }
}

// The hexadecimal digits of a number, without leading zeros.
fn push_digits(out: &mut RowText, n: u32)
    requires { length out.old + length (digits 16 false n) ≤ 40 }
    ensures { out.new ≡ out.old ++ digits 16 false n }
{
    if n >= 16 {
        push_digits(out, n / 16);
    }
    out.push(hex_digit(n % 16));
}

/// `0x` and the hexadecimal digits of a number, without leading zeros. There must be room.
pub fn push_hexadecimal(out: &mut RowText, n: u32)
    requires { length out.old + length (hexadecimal n) ≤ 40 }
    ensures { out.new ≡ out.old ++ hexadecimal n }
{
    out.push_str("0x");
    push_digits(out, n);
}

/// `0x` and so many of the last hexadecimal digits of a number, at most eight. There must be room.
#[inline(never)]
pub fn push_hexadecimal_of(out: &mut RowText, count: u32, n: u32)
    requires count { count ≤ 8 }
    requires room { length out.old + length (hexadecimal_of count n) ≤ 40 }
    ensures { out.new ≡ out.old ++ hexadecimal_of count n }
{
    out.push_str("0x");
    push_last_digits(out, count, n);
}

// The last two hexadecimal digits of a number.
#[inline(always)]
fn push_pair(out: &mut RowText, n: u32)
    requires { length out.old + 2 ≤ 40 }
    ensures text { out.new ≡ out.old ++ hex 2 n }
    ensures length { length out.new ≡ length out.old + 2 }
{
    out.push_str(pair_at(HEX_PAIRS, (n % 256) as usize));
}

/// `0x` and the eight hexadecimal digits of a number. There must be room.
#[inline(never)]
pub fn push_word(out: &mut RowText, n: u32)
    requires { length out.old + length (hexadecimal_of 8 n) ≤ 40 }
    ensures { out.new ≡ out.old ++ hexadecimal_of 8 n }
{
    out.push_str("0x");
    push_pair(out, n >> 24);
    push_pair(out, n >> 16);
    push_pair(out, n >> 8);
    push_pair(out, n);
}

// A number of any size in decimal, with `-` where it is negative.
#[inline(never)]
fn push_any_decimal(out: &mut RowText, n: i32)
    requires { length out.old + length (signed_decimal n) ≤ 40 }
    ensures { out.new ≡ out.old ++ signed_decimal n }
{
    let mut buffer = Buffer::new();
    out.push_str(buffer.format(n));
}

/// A number in decimal, with `-` where it is negative. There must be room.
pub fn push_decimal(out: &mut RowText, n: i32)
    requires { length out.old + length (signed_decimal n) ≤ 40 }
    ensures { out.new ≡ out.old ++ signed_decimal n }
{
    if n >= 0 && n < 100 {
        push_below_hundred(out, n.unsigned_abs());
    } else {
        push_any_decimal(out, n);
    }
}
