//! Numbers in messages.

ghost use Rattle.std.specs.Prelude.{◌≡◌, ◌++◌, true, OnOk};
ghost use Rattle.std.specs.Fmt.{digits};
ghost use Rattle.rv_show.specs.Numbers.{hexadecimal, minus, number_text};

use crate::text::{Text, upper_digit};
use std::alloc::AllocError;

/// How a number is written.
#[derive(Clone, Copy, Debug, PartialEq, Eq)]
pub enum Notation {
    Decimal,
    Hexadecimal,
}

// Appends the hexadecimal digits of a number, in upper case.
fn push_digits(out: &mut Text, n: u64) -> Result<(), AllocError>
    ensures { OnOk result (out.new ≡ out.old ++ digits 16 true n) }
{
    if n < 16 {
        return out.push_byte(upper_digit(n as u8));
    }
    push_digits(out, n / 16)?;
    out.push_byte(upper_digit((n % 16) as u8))
}

// Appends a number in hexadecimal.
#[tactic(auto, unfolding(crate::specs::Numbers::hexadecimal))]
fn push_hexadecimal(out: &mut Text, n: u64) -> Result<(), AllocError>
    ensures { OnOk result (out.new ≡ out.old ++ hexadecimal n) }
{
    if n < 10 {
        return out.push_number(n);
    }
    out.push(b"0x")?;
    push_digits(out, n)
}

// What stands before the digits of a number.
fn minus(n: i64) -> &'static [u8]
    ensures { result.now ≡ minus n }
{
    if n < 0 { b"-" } else { b"" }
}

/// Appends a number in a notation.
pub fn push_number_in(out: &mut Text, notation: Notation, n: i64) -> Result<(), AllocError>
    ensures { OnOk result (out.new ≡ out.old ++ number_text notation n) }
{
    match notation {
        Notation::Decimal => out.push_number(n),
        Notation::Hexadecimal => {
            out.push(minus(n))?;
            push_hexadecimal(out, n.unsigned_abs())
        }
    }
}
