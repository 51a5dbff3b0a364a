//! What is wrong with a value, reported at its operand.

ghost use Rattle.std.specs.Prelude.{◌≡◌};
ghost use Rattle.rv_fix.specs.Reports.{ranged, at_span};

use rv_text::{Fault, FaultNumber, Span};

/// A value from the least to the greatest.
pub fn ranged(least: i64, greatest: i64, value: i64) -> Result<i64, FaultNumber>
    ensures { result ≡ ranged least greatest value }
{
    if least <= value && value <= greatest {
        Ok(value)
    } else {
        Err(FaultNumber::Range)
    }
}

/// What was made, or the fault at a span.
pub fn at_span<T>(span: Span, made: Result<T, FaultNumber>) -> Result<T, Fault>
    ensures { result ≡ at_span span made }
{
    match made {
        Ok(made) => Ok(made),
        Err(number) => Err(Fault { number, span }),
    }
}
