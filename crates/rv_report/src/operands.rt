//! The operand at which a fault is reported.

ghost use Rattle.std.specs.Prelude.{◌≡◌, option_map};
ghost use Rattle.rv_report.specs.Operands.{is_same_span, operand_at, value_at, value_in};

use rv_fix::Entry;
use rv_stmt::Operand;
use rv_text::Span;

// Whether two spans cover the same bytes.
fn is_same_span(a: Span, b: Span) -> bool
    ensures { result ≡ is_same_span a b }
{
    a.from == b.from && a.to == b.to
}

/// The first of the operands that has the span.
pub fn operand_at(span: Span, mut operands: &[Operand]) -> Option<&Operand>
    ensures { option_map (λ o. o.now) result ≡ operand_at span operands.entry.now }
{
    'operands: while let [operand, rest @ ..] = operands {
        if is_same_span(operand.span, span) {
            return Some(operand);
        }
        operands = rest;
    }
    None
}

// The value of an operand, if it has one.
fn value_in(entry: Entry) -> Option<i64>
    ensures { result ≡ value_in entry }
{
    match entry {
        Ok(value) => Some(value),
        Err(_) => None,
    }
}

/// The value of the first of the operands that has the span.
pub fn value_at(span: Span, mut operands: &[Operand], mut entries: &[Entry]) -> Option<i64>
    ensures { result ≡ value_at span operands.entry.now entries.entry.now }
{
    'operands: while let [operand, more_operands @ ..] = operands {
        let [entry, more_entries @ ..] = entries else {
            return None;
        };
        if is_same_span(operand.span, span) {
            return value_in(*entry);
        }
        operands = more_operands;
        entries = more_entries;
    }
    None
}
