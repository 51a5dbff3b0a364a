//! The message of each fault.

ghost use Rattle.std.specs.Prelude.{◌≡◌, ◌≤◌, ◌++◌, length, OnOk, OnErr};
ghost use Rattle.rv_show.specs.Parts.{part};
ghost use Rattle.rv_show.specs.Texts.{about};
ghost use Rattle.rv_report.specs.Lines.{line_of};
ghost use Rattle.rv_report.specs.Messages.{message_of};

use crate::constant_messages::push_not_constant;
use crate::faulty_line::FaultyLine;
use crate::lexical_messages::{push_bad_byte_at, push_bad_number, push_bad_string};
use crate::name_messages::{push_faulty_equ, push_later_equ, push_no_partner, push_undefined};
use crate::operand_messages::{push_bad_operand, push_bad_register, push_no_statement};
use crate::statement_messages::{push_operand_count, push_register_range};
use crate::unknown_names::push_unknown_name;
use crate::value_messages::{push_multiple, push_odd_address, push_range_and_help};
use rv_expr::Names;
use rv_list::View;
use rv_show::{Text, part};
use rv_text::{Fault, FaultNumber, Span};
use std::alloc::{AllocError, Global};

// Appends a message about the part of a line at a span.
fn push_about_part(
    out: &mut Text,
    before: &[u8],
    line: &FaultyLine<'_>,
    span: Span,
    after: &[u8],
) -> Result<(), AllocError>
    ensures { OnOk result (out.new ≡ out.old ++ about before.now (part line.now.text.now span) after.now) }
{
    out.push_about(before, part(line.text, span), after)
}

/// Appends the message of a fault to a text.
#[tactic(auto, unfolding(crate::specs::Messages::message_of))]
pub fn push_message<N: Names, V: View>(
    out: &mut Text,
    alloc: Global,
    line: &FaultyLine<'_>,
    names: &N,
    view: &V,
    fault: Fault,
) -> Result<(), AllocError>
    requires labels { length line.now.stmt.now.labels ≤ 1000 }
    requires text { length line.now.text.now ≤ 1000 }
    ensures { OnOk result (out.new ≡ out.old ++ message_of (N.environment names.now line.now.address) (V.shown view.now) (line_of line.now) fault) }
{
    let span = fault.span;
    match fault.number {
        FaultNumber::BadByte => push_bad_byte_at(out, line.text, span.from),
        FaultNumber::BadNumber => push_bad_number(out, part(line.text, span)),
        FaultNumber::BadString => push_bad_string(out, part(line.text, span)),
        FaultNumber::NoStatement => push_no_statement(out, alloc, line),
        FaultNumber::UnknownName => push_unknown_name(out, alloc, line, span),
        FaultNumber::OperandCount => push_operand_count(out, alloc, line, span),
        FaultNumber::BadRegister => push_bad_register(out, alloc, line, span),
        FaultNumber::RegisterRange => push_register_range(out, alloc, line, span),
        FaultNumber::BadOperand => push_bad_operand(out, alloc, line, span),
        FaultNumber::TooDeep => out.push(b"more than 64 open parentheses"),
        FaultNumber::NotConstant => push_not_constant(out, alloc, line, names, view, span),
        FaultNumber::Undefined => push_undefined(out, alloc, line, names, span),
        FaultNumber::LaterEqu => push_later_equ(out, alloc, line, names, span),
        FaultNumber::FaultyEqu => push_faulty_equ(out, alloc, line, names, view, span),
        FaultNumber::Arithmetic => out.push(
            b"no value: a division by zero, a shift out of 0 to 63, or more than 64 bits",
        ),
        FaultNumber::Range => push_range_and_help(out, alloc, line, span),
        FaultNumber::Multiple => push_multiple(out, line, span),
        FaultNumber::NoPartner => push_no_partner(out, alloc, line, span),
        FaultNumber::Duplicate => push_about_part(out, b"", line, span, b" is already defined"),
        FaultNumber::OddAddress => push_odd_address(out, line.address),
        FaultNumber::InBss => out.push(b".bss holds no bytes other than 0"),
    }
}

/// Appends the message of a fault to a list of bytes. `names` gives what names are on the line, and `view` where they are
/// defined.
///
/// # Errors
///
/// `AllocError` if there is no memory for it. The list is then as before.
pub fn message<N: Names, V: View>(
    out: &mut Vec<u8>,
    alloc: Global,
    line: &FaultyLine<'_>,
    names: &N,
    view: &V,
    fault: Fault,
) -> Result<(), AllocError>
    requires labels { length line.now.stmt.now.labels ≤ 1000 }
    requires text { length line.now.text.now ≤ 1000 }
    ensures appended { OnOk result (out.new.items ≡ out.old.items ++ message_of (N.environment names.now line.now.address) (V.shown view.now) (line_of line.now) fault) }
    ensures refused { OnErr result (out.new.items ≡ out.old.items) }
{
    let mut text = Text::new(alloc);
    push_message(&mut text, alloc, line, names, view, fault)?;
    out.extend_from_slice(text.bytes())
}
