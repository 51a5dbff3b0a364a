//! The reports of faults and warnings.

ghost use Rattle.std.specs.Prelude.{◌≡◌, ◌+◌, ◌^◌, ◌<◌, ◌≤◌, ◌++◌, length, OnOk, OnErr};
ghost use Rattle.rv_show.specs.Origins.{source_of};
ghost use Rattle.rv_report.specs.Lines.{line_of};
ghost use Rattle.rv_report.specs.Reports.{report_of, warning_report_of};
ghost use Rattle.rv_report.specs.Warnings.{warning_seen};

use crate::faulty_line::FaultyLine;
use crate::messages::push_message;
use crate::notes::{push_note, push_odd_note};
use crate::warnings::{Warning, push_warning_message};
use rv_expr::Names;
use rv_list::{View, fault_name};
use rv_show::{
    Gravity, Page, Text, origin_of, part, push_line_row, push_mark_row, push_message_row,
};
use rv_text::Fault;
use std::alloc::{AllocError, Global};

// Appends the rows of a fault to a text.
#[tactic(auto, unfolding(crate::specs::Reports::report_of))]
fn push_report<N: Names, V: View>(
    out: &mut Text,
    alloc: Global,
    page: &Page<'_>,
    line: &FaultyLine<'_>,
    names: &N,
    view: &V,
    more: u32,
    fault: Fault,
) -> Result<(), AllocError>
    requires labels { length line.now.stmt.now.labels ≤ 1000 }
    requires text { length line.now.text.now ≤ 1000 }
    ensures { OnOk result (out.new ≡ out.old ++ report_of page.now.style (source_of page.now) (N.environment names.now line.now.address) (V.shown view.now) (line_of line.now) more fault) }
{
    let mut message = Text::new(alloc);
    push_message(&mut message, alloc, line, names, view, fault)?;
    let name = fault_name(fault.number).as_bytes();
    let origin = origin_of(page, line.number);
    push_message_row(
        out,
        page.style,
        &origin,
        fault.span.from,
        Gravity::Error,
        message.bytes(),
        name,
    )?;
    push_line_row(out, origin.line, line.text)?;
    push_mark_row(out, alloc, page.style, origin.line, line.text, fault.span)?;
    let place = view.definition(part(line.text, fault.span));
    push_note(out, page, fault.number, place)?;
    push_odd_note(out, &origin, fault.number, more)
}

/// Appends the rows of a fault to a list of bytes: its message, the line, and a mark under the bytes at fault. For a second
/// definition a row more says where the first one is, and for an instruction at an odd address for how many more it is reported,
/// if these are some.
///
/// # Errors
///
/// `AllocError` if there is no memory for them. The list is then as before.
pub fn report<N: Names, V: View>(
    out: &mut Vec<u8>,
    alloc: Global,
    page: &Page<'_>,
    line: &FaultyLine<'_>,
    names: &N,
    view: &V,
    more: u32,
    fault: Fault,
) -> Result<(), AllocError>
    requires labels { length line.now.stmt.now.labels ≤ 1000 }
    requires text { length line.now.text.now ≤ 1000 }
    ensures appended { OnOk result (out.new.items ≡ out.old.items ++ report_of page.now.style (source_of page.now) (N.environment names.now line.now.address) (V.shown view.now) (line_of line.now) more fault) }
    ensures refused { OnErr result (out.new.items ≡ out.old.items) }
{
    let mut text = Text::new(alloc);
    push_report(&mut text, alloc, page, line, names, view, more, fault)?;
    out.extend_from_slice(text.bytes())
}

// Appends the rows of a warning to a text.
#[tactic(auto, unfolding(crate::specs::Reports::warning_report_of))]
fn push_warning(
    out: &mut Text,
    alloc: Global,
    page: &Page<'_>,
    number: u32,
    text: &[u8],
    warning: &Warning<'_>,
) -> Result<(), AllocError>
    requires { length text.now ≤ 1000 }
    ensures { OnOk result (out.new ≡ out.old ++ warning_report_of page.now.style (source_of page.now) number text.now (warning_seen warning.now)) }
{
    let mut message = Text::new(alloc);
    push_warning_message(&mut message, warning.label)?;
    let origin = origin_of(page, number);
    push_message_row(
        out,
        page.style,
        &origin,
        warning.span.from,
        Gravity::Warning,
        message.bytes(),
        b"label-as-register",
    )?;
    push_line_row(out, origin.line, text)?;
    push_mark_row(out, alloc, page.style, origin.line, text, warning.span)
}

/// Appends the rows of a warning about a line, by its number and its bytes, to a list of bytes: what it says, the line, and a mark under
/// the operand.
///
/// # Errors
///
/// `AllocError` if there is no memory for them. The list is then as before.
pub fn report_warning(
    out: &mut Vec<u8>,
    alloc: Global,
    page: &Page<'_>,
    number: u32,
    text: &[u8],
    warning: &Warning<'_>,
) -> Result<(), AllocError>
    requires { length text.now ≤ 1000 }
    ensures appended { OnOk result (out.new.items ≡ out.old.items ++ warning_report_of page.now.style (source_of page.now) number text.now (warning_seen warning.now)) }
    ensures refused { OnErr result (out.new.items ≡ out.old.items) }
{
    let mut rows = Text::new(alloc);
    push_warning(&mut rows, alloc, page, number, text, warning)?;
    out.extend_from_slice(rows.bytes())
}
