//! The faults of a text.

ghost use Rattle.std.specs.Prelude.{◌≡◌, ◌-◌, ◌^◌, ◌*◌, ◌+◌, ◌<◌, ◌≤◌, ◌++◌, ◌==◌, not, length, map, Some};
ghost use Rattle.std.specs.List.{concat, list_any};
ghost use Rattle.rv_text.specs.Blocks.{Gathers};
ghost use Rattle.rv_text.specs.Streams.{failures_after, Writes};
ghost use Rattle.rv_stmt.specs.LentLabels.{name_lent};
ghost use Rattle.rv_list.specs.Faults.{fault_if, fault_at_name, is_later_label, label_faults, equ_faults, body_faults, is_instruction, is_at_odd_address, is_lost_in_bss, faults_of, found, is_set, fault_name, fault_row, fault_rows, fault_text};
ghost use Rattle.rv_list.specs.Shown.{shown_line};

use crate::error::ListError;
use crate::rows::{end_text, push_count, push_field};
use crate::untested::Untested;
use crate::view::{LinePlace, LineView, TestedLines, View, shows_bytes};
use arrayvec::ArrayVec;
use rv_fix::Payload;
use rv_layout::section_number;
use rv_stmt::{Body, LabelName, LabelSlice, Sect};
use rv_text::{Failed, Fault, FaultNumber, OutputBlock, OutputRow, Sink, Span};

/// How many faults a line has at most: one for each label, and four more.
pub const MAX_FAULTS: usize = 1004;

// Adds a fault, where there is one.
fn push_if(
    faults: &mut ArrayVec<Option<Fault>, MAX_FAULTS>,
    test: bool,
    number: FaultNumber,
    span: Span,
)
    requires { length faults.old.items < 1004 }
    ensures faults { faults.new.items ≡ faults.old.items ++ map Some (fault_if test number span) }
    ensures few { length faults.new.items ≤ length faults.old.items + 1 }
{
    if test {
        faults.push(Some(Fault { number, span }));
    }
}

// The same at the name of what gives bytes.
fn push_at_name(
    faults: &mut ArrayVec<Option<Fault>, MAX_FAULTS>,
    test: bool,
    number: FaultNumber,
    name: Option<Span>,
)
    requires { length faults.old.items < 1004 }
    ensures faults { faults.new.items ≡ faults.old.items ++ map Some (fault_at_name test number name) }
    ensures few { length faults.new.items ≤ length faults.old.items + 1 }
{
    if let Some(span) = name {
        push_if(faults, test, number, span);
    }
}

// Whether a label's symbol has its definition elsewhere.
fn is_later_label<V: View>(view: &V, line: u32, index: u32, name: LabelName<'_>) -> bool
    ensures { result ≡ is_later_label (V.shown view.now) line index (name_lent name.entry) }
{
    match name {
        LabelName::Symbol(symbol) => !view.definition(symbol).is_label(line, index),
        LabelName::Local(_) => false,
    }
}

// Adds the second definitions among the labels of a line.
fn push_label_faults<V: View>(
    faults: &mut ArrayVec<Option<Fault>, MAX_FAULTS>,
    view: &V,
    line: u32,
    mut labels: LabelSlice<'_>,
)
    requires labels { length labels ≤ 1000 }
    requires faults { length faults.old.items ≤ 4 }
    ensures faults { faults.new.items ≡ faults.old.items ++ map Some (label_faults (V.shown view.now) line 0 labels.entry) }
    ensures few { length faults.new.items ≤ length faults.old.items + 1000 }
{
    let mut index = 0;
    'labels: while let Some((label, later)) = labels.split_first() {
        let later_label = is_later_label(view, line, index, label.name);
        push_if(faults, later_label, FaultNumber::Duplicate, label.span);
        index += 1;
        labels = later;
    }
}

// Adds the second definition that the `.equ` of a line is.
fn push_equ_fault<V: View>(
    faults: &mut ArrayVec<Option<Fault>, MAX_FAULTS>,
    view: &V,
    line: u32,
    body: &Body,
)
    requires { length faults.old.items < 1004 }
    ensures faults { faults.new.items ≡ faults.old.items ++ map Some (equ_faults (V.shown view.now) line body.now) }
    ensures few { length faults.new.items ≤ length faults.old.items + 1 }
{
    if let Body::Equ(definition) = body {
        let place = view.definition(definition.symbol.bytes());
        push_if(
            faults,
            !place.is_equ(line),
            FaultNumber::Duplicate,
            definition.span,
        );
    }
}

// Adds the fault of a body.
fn push_body_fault(faults: &mut ArrayVec<Option<Fault>, MAX_FAULTS>, fault: Option<Fault>)
    requires { length faults.old.items < 1004 }
    ensures faults { faults.new.items ≡ faults.old.items ++ map Some (body_faults fault) }
    ensures few { length faults.new.items ≤ length faults.old.items + 1 }
{
    if fault.is_some() {
        faults.push(fault);
    }
}

/// Whether a body is an instruction with bytes, at an odd address.
pub fn is_at_odd_address(body: &Body, place: LinePlace) -> bool
    ensures { result ≡ is_at_odd_address body.now place }
{
    match body {
        Body::Instr(_) | Body::Pseudo(_) => place.size != 0 && place.address % 2 == 1,
        _ => false,
    }
}

// Whether a byte is there and is not 0.
fn is_set(byte: Option<u8>) -> bool
    ensures { result ≡ is_set byte }
{
    match byte {
        Some(byte) => byte != 0,
        None => false,
    }
}

// Whether a payload has a byte other than 0.
fn has_set_byte(payload: &Payload) -> bool
    ensures { result ≡ list_any (λ byte. not (byte == 0)) payload.now }
{
    for place in 0..payload.len() {
        if is_set(payload.byte(place)) {
            return true;
        }
    }
    false
}

// Whether a byte other than 0 is in the section whose bytes are not shown.
fn is_lost_in_bss(section: Sect, payload: &Payload) -> bool
    ensures { result ≡ is_lost_in_bss section payload.now }
{
    !shows_bytes(section_number(section)) && has_set_byte(payload)
}

/// Puts the faults of line number `number` of a text, in their order, in the place of those in the list.
#[tactic(auto, unfolding(crate::specs::Faults::faults_of))]
pub fn find_faults<V: View>(
    faults: &mut ArrayVec<Option<Fault>, MAX_FAULTS>,
    view: &V,
    number: u32,
    line: &LineView<'_>,
)
    requires { length line.now.stmt.now.labels ≤ 1000 }
    ensures faults { faults.new.items ≡ map Some (faults_of (V.shown view.now) number (shown_line line.now)) }
    ensures few { length faults.new.items ≤ 1004 }
{
    let labels = line.stmt.labels.as_slice();
    let body = &line.stmt.body;
    faults.clear();
    push_label_faults(faults, view, number, labels);
    push_equ_fault(faults, view, number, body);
    push_body_fault(faults, line.code.fault);
    let odd = is_at_odd_address(body, line.place);
    push_at_name(faults, odd, FaultNumber::OddAddress, body.name());
    let lost = is_lost_in_bss(line.place.section, &line.code.payload);
    push_at_name(faults, lost, FaultNumber::InBss, body.name());
}

/// How many faults a text has; `lines` are all lines of the view.
pub fn count_faults<V: View, L: TestedLines>(view: &V, mut lines: L) -> u32
    requires text { L.shown lines ≡ V.shown view.now }
    requires first { L.passed lines ≡ 0 }
    ensures value { result ≡ length (fault_rows (V.shown view.now)) }
    ensures few { result ≤ 1004 * 16384 }
{
    let mut faults = ArrayVec::new();
    let mut count = 0;
    for k in 0..view.line_count() {
        lines.advance();
        if !lines.may_have_faults() {
            continue;
        }
        find_faults(&mut faults, view, k + 1, &lines.line());
        count += faults.len() as u32;
    }
    count
}

/// The name of a fault.
#[tactic(auto, unfolding(crate::specs::Faults::fault_name))]
pub fn fault_name(number: FaultNumber) -> &'static str
    ensures name { result.now ≡ fault_name number }
    ensures short { length result.now ≤ 13 }
{
    match number {
        FaultNumber::BadByte => "BadByte",
        FaultNumber::BadNumber => "BadNumber",
        FaultNumber::BadString => "BadString",
        FaultNumber::NoStatement => "NoStatement",
        FaultNumber::UnknownName => "UnknownName",
        FaultNumber::OperandCount => "OperandCount",
        FaultNumber::BadRegister => "BadRegister",
        FaultNumber::RegisterRange => "RegisterRange",
        FaultNumber::BadOperand => "BadOperand",
        FaultNumber::TooDeep => "TooDeep",
        FaultNumber::NotConstant => "NotConstant",
        FaultNumber::Undefined => "Undefined",
        FaultNumber::LaterEqu => "LaterEqu",
        FaultNumber::FaultyEqu => "FaultyEqu",
        FaultNumber::Arithmetic => "Arithmetic",
        FaultNumber::Range => "Range",
        FaultNumber::Multiple => "Multiple",
        FaultNumber::NoPartner => "NoPartner",
        FaultNumber::Duplicate => "Duplicate",
        FaultNumber::OddAddress => "OddAddress",
        FaultNumber::InBss => "InBss",
    }
}

// Adds the row of a fault.
#[tactic(auto, unfolding(crate::specs::Faults::fault_row))]
fn push_fault_row<W: Sink>(
    block: &mut OutputBlock,
    sink: &mut W,
    line: u32,
    fault: &Fault,
) -> Result<(), Failed>
    requires { W.failures sink.old < 2 ^ 64 - 1 }
    ensures text { Gathers (W.taken sink.old) block.old (fault_row line fault.now) result (W.taken sink.new) block.new }
    ensures count { W.failures sink.new ≡ failures_after (W.failures sink.old) result }
{
    let mut row = OutputRow::new();
    push_field(&mut row, line);
    push_field(&mut row, fault.span.from);
    push_field(&mut row, fault.span.to);
    push_field(&mut row, fault.number.number());
    row.push_text(fault_name(fault.number).as_bytes());
    row.push_text(b"\n");
    block.push(sink, row.bytes())
}

// Adds the row of a fault, if there is one.
fn push_found<W: Sink>(
    block: &mut OutputBlock,
    sink: &mut W,
    line: u32,
    fault: Option<Fault>,
) -> Result<(), Failed>
    requires { W.failures sink.old < 2 ^ 64 - 1 }
    ensures text { Gathers (W.taken sink.old) block.old (concat (map (fault_row line) (body_faults fault))) result (W.taken sink.new) block.new }
    ensures count { W.failures sink.new ≡ failures_after (W.failures sink.old) result }
{
    match fault {
        Some(fault) => push_fault_row(block, sink, line, &fault),
        None => Ok(()),
    }
}

// Adds the rows of a line's faults.
fn push_line_faults<W: Sink>(
    block: &mut OutputBlock,
    sink: &mut W,
    line: u32,
    mut faults: &[Option<Fault>],
) -> Result<(), Failed>
    requires { W.failures sink.old < 2 ^ 64 - 1 }
    ensures text { Gathers (W.taken sink.old) block.old (concat (map (fault_row line) (found faults.entry.now))) result (W.taken sink.new) block.new }
    ensures count { W.failures sink.new ≡ failures_after (W.failures sink.old) result }
{
    'faults: while let [fault, later @ ..] = faults {
        push_found(block, sink, line, *fault)?;
        faults = later;
    }
    Ok(())
}

// Adds the rows of all lines, which have so many faults. The lines behind the last one with a fault are not looked at.
fn push_fault_rows<V: View, L: TestedLines, W: Sink>(
    block: &mut OutputBlock,
    sink: &mut W,
    view: &V,
    mut lines: L,
    count: u32,
) -> Result<(), Failed>
    requires text { L.shown lines ≡ V.shown view.now }
    requires first { L.passed lines ≡ 0 }
    requires counted { count ≡ length (fault_rows (V.shown view.now)) }
    requires failures { W.failures sink.old < 2 ^ 64 - 1 }
    ensures text { Gathers (W.taken sink.old) block.old (concat (fault_rows (V.shown view.now))) result (W.taken sink.new) block.new }
    ensures count { W.failures sink.new ≡ failures_after (W.failures sink.old) result }
{
    let mut faults = ArrayVec::new();
    let mut left = count;
    for k in 0..view.line_count() {
        if left == 0 {
            return Ok(());
        }
        lines.advance();
        if !lines.may_have_faults() {
            continue;
        }
        find_faults(&mut faults, view, k + 1, &lines.line());
        push_line_faults(block, sink, k + 1, faults.as_slice())?;
        left -= faults.len() as u32;
    }
    Ok(())
}

// Adds the whole text. The lines of the view are gone through twice, the second time up to the last fault, so they are handed over twice.
#[tactic(auto, unfolding(crate::specs::Faults::fault_text))]
fn push_faults<V: View, L: TestedLines, W: Sink>(
    block: &mut OutputBlock,
    sink: &mut W,
    view: &V,
    lines: L,
    again: L,
) -> Result<(), Failed>
    requires text { L.shown lines ≡ V.shown view.now }
    requires first { L.passed lines ≡ 0 }
    requires text_again { L.shown again ≡ V.shown view.now }
    requires first_again { L.passed again ≡ 0 }
    requires failures { W.failures sink.old < 2 ^ 64 - 1 }
    ensures text { Gathers (W.taken sink.old) block.old (fault_text (V.shown view.now)) result (W.taken sink.new) block.new }
    ensures count { W.failures sink.new ≡ failures_after (W.failures sink.old) result }
{
    let count = count_faults(view, lines);
    push_count(block, sink, b"faults", count)?;
    push_fault_rows(block, sink, view, again, count)
}

/// Writes the faults of a text, up to the first failure of the writer: how many there are, and for each its line, the bytes of
/// the line at which it is reported, its number and its name. The faults of a line are the second definitions among its labels,
/// that of its `.equ`, the fault of its body, that an instruction is at an odd address, and that there are bytes in `.bss`. Takes
/// no memory.
///
/// # Errors
///
/// `Write` if a call of the writer failed.
pub fn write_faults<V: View, W: Sink>(view: &V, sink: &mut W) -> Result<(), ListError>
    requires { W.failures sink.old < 2 ^ 64 - 1 }
    ensures text { Writes (W.taken sink.old) (fault_text (V.shown view.now)) result (W.taken sink.new) }
    ensures count { W.failures sink.new ≡ failures_after (W.failures sink.old) result }
{
    let mut block = OutputBlock::new();
    let lines = Untested::new(view.lines());
    let again = Untested::new(view.lines());
    let pushed = push_faults(&mut block, sink, view, lines, again);
    end_text(&mut block, sink, pushed)
}

/// It is as for `write_faults`, but only the lines that may have faults are looked at.
///
/// # Errors
///
/// `Write` if a call of the writer failed.
pub fn write_tested_faults<V: View, W: Sink>(view: &V, sink: &mut W) -> Result<(), ListError>
where
    V::Lines: TestedLines,
    requires { W.failures sink.old < 2 ^ 64 - 1 }
    ensures text { Writes (W.taken sink.old) (fault_text (V.shown view.now)) result (W.taken sink.new) }
    ensures count { W.failures sink.new ≡ failures_after (W.failures sink.old) result }
{
    let mut block = OutputBlock::new();
    let pushed = push_faults(&mut block, sink, view, view.lines(), view.lines());
    end_text(&mut block, sink, pushed)
}
