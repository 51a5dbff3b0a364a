//! Diagnostics as they are written: faults of lines, warnings about them, and lines past a limit.

ghost use Rattle.std.specs.Prelude.{◌≡◌, ◌≤◌, ◌<◌, ◌^◌, ◌++◌, [], codes, decimal, length, option_map, IfOk, OnOk};
ghost use Rattle.std.specs.List.{flat_map};
ghost use Rattle.std.specs.Str.Lossy.{utf8_lossy};
ghost use Rattle.rv_list.specs.Faults.{body_faults, found};
ghost use Rattle.rv_report.specs.FaultyNames.{name_used};
ghost use Rattle.rv_report.specs.Lines.{line_of};
ghost use Rattle.rv_report.specs.Messages.{message_of};
ghost use Rattle.rv_report.specs.Warnings.{warning_seen};
ghost use Rattle.rv_diagnostics.specs.Diagnostics.{column_at, diagnostic, diagnostic_by_place, diagnostic_head, diagnostic_of_fault, fault_diagnostic, first_line_of, long_line, many_lines, more_diagnostics, place_of_fault, place_of_name, related_line, related_of, related_place, warning_diagnostic};

use crate::defined_names::{Definition, name_of_fault, place_of_word, text_of_place};
use crate::message::Message;
use crate::part::Part;
use crate::ranges::put_range;
use crate::told::Told;
use rv_doc::{Encoding, column_of, without_return};
use rv_expr::Names;
use rv_list::{DefinitionPlace, View, fault_name};
use rv_program::MAX_LINES;
use rv_report::{FaultyLine, UsedName, Warning, faulty_name_at, message, push_warning_message};
use rv_show::{Text, part};
use rv_text::{Fault, FaultNumber, MAX_LINE_LENGTH};
use std::alloc::{AllocError, Global};

/// What the diagnostics of a document share.
#[derive(Clone, Copy)]
pub struct Context<'a> {
    pub alloc: Global,
    pub encoding: Encoding,
    /// The name of the document.
    pub uri: &'a str,
}

/// How grave a fault is. (Language Server Protocol 3.17, DiagnosticSeverity)
pub const ERROR: u64 = 1;

/// How grave a warning is.
pub const WARNING: u64 = 2;

// Where a diagnostic is, by a line and columns.
#[derive(Clone, Copy)]
struct Place {
    line: u32,
    from: u32,
    to: u32,
}

/// The column at a place of a line, in bytes: no column is behind the 0x0D that belongs to its end.
pub fn column_at(encoding: Encoding, line: &[u8], at: u32) -> u32
    requires { length line.now < 2 ^ 31 }
    ensures { result ≡ column_at encoding line.now at }
{
    let line = without_return(line);
    let (front, _) = line.split_at(line.len().min(at as usize));
    column_of(encoding, front)
}

// The column behind as many bytes as a line may have.
fn limit_column(encoding: Encoding, line: &[u8]) -> u32
    ensures { result ≡ column_at encoding line.now MAX_LINE_LENGTH }
{
    let line = without_return(line);
    let (front, _) = line.split_at(line.len().min(MAX_LINE_LENGTH));
    column_of(encoding, front)
}

// Begins a diagnostic: where it is, how grave, its code and what it says.
#[tactic(auto, unfolding(crate::specs::Diagnostics::diagnostic_head))]
fn begin_diagnostic<'a>(
    m: &mut Message,
    place: Place,
    severity: u64,
    code: &'a str,
    message: &'a str,
) -> Result<(), AllocError>
    ensures { OnOk result (m.new ≡ m.old ++ diagnostic_head place.line place.from place.to severity code.now message.now) }
{
    m.put_all(&[Part::BeginObject, Part::Key("range")])?;
    put_range(m, place.line, place.from, place.to)?;
    m.put_all(&[
        Part::Key("severity"),
        Part::Number(severity),
        Part::Key("code"),
        Part::Text(code),
        Part::Key("source"),
        Part::Text("rvls"),
        Part::Key("message"),
        Part::Text(message),
    ])?;
    Ok(())
}

// Begins a diagnostic of which this is said. What is not UTF-8 is U+FFFD.
fn begin_said(
    m: &mut Message,
    alloc: Global,
    place: Place,
    severity: u64,
    code: &str,
    said: &[u8],
) -> Result<(), AllocError>
    ensures { OnOk result (m.new ≡ m.old ++ diagnostic_head place.line place.from place.to severity code.now (utf8_lossy said.now)) }
{
    let message = String::from_utf8_lossy(alloc, said)?;
    begin_diagnostic(m, place, severity, code, message.as_str())?;
    Ok(())
}

// Writes a diagnostic to which nothing else belongs.
fn put_diagnostic(
    m: &mut Message,
    place: Place,
    severity: u64,
    code: &str,
    message: &str,
) -> Result<(), AllocError>
    ensures { OnOk result (m.new ≡ m.old ++ diagnostic place.line place.from place.to severity code.now message.now []) }
{
    begin_diagnostic(m, place, severity, code, message)?;
    m.end_object()?;
    Ok(())
}

// Writes the place of a name in the line of its definition, from 1 on, and what is said of it.
#[tactic(auto, unfolding(crate::specs::Diagnostics::related_line))]
fn put_related_line<'a>(
    m: &mut Message,
    encoding: Encoding,
    uri: &'a str,
    line: u32,
    definition: &Definition<'_>,
    said: &'a str,
) -> Result<(), AllocError>
    requires { length definition.now.text.now ≤ 1000 }
    ensures { OnOk result (m.new ≡ m.old ++ related_line encoding uri.now line definition.now.text.now definition.now.span said.now) }
{
    m.put_all(&[
        Part::Key("relatedInformation"),
        Part::BeginArray,
        Part::BeginObject,
        Part::Key("location"),
        Part::BeginObject,
        Part::Key("uri"),
        Part::Text(uri),
        Part::Key("range"),
    ])?;
    let from = column_at(encoding, definition.text, definition.span.from);
    let to = column_at(encoding, definition.text, definition.span.to);
    put_range(m, line.saturating_sub(1), from, to)?;
    m.put_all(&[
        Part::EndObject,
        Part::Key("message"),
        Part::Text(said),
        Part::EndObject,
        Part::EndArray,
    ])?;
    Ok(())
}

// Writes where a name is defined, if it is, and what is said of that.
fn put_related_place(
    m: &mut Message,
    context: &Context<'_>,
    definition: &Definition<'_>,
    said: &str,
) -> Result<(), AllocError>
    requires { length definition.now.text.now ≤ 1000 }
    ensures { OnOk result (m.new ≡ m.old ++ related_place context.now.encoding context.now.uri.now definition.now.place definition.now.text.now definition.now.span said.now) }
{
    match definition.place {
        DefinitionPlace::Label(line, _) => put_related_line(
            m,
            context.encoding,
            context.uri,
            line,
            definition,
            said,
        ),
        DefinitionPlace::Equ(line) => put_related_line(
            m,
            context.encoding,
            context.uri,
            line,
            definition,
            said,
        ),
        DefinitionPlace::Nowhere => Ok(()),
    }
}

// Writes where a name of a fault is defined: of a second definition the first, and that of a faulty `.equ`.
fn put_related(
    m: &mut Message,
    context: &Context<'_>,
    number: FaultNumber,
    definition: &Definition<'_>,
) -> Result<(), AllocError>
    requires { length definition.now.text.now ≤ 1000 }
    ensures { OnOk result (m.new ≡ m.old ++ related_of context.now.encoding context.now.uri.now number definition.now.place definition.now.text.now definition.now.span) }
{
    match number {
        FaultNumber::Duplicate => {
            put_related_place(m, context, definition, "the first definition is here")
        }
        FaultNumber::FaultyEqu => {
            put_related_place(m, context, definition, "its definition is here")
        }
        _ => Ok(()),
    }
}

// Appends which line a definition is in.
fn push_line(bytes: &mut Vec<u8>, line: u32) -> Result<(), AllocError>
    ensures { OnOk result (bytes.new.items ≡ bytes.old.items ++ codes " in line " ++ decimal line) }
{
    let mut digits = itoa::Buffer::new();
    bytes.extend_from_slice(b" in line ")?;
    bytes.extend_from_slice(digits.format(line).as_bytes())
}

// Appends which line the first definition is in, for a fault that is about a later one.
fn push_first_line(
    bytes: &mut Vec<u8>,
    number: FaultNumber,
    place: DefinitionPlace,
) -> Result<(), AllocError>
    ensures { OnOk result (bytes.new.items ≡ bytes.old.items ++ first_line_of number place) }
{
    if number != FaultNumber::Duplicate {
        return Ok(());
    }
    match place {
        DefinitionPlace::Nowhere => Ok(()),
        DefinitionPlace::Label(line, _) => push_line(bytes, line),
        DefinitionPlace::Equ(line) => push_line(bytes, line),
    }
}

// The message of a fault, whose name is defined here.
fn fault_said<N: Names, V: View>(
    alloc: Global,
    line: &FaultyLine<'_>,
    names: &N,
    view: &V,
    definition: DefinitionPlace,
    fault: Fault,
) -> Result<Vec<u8>, AllocError>
    requires labels { length line.now.stmt.now.labels ≤ 1000 }
    requires text { length line.now.text.now ≤ 1000 }
    ensures { IfOk result (λ said. said.items ≡ message_of (N.environment names.now line.now.address) (V.shown view.now) (line_of line.now) fault ++ first_line_of fault.number definition) }
{
    let mut said = Vec::new(alloc);
    message(&mut said, alloc, line, names, view, fault)?;
    push_first_line(&mut said, fault.number, definition)?;
    Ok(said)
}

// Where a name is defined for which an operand has no value.
fn place_of_name<V: View>(view: &V, name: Option<UsedName<'_>>) -> DefinitionPlace
    ensures { result ≡ place_of_name (V.shown view.now) (option_map name_used name.entry) }
{
    match name {
        Some(UsedName::Symbol(symbol)) => view.definition(symbol),
        Some(UsedName::Local(_, _)) => DefinitionPlace::Nowhere,
        Some(UsedName::Here) => DefinitionPlace::Nowhere,
        None => DefinitionPlace::Nowhere,
    }
}

// Where the name of a fault is defined.
fn place_of_fault<N: Names, V: View>(
    line: &FaultyLine<'_>,
    names: &N,
    view: &V,
    fault: Fault,
) -> DefinitionPlace
    ensures { result ≡ place_of_fault (N.environment names.now line.now.address) (V.shown view.now) (line_of line.now) fault.number fault.span }
{
    match fault.number {
        FaultNumber::FaultyEqu => place_of_name(view, faulty_name_at(line, names, fault.span)),
        _ => view.definition(part(line.text, fault.span)),
    }
}

// Writes the diagnostic of a fault, of which this is said, and whose name is defined here.
fn put_said(
    m: &mut Message,
    context: &Context<'_>,
    line: &FaultyLine<'_>,
    definition: &Definition<'_>,
    fault: Fault,
    said: &[u8],
) -> Result<(), AllocError>
    requires line { length line.now.text.now ≤ 1000 }
    requires definition { length definition.now.text.now ≤ 1000 }
    ensures { OnOk result (m.new ≡ m.old ++ diagnostic_of_fault context.now.encoding context.now.uri.now definition.now.place definition.now.text.now definition.now.span (line_of line.now) fault (utf8_lossy said.now)) }
{
    let place = Place {
        line: line.number.saturating_sub(1),
        from: column_at(context.encoding, line.text, fault.span.from),
        to: column_at(context.encoding, line.text, fault.span.to),
    };
    let code = fault_name(fault.number);
    begin_said(m, context.alloc, place, ERROR, code, said)?;
    put_related(m, context, fault.number, definition)?;
    m.end_object()?;
    Ok(())
}

// Writes the diagnostic of a fault.
#[tactic(auto, unfolding(crate::specs::Diagnostics::fault_diagnostic))]
fn put_fault<N: Names, T: Told>(
    m: &mut Message,
    context: &Context<'_>,
    line: &FaultyLine<'_>,
    names: &N,
    told: &T,
    fault: Fault,
) -> Result<(), AllocError>
    requires labels { length line.now.stmt.now.labels ≤ 1000 }
    requires text { length line.now.text.now ≤ 1000 }
    ensures { OnOk result (m.new ≡ m.old ++ fault_diagnostic context.now.encoding context.now.uri.now (N.environment names.now line.now.address) (T.View.shown told.now) (line_of line.now) fault) }
{
    let place = place_of_fault(line, names, told, fault);
    let text = text_of_place(told, place);
    let name = name_of_fault(line, names, fault);
    let span = place_of_word(context.alloc, text, name)?;
    let definition = Definition { place, text, span };
    let said = fault_said(context.alloc, line, names, told, place, fault)?;
    put_said(m, context, line, &definition, fault, said.as_slice())?;
    Ok(())
}

// Writes the diagnostic of a fault, if there is one.
fn put_if_found<N: Names, T: Told>(
    m: &mut Message,
    context: &Context<'_>,
    line: &FaultyLine<'_>,
    names: &N,
    told: &T,
    fault: Option<Fault>,
) -> Result<(), AllocError>
    requires labels { length line.now.stmt.now.labels ≤ 1000 }
    requires text { length line.now.text.now ≤ 1000 }
    ensures { OnOk result (m.new ≡ m.old ++ flat_map (fault_diagnostic context.now.encoding context.now.uri.now (N.environment names.now line.now.address) (T.View.shown told.now) (line_of line.now)) (body_faults fault)) }
{
    match fault {
        Some(fault) => put_fault(m, context, line, names, told, fault),
        None => Ok(()),
    }
}

/// Writes the diagnostics of faults of a line.
pub fn put_faults<N: Names, T: Told>(
    m: &mut Message,
    context: &Context<'_>,
    line: &FaultyLine<'_>,
    names: &N,
    told: &T,
    mut faults: &[Option<Fault>],
) -> Result<(), AllocError>
    requires labels { length line.now.stmt.now.labels ≤ 1000 }
    requires text { length line.now.text.now ≤ 1000 }
    ensures { OnOk result (m.new ≡ m.old ++ flat_map (fault_diagnostic context.now.encoding context.now.uri.now (N.environment names.now line.now.address) (T.View.shown told.now) (line_of line.now)) (found faults.entry.now)) }
{
    'faults: while let [fault, later @ ..] = faults {
        put_if_found(m, context, line, names, told, *fault)?;
        faults = later;
    }
    Ok(())
}

/// Writes the diagnostic of a warning about a line, by its number from 1 on.
#[tactic(auto, unfolding(crate::specs::Diagnostics::warning_diagnostic))]
pub fn put_warning(
    m: &mut Message,
    context: &Context<'_>,
    number: u32,
    text: &[u8],
    warning: &Warning<'_>,
) -> Result<(), AllocError>
    requires { length text.now ≤ 1000 }
    ensures { OnOk result (m.new ≡ m.old ++ warning_diagnostic context.now.encoding number text.now (warning_seen warning.now)) }
{
    let mut said = Text::new(context.alloc);
    push_warning_message(&mut said, warning.label)?;
    let place = Place {
        line: number.saturating_sub(1),
        from: column_at(context.encoding, text, warning.span.from),
        to: column_at(context.encoding, text, warning.span.to),
    };
    let code = "label-as-register";
    begin_said(m, context.alloc, place, WARNING, code, said.bytes())?;
    m.end_object()?;
    Ok(())
}

/// Writes the diagnostic of a line that is too long, by its number from 0 on, at the first byte past the limit.
#[tactic(auto, unfolding(crate::specs::Diagnostics::long_line))]
pub fn put_long_line(
    m: &mut Message,
    context: &Context<'_>,
    number: u32,
    text: &[u8],
) -> Result<(), AllocError>
    ensures { OnOk result (m.new ≡ m.old ++ long_line context.now.encoding number text.now) }
{
    let column = limit_column(context.encoding, text);
    let place = Place {
        line: number,
        from: column,
        to: column,
    };
    let said = "a line has at most 1000 bytes";
    put_diagnostic(m, place, ERROR, "line-too-long", said)?;
    Ok(())
}

/// Writes the diagnostic of a text with too many lines, at the first line past the limit.
#[tactic(auto, unfolding(crate::specs::Diagnostics::many_lines))]
pub fn put_many_lines(m: &mut Message) -> Result<(), AllocError>
    ensures { OnOk result (m.new ≡ m.old ++ many_lines) }
{
    let place = Place {
        line: MAX_LINES as u32,
        from: 0,
        to: 0,
    };
    let said = "a text has at most 16384 lines";
    put_diagnostic(m, place, ERROR, "too-many-lines", said)?;
    Ok(())
}

/// Writes the diagnostic that says how many others are not shown, at a line, and is as grave as they are.
#[tactic(auto, unfolding(crate::specs::Diagnostics::more_diagnostics))]
pub fn put_more(
    m: &mut Message,
    alloc: Global,
    line: u32,
    severity: u64,
    more: usize,
) -> Result<(), AllocError>
    ensures { OnOk result (m.new ≡ m.old ++ more_diagnostics line severity more) }
{
    let place = Place {
        line,
        from: 0,
        to: 0,
    };
    let said = format!(in alloc; "{more} more faults and warnings are not shown")?;
    put_diagnostic(m, place, severity, "more", said.as_str())?;
    Ok(())
}
