//! What the program does.

ghost use Rattle.std.specs.Prelude.{◌≡◌, ◌+◌, ◌^◌, ◌<◌, if◌then◌else◌, IfOk};
ghost use Rattle.rv_files.specs.TextReports.{asked_warnings, fault_count};

use crate::arguments::{Arguments, Color};
use crate::explain::explain;
use crate::failure::Failure;
use crate::format::Format;
use crate::input::{read, read_text};
use crate::names::{Shown, shown_file};
use crate::noting::{Noting, unless_closed};
use crate::output::Output;
use crate::sums::Sums;
use rv_dis::{DisRow, first_row};
use rv_files::{Counts, ReportError, Wanted, line_marks, report_counts, write_reports};
use rv_list::write_listing;
use rv_manual::{encoded_fields, instruction_of};
use rv_show::{LineMark, Page, Style};
use rv_store::Store;
use rv_text::StdSink;
use std::env::{self, VarError};
use std::fs::{self, Metadata};
use std::io::{self, IsTerminal, Write};
use std::os::unix::fs::MetadataExt;

// How many reports of a file are shown, unless all are asked for.
const MOST_REPORTS: u32 = 1000;

// Whether the environment asks for no colors: NO_COLOR is set and not empty (no-color.org), or the terminal has none.
fn is_without_colors(rt: &HostRuntime) -> bool {
    let is_unwanted = match env::var(rt, "NO_COLOR") {
        Ok(value) => !value.is_empty(),
        Err(VarError::NotPresent) => false,
        Err(_) => true,
    };
    if is_unwanted {
        return true;
    }
    match env::var(rt, "TERM") {
        Ok(terminal) => terminal.as_str() == "dumb",
        Err(_) => false,
    }
}

// How reports are shown.
fn style_of(rt: &HostRuntime, color: Color) -> Style {
    let has_colors = match color {
        Color::Always => true,
        Color::Never => false,
        Color::Auto => rt.stderr().is_terminal() && !is_without_colors(rt),
    };
    if has_colors {
        Style::Colored
    } else {
        Style::Plain
    }
}

// The marks in a text that say where its lines come from, unless these are left aside.
fn marks_in<'a>(
    rt: &HostRuntime,
    arguments: &Arguments<'_>,
    store: &'a Store,
) -> Result<Vec<LineMark<'a>>, Failure> {
    if arguments.has_own_lines {
        Ok(Vec::new(rt.alloc()))
    } else {
        Ok(line_marks(rt.alloc(), store)?)
    }
}

// How many reports of a file are shown at most.
fn most_reports(arguments: &Arguments<'_>) -> u32 {
    if arguments.all {
        u32::MAX
    } else {
        MOST_REPORTS
    }
}

// Writes the reports of a text to standard error, as a page shows them, and counts the faults and warnings. Where they cannot be
// written, they are lost.
fn report_on(
    rt: &HostRuntime,
    page: &Page<'_>,
    store: &Store,
    wanted: Wanted,
) -> Result<Counts, Failure>
    ensures faults { IfOk result (λ counts. counts.faults ≡ fault_count store.now) }
    ensures few { IfOk result (λ counts. counts.faults + counts.warnings < 2 ^ 32) }
    ensures warnings { IfOk result (λ counts. counts.warnings ≡ asked_warnings store.now wanted.warnings) }
{
    let mut sink = StdSink::new(rt.stderr());
    match write_reports(&mut sink, rt.alloc(), page, store, wanted) {
        Ok(counts) => Ok(counts),
        Err(ReportError::Write) => Ok(report_counts(store, wanted.warnings)),
        Err(ReportError::Memory) => Err(Failure::Memory),
    }
}

// Writes the reports of a text to standard error, and counts the faults and warnings.
fn report(
    rt: &HostRuntime,
    arguments: &Arguments<'_>,
    name: &str,
    store: &Store,
) -> Result<Counts, Failure>
    ensures faults { IfOk result (λ counts. counts.faults ≡ fault_count store.now) }
    ensures few { IfOk result (λ counts. counts.faults + counts.warnings < 2 ^ 32) }
    ensures warnings { IfOk result (λ counts. counts.warnings ≡ asked_warnings store.now arguments.now.warnings) }
{
    let wanted = Wanted {
        most: most_reports(arguments),
        warnings: arguments.warnings,
    };
    let file = format!(in rt.alloc(); "{}", shown_file(name))?;
    let marks = marks_in(rt, arguments, store)?;
    let page = Page {
        file: file.as_bytes(),
        marks: marks.as_slice(),
        style: style_of(rt, arguments.color),
    };
    report_on(rt, &page, store, wanted)
}

// Reports the faults of a text and the warnings about it, and says how many of them make it wrong: warnings only if that is asked for.
fn report_faults(
    rt: &HostRuntime,
    arguments: &Arguments<'_>,
    name: &str,
    store: &Store,
) -> Result<u32, Failure>
    ensures { IfOk result (λ count. count ≡ fault_count store.now + (if arguments.now.werror then asked_warnings store.now arguments.now.warnings else 0)) }
{
    let counts = report(rt, arguments, name, store)?;
    let warnings = if arguments.werror { counts.warnings } else { 0 };
    Ok(counts.faults + warnings)
}

// Says that something was not done with a file, and why, where that is known.
fn say_about(rt: &HostRuntime, file: Shown<'_>, what: &str, reason: &str) -> io::Result<()> {
    if reason.is_empty() {
        eprintln!(rt; "rvas: {file}: {what}")
    } else {
        eprintln!(rt; "rvas: {file}: {what}: {reason}")
    }
}

// Says something about the program's own work.
fn say(rt: &HostRuntime, what: &str) -> io::Result<()> {
    eprintln!(rt; "rvas: {what}")
}

// Says that there is none of a name.
fn say_missing(rt: &HostRuntime, what: &str, name: &str) -> io::Result<()> {
    eprintln!(rt; "rvas: no {what} '{}'", Shown(name))
}

// Says something on standard output, unless that writes into a file.
fn say_on_output(rt: &HostRuntime, file: &str, what: &str) -> io::Result<()> {
    if is_same_file(rt, file, "-") {
        return Ok(());
    }
    println!(rt; "rvas: {what}")
}

// Says why a task was not done with a file.
fn say_failure(rt: &HostRuntime, failure: Failure, file: &str, other: &str) -> io::Result<()> {
    match failure {
        Failure::Faulty => Ok(()),
        Failure::Base => say(rt, "bad base"),
        Failure::SameFile => say(rt, "OUT and FILE are the same"),
        Failure::OutputInFile => say(rt, "standard output and FILE are the same"),
        Failure::ErrorInFile => say_on_output(rt, file, "standard error and FILE are the same"),
        Failure::Terminal => {
            say(
                rt,
                "bytes are not written to a terminal: name a file with -o",
            )
        }
        Failure::NoLabel => say_missing(rt, "label", other),
        Failure::NoFault => say_missing(rt, "fault, instruction, directive or register", file),
        Failure::Read(reason) => say_about(rt, shown_file(file), "cannot be read", reason),
        Failure::Write(reason) => say_about(rt, Shown(other), "cannot be written", reason),
        Failure::Memory => say(rt, "out of memory"),
    }
}

// Says why a task was not done with a file, and gives the status.
fn status_of(rt: &HostRuntime, done: Result<(), Failure>, file: &str, other: &str) -> u8 {
    let Err(failure) = done else {
        return 0;
    };
    let _ = say_failure(rt, failure, file, other);
    failure.status()
}

// The one file of a task, or the name that is explained.
fn first_name<'a>(arguments: &Arguments<'a>) -> &'a str {
    arguments.names.first().copied().unwrap_or("-")
}

// Where a file lies: `-` is the standard one.
fn path_of<'a>(name: &'a str, standard: &'a str) -> &'a str {
    if name == "-" { standard } else { name }
}

// Whether two files are one plain file.
fn are_one_file(one: &Metadata, other: &Metadata) -> bool {
    one.is_file() && one.dev() == other.dev() && one.ino() == other.ino()
}

// Whether the output has the same plain file as the input.
fn is_same_file(rt: &HostRuntime, file: &str, out: &str) -> bool {
    let Ok(one) = fs::metadata(rt, path_of(file, "/dev/stdin")) else {
        return false;
    };
    match fs::metadata(rt, path_of(out, "/dev/stdout")) {
        Ok(other) => are_one_file(&one, &other),
        Err(_) => false,
    }
}

// Refuses a file that standard error would write into.
fn unless_in_error(rt: &HostRuntime, file: &str) -> Result<(), Failure> {
    if is_same_file(rt, file, "/dev/stderr") {
        Err(Failure::ErrorInFile)
    } else {
        Ok(())
    }
}

// Refuses a file that standard error or standard output would write into.
fn unless_written_into(rt: &HostRuntime, file: &str) -> Result<(), Failure> {
    unless_in_error(rt, file)?;
    if is_same_file(rt, file, "-") {
        Err(Failure::OutputInFile)
    } else {
        Ok(())
    }
}

// Whether bytes that are no text would be shown on a terminal.
fn is_for_terminal(rt: &HostRuntime, out: &str, format: Format) -> bool {
    out == "-" && !format.is_text() && rt.stdout().is_terminal()
}

// Reports the faults of a text that was read and writes it, unless it has some and only a right one is to be written.
fn assemble_text(
    rt: &HostRuntime,
    arguments: &Arguments<'_>,
    file: &str,
    store: &Store,
    out: &str,
    format: Format,
) -> Result<(), Failure> {
    let is_right = report_faults(rt, arguments, file, store)? == 0;
    if !is_right && !arguments.force {
        return Err(Failure::Faulty);
    }
    let output = Output::of(rt, store, arguments.base, arguments.entry, format)?;
    output.write_to(rt, out)?;
    unless_faulty(is_right)
}

// What a task comes to that is done with a text: it fails with a wrong one.
fn unless_faulty(is_right: bool) -> Result<(), Failure> {
    if is_right {
        Ok(())
    } else {
        Err(Failure::Faulty)
    }
}

// Assembles a file. Nothing is written where it has faults, unless that is asked for.
fn assemble_file(
    rt: &HostRuntime,
    arguments: &Arguments<'_>,
    file: &str,
    out: &str,
) -> Result<(), Failure> {
    let format = arguments.format.unwrap_or(Format::of_file(out));
    unless_in_error(rt, file)?;
    if is_same_file(rt, file, out) {
        return Err(Failure::SameFile);
    }
    if is_for_terminal(rt, out, format) {
        return Err(Failure::Terminal);
    }
    let store = read_text(rt, file, arguments.base)?;
    assemble_text(rt, arguments, file, &store, out, format)
}

/// Assembles a file, and gives the status.
pub fn assemble(rt: &HostRuntime, arguments: &Arguments<'_>) -> u8 {
    let file = first_name(arguments);
    let out = arguments.out.unwrap_or("-");
    let done = assemble_file(rt, arguments, file, out);
    let other = match done {
        Err(Failure::NoLabel) => arguments.entry.unwrap_or(""),
        _ => out,
    };
    status_of(rt, done, file, other)
}

// Reports the faults of a file, and says how many there are. A line past a limit is one.
fn check_file(rt: &HostRuntime, arguments: &Arguments<'_>, file: &str) -> Result<u32, Failure> {
    match read_text(rt, file, arguments.base) {
        Ok(store) => report_faults(rt, arguments, file, &store),
        Err(Failure::Faulty) => Ok(1),
        Err(failure) => Err(failure),
    }
}

// Which of some files standard error would write into, if there is one.
fn file_in_error<'a>(rt: &HostRuntime, files: &[&'a str]) -> Option<&'a str> {
    for file in files {
        if unless_in_error(rt, file).is_err() {
            return Some(file);
        }
    }
    None
}

/// Reports the faults of each file, says how many there are in all, and gives the greatest status.
pub fn check(rt: &HostRuntime, arguments: &Arguments<'_>) -> u8 {
    if let Some(file) = file_in_error(rt, arguments.names.as_slice()) {
        return status_of(rt, Err(Failure::ErrorInFile), file, "");
    }
    let mut sums = Sums::none();
    for file in arguments.names.as_slice() {
        let done = match check_file(rt, arguments, file) {
            Ok(faults) => sums.add(faults),
            Err(failure) => sums.miss(failure),
        };
        status_of(rt, done, file, "");
    }
    sums.say(rt, arguments.names.len());
    sums.status()
}

// Writes the listing of a text.
fn write_list(rt: &HostRuntime, store: &Store) -> Result<(), Failure> {
    let mut sink = StdSink::new(Noting::new(io::writer(rt)));
    match write_listing(&store, &mut sink) {
        Ok(()) => Ok(()),
        Err(_) => unless_closed(sink.writer.kind()),
    }
}

// Reports the faults of a text that was read, and writes its listing.
fn list_text(
    rt: &HostRuntime,
    arguments: &Arguments<'_>,
    file: &str,
    store: &Store,
) -> Result<(), Failure> {
    let is_right = report_faults(rt, arguments, file, store)? == 0;
    write_list(rt, store)?;
    unless_faulty(is_right)
}

// Writes the listing of a file.
fn list_file(rt: &HostRuntime, arguments: &Arguments<'_>, file: &str) -> Result<(), Failure> {
    unless_written_into(rt, file)?;
    let store = read_text(rt, file, arguments.base)?;
    list_text(rt, arguments, file, &store)
}

/// Writes the listing of a file, and gives the status.
pub fn list(rt: &HostRuntime, arguments: &Arguments<'_>) -> u8 {
    let file = first_name(arguments);
    status_of(rt, list_file(rt, arguments, file), file, "-")
}

// Writes a row: its address, its value with two digits for each byte, and its text.
fn write_row<W: Write>(out: &mut W, row: &DisRow) -> io::Result<()> {
    let (address, value, text) = (row.address, row.value, row.text.as_str());
    match row.len {
        4 => writeln!(out, "{address:08x} {value:08x} {text}"),
        2 => writeln!(out, "{address:08x} {value:04x} {text}"),
        _ => writeln!(out, "{address:08x} {value:02x} {text}"),
    }
}

// Writes the fields of the instruction of a row, if it is one, from the highest bit on.
fn write_fields<W: Write>(out: &mut W, row: &DisRow) -> io::Result<()> {
    let Some(ins) = instruction_of(row.value, row.len) else {
        return Ok(());
    };
    for field in encoded_fields(&ins).as_slice() {
        let field = field.row(&ins);
        writeln!(out, "  {field}")?;
    }
    Ok(())
}

// Writes a row, and the fields of its instruction if they are asked for.
fn write_shown<W: Write>(out: &mut W, row: &DisRow, fields: bool) -> io::Result<()> {
    write_row(out, row)?;
    if fields {
        write_fields(out, row)
    } else {
        Ok(())
    }
}

// Writes the rows of some bytes from an address on, one after another, each with the fields of its instruction if they are asked for.
fn write_rows<W: Write>(out: &mut W, bytes: &[u8], base: u32, fields: bool) -> io::Result<()> {
    let mut rest = bytes;
    let mut address = base;
    for _ in 0..bytes.len() {
        let Some(row) = first_row(rest, address) else {
            return out.flush();
        };
        write_shown(out, &row, fields)?;
        address = address.wrapping_add(u32::from(row.len));
        (_, rest) = rest.split_at(usize::from(row.len));
    }
    out.flush()
}

// Whether bytes are those of an ELF file, by the first four. No instruction begins so.
fn is_elf(bytes: &[u8]) -> bool {
    matches!(bytes, [0x7f, b'E', b'L', b'F', ..])
}

// Writes the rows of a file of raw bytes.
fn write_bytes(rt: &HostRuntime, arguments: &Arguments<'_>, file: &str) -> Result<(), Failure> {
    unless_written_into(rt, file)?;
    let bytes = read(rt, file)?;
    if is_elf(bytes.as_slice()) {
        let _ = say_about(
            rt,
            shown_file(file),
            "is an ELF file",
            "its headers are shown as code, too",
        );
    }
    let Ok(mut out) = io::BufWriter::new(rt.alloc(), io::writer(rt)) else {
        return Err(Failure::Memory);
    };
    match write_rows(&mut out, bytes.as_slice(), arguments.base, arguments.fields) {
        Ok(()) => Ok(()),
        Err(error) => unless_closed(error.kind()),
    }
}

/// Disassembles a file of raw bytes, and gives the status.
pub fn disassemble_file(rt: &HostRuntime, arguments: &Arguments<'_>) -> u8 {
    let file = first_name(arguments);
    status_of(rt, write_bytes(rt, arguments, file), file, "-")
}

/// Says what a fault means, and gives the status.
pub fn explain_fault(rt: &HostRuntime, arguments: &Arguments<'_>) -> u8 {
    let name = first_name(arguments);
    status_of(rt, explain(rt, name), name, "-")
}
