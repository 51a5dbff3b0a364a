//! The diagnostics of a document that is assembled.

ghost use Rattle.std.specs.Prelude.{◌≡◌, ◌≤◌, ◌∷◌, ◌+◌, ◌++◌, ◌*◌, ◌^◌, ◌<◌, [], length, map, take, None, IfOk, OnOk};
ghost use Rattle.std.specs.List.{flat_map};
ghost use Rattle.rv_list.specs.Faults.{found};
ghost use Rattle.rv_list.specs.Shown.{shown_line};
ghost use Rattle.rv_report.specs.Lines.{words_of};
ghost use Rattle.json.specs.Print.{print};
ghost use Rattle.json.specs.Token.{end_array, end_object};
ghost use Rattle.rv_doc.specs.Positions.{lines_of};
ghost use Rattle.rv_diagnostics.specs.Json.{frame};
ghost use Rattle.rv_diagnostics.specs.Published.{all_diagnostics, all_warnings, diagnostics_of, fault_count, fault_diagnostics, gravest_left_out, left_out, line_diagnostic, long_count, long_lines, publication, publication_head, shown_in, some_long, some_warnings, too_many, version_member, warning_count, warning_diagnostics, words_with};
ghost use Rattle.rv_doc.specs.Windows.{passed};

use crate::counting::{count_faults, count_long, count_warnings, has_many_lines, is_long};
use crate::diagnostics::{
    Context, ERROR, WARNING, put_faults, put_long_line, put_many_lines, put_more, put_warning,
};
use crate::message::Message;
use crate::part::Part;
use crate::told::Told;
use arrayvec::ArrayVec;
use rv_doc::{Lines, Window};
use rv_files::{first_names, first_symbols, first_unknown_words, searched};
use rv_fix::operand_values;
use rv_list::{LineSource, LineView, MAX_FAULTS, TestedLines, View, find_faults};
use rv_program::MAX_LINES;
use rv_report::{FaultyLine, TextWords, find_warning};
use rv_text::{Fault, Tally};
use std::alloc::{AllocError, Global};

// How many diagnostics of a document are shown at most.
const MOST: usize = 1000;

// Writes the diagnostic of a line, by its number from 0 on, if it is too long and a window shows it.
fn put_if_long(
    m: &mut Message,
    window: &mut Window,
    context: &Context<'_>,
    number: u32,
    line: &[u8],
) -> Result<(), AllocError>
    ensures said { OnOk result (m.new ≡ m.old ++ shown_in window.old (long_lines context.now.encoding number (line.now ∷ []))) }
    ensures passed { OnOk result (window.new ≡ passed window.old (length (long_lines context.now.encoding number (line.now ∷ [])))) }
{
    if !is_long(line) {
        return Ok(());
    }
    if window.shows_next() {
        put_long_line(m, context, number, line)?;
    }
    Ok(())
}

// Writes the diagnostics of those lines that are too long that a window shows.
fn put_long_lines(
    m: &mut Message,
    window: &mut Window,
    context: &Context<'_>,
    mut lines: Lines<'_>,
) -> Result<(), AllocError>
    ensures { OnOk result (m.new ≡ m.old ++ shown_in window.old (long_lines context.now.encoding 0 (take MAX_LINES lines.entry))) }
{
    for k in 0..MAX_LINES as u32 {
        let Some(line) = lines.next_line() else {
            return Ok(());
        };
        put_if_long(m, window, context, k, line)?;
    }
    Ok(())
}

// Writes the diagnostics of those lines of a document that are too long that a window shows, of so many such lines.
fn put_some_long(
    m: &mut Message,
    window: &mut Window,
    context: &Context<'_>,
    document: &[u8],
    count: usize,
) -> Result<(), AllocError>
    requires { count ≡ long_count (take MAX_LINES (lines_of document.now)) }
    ensures { OnOk result (m.new ≡ m.old ++ shown_in window.old (long_lines context.now.encoding 0 (take MAX_LINES (lines_of document.now)))) }
{
    if count == 0 {
        return Ok(());
    }
    put_long_lines(m, window, context, Lines::new(document))
}

// Writes the diagnostics of some faults of a line.
fn put_line<T: Told>(
    m: &mut Message,
    context: &Context<'_>,
    told: &T,
    words: TextWords<'_>,
    number: u32,
    line: &LineView<'_>,
    faults: &[Option<Fault>],
) -> Result<(), AllocError>
    requires first { 1 ≤ number }
    requires last { number ≤ (T.View.shown told.now).count }
    requires line { shown_line line.now ≡ (T.View.shown told.now).line number }
    requires labels { length line.now.stmt.now.labels ≤ 1000 }
    ensures { OnOk result (m.new ≡ m.old
        ++ flat_map (line_diagnostic context.now.encoding context.now.uri.now (T.environments told.now) (T.View.shown told.now) (words_of words.entry) number ((T.View.shown told.now).line number)) (found faults.now)) }
{
    if faults.is_empty() {
        return Ok(());
    }
    let names = told.given(number);
    let address = line.place.address;
    let alloc = context.alloc;
    let Ok(values) = operand_values(alloc, line.stmt, &names, address, &mut Tally::new()) else {
        return Err(AllocError);
    };
    let line = FaultyLine {
        number,
        text: told.text(number),
        stmt: line.stmt,
        address,
        values: &values,
        words,
    };
    put_faults(m, context, &line, &names, told, faults)
}

// Writes the diagnostics of those faults of a text that a window shows.
fn put_lines<T: Told>(
    m: &mut Message,
    window: &mut Window,
    context: &Context<'_>,
    told: &T,
    words: TextWords<'_>,
) -> Result<(), AllocError>
where
    T::Lines: TestedLines,
    ensures { OnOk result (m.new ≡ m.old
        ++ shown_in window.old (all_diagnostics context.now.encoding context.now.uri.now (T.environments told.now) (T.View.shown told.now) (words_of words.entry))) }
{
    let mut faults = ArrayVec::<Option<Fault>, MAX_FAULTS>::new();
    let mut lines = told.lines();
    for k in 0..told.line_count() {
        if window.most == 0 {
            return Ok(());
        }
        lines.advance();
        if !lines.may_have_faults() {
            continue;
        }
        let line = lines.line();
        find_faults(&mut faults, told, k + 1, &line);
        let shown = window.pass(faults.as_slice());
        put_line(m, context, told, words, k + 1, &line, shown)?;
    }
    Ok(())
}

// Writes the diagnostic of the warning about a line, if there is one and a window shows it.
fn put_own_warning<T: Told>(
    m: &mut Message,
    window: &mut Window,
    context: &Context<'_>,
    told: &T,
    number: u32,
    line: &LineView<'_>,
) -> Result<(), AllocError>
    requires first { 1 ≤ number }
    requires last { number ≤ (T.View.shown told.now).count }
    requires line { shown_line line.now ≡ (T.View.shown told.now).line number }
    ensures said { OnOk result (m.new ≡ m.old ++ shown_in window.old (warning_diagnostics context.now.encoding (T.View.shown told.now) number ((T.View.shown told.now).line number))) }
    ensures passed { OnOk result (window.new ≡ passed window.old (length (warning_diagnostics context.now.encoding (T.View.shown told.now) number ((T.View.shown told.now).line number)))) }
{
    let Some(warning) = find_warning(told, line.stmt) else {
        return Ok(());
    };
    if window.shows_next() {
        put_warning(m, context, number, told.text(number), &warning)?;
    }
    Ok(())
}

// Writes the diagnostics of those warnings about a text that a window shows.
fn put_warnings<T: Told>(
    m: &mut Message,
    window: &mut Window,
    context: &Context<'_>,
    told: &T,
) -> Result<(), AllocError>
    ensures { OnOk result (m.new ≡ m.old ++ shown_in window.old (all_warnings context.now.encoding (T.View.shown told.now))) }
{
    let mut lines = told.lines();
    for k in 0..told.line_count() {
        if window.most == 0 {
            return Ok(());
        }
        lines.advance();
        let line = lines.line();
        put_own_warning(m, window, context, told, k + 1, &line)?;
    }
    Ok(())
}

// Writes the diagnostics of those warnings about a text that a window shows, of so many warnings.
fn put_some_warnings<T: Told>(
    m: &mut Message,
    window: &mut Window,
    context: &Context<'_>,
    told: &T,
    count: usize,
) -> Result<(), AllocError>
    requires { count ≡ warning_count (T.View.shown told.now) }
    ensures { OnOk result (m.new ≡ m.old ++ shown_in window.old (all_warnings context.now.encoding (T.View.shown told.now))) }
{
    if count == 0 {
        return Ok(());
    }
    put_warnings(m, window, context, told)
}

// Writes the diagnostics of those faults of a text that a window shows, of so many faults.
fn put_some<T: Told>(
    m: &mut Message,
    window: &mut Window,
    context: &Context<'_>,
    told: &T,
    count: usize,
) -> Result<(), AllocError>
where
    T::Lines: TestedLines,
    requires { count ≡ fault_count (T.View.shown told.now) }
    ensures { OnOk result (m.new ≡ m.old
        ++ shown_in window.old (all_diagnostics context.now.encoding context.now.uri.now (T.environments told.now) (T.View.shown told.now) (words_with (T.View.shown told.now) (fault_count (T.View.shown told.now))))) }
{
    if count == 0 {
        return Ok(());
    }
    let most = searched(count.min(MOST));
    let symbols = first_symbols(context.alloc, told, most)?;
    let names = first_names(context.alloc, symbols.as_slice(), most)?;
    let unknown = first_unknown_words(context.alloc, told, most)?;
    let words = TextWords {
        symbols: names.as_slice(),
        unknown: unknown.as_slice(),
    };
    put_lines(m, window, context, told, words)
}

// Writes the diagnostics of the faults of a text that are nearest to a line, and says how many faults it has.
fn put_fault_list<T: Told>(
    m: &mut Message,
    context: &Context<'_>,
    told: &T,
    most: usize,
    at: u32,
) -> Result<usize, AllocError>
where
    T::Lines: TestedLines,
    ensures said { OnOk result (m.new ≡ m.old
        ++ fault_diagnostics context.now.encoding context.now.uri.now (T.environments told.now) (T.View.shown told.now) most at) }
    ensures count { IfOk result (λ all. all ≡ fault_count (T.View.shown told.now)) }
    ensures few { IfOk result (λ all. all ≤ 1004 * 16384) }
{
    let counted = count_faults(told, at);
    let mut window = Window::nearest(most, counted.before, counted.all);
    put_some(m, &mut window, context, told, counted.all)?;
    Ok(counted.all)
}

// Writes the diagnostics of the warnings about a text that are nearest to a line, and says how many there are.
fn put_warning_list<T: Told>(
    m: &mut Message,
    context: &Context<'_>,
    told: &T,
    most: usize,
    at: u32,
) -> Result<usize, AllocError>
    ensures said { OnOk result (m.new ≡ m.old ++ some_warnings context.now.encoding (T.View.shown told.now) most at) }
    ensures count { IfOk result (λ all. all ≡ warning_count (T.View.shown told.now)) }
    ensures few { IfOk result (λ all. all ≤ 16384) }
{
    let counted = count_warnings(told, at);
    let mut window = Window::nearest(most, counted.before, counted.all);
    put_some_warnings(m, &mut window, context, told, counted.all)?;
    Ok(counted.all)
}

// Writes the diagnostic of the lines behind those that a text may have, if there are any.
fn put_if_many(m: &mut Message, document: &[u8]) -> Result<(), AllocError>
    ensures { OnOk result (m.new ≡ m.old ++ too_many (lines_of document.now)) }
{
    if has_many_lines(document) {
        put_many_lines(m)
    } else {
        Ok(())
    }
}

// Writes the diagnostics of the lines of a document that are too long, those nearest to a line, and says how many there are.
fn put_long_list(
    m: &mut Message,
    context: &Context<'_>,
    document: &[u8],
    at: u32,
) -> Result<usize, AllocError>
    ensures said { OnOk result (m.new ≡ m.old ++ some_long context.now.encoding (lines_of document.now) at) }
    ensures count { IfOk result (λ all. all ≡ long_count (take MAX_LINES (lines_of document.now))) }
    ensures few { IfOk result (λ all. all ≤ 16384) }
{
    let counted = count_long(document, at);
    let mut window = Window::nearest(MOST, counted.before, counted.all);
    put_some_long(m, &mut window, context, document, counted.all)?;
    Ok(counted.all)
}

// How grave are those that are not shown, of so many faults: warnings are shown last.
fn gravest_left_out(faults: usize) -> u64
    ensures { result ≡ gravest_left_out faults }
{
    if faults > MOST { ERROR } else { WARNING }
}

// Writes the diagnostic that says how many of so many faults and warnings are not shown, if there are any.
fn put_left_out(
    m: &mut Message,
    alloc: Global,
    faults: usize,
    warnings: usize,
    at: u32,
) -> Result<(), AllocError>
    requires { faults + warnings < 2 ^ 64 }
    ensures { OnOk result (m.new ≡ m.old ++ left_out faults warnings at) }
{
    let all = faults + warnings;
    if all > MOST {
        put_more(m, alloc, at, gravest_left_out(faults), all - MOST)
    } else {
        Ok(())
    }
}

/// Writes the diagnostics of a document, by its bytes and what is shown of it as a text, that are nearest to a line, by its number from 0 on.
///
/// # Errors
///
/// `AllocError` if there is no memory for them.
#[tactic(auto, unfolding(crate::specs::Published::diagnostics_of))]
pub fn put_nearest<T: Told>(
    m: &mut Message,
    context: &Context<'_>,
    document: &[u8],
    told: &T,
    at: u32,
) -> Result<(), AllocError>
where
    T::Lines: TestedLines,
    ensures { OnOk result (m.new ≡ m.old
        ++ diagnostics_of context.now.encoding context.now.uri.now (T.environments told.now) (T.View.shown told.now) (lines_of document.now) at) }
{
    put_if_many(m, document)?;
    let long = put_long_list(m, context, document, at)?;
    let most = MOST.saturating_sub(long);
    let faults = put_fault_list(m, context, told, most, at)?;
    let left = most.saturating_sub(faults);
    let warnings = put_warning_list(m, context, told, left, at)?;
    put_left_out(m, context.alloc, long + faults, warnings, at)?;
    Ok(())
}

// Writes all of the message but its beginning and its end.
fn put_publication<T: Told>(
    m: &mut Message,
    context: &Context<'_>,
    version: Option<i64>,
    document: &[u8],
    told: &T,
    at: u32,
) -> Result<(), AllocError>
where
    T::Lines: TestedLines,
    ensures { OnOk result (m.new ≡ m.old ++ (publication_head context.now.uri.now version
        ++ diagnostics_of context.now.encoding context.now.uri.now (T.environments told.now) (T.View.shown told.now) (lines_of document.now) at)) }
{
    begin_diagnostics(m, context.uri, version)?;
    put_nearest(m, context, document, told, at)?;
    Ok(())
}

/// Appends the message with the diagnostics of a document, by its bytes and what is shown of it as a text, that are nearest to a line, by
/// its number from 0 on.
///
/// # Errors
///
/// `AllocError` if there is no memory for it.
pub fn publish_lines<T: Told>(
    context: &Context<'_>,
    version: Option<i64>,
    document: &[u8],
    told: &T,
    at: u32,
    out: &mut Vec<u8>,
) -> Result<(), AllocError>
where
    T::Lines: TestedLines,
    ensures { OnOk result (out.new.items ≡ out.old.items
        ++ publication context.now.uri.now version (diagnostics_of context.now.encoding context.now.uri.now (T.environments told.now) (T.View.shown told.now) (lines_of document.now) at)) }
{
    let mut m = Message::begin(context.alloc)?;
    put_publication(&mut m, context, version, document, told, at)?;
    end_diagnostics(m, out)?;
    Ok(())
}

/// Appends the message that a document has no diagnostics.
///
/// # Errors
///
/// `AllocError` if there is no memory for it.
pub fn publish_none(alloc: Global, uri: &str, out: &mut Vec<u8>) -> Result<(), AllocError>
    ensures { OnOk result (out.new.items ≡ out.old.items ++ publication uri.now None []) }
{
    let mut m = Message::begin(alloc)?;
    begin_diagnostics(&mut m, uri, None)?;
    end_diagnostics(m, out)?;
    Ok(())
}

// Writes the version of a document, if it has one.
fn put_version(m: &mut Message, version: Option<i64>) -> Result<(), AllocError>
    ensures { OnOk result (m.new ≡ m.old ++ version_member version) }
{
    let Some(version) = version else {
        return Ok(());
    };
    m.key("version")?;
    m.signed(version)?;
    Ok(())
}

// Begins the list of the diagnostics of a document.
#[tactic(auto, unfolding(crate::specs::Published::publication_head))]
fn begin_diagnostics(m: &mut Message, uri: &str, version: Option<i64>) -> Result<(), AllocError>
    ensures { OnOk result (m.new ≡ m.old ++ publication_head uri.now version) }
{
    m.put_all(&[
        Part::Key("method"),
        Part::Text("textDocument/publishDiagnostics"),
        Part::Key("params"),
        Part::BeginObject,
        Part::Key("uri"),
        Part::Text(uri),
    ])?;
    put_version(m, version)?;
    m.put_all(&[Part::Key("diagnostics"), Part::BeginArray])?;
    Ok(())
}

// Ends the list.
fn end_diagnostics(mut m: Message, out: &mut Vec<u8>) -> Result<(), AllocError>
    ensures { OnOk result (out.new.items ≡ out.old.items ++ frame (print (m ++ (end_array ∷ (end_object ∷ (end_object ∷ [])))))) }
{
    m.put_all(&[Part::EndArray, Part::EndObject])?;
    m.end(out)?;
    Ok(())
}
