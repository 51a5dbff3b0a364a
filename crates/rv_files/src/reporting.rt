//! The reports of a text.

ghost use Rattle.std.specs.Prelude.{◌≡◌, ◌+◌, ◌-◌, ◌^◌, ◌<◌, ◌≤◌, ◌++◌, length, map, take, Some, IfOk, OnOk};
ghost use Rattle.std.specs.List.{concat, flat_map};
ghost use Rattle.rv_list.specs.Shown.{shown_line};
ghost use Rattle.rv_show.specs.Origins.{source_of};
ghost use Rattle.rv_show.specs.Totals.{last_rows};
ghost use Rattle.rv_report.specs.Lines.{line_of, words_of};
ghost use Rattle.rv_report.specs.Reports.{report_of, warning_report_of};
ghost use Rattle.rv_report.specs.Warnings.{warning_seen};
ghost use Rattle.rv_store.specs.LinesOfTexts.{names_from};
ghost use Rattle.rv_store.specs.Shown.{shown_of};
ghost use Rattle.rv_text.specs.Streams.{Writes};
ghost use Rattle.rv_files.specs.OddAddresses.{one_reported, parities_of, reported_faults};
ghost use Rattle.rv_files.specs.TextReports.{all_reports, all_warnings, asked_warnings, failures_by_report, fault_count, line_reports, report_count, reports, text_reports};

use crate::counting::{Counts, count_warnings};
use crate::odd_addresses::{Parity, Reported, fault_counts, find_reported, parities};
use crate::report_error::ReportError;
use crate::text_symbols::{first_names, first_symbols, searched};
use crate::unknown_words::first_unknown_words;
use arrayvec::ArrayVec;
use rv_expr::Names;
use rv_fix::operand_values;
use rv_list::{LineSource, LineView, MAX_FAULTS, View};
use rv_report::{FaultyLine, TextWords, Warning, find_warning, report, report_warning};
use rv_show::{Page, push_report_count};
use rv_store::Store;
use rv_text::{Sink, Tally, write_all};
use std::alloc::{AllocError, Global};

/// Which reports of a text are wanted.
#[derive(Clone, Copy)]
pub struct Wanted {
    /// How many at most.
    pub most: u32,
    /// Whether those of warnings are.
    pub warnings: bool,
}

// Appends the reports of some faults of a line.
fn push_faults<N: Names, V: View>(
    out: &mut Vec<u8>,
    alloc: Global,
    page: &Page<'_>,
    line: &FaultyLine<'_>,
    names: &N,
    view: &V,
    mut faults: &[Option<Reported>],
) -> Result<(), AllocError>
    requires labels { length line.now.stmt.now.labels ≤ 1000 }
    requires text { length line.now.text.now ≤ 1000 }
    ensures { OnOk result (out.new.items ≡ out.old.items
        ++ flat_map (λ r. report_of page.now.style (source_of page.now) (N.environment names.now line.now.address) (V.shown view.now) (line_of line.now) r.more r.fault) (flat_map one_reported faults.entry.now)) }
{
    'faults: while let [reported, later @ ..] = faults {
        if let Some(Reported { fault, more }) = reported {
            report(out, alloc, page, line, names, view, *more, *fault)?;
        }
        faults = later;
    }
    Ok(())
}

// Appends the reports of the first faults of a line.
#[tactic(auto, unfolding(crate::specs::TextReports::line_reports))]
fn push_line(
    out: &mut Vec<u8>,
    alloc: Global,
    page: &Page<'_>,
    store: &Store,
    words: TextWords<'_>,
    number: u32,
    line: &LineView<'_>,
    faults: &[Option<Reported>],
) -> Result<(), AllocError>
    requires first { 1 ≤ number }
    requires last { number ≤ length store.now.lines }
    requires line { shown_line line.now ≡ (shown_of store.now).line number }
    requires labels { length line.now.stmt.now.labels ≤ 1000 }
    requires faults { faults.now ≡ map Some (take (length faults.now) (reported_faults (shown_of store.now) number (shown_line line.now))) }
    ensures { OnOk result (out.new.items ≡ out.old.items
        ++ concat (take (length faults.now) (line_reports page.now.style (source_of page.now) store.now (words_of words.entry) number ((shown_of store.now).line number)))) }
{
    if faults.is_empty() {
        return Ok(());
    }
    let (Some(names), Some(text)) = (store.names(number), store.line(number)) else {
        unreachable!()
    };
    let address = line.place.address;
    let Ok(values) = operand_values(alloc, line.stmt, &names, address, &mut Tally::new()) else {
        return Err(AllocError);
    };
    let line = FaultyLine {
        number,
        text,
        stmt: line.stmt,
        address,
        values: &values,
        words,
    };
    push_faults(out, alloc, page, &line, &names, &store, faults)
}

// Writes the reports of the first faults of a line.
fn write_line<W: Sink>(
    sink: &mut W,
    alloc: Global,
    page: &Page<'_>,
    store: &Store,
    words: TextWords<'_>,
    number: u32,
    line: &LineView<'_>,
    faults: &[Option<Reported>],
) -> Result<(), ReportError>
    requires first { 1 ≤ number }
    requires last { number ≤ length store.now.lines }
    requires line { shown_line line.now ≡ (shown_of store.now).line number }
    requires labels { length line.now.stmt.now.labels ≤ 1000 }
    requires faults { faults.now ≡ map Some (take (length faults.now) (reported_faults (shown_of store.now) number (shown_line line.now))) }
    requires failures { W.failures sink.old < 2 ^ 64 - 1 }
    ensures text { Writes (W.taken sink.old) (concat (take (length faults.now) (line_reports page.now.style (source_of page.now) store.now (words_of words.entry) number ((shown_of store.now).line number)))) result (W.taken sink.new) }
    ensures count { W.failures sink.new ≡ failures_by_report (W.failures sink.old) result }
{
    let mut text = Vec::new(alloc);
    push_line(&mut text, alloc, page, store, words, number, line, faults)?;
    write_all(sink, text.as_slice())?;
    Ok(())
}

// Writes the first reports of the faults of all lines, at most so many.
fn write_lines<W: Sink>(
    sink: &mut W,
    alloc: Global,
    page: &Page<'_>,
    store: &Store,
    words: TextWords<'_>,
    parities: &[Parity],
    most: u32,
) -> Result<(), ReportError>
    requires parities { parities.now ≡ parities_of (shown_of store.now) }
    requires few { length parities.now ≤ 16384 }
    requires failures { W.failures sink.old < 2 ^ 64 - 1 }
    ensures text { Writes (W.taken sink.old) (concat (take most (all_reports page.now.style (source_of page.now) store.now (words_of words.entry)))) result (W.taken sink.new) }
    ensures count { W.failures sink.new ≡ failures_by_report (W.failures sink.old) result }
{
    let view = &store;
    let mut faults = ArrayVec::<Option<Reported>, MAX_FAULTS>::new();
    let mut left = most as usize;
    let mut lines = view.lines();
    for k in 0..view.line_count() {
        if left == 0 {
            return Ok(());
        }
        lines.advance();
        let line = lines.line();
        find_reported(&mut faults, view, parities, k + 1, &line);
        let (first, _) = faults.as_slice().split_at(faults.len().min(left));
        write_line(sink, alloc, page, store, words, k + 1, &line, first)?;
        left -= first.len();
    }
    Ok(())
}

// Appends the report of a warning about a line.
fn push_warning(
    out: &mut Vec<u8>,
    alloc: Global,
    page: &Page<'_>,
    store: &Store,
    number: u32,
    warning: &Warning<'_>,
) -> Result<(), AllocError>
    requires first { 1 ≤ number }
    requires last { number ≤ length store.now.lines }
    ensures { OnOk result (out.new.items
        ≡ out.old.items ++ warning_report_of page.now.style (source_of page.now) number ((shown_of store.now).line number).text (warning_seen warning.now)) }
{
    let Some(line) = store.line(number) else {
        unreachable!()
    };
    report_warning(out, alloc, page, number, line, warning)
}

// Writes the report of a warning about a line.
fn write_warning<W: Sink>(
    sink: &mut W,
    alloc: Global,
    page: &Page<'_>,
    store: &Store,
    number: u32,
    warning: &Warning<'_>,
) -> Result<(), ReportError>
    requires first { 1 ≤ number }
    requires last { number ≤ length store.now.lines }
    requires failures { W.failures sink.old < 2 ^ 64 - 1 }
    ensures text { Writes (W.taken sink.old) (warning_report_of page.now.style (source_of page.now) number ((shown_of store.now).line number).text (warning_seen warning.now)) result (W.taken sink.new) }
    ensures count { W.failures sink.new ≡ failures_by_report (W.failures sink.old) result }
{
    let mut text = Vec::new(alloc);
    push_warning(&mut text, alloc, page, store, number, warning)?;
    write_all(sink, text.as_slice())?;
    Ok(())
}

// Writes the first reports of the warnings about all lines, at most so many.
fn write_warnings<W: Sink>(
    sink: &mut W,
    alloc: Global,
    page: &Page<'_>,
    store: &Store,
    most: u32,
) -> Result<(), ReportError>
    requires { W.failures sink.old < 2 ^ 64 - 1 }
    ensures text { Writes (W.taken sink.old) (concat (take most (all_warnings page.now.style (source_of page.now) store.now))) result (W.taken sink.new) }
    ensures count { W.failures sink.new ≡ failures_by_report (W.failures sink.old) result }
{
    let view = &store;
    let mut left = most;
    let mut lines = view.lines();
    for k in 0..view.line_count() {
        if left == 0 {
            return Ok(());
        }
        lines.advance();
        let line = lines.line();
        let Some(warning) = find_warning(view, line.stmt) else {
            continue;
        };
        write_warning(sink, alloc, page, store, k + 1, &warning)?;
        left -= 1;
    }
    Ok(())
}

// Writes the first reports of a text with so many reports of faults, those of its warnings after these.
fn write_first<W: Sink>(
    sink: &mut W,
    alloc: Global,
    page: &Page<'_>,
    store: &Store,
    words: TextWords<'_>,
    parities: &[Parity],
    reported: u32,
    wanted: Wanted,
) -> Result<(), ReportError>
    requires parities { parities.now ≡ parities_of (shown_of store.now) }
    requires few { length parities.now ≤ 16384 }
    requires reported { reported ≡ report_count store.now }
    requires failures { W.failures sink.old < 2 ^ 64 - 1 }
    ensures text { Writes (W.taken sink.old) (concat (take wanted.most (reports page.now.style (source_of page.now) store.now (words_of words.entry) wanted.warnings))) result (W.taken sink.new) }
    ensures count { W.failures sink.new ≡ failures_by_report (W.failures sink.old) result }
{
    write_lines(sink, alloc, page, store, words, parities, wanted.most)?;
    if !wanted.warnings {
        return Ok(());
    }
    let left = wanted.most.saturating_sub(reported);
    write_warnings(sink, alloc, page, store, left)
}

// Writes the row that ends the reports of a file.
fn write_count<W: Sink>(
    sink: &mut W,
    alloc: Global,
    file: &[u8],
    counts: Counts,
    reports: u32,
    most: u32,
) -> Result<(), ReportError>
    requires { W.failures sink.old < 2 ^ 64 - 1 }
    ensures text { Writes (W.taken sink.old) (last_rows file.now counts.faults counts.warnings reports most) result (W.taken sink.new) }
    ensures count { W.failures sink.new ≡ failures_by_report (W.failures sink.old) result }
{
    let mut row = Vec::new(alloc);
    push_report_count(
        &mut row,
        alloc,
        file,
        counts.faults,
        counts.warnings,
        reports,
        most,
    )?;
    write_all(sink, row.as_slice())?;
    Ok(())
}

// Writes the first reports of a text with so many faults and warnings, and how many there are.
#[tactic(auto, unfolding(crate::specs::TextReports::text_reports))]
fn write_some<W: Sink>(
    sink: &mut W,
    alloc: Global,
    page: &Page<'_>,
    store: &Store,
    parities: &[Parity],
    reported: u32,
    counts: Counts,
    wanted: Wanted,
) -> Result<(), ReportError>
    requires parities { parities.now ≡ parities_of (shown_of store.now) }
    requires most { length parities.now ≤ 16384 }
    requires reported { reported ≡ report_count store.now }
    requires faults { counts.faults ≡ fault_count store.now }
    requires warnings { counts.warnings ≡ asked_warnings store.now wanted.warnings }
    requires few { counts.faults + counts.warnings < 2 ^ 32 }
    requires failures { W.failures sink.old < 2 ^ 64 - 1 }
    ensures text { Writes (W.taken sink.old) (text_reports page.now.style (source_of page.now) store.now wanted.most wanted.warnings) result (W.taken sink.new) }
    ensures count { W.failures sink.new ≡ failures_by_report (W.failures sink.old) result }
{
    let searched = searched(reported.min(wanted.most) as usize);
    let symbols = first_symbols(alloc, &store, searched)?;
    let names = first_names(alloc, symbols.as_slice(), searched)?;
    let unknown = first_unknown_words(alloc, &store, searched)?;
    let words = TextWords {
        symbols: names.as_slice(),
        unknown: unknown.as_slice(),
    };
    write_first(sink, alloc, page, store, words, parities, reported, wanted)?;
    let reports = reported + counts.warnings;
    write_count(sink, alloc, page.file, counts, reports, wanted.most)
}

/// Writes the reports of a text on a page, as many as are wanted: those of each fault, in the order of the lines and of the faults of
/// a line, then those of each warning, and how many there are. Of instructions at odd addresses for one reason the first has a
/// report, with how many more there are. Returns the counts of all faults and warnings. No more memory is taken than for the
/// reports of one line, for the words of the text among which names are looked for that may be meant, and a few bytes for each line.
///
/// # Errors
///
/// `Write` if a call of the writer failed, and `Memory` if there is no memory. What was written before is the beginning of the
/// reports.
pub fn write_reports<W: Sink>(
    sink: &mut W,
    alloc: Global,
    page: &Page<'_>,
    store: &Store,
    wanted: Wanted,
) -> Result<Counts, ReportError>
    requires { W.failures sink.old < 2 ^ 64 - 1 }
    ensures text { Writes (W.taken sink.old) (text_reports page.now.style (source_of page.now) store.now wanted.most wanted.warnings) result (W.taken sink.new) }
    ensures faults { IfOk result (λ counts. counts.faults ≡ fault_count store.now) }
    ensures few { IfOk result (λ counts. counts.faults + counts.warnings < 2 ^ 32) }
    ensures warnings { IfOk result (λ counts. counts.warnings ≡ asked_warnings store.now wanted.warnings) }
    ensures count { W.failures sink.new ≡ failures_by_report (W.failures sink.old) result }
{
    let parities = parities(alloc, &store)?;
    let counted = fault_counts(&store, parities.as_slice());
    let counts = Counts {
        faults: counted.faults,
        warnings: count_warnings(store, wanted.warnings),
    };
    if counts.faults + counts.warnings == 0 {
        return Ok(counts);
    }
    let parities = parities.as_slice();
    let reported = counted.reported;
    write_some(sink, alloc, page, store, parities, reported, counts, wanted)?;
    Ok(counts)
}
