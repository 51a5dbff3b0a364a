//! How many diagnostics a document has, and how many of them stand before a line.

ghost use Rattle.std.specs.Prelude.{◌≡◌, ◌+◌, ◌*◌, ◌^◌, ◌<◌, ◌≤◌, ◌∷◌, [], length, take, drop, if◌then◌else◌};
ghost use Rattle.rv_doc.specs.Positions.{lines_of};
ghost use Rattle.rv_report.specs.Warnings.{warning_of};
ghost use Rattle.rv_diagnostics.specs.Published.{are_lines, fault_count, faults_before, is_long, long_count, optional, warning_count, warnings_before};

use arrayvec::ArrayVec;
use rv_doc::{Lines, line_count, may_have_longer_line};
use rv_list::{LineSource, MAX_FAULTS, TestedLines, View, find_faults};
use rv_program::MAX_LINES;
use rv_report::find_warning;
use rv_stmt::Stmt;
use rv_text::{Fault, MAX_LINE_LENGTH};

/// How many of some rows stand before a line, and how many they are.
#[derive(Clone, Copy)]
pub struct Counted {
    pub before: usize,
    pub all: usize,
}

impl Counted {
    // No rows.
    fn new() -> Counted
        ensures all { result.all ≡ 0 }
        ensures before { result.before ≡ 0 }
    {
        Counted { before: 0, all: 0 }
    }

    // Adds so many rows.
    fn add(&mut self, rows: usize, are_before: bool)
        requires within { self.old.before ≤ self.old.all }
        requires room { self.old.all + rows < 2 ^ 64 }
        ensures all { self.new.all ≡ self.old.all + rows }
        ensures before { self.new.before ≡ (if are_before then self.old.before + rows else self.old.before) }
        ensures within { self.new.before ≤ self.new.all }
    {
        self.all += rows;
        if are_before {
            self.before += rows;
        }
    }
}

/// How many faults a text has, and how many stand before a line, by its number from 0 on.
pub fn count_faults<V: View>(view: &V, at: u32) -> Counted
where
    V::Lines: TestedLines,
    ensures all { result.all ≡ fault_count (V.shown view.now) }
    ensures before { result.before ≡ faults_before (V.shown view.now) at }
    ensures few { result.all ≤ 1004 * 16384 }
{
    let mut faults = ArrayVec::<Option<Fault>, MAX_FAULTS>::new();
    let mut counted = Counted::new();
    let mut lines = view.lines();
    for k in 0..view.line_count() {
        lines.advance();
        if !lines.may_have_faults() {
            continue;
        }
        find_faults(&mut faults, view, k + 1, &lines.line());
        counted.add(faults.len(), k < at);
    }
    counted
}

// How many warnings there are about a statement.
fn warnings_on<V: View>(view: &V, stmt: &Stmt) -> usize
    ensures value { result ≡ length (optional (warning_of (V.shown view.now) stmt.now.body)) }
    ensures few { result ≤ 1 }
{
    match find_warning(view, stmt) {
        Some(_) => 1,
        None => 0,
    }
}

/// How many warnings there are about a text, and how many stand before a line, by its number from 0 on.
pub fn count_warnings<V: View>(view: &V, at: u32) -> Counted
    ensures all { result.all ≡ warning_count (V.shown view.now) }
    ensures before { result.before ≡ warnings_before (V.shown view.now) at }
    ensures few { result.all ≤ 16384 }
{
    let mut counted = Counted::new();
    let mut lines = view.lines();
    for k in 0..view.line_count() {
        lines.advance();
        counted.add(warnings_on(view, lines.line().stmt), k < at);
    }
    counted
}

/// Whether a line is too long.
pub fn is_long(line: &[u8]) -> bool
    ensures { result ≡ is_long line.now }
{
    line.len() > MAX_LINE_LENGTH
}

// How many lines that are too long a line is.
fn long_on(line: &[u8]) -> usize
    ensures value { result ≡ long_count (line.now ∷ []) }
    ensures few { result ≤ 1 }
{
    if is_long(line) { 1 } else { 0 }
}

// The same of some lines, each of which is looked at.
fn count_long_lines(mut lines: Lines<'_>, at: u32) -> Counted
    ensures all { result.all ≡ long_count (take MAX_LINES lines.entry) }
    ensures before { result.before ≡ long_count (take at (take MAX_LINES lines.entry)) }
    ensures few { result.all ≤ 16384 }
{
    let mut counted = Counted::new();
    for k in 0..MAX_LINES as u32 {
        let Some(line) = lines.next_line() else {
            return counted;
        };
        counted.add(long_on(line), k < at);
    }
    counted
}

/// How many of the lines that are assembled of a document are too long, and how many of them stand before a line, by its number from 0 on. Most
/// documents have none, which is found out without going over each line.
pub fn count_long(document: &[u8], at: u32) -> Counted
    ensures all { result.all ≡ long_count (take MAX_LINES (lines_of document.now)) }
    ensures before { result.before ≡ long_count (take at (take MAX_LINES (lines_of document.now))) }
    ensures few { result.all ≤ 16384 }
{
    if !may_have_longer_line(document, MAX_LINE_LENGTH) {
        return Counted::new();
    }
    count_long_lines(Lines::new(document), at)
}

// Whether what stands behind some line breaks is a line or more. Behind the last one it is a line if it is not empty.
fn are_lines(mut lines: Lines<'_>) -> bool
    ensures { result ≡ are_lines lines.entry }
{
    let Some(line) = lines.next_line() else {
        return false;
    };
    match lines.next_line() {
        Some(_) => true,
        None => !line.is_empty(),
    }
}

// Whether there are more lines than a text may have.
fn has_too_many_lines(mut lines: Lines<'_>) -> bool
    ensures { result ≡ are_lines (drop MAX_LINES lines.entry) }
{
    for _ in 0..MAX_LINES {
        let Some(_) = lines.next_line() else {
            return false;
        };
    }
    are_lines(lines)
}

/// Whether a document has more lines than a text may have. Most have fewer line breaks, which are counted in one go.
pub fn has_many_lines(document: &[u8]) -> bool
    ensures { result ≡ are_lines (drop MAX_LINES (lines_of document.now)) }
{
    if line_count(document) <= MAX_LINES {
        return false;
    }
    has_too_many_lines(Lines::new(document))
}
