//! The lines of local labels.

ghost use Rattle.std.specs.Prelude.{◌≡◌, ◌≤◌, ◌<◌, ◌==◌, ℕ, [], nat_le, nat_lt, true, false, length, slice_get, IsTrue, IfOk, OnOk};
ghost use Rattle.std.specs.List.{AllWithin};
ghost use Rattle.std.specs.List.Sorted.{IsNonDecreasing};
ghost use Rattle.std.specs.Option.{is_some};
ghost use Rattle.rv_expr.specs.declared.tree.Direction.TheVariants.{Forward};
ghost use Rattle.rv_program.specs.internal.Locals.{AreParted, AreFrom, AreRising, ArePartedBefore, IsRowOf, is_row_of, lines_with, line_among, local_line_in, has_local_labels, with_last, lines_below};
ghost use Rattle.rv_program.specs.References.{among_local};

use crate::local_row::LocalRow;
use rv_expr::Direction;
use rv_stmt::{LabelName, LabelSlice};
use rv_text::Sequence;
use std::alloc::{AllocError, Global};
use std::marker::Model;

// How far from a guess a count is looked for first.
const REACH: usize = 4;

/// A guess of where the lines are that a line means by a local label. No answer depends on it, and no contract says that it is right.
#[derive(Clone, Copy)]
pub struct LocalGuess {
    // The place of the row of the label's number.
    row: usize,
    // How many lines of the row are up to the line.
    count: usize,
}

/// The lines of the local labels: a row for each number that has some, sorted by the numbers.
#[derive(Drop)]
pub struct Locals {
    rows: Vec<LocalRow>,
}

impl Model for Locals {
    ghost use Rattle.std.specs.Prelude.{List};
    ghost use Rattle.rv_program.specs.declared.local_row.LocalRow.{LocalRow};
    ghost use Rattle.rv_program.specs.internal.Locals.{AreLocalRows};

    ghost Value = { List LocalRow };

    ghost view = { λ l. l.rows.items };

    ghost invariant = { λ l. AreLocalRows l.rows.items };
}

// How many of some rows are of lower numbers than this one.
fn rows_below(rows: &[LocalRow], number: u16) -> usize
    requires { AreFrom 0 rows.now }
    ensures bound { result ≤ length rows.now }
    ensures parted { ArePartedBefore number rows.now result }
{
    rows.partition_point(
        |row: &LocalRow| -> bool
            ensures { result ≡ nat_lt row.now.number number }
        { row.number < number },
    )
}

// Whether there is a row at a place, and it is of this number.
fn is_row_of(rows: &[LocalRow], place: usize, number: u16) -> bool
    ensures { result ≡ is_row_of number (slice_get rows.now place) }
{
    match rows.get(place) {
        Some(row) => row.number == number,
        None => false,
    }
}

/// Whether one of some labels is a local one.
pub fn has_local_labels(mut labels: LabelSlice<'_>) -> bool
    ensures { result ≡ has_local_labels labels.entry }
{
    while let Some((label, rest)) = labels.split_first() {
        if let LabelName::Local(_) = label.name {
            return true;
        }
        labels = rest;
    }
    false
}

// How many of some rising lines are this one or earlier ones.
fn count_up_to(lines: &[u32], line: u32) -> usize
    requires { IsNonDecreasing lines.now }
    ensures bound { result ≤ length lines.now }
    ensures parted { AreParted line lines.now result }
{
    lines.partition_point(
        |l: &u32| -> bool
            ensures { result ≡ nat_le l.now line }
        { *l <= line },
    )
}

// How many of some rising lines would be this one or earlier ones if they stood evenly.
fn count_if_even(lines: &[u32], line: u32) -> usize {
    match lines.last() {
        Some(last) => {
            let all = lines.len().saturating_mul(line as usize);
            all / (*last as usize).saturating_add(1)
        }
        None => 0,
    }
}

// Whether so many of some rising lines, or more, are this one or earlier ones.
fn are_up_to(lines: &[u32], line: u32, count: usize) -> bool
    requires rising { IsNonDecreasing lines.now }
    requires within { count ≤ length lines.now }
    ensures { IsTrue result → AllWithin (λ l. nat_le l line ≡ true) lines.now 0 count }
{
    match count.checked_sub(1) {
        Some(last) => lines[last] <= line,
        None => true,
    }
}

// Whether no more than so many of some rising lines are this one or earlier ones.
fn are_above(lines: &[u32], line: u32, count: usize) -> bool
    requires rising { IsNonDecreasing lines.now }
    ensures { IsTrue result → AllWithin (λ l. nat_le l line ≡ false) lines.now count (length lines.now) }
{
    match lines.get(count) {
        Some(first) => *first > line,
        None => true,
    }
}

// How many of some rising lines are this one or earlier ones. `near` is a guess, by which few lines have to be looked at if it is
// nearly right.
fn count_near(lines: &[u32], line: u32, near: usize) -> usize
    requires { IsNonDecreasing lines.now }
    ensures bound { result ≤ length lines.now }
    ensures parted { AreParted line lines.now result }
{
    let near = near.min(lines.len());
    if are_up_to(lines, line, near) && are_above(lines, line, near) {
        return near;
    }
    let high = near.saturating_add(REACH).min(lines.len());
    let low = near.saturating_sub(REACH);
    if are_up_to(lines, line, low) && are_above(lines, line, high) {
        return low + count_up_to(&lines[low..high], line);
    }
    count_up_to(lines, line)
}

// The line of a local label among those that have it, of which so many are up to the line that names it.
fn line_among(lines: &[u32], direction: Direction, count: usize) -> Option<u32>
    requires { count ≤ length lines.now }
    ensures { (line : ℕ) → AreParted line lines.now count → result ≡ line_among lines.now line direction }
{
    let (up_to, above) = lines.split_at(count);
    match direction {
        Direction::Back => up_to.last().copied(),
        Direction::Forward => above.first().copied(),
    }
}

// Takes out the lines of a row from this one on.
fn keep_below(row: &mut Sequence<u32>, line: u32)
    requires { IsNonDecreasing row.old }
    ensures lines { row.new ≡ lines_below line row.old }
    ensures rising { IsNonDecreasing row.new }
{
    let count = row.as_slice().partition_point(
        |l: &u32| -> bool
            ensures { result ≡ nat_lt l.now line }
        { *l < line },
    );
    row.truncate(count);
}

impl Locals {
    /// Those of no lines, which take no memory.
    pub fn new(alloc: Global) -> Self
        ensures { result ≡ [] }
    {
        Locals {
            rows: Vec::new(alloc),
        }
    }

    /// Those of these rows.
    pub fn of_rows(rows: Vec<LocalRow>) -> Self
        requires sorted { AreFrom 0 rows.items }
        requires rising { AreRising rows.items }
        ensures { result ≡ rows.items }
    {
        Locals { rows }
    }

    /// The rows.
    pub fn rows(&self) -> &[LocalRow]
        ensures rows { result.now ≡ self.now }
        ensures sorted { AreFrom 0 result.now }
    {
        self.rows.as_slice()
    }

    // The lines that have the local label of a number.
    fn row(&self, number: u16) -> &[u32]
        ensures lines { result.now ≡ lines_with self.now number }
        ensures rising { IsNonDecreasing result.now }
    {
        let rows = self.rows.as_slice();
        let place = rows_below(rows, number);
        if is_row_of(rows, place, number) {
            rows[place].lines.as_slice()
        } else {
            &[]
        }
    }

    // The same, looked for at this place first.
    fn row_near(&self, number: u16, place: usize) -> &[u32]
        ensures lines { result.now ≡ lines_with self.now number }
        ensures rising { IsNonDecreasing result.now }
    {
        let rows = self.rows.as_slice();
        if is_row_of(rows, place, number) {
            return rows[place].lines.as_slice();
        }
        self.row(number)
    }

    /// Where the lines of a local label are that are up to this one: looked for first where they would be if they stood evenly.
    pub fn guess(&self, line: u32, number: u16) -> LocalGuess {
        let row = rows_below(self.rows.as_slice(), number);
        let lines = self.row_near(number, row);
        let count = count_near(lines, line, count_if_even(lines, line));
        LocalGuess { row, count }
    }

    /// The same as `line`, by a guess, which may be of another text.
    pub fn line_near(
        &self,
        line: u32,
        number: u16,
        direction: Direction,
        near: LocalGuess,
    ) -> Option<u32>
        ensures { result ≡ local_line_in self.now line number direction }
    {
        let lines = self.row_near(number, near.row);
        line_among(lines, direction, count_near(lines, line, near.count))
    }

    /// The line of a local label as a line names it: `b` is the last one up to this line, `f` the first one after it.
    pub fn line(&self, line: u32, number: u16, direction: Direction) -> Option<u32>
        ensures { result ≡ local_line_in self.now line number direction }
    {
        let lines = self.row(number);
        line_among(lines, direction, count_up_to(lines, line))
    }

    // The last line that has the local label of a number, or 0.
    fn last(&self, number: u16) -> u32
        ensures { (i : ℕ) → i < result → is_some (local_line_in self.now i number Forward) ≡ true }
    {
        self.row(number).last().copied().unwrap_or(0)
    }

    /// From which line on `f` may name the line `end`, which is behind all others and has these labels: each line before that finds each
    /// local one of them before the end. It is the end itself where none of them is local.
    pub fn reach(&self, mut labels: LabelSlice<'_>, end: u32) -> u32
        ensures found { (number i : ℕ) → among_local number labels.entry ≡ true → i < result → is_some (local_line_in self.now i number Forward) ≡ true }
        ensures within { result ≤ end }
        ensures none { ((number : ℕ) → among_local number labels.entry ≡ false) → result ≡ end }
    {
        let mut first = end;
        'labels: while let Some((label, rest)) = labels.split_first() {
            if let LabelName::Local(number) = label.name {
                first = first.min(self.last(number));
            }
            labels = rest;
        }
        first
    }

    // Makes a row for a number that has none. Its place, or that of the row that stood there.
    fn make_row(&mut self, alloc: Global, number: u16) -> Result<usize, AllocError>
        ensures row { IfOk result (λ place. IsRowOf number self.new place) }
        ensures same { (n : ℕ) → lines_with self.new n ≡ lines_with self.old n }
    {
        let place = rows_below(self.rows.as_slice(), number);
        if !is_row_of(self.rows.as_slice(), place, number) {
            let lines = Sequence::new(alloc);
            self.rows.insert(place, LocalRow { number, lines })?;
        }
        Ok(place)
    }

    // Makes a line the last one that has the local label of a number. The lines before it stay, also where there is no memory for that.
    fn put_last(&mut self, alloc: Global, number: u16, line: u32) -> Result<(), AllocError>
        ensures ok { OnOk result ((n : ℕ) → lines_with self.new n ≡ with_last line (n == number) (lines_with self.old n)) }
        ensures below { (n : ℕ) → lines_below line (lines_with self.new n) ≡ lines_below line (lines_with self.old n) }
    {
        let place = self.make_row(alloc, number)?;
        let lines = &mut self.rows[place].lines;
        keep_below(lines, line);
        lines.push(line)?;
        Ok(())
    }

    /// Makes a line that has these labels the last one that has them. The lines before it stay, whatever the outcome.
    ///
    /// # Errors
    ///
    /// Where there was no memory, some of the labels may have it.
    pub fn put_line(
        &mut self,
        alloc: Global,
        mut labels: LabelSlice<'_>,
        line: u32,
    ) -> Result<(), AllocError>
        ensures ok { OnOk result ((number : ℕ) → lines_with self.new number ≡ with_last line (among_local number labels.entry) (lines_with self.old number)) }
        ensures below { (number : ℕ) → lines_below line (lines_with self.new number) ≡ lines_below line (lines_with self.old number) }
    {
        'labels: while let Some((label, rest)) = labels.split_first() {
            if let LabelName::Local(number) = label.name {
                self.put_last(alloc, number, line)?;
            }
            labels = rest;
        }
        Ok(())
    }

    /// Takes out the lines from this one on.
    pub fn take_out(&mut self, line: u32)
        ensures { (number : ℕ) → lines_with self.new number ≡ lines_below line (lines_with self.old number) }
    {
        for place in 0..self.rows.len() {
            keep_below(&mut self.rows[place].lines, line);
        }
    }
}
