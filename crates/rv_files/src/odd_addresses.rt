//! Instructions at odd addresses: of those that are there for one reason the first is reported, for all of them.

ghost use Rattle.std.specs.Prelude.{◌≡◌, ◌+◌, ◌-◌, ◌*◌, ◌≤◌, ◌<◌, ◌==◌, ◌++◌, not, length, map, reverse, Some, IfOk};
ghost use Rattle.std.specs.List.{flat_map};
ghost use Rattle.rv_list.specs.Faults.{fault_rows, faults_of, found};
ghost use Rattle.rv_list.specs.Shown.{shown_line};
ghost use Rattle.rv_files.specs.OddAddresses.{all_reported, odd_before, odd_behind, odd_report, odd_run, own_report, parities_of, parity_of, reported_faults};

use arrayvec::ArrayVec;
use rv_layout::section_number;
use rv_list::{
    LineSource, LineView, MAX_FAULTS, TestedLines, View, find_faults, is_at_odd_address,
};
use rv_stmt::Sect;
use rv_text::{Fault, FaultNumber};
use std::alloc::{AllocError, Global};

/// How a line stands to odd addresses.
#[derive(Clone, Copy)]
pub struct Parity {
    pub section: Sect,
    /// It is an instruction at an odd address.
    pub at_odd: bool,
    /// It has an odd number of bytes.
    pub odd_size: bool,
}

/// A fault that has a report, and how many more instructions are at odd addresses for the same reason.
#[derive(Clone, Copy)]
pub struct Reported {
    pub fault: Fault,
    pub more: u32,
}

/// How many faults a text has, and how many of them have a report.
#[derive(Clone, Copy)]
pub struct FaultCounts {
    pub faults: u32,
    pub reported: u32,
}

// How a line stands to odd addresses.
fn parity_of(line: &LineView<'_>) -> Parity
    ensures { result ≡ parity_of (shown_line line.now) }
{
    Parity {
        section: line.place.section,
        at_odd: is_at_odd_address(&line.stmt.body, line.place),
        odd_size: line.place.size % 2 == 1,
    }
}

/// How the lines of a text stand to odd addresses.
///
/// # Errors
///
/// `AllocError` if there is no memory for them.
pub fn parities<V: View>(alloc: Global, view: &V) -> Result<Vec<Parity>, AllocError>
    ensures items { IfOk result (λ parities. parities.items ≡ parities_of (V.shown view.now)) }
    ensures few { IfOk result (λ parities. length parities.items ≤ 16384) }
{
    let mut parities = Vec::new(alloc);
    let mut lines = view.lines();
    for _ in 0..view.line_count() {
        lines.advance();
        parities.push(parity_of(&lines.line()))?;
    }
    Ok(parities)
}

// How many instructions of a section are at odd addresses, up to a line there with an odd number of bytes.
fn odd_run(section: Sect, mut lines: &[Parity]) -> u32
    requires { length lines.now ≤ 16384 }
    ensures { result ≡ odd_run section lines.entry.now }
{
    let mut count = 0;
    'lines: while let [line, later @ ..] = lines {
        if section_number(line.section) == section_number(section) {
            if line.odd_size {
                return count;
            }
            if line.at_odd {
                count += 1;
            }
        }
        lines = later;
    }
    count
}

// Whether there is one among lines, from the last to the first.
fn ends_in_odd_run(section: Sect, lines: &[Parity]) -> bool
    ensures { result ≡ not (odd_run section (reverse lines.now) == 0) }
{
    let mut left = lines.len();
    'left: while left > 0 {
        left -= 1;
        let line = lines[left];
        if section_number(line.section) == section_number(section) {
            if line.odd_size {
                return false;
            }
            if line.at_odd {
                return true;
            }
        }
    }
    false
}

// How many instructions behind a line are at odd addresses for the same reason.
fn odd_behind(lines: &[Parity], number: u32, section: Sect) -> u32
    requires { length lines.now ≤ 16384 }
    ensures { result ≡ odd_behind lines.now number section }
{
    let (_, behind) = lines.split_at(lines.len().min(number as usize));
    odd_run(section, behind)
}

// Whether one before it is.
fn has_odd_before(lines: &[Parity], number: u32, section: Sect) -> bool
    requires { 1 ≤ number }
    ensures { result ≡ not (odd_before lines.now number section == 0) }
{
    let (before, _) = lines.split_at(lines.len().min(number as usize - 1));
    ends_in_odd_run(section, before)
}

// Adds a fault, if it has a report.
fn push_own(
    reported: &mut ArrayVec<Option<Reported>, MAX_FAULTS>,
    lines: &[Parity],
    number: u32,
    section: Sect,
    fault: Fault,
)
    requires first { 1 ≤ number }
    requires lines { length lines.now ≤ 16384 }
    requires few { length reported.old.items < 1004 }
    ensures reported { reported.new.items ≡ reported.old.items ++ map Some (own_report lines.now number section fault) }
    ensures few { length reported.new.items ≤ length reported.old.items + 1 }
{
    if fault.number != FaultNumber::OddAddress {
        reported.push(Some(Reported { fault, more: 0 }));
        return;
    }
    if !has_odd_before(lines, number, section) {
        let more = odd_behind(lines, number, section);
        reported.push(Some(Reported { fault, more }));
    }
}

// Adds those of some faults that have one.
fn push_reported(
    reported: &mut ArrayVec<Option<Reported>, MAX_FAULTS>,
    lines: &[Parity],
    number: u32,
    section: Sect,
    mut faults: &[Option<Fault>],
)
    requires first { 1 ≤ number }
    requires lines { length lines.now ≤ 16384 }
    requires few { length reported.old.items + length faults.now ≤ 1004 }
    ensures reported { reported.new.items ≡ reported.old.items ++ map Some (flat_map (own_report lines.now number section) (found faults.entry.now)) }
    ensures few { length reported.new.items ≤ length reported.old.items + length faults.entry.now }
{
    'faults: while let [fault, later @ ..] = faults {
        if let Some(fault) = fault {
            push_own(reported, lines, number, section, *fault);
        }
        faults = later;
    }
}

/// Puts the faults of line number `number` of a text that have a report, in their order, in the place of those in the list, and
/// returns how many faults the line has. `lines` says how the lines of the text stand to odd addresses.
pub fn find_reported<V: View>(
    reported: &mut ArrayVec<Option<Reported>, MAX_FAULTS>,
    view: &V,
    lines: &[Parity],
    number: u32,
    line: &LineView<'_>,
) -> u32
    requires labels { length line.now.stmt.now.labels ≤ 1000 }
    requires first { 1 ≤ number }
    requires lines { lines.now ≡ parities_of (V.shown view.now) }
    requires few { length lines.now ≤ 16384 }
    ensures faults { reported.new.items ≡ map Some (reported_faults (V.shown view.now) number (shown_line line.now)) }
    ensures few { length reported.new.items ≤ 1004 }
    ensures all { result ≡ length (faults_of (V.shown view.now) number (shown_line line.now)) }
    ensures most { result ≤ 1004 }
{
    let mut faults = ArrayVec::<Option<Fault>, MAX_FAULTS>::new();
    find_faults(&mut faults, view, number, line);
    reported.clear();
    push_reported(
        reported,
        lines,
        number,
        line.place.section,
        faults.as_slice(),
    );
    faults.len() as u32
}

/// How many faults a text has, and how many of them have a report. `parities` says how its lines stand to odd addresses.
pub fn fault_counts<V: View>(view: &V, parities: &[Parity]) -> FaultCounts
where
    V::Lines: TestedLines,
    requires lines { parities.now ≡ parities_of (V.shown view.now) }
    requires few { length parities.now ≤ 16384 }
    ensures faults { result.faults ≡ length (fault_rows (V.shown view.now)) }
    ensures few { result.faults ≤ 1004 * 16384 }
    ensures reported { result.reported ≡ length (all_reported (V.shown view.now)) }
{
    let mut found = ArrayVec::<Option<Reported>, MAX_FAULTS>::new();
    let mut faults = 0;
    let mut reported = 0;
    let mut lines = view.lines();
    for k in 0..view.line_count() {
        lines.advance();
        if !lines.may_have_faults() {
            continue;
        }
        let all = find_reported(&mut found, view, parities, k + 1, &lines.line());
        faults += all;
        reported += found.len() as u32;
    }
    FaultCounts { faults, reported }
}
