//! A high half at the end of a text, and the lines before it that wait for one.

ghost use Rattle.std.specs.Prelude.{◌≡◌, ◌≤◌, ◌<◌, ◌+◌, ◌-◌, ◌^◌, ◌==◌, ℕ, List, true, false, length, get_or, Some, Err, if◌then◌else◌, IfSome, OnOk, OnErr};
ghost use Rattle.std.specs.List.{list_any};
ghost use Rattle.rv_expr.specs.declared.faults.ValueFault.TheVariants.{NoPartner};
ghost use Rattle.rv_fix.specs.Values.{Entry};
ghost use Rattle.rv_layout.specs.Sections.{section_number};
ghost use Rattle.rv_stmt.specs.Statement.{statement_of};
ghost use Rattle.rv_program.specs.Definitions.{defines_symbol};
ghost use Rattle.rv_program.specs.Pairs.{high_at};
ghost use Rattle.rv_program.specs.Program.{program_of};
ghost use Rattle.rv_program.specs.declared.limits.TheConstants.{MAX_LINES};
ghost use Rattle.rv_program.specs.internal.FirstUses.{first_use};
ghost use Rattle.rv_program.specs.internal.NameSets.{bucket_of};
ghost use Rattle.rv_program.specs.internal.Rows.{ArePlaces};
ghost use Rattle.rv_store.specs.internal.HighRows.{AreRows, StayButHighs, GetHigh, added_highs};
ghost use Rattle.rv_store.specs.internal.Waiting.{IsUnused, AreWaiting, waits_there};

use crate::still::Still;
use crate::survey::Survey;
use rv_expr::ValueFault;
use rv_fix::Entry;
use rv_layout::section_number;
use rv_list::LinePlace;
use rv_program::highs::high_on;
use rv_program::{FirstUses, Line, Lines, MAX_LINES, NameTable, TextRows, bucket_of};
use rv_stmt::{LabelName, LabelSlice};
use rv_text::Count;
use std::alloc::AllocError;

// Whether none of so many lines uses one of some labels.
fn are_unused(mut labels: LabelSlice<'_>, uses: &FirstUses, count: usize) -> bool
    ensures { result ≡ true → (name : List ℕ) → list_any (λ l. defines_symbol l.name name) labels.entry ≡ true → count ≤ first_use uses.now (bucket_of name) }
{
    'labels: while let Some((label, rest)) = labels.split_first() {
        if let LabelName::Symbol(symbol) = label.name {
            if uses.first(bucket_of(symbol)) < count {
                return false;
            }
        }
        labels = rest;
    }
    true
}

// Whether none of so many lines uses a label of a line, and it has no local ones.
fn is_unused(line: &Line, uses: &FirstUses, count: usize) -> bool
    ensures { result ≡ true → IsUnused uses.now count (statement_of line.now) }
{
    !line.brief().local_labels && are_unused(line.stmt().labels.as_slice(), uses, count)
}

/// How many lines of a text there are before those that wait for the high half of a line that lies there, after all of them. `None` if a line
/// uses a label of one of these, or that line has no bytes.
pub fn waiting_from(survey: &Survey, place: &LinePlace) -> Option<usize>
    requires { (base : ℕ) × ArePlaces base (program_of survey.now.lines.items) survey.now.places.items }
    ensures bytes { IfSome result (λ _. (place.now.size == 0) ≡ false) }
    ensures waiting { IfSome result (λ first. AreWaiting survey.now.lines.items (section_number place.now.section) first) }
{
    if place.size == 0 {
        return None;
    }
    let section = section_number(place.section);
    let lines = survey.lines.as_slice();
    let uses = survey.lines.uses();
    let mut i = lines.len();
    'lines: while i > 0 {
        let there = survey.places[i - 1];
        if section_number(there.section) == section {
            if there.size != 0 {
                return Some(i);
            }
            if !is_unused(&lines[i - 1], uses, lines.len()) {
                return None;
            }
        }
        i -= 1;
    }
    Some(0)
}

// Puts a high half in a row for the lines of a section after the first lines.
fn put_behind(
    highs: &mut Vec<Entry>,
    places: &[LinePlace],
    section: usize,
    first: usize,
    high: Entry,
)
    requires { length highs.old.items ≡ length places.now }
    ensures each { (i : ℕ) → get_or highs.new.items i (Err NoPartner) ≡ (if waits_there places.now section first i then high else get_or highs.old.items i (Err NoPartner)) }
    ensures many { length highs.new.items ≡ length highs.old.items }
{
    let mut i = first;
    'lines: while i < highs.len() {
        if section_number(places[i].section) == section {
            highs[i] = high;
        }
        i += 1;
    }
}

impl Survey {
    /// Puts the high half of the last line in the row of high halves, if it adds one, also for the lines that wait for it.
    ///
    /// The counter's number of expressions computed rises by at most one, and only where it does.
    ///
    /// # Errors
    ///
    /// Where there was no memory, the row is what it was.
    pub fn put_high<C: Count>(
        &mut self,
        base: u32,
        names: &NameTable,
        still: &Still,
        counter: &mut C,
    ) -> Result<(), AllocError>
        requires rows { AreRows base (program_of self.old.lines.items) names.now self.old }
        requires some { 1 ≤ length self.old.lines.items }
        requires few { length self.old.lines.items ≤ MAX_LINES }
        requires within { length self.old.highs.items ≤ length self.old.lines.items }
        requires count { C.valued_count counter.old < 2 ^ 64 - 1 }
        ensures ok { OnOk result (GetHigh still.now.waiting self.old.places.items (section_number still.now.place.section) (high_at base (program_of self.old.lines.items) (length self.old.lines.items)) self.old.highs.items self.new.highs.items) }
        ensures err { OnErr result (self.new.highs.items ≡ self.old.highs.items) }
        ensures others { StayButHighs self.old self.new }
        ensures least { C.valued_count counter.old ≤ C.valued_count counter.new }
        ensures most { C.valued_count counter.new ≤ C.valued_count counter.old + added_highs still.now.waiting }
        ensures parsed { C.parsed_count counter.new ≡ C.parsed_count counter.old }
        ensures encoded { C.encoded_count counter.new ≡ C.encoded_count counter.old }
    {
        let Some(first) = still.waiting else {
            return Ok(());
        };
        let count = self.lines.len();
        self.highs.resize(count, Err(ValueFault::NoPartner))?;
        let lines = Lines::in_column(self.lines.as_slice());
        let text = TextRows {
            base,
            lines: &lines,
            names,
            definitions: &self.definitions,
            places: &self.places,
            locals: &self.locals,
        };
        let high = high_on(&text, &self.equ_values, count as u32, counter);
        let section = section_number(still.place.section);
        put_behind(&mut self.highs, &self.places, section, first, high);
        Ok(())
    }

    /// Takes it back, where the row had so many values, and none for the lines that get one.
    pub fn take_high(&mut self, still: &Still, former: usize)
        requires { (first : ℕ) → still.now.waiting ≡ Some first → length self.old.highs.items ≡ length self.old.places.items }
        ensures highs { (high : Entry) → (old : List Entry) → GetHigh still.now.waiting self.old.places.items (section_number still.now.place.section) high old self.old.highs.items → length old ≡ former
            → ((first i : ℕ) → still.now.waiting ≡ Some first → waits_there self.old.places.items (section_number still.now.place.section) first i ≡ true → get_or old i (Err NoPartner) ≡ Err NoPartner) → self.new.highs.items ≡ old }
        ensures others { StayButHighs self.old self.new }
    {
        let Some(first) = still.waiting else {
            return;
        };
        let section = section_number(still.place.section);
        put_behind(
            &mut self.highs,
            &self.places,
            section,
            first,
            Err(ValueFault::NoPartner),
        );
        self.highs.truncate(former);
    }
}
