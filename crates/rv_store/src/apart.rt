//! Lines at the end of a text with which other lines have to do by their names and their local labels alone.

ghost use Rattle.std.specs.Prelude.{◌≡◌, ◌≤◌, ◌<◌, ◌+◌, ◌&&◌, ◌||◌, ℕ, List, true, false, nat_le, max, length, map, IfSome};
ghost use Rattle.std.specs.List.{list_any};
ghost use Rattle.rv_stmt.specs.Statement.{statement_of};
ghost use Rattle.rv_program.specs.declared.limits.TheConstants.{MAX_LINES};
ghost use Rattle.rv_store.specs.internal.Appended.{adds, touches, is_earlier, TellEarlier, FindsLocals, IsApart};
ghost use Rattle.rv_store.specs.internal.Apart.{added_by, touched_by, HasMaskOf, AreMarked};
ghost use Rattle.rv_program.specs.internal.FirstUses.{AreFirstUses};
ghost use Rattle.rv_program.specs.internal.NameSets.{bucket_of};
ghost use Rattle.rv_program.specs.Definitions.{defines_symbol, place_in_body, is_defined};
ghost use Rattle.rv_program.specs.Program.{program_of, body_at, lines_that};
ghost use Rattle.rv_store.specs.internal.Still.{is_settled, uses_any};
ghost use Rattle.rv_program.specs.Uses.{names_used, uses_local_label};

use rv_list::DefinitionPlace;
use rv_program::{
    FirstUses, Kind, Line, MAX_LINES, Mask, NameTable, NameTest, SearchPart, SearchedLines,
    any_name, bucket_of, entry_of, is_defined, place_on, uses_local_label,
};
use rv_stmt::{Body, LabelName, LabelSlice};
use std::alloc::Global;

// Whether a definition is on a line before this one.
fn is_earlier(line: u32, place: DefinitionPlace) -> bool
    ensures { result ≡ is_earlier line place }
{
    match place {
        DefinitionPlace::Nowhere => false,
        DefinitionPlace::Label(defining, _) | DefinitionPlace::Equ(defining) => defining < line,
    }
}

// A line behind a text. The names that pass are those that it adds: it defines them, and the text does not. The lines `from` on may find a
// local label on it.
#[derive(Drop)]
struct LineBehind<'a> {
    line: &'a Line,
    number: u32,
    from: u32,
    names: &'a NameTable,
    definitions: &'a [DefinitionPlace],
}

impl NameTest for LineBehind<'_> {
    ghost can_test = { λ t. true ≡ true };

    ghost test = { added_by };

    fn passes(&self, name: &[u8]) -> bool {
        if !is_defined(place_on(self.line, self.number, name)) {
            return false;
        }
        let place = entry_of(self.names, self.definitions, DefinitionPlace::Nowhere, name);
        !is_earlier(self.number, place)
    }
}

// Whether other lines take what a line gives: it is an `.equ`, or a high half.
fn is_settled(line: &Line) -> bool
    ensures { result ≡ is_settled (statement_of line.now).body }
{
    let brief = line.brief();
    brief.equ || brief.pcrel_high
}

impl LineBehind<'_> {
    // Adds the mask of a symbol, if the line adds it.
    fn mark(&self, symbol: &[u8], added: &mut Mask)
        ensures { AreMarked (added_by self.now) (λ name. name ≡ symbol.now) added.old added.new }
    {
        if self.passes(symbol) {
            *added = added.with(Mask::of_bucket(bucket_of(symbol)));
        }
    }

    // Adds those of the symbols of some labels.
    fn mark_labels(&self, mut labels: LabelSlice<'_>, added: &mut Mask)
        ensures { AreMarked (added_by self.now) (λ name. list_any (λ l. defines_symbol l.name name) labels.entry ≡ true) added.old added.new }
    {
        'labels: while let Some((label, rest)) = labels.split_first() {
            if let LabelName::Symbol(symbol) = label.name {
                self.mark(symbol, added);
            }
            labels = rest;
        }
    }

    // Adds that of the symbol of an `.equ`.
    fn mark_equ(&self, body: &Body, added: &mut Mask)
        ensures { AreMarked (added_by self.now) (λ name. is_defined (place_in_body self.now.number body.now name) ≡ true) added.old added.new }
    {
        if let Body::Equ(definition) = body {
            self.mark(definition.symbol.bytes(), added);
        }
    }

    // The mask of the names that it adds.
    fn added(&self) -> Mask
        ensures { (name : List ℕ) → added_by self.now name ≡ true → HasMaskOf name result }
    {
        let mut added = Mask::none();
        let stmt = self.line.stmt();
        self.mark_labels(stmt.labels.as_slice(), &mut added);
        self.mark_equ(&stmt.body, &mut added);
        added
    }

    // The bucket of the label of a line that has one and is no `.equ`: it adds no other name.
    fn only_label(&self) -> Option<u16>
        ensures { IfSome result (λ bucket. (name : List ℕ) → added_by self.now name ≡ true → bucket_of name ≡ bucket) }
    {
        let labels = &self.line.stmt().labels;
        if labels.len() > 1 || self.line.brief().equ {
            return None;
        }
        let (label, _others) = labels.as_slice().split_first()?;
        match label.name {
            LabelName::Symbol(symbol) => Some(bucket_of(symbol)),
            LabelName::Local(_) => None,
        }
    }

    // The bucket of the only name that it may add: that of its label, or that of its `.equ`, where it has one of these alone.
    fn only_bucket(&self) -> Option<u16>
        ensures { IfSome result (λ bucket. (name : List ℕ) → added_by self.now name ≡ true → bucket_of name ≡ bucket) }
    {
        let stmt = self.line.stmt();
        match &stmt.body {
            Body::Equ(definition) if stmt.labels.is_empty() => {
                Some(bucket_of(definition.symbol.bytes()))
            }
            _ => self.only_label(),
        }
    }

    // Whether a line uses a name that it adds. Where `only` is the bucket of all these, a line without a name of this bucket is gone past
    // without a look at its statement.
    #[inline]
    fn is_used_on(&self, line: &Line, only: Option<u16>) -> bool
        requires { IfSome only (λ bucket. (name : List ℕ) → added_by self.now name ≡ true → bucket_of name ≡ bucket) }
        ensures { result ≡ list_any (added_by self.now) (names_used (statement_of line.now).body) }
    {
        match only {
            Some(bucket) if !line.brief().names.may_have(bucket) => false,
            _ => any_name(&line.stmt().body, self),
        }
    }

    // Whether a line of this number uses one, or may find a local label on it.
    #[inline]
    fn touches(&self, line: &Line, number: u32, only: Option<u16>) -> bool
        requires { IfSome only (λ bucket. (name : List ℕ) → added_by self.now name ≡ true → bucket_of name ≡ bucket) }
        ensures { result ≡ (list_any (added_by self.now) (names_used (statement_of line.now).body) || (nat_le self.now.from number && uses_local_label (statement_of line.now).body)) }
    {
        self.is_used_on(line, only) || (self.from <= number && uses_local_label(&line.stmt().body))
    }

    // How many lines there are before the next one after the first `i` that it may touch. `added` is the mask of the names that it adds. Only from
    // `from` on is it looked for by local labels.
    fn lines_up_to_touched(
        &self,
        searched: &SearchedLines<'_>,
        part: &mut SearchPart,
        i: usize,
        added: Mask,
    ) -> usize
        requires added { (name : List ℕ) → added_by self.now name ≡ true → HasMaskOf name added }
        requires within { i ≤ length searched.now }
        ensures up { i ≤ result }
        ensures within { result ≤ length searched.now }
        ensures passed { (line : ℕ) → i < line → line ≤ result → uses_any (touched_by self.now) (program_of searched.now) line ≡ false }
    {
        if part.has(i) {
            return i;
        }
        let local = searched.len().min((self.from as usize).saturating_sub(1));
        if i < local {
            let next = searched.next(part, i, added);
            if next < local {
                return next;
            }
            *part = SearchPart::start();
        }
        searched.next(part, i.max(local), added.with_kind(Kind::Uncompared, true))
    }

    // How many lines there are before the first one of so many that it may touch. `only` is the bucket of all names that it adds: before the
    // first use of this bucket no line uses one of them.
    fn lines_untouched(&self, count: usize, uses: &FirstUses, only: Option<u16>) -> usize
        requires only { IfSome only (λ bucket. (name : List ℕ) → added_by self.now name ≡ true → bucket_of name ≡ bucket) }
        ensures within { result ≤ count }
        ensures untouched { (lines : List (List ℕ)) → length lines ≡ count → AreFirstUses lines uses.now
            → (line : ℕ) → 0 < line → line ≤ result → uses_any (touched_by self.now) (program_of lines) line ≡ false }
    {
        let Some(bucket) = only else {
            return 0;
        };
        let before = (self.from as usize).saturating_sub(1);
        uses.first(bucket).min(before).min(count)
    }

    // The lines that it touches, rising, or `None` if other lines take what one of them gives, or there is no memory for them. Those before the
    // first use of its only name are gone past.
    fn users(
        &self,
        alloc: Global,
        searched: &SearchedLines<'_>,
        uses: &FirstUses,
        added: Mask,
    ) -> Option<Vec<u32>>
        requires uses { AreFirstUses searched.now uses.now }
        requires few { length searched.now ≤ MAX_LINES }
        requires added { (name : List ℕ) → added_by self.now name ≡ true → HasMaskOf name added }
        ensures users { IfSome result (λ row. row.items ≡ lines_that (uses_any (touched_by self.now) (program_of searched.now)) (length searched.now)) }
        ensures unsettled { IfSome result (λ _. (i : ℕ) → 1 ≤ i → i ≤ length searched.now → is_settled (body_at (program_of searched.now) i) ≡ true → uses_any (touched_by self.now) (program_of searched.now) i ≡ false) }
    {
        let only = self.only_bucket();
        let lines = searched.lines();
        let mut users = Vec::new(alloc);
        let mut part = SearchPart::start();
        let begin = self.lines_untouched(searched.len(), uses, only);
        let mut i = self.lines_up_to_touched(searched, &mut part, begin, added);
        'lines: while i < lines.len() {
            let line = &lines[i];
            let number = i as u32 + 1;
            if self.touches(line, number, only) {
                if is_settled(line) {
                    return None;
                }
                let Ok(()) = users.push(number) else {
                    return None;
                };
            }
            i = self.lines_up_to_touched(searched, &mut part, i + 1, added);
        }
        Some(users)
    }
}

/// What a line behind a text adds to it.
#[derive(Drop)]
pub struct Added {
    /// It defines a name that the text does not.
    pub any: bool,
    /// The lines of the text that use such a name, or may find a local label on it, rising.
    pub users: Vec<u32>,
}

/// What a line after a text adds to it. `searched` has the lines of the text, `uses` tells where names are first used, and `definitions` says where
/// names are defined, with that line or without it. Each line before `from` finds all its local labels in the text. `None` if another line may have to do with it otherwise than by a
/// name or a local label: an `.equ` or a high half of the text uses one that it adds, or there is no memory to find out.
pub fn adds_apart(
    alloc: Global,
    searched: &SearchedLines<'_>,
    uses: &FirstUses,
    names: &NameTable,
    definitions: &[DefinitionPlace],
    line: &Line,
    from: u32,
) -> Option<Added>
    requires uses { AreFirstUses searched.now uses.now }
    requires definitions { TellEarlier searched.now names.now definitions.now }
    requires few { length searched.now ≤ MAX_LINES }
    requires locals { FindsLocals (program_of searched.now) (statement_of line.now) from }
    ensures apart { IfSome result (λ _. IsApart (program_of searched.now) (statement_of line.now) from) }
    ensures nothing { IfSome result (λ added. added.any ≡ false → (name : List ℕ) → adds (program_of searched.now) (statement_of line.now) name ≡ false) }
    ensures users { IfSome result (λ added. added.users.items ≡ lines_that (uses_any (touches (program_of searched.now) (statement_of line.now) from) (program_of searched.now)) (length searched.now)) }
{
    let behind = LineBehind {
        line,
        number: searched.len() as u32 + 1,
        from,
        names,
        definitions,
    };
    let added = behind.added();
    let users = behind.users(alloc, searched, uses, added)?;
    Some(Added {
        any: !added.is_none(),
        users,
    })
}
