//! From which line on a text uses the names of a bucket.

ghost use Rattle.std.specs.Prelude.{◌≡◌, ◌≤◌, ◌<◌, ℕ, List, true, length, get_or, set};
ghost use Rattle.std.specs.List.{insert, remove};
ghost use Rattle.rv_stmt.specs.Statement.{statement_of};
ghost use Rattle.rv_program.specs.internal.Briefs.{brief_of};
ghost use Rattle.rv_program.specs.internal.FirstUses.{first_use, AreFirstUses, AreLowered};
ghost use Rattle.rv_program.specs.internal.NameSets.{is_bucket};

use crate::brief::Brief;
use crate::name_set::BUCKETS;
use crate::used_names::UsedNames;
use std::alloc::{AllocError, Global};
use std::marker::Model;

/// For each bucket of names, a place in a text before which no line uses one of them: a search for the lines that do so begins there. It is
/// known of a text that is added to at its end, as where a file is read; a line that comes or goes among others leaves nothing known.
#[derive(Drop)]
pub struct FirstUses {
    places: Option<Vec<u32>>,
    // The place of the first line of whose names the groups alone are known.
    many: u32,
}

impl Model for FirstUses {
    ghost use Rattle.std.specs.Option.{option_map};
    ghost use Rattle.rv_program.specs.internal.FirstUses.{Firsts};

    ghost Value = { Firsts };

    ghost view = { λ f. record { places = option_map (λ p. p.items) f.places; many = f.many } };
}

// A place as it is kept: it may be less, and so begins a search earlier.
fn kept_place(place: usize) -> u32
    ensures { result ≤ place }
{
    place.min(u32::MAX as usize) as u32
}

// Puts a number at a place of a row, where a greater one stands.
fn lower(row: &mut Vec<u32>, k: usize, number: u32)
    ensures kept { (j : ℕ) → get_or row.new.items j 0 ≤ get_or row.old.items j 0 }
    ensures lowered { get_or row.new.items k 0 ≤ number }
{
    if k < row.len() && number < row[k] {
        row[k] = number;
    }
}

impl FirstUses {
    /// Where nothing is known.
    pub fn unknown() -> FirstUses
        ensures { (bucket : ℕ) → first_use result bucket ≡ 0 }
    {
        FirstUses {
            places: None,
            many: 0,
        }
    }

    /// Those of no lines.
    ///
    /// # Errors
    ///
    /// Fails only where there is no memory.
    pub fn of_none(alloc: Global) -> Result<FirstUses, AllocError> {
        let places = vec![in alloc; u32::MAX; BUCKETS]?;
        Ok(FirstUses {
            places: Some(places),
            many: u32::MAX,
        })
    }

    /// A place before which no line uses a name of a bucket.
    pub fn first(&self, bucket: u16) -> usize
        ensures { result ≡ first_use self.now bucket }
    {
        let Some(places) = &self.places else {
            return 0;
        };
        let place = places.get(usize::from(bucket)).copied().unwrap_or(0);
        place.min(self.many) as usize
    }

    // A line at this place uses the names of a bucket, if it is one.
    fn add_bucket(&mut self, bucket: Option<u16>, place: u32)
        ensures kept { (other : ℕ) → first_use self.new other ≤ first_use self.old other }
        ensures added { (other : ℕ) → is_bucket bucket other ≡ true → first_use self.new other ≤ place }
    {
        let Some(bucket) = bucket else {
            return;
        };
        if let Some(places) = &mut self.places {
            lower(places, usize::from(bucket), place);
        }
    }

    // A line at this place uses these names.
    fn add(&mut self, names: UsedNames, place: u32)
        ensures { AreLowered names place self.old self.new }
    {
        match names {
            UsedNames::Few(first, second) => {
                self.add_bucket(first, place);
                self.add_bucket(second, place);
            }
            UsedNames::Many(_) => self.many = self.many.min(place),
        }
    }

    /// Goes on where a line with this brief is put in at a place of so many lines.
    pub fn insert(&mut self, count: usize, place: usize, brief: Brief)
        requires { place ≤ count }
        ensures { (lines : List (List ℕ)) → (line : List ℕ) → length lines ≡ count → brief ≡ brief_of (statement_of line)
            → AreFirstUses lines self.old → AreFirstUses (insert lines place line) self.new }
    {
        if place < count {
            *self = FirstUses::unknown();
            return;
        }
        self.add(brief.names, kept_place(place));
    }

    /// Goes on where a line with this brief is put in the place of another one.
    pub fn replace(&mut self, place: usize, brief: Brief)
        ensures { (lines : List (List ℕ)) → (line : List ℕ) → brief ≡ brief_of (statement_of line)
            → AreFirstUses lines self.old → AreFirstUses (set lines place line) self.new }
    {
        self.add(brief.names, kept_place(place));
    }

    /// Goes on where the line at a place of so many is taken out.
    pub fn remove(&mut self, count: usize, place: usize)
        requires { place < count }
        ensures { (lines : List (List ℕ)) → length lines ≡ count → AreFirstUses lines self.old → AreFirstUses (remove lines place) self.new }
    {
        if place + 1 < count {
            *self = FirstUses::unknown();
        }
    }
}
