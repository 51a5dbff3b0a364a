//! Where the lines of a text lie.

ghost use Rattle.std.specs.Prelude.{◌≡◌, ◌≤◌, ◌<◌, ◌+◌, ◌-◌, ◌^◌, ℕ, suc, List, [], ◌∷◌, ◌++◌, length, get_or, slice_index, vec_capacity, true, IfOk, IsTrue};
ghost use Rattle.rv_layout.specs.declared.measured.Measured.{Measured};
ghost use Rattle.rv_layout.specs.Places.{size_at, sum_below, is_base, IsLimited, AreLimited};
ghost use Rattle.rv_layout.specs.Sections.{sections, section_number};
ghost use Rattle.rv_store.specs.internal.Ends.{ends_of, ends_after, ends_at, end_in, base_by_ends, next_offset, next_place, place_by_shapes, AreBases, ArePlaced, IsReached, IsBehind};
ghost use Rattle.rv_program.specs.Edits.{edit_of, place_of_edit};
ghost use Rattle.rv_program.specs.Program.{for_lines};
ghost use Rattle.rv_store.specs.internal.Unmoved.{place_put_in};

use crate::ends::Ends;
use rv_layout::{Measured, SECTIONS, bases_by_ends, section_number};
use rv_list::LinePlace;
use rv_program::{LineEdit, row_for};
use std::alloc::{AllocError, Global};

// The place of the next line.
fn next_place(bases: &[u32; SECTIONS], ends: &Ends, shape: &Measured) -> LinePlace
    requires { slice_index bases.now (section_number ends.now.section) + next_offset ends.now < 2 ^ 32 }
    ensures { result ≡ next_place bases.now ends.now shape.now }
{
    LinePlace {
        section: ends.section,
        address: bases[section_number(ends.section)] + ends.next_offset(),
        size: ends.next_size(shape),
    }
}

// Where the next line of a text lies. Of the ends of the sections, that of its own stands apart, at `offset`: lines that stay in the
// section look up nothing.
#[derive(Clone, Copy)]
struct Reached {
    ends: Ends,
    base: u32,
    offset: u32,
}

impl Reached {
    // The next line after these ends, where the sections begin at these addresses.
    fn of(ends: Ends, bases: &[u32; SECTIONS]) -> Reached
        ensures ends { ends_at result ≡ ends }
        ensures base { result.base ≡ slice_index bases.now (section_number result.ends.section) }
    {
        Reached {
            ends,
            base: bases[section_number(ends.section)],
            offset: ends.next_offset(),
        }
    }

    // All ends of the sections.
    fn ends(&self) -> Ends
        ensures { result ≡ ends_at self.now }
    {
        let mut ends = self.ends;
        ends.offsets[section_number(ends.section)] = self.offset;
        ends
    }

    // Goes on by a line, and answers how many bytes it has.
    fn advance(&mut self, bases: &[u32; SECTIONS], shape: &Measured) -> u32
        requires short { next_offset (ends_at self.old) ≤ 2 ^ 30 }
        requires limited { IsLimited shape.now }
        ensures size { result ≡ size_at (next_offset (ends_at self.old)) shape.now }
        ensures ends { ends_at self.new ≡ ends_after (ends_at self.old) shape.now }
        ensures base { self.new.base ≡ slice_index bases.now (section_number self.new.ends.section) }
    {
        let mut ends = self.ends();
        let size = ends.next_size(shape);
        ends.advance(shape);
        *self = Reached::of(ends, bases);
        size
    }
}

// Adds the place of the next line to those of the lines before it.
fn push_next(
    bases: &[u32; SECTIONS],
    shapes: &[Measured],
    reached: &mut Reached,
    row: &mut Vec<LinePlace>,
)
    requires few { length shapes.now ≤ 16384 }
    requires limited { AreLimited shapes.now }
    requires left { length row.old.items < length shapes.now }
    requires reached { IsReached shapes.now (length row.old.items) reached.old }
    requires base { reached.old.base ≡ slice_index bases.now (section_number reached.old.ends.section) }
    requires room { length shapes.now ≤ vec_capacity row.old }
    ensures next { length row.new.items ≡ length row.old.items + 1 }
    ensures reached { IsReached shapes.now (length row.new.items) reached.new }
    ensures base { reached.new.base ≡ slice_index bases.now (section_number reached.new.ends.section) }
    ensures room { vec_capacity row.new ≡ vec_capacity row.old }
    ensures places { (base : ℕ) → ArePlaced base bases.now shapes.now row.old.items → ArePlaced base bases.now shapes.now row.new.items }
{
    let shape = &shapes[row.len()];
    let section = reached.ends.section;
    let address = reached.base.wrapping_add(reached.offset);
    let size = reached.advance(bases, shape);
    row.push_reserved(LinePlace {
        section,
        address,
        size,
    });
}

// Adds the places of the next lines up to an alignment or a switch of sections. Its loop reads nothing but shapes.
#[inline(always)]
fn push_run(shapes: &[Measured], reached: &mut Reached, row: &mut Vec<LinePlace>)
    requires few { length shapes.now ≤ 16384 }
    requires limited { AreLimited shapes.now }
    requires within { length row.old.items ≤ length shapes.now }
    requires reached { IsReached shapes.now (length row.old.items) reached.old }
    requires room { length shapes.now ≤ vec_capacity row.old }
    ensures up { length row.old.items ≤ length row.new.items }
    ensures within { length row.new.items ≤ length shapes.now }
    ensures reached { IsReached shapes.now (length row.new.items) reached.new }
    ensures section { reached.new.ends.section ≡ reached.old.ends.section }
    ensures base { reached.new.base ≡ reached.old.base }
    ensures room { vec_capacity row.new ≡ vec_capacity row.old }
    ensures places { (base : ℕ) → (bases : List ℕ) → reached.old.base ≡ slice_index bases (section_number reached.old.ends.section)
        → ArePlaced base bases shapes.now row.old.items → ArePlaced base bases shapes.now row.new.items }
{
    let section = reached.ends.section;
    let base = reached.base;
    let mut offset = reached.offset;
    'lines: while row.len() < shapes.len() {
        let size = match &shapes[row.len()] {
            Measured::Bytes(count) => *count,
            Measured::Nothing | Measured::Faulty(_) => 0,
            Measured::Align(_) | Measured::Switch(_) => break 'lines,
        };
        let address = base.wrapping_add(offset);
        offset += size;
        row.push_reserved(LinePlace {
            section,
            address,
            size,
        });
    }
    reached.offset = offset;
}

// Where lines of these shapes lie if the sections begin at these addresses, and where the sections end. Addresses count modulo 2 ^ 32.
fn places(alloc: Global, bases: &[u32; SECTIONS], shapes: &[Measured]) -> Result<Placed, AllocError>
    requires few { length shapes.now ≤ 16384 }
    requires limited { AreLimited shapes.now }
    ensures ends { IfOk result (λ p. p.ends ≡ ends_of shapes.now) }
    ensures places { IfOk result (λ p. (base : ℕ) → is_base base ≡ true → AreBases base shapes.now bases.now → p.places.items ≡ for_lines (place_by_shapes base shapes.now) (length shapes.now)) }
{
    let mut reached = Reached::of(Ends::start(), bases);
    let mut row = row_for(alloc, shapes.len())?;
    'lines: while row.len() < shapes.len() {
        push_run(shapes, &mut reached, &mut row);
        if row.len() < shapes.len() {
            push_next(bases, shapes, &mut reached, &mut row);
        }
    }
    Ok(Placed {
        ends: reached.ends(),
        places: row,
    })
}

/// Whether all sections begin where they began before lines were added.
pub fn stay_sections(base: u32, before: &Ends, after: &Ends) -> bool
    requires base { is_base base ≡ true }
    requires ends_before { sum_below (end_in before.now) sections ≤ 2 ^ 30 }
    requires ends { sum_below (end_in after.now) sections ≤ 2 ^ 30 }
    ensures { IsTrue result → (t : ℕ) → t < sections → base_by_ends base after.now t ≡ base_by_ends base before.now t }
{
    bases_by_ends(&after.offsets, base) == bases_by_ends(&before.offsets, base)
}

/// Where the last line lies, which is of this shape, by the ends after the lines before it and those after all.
pub fn last_place(base: u32, before: &Ends, after: &Ends, shape: &Measured) -> LinePlace
    requires base { is_base base ≡ true }
    requires behind { (ms : List Measured) × IsBehind shape.now before.now after.now ms }
    ensures { (ms : List Measured) → IsBehind shape.now before.now after.now ms → result ≡ place_by_shapes base (ms ++ shape.now ∷ []) (suc (length ms)) }
{
    next_place(&bases_by_ends(&after.offsets, base), before, shape)
}

/// Where the line lies that an edit puts in that moves no line.
pub fn place_put_in(edit: &LineEdit<'_>, places: &[LinePlace]) -> LinePlace
    requires first { 1 ≤ place_of_edit (edit_of edit.now) }
    requires within { place_of_edit (edit_of edit.now) ≤ length places.now }
    ensures { result ≡ place_put_in (edit_of edit.now) (get_or places.now (place_of_edit (edit_of edit.now) - 1) result) }
{
    let there = places[edit.place() as usize - 1];
    match edit {
        LineEdit::Insert(_, _) => LinePlace { size: 0, ..there },
        LineEdit::Delete(_) | LineEdit::Replace(_, _) => there,
    }
}

/// Where the sections of a text end, and where each of its lines lies.
#[derive(Drop)]
pub struct Placed {
    pub ends: Ends,
    pub places: Vec<LinePlace>,
}

impl Placed {
    /// Where lines of these shapes lie: addresses from `base` on. The ends are a guess: the lines are gone over once more where the sections
    /// do not begin where these tell.
    pub fn of(
        alloc: Global,
        base: u32,
        guess: &Ends,
        shapes: &[Measured],
    ) -> Result<Placed, AllocError>
        requires base { is_base base ≡ true }
        requires guess { sum_below (end_in guess.now) sections ≤ 2 ^ 30 }
        requires few { length shapes.now ≤ 16384 }
        requires limited { AreLimited shapes.now }
        ensures ends { IfOk result (λ p. p.ends ≡ ends_of shapes.now) }
        ensures places { IfOk result (λ p. p.places.items ≡ for_lines (place_by_shapes base shapes.now) (length shapes.now)) }
    {
        let placed = places(alloc, &bases_by_ends(&guess.offsets, base), shapes)?;
        if stay_sections(base, guess, &placed.ends) {
            return Ok(placed);
        }
        places(alloc, &bases_by_ends(&placed.ends.offsets, base), shapes)
    }
}
