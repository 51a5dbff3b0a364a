//! The high halves that `%pcrel_lo` belongs to.

ghost use Rattle.std.specs.Prelude.{◌≡◌, ◌<◌, ℕ, suc, length, get_or, if◌then◌else◌};
ghost use Rattle.rv_layout.specs.Sections.{section_number, sections};
ghost use Rattle.rv_program.specs.internal.PairedHighs.{has_bytes_there, high_in, next_in, paired_high_in};
ghost use Rattle.rv_program.specs.internal.TextRows.{no_place};

use rv_expr::ValueFault;
use rv_fix::Entry;
use rv_layout::{SECTIONS, section_number};
use rv_list::LinePlace;

/// What a row of high halves holds for a line.
pub fn high_in(highs: &[Entry], line: usize) -> Entry
    ensures { result ≡ high_in highs.now line }
{
    highs
        .get(line.saturating_sub(1))
        .copied()
        .unwrap_or(Err(ValueFault::NoPartner))
}

// Where the line behind the first `i` lies.
fn place_behind(places: &[LinePlace], i: usize) -> LinePlace
    requires { i < length places.now }
    ensures { result ≡ get_or places.now i no_place }
{
    places[i]
}

// Goes on to the line before, which lies there and has this high half: of its section it is the first line with bytes, if it has any.
fn pass_line(next: &mut [Entry; SECTIONS], place: &LinePlace, high: Entry)
    ensures { (t : ℕ) → t < sections → next_in next.new t ≡ (if has_bytes_there t place.now then high else next_in next.old t) }
{
    if place.size != 0 {
        next[section_number(place.section)] = high;
    }
}

/// Turns the high half on each line into that which `%pcrel_lo` of a label on the line takes: that of the first line with bytes in the line's
/// section, from that line on. `places` say where the lines lie.
pub fn pair_highs(places: &[LinePlace], highs: &mut Vec<Entry>)
    requires { length highs.old.items ≡ length places.now }
    ensures paired { (k : ℕ) → k < length places.now → high_in highs.new.items (suc k) ≡ paired_high_in places.now highs.old.items (suc k) }
    ensures many { length highs.new.items ≡ length places.now }
{
    let mut next = [Err(ValueFault::NoPartner); SECTIONS];
    let mut i = highs.len();
    while i > 0 {
        i -= 1;
        let place = place_behind(places, i);
        pass_line(&mut next, &place, highs[i]);
        highs[i] = next[section_number(place.section)];
    }
}
