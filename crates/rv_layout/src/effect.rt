//! What lines do to the section and to the offsets of all sections.

ghost use Rattle.std.specs.Prelude.{◌≡◌, ◌<◌, get_or};
ghost use Rattle.rv_layout.specs.Advances.{no_advance, IsAdvance};
ghost use Rattle.rv_layout.specs.Effects.{advance_at, both, join, AreAdvances, IsEffect};
ghost use Rattle.rv_layout.specs.Sections.{sections};

use crate::advance::Advance;
use crate::sections::{SECTIONS, section_number};
use rv_stmt::Sect;

/// What some lines do, whatever section the first of them is put into.
#[derive(Clone, Copy)]
pub enum Effect {
    /// None of them is a switch: they advance the section that comes in.
    Plain(Advance),
    /// Those before the first switch advance the section that comes in; the others advance each section by its own
    /// advance, and the last switch leaves this section.
    Switched(Advance, Sect, [Advance; SECTIONS]),
}

// One more advance of one section.
fn advance_at(
    advances: &[Advance; SECTIONS],
    section: usize,
    advance: Advance,
) -> [Advance; SECTIONS]
    requires within { section < sections }
    requires row { AreAdvances advances.now }
    requires one { IsAdvance advance }
    ensures { result ≡ advance_at section advance advances.now }
{
    let mut out = *advances;
    out[section] = advances[section].then(advance);
    out
}

// The advances of each section, then those that follow.
fn both(first: &[Advance; SECTIONS], next: &[Advance; SECTIONS]) -> [Advance; SECTIONS]
    requires first_row { AreAdvances first.now }
    requires next_row { AreAdvances next.now }
    ensures { result ≡ both first.now next.now }
{
    let mut out = *first;
    for section in 0..SECTIONS {
        out[section] = first[section].then(next[section]);
    }
    out
}

/// What some lines do, then others.
pub(crate) fn join(first: &Effect, next: &Effect) -> Effect
    requires first { IsEffect first.now }
    requires next { IsEffect next.now }
    ensures { result ≡ join first.now next.now }
{
    match (first, next) {
        (Effect::Plain(h), Effect::Plain(k)) => Effect::Plain(h.then(*k)),
        (Effect::Plain(h), Effect::Switched(k, section, row)) => {
            Effect::Switched(h.then(*k), *section, *row)
        }
        (Effect::Switched(h, section, row), Effect::Plain(k)) => {
            Effect::Switched(*h, *section, advance_at(row, section_number(*section), *k))
        }
        (Effect::Switched(h, section, row), Effect::Switched(k, last, more)) => Effect::Switched(
            *h,
            *last,
            both(&advance_at(row, section_number(*section), *k), more),
        ),
    }
}
