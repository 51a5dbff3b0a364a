//! The layout of lines.

ghost use Rattle.std.specs.Prelude.{◌≡◌, ◌<◌, ◌==◌, if◌then◌else◌};
ghost use Rattle.rv_layout.specs.Advances.{advanced, IsAdvance};
ghost use Rattle.rv_layout.specs.Effects.{join, no_lines, effect_of, section_reached, offset_reached, IsEffect};
ghost use Rattle.rv_layout.specs.Sections.{sections, section_number};

use crate::advance::Advance;
use crate::effect::{Effect, join};
use crate::measured::Measured;
use crate::sections::{SECTIONS, section_number};
use rv_stmt::Sect;
use rv_tree::Joined;
use std::marker::Model;

/// What some lines do to the section and to the offsets of all sections. Layouts join, so a tree can sum them: `start` is their
/// unit. Offsets are modulo 2^32, so that the laws hold of all layouts; those of a text do not wrap.
#[derive(Clone, Copy)]
pub struct Layout {
    effect: Effect,
}

impl Model for Layout {
    ghost use Rattle.rv_layout.specs.declared.effect.Effect.{Effect};
    ghost use Rattle.rv_layout.specs.Effects.{IsEffect};

    ghost Value = { Effect };

    ghost view = { λ l. l.effect };

    ghost invariant = { λ l. IsEffect l.effect };

    ghost inverse = { λ e. record { effect = e } };
}

impl Joined for Layout {
    ghost IsValue = { IsEffect };

    ghost empty = { no_lines };

    ghost op = { join };

    fn unit() -> Layout {
        Layout::start()
    }

    fn join(&self, other: &Layout) -> Layout {
        Layout {
            effect: join(&self.effect, &other.effect),
        }
    }

    fn known(&self) {
        let _effect = self.effect;
    }

    ghost use Rattle.rv_layout.specs.EffectLaws.{effect_laws};

    ghost laws = { effect_laws };
}

// What one line does.
fn effect_of(measured: &Measured) -> Effect
    ensures value { result ≡ effect_of measured.now }
    ensures kept { IsEffect result }
{
    match measured {
        Measured::Bytes(count) => Effect::Plain(Advance {
            before: 0,
            exponent: 0,
            after: *count,
        }),
        Measured::Align(alignment) => Effect::Plain(Advance {
            before: 0,
            exponent: alignment.exponent(),
            after: 0,
        }),
        Measured::Switch(section) => {
            Effect::Switched(Advance::none(), *section, [Advance::none(); SECTIONS])
        }
        Measured::Nothing | Measured::Faulty(_) => Effect::Plain(Advance::none()),
    }
}

// The offset of a section after the lines before the first switch, which are put into `.text`.
fn offset_before_switch(advance: Advance, section: usize) -> u32
    requires { IsAdvance advance }
    ensures { result ≡ (if section_number Sect.Text == section then advanced advance 0 else 0) }
{
    if section == section_number(Sect::Text) {
        advance.apply(0)
    } else {
        0
    }
}

impl Layout {
    /// The layout of no lines.
    pub fn start() -> Layout
        ensures { result ≡ no_lines }
    {
        Layout {
            effect: Effect::Plain(Advance::none()),
        }
    }

    /// The layout of one line.
    pub fn of(measured: &Measured) -> Layout
        ensures { result ≡ effect_of measured.now }
    {
        Layout {
            effect: effect_of(measured),
        }
    }

    /// The layout of these lines and one more.
    pub fn then(&self, measured: &Measured) -> Layout
        ensures { result ≡ join self.now (effect_of measured.now) }
    {
        self.join(&Layout::of(measured))
    }

    /// The section that the line after these is put into, where they are the first lines of a text.
    pub fn section(&self) -> Sect
        ensures { result ≡ section_reached self.now }
    {
        match &self.effect {
            Effect::Plain(_) => Sect::Text,
            Effect::Switched(_, section, _) => *section,
        }
    }

    /// The offset in a section after these lines, where they are the first of a text, modulo 2^32.
    pub fn offset(&self, section: usize) -> u32
        requires { section < sections }
        ensures { result ≡ offset_reached self.now section }
    {
        match &self.effect {
            Effect::Plain(advance) => offset_before_switch(*advance, section),
            Effect::Switched(advance, _, row) => {
                row[section].apply(offset_before_switch(*advance, section))
            }
        }
    }
}
