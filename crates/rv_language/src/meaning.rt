//! What names mean.

ghost use Rattle.std.specs.Prelude.{◌≡◌, ℕ, false, option_map};
ghost use Rattle.std.specs.List.{list_any};
ghost use Rattle.rv_text.specs.declared.lexeme.Span.{Span};
ghost use Rattle.rv_show.specs.Parts.{part};
ghost use Rattle.rv_language.specs.Meanings.{SymbolMeant, means_written};
ghost use Rattle.rv_language.specs.Meanings.{is_local, is_local_label, local_before, local_behind, local_on, meaning_of, means, means_local, meant, name_lent, name_of};

use memchr::memmem;
use rv_expr::label_number;
use rv_list::{LineSource, View};
use rv_stmt::{LabelName, LabelSlice};

/// A name as it is written.
#[derive(Clone, Copy)]
pub enum Written<'a> {
    /// A symbol.
    Symbol(&'a [u8]),
    /// A local label, by its number.
    Label(u16),
    /// The last local label of this number on the line or an earlier one.
    Back(u16),
    /// The first one on a later line.
    Forward(u16),
}

/// A local label: its number, its line from 1 on, and the lines of the labels of this number before and behind it: 0 and `u32::MAX` where there
/// are none.
#[derive(Clone, Copy)]
pub struct LocalLabel {
    pub number: u16,
    pub line: u32,
    pub before: u32,
    pub behind: u32,
}

/// What a name means.
#[derive(Clone, Copy)]
pub enum Meaning<'a> {
    /// A symbol, by its name.
    Symbol(&'a [u8]),
    /// A local label.
    Local(LocalLabel),
}

// Whether a name is that of a local label, or refers to one: no symbol begins with a digit.
fn is_local(name: &[u8]) -> bool
    ensures { result ≡ is_local name.now }
{
    match name.first() {
        Some(byte) => byte.is_ascii_digit(),
        None => false,
    }
}

/// How a name of a line is written.
pub fn as_written(name: &[u8]) -> Option<Written<'_>>
    ensures { option_map name_lent result ≡ name_of name.now }
{
    if !is_local(name) {
        return Some(Written::Symbol(name));
    }
    let [digits @ .., letter] = name else {
        return None;
    };
    match *letter {
        b'b' => Some(Written::Back(label_number(digits)?)),
        b'f' => Some(Written::Forward(label_number(digits)?)),
        _ => Some(Written::Label(label_number(name)?)),
    }
}

// Whether a local label of this number is among some labels.
fn has_local(mut labels: LabelSlice<'_>, number: u16) -> bool
    ensures { result ≡ list_any (is_local_label number) labels.entry }
{
    'labels: while let Some((label, later)) = labels.split_first() {
        if let LabelName::Local(n) = label.name
            && n == number
        {
            return true;
        }
        labels = later;
    }
    false
}

// The lines around a place between two lines that have a certain label: 0 and `u32::MAX` where there are none.
#[derive(Clone, Copy)]
struct Around {
    before: u32,
    behind: u32,
}

// The last of the first `at` lines that has a local label of this number, and the first line behind them that has one.
fn local_around<V: View>(view: &V, number: u16, at: u32) -> Around
    ensures before { result.before ≡ local_before (V.shown view.now) number at }
    ensures behind { result.behind ≡ local_behind (V.shown view.now) number at }
{
    let mut around = Around {
        before: 0,
        behind: u32::MAX,
    };
    let mut lines = view.lines();
    for k in 0..view.line_count() {
        lines.advance();
        if has_local(lines.line().stmt.labels.as_slice(), number) {
            if k >= at {
                around.behind = k + 1;
                return around;
            }
            around.before = k + 1;
        }
    }
    around
}

// The local label of this number on a line.
fn local_on<'a, V: View>(view: &V, number: u16, line: u32) -> Option<Meaning<'a>>
    ensures { option_map meant result ≡ local_on (V.shown view.now) number line }
{
    if line == 0 || line == u32::MAX {
        return None;
    }
    Some(Meaning::Local(LocalLabel {
        number,
        line,
        before: local_around(view, number, line - 1).before,
        behind: local_around(view, number, line).behind,
    }))
}

/// What a name means that is written on a line, by its number from 1 on. A local label has to be there.
pub fn meaning_of<'a, V: View>(view: &V, line: u32, name: Written<'a>) -> Option<Meaning<'a>>
    ensures { option_map meant result ≡ meaning_of (V.shown view.now) line (name_lent name.entry) }
{
    match name {
        Written::Symbol(bytes) => Some(Meaning::Symbol(bytes)),
        Written::Label(number) => local_on(view, number, line),
        Written::Back(number) => {
            let line = local_around(view, number, line).before;
            local_on(view, number, line)
        }
        Written::Forward(number) => {
            let line = local_around(view, number, line).behind;
            local_on(view, number, line)
        }
    }
}

impl LocalLabel {
    // Whether a name means it that is written on a line, by its number from 1 on.
    fn is_meant(&self, line: u32, name: Written<'_>) -> bool
        ensures { result ≡ means_local self.now line (name_lent name.entry) }
    {
        match name {
            Written::Symbol(_) => false,
            Written::Label(number) => number == self.number && line == self.line,
            Written::Back(number) => {
                number == self.number && self.line <= line && line < self.behind
            }
            Written::Forward(number) => {
                number == self.number && self.before <= line && line < self.line
            }
        }
    }
}

// Whether a symbol may stand in a line: only where its bytes do.
#[tactic(auto, using(crate::proofs::MeantNames::none_in))]
fn may_stand_in(text: &[u8], symbol: &[u8]) -> bool
    ensures { result ≡ false → (line : ℕ) (span : Span) → means_written (SymbolMeant symbol.now) line (name_of (part text.now span)) ≡ false }
{
    memmem::find(text, symbol).is_some()
}

impl<'a> Meaning<'a> {
    /// Whether a name has this meaning that is written on a line, by its number from 1 on.
    pub fn is_meant(&self, line: u32, name: Written<'_>) -> bool
        ensures { result ≡ means (meant self.now) line (name_lent name.entry) }
    {
        match self {
            Meaning::Symbol(symbol) => match name {
                Written::Symbol(bytes) => bytes == *symbol,
                _ => false,
            },
            Meaning::Local(label) => label.is_meant(line, name),
        }
    }

    /// Whether a name with this meaning may stand in a line: a symbol stands only where its bytes do.
    pub fn may_stand_in(&self, text: &[u8]) -> bool
        ensures { result ≡ false → (line : ℕ) (span : Span) → means_written (meant self.now) line (name_of (part text.now span)) ≡ false }
    {
        match self {
            Meaning::Symbol(symbol) => may_stand_in(text, symbol),
            Meaning::Local(_) => true,
        }
    }
}
