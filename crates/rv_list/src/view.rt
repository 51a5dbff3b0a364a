//! What a text has to tell for it to be shown.

ghost use Rattle.std.specs.Prelude.{◌≡◌, ℕ, ◌+◌, ◌≤◌, ◌<◌, [], false, length};
ghost use Rattle.rv_layout.specs.Sections.{sections};
ghost use Rattle.rv_list.specs.Faults.{faults_of};
ghost use Rattle.rv_list.specs.Shown.{Shown, shown_line, is_label, is_equ, shows_bytes};

use rv_fix::Coded;
use rv_layout::section_number;
use rv_stmt::{Sect, Stmt};

/// Where a line lies, and how many bytes it has there.
#[derive(Clone, Copy, Debug, PartialEq, Eq)]
pub struct LinePlace {
    pub section: Sect,
    pub address: u32,
    pub size: u32,
}

/// Where a section lies, and how many bytes it has there.
#[derive(Clone, Copy, Debug, PartialEq, Eq)]
pub struct SectionPlace {
    pub base: u32,
    pub size: u32,
}

/// Where the definition of a name stands: its first one in the text.
#[derive(Clone, Copy, Debug, PartialEq, Eq)]
pub enum DefinitionPlace {
    /// There is none.
    Nowhere,
    /// A label, by its line and its number among the labels of the line, from 0 on.
    Label(u32, u32),
    /// An `.equ`, by its line.
    Equ(u32),
}

impl DefinitionPlace {
    /// Whether it is the label of this number on this line.
    pub fn is_label(self, line: u32, index: u32) -> bool
        ensures { result ≡ is_label line index self }
    {
        match self {
            DefinitionPlace::Label(l, i) => l == line && i == index,
            DefinitionPlace::Nowhere | DefinitionPlace::Equ(_) => false,
        }
    }

    /// Whether it is the `.equ` of this line.
    pub fn is_equ(self, line: u32) -> bool
        ensures { result ≡ is_equ line self }
    {
        match self {
            DefinitionPlace::Equ(l) => l == line,
            DefinitionPlace::Nowhere | DefinitionPlace::Label(_, _) => false,
        }
    }
}

/// Whether the bytes of a section are shown, by its number. `.bss` has none.
pub(crate) fn shows_bytes(section: usize) -> bool
    ensures { result ≡ shows_bytes section }
{
    section != section_number(Sect::Bss)
}

/// A line as a view hands it out.
#[derive(Clone, Copy)]
pub struct LineView<'a> {
    /// Its bytes.
    pub text: &'a [u8],
    pub stmt: &'a Stmt,
    pub place: LinePlace,
    /// Its bytes in the image, and the fault of its body.
    pub code: &'a Coded,
}

/// The lines of a text, one after another, from the first one on.
pub trait LineSource: Drop {
    /// The text.
    ghost shown: { Self → Shown };

    /// How many of its lines were passed.
    ghost passed: { Self → ℕ };

    /// Goes on to the next line. There has to be one.
    fn advance(&mut self)
        requires { passed self.old < (shown self.old).count }
        ensures text { shown self.new ≡ shown self.old }
        ensures passed { passed self.new ≡ passed self.old + 1 };

    /// The line that was passed last. There has to be one; a line has at most 1,000 labels.
    fn line(&self) -> LineView<'_>
        requires { 1 ≤ passed self.now }
        ensures value { shown_line result ≡ (shown self.now).line (passed self.now) }
        ensures few { length result.stmt.now.labels ≤ 1000 };
}

/// Lines that can tell whether they may have faults without being looked at.
pub trait TestedLines: LineSource {
    /// Whether the line that was passed last may have faults. There has to be one.
    fn may_have_faults(&self) -> bool
        requires { 1 ≤ Self.passed self.now }
        ensures { result ≡ false → faults_of (Self.shown self.now) (Self.passed self.now) ((Self.shown self.now).line (Self.passed self.now)) ≡ [] };
}

/// A text that can be shown. Its lines are counted from 1; its sections have numbers, from 0 on, in the order in which they
/// lie in memory.
pub trait View {
    /// What is shown.
    ghost shown: { Self → Shown };

    /// Its lines in order.
    type Lines: LineSource;

    /// How many lines there are: at most 16,384.
    fn line_count(&self) -> u32
        ensures value { result ≡ (shown self.now).count }
        ensures few { result ≤ 16384 };

    /// The lines, from the first one on.
    fn lines(&self) -> Self::Lines
        ensures text { Self.Lines.shown result ≡ shown self.now }
        ensures first { Self.Lines.passed result ≡ 0 };

    /// Where a section lies, by its number.
    fn section(&self, section: usize) -> SectionPlace
        requires { section < sections }
        ensures { result ≡ (shown self.now).section section };

    /// Where a name is defined.
    fn definition(&self, name: &[u8]) -> DefinitionPlace
        ensures { result ≡ (shown self.now).definition name.now };

    /// The value of a name that is defined by an `.equ`, if it has one.
    fn value(&self, name: &[u8]) -> Option<i64>
        ensures { result ≡ (shown self.now).value name.now };
}
