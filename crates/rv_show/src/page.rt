//! Where reports go to, and how they look.

use crate::origins::LineMark;

/// Whether reports have colors.
#[derive(Clone, Copy, Debug, PartialEq, Eq)]
pub enum Style {
    /// They have none.
    Plain,
    /// `error:` is red, and the mark green.
    Colored,
}

/// How grave it is what a report says.
#[derive(Clone, Copy, Debug, PartialEq, Eq)]
pub enum Gravity {
    /// The line has a fault.
    Error,
    /// The line may not be what was meant.
    Warning,
}

/// Where the reports of a file go to, and how: its name, where its lines come from, and their style.
#[derive(Clone, Copy)]
pub struct Page<'a> {
    /// The name of the file, as it is shown.
    pub file: &'a [u8],
    /// The marks on its lines, in the order of the lines. The lines above the first one are those of the file.
    pub marks: &'a [LineMark<'a>],
    pub style: Style,
}
