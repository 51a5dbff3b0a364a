//! The sections of the image.

ghost use Rattle.std.specs.Prelude.{◌≡◌, map};
ghost use Rattle.rv_stmt.specs.Sections.{first_beginning, section_named};

/// A section of the image.
#[derive(Clone, Copy, Debug, PartialEq, Eq)]
pub enum Sect {
    /// `.text.init`: the instructions that run first.
    Init,
    /// `.text`: instructions.
    Text,
    /// `.rodata`: data that are only read.
    Rodata,
    /// `.data`: data that are read and written.
    Rwdata,
    /// `.sdata`: small data that are read and written.
    Sdata,
    /// `.bss`: zeros.
    Bss,
}

/// The columns: what the name of a section begins with, and the section that lines are put into. The first row that fits
/// counts.
pub const SECTION_NAMES: [(&str, Sect); 8] = [
    (".text.init", Sect::Init),
    (".text", Sect::Text),
    (".rodata", Sect::Rodata),
    (".srodata", Sect::Rodata),
    (".data", Sect::Rwdata),
    (".sdata", Sect::Sdata),
    (".bss", Sect::Bss),
    (".sbss", Sect::Bss),
];

// What stands beside the first of the texts that a name begins with.
fn first_beginning(mut rows: &[(&str, Sect)], name: &[u8]) -> Option<Sect>
    ensures { result ≡ first_beginning (map (λ row. (row.0.now, row.1)) rows.entry.now) name.now }
{
    while let [row, rest @ ..] = rows {
        if name.starts_with(row.0.as_bytes()) {
            return Some(row.1);
        }
        rows = rest;
    }
    None
}

/// The section of a name, which keeps its letter case.
#[tactic(auto, unfolding(crate::specs::Sections::section_names, crate::specs::Sections::section_named))]
pub fn section_named(name: &[u8]) -> Option<Sect>
    ensures { result ≡ section_named name.now }
{
    first_beginning(&SECTION_NAMES, name)
}
