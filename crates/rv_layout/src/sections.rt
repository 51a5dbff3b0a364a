//! The sections by their numbers, and those of code.

ghost use Rattle.std.specs.Prelude.{◌≡◌, ◌<◌};
ghost use Rattle.rv_layout.specs.Sections.{is_code, section_number, sections};

use rv_stmt::Sect;

/// How many sections there are.
pub const SECTIONS: usize = 6;

/// The sections of code, in the order of their numbers. Instructions pad them, and they are disassembled.
pub const CODE_SECTIONS: [Sect; 2] = [Sect::Init, Sect::Text];

/// Whether a section is one of code.
pub fn is_code(section: Sect) -> bool
    ensures { result ≡ is_code section }
{
    CODE_SECTIONS.contains(&section)
}

/// The number of a section, from 0 on, in the order in which the sections lie in memory.
pub fn section_number(section: Sect) -> usize
    ensures value { result ≡ section_number section }
    ensures below { result < sections }
{
    match section {
        Sect::Init => 0,
        Sect::Text => 1,
        Sect::Rodata => 2,
        Sect::Rwdata => 3,
        Sect::Sdata => 4,
        Sect::Bss => 5,
    }
}
