//! The formats of output.

/// A format in which a text is written.
#[derive(Clone, Copy)]
pub enum Format {
    /// The bytes of memory, from the base on.
    Bin,
    /// Intel HEX.
    Hex,
    /// ELF of 32 bits, with symbols.
    Elf,
    /// The image, as the editor's command shows it.
    Image,
}

/// The formats by their names.
pub const FORMATS: [&str; 4] = ["bin", "hex", "elf", "image"];

// The formats by the endings of files.
const ENDINGS: [(&str, Format); 4] = [
    (".bin", Format::Bin),
    (".hex", Format::Hex),
    (".ihex", Format::Hex),
    (".elf", Format::Elf),
];

// Whether a name ends with an ending, in letters of either case.
fn has_ending(name: &str, ending: &str) -> bool {
    let bytes = name.as_bytes();
    let (_, last) = bytes.split_at(bytes.len().saturating_sub(ending.len()));
    last.eq_ignore_ascii_case(ending.as_bytes())
}

impl Format {
    /// The format of a name.
    pub fn named(name: &str) -> Option<Format> {
        match name {
            "bin" => Some(Format::Bin),
            "hex" => Some(Format::Hex),
            "elf" => Some(Format::Elf),
            "image" => Some(Format::Image),
            _ => None,
        }
    }

    /// Whether it is text, which a terminal can show.
    pub fn is_text(self) -> bool {
        matches!(self, Format::Hex | Format::Image)
    }

    /// The format of a file by its ending, in letters of either case. Other endings mean the bytes of memory.
    pub fn of_file(name: &str) -> Format {
        for (ending, format) in &ENDINGS {
            if has_ending(name, ending) {
                return *format;
            }
        }
        Format::Bin
    }
}
