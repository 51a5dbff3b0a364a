//! Names of files and of other things, as they are shown.

use rv_show::is_visible;
use std::fmt::{self, Display, Formatter};

/// A name as it is shown: a dot for each byte of a character that is not shown in lines either.
#[derive(Clone, Copy)]
pub struct Shown<'a>(pub &'a str);

impl Display for Shown<'_> {
    fn fmt<W: fmt::Write>(&self, f: &mut Formatter<W>) -> fmt::Result {
        for character in self.0.chars() {
            if is_visible(character) {
                f.write_char(character)?;
            } else {
                f.write_str(dots_of(character))?;
            }
        }
        Ok(())
    }
}

// A dot for each byte of a character.
fn dots_of(character: char) -> &'static str {
    match character.len_utf8() {
        1 => ".",
        2 => "..",
        3 => "...",
        _ => "....",
    }
}

/// Why there is no file of a name that was not text (`words`).
pub const NOT_TEXT: &str = "its name is not UTF-8";

/// Whether a name was text when it was given.
pub fn was_text(name: &str) -> bool {
    !name.contains('\0')
}

/// The name of a file that is read, as it is shown.
pub fn shown_file(name: &str) -> Shown<'_> {
    Shown(if name == "-" { "<stdin>" } else { name })
}
