//! The lines of a file.

ghost use Rattle.std.specs.Prelude.{◌≡◌, ◌∷◌, [], false, IfSome, IfNone};
ghost use Rattle.std.specs.List.{list_any};
ghost use Rattle.rv_files.specs.Lines.{is_line_break, lines_of};

use memchr::memchr;
use std::marker::Model;

/// The lines of a file that are left to take. A line break, 0x0A, ends each; what stands after the last one is a line if it is not
/// empty. Contracts see the list of them.
#[derive(Drop)]
pub struct Lines<'a> {
    rest: &'a [u8],
}

impl<'a> Model for Lines<'a> {
    ghost use Rattle.std.specs.Prelude.{ℕ, List};
    ghost use Rattle.rv_files.specs.Lines.{lines_of};

    ghost Value = { List (List ℕ) };

    ghost view = { λ l. lines_of l.rest.now };
}

impl<'a> Lines<'a> {
    /// All lines of the file.
    pub fn new(file: &'a [u8]) -> Lines<'a>
        ensures { result ≡ lines_of file.entry.now }
    {
        Lines { rest: file }
    }

    /// Takes the first line, without its line break, if one is left.
    pub fn next_line(&mut self) -> Option<&'a [u8]>
        ensures line { IfSome result (λ line. self.old ≡ line.now ∷ self.new) }
        ensures unbroken { IfSome result (λ line. list_any is_line_break line.now ≡ false) }
        ensures end { IfNone result (self.old ≡ []) }
    {
        if self.rest.is_empty() {
            return None;
        }
        let Some(at) = memchr(b'\n', self.rest) else {
            let last = self.rest;
            self.rest = b"";
            return Some(last);
        };
        let (line, ended) = self.rest.split_at(at);
        let (_, rest) = ended.split_at(1);
        self.rest = rest;
        Some(line)
    }
}
