//! The lines of a document, one after another.

ghost use Rattle.std.specs.Prelude.{◌≡◌, ◌∷◌, [], ◌==◌, false, IfSome, IfNone, length, drop, ◌≤◌};
ghost use Rattle.std.specs.List.{list_any};
ghost use Rattle.rv_doc.specs.Positions.{lines_of};

use memchr::memchr;
use std::marker::Model;

/// The lines of a document that are left to take. Contracts see the list of them.
#[derive(Drop)]
pub struct Lines<'a> {
    rest: Option<&'a [u8]>,
}

impl<'a> Model for Lines<'a> {
    ghost use Rattle.std.specs.Prelude.{ℕ, List};
    ghost use Rattle.std.specs.Option.{option_map};
    ghost use Rattle.rv_doc.specs.LinesLeft.{lines_left};

    ghost Value = { List (List ℕ) };

    ghost view = { λ l. lines_left (option_map (λ r. r.now) l.rest) };
}

impl<'a> Lines<'a> {
    /// All lines of a document.
    pub fn new(text: &'a [u8]) -> Lines<'a>
        ensures { result ≡ lines_of text.entry.now }
    {
        Lines { rest: Some(text) }
    }

    /// Takes the first line, without its line break, if one is left.
    pub fn next_line(&mut self) -> Option<&'a [u8]>
        ensures line { IfSome result (λ line. self.old ≡ line.now ∷ self.new) }
        ensures unbroken { IfSome result (λ line. list_any (λ b. b == 10) line.now ≡ false) }
        ensures end { IfNone result (self.old ≡ []) }
        ensures ended { IfNone result (self.new ≡ []) }
    {
        let rest = self.rest?;
        let Some(at) = memchr(b'\n', rest) else {
            self.rest = None;
            return Some(rest);
        };
        let (line, ended) = rest.split_at(at);
        let (_, later) = ended.split_at(1);
        self.rest = Some(later);
        Some(line)
    }

    /// Those behind so many of them.
    pub fn behind(mut self, count: usize) -> Lines<'a>
        ensures { result ≡ drop count self.entry }
    {
        let mut left = count;
        'lines: while left > 0 {
            let Some(_) = self.next_line() else {
                return self;
            };
            left -= 1;
        }
        self
    }
}
