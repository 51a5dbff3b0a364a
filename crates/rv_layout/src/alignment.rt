//! Alignments.

ghost use Rattle.std.specs.Prelude.{◌≡◌, ◌≤◌, ◌↔◌, IsSome, IfSome};

use std::marker::Model;

/// An alignment: a power of two from 1 to 4096. A contract sees the exponent.
#[derive(Clone, Copy, Debug, PartialEq, Eq)]
pub struct Alignment(u8);

impl Model for Alignment {
    ghost use Rattle.std.specs.Prelude.{ℕ, ◌≤◌};

    ghost Value = { ℕ };

    ghost view = { λ a. a.0 };

    ghost invariant = { λ a. a.0 ≤ 12 };

    ghost inverse = { λ n. record { 0 = n } };
}

impl Alignment {
    /// The alignment with this exponent, if it is at most 4096.
    pub fn new(exponent: u8) -> Option<Alignment>
        ensures exists { IsSome result ↔ (exponent ≤ 12) }
        ensures value { IfSome result (λ a. a ≡ exponent) }
    {
        if exponent <= 12 {
            Some(Alignment(exponent))
        } else {
            None
        }
    }

    /// The exponent, from 0 to 12.
    pub fn exponent(self) -> u8
        ensures value { result ≡ self }
        ensures bound { result ≤ 12 }
    {
        self.0
    }
}
