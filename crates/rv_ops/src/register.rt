//! The registers.
ghost use Rattle.std.specs.Prelude.{◌≡◌, ℕ, ◌<◌, ◌↔◌, IsSome, IfSome};

use std::marker::Model;

/// A register, x0 to x31. A contract sees it as its number.
#[derive(Clone, Copy, Debug, PartialEq, Eq)]
pub struct Reg(u8);

impl Model for Reg {
    ghost Value = { ℕ };

    ghost view = { λ r. r.0 };

    ghost invariant = { λ r. r.0 < 32 };

    ghost inverse = { λ n. record { 0 = n } };
}

impl Reg {
    /// x0, which always reads as 0.
    pub const ZERO: Reg = Reg(0);

    /// The register of a number, if there is one.
    pub fn new(number: u8) -> Option<Reg>
        ensures exists { IsSome result ↔ (number < 32) }
        ensures value { IfSome result (λ r. r ≡ number) }
    {
        if number < 32 { Some(Reg(number)) } else { None }
    }

    /// The register's number.
    pub fn number(self) -> u8
        ensures value { result ≡ self }
        ensures below { result < 32 }
    {
        self.0
    }
}
