//! The control and status registers.
ghost use Rattle.std.specs.Prelude.{◌≡◌, ℕ, ◌<◌, ◌↔◌, IsSome, IfSome};

use std::marker::Model;

/// The number of a control and status register, of twelve bits. A contract sees it as this number.
#[derive(Clone, Copy, Debug, PartialEq, Eq)]
pub struct Csr(u16);

impl Model for Csr {
    ghost Value = { ℕ };

    ghost view = { λ c. c.0 };

    ghost invariant = { λ c. c.0 < 4096 };

    ghost inverse = { λ n. record { 0 = n } };
}

impl Csr {
    /// The control and status register of a number, if there is one.
    pub fn new(number: u16) -> Option<Csr>
        ensures exists { IsSome result ↔ (number < 4096) }
        ensures value { IfSome result (λ c. c ≡ number) }
    {
        if number < 4096 {
            Some(Csr(number))
        } else {
            None
        }
    }

    /// The register's number.
    pub fn number(self) -> u16
        ensures value { result ≡ self }
        ensures below { result < 4096 }
    {
        self.0
    }
}
