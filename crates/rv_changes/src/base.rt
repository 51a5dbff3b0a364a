//! Where the first section begins.

ghost use Rattle.std.specs.Prelude.{◌≡◌, ◌↔◌, true, IsSome, IfSome};
ghost use Rattle.rv_layout.specs.Places.{is_base};

use rv_store::base_ok;
use rv_text::number;
use serde_json::Value;
use std::marker::Model;

/// The address at which the first section begins: a multiple of 4096, at most 0x80000000. A contract sees the address.
#[derive(Clone, Copy)]
pub struct Base(u32);

impl Model for Base {
    ghost use Rattle.std.specs.Prelude.{◌≡◌, ℕ, true};
    ghost use Rattle.rv_layout.specs.Places.{is_base};

    ghost Value = { ℕ };

    ghost view = { λ b. b.0 };

    ghost invariant = { λ b. is_base b.0 ≡ true };

    ghost inverse = { λ n. record { 0 = n } };
}

impl Base {
    /// The base where no other one is given: 0.
    pub fn zero() -> Base
        ensures { result ≡ 0 }
    {
        Base(0)
    }

    /// The base at this address, if one may be there.
    pub fn new(address: u32) -> Option<Base>
        ensures exists { IsSome result ↔ (is_base address ≡ true) }
        ensures value { IfSome result (λ base. base ≡ address) }
    {
        if base_ok(address) {
            Some(Base(address))
        } else {
            None
        }
    }

    /// The address.
    pub fn address(self) -> u32
        ensures value { result ≡ self }
        ensures right { is_base result ≡ true }
    {
        self.0
    }
}

// The number that a value of JSON is, or spells as the language does.
fn number_in(value: &Value) -> Option<i64> {
    match value {
        Value::String(text) => number(text.as_bytes()),
        _ => value.as_i64(),
    }
}

/// The base that the options of `initialize` ask for: 0 where they name none, and nothing where what they name is no base.
pub fn base_in(message: &Value) -> Option<Base> {
    match message.pointer("/params/initializationOptions/base") {
        None | Some(Value::Null) => Some(Base::zero()),
        Some(value) => Base::new(u32::try_from(number_in(value)?).ok()?),
    }
}
