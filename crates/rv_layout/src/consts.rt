//! The constants that a line sees.

ghost use Rattle.std.specs.Prelude.{◌≡◌, ℕ, ℤ, List, Option};

/// The constants that one line of a text sees: a name is a constant where its first definition is an `.equ` on an earlier
/// line, whose value is itself a constant.
pub trait Consts {
    /// The constant that a name is, if it is one.
    ghost constant_of: { Self → List ℕ → Option ℤ };

    /// The value of the constant that a name is, if it is one.
    fn constant(&self, name: &[u8]) -> Option<i64>
        ensures { result ≡ constant_of self.now name.now };
}
