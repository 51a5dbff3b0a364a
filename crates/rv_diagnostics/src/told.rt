//! What messages about a text need beside what is shown of it.

ghost use Rattle.std.specs.Prelude.{◌≡◌, ◌≤◌, length};

use rv_expr::Names;
use rv_list::View;

/// A text whose lines can tell what names give in them.
pub trait Told: View {
    ghost use Rattle.std.specs.Prelude.{ℕ};
    ghost use Rattle.rv_expr.specs.Value.{Environment};

    /// What names give on a line, by its number, where `.` is an address.
    ghost environments: { Self → ℕ → ℕ → Environment };

    /// What names give on a line.
    type Given: Names + Drop;

    /// What names give on line number `number`, from 1 on. There has to be one.
    fn given(&self, number: u32) -> Self::Given
        requires first { 1 ≤ number }
        requires last { number ≤ (Self.shown self.now).count }
        ensures { Self.Given.environment result ≡ environments self.now number };

    /// The bytes of line number `number`. There has to be one.
    fn text(&self, number: u32) -> &[u8]
        requires first { 1 ≤ number }
        requires last { number ≤ (Self.shown self.now).count }
        ensures value { result.now ≡ ((Self.shown self.now).line number).text }
        ensures few { length result.now ≤ 1000 };
}
