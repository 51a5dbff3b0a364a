//! The modifiers of expressions.

ghost use Rattle.std.specs.Prelude.{◌≡◌};
ghost use Rattle.rv_stmt.specs.Values.{modifier_named, takes_modifier};

use rv_ops::{Shape, first_named};

/// A modifier of an expression, written `%name(expression)`.
#[derive(Clone, Copy)]
pub enum Modifier {
    /// `%hi`
    High,
    /// `%lo`
    Low,
    /// `%pcrel_hi`
    PcrelHigh,
    /// `%pcrel_lo`
    PcrelLow,
}

/// Each modifier with its name.
pub const MODIFIERS: [(Modifier, &str); 4] = [
    (Modifier::High, "hi"),
    (Modifier::Low, "lo"),
    (Modifier::PcrelHigh, "pcrel_hi"),
    (Modifier::PcrelLow, "pcrel_lo"),
];

/// The modifier of a name, which is read in either letter case.
#[tactic(auto, unfolding(crate::specs::Values::modifier_names, crate::specs::Values::modifier_named))]
pub fn modifier_named(name: &[u8]) -> Option<Modifier>
    ensures { result ≡ modifier_named name.now }
{
    first_named(&MODIFIERS, name)
}

/// Whether instructions of a shape take the modifier.
pub fn takes_modifier(shape: Shape, modifier: Modifier) -> bool
    ensures { result ≡ takes_modifier shape modifier }
{
    match modifier {
        Modifier::High | Modifier::PcrelHigh => shape == Shape::Upper,
        Modifier::Low | Modifier::PcrelLow => matches!(
            shape,
            Shape::JumpRegister | Shape::Load | Shape::Store | Shape::Immediate
        ),
    }
}
