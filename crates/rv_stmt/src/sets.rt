//! The sets of fences.

ghost use Rattle.std.specs.Prelude.{◌≡◌, map};
ghost use Rattle.std.specs.Option.{option_map};
ghost use Rattle.rv_ops.specs.Names.{first_name};
ghost use Rattle.rv_stmt.specs.Registers.{set, set_name, set_named};

use crate::reading::Reading;
use crate::token_range::TokenRange;
use rv_ops::{Reg, first_named};
use rv_text::FaultNumber;

/// Each set with its bits: RISC-V Unprivileged ISA 20191213, section 2.7.
pub const SETS: [(u8, &str); 15] = [
    (1, "w"),
    (2, "r"),
    (3, "rw"),
    (4, "o"),
    (5, "ow"),
    (6, "or"),
    (7, "orw"),
    (8, "i"),
    (9, "iw"),
    (10, "ir"),
    (11, "irw"),
    (12, "io"),
    (13, "iow"),
    (14, "ior"),
    (15, "iorw"),
];

// The set of a name, as the number of a register.
#[tactic(auto, unfolding(crate::specs::Registers::set_names, crate::specs::Registers::set_named))]
fn set_named(name: &[u8]) -> Option<Reg>
    ensures { result ≡ set_named name.now }
{
    first_named(&SETS, name).and_then(Reg::new)
}

/// The set that some tokens spell, as the number of a register, in whose field a fence keeps it.
pub fn set(run: &TokenRange<'_>) -> Reading<Reg>
    ensures { result ≡ set run.now }
{
    let set = run.one_identifier().and_then(set_named);
    set.ok_or(FaultNumber::BadOperand)
}

// The name in the first row that has the number.
fn first_name(mut rows: &[(u8, &'static str)], number: u8) -> Option<&'static str>
    ensures { option_map (λ name. name.now) result ≡ first_name (map (λ row. (row.0, row.1.now)) rows.entry.now) number }
{
    while let [row, rest @ ..] = rows {
        if row.0 == number {
            return Some(row.1);
        }
        rows = rest;
    }
    None
}

/// The name of the set for which the number of a register stands: 1 to 15 have one.
#[tactic(auto, unfolding(crate::specs::Registers::set_names, crate::specs::Registers::set_name))]
pub fn set_name(set: Reg) -> Option<&'static str>
    ensures { option_map (λ name. name.now) result ≡ set_name set }
{
    first_name(&SETS, set.number())
}
