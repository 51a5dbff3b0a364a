//! The sizes that constants give.

ghost use Rattle.std.specs.Prelude.{◌≡◌, ◌≤◌};
ghost use Rattle.rv_layout.specs.Shapes.{is_loadable, with_value, load_size, fill_size, exponents, exponent_among, alignment_exponent, exponent_by_role};

use crate::alignment::Alignment;
use rv_code::Fields;
use rv_stmt::{AlignmentUnit, Instruction, Role, instructions_of, signed_word};

/// Whether a register can be loaded with a number: it is from -2^31 to 2^32 - 1.
pub fn is_loadable(value: i64) -> bool
    ensures { result ≡ is_loadable value }
{
    -0x8000_0000 <= value && value <= 0xFFFF_FFFF
}

/// The fields of an instruction with a value, of which they hold 32 bits with a sign.
pub fn with_value(value: i64, fields: &Fields) -> Fields
    ensures { result ≡ with_value value fields.now }
{
    Fields {
        rd: fields.rd,
        rs1: fields.rs1,
        rs2: fields.rs2,
        value: signed_word(value),
    }
}

/// How many bytes load a constant, if a register can be loaded with it.
pub(crate) fn load_size(instruction: &Instruction, value: i64) -> Option<u32>
    ensures { result ≡ load_size instruction.now value }
{
    if !is_loadable(value) {
        return None;
    }
    let fields = with_value(value, &instruction.fields);
    Some(instructions_of(instruction, &fields).size())
}

/// How many bytes are filled, if they are 0 to 65,536.
pub fn fill_size(value: i64) -> Option<u32>
    ensures { result ≡ fill_size value }
{
    if 0 <= value && value <= 65536 {
        Some(value.unsigned_abs() as u32)
    } else {
        None
    }
}

// The exponent of a power of two from 1 to 4096.
fn exponent_of(bytes: i64) -> Option<u8>
    ensures { result ≡ exponent_among exponents bytes }
{
    match bytes {
        1 => Some(0),
        2 => Some(1),
        4 => Some(2),
        8 => Some(3),
        16 => Some(4),
        32 => Some(5),
        64 => Some(6),
        128 => Some(7),
        256 => Some(8),
        512 => Some(9),
        1024 => Some(10),
        2048 => Some(11),
        4096 => Some(12),
        _ => None,
    }
}

// The exponent of an alignment to 1 to 4096 bytes.
fn alignment_exponent(unit: AlignmentUnit, value: i64) -> Option<u8>
    ensures { result ≡ alignment_exponent unit value }
{
    match unit {
        AlignmentUnit::Bytes => exponent_of(value),
        AlignmentUnit::Exponent if 0 <= value && value <= 12 => Some(value.unsigned_abs() as u8),
        AlignmentUnit::Exponent => None,
    }
}

/// The alignment to 1 to 4096 bytes that a number says in this role.
pub fn alignment_by_role(role: Role, value: i64) -> Option<Alignment>
    ensures { result ≡ exponent_by_role role value }
{
    match role {
        Role::Alignment(unit) => Alignment::new(alignment_exponent(unit, value)?),
        _ => None,
    }
}
