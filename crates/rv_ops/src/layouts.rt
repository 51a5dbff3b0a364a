//! The layouts of the encodings, by shape.

use crate::op::Shape;
use crate::value_limits::Limits;

/// A field of an instruction.
#[derive(Clone, Copy, Debug, PartialEq, Eq)]
pub enum Field {
    /// The destination register.
    Rd,
    /// The first source register.
    Rs1,
    /// The second source register.
    Rs2,
    /// The value: an immediate, an offset, a shift amount, or the number of a control and status register.
    Value,
}

/// The registers that a field takes.
#[derive(Clone, Copy, Debug, PartialEq, Eq)]
pub enum RegisterClass {
    /// The shape has no such field: x0 stands for it.
    Absent,
    /// x0 to x31.
    Any,
    /// Any but x0.
    NotZero,
    /// Any but x0 and x2.
    NotSp,
    /// x8 to x15, in three bits.
    Prime,
    /// The four bits of a set of a fence, of which one at least is there.
    Set,
}

/// The registers that the fields of a shape take.
#[derive(Clone, Copy, Debug, PartialEq, Eq)]
pub struct Classes {
    /// The class of the destination register.
    pub rd: RegisterClass,
    /// The class of the first source register.
    pub rs1: RegisterClass,
    /// The class of the second source register.
    pub rs2: RegisterClass,
}

/// How the sign of a value is read back: a number in the encoding above the greatest stands for itself less the
/// modulus.
#[derive(Clone, Copy, Debug, PartialEq, Eq)]
pub struct SignExtension {
    /// The greatest number that stands for itself.
    pub greatest: i32,
    /// What is taken from a number above it: 2 to the power of the field's width where the field has a sign.
    pub modulus: i32,
}

/// Some bits of a field, and where they stand in the encoding.
#[derive(Clone, Copy, Debug, PartialEq, Eq)]
pub struct FieldSlice {
    /// The field.
    pub field: Field,
    /// The lowest of the bits in the field.
    pub field_bit: u32,
    /// How many bits.
    pub width: u32,
    /// The lowest of the bits in the encoding.
    pub word_bit: u32,
}

/// What the table of the layouts says of a shape.
#[derive(Clone, Copy)]
pub struct Layout {
    /// The classes of the registers.
    pub registers: Classes,
    /// The limits of the value.
    pub limits: Limits,
    /// The sign of the value.
    pub sign: SignExtension,
    /// The slices of the fields that fill the encoding.
    pub slices: &'static [FieldSlice],
}

/// The layout of a shape as it stands in the table: the shape, the classes of its registers, the limits of its
/// value, the sign of the value, and the slices of its fields.
pub type LayoutRow = (Shape, Classes, Limits, SignExtension, &'static [FieldSlice]);

/// The classes of rd, rs1 and rs2.
macro_rules! registers {
    ($rd:ident, $rs1:ident, $rs2:ident) => {
        Classes {
            rd: RegisterClass::$rd,
            rs1: RegisterClass::$rs1,
            rs2: RegisterClass::$rs2,
        }
    };
}

/// From a value to a value, in steps of a number, without those of a gap.
macro_rules! limits {
    ($least:literal to $greatest:literal) => {
        limits!($least to $greatest by 1)
    };
    ($least:literal to $greatest:literal by $multiple:literal) => {
        limits!($least to $greatest by $multiple without 1 to 0)
    };
    ($least:literal to $greatest:literal by $multiple:literal without $first:literal to $last:literal) => {
        Limits {
            least: $least,
            greatest: $greatest,
            multiple: $multiple,
            gap_first: $first,
            gap_last: $last,
        }
    };
}

/// A number in the encoding above the greatest stands for itself less the modulus.
macro_rules! sign {
    ($greatest:literal less $modulus:literal) => {
        SignExtension {
            greatest: $greatest,
            modulus: $modulus,
        }
    };
}

/// Bits of a field, and the bit of the encoding at which the lowest of them stands.
macro_rules! slice {
    ($field:ident[$highest:literal : $lowest:literal] at $word_bit:literal) => {
        FieldSlice {
            field: Field::$field,
            field_bit: $lowest,
            width: $highest - $lowest + 1,
            word_bit: $word_bit,
        }
    };
}

/// The layout of each shape, in the order of the shapes: RISC-V Unprivileged ISA 20191213, sections 2.2 to 2.8,
/// 8.2, 8.4, 9.1 and 16.2 to 16.5. The columns are the shape, the classes of rd, rs1 and rs2, the limits of the value, its
/// sign, and the slices of the fields that fill the encoding.
pub const LAYOUTS: [LayoutRow; 33] = [
    (
        Shape::Upper,
        registers!(Any, Absent, Absent),
        limits!(0 to 1048575),
        sign!(1048575 less 0),
        &[slice!(Rd[4:0] at 7), slice!(Value[19:0] at 12)],
    ),
    (
        Shape::Jump,
        registers!(Any, Absent, Absent),
        limits!(-1048576 to 1048574 by 2),
        sign!(1048574 less 2097152),
        &[
            slice!(Rd[4:0] at 7),
            slice!(Value[19:12] at 12),
            slice!(Value[11:11] at 20),
            slice!(Value[10:1] at 21),
            slice!(Value[20:20] at 31),
        ],
    ),
    (
        Shape::JumpRegister,
        registers!(Any, Any, Absent),
        limits!(-2048 to 2047),
        sign!(2047 less 4096),
        &[
            slice!(Rd[4:0] at 7),
            slice!(Rs1[4:0] at 15),
            slice!(Value[11:0] at 20),
        ],
    ),
    (
        Shape::Branch,
        registers!(Absent, Any, Any),
        limits!(-4096 to 4094 by 2),
        sign!(4094 less 8192),
        &[
            slice!(Value[11:11] at 7),
            slice!(Value[4:1] at 8),
            slice!(Rs1[4:0] at 15),
            slice!(Rs2[4:0] at 20),
            slice!(Value[10:5] at 25),
            slice!(Value[12:12] at 31),
        ],
    ),
    (
        Shape::Load,
        registers!(Any, Any, Absent),
        limits!(-2048 to 2047),
        sign!(2047 less 4096),
        &[
            slice!(Rd[4:0] at 7),
            slice!(Rs1[4:0] at 15),
            slice!(Value[11:0] at 20),
        ],
    ),
    (
        Shape::Store,
        registers!(Absent, Any, Any),
        limits!(-2048 to 2047),
        sign!(2047 less 4096),
        &[
            slice!(Value[4:0] at 7),
            slice!(Rs1[4:0] at 15),
            slice!(Rs2[4:0] at 20),
            slice!(Value[11:5] at 25),
        ],
    ),
    (
        Shape::Immediate,
        registers!(Any, Any, Absent),
        limits!(-2048 to 2047),
        sign!(2047 less 4096),
        &[
            slice!(Rd[4:0] at 7),
            slice!(Rs1[4:0] at 15),
            slice!(Value[11:0] at 20),
        ],
    ),
    (
        Shape::Shift,
        registers!(Any, Any, Absent),
        limits!(0 to 31),
        sign!(31 less 0),
        &[
            slice!(Rd[4:0] at 7),
            slice!(Rs1[4:0] at 15),
            slice!(Value[4:0] at 20),
        ],
    ),
    (
        Shape::Register,
        registers!(Any, Any, Any),
        limits!(0 to 0),
        sign!(0 less 0),
        &[
            slice!(Rd[4:0] at 7),
            slice!(Rs1[4:0] at 15),
            slice!(Rs2[4:0] at 20),
        ],
    ),
    (
        Shape::Csr,
        registers!(Any, Any, Absent),
        limits!(0 to 4095),
        sign!(4095 less 0),
        &[
            slice!(Rd[4:0] at 7),
            slice!(Rs1[4:0] at 15),
            slice!(Value[11:0] at 20),
        ],
    ),
    (
        Shape::CsrImmediate,
        registers!(Any, Any, Absent),
        limits!(0 to 4095),
        sign!(4095 less 0),
        &[
            slice!(Rd[4:0] at 7),
            slice!(Rs1[4:0] at 15),
            slice!(Value[11:0] at 20),
        ],
    ),
    (
        Shape::Fence,
        registers!(Absent, Set, Set),
        limits!(0 to 0),
        sign!(0 less 0),
        &[slice!(Rs2[3:0] at 20), slice!(Rs1[3:0] at 24)],
    ),
    (
        Shape::Whole,
        registers!(Absent, Absent, Absent),
        limits!(0 to 0),
        sign!(0 less 0),
        &[],
    ),
    (
        Shape::LoadReserved,
        registers!(Any, Any, Absent),
        limits!(0 to 0),
        sign!(0 less 0),
        &[slice!(Rd[4:0] at 7), slice!(Rs1[4:0] at 15)],
    ),
    (
        Shape::Atomic,
        registers!(Any, Any, Any),
        limits!(0 to 0),
        sign!(0 less 0),
        &[
            slice!(Rd[4:0] at 7),
            slice!(Rs1[4:0] at 15),
            slice!(Rs2[4:0] at 20),
        ],
    ),
    (
        Shape::CStackAddress,
        registers!(Prime, Absent, Absent),
        limits!(4 to 1020 by 4),
        sign!(1020 less 0),
        &[
            slice!(Rd[2:0] at 2),
            slice!(Value[3:3] at 5),
            slice!(Value[2:2] at 6),
            slice!(Value[9:6] at 7),
            slice!(Value[5:4] at 11),
        ],
    ),
    (
        Shape::CLoad,
        registers!(Prime, Prime, Absent),
        limits!(0 to 124 by 4),
        sign!(124 less 0),
        &[
            slice!(Rd[2:0] at 2),
            slice!(Value[6:6] at 5),
            slice!(Value[2:2] at 6),
            slice!(Rs1[2:0] at 7),
            slice!(Value[5:3] at 10),
        ],
    ),
    (
        Shape::CStore,
        registers!(Absent, Prime, Prime),
        limits!(0 to 124 by 4),
        sign!(124 less 0),
        &[
            slice!(Rs2[2:0] at 2),
            slice!(Value[6:6] at 5),
            slice!(Value[2:2] at 6),
            slice!(Rs1[2:0] at 7),
            slice!(Value[5:3] at 10),
        ],
    ),
    (
        Shape::CWhole,
        registers!(Absent, Absent, Absent),
        limits!(0 to 0),
        sign!(0 less 0),
        &[],
    ),
    (
        Shape::CImmediate,
        registers!(NotZero, Absent, Absent),
        limits!(-32 to 31 by 1 without 0 to 0),
        sign!(31 less 64),
        &[
            slice!(Value[4:0] at 2),
            slice!(Rd[4:0] at 7),
            slice!(Value[5:5] at 12),
        ],
    ),
    (
        Shape::CJump,
        registers!(Absent, Absent, Absent),
        limits!(-2048 to 2046 by 2),
        sign!(2046 less 4096),
        &[
            slice!(Value[5:5] at 2),
            slice!(Value[3:1] at 3),
            slice!(Value[7:7] at 6),
            slice!(Value[6:6] at 7),
            slice!(Value[10:10] at 8),
            slice!(Value[9:8] at 9),
            slice!(Value[4:4] at 11),
            slice!(Value[11:11] at 12),
        ],
    ),
    (
        Shape::CLoadImmediate,
        registers!(NotZero, Absent, Absent),
        limits!(-32 to 31),
        sign!(31 less 64),
        &[
            slice!(Value[4:0] at 2),
            slice!(Rd[4:0] at 7),
            slice!(Value[5:5] at 12),
        ],
    ),
    (
        Shape::CStackAdjust,
        registers!(Absent, Absent, Absent),
        limits!(-512 to 496 by 16 without 0 to 0),
        sign!(496 less 1024),
        &[
            slice!(Value[5:5] at 2),
            slice!(Value[8:7] at 3),
            slice!(Value[6:6] at 5),
            slice!(Value[4:4] at 6),
            slice!(Value[9:9] at 12),
        ],
    ),
    (
        Shape::CUpper,
        registers!(NotSp, Absent, Absent),
        limits!(1 to 1048575 by 1 without 32 to 1048543),
        sign!(31 less -1048512),
        &[
            slice!(Value[4:0] at 2),
            slice!(Rd[4:0] at 7),
            slice!(Value[5:5] at 12),
        ],
    ),
    (
        Shape::CShiftRight,
        registers!(Prime, Absent, Absent),
        limits!(1 to 31),
        sign!(31 less 0),
        &[slice!(Value[4:0] at 2), slice!(Rd[2:0] at 7)],
    ),
    (
        Shape::CAndImmediate,
        registers!(Prime, Absent, Absent),
        limits!(-32 to 31),
        sign!(31 less 64),
        &[
            slice!(Value[4:0] at 2),
            slice!(Rd[2:0] at 7),
            slice!(Value[5:5] at 12),
        ],
    ),
    (
        Shape::CRegisters,
        registers!(Prime, Absent, Prime),
        limits!(0 to 0),
        sign!(0 less 0),
        &[slice!(Rs2[2:0] at 2), slice!(Rd[2:0] at 7)],
    ),
    (
        Shape::CBranch,
        registers!(Absent, Prime, Absent),
        limits!(-256 to 254 by 2),
        sign!(254 less 512),
        &[
            slice!(Value[5:5] at 2),
            slice!(Value[2:1] at 3),
            slice!(Value[7:6] at 5),
            slice!(Rs1[2:0] at 7),
            slice!(Value[4:3] at 10),
            slice!(Value[8:8] at 12),
        ],
    ),
    (
        Shape::CShiftLeft,
        registers!(NotZero, Absent, Absent),
        limits!(1 to 31),
        sign!(31 less 0),
        &[slice!(Value[4:0] at 2), slice!(Rd[4:0] at 7)],
    ),
    (
        Shape::CLoadStack,
        registers!(NotZero, Absent, Absent),
        limits!(0 to 252 by 4),
        sign!(252 less 0),
        &[
            slice!(Value[7:6] at 2),
            slice!(Value[4:2] at 4),
            slice!(Rd[4:0] at 7),
            slice!(Value[5:5] at 12),
        ],
    ),
    (
        Shape::CJumpRegister,
        registers!(Absent, NotZero, Absent),
        limits!(0 to 0),
        sign!(0 less 0),
        &[slice!(Rs1[4:0] at 7)],
    ),
    (
        Shape::CTwoRegisters,
        registers!(NotZero, Absent, NotZero),
        limits!(0 to 0),
        sign!(0 less 0),
        &[slice!(Rs2[4:0] at 2), slice!(Rd[4:0] at 7)],
    ),
    (
        Shape::CStoreStack,
        registers!(Absent, Absent, Any),
        limits!(0 to 252 by 4),
        sign!(252 less 0),
        &[
            slice!(Rs2[4:0] at 2),
            slice!(Value[7:6] at 7),
            slice!(Value[5:2] at 9),
        ],
    ),
];
