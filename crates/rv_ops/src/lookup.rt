//! What the tables say of an operation.
ghost use Rattle.std.specs.Prelude.{◌≡◌, ◌+◌, ◌<◌, ◌^◌, ◌≤ℤ◌, [], false, IsTrue, length, map, slice_index_or, pos, negsuc};
ghost use Rattle.std.specs.List.{list_all};
ghost use Rattle.rv_ops.specs.declared.op.Shape.TheVariants.{Upper};
ghost use Rattle.rv_ops.specs.Room.{is_slice, room};
ghost use Rattle.rv_ops.specs.Table.{is_full, no_layout, operation_name, shape_of, fixed_of, mask_of, classes_of, limits_of, sign_of, slices_of};

use crate::layouts::{Classes, FieldSlice, LAYOUTS, Layout, LayoutRow, SignExtension};
use crate::op::{Op, Row, Shape};
use crate::table::{TABLE, TableRow};
use crate::value_limits::Limits;

/// The row at a place.
fn row_at(rows: &[TableRow], index: usize) -> Row
    requires { index < length rows.now }
    ensures name { result.name.now ≡ slice_index_or (map (λ row. row.1.now) rows.now) index [] }
    ensures shape { result.shape ≡ slice_index_or (map (λ row. row.2) rows.now) index Upper }
    ensures fixed { result.fixed ≡ slice_index_or (map (λ row. row.3) rows.now) index 0 }
    ensures mask { result.mask ≡ slice_index_or (map (λ row. row.4) rows.now) index 0 }
{
    let row = &rows[index];
    Row {
        name: row.1,
        shape: row.2,
        fixed: row.3,
        mask: row.4,
    }
}

/// The row of an operation in the table.
pub fn row(op: Op) -> Row
    ensures name { result.name.now ≡ operation_name op }
    ensures shape { result.shape ≡ shape_of op }
    ensures fixed { result.fixed ≡ fixed_of op }
    ensures mask { result.mask ≡ mask_of op }
{
    row_at(&TABLE, op as usize)
}

/// The shape of an operation's instructions.
pub fn shape(op: Op) -> Shape
    ensures { result ≡ shape_of op }
{
    row(op).shape
}

/// The fixed bits of an operation's encodings.
pub fn fixed(op: Op) -> u32
    ensures { result ≡ fixed_of op }
{
    row(op).fixed
}

/// Which bits of an operation's encodings are fixed.
pub fn mask(op: Op) -> u32
    ensures { result ≡ mask_of op }
{
    row(op).mask
}

/// Whether an operation's encodings have 32 bits. The others have 16.
pub fn is_full(op: Op) -> bool
    ensures value { result ≡ is_full op }
    ensures short { is_full op ≡ false → fixed_of op + room (slices_of (shape_of op)) < 2 ^ 16 }
{
    fixed(op) % 4 == 3
}

/// The layout at a place.
fn layout_at(layouts: &[LayoutRow], index: usize) -> Layout
    requires { index < length layouts.now }
    ensures registers { result.registers ≡ slice_index_or (map (λ row. row.1) layouts.now) index no_layout.1 }
    ensures limits { result.limits ≡ slice_index_or (map (λ row. row.2) layouts.now) index no_layout.2 }
    ensures sign { result.sign ≡ slice_index_or (map (λ row. row.3) layouts.now) index no_layout.3 }
    ensures slices { result.slices.now ≡ slice_index_or (map (λ row. row.4.now) layouts.now) index [] }
{
    let row = &layouts[index];
    Layout {
        registers: row.1,
        limits: row.2,
        sign: row.3,
        slices: row.4,
    }
}

/// The layout of a shape's encodings.
fn layout(shape: Shape) -> Layout
    ensures registers { result.registers ≡ classes_of shape }
    ensures limits { result.limits ≡ limits_of shape }
    ensures sign { result.sign ≡ sign_of shape }
    ensures slices { result.slices.now ≡ slices_of shape }
{
    layout_at(&LAYOUTS, shape as usize)
}

/// The classes of the registers that an operation takes.
pub fn classes(op: Op) -> Classes
    ensures { result ≡ classes_of (shape_of op) }
{
    layout(shape(op)).registers
}

/// The limits of the value that an operation takes.
pub fn limits(op: Op) -> Limits
    ensures value { result ≡ limits_of (shape_of op) }
    ensures multiple { 0 < result.multiple }
{
    layout(shape(op)).limits
}

/// The sign of the value that an operation takes.
pub fn sign(op: Op) -> SignExtension
    ensures value { result ≡ sign_of (shape_of op) }
    ensures low { negsuc 1073741823 ≤ℤ result.modulus }
    ensures high { result.modulus ≤ℤ pos 1073741824 }
{
    layout(shape(op)).sign
}

/// The slices of the fields that fill an operation's encodings.
pub fn slices(op: Op) -> &'static [FieldSlice]
    ensures value { result.now ≡ slices_of (shape_of op) }
    ensures placed { IsTrue (list_all is_slice result.now) }
    ensures room { fixed_of op + room result.now < 2 ^ 32 }
{
    layout(shape(op)).slices
}
