//! The registers, the control and status registers, and the one table of RISC-V operations.
#![tactic(auto)]

mod csr;
mod csrs;
mod laws;
mod layouts;
mod lookup;
mod name_lists;
mod names;
mod op;
mod register;
mod registers;
mod table;
mod value_limits;

pub use csr::Csr;
pub use csrs::CSRS;
pub use laws::{
    fixed_bits_are_in_the_mask, fixed_bits_tell_operations_apart, limits_are_bounds,
    rows_are_in_order,
};
pub use layouts::{Classes, Field, FieldSlice, RegisterClass, SignExtension};
pub use lookup::{classes, fixed, is_full, limits, mask, row, shape, sign, slices};
pub use name_lists::{first_named, is_name};
pub use names::{csr_by_name, csr_name, name_of, op_by_name, reg_by_name, reg_name};
pub use op::{Op, Row, Shape};
pub use register::Reg;
pub use table::{TABLE, TableRow};
pub use value_limits::{LimitFault, Limits};
