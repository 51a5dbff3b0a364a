//! The names of operations and registers, as they are written into texts: a name of constant length is copied sooner than one
//! whose length is read, so each is padded with spaces.

ghost use Rattle.std.specs.Prelude.{◌≡◌, ◌+◌, ◌<◌, ◌≤◌, [], ◌++◌, length, map, slice_index_or};
ghost use Rattle.rv_ops.specs.Registers.{register_name};
ghost use Rattle.rv_ops.specs.Table.{operation_name};

use crate::row::RowText;
use rv_ops::{Op, Reg};

// The mnemonics of the operations, in the order of the operations, and how long each is without its padding.
const OPERATION_NAMES: [(&str, u8); 130] = [
    ("lui             ", 3),
    ("auipc           ", 5),
    ("jal             ", 3),
    ("jalr            ", 4),
    ("beq             ", 3),
    ("bne             ", 3),
    ("blt             ", 3),
    ("bge             ", 3),
    ("bltu            ", 4),
    ("bgeu            ", 4),
    ("lb              ", 2),
    ("lh              ", 2),
    ("lw              ", 2),
    ("lbu             ", 3),
    ("lhu             ", 3),
    ("sb              ", 2),
    ("sh              ", 2),
    ("sw              ", 2),
    ("addi            ", 4),
    ("slti            ", 4),
    ("sltiu           ", 5),
    ("xori            ", 4),
    ("ori             ", 3),
    ("andi            ", 4),
    ("slli            ", 4),
    ("srli            ", 4),
    ("srai            ", 4),
    ("add             ", 3),
    ("sub             ", 3),
    ("sll             ", 3),
    ("slt             ", 3),
    ("sltu            ", 4),
    ("xor             ", 3),
    ("srl             ", 3),
    ("sra             ", 3),
    ("or              ", 2),
    ("and             ", 3),
    ("mul             ", 3),
    ("mulh            ", 4),
    ("mulhsu          ", 6),
    ("mulhu           ", 5),
    ("div             ", 3),
    ("divu            ", 4),
    ("rem             ", 3),
    ("remu            ", 4),
    ("csrrw           ", 5),
    ("csrrs           ", 5),
    ("csrrc           ", 5),
    ("csrrwi          ", 6),
    ("csrrsi          ", 6),
    ("csrrci          ", 6),
    ("fence           ", 5),
    ("fence.tso       ", 9),
    ("fence.i         ", 7),
    ("ecall           ", 5),
    ("ebreak          ", 6),
    ("mret            ", 4),
    ("sret            ", 4),
    ("wfi             ", 3),
    ("lr.w            ", 4),
    ("lr.w.aq         ", 7),
    ("lr.w.rl         ", 7),
    ("lr.w.aqrl       ", 9),
    ("sc.w            ", 4),
    ("sc.w.aq         ", 7),
    ("sc.w.rl         ", 7),
    ("sc.w.aqrl       ", 9),
    ("amoswap.w       ", 9),
    ("amoswap.w.aq    ", 12),
    ("amoswap.w.rl    ", 12),
    ("amoswap.w.aqrl  ", 14),
    ("amoadd.w        ", 8),
    ("amoadd.w.aq     ", 11),
    ("amoadd.w.rl     ", 11),
    ("amoadd.w.aqrl   ", 13),
    ("amoxor.w        ", 8),
    ("amoxor.w.aq     ", 11),
    ("amoxor.w.rl     ", 11),
    ("amoxor.w.aqrl   ", 13),
    ("amoand.w        ", 8),
    ("amoand.w.aq     ", 11),
    ("amoand.w.rl     ", 11),
    ("amoand.w.aqrl   ", 13),
    ("amoor.w         ", 7),
    ("amoor.w.aq      ", 10),
    ("amoor.w.rl      ", 10),
    ("amoor.w.aqrl    ", 12),
    ("amomin.w        ", 8),
    ("amomin.w.aq     ", 11),
    ("amomin.w.rl     ", 11),
    ("amomin.w.aqrl   ", 13),
    ("amomax.w        ", 8),
    ("amomax.w.aq     ", 11),
    ("amomax.w.rl     ", 11),
    ("amomax.w.aqrl   ", 13),
    ("amominu.w       ", 9),
    ("amominu.w.aq    ", 12),
    ("amominu.w.rl    ", 12),
    ("amominu.w.aqrl  ", 14),
    ("amomaxu.w       ", 9),
    ("amomaxu.w.aq    ", 12),
    ("amomaxu.w.rl    ", 12),
    ("amomaxu.w.aqrl  ", 14),
    ("c.addi4spn      ", 10),
    ("c.lw            ", 4),
    ("c.sw            ", 4),
    ("c.nop           ", 5),
    ("c.addi          ", 6),
    ("c.jal           ", 5),
    ("c.li            ", 4),
    ("c.addi16sp      ", 10),
    ("c.lui           ", 5),
    ("c.srli          ", 6),
    ("c.srai          ", 6),
    ("c.andi          ", 6),
    ("c.sub           ", 5),
    ("c.xor           ", 5),
    ("c.or            ", 4),
    ("c.and           ", 5),
    ("c.j             ", 3),
    ("c.beqz          ", 6),
    ("c.bnez          ", 6),
    ("c.slli          ", 6),
    ("c.lwsp          ", 6),
    ("c.jr            ", 4),
    ("c.mv            ", 4),
    ("c.ebreak        ", 8),
    ("c.jalr          ", 6),
    ("c.add           ", 5),
    ("c.swsp          ", 6),
];

// The names by which registers are written, in the order of their numbers, and how long each is without its padding.
const REGISTER_NAMES: [(&str, u8); 32] = [
    ("zero    ", 4),
    ("ra      ", 2),
    ("sp      ", 2),
    ("gp      ", 2),
    ("tp      ", 2),
    ("t0      ", 2),
    ("t1      ", 2),
    ("t2      ", 2),
    ("s0      ", 2),
    ("s1      ", 2),
    ("a0      ", 2),
    ("a1      ", 2),
    ("a2      ", 2),
    ("a3      ", 2),
    ("a4      ", 2),
    ("a5      ", 2),
    ("a6      ", 2),
    ("a7      ", 2),
    ("s2      ", 2),
    ("s3      ", 2),
    ("s4      ", 2),
    ("s5      ", 2),
    ("s6      ", 2),
    ("s7      ", 2),
    ("s8      ", 2),
    ("s9      ", 2),
    ("s10     ", 3),
    ("s11     ", 3),
    ("t3      ", 2),
    ("t4      ", 2),
    ("t5      ", 2),
    ("t6      ", 2),
];

// The row at a place.
fn row_at(rows: &[(&'static str, u8)], index: usize) -> (&'static str, u8)
    requires { index < length rows.now }
    ensures text { result.0.now ≡ slice_index_or (map (λ row. row.0.now) rows.now) index [] }
    ensures len { result.1 ≡ slice_index_or (map (λ row. row.1) rows.now) index 0 }
{
    rows[index]
}

/// Appends the mnemonic of an operation. There must be room.
#[inline(always)]
pub fn push_operation_name(out: &mut RowText, op: Op)
    requires { length out.old + length (operation_name op) ≤ 40 }
    ensures { out.new ≡ out.old ++ operation_name op }
{
    let (padded, len) = row_at(&OPERATION_NAMES, op as usize);
    out.push_padded::<16>(padded, usize::from(len));
}

/// Appends the name by which a register is written. There must be room.
#[inline(always)]
pub fn push_register_name(out: &mut RowText, register: Reg)
    requires { length out.old + length (register_name register) ≤ 40 }
    ensures { out.new ≡ out.old ++ register_name register }
{
    let (padded, len) = row_at(&REGISTER_NAMES, usize::from(register.number()));
    out.push_padded::<8>(padded, usize::from(len));
}
