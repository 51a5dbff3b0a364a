//! What fields of encodings are called, and what their bits mean.

ghost use Rattle.std.specs.Prelude.{◌≡◌, ◌+◌, ◌<◌, ◌^◌};

use crate::fields::EncodedField;
use crate::formats::{FieldKind, FieldName};
use rv_code::Ins;
use rv_ops::{Csr, Op, Reg, Shape, csr_name, name_of, reg_name, shape};
use rv_stmt::set_name;
use std::fmt::{self, Display, Formatter};

/// The name of a field as it is written, with the bits of it where it is an immediate.
#[derive(Clone, Copy)]
pub struct FieldLabel {
    name: FieldName,
    highest: u32,
    lowest: u32,
}

impl Display for FieldLabel {
    fn fmt<W: fmt::Write>(&self, f: &mut Formatter<W>) -> fmt::Result {
        let (name, highest, lowest) = (self.name.text(), self.highest, self.lowest);
        if self.name.kind() != FieldKind::Immediate {
            return f.write_str(name);
        }
        if highest == lowest {
            write!(f, "{name}[{highest}]")
        } else {
            write!(f, "{name}[{highest}:{lowest}]")
        }
    }
}

/// The bits of a field as they are written, the highest first.
#[derive(Clone, Copy)]
pub struct FieldBits {
    bits: u32,
    width: u32,
}

impl Display for FieldBits {
    fn fmt<W: fmt::Write>(&self, f: &mut Formatter<W>) -> fmt::Result {
        let (bits, width) = (self.bits, self.width as usize);
        write!(f, "{bits:0width$b}")
    }
}

/// What the bits of a field mean in an instruction.
#[derive(Clone, Copy)]
pub struct FieldMeaning {
    field: EncodedField,
    op: Op,
    value: i32,
}

// The name of an opcode of seven bits, the last two of which are 11: RISC-V Unprivileged ISA 20191213, table 24.1; or of one of two bits: the figures of
// sections 16.3 to 16.5.
fn opcode_name(bits: u32) -> &'static str {
    match bits {
        0x00 => "C0",
        0x01 => "C1",
        0x02 => "C2",
        0x03 => "LOAD",
        0x0f => "MISC-MEM",
        0x13 => "OP-IMM",
        0x17 => "AUIPC",
        0x23 => "STORE",
        0x2f => "AMO",
        0x33 => "OP",
        0x37 => "LUI",
        0x63 => "BRANCH",
        0x67 => "JALR",
        0x6f => "JAL",
        0x73 => "SYSTEM",
        _ => "",
    }
}

// The register of a number below 32.
fn register_of(number: u32) -> Reg {
    Reg::new((number % 32) as u8).unwrap_or(Reg::ZERO)
}

// The name of a control and status register, if it has one.
fn csr_name_of(number: u32) -> Option<&'static str> {
    csr_name(Csr::new((number % 4096) as u16)?)
}

// Writes the number and the name of a register.
fn write_register<W: fmt::Write>(f: &mut Formatter<W>, number: u32) -> fmt::Result {
    let name = reg_name(register_of(number));
    write!(f, "x{number} ({name})")
}

// Writes the number of a control and status register, and its name, if it has one.
fn write_csr<W: fmt::Write>(f: &mut Formatter<W>, number: u32) -> fmt::Result {
    match csr_name_of(number) {
        Some(name) => write!(f, "0x{number:03x} ({name})"),
        None => write!(f, "0x{number:03x}"),
    }
}

impl FieldMeaning {
    // Writes the immediate that a field is part of. The immediate of `csrrwi` and the like stands in the place of rs1.
    fn write_immediate<W: fmt::Write>(&self, f: &mut Formatter<W>) -> fmt::Result {
        let (name, bits, value) = (self.field.stretch.name.text(), self.field.bits, self.value);
        match shape(self.op) {
            Shape::Upper | Shape::CUpper => {
                let upper = value.cast_unsigned() << 12;
                write!(f, "{name} = 0x{upper:08x}")
            }
            Shape::CsrImmediate => write!(f, "{name} = {bits}"),
            _ => write!(f, "{name} = {value}"),
        }
    }
}

impl Display for FieldMeaning {
    fn fmt<W: fmt::Write>(&self, f: &mut Formatter<W>) -> fmt::Result {
        let bits = self.field.bits;
        match self.field.stretch.name.kind() {
            FieldKind::Opcode => f.write_str(opcode_name(bits)),
            FieldKind::Operation => f.write_str(name_of(self.op)),
            FieldKind::Register => write_register(f, bits),
            FieldKind::PrimeRegister => write_register(f, bits % 8 + 8),
            FieldKind::Immediate => self.write_immediate(f),
            FieldKind::Csr => write_csr(f, bits),
            FieldKind::FenceMode if bits == 8 => f.write_str("TSO"),
            FieldKind::FenceMode => f.write_str("normal"),
            FieldKind::Set => f.write_str(set_name(register_of(bits)).unwrap_or("")),
            FieldKind::Acquire if bits == 1 => f.write_str("acquire"),
            FieldKind::Acquire => f.write_str("no acquire"),
            FieldKind::Release if bits == 1 => f.write_str("release"),
            FieldKind::Release => f.write_str("no release"),
        }
    }
}

/// A field of an instruction in a row: its highest and its lowest bit, its name, its bits, and what they mean.
#[derive(Clone, Copy)]
pub struct FieldRow {
    field: EncodedField,
    meaning: FieldMeaning,
}

impl Display for FieldRow {
    fn fmt<W: fmt::Write>(&self, f: &mut Formatter<W>) -> fmt::Result {
        let (highest, lowest) = (self.field.highest(), self.field.lowest());
        let (label, digits, meaning) = (self.field.label(), self.field.digits(), self.meaning);
        write!(f, "{highest} {lowest} {label} {digits} {meaning}")
    }
}

impl EncodedField {
    /// Its lowest bit in the encoding.
    pub fn lowest(&self) -> u32
        ensures { result ≡ self.now.stretch.word_bit }
    {
        self.stretch.word_bit
    }

    /// Its highest bit in the encoding.
    pub fn highest(&self) -> u32
        ensures { 0 < self.now.stretch.width → self.now.stretch.width + self.now.stretch.word_bit < 2 ^ 32 → result + 1 ≡ self.now.stretch.width + self.now.stretch.word_bit }
    {
        let end = self.stretch.word_bit.saturating_add(self.stretch.width);
        end.saturating_sub(1)
    }

    /// What it is called.
    pub fn label(&self) -> FieldLabel {
        let end = self.stretch.field_bit.saturating_add(self.stretch.width);
        FieldLabel {
            name: self.stretch.name,
            highest: end.saturating_sub(1),
            lowest: self.stretch.field_bit,
        }
    }

    /// Its bits in digits.
    pub fn digits(&self) -> FieldBits {
        FieldBits {
            bits: self.bits,
            width: self.stretch.width,
        }
    }

    /// What its bits mean in the instruction whose field it is.
    pub fn meaning(&self, ins: &Ins) -> FieldMeaning {
        FieldMeaning {
            field: *self,
            op: ins.op(),
            value: ins.fields().value,
        }
    }

    /// The row of it in the instruction whose field it is.
    pub fn row(&self, ins: &Ins) -> FieldRow {
        FieldRow {
            field: *self,
            meaning: self.meaning(ins),
        }
    }
}
