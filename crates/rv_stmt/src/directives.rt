//! The directives, by their names.

ghost use Rattle.std.specs.Prelude.{◌≡◌, map};
ghost use Rattle.rv_ops.specs.Names.{first_named as first_beside};
ghost use Rattle.rv_stmt.specs.Directives.{named_directive, is_frame_directive, directive_named};

use crate::operand::{AlignmentUnit, DataWidth};
use crate::operand_count::OperandCount;
use crate::section::Sect;
use rv_ops::is_name;

/// What a directive does, and what its operands are.
#[derive(Clone, Copy, Debug, PartialEq, Eq)]
pub enum DirectiveKind {
    /// It gives values of this width: each operand is an expression.
    Data(DataWidth),
    /// It gives the bytes of strings: each operand is a string.
    Strings,
    /// The same, with a zero byte after each string.
    TerminatedStrings,
    /// It gives equal bytes: the operands are expressions for their number and for the byte, which is 0 where it is
    /// absent.
    Fill,
    /// It rounds the place up: the operand is an expression in this unit.
    Alignment(AlignmentUnit),
    /// The lines after it are put into the section.
    Switch(Sect),
    /// The same, for the section of a name: that is the first operand, and those after it are not read.
    Section,
    /// It defines a symbol: the operands are the symbol and an expression.
    Definition,
    /// It has no effect, and what stands after its name is not read.
    Ignored,
}

/// A directive: how many operands it takes, and what they are.
#[derive(Clone, Copy, Debug, PartialEq, Eq)]
pub struct DirectiveForm {
    pub count: OperandCount,
    pub kind: DirectiveKind,
}

/// The columns: the name, how many operands stand after it, and what they are.
pub type DirectiveRow = (&'static str, OperandCount, DirectiveKind);

/// Each directive but those whose names begin with `.cfi_`. Their names and effects are those of GNU as, sections 7 and
/// 9.38, as far as docs/LANGUAGE.md has them.
pub const DIRECTIVES: [DirectiveRow; 38] = [
    (
        ".byte",
        OperandCount::AtLeast(1),
        DirectiveKind::Data(DataWidth::Byte),
    ),
    (
        ".half",
        OperandCount::AtLeast(1),
        DirectiveKind::Data(DataWidth::Half),
    ),
    (
        ".short",
        OperandCount::AtLeast(1),
        DirectiveKind::Data(DataWidth::Half),
    ),
    (
        ".2byte",
        OperandCount::AtLeast(1),
        DirectiveKind::Data(DataWidth::Half),
    ),
    (
        ".word",
        OperandCount::AtLeast(1),
        DirectiveKind::Data(DataWidth::Word),
    ),
    (
        ".long",
        OperandCount::AtLeast(1),
        DirectiveKind::Data(DataWidth::Word),
    ),
    (
        ".4byte",
        OperandCount::AtLeast(1),
        DirectiveKind::Data(DataWidth::Word),
    ),
    (".ascii", OperandCount::AtLeast(1), DirectiveKind::Strings),
    (
        ".asciz",
        OperandCount::AtLeast(1),
        DirectiveKind::TerminatedStrings,
    ),
    (
        ".string",
        OperandCount::AtLeast(1),
        DirectiveKind::TerminatedStrings,
    ),
    (".space", OperandCount::Between(1, 2), DirectiveKind::Fill),
    (".skip", OperandCount::Between(1, 2), DirectiveKind::Fill),
    (".zero", OperandCount::Exactly(1), DirectiveKind::Fill),
    (
        ".align",
        OperandCount::Exactly(1),
        DirectiveKind::Alignment(AlignmentUnit::Exponent),
    ),
    (
        ".p2align",
        OperandCount::Exactly(1),
        DirectiveKind::Alignment(AlignmentUnit::Exponent),
    ),
    (
        ".balign",
        OperandCount::Exactly(1),
        DirectiveKind::Alignment(AlignmentUnit::Bytes),
    ),
    (
        ".text",
        OperandCount::Exactly(0),
        DirectiveKind::Switch(Sect::Text),
    ),
    (
        ".rodata",
        OperandCount::Exactly(0),
        DirectiveKind::Switch(Sect::Rodata),
    ),
    (
        ".data",
        OperandCount::Exactly(0),
        DirectiveKind::Switch(Sect::Rwdata),
    ),
    (
        ".bss",
        OperandCount::Exactly(0),
        DirectiveKind::Switch(Sect::Bss),
    ),
    (".section", OperandCount::AtLeast(1), DirectiveKind::Section),
    (".equ", OperandCount::Exactly(2), DirectiveKind::Definition),
    (".set", OperandCount::Exactly(2), DirectiveKind::Definition),
    (".globl", OperandCount::AtLeast(0), DirectiveKind::Ignored),
    (".global", OperandCount::AtLeast(0), DirectiveKind::Ignored),
    (".local", OperandCount::AtLeast(0), DirectiveKind::Ignored),
    (".weak", OperandCount::AtLeast(0), DirectiveKind::Ignored),
    (".hidden", OperandCount::AtLeast(0), DirectiveKind::Ignored),
    (
        ".protected",
        OperandCount::AtLeast(0),
        DirectiveKind::Ignored,
    ),
    (".addrsig", OperandCount::AtLeast(0), DirectiveKind::Ignored),
    (
        ".addrsig_sym",
        OperandCount::AtLeast(0),
        DirectiveKind::Ignored,
    ),
    (".type", OperandCount::AtLeast(0), DirectiveKind::Ignored),
    (".size", OperandCount::AtLeast(0), DirectiveKind::Ignored),
    (".file", OperandCount::AtLeast(0), DirectiveKind::Ignored),
    (".ident", OperandCount::AtLeast(0), DirectiveKind::Ignored),
    (
        ".attribute",
        OperandCount::AtLeast(0),
        DirectiveKind::Ignored,
    ),
    (".option", OperandCount::AtLeast(0), DirectiveKind::Ignored),
    (".loc", OperandCount::AtLeast(0), DirectiveKind::Ignored),
];

// The first of these directives that has the name.
fn first_named(mut rows: &[DirectiveRow], name: &[u8]) -> Option<DirectiveForm>
    ensures { result ≡ first_beside (map (λ row. named_directive row.0.now row.1 row.2) rows.entry.now) name.now }
{
    while let [row, rest @ ..] = rows {
        if is_name(row.0, name) {
            return Some(DirectiveForm {
                count: row.1,
                kind: row.2,
            });
        }
        rows = rest;
    }
    None
}

// Whether a name begins with `.cfi_`.
fn is_frame_directive(name: &[u8]) -> bool
    ensures { result ≡ is_frame_directive name.now }
{
    match name.split_at_checked(5) {
        Some((beginning, _)) => is_name(".cfi_", beginning),
        None => false,
    }
}

/// The directive of a name, which is read in either letter case.
#[tactic(auto, unfolding(crate::specs::Directives::directive_names, crate::specs::Directives::directive_named))]
pub fn directive_named(name: &[u8]) -> Option<DirectiveForm>
    ensures { result ≡ directive_named name.now }
{
    if is_frame_directive(name) {
        return Some(DirectiveForm {
            count: OperandCount::AtLeast(0),
            kind: DirectiveKind::Ignored,
        });
    }
    first_named(&DIRECTIVES, name)
}
