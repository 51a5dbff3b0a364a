//! The directives.

use crate::entry::{ManualRow, Source};

/// What each directive does. The last row is for each name that begins so.
pub const DIRECTIVES: [ManualRow; 28] = [
    (
        &[".byte"],
        Source::Directives,
        "Gives one byte for each expression.",
    ),
    (
        &[".half", ".short", ".2byte"],
        Source::Directives,
        "Gives two bytes for each expression, the lower first.",
    ),
    (
        &[".word", ".long", ".4byte"],
        Source::Directives,
        "Gives four bytes for each expression, the lowest first.",
    ),
    (
        &[".ascii"],
        Source::Directives,
        "Gives the bytes of each string.",
    ),
    (
        &[".asciz", ".string"],
        Source::Directives,
        "Gives the bytes of each string, with a zero byte after each.",
    ),
    (
        &[".space", ".skip"],
        Source::Directives,
        "Gives as many bytes as the size says, each equal to the byte, or 0 without one.",
    ),
    (
        &[".zero"],
        Source::Directives,
        "Gives as many zero bytes as the size says.",
    ),
    (
        &[".align", ".p2align"],
        Source::Directives,
        "Pads up to a multiple of 2^exponent, with an exponent from 0 to 12.",
    ),
    (
        &[".balign"],
        Source::Directives,
        "Pads up to a multiple of the number, a power of two from 1 to 4096.",
    ),
    (
        &[".text"],
        Source::Directives,
        "Puts the lines after it into the section .text, for code.",
    ),
    (
        &[".rodata"],
        Source::Directives,
        "Puts the lines after it into the section .rodata, for data that is only read.",
    ),
    (
        &[".data"],
        Source::Directives,
        "Puts the lines after it into the section .data, for data that is written, too.",
    ),
    (
        &[".bss"],
        Source::Directives,
        "Puts the lines after it into the section .bss, which has a size and no bytes.",
    ),
    (
        &[".section"],
        Source::Sections,
        "Puts the lines after it into the section that the beginning of the name selects.",
    ),
    (
        &[".equ", ".set"],
        Source::Symbols,
        "Gives the symbol the value of the expression.",
    ),
    (
        &[".globl", ".global"],
        Source::Directives,
        "Has no effect here; elsewhere it makes a symbol known to other files.",
    ),
    (
        &[".local"],
        Source::Directives,
        "Has no effect here; elsewhere it keeps a symbol from other files.",
    ),
    (
        &[".weak"],
        Source::Directives,
        "Has no effect here; elsewhere it lets another definition of a symbol take precedence.",
    ),
    (
        &[".hidden", ".protected"],
        Source::Directives,
        "Has no effect here; elsewhere it limits who sees a symbol of a shared library.",
    ),
    (
        &[".addrsig", ".addrsig_sym"],
        Source::Directives,
        "Has no effect here; elsewhere it says which symbols have an address that matters.",
    ),
    (
        &[".type"],
        Source::Directives,
        "Has no effect here; elsewhere it says whether a symbol is a function or data.",
    ),
    (
        &[".size"],
        Source::Directives,
        "Has no effect here; elsewhere it says how many bytes a symbol has.",
    ),
    (
        &[".file"],
        Source::Directives,
        "Has no effect here; elsewhere it names the source file.",
    ),
    (
        &[".ident"],
        Source::Directives,
        "Has no effect here; elsewhere it names the compiler.",
    ),
    (
        &[".attribute"],
        Source::Directives,
        "Has no effect here; elsewhere it tells the linker what the code needs, as extensions.",
    ),
    (
        &[".option"],
        Source::Directives,
        "Has no effect here; elsewhere it switches compression, relaxation and the like.",
    ),
    (
        &[".loc"],
        Source::Directives,
        "Has no effect here; elsewhere it tells the debugger the line of the source.",
    ),
    (
        &[".cfi_"],
        Source::Directives,
        "Has no effect here; elsewhere it tells the debugger about the frame of a function.",
    ),
];
