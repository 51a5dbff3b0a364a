//! What faults, and the words of the language, mean.

use crate::failure::Failure;
use crate::noting::unless_closed;
use crate::ways::ways_of;
use rv_manual::{Entry, entry_named};
use rv_text::number;
use std::alloc::AllocError;
use std::io;

/// What a fault means, with lines the last of which has it, and lines that have none.
#[derive(Clone, Copy)]
pub struct Explanation {
    pub name: &'static str,
    pub meaning: &'static str,
    pub wrong: &'static str,
    pub right: &'static str,
}

/// The faults in the order of their numbers, from 1 on.
pub const EXPLANATIONS: [Explanation; 21] = [
    Explanation {
        name: "BadByte",
        meaning: "A byte begins no token of the language.",
        wrong: ".byte \u{201c}",
        right: ".byte 34",
    },
    Explanation {
        name: "BadNumber",
        meaning: "Digits and letters are no number. Numbers are decimal without a leading zero, 0 and octal digits, 0x and hexadecimal digits, or 0b and binary digits, and at most 2^63 - 1.",
        wrong: "li a0, 12ab",
        right: "li a0, 0x12ab",
    },
    Explanation {
        name: "BadString",
        meaning: "A string or a character is not closed, or has an escape that the language lacks.",
        wrong: ".ascii \"hello",
        right: ".ascii \"hello\"",
    },
    Explanation {
        name: "NoStatement",
        meaning: "A line begins, after its labels, with something that is no name.",
        wrong: "(a0)",
        right: "nop",
    },
    Explanation {
        name: "UnknownName",
        meaning: "No instruction and no directive has this name.",
        wrong: "adi a0, a0, 1",
        right: "addi a0, a0, 1",
    },
    Explanation {
        name: "OperandCount",
        meaning: "The instruction or directive takes another number of operands.",
        wrong: "add a0, a1",
        right: "add a0, a0, a1",
    },
    Explanation {
        name: "BadRegister",
        meaning: "A register has to stand here.",
        wrong: "add a0, a1, 5",
        right: "addi a0, a1, 5",
    },
    Explanation {
        name: "RegisterRange",
        meaning: "The instruction does not take this register; most compressed ones take x8 to x15.",
        wrong: "c.and a0, t0",
        right: "c.and a0, a1",
    },
    Explanation {
        name: "BadOperand",
        meaning: "This is no operand that the instruction or directive takes here.",
        wrong: "fence x, y",
        right: "fence rw, rw",
    },
    Explanation {
        name: "TooDeep",
        meaning: "An expression has more than 64 open parentheses.",
        wrong: ".word (((((((((((((((((((((((((((((((((((((((((((((((((((((((((((((((((1)))))))))))))))))))))))))))))))))))))))))))))))))))))))))))))))))",
        right: ".word ((1))",
    },
    Explanation {
        name: "NotConstant",
        meaning: "The size of a line has to be known from the lines before it: a number, or an .equ of an earlier line.",
        wrong: "label: li a0, label",
        right: "label: la a0, label",
    },
    Explanation {
        name: "Undefined",
        meaning: "No line defines this name.",
        wrong: "j lop",
        right: "loop: j loop",
    },
    Explanation {
        name: "LaterEqu",
        meaning: "An .equ can use only those .equ that stand before it.",
        wrong: ".equ a, a",
        right: ".equ a, 1",
    },
    Explanation {
        name: "FaultyEqu",
        meaning: "The .equ of this name has a fault of its own.",
        wrong: ".equ a, 1 / 0\n    .word a",
        right: ".equ a, 1 / 2\n    .word a",
    },
    Explanation {
        name: "Arithmetic",
        meaning: "The expression has no value: a division by zero, a shift by less than 0 or more than 63, or a result of more than 64 bits.",
        wrong: ".word 1 / 0",
        right: ".word 1 / 2",
    },
    Explanation {
        name: "Range",
        meaning: "The value is outside of what the instruction or directive takes here, or the target is out of its reach.",
        wrong: "addi a0, a0, 2048",
        right: "addi a0, a0, 2047",
    },
    Explanation {
        name: "Multiple",
        meaning: "The value is not a multiple of what the instruction counts in.",
        wrong: "c.lw a0, 3(a1)",
        right: "c.lw a0, 4(a1)",
    },
    Explanation {
        name: "NoPartner",
        meaning: "At the label of a %pcrel_lo there is no auipc with a %pcrel_hi.",
        wrong: "label: nop\n    addi a0, a0, %pcrel_lo(label)",
        right: "label: auipc a0, %pcrel_hi(label)\n    addi a0, a0, %pcrel_lo(label)",
    },
    Explanation {
        name: "Duplicate",
        meaning: "The name has a definition on an earlier line, or earlier on this one, which counts.",
        wrong: "x: x: nop",
        right: "x: nop",
    },
    Explanation {
        name: "OddAddress",
        meaning: "An instruction lies at an odd address.",
        wrong: ".byte 1\n    nop",
        right: ".byte 1\n    .align 1\n    nop",
    },
    Explanation {
        name: "InBss",
        meaning: "The section .bss holds no bytes other than 0.",
        wrong: ".bss\n    .word 1",
        right: ".bss\n    .word 0",
    },
];

// The reports that are of no fault of a text, and what they mean.
const OTHER_REPORTS: [(&str, &str); 3] = [
    (
        "line-too-long",
        "A line has at most 1000 bytes. Nothing is said of the other lines of a file with a longer one.",
    ),
    (
        "too-many-lines",
        "A text has at most 16384 lines. Nothing is said of the lines of a file with more of them.",
    ),
    (
        "label-as-register",
        "A label stands where a control and status register is wanted: its address is taken as the number of the register. An .equ gives such a number a name.",
    ),
];

// The place of the fault whose number a text is, in decimal.
fn place_of(text: &str) -> Option<usize> {
    if text.starts_with('0') {
        return None;
    }
    let number = number(text.as_bytes())?;
    usize::try_from(number).ok()?.checked_sub(1)
}

// The fault of this name or number.
fn explanation_of(name: &str) -> Option<&'static Explanation> {
    let explanations = EXPLANATIONS.as_slice();
    if let Some(place) = place_of(name) {
        return explanations.get(place);
    }
    for explanation in explanations {
        if explanation.name.eq_ignore_ascii_case(name) {
            return Some(explanation);
        }
    }
    None
}

// Says what a fault means.
fn explain_fault(rt: &HostRuntime, explanation: &Explanation) -> io::Result<()> {
    let Explanation {
        name,
        meaning,
        wrong,
        right,
    } = explanation;
    println!(rt; "{name}: {meaning}\n\n    {wrong}    # {name}\n    {right}")
}

// Says what a report means that is of no fault, if one has this name.
fn explain_other(rt: &HostRuntime, name: &str) -> Option<io::Result<()>> {
    for (other, meaning) in &OTHER_REPORTS {
        if other.eq_ignore_ascii_case(name) {
            return Some(println!(rt; "{other}: {meaning}"));
        }
    }
    None
}

// Says how a word of the language is written, what it means, and where that is defined.
fn explain_word(rt: &HostRuntime, entry: &Entry) -> Result<io::Result<()>, AllocError> {
    let ways = ways_of(rt.alloc(), entry.name)?;
    let (sentence, source) = (entry.sentence, entry.source.text());
    Ok(println!(rt; "{ways}{sentence}\n{source}"))
}

// Says what a name means that is of no fault, if it has a meaning.
fn explain_name(rt: &HostRuntime, name: &str) -> Result<io::Result<()>, Failure> {
    if let Some(said) = explain_other(rt, name) {
        return Ok(said);
    }
    match entry_named(name.as_bytes()) {
        Some(entry) => Ok(explain_word(rt, &entry)?),
        None => Err(Failure::NoFault),
    }
}

/// Says what the fault of a name or of a number, the warning or the limit of a name, or a word of the language means.
pub fn explain(rt: &HostRuntime, name: &str) -> Result<(), Failure> {
    let said = match explanation_of(name) {
        Some(explanation) => explain_fault(rt, explanation),
        None => explain_name(rt, name)?,
    };
    match said {
        Ok(()) => Ok(()),
        Err(error) => unless_closed(error.kind()),
    }
}
