//! Images are disassembled.

use crate::digest::Digest;
use crate::random::Random;
use rv_dis::disassemble;
use std::alloc::{AllocError, Global};
use std::test::Fail;

// Which bits of an instruction are fixed, and to what.
#[derive(Clone, Copy)]
struct Form {
    fixed: u32,
    bits: u32,
}

// Instructions of four bytes, as often as firmware has them, about.
const WORDS: [Form; 16] = [
    Form {
        fixed: 0x0000_707f,
        bits: 0x0000_0013,
    },
    Form {
        fixed: 0x0000_707f,
        bits: 0x0000_0013,
    },
    Form {
        fixed: 0x0000_707f,
        bits: 0x0000_2003,
    },
    Form {
        fixed: 0x0000_707f,
        bits: 0x0000_2003,
    },
    Form {
        fixed: 0x0000_707f,
        bits: 0x0000_2023,
    },
    Form {
        fixed: 0x0000_707f,
        bits: 0x0000_2023,
    },
    Form {
        fixed: 0x0000_707f,
        bits: 0x0000_0063,
    },
    Form {
        fixed: 0x0000_707f,
        bits: 0x0000_1063,
    },
    Form {
        fixed: 0x0000_007f,
        bits: 0x0000_006f,
    },
    Form {
        fixed: 0x0000_007f,
        bits: 0x0000_0037,
    },
    Form {
        fixed: 0x0000_007f,
        bits: 0x0000_0017,
    },
    Form {
        fixed: 0xfe00_707f,
        bits: 0x0000_0033,
    },
    Form {
        fixed: 0xfe00_707f,
        bits: 0x4000_0033,
    },
    Form {
        fixed: 0xfe00_707f,
        bits: 0x0200_0033,
    },
    Form {
        fixed: 0xfe00_707f,
        bits: 0x0000_1013,
    },
    Form {
        fixed: 0x0000_707f,
        bits: 0x0000_2073,
    },
];

// Compressed instructions.
const PARCELS: [Form; 8] = [
    Form {
        fixed: 0xe003,
        bits: 0x0001,
    },
    Form {
        fixed: 0xe003,
        bits: 0x4001,
    },
    Form {
        fixed: 0xf003,
        bits: 0x8002,
    },
    Form {
        fixed: 0xe003,
        bits: 0x4000,
    },
    Form {
        fixed: 0xe003,
        bits: 0xc000,
    },
    Form {
        fixed: 0xe003,
        bits: 0x4002,
    },
    Form {
        fixed: 0xe003,
        bits: 0xc002,
    },
    Form {
        fixed: 0xe003,
        bits: 0xc001,
    },
];

// How many instructions an image has.
const IMAGE: u32 = 16384;

// An instruction of one of the forms, whose other bits are random.
fn instruction(random: &mut Random, forms: &[Form]) -> u32 {
    match forms.get(random.place(forms.len())) {
        Some(form) => random.number() & !form.fixed | form.bits,
        None => 0,
    }
}

// Appends an instruction, or seldom data.
fn append(bytes: &mut Vec<u8>, random: &mut Random) -> Result<(), AllocError> {
    match random.below(16) {
        0 => bytes.extend_from_slice(&random.number().to_le_bytes()),
        1..=9 => bytes.extend_from_slice(&instruction(random, &WORDS).to_le_bytes()),
        _ => {
            let [low, high, _, _] = instruction(random, &PARCELS).to_le_bytes();
            bytes.extend_from_slice(&[low, high])
        }
    }
}

// An image of so many instructions.
fn image(alloc: Global, count: u32, random: &mut Random) -> Result<Vec<u8>, AllocError> {
    let mut bytes = Vec::with_capacity(alloc, count as usize * 4)?;
    for _ in 0..count {
        append(&mut bytes, random)?;
    }
    Ok(bytes)
}

/// The digest of the rows of images of so many instructions in all.
pub fn digest(alloc: Global, count: u32, seed: u32) -> Result<u64, Fail> {
    let mut digest = Digest::new();
    for place in 0..count.div_ceil(IMAGE) {
        let mut random = Random::at(seed, place);
        let bytes = image(alloc, count.min(IMAGE), &mut random)?;
        for row in &disassemble(alloc, bytes.as_slice(), random.number())? {
            digest.add_row(row);
        }
    }
    Ok(digest.value())
}
