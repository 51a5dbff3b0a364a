//! Numbers as bytes, the lowest byte first.

ghost use Rattle.std.specs.Prelude.{◌≡◌, ◌++◌, replicate, OnOk};
ghost use Rattle.rv_files.specs.Elf.{half, halves, word, words};

use std::alloc::AllocError;

// Appends the lowest 16 bits of a number.
fn push_half(out: &mut Vec<u8>, number: u64) -> Result<(), AllocError>
    ensures { OnOk result (out.new.items ≡ out.old.items ++ half number) }
{
    out.extend_from_slice(&[(number % 0x100) as u8, (number / 0x100 % 0x100) as u8])
}

// Appends the lowest 32 bits of a number.
fn push_word(out: &mut Vec<u8>, number: u64) -> Result<(), AllocError>
    ensures { OnOk result (out.new.items ≡ out.old.items ++ word number) }
{
    out.extend_from_slice(&[
        (number % 0x100) as u8,
        (number / 0x100 % 0x100) as u8,
        (number / 0x1_0000 % 0x100) as u8,
        (number / 0x100_0000 % 0x100) as u8,
    ])
}

/// Appends the lowest 16 bits of each number.
#[tactic(auto, unfolding(crate::specs::Elf::halves))]
pub fn push_halves(out: &mut Vec<u8>, mut numbers: &[u64]) -> Result<(), AllocError>
    ensures { OnOk result (out.new.items ≡ out.old.items ++ halves numbers.entry.now) }
{
    'numbers: while let [number, later @ ..] = numbers {
        push_half(out, *number)?;
        numbers = later;
    }
    Ok(())
}

/// Appends the lowest 32 bits of each number.
#[tactic(auto, unfolding(crate::specs::Elf::words))]
pub fn push_words(out: &mut Vec<u8>, mut numbers: &[u64]) -> Result<(), AllocError>
    ensures { OnOk result (out.new.items ≡ out.old.items ++ words numbers.entry.now) }
{
    'numbers: while let [number, later @ ..] = numbers {
        push_word(out, *number)?;
        numbers = later;
    }
    Ok(())
}

/// Appends so many zeros.
pub fn push_zeros(out: &mut Vec<u8>, count: usize) -> Result<(), AllocError>
    ensures { OnOk result (out.new.items ≡ out.old.items ++ replicate count 0) }
{
    let mut left = count;
    'zeros: while left > 0 {
        out.push(0)?;
        left -= 1;
    }
    Ok(())
}
