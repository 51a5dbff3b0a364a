//! The faults of a text, as they are written by looking at all lines, and by looking only at those that may have some.

use crate::script::{NO_HASH, hash_after};
use rv_list::{ListError, write_faults, write_tested_faults};
use rv_store::Store;
use rv_text::{Failed, Sink};
use std::test::Fail;

// How many bytes were written, and their hash.
#[derive(Clone, Copy, PartialEq, Eq)]
struct Written {
    count: u64,
    hash: u64,
}

impl Written {
    fn nothing() -> Written {
        Written {
            count: 0,
            hash: NO_HASH,
        }
    }
}

impl Sink for Written {
    ghost use Rattle.std.specs.Prelude.{None};

    ghost taken = { λ _. None };

    ghost failures = { λ _. 0 };

    fn write(&mut self, bytes: &[u8]) -> Result<usize, Failed> {
        self.count = self.count.wrapping_add(bytes.len() as u64);
        self.hash = hash_after(self.hash, bytes);
        Ok(bytes.len())
    }
}

// What is written of a text by looking at all lines, and by looking only at those that may have faults.
fn both_written(store: &Store) -> Result<[Written; 2], ListError> {
    let mut all = Written::nothing();
    write_faults(&store, &mut all)?;
    let mut tested = Written::nothing();
    write_tested_faults(&store, &mut tested)?;
    Ok([all, tested])
}

/// Fails where the two ways write other faults. Takes no memory.
pub fn compare_faults(store: &Store) -> Result<(), Fail> {
    let [all, tested] = both_written(store)?;
    if all != tested {
        return Err(Fail::new("the lines that may have faults have others than all lines"));
    }
    Ok(())
}
