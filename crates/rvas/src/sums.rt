//! What came of several files.

use crate::failure::Failure;
use std::io;

/// What came of the files so far.
#[derive(Drop)]
pub struct Sums {
    faulty: u32,
    missed: u32,
    faults: u32,
    status: u8,
}

impl Sums {
    /// Of no file.
    pub fn none() -> Self {
        Sums {
            faulty: 0,
            missed: 0,
            faults: 0,
            status: 0,
        }
    }

    /// Adds a file with so many faults, and says whether it has some.
    pub fn add(&mut self, faults: u32) -> Result<(), Failure> {
        if faults == 0 {
            return Ok(());
        }
        self.faulty = self.faulty.saturating_add(1);
        self.faults = self.faults.saturating_add(faults);
        self.status = self.status.max(Failure::Faulty.status());
        Err(Failure::Faulty)
    }

    /// Adds a file that could not be checked, and says why.
    pub fn miss(&mut self, failure: Failure) -> Result<(), Failure> {
        self.missed = self.missed.saturating_add(1);
        self.status = self.status.max(failure.status());
        Err(failure)
    }

    /// The greatest status.
    pub fn status(&self) -> u8 {
        self.status
    }

    /// Says what came of so many files, where it is more than one and not all are right.
    pub fn say(&self, rt: &HostRuntime, files: usize) {
        if files < 2 || self.status == 0 {
            return;
        }
        let _ = self.say_counts(rt, files);
    }

    // Says how many files have faults, how many were not checked, and how many faults there are.
    fn say_counts(&self, rt: &HostRuntime, files: usize) -> io::Result<()> {
        let (faulty, missed, faults) = (self.faulty, self.missed, self.faults);
        let noun = if faults == 1 { "fault" } else { "faults" };
        match missed {
            0 => eprintln!(rt; "{files} files, {faulty} with faults: {faults} {noun}"),
            _ => eprintln!(rt;
                "{files} files, {faulty} with faults, {missed} not checked: {faults} {noun}"
            ),
        }
    }
}
