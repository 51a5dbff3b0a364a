//! Files that are read.

use crate::failure::Failure;
use crate::names::{NOT_TEXT, Shown, shown_file, was_text};
use rv_files::{LoadError, load};
use rv_store::{Store, base_ok};
use std::fs;
use std::io::{self, Read};

// The most bytes of a file.
const MOST: u64 = 64 * 1024 * 1024;

// The bytes of a reader, if they are not too many.
fn bytes_of<R: Read + Drop>(rt: &HostRuntime, reader: R) -> Result<Vec<u8>, Failure> {
    let mut bytes = Vec::new(rt.alloc());
    match reader.take(MOST + 1).read_to_end(&mut bytes) {
        Ok(_) if bytes.len() as u64 <= MOST => Ok(bytes),
        Ok(_) => Err(Failure::Read("larger than 64 MiB")),
        Err(error) => Err(Failure::of_reading(error.kind())),
    }
}

/// The bytes of a file, or of standard input where its name is `-`: at most 64 MiB.
pub fn read(rt: &HostRuntime, name: &str) -> Result<Vec<u8>, Failure> {
    if name == "-" {
        return bytes_of(rt, rt.reader());
    }
    if !was_text(name) {
        return Err(Failure::Read(NOT_TEXT));
    }
    match fs::open(rt, name) {
        Ok(file) => bytes_of(rt, file),
        Err(error) => Err(Failure::of_reading(error.kind())),
    }
}

// Says that a line has too many bytes.
fn say_long_line(rt: &HostRuntime, file: Shown<'_>, line: u32) -> io::Result<()> {
    eprintln!(rt; "{file}:{line}:1001: error: a line has at most 1000 bytes [line-too-long]")
}

// Says that there are too many lines.
fn say_many_lines(rt: &HostRuntime, file: Shown<'_>) -> io::Result<()> {
    eprintln!(rt; "{file}:16385:1: error: a text has at most 16384 lines [too-many-lines]")
}

// Reports a line past a limit.
fn report_limit(rt: &HostRuntime, name: &str, error: LoadError) -> Failure {
    match error {
        LoadError::LineTooLong(line) => {
            let _ = say_long_line(rt, shown_file(name), line);
            Failure::Faulty
        }
        LoadError::TooManyLines => {
            let _ = say_many_lines(rt, shown_file(name));
            Failure::Faulty
        }
        LoadError::Memory => Failure::Memory,
    }
}

/// The text of a file whose first section begins at the base.
pub fn read_text(rt: &HostRuntime, name: &str, base: u32) -> Result<Store, Failure> {
    if !base_ok(base) {
        return Err(Failure::Base);
    }
    let bytes = read(rt, name)?;
    load(rt.alloc(), base, bytes.as_slice()).map_err(|error| report_limit(rt, name, error))
}
