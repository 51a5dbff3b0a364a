//! What is written.

ghost use Rattle.std.specs.Prelude.{◌≡◌};

use crate::failure::Failure;
use crate::format::Format;
use crate::names::{NOT_TEXT, was_text};
use crate::noting::Noting;
use crate::replacement::Replacement;
use rv_files::{Elf, Segment, segments, symbols, write_bin, write_elf, write_hex};
use rv_list::write_image;
use rv_store::{Store, SymValue};
use rv_text::{Failed, StdSink};
use std::alloc::{AllocError, Global};
use std::fs::{self, File};
use std::io::{self, ErrorKind, Write};
use std::os::unix::fs::PermissionsExt;

/// What is written.
#[derive(Drop)]
pub enum Output<'a> {
    /// The bytes of memory from this address on.
    Bin(u32, Vec<Segment>),
    /// Intel HEX, whose program starts at this address.
    Hex(u32, Vec<Segment>),
    Elf(Elf),
    Image(&'a Store),
}

// The address at which the program starts.
fn entry_of(store: &Store, base: u32, name: Option<&str>) -> Result<u32, Failure> {
    if let Some(SymValue::Label(address)) = store.symbol(name.unwrap_or("_start").as_bytes()) {
        return Ok(address);
    }
    match name {
        Some(_) => Err(Failure::NoLabel),
        None => Ok(base),
    }
}

// The ELF file of a text that starts at an address.
fn elf_of(alloc: Global, store: &Store, entry: u32) -> Result<Elf, AllocError> {
    let symbols = symbols(alloc, &store)?;
    let segments = segments(alloc, &store)?;
    Elf::of(alloc, entry, segments, symbols.as_slice())
}

// Lets all execute a plain file who may read it.
fn make_executable(file: &File) -> io::Result<()> {
    let found = file.metadata()?;
    if !found.is_file() {
        return Ok(());
    }
    let mut permissions = found.permissions();
    let mode = permissions.mode();
    permissions.set_mode(mode | ((mode & 0o444) >> 2));
    file.set_permissions(permissions)
}

impl<'a> Output<'a> {
    /// A text in a format. All that is written of it is known then.
    pub fn of(
        rt: &HostRuntime,
        store: &'a Store,
        base: u32,
        entry: Option<&str>,
        format: Format,
    ) -> Result<Output<'a>, Failure> {
        let entry = entry_of(store, base, entry)?;
        let alloc = rt.alloc();
        match format {
            Format::Bin => Ok(Output::Bin(base, segments(alloc, &store)?)),
            Format::Hex => Ok(Output::Hex(entry, segments(alloc, &store)?)),
            Format::Elf => Ok(Output::Elf(elf_of(alloc, store, entry)?)),
            Format::Image => Ok(Output::Image(store)),
        }
    }

    // Writes it.
    fn write<W: Write>(&self, sink: &mut StdSink<W>) -> Result<(), Failed>
        requires { sink.old.failures ≡ 0 }
    {
        match self {
            Output::Bin(base, segments) => write_bin(*base, segments.as_slice(), sink),
            Output::Hex(entry, segments) => write_hex(segments.as_slice(), *entry, sink),
            Output::Elf(elf) => write_elf(elf, sink),
            Output::Image(store) => write_image(store, sink).map_err(|_| Failed),
        }
    }

    // Writes it to a writer.
    fn write_out<W: Write + Drop>(&self, writer: W) -> Result<(), Failure> {
        let mut sink = StdSink::new(Noting::new(writer));
        match self.write(&mut sink) {
            Ok(()) => Ok(()),
            Err(_) => Err(Failure::of_writing(sink.writer.kind())),
        }
    }

    // Writes it into a file that is open. A program may be executed by all who may read it.
    fn write_into(&self, file: &File) -> Result<(), Failure> {
        if let Output::Elf(_) = self {
            let _ = make_executable(file);
        }
        self.write_out(file)
    }

    // Writes it into a file that is open, and waits until it is on the disk.
    fn write_through(&self, file: &File) -> Result<(), Failure> {
        self.write_into(file)?;
        match file.sync_all() {
            Ok(()) => Ok(()),
            Err(error) => Err(Failure::of_writing(error.kind())),
        }
    }

    // Writes it into a file that was made for it, and that goes if not all is written.
    fn write_new(&self, rt: &HostRuntime, name: &str, file: &File) -> Result<(), Failure> {
        let written = self.write_into(file);
        if written.is_err() {
            let _ = fs::remove_file(rt, name);
        }
        written
    }

    // Writes it into what is there, in its place.
    fn write_over(&self, rt: &HostRuntime, name: &str) -> Result<(), Failure> {
        match fs::create(rt, name) {
            Ok(file) => self.write_into(&file),
            Err(error) => Err(Failure::of_writing(error.kind())),
        }
    }

    // Writes it into a file. A plain file that is there stays as it was until all is on the disk.
    fn write_file(&self, rt: &HostRuntime, name: &str) -> Result<(), Failure> {
        if !was_text(name) {
            return Err(Failure::Write(NOT_TEXT));
        }
        if let Some((file, replacement)) = Replacement::of(rt, name)? {
            let written = self.write_through(&file);
            return replacement.settle(rt, written);
        }
        match File::create_new(rt, name) {
            Ok(file) => self.write_new(rt, name, &file),
            Err(error) if error.kind() == ErrorKind::AlreadyExists => self.write_over(rt, name),
            Err(error) => Err(Failure::of_writing(error.kind())),
        }
    }

    /// Writes it into a file, or to standard output where its name is `-`.
    pub fn write_to(&self, rt: &HostRuntime, name: &str) -> Result<(), Failure> {
        if name == "-" {
            self.write_out(io::writer(rt))
        } else {
            self.write_file(rt, name)
        }
    }
}
