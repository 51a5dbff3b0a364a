//! Files that take the place of others when they are whole.

use crate::failure::Failure;
use std::fs::{self, File, Metadata, OpenOptions};
use std::io::{self, ErrorKind};
use std::os::unix::fs::MetadataExt;
use std::path::PathBuf;

// How many names are tried for a file beside another one.
const NAMES: u32 = 10;

/// A file beside the one whose place it is to take.
#[derive(Drop)]
pub struct Replacement {
    place: PathBuf,
    name: String,
}

// Whether a file that is there may give way to another one: a plain file with no other name.
fn gives_way(found: &Metadata) -> bool {
    found.is_file() && found.nlink() == 1
}

// The path of a file, behind all links, and what is known of it, if it is there, may give way to another one and may be written.
fn place_of(rt: &HostRuntime, name: &str) -> io::Result<Option<(PathBuf, Metadata)>> {
    let found = fs::metadata(rt, name)?;
    if !gives_way(&found) {
        return Ok(None);
    }
    OpenOptions::new().write(true).open(rt, name)?;
    Ok(Some((fs::canonicalize(rt, name)?, found)))
}

// Gives a new file the permissions of another one. Whether it has them, and the same owner and group.
fn takes_after(file: &File, found: &Metadata) -> bool {
    match file.metadata() {
        Ok(made) if made.uid() == found.uid() && made.gid() == found.gid() => {
            file.set_permissions(found.permissions()).is_ok()
        }
        _ => false,
    }
}

// A new file with a name of its own beside the one of a path.
fn new_beside(rt: &HostRuntime, place: &PathBuf) -> io::Result<(File, String)> {
    for number in 0..NAMES {
        let name = format!(in rt.alloc(); "{}.{number}~", place.display())?;
        match File::create_new(rt, &name) {
            Ok(file) => return Ok((file, name)),
            Err(error) if error.kind() == ErrorKind::AlreadyExists => {}
            Err(error) => return Err(error),
        }
    }
    Err(io::Error::from(ErrorKind::AlreadyExists))
}

impl Replacement {
    /// A new file beside the one of this name, with its owner and permissions. `None` if there is no such file, if it is not a plain
    /// one that may be written, or if none can be made beside it: then the file itself has to be written.
    pub fn of(rt: &HostRuntime, name: &str) -> Result<Option<(File, Replacement)>, Failure> {
        match place_of(rt, name) {
            Ok(Some((place, found))) => Replacement::beside(rt, place, &found),
            Ok(None) => Ok(None),
            Err(error) => unless_memory(&error),
        }
    }

    // A new file beside the one of a path, with its owner and permissions.
    fn beside(
        rt: &HostRuntime,
        place: PathBuf,
        found: &Metadata,
    ) -> Result<Option<(File, Replacement)>, Failure> {
        match new_beside(rt, &place) {
            Ok((file, name)) => Ok(Replacement { place, name }.if_alike(rt, file, found)),
            Err(error) => unless_memory(&error),
        }
    }

    // It and its file, if that takes after the other one; else the file goes.
    fn if_alike(
        self,
        rt: &HostRuntime,
        file: File,
        found: &Metadata,
    ) -> Option<(File, Replacement)> {
        if takes_after(&file, found) {
            return Some((file, self));
        }
        self.drop_file(rt);
        None
    }

    /// Takes the place, where the file was written; else it goes, and the other file stays.
    pub fn settle(&self, rt: &HostRuntime, written: Result<(), Failure>) -> Result<(), Failure> {
        let settled = match written {
            Ok(()) => self.take_place(rt),
            Err(failure) => Err(failure),
        };
        if settled.is_err() {
            self.drop_file(rt);
        }
        settled
    }

    fn take_place(&self, rt: &HostRuntime) -> Result<(), Failure> {
        match fs::rename(rt, &self.name, &self.place) {
            Ok(()) => Ok(()),
            Err(error) => Err(Failure::of_writing(error.kind())),
        }
    }

    fn drop_file(&self, rt: &HostRuntime) {
        let _ = fs::remove_file(rt, &self.name);
    }
}

// No file, but if there was no memory for it.
fn unless_memory<T>(error: &io::Error) -> Result<Option<T>, Failure> {
    match error.kind() {
        ErrorKind::OutOfMemory => Err(Failure::Memory),
        _ => Ok(None),
    }
}
