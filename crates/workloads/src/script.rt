//! The commands of a session with the editor.

use crate::digest::Digest;
use rv_commands::run;
use rv_text::MemSource;
use std::alloc::{AllocError, Global};
use std::test::Fail;

/// Commands, each with its line break.
#[derive(Drop)]
pub struct Script {
    alloc: Global,
    commands: String,
}

impl Script {
    /// No commands.
    pub fn new(alloc: Global) -> Script {
        Script {
            alloc,
            commands: String::new(alloc),
        }
    }

    /// The commands.
    pub fn as_str(&self) -> &str {
        self.commands.as_str()
    }

    /// A command.
    pub fn ask(&mut self, command: &str) -> Result<(), AllocError> {
        self.commands.push_str(command)?;
        self.commands.push('\n')
    }

    /// A line at the end.
    pub fn append(&mut self, line: &str) -> Result<(), AllocError> {
        self.commands.push_str("a ")?;
        self.ask(line)
    }

    // A command with the number of a line and its text.
    fn edit(&mut self, command: &str, number: u32, line: &str) -> Result<(), AllocError> {
        let start = format!(in self.alloc; "{command} {number} ")?;
        self.commands.push_str(start.as_str())?;
        self.ask(line)
    }

    /// A line above the one of this number.
    pub fn insert(&mut self, number: u32, line: &str) -> Result<(), AllocError> {
        self.edit("i", number, line)
    }

    /// A line in the place of the one of this number.
    pub fn replace(&mut self, number: u32, line: &str) -> Result<(), AllocError> {
        self.edit("r", number, line)
    }

    /// The line of this number is deleted.
    pub fn delete(&mut self, number: u32) -> Result<(), AllocError> {
        let command = format!(in self.alloc; "d {number}")?;
        self.ask(command.as_str())
    }

    /// The line of this number is typed anew key by key, of which so many bytes and one more are kept at first.
    pub fn retype(&mut self, number: u32, kept: usize, line: &str) -> Result<(), AllocError> {
        for (place, _) in line.char_indices() {
            if place > kept {
                self.replace(number, line.get(..place).unwrap_or(""))?;
            }
        }
        self.replace(number, line)
    }
}

/// The digest of the answers to the commands, over a text that begins at address 0.
pub fn digest_of_script(alloc: Global, script: &Script) -> Result<u64, Fail> {
    let mut source = MemSource::new(script.as_str().as_bytes());
    let mut digest = Digest::new();
    match run(alloc, &mut source, &mut digest, 0) {
        Ok(()) => Ok(digest.value()),
        Err(_) => Err(Fail::new("a session that ended early")),
    }
}
