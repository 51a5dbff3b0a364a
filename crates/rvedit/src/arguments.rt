//! The arguments of the program.

ghost use Rattle.std.specs.Prelude.{◌≡◌, true, IfOk, IfSome};
ghost use Rattle.rv_layout.specs.Places.{is_base};
ghost use Rattle.rvedit.specs.declared.arguments.ArgFault.TheVariants.{Memory};
ghost use Rattle.rvedit.specs.Arguments.{argument_status, base_spelled};

use clap::error::ErrorKind;
use clap::{Arg, ArgAction, Command};
use rv_store::base_ok;
use rv_text::number;
use std::alloc::{AllocError, Global};
use std::convert::AsStr;

/// The version of the program.
pub const VERSION: &str = "0.1.0";

/// Why the arguments give no base.
#[derive(Debug, Drop)]
pub enum ArgFault {
    /// Help or the version was asked for: its text.
    Help(String),
    /// The arguments are wrong: what is wrong with them.
    Usage(String),
    /// The value of `--base` is no base.
    Base,
    /// Memory ran out.
    Memory,
}

impl ArgFault {
    /// The status of the process.
    pub fn status(&self) -> u8
        ensures { result ≡ argument_status self.now }
    {
        match self {
            ArgFault::Help(_) => 0,
            ArgFault::Usage(_) => 2,
            ArgFault::Base => 2,
            ArgFault::Memory => 5,
        }
    }
}

impl From<AllocError> for ArgFault {
    ghost from_gives = { λ _ e. e ≡ Memory };

    fn from(_: AllocError) -> Self {
        ArgFault::Memory
    }
}

/// The base that a text spells: one number as a whole, which is a multiple of 4096 and at most 0x80000000.
pub fn base_of(text: &str) -> Option<u32>
    ensures exact { result ≡ base_spelled text.now }
    ensures right { IfSome result (λ base. is_base base ≡ true) }
{
    let value = number(text.as_bytes())?;
    let base = u32::try_from(value).ok()?;
    if base_ok(base) { Some(base) } else { None }
}

// What clap says against the arguments.
fn fault_of(alloc: Global, error: &clap::Error) -> Result<ArgFault, AllocError> {
    match error.kind() {
        ErrorKind::DisplayHelp | ErrorKind::DisplayVersion => {
            Ok(ArgFault::Help(format!(in alloc; "{error}")?))
        }
        ErrorKind::OutOfMemory => Ok(ArgFault::Memory),
        _ => Ok(ArgFault::Usage(format!(in alloc; "{error}")?)),
    }
}

/// The base that the arguments ask for, or 0 where they name none. The first word is the program's name.
pub fn arguments<S: AsStr>(alloc: Global, words: &[S]) -> Result<u32, ArgFault>
    ensures { IfOk result (λ base. is_base base ≡ true) }
{
    let option = Arg::new(alloc, "base")
        .long("base")
        .value_name("ADDRESS")
        .help(
            "Where the first section begins [default: 0]: a multiple of 4096, at most 0x80000000, as a number of the language: decimal, 0x and hexadecimal, 0b and binary, or 0 and octal digits",
        )
        .action(ArgAction::Set);
    let command = Command::new(alloc, "rvedit")
        .version(VERSION)
        .about("Assembles RISC-V text that commands on standard input edit")
        .after_help("The commands and their answers are described in docs/EDITOR.md.")
        .arg(option)?;
    match command.try_get_matches_from(words) {
        Ok(matches) => match matches.get_str("base") {
            None => Ok(0),
            Some(text) => base_of(text).ok_or(ArgFault::Base),
        },
        Err(error) => Err(fault_of(alloc, &error)?),
    }
}
