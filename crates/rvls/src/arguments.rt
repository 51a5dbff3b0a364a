//! The arguments of the program.

use clap::{Arg, ArgAction, Command};
use std::alloc::Global;
use std::convert::AsStr;

/// The version of the program.
pub const VERSION: &str = "0.1.0";

/// Sees whether the arguments ask for a session. The first word is the program's name. Some editors pass `--stdio`, and the number of their own process:
/// these change nothing.
///
/// # Errors
///
/// The help or the version, where that is asked for, or what is wrong with the arguments.
pub fn check_arguments<S: AsStr>(alloc: Global, words: &[S]) -> Result<(), clap::Error> {
    let stdio = Arg::new(alloc, "stdio")
        .long("stdio")
        .help("Serve over standard input and output, as without it")
        .action(ArgAction::SetTrue);
    let client = Arg::new(alloc, "clientProcessId")
        .long("clientProcessId")
        .value_name("N")
        .help("The process of the editor, which changes nothing")
        .action(ArgAction::Set);
    let command = Command::new(alloc, "rvls")
        .version(VERSION)
        .about("A language server for RISC-V assembly, over standard input and output")
        .after_help("How an editor starts it is described in docs/EDITORS.md.")
        .arg(stdio)?
        .arg(client)?;
    command.try_get_matches_from(words)?;
    Ok(())
}
