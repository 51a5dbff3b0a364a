//! An assembler of files: it reads files, writes files, and reports what is wrong with a text.
#![tactic(auto)]

mod arguments;
mod explain;
mod failure;
mod format;
mod input;
mod names;
mod noting;
mod output;
mod replacement;
mod sums;
mod tasks;
mod ways;
mod words;

use arguments::{ArgumentFault, Arguments, Task, arguments_from};
use failure::Failure;
use names::Shown;
use noting::unless_closed;
use std::process::ExitCode;
use tasks::{assemble, check, disassemble_file, explain_fault, list};
use words::words;

// Says some lines on standard error, if they can be said.
fn say_lines(rt: &HostRuntime, text: &str) {
    for line in text.lines() {
        let _ = rt.eprintln(Shown(line));
    }
}

// Does what is asked for, and gives the status.
fn status_of(rt: &HostRuntime, arguments: &Arguments<'_>) -> u8 {
    match arguments.task {
        Task::Assemble => assemble(rt, arguments),
        Task::Check => check(rt, arguments),
        Task::List => list(rt, arguments),
        Task::Disassemble => disassemble_file(rt, arguments),
        Task::Explain => explain_fault(rt, arguments),
    }
}

// Prints a text that was asked for, and gives the status.
fn print_help(rt: &HostRuntime, text: String) -> u8 {
    let Err(error) = rt.print(text) else {
        return 0;
    };
    match unless_closed(error.kind()) {
        Ok(()) => 0,
        Err(failure) => failure.status(),
    }
}

// Says why the arguments ask for nothing, and gives the status.
fn refuse(rt: &HostRuntime, fault: ArgumentFault) -> u8 {
    match fault {
        ArgumentFault::Help(text) => print_help(rt, text),
        ArgumentFault::Usage(text) => {
            say_lines(rt, text.as_str());
            2
        }
        ArgumentFault::Memory => {
            say_lines(rt, "rvas: out of memory");
            Failure::Memory.status()
        }
    }
}

fn main(rt: HostRuntime) -> ExitCode {
    let Ok(words) = words(&rt) else {
        return ExitCode::from(refuse(&rt, ArgumentFault::Memory));
    };
    match arguments_from(rt.alloc(), words.as_slice()) {
        Ok(arguments) => ExitCode::from(status_of(&rt, &arguments)),
        Err(fault) => ExitCode::from(refuse(&rt, fault)),
    }
}
