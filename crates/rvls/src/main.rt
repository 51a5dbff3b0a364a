//! A language server: messages of an editor come in over standard input, answers and diagnostics go out over standard output.
#![tactic(auto)]

mod arguments;
mod bodies;
mod looking_up;
mod publishing;
mod quick_fixes;
mod run;
mod server;
mod stored;
mod trial;
mod writing;

use arguments::check_arguments;
use clap::error::ErrorKind;
use run::{RunError, run};
use rv_text::{StdSink, StdSource};
use std::io;
use std::process::ExitCode;

// The status of wrong arguments.
const USAGE: u8 = 2;

// Says why the program ends early, and gives the status.
fn report(rt: &HostRuntime, error: RunError) -> u8 {
    let (what, status) = match error {
        RunError::Read => ("standard input cannot be read", 3),
        RunError::Write => ("standard output cannot be written", 4),
        RunError::Memory => ("out of memory", 5),
    };
    let _ = eprintln!(rt; "rvls: {what}");
    status
}

// Runs a session over standard input and output, and gives the status.
fn serve(rt: &HostRuntime) -> u8 {
    let mut source = StdSource::new(rt.reader());
    let mut sink = StdSink::new(io::writer(rt));
    match run(rt.alloc(), &mut source, &mut sink) {
        Ok(status) => status,
        Err(error) => report(rt, error),
    }
}

// Says why the arguments cannot be read, and gives the status.
fn unread(rt: &HostRuntime, error: &io::Error) -> u8 {
    if error.kind() == io::ErrorKind::OutOfMemory {
        return report(rt, RunError::Memory);
    }
    let _ = eprintln!(rt; "rvls: bad arguments");
    USAGE
}

// Prints the help or the version, or what is wrong with the arguments, and gives the status.
fn refuse(rt: &HostRuntime, error: &clap::Error) -> u8 {
    if error.kind() == ErrorKind::OutOfMemory {
        return report(rt, RunError::Memory);
    }
    let printed = error.print(rt);
    if error.use_stderr() {
        return USAGE;
    }
    match printed {
        Ok(()) => 0,
        Err(_) => report(rt, RunError::Write),
    }
}

fn main(rt: HostRuntime) -> ExitCode {
    let words = match std::env::args(&rt) {
        Ok(words) => words,
        Err(error) => return ExitCode::from(unread(&rt, &error)),
    };
    let Ok(words) = words.collect::<Vec<String>>(rt.alloc()) else {
        return ExitCode::from(report(&rt, RunError::Memory));
    };
    match check_arguments(rt.alloc(), words.as_slice()) {
        Ok(()) => ExitCode::from(serve(&rt)),
        Err(error) => ExitCode::from(refuse(&rt, &error)),
    }
}
