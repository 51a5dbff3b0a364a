//! An editor of assembly text: commands come in, answers go out.
#![tactic(auto)]

ghost use Rattle.std.specs.Prelude.{◌≡◌, true};
ghost use Rattle.rv_layout.specs.Places.{is_base};
ghost use Rattle.rv_commands.specs.Faults.{run_status};

pub mod arguments;

use arguments::{ArgFault, arguments};
use rv_commands::{RunError, message, run, status};
use rv_text::{StdSink, StdSource};
use std::io::{self, ErrorKind};
use std::process::ExitCode;

// Says something on standard error, if it can be said.
fn say(rt: &HostRuntime, text: &str) {
    let _ = rt.eprintln(text);
}

// Says why a run ended early, and gives the status.
fn report(rt: &HostRuntime, e: RunError) -> u8
    ensures { result ≡ run_status e }
{
    say(rt, message(&e));
    status(&e)
}

// Runs on standard input and output.
fn edit(rt: &HostRuntime, base: u32) -> u8
    requires { is_base base ≡ true }
{
    let mut source = StdSource::new(rt.reader());
    let mut sink = StdSink::new(io::writer(rt));
    match run(rt.alloc(), &mut source, &mut sink, base) {
        Ok(()) => 0,
        Err(e) => report(rt, e),
    }
}

// Says why the arguments give no base, and gives the status. Help or a usage text that can't be written is a write fault.
fn refuse(rt: &HostRuntime, fault: ArgFault) -> u8 {
    let status = fault.status();
    let written = match fault {
        ArgFault::Help(text) => rt.print(text).is_ok(),
        ArgFault::Usage(text) => rt.eprint(text).is_ok(),
        ArgFault::Base => {
            say(rt, "rvedit: bad base");
            true
        }
        ArgFault::Memory => {
            say(rt, message(&RunError::Memory));
            true
        }
    };
    if written {
        status
    } else {
        report(rt, RunError::Write)
    }
}

// Says why the arguments cannot be read, and gives the status.
fn unread(rt: &HostRuntime, error: &io::Error) -> u8 {
    if error.kind() == ErrorKind::OutOfMemory {
        return report(rt, RunError::Memory);
    }
    say(rt, "rvedit: bad arguments");
    2
}

fn main(rt: HostRuntime) -> ExitCode {
    let words = match std::env::args(&rt) {
        Ok(words) => words,
        Err(error) => return ExitCode::from(unread(&rt, &error)),
    };
    let Ok(words) = words.collect::<Vec<String>>(rt.alloc()) else {
        return ExitCode::from(report(&rt, RunError::Memory));
    };
    match arguments(rt.alloc(), words.as_slice()) {
        Ok(base) => ExitCode::from(edit(&rt, base)),
        Err(fault) => ExitCode::from(refuse(&rt, fault)),
    }
}
