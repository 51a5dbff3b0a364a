//! The arguments of the program.

use crate::format::{FORMATS, Format};
use crate::names::Shown;
use clap::error::ErrorKind;
use clap::{Arg, ArgAction, ArgMatches, Command};
use rv_store::base_ok;
use rv_text::number;
use std::alloc::{AllocError, Global};
use std::convert::AsStr;

/// The version of the program.
pub const VERSION: &str = "0.1.0";

/// Why the arguments ask for nothing.
#[derive(Drop)]
pub enum ArgumentFault {
    /// Help or the version was asked for: its text.
    Help(String),
    /// The arguments are wrong: what is wrong with them.
    Usage(String),
    /// There was no memory.
    Memory,
}

impl From<AllocError> for ArgumentFault {
    fn from(_: AllocError) -> Self {
        ArgumentFault::Memory
    }
}

/// What the program is asked to do.
#[derive(Clone, Copy)]
pub enum Task {
    Assemble,
    Check,
    List,
    Disassemble,
    Explain,
}

const TASKS: [(&str, Task); 5] = [
    ("asm", Task::Assemble),
    ("check", Task::Check),
    ("list", Task::List),
    ("dis", Task::Disassemble),
    ("explain", Task::Explain),
];

/// When reports have colors.
#[derive(Clone, Copy)]
pub enum Color {
    Always,
    Never,
    /// Where standard error is a terminal.
    Auto,
}

/// The task and its arguments. What a task has no argument for is as if it were left out.
#[derive(Drop)]
pub struct Arguments<'a> {
    pub task: Task,
    /// The files, or the name that is explained.
    pub names: Vec<&'a str>,
    pub out: Option<&'a str>,
    pub format: Option<Format>,
    pub base: u32,
    pub entry: Option<&'a str>,
    pub force: bool,
    pub color: Color,
    /// Whether all reports of a file are shown.
    pub all: bool,
    /// Whether there are warnings.
    pub warnings: bool,
    /// Whether a text with a warning is taken for wrong.
    pub werror: bool,
    /// Whether reports give the lines of the file that was read, whatever marks it has.
    pub has_own_lines: bool,
    /// Whether the fields of instructions are shown.
    pub fields: bool,
}

// A command, if there was memory for it.
type Made<'a> = Result<Command<'a>, AllocError>;

const COLORS: [&str; 3] = ["always", "never", "auto"];

const SWITCH: [&str; 2] = ["off", "on"];

// An argument that has to be given.
fn argument<'a>(alloc: Global, name: &'a str, value: &'a str, help: &'a str) -> Arg<'a> {
    Arg::new(alloc, name)
        .value_name(value)
        .help(help)
        .required(true)
        .action(ArgAction::Set)
}

// An option with a value.
fn option<'a>(alloc: Global, name: &'a str, value: &'a str, help: &'a str) -> Arg<'a> {
    Arg::new(alloc, name)
        .long(name)
        .value_name(value)
        .help(help)
        .action(ArgAction::Set)
}

// An option without one.
fn switch<'a>(alloc: Global, name: &'a str, help: &'a str) -> Arg<'a> {
    Arg::new(alloc, name)
        .long(name)
        .help(help)
        .action(ArgAction::SetTrue)
}

// A command with one more argument, if there was memory for both.
fn with_argument<'a>(command: Made<'a>, argument: Arg<'a>) -> Made<'a> {
    command?.arg(argument)
}

// The file of a command.
fn file_argument<'a>(alloc: Global) -> Arg<'a> {
    argument(alloc, "file", "FILE", "The file, or - for standard input")
}

// The base of a text.
fn text_base<'a>(alloc: Global) -> Arg<'a> {
    let help =
        "Where the first section begins [default: 0]: a multiple of 4096, at most 0x80000000";
    option(alloc, "base", "V", help)
}

// When reports have colors.
fn color_option<'a>(alloc: Global) -> Arg<'a> {
    option(alloc, "color", "WHEN", "Whether reports have colors")
        .value_parser(COLORS.as_slice())
        .default_value("auto")
}

// Whether all reports are shown.
fn all_option<'a>(alloc: Global) -> Arg<'a> {
    switch(alloc, "all", "Show all reports, not only the first 1000")
}

// Whether reports give the lines of the file that was read.
fn no_line_marks_option<'a>(alloc: Global) -> Arg<'a> {
    let help = "Report the lines of FILE itself, not those that its line marks name";
    switch(alloc, "no-line-marks", help)
}

// Whether there are warnings.
fn warnings_option<'a>(alloc: Global) -> Arg<'a> {
    option(alloc, "warnings", "WHEN", "Whether there are warnings")
        .short('W')
        .value_parser(SWITCH.as_slice())
        .default_value("on")
}

// Whether a text with a warning is taken for wrong.
fn werror_option<'a>(alloc: Global) -> Arg<'a> {
    switch(alloc, "werror", "Take a file with a warning for wrong")
}

// How reports are shown, whether there are warnings, and what they change.
fn with_reports<'a>(alloc: Global, command: Made<'a>) -> Made<'a> {
    let command = with_argument(command, color_option(alloc));
    let command = with_argument(command, all_option(alloc));
    let command = with_argument(command, no_line_marks_option(alloc));
    let command = with_argument(command, warnings_option(alloc));
    with_argument(command, werror_option(alloc))
}

// Where the bytes go to.
fn output_option<'a>(alloc: Global) -> Arg<'a> {
    let help = "Where the bytes are written [default: standard output]";
    option(alloc, "output", "OUT", help).short('o')
}

// In which format they are written.
fn format_option<'a>(alloc: Global) -> Arg<'a> {
    let help = "The format of OUT [default: by its ending, else bin]";
    option(alloc, "format", "FORMAT", help)
        .short('f')
        .value_parser(FORMATS.as_slice())
}

// Where the program starts.
fn entry_option<'a>(alloc: Global) -> Arg<'a> {
    let help = "The label at which the program starts [default: _start, else the base]";
    option(alloc, "entry", "NAME", help)
}

// Whether a text with faults is written.
fn force_option<'a>(alloc: Global) -> Arg<'a> {
    switch(alloc, "force", "Write OUT although FILE has faults")
}

// What is written of a text, and where to.
fn with_output<'a>(alloc: Global, command: Made<'a>) -> Made<'a> {
    let command = with_argument(command, output_option(alloc));
    let command = with_argument(command, format_option(alloc));
    let command = with_argument(command, entry_option(alloc));
    with_argument(command, force_option(alloc))
}

fn assemble_command<'a>(alloc: Global) -> Made<'a> {
    let command = Command::new(alloc, "asm").about("Assembles a file");
    let command = with_output(alloc, Ok(command));
    let command = with_argument(command, text_base(alloc));
    let command = with_reports(alloc, command);
    with_argument(command, file_argument(alloc))
}

fn check_command<'a>(alloc: Global) -> Made<'a> {
    let files = file_argument(alloc).num_args(1..).action(ArgAction::Append);
    let command = Command::new(alloc, "check").about(
        "Assembles each file by itself, and writes nothing",
    );
    let command = with_argument(Ok(command), text_base(alloc));
    let command = with_reports(alloc, command);
    with_argument(command, files)
}

fn list_command<'a>(alloc: Global) -> Made<'a> {
    let command = Command::new(alloc, "list").about("Writes the listing of a file");
    let command = with_argument(Ok(command), text_base(alloc));
    let command = with_reports(alloc, command);
    with_argument(command, file_argument(alloc))
}

fn disassemble_command<'a>(alloc: Global) -> Made<'a> {
    let base = option(
        alloc,
        "base",
        "V",
        "The address of the first byte [default: 0]",
    );
    let fields = switch(
        alloc,
        "fields",
        "Show the fields of each instruction below it",
    );
    let command = Command::new(alloc, "dis").about("Disassembles a file of raw bytes");
    let command = with_argument(Ok(command), base);
    let command = with_argument(command, fields);
    with_argument(command, file_argument(alloc))
}

// The name of a fault or of a word of the language.
fn name_argument<'a>(alloc: Global) -> Arg<'a> {
    let help = "The name of a fault, or its number; of an instruction, a directive or a register";
    argument(alloc, "name", "NAME", help)
}

fn explain_command<'a>(alloc: Global) -> Made<'a> {
    Command::new(alloc, "explain")
        .about("Says what a fault, or a name of the language, means")
        .arg(name_argument(alloc))
}

// A command with one more below it, if there was memory for both.
fn with_command<'a>(command: Made<'a>, below: Made<'a>) -> Made<'a> {
    command?.subcommand(below?)
}

// The program's own command.
fn command<'a>(alloc: Global) -> Made<'a> {
    let command = Command::new(alloc, "rvas")
        .version(VERSION)
        .about("Assembles RISC-V text in files")
        .after_help("The commands and formats are described in docs/FILES.md.")
        .subcommand_required(true);
    let command = with_command(Ok(command), assemble_command(alloc));
    let command = with_command(command, check_command(alloc));
    let command = with_command(command, list_command(alloc));
    let command = with_command(command, disassemble_command(alloc));
    with_command(command, explain_command(alloc))
}

// What clap says against the arguments.
fn fault_of(alloc: Global, error: &clap::Error) -> Result<ArgumentFault, AllocError> {
    match error.kind() {
        ErrorKind::DisplayHelp | ErrorKind::DisplayVersion => {
            Ok(ArgumentFault::Help(format!(in alloc; "{error}")?))
        }
        ErrorKind::OutOfMemory => Ok(ArgumentFault::Memory),
        _ => Ok(ArgumentFault::Usage(format!(in alloc; "{error}")?)),
    }
}

// The task of this name.
fn task_named(name: &str) -> Option<Task> {
    for (known, task) in &TASKS {
        if name == *known {
            return Some(*task);
        }
    }
    None
}

// Whether a task may begin at an address. Bytes may be disassembled from any address on.
fn is_base(task: Task, base: u32) -> bool {
    match task {
        Task::Disassemble => true,
        _ => base_ok(base),
    }
}

// The base that a text spells as a whole, as the language spells numbers.
fn base_named(task: Task, text: &str) -> Option<u32> {
    let base = u32::try_from(number(text.as_bytes())?).ok()?;
    if is_base(task, base) {
        Some(base)
    } else {
        None
    }
}

// Why a text is wrong, since it has to be one of these bases.
fn no_base(alloc: Global, text: &str, bases: &str) -> ArgumentFault {
    match format!(in alloc; "rvas: '{}' is not a base: {bases}\n", Shown(text)) {
        Ok(said) => ArgumentFault::Usage(said),
        Err(_) => ArgumentFault::Memory,
    }
}

// The base that is given, or 0.
fn base_of(alloc: Global, task: Task, text: Option<&str>) -> Result<u32, ArgumentFault> {
    let Some(text) = text else {
        return Ok(0);
    };
    if let Some(base) = base_named(task, text) {
        return Ok(base);
    }
    match task {
        Task::Disassemble => Err(no_base(alloc, text, "a number below 2^32")),
        _ => Err(no_base(alloc, text, "a multiple of 4096, at most 0x80000000")),
    }
}

// Whether standard input stands among the files more than once.
fn repeats_input(names: &[&str]) -> bool {
    let mut is_given = false;
    for name in names {
        if *name == "-" {
            if is_given {
                return true;
            }
            is_given = true;
        }
    }
    false
}

// When reports have colors, by its name.
fn color_named(name: Option<&str>) -> Color {
    match name {
        Some("always") => Color::Always,
        Some("never") => Color::Never,
        _ => Color::Auto,
    }
}

// The files of a command, or the name that is explained.
fn names_of<'a>(alloc: Global, matches: &ArgMatches<'a>) -> Result<Vec<&'a str>, AllocError> {
    let mut names = Vec::new(alloc);
    if let Some(files) = matches.get_strs("file") {
        names.extend_from_slice(files)?;
    }
    if let Some(name) = matches.get_str("name") {
        names.push(name)?;
    }
    Ok(names)
}

// Refuses files among which standard input stands more than once.
fn check_inputs(alloc: Global, matches: &ArgMatches<'_>) -> Result<(), ArgumentFault> {
    let Some(files) = matches.get_strs("file") else {
        return Ok(());
    };
    if !repeats_input(files) {
        return Ok(());
    }
    let said = "rvas: standard input can be read once: '-' is given twice\n";
    Err(ArgumentFault::Usage(String::from_str(alloc, said)?))
}

// The arguments of a command.
fn arguments_of<'a>(
    alloc: Global,
    name: &str,
    matches: &ArgMatches<'a>,
) -> Result<Arguments<'a>, ArgumentFault> {
    check_inputs(alloc, matches)?;
    let task = task_named(name).unwrap_or(Task::Explain);
    let base = base_of(alloc, task, matches.get_str("base"))?;
    Ok(Arguments {
        task,
        names: names_of(alloc, matches)?,
        out: matches.get_str("output"),
        format: matches.get_str("format").and_then(Format::named),
        base,
        entry: matches.get_str("entry"),
        force: matches.get_flag("force"),
        color: color_named(matches.get_str("color")),
        all: matches.get_flag("all"),
        warnings: matches.get_str("warnings") != Some("off"),
        werror: matches.get_flag("werror"),
        has_own_lines: matches.get_flag("no-line-marks"),
        fields: matches.get_flag("fields"),
    })
}

/// The arguments of the program. The first word is its name.
pub fn arguments_from<'a, S: AsStr>(
    alloc: Global,
    words: &'a [S],
) -> Result<Arguments<'a>, ArgumentFault> {
    let matches = match command(alloc)?.try_get_matches_from(words) {
        Ok(matches) => matches,
        Err(error) => return Err(fault_of(alloc, &error)?),
    };
    match matches.subcommand() {
        Some((name, matches)) => arguments_of(alloc, name, matches),
        None => Err(ArgumentFault::Usage(String::new(alloc))),
    }
}
