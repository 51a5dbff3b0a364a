//! What the server writes.

ghost use Rattle.std.specs.Prelude.{◌≡◌};
ghost use Rattle.rvls.specs.declared.writing.Failure.TheVariants.{Memory};
ghost use Rattle.rvls.specs.Refusals.{failure_of, refusal_of};

use rv_diagnostics::{Message, Part};
use rv_language::{NameRefusal, RenameError};
use serde_json::{Number, Value};
use std::alloc::{AllocError, Global};
use std::num::{nearest_i64_to_f64, saturating_f64_to_i64};

// The whole number that a number of JSON is, if it is one with a point or an exponent, as 1.0.
fn whole_number(number: &Number) -> Option<i64> {
    let number = number.as_f64()?;
    let whole = saturating_f64_to_i64(number);
    if whole < i64::MAX && nearest_i64_to_f64(whole) == number {
        Some(whole)
    } else {
        None
    }
}

// Writes a number by which a client knows a request, or null where it is no whole number of 64 bits.
fn put_number(message: &mut Message, number: &Number) -> Result<(), AllocError> {
    if let Some(whole) = number.as_u64() {
        return message.number(whole);
    }
    match number.as_i64().or_else(|| whole_number(number)) {
        Some(whole) => message.signed(whole),
        None => message.null(),
    }
}

// Writes which request a message answers: a number or a text, or null where it is neither.
fn put_id(message: &mut Message, id: Option<&Value>) -> Result<(), AllocError> {
    message.key("id")?;
    match id {
        Some(Value::Number(number)) => put_number(message, number),
        Some(Value::String(text)) => message.string(text.as_str()),
        _ => message.null(),
    }
}

/// Begins the answer to a request, with the key for its result.
pub fn begin_result(alloc: Global, id: Option<&Value>) -> Result<Message, AllocError> {
    let mut message = Message::begin(alloc)?;
    put_id(&mut message, id)?;
    message.key("result")?;
    Ok(message)
}

/// Answers a request with nothing.
pub fn answer_null(alloc: Global, id: Option<&Value>, out: &mut Vec<u8>) -> Result<(), AllocError> {
    let mut message = begin_result(alloc, id)?;
    message.null()?;
    message.end(out)
}

/// Why a request is refused. (JSON-RPC 2.0, section 5.1; Language Server Protocol 3.17, Base Protocol)
#[derive(Clone, Copy)]
pub enum Refusal {
    NotJson,
    NoRequest,
    UnknownMethod,
    WrongParameters,
    /// The document that it is about is not open.
    NotOpen,
    /// The first section cannot begin there.
    WrongBase,
    NotInitialized,
    ShutDown,
    InitializedTwice,
    /// No name stands there that the text defines.
    NoName,
    /// The new name cannot be that of a symbol.
    NoSymbolName,
    /// The new name cannot be that of a local label.
    NoLocalName,
    /// The new name would mean something else as well.
    NameTaken,
    /// A line would be too long.
    LineTooLong,
    /// A line is past a limit, so that its names are not known.
    PastLimit,
}

/// Why a request is not answered.
pub enum Failure {
    Refused(Refusal),
    Memory,
}

impl From<AllocError> for Failure {
    ghost from_gives = { λ _ e. e ≡ Memory };

    fn from(_: AllocError) -> Self {
        Failure::Memory
    }
}

impl From<RenameError> for Failure {
    ghost from_gives = { λ error f. f ≡ failure_of error };

    fn from(error: RenameError) -> Self {
        match error {
            RenameError::Refused(refusal) => Failure::Refused(Refusal::of_name(refusal)),
            RenameError::Memory => Failure::Memory,
        }
    }
}

impl Refusal {
    // That of a name that gets no other one.
    fn of_name(refusal: NameRefusal) -> Refusal
        ensures { result ≡ refusal_of refusal }
    {
        match refusal {
            NameRefusal::NotDefined => Refusal::NoName,
            NameRefusal::NoSymbolName => Refusal::NoSymbolName,
            NameRefusal::NoLocalName => Refusal::NoLocalName,
            NameRefusal::Taken => Refusal::NameTaken,
            NameRefusal::LineTooLong => Refusal::LineTooLong,
        }
    }

    // Its number.
    fn code(self) -> i64 {
        match self {
            Refusal::NotJson => -32700,
            Refusal::NoRequest | Refusal::ShutDown | Refusal::InitializedTwice => -32600,
            Refusal::UnknownMethod => -32601,
            Refusal::WrongParameters | Refusal::NotOpen | Refusal::WrongBase => -32602,
            Refusal::NotInitialized => -32002,
            Refusal::NoName
            | Refusal::NoSymbolName
            | Refusal::NoLocalName
            | Refusal::NameTaken
            | Refusal::LineTooLong
            | Refusal::PastLimit => -32803,
        }
    }

    // What it says.
    fn text(self) -> &'static str {
        match self {
            Refusal::NotJson => "this is not JSON",
            Refusal::NoRequest => "this is not a request",
            Refusal::UnknownMethod => "this method is not known",
            Refusal::WrongParameters => "the parameters are wrong",
            Refusal::NotOpen => "the document is not open",
            Refusal::WrongBase => "the base is a multiple of 4096, at most 0x80000000",
            Refusal::NotInitialized => "'initialize' comes first",
            Refusal::ShutDown => "the server was shut down",
            Refusal::InitializedTwice => "the server is initialized",
            Refusal::NoName => "there is no name here that the text defines",
            Refusal::NoSymbolName =>
                "a symbol has letters, digits, '_', '.' and '$', begins with no digit, and is spelled like no register",
            Refusal::NoLocalName => "a local label is a number from 0 to 9999",
            Refusal::NameTaken => "the new name is in use, and would mean something else",
            Refusal::LineTooLong => "a line would have more than 1000 bytes",
            Refusal::PastLimit => "the document has a line past a limit, whose names are not known",
        }
    }
}

// Writes which request is refused, and why.
fn put_refusal(
    message: &mut Message,
    id: Option<&Value>,
    refusal: Refusal,
) -> Result<(), AllocError> {
    put_id(message, id)?;
    message.put_all(&[Part::Key("error"), Part::BeginObject, Part::Key("code")])?;
    message.signed(refusal.code())?;
    message.put_all(&[
        Part::Key("message"),
        Part::Text(refusal.text()),
        Part::EndObject,
    ])
}

/// Refuses a request.
pub fn refuse(
    alloc: Global,
    id: Option<&Value>,
    refusal: Refusal,
    out: &mut Vec<u8>,
) -> Result<(), AllocError> {
    let mut message = Message::begin(alloc)?;
    put_refusal(&mut message, id, refusal)?;
    message.end(out)
}

/// What the user is told.
#[derive(Clone, Copy)]
pub enum Notice {
    /// Why the session ends.
    Error,
    /// Why a notification is ignored.
    Warning,
    /// What is kept in the editor's log, and not shown.
    Log,
}

impl Notice {
    // The notification.
    fn method(self) -> &'static str {
        match self {
            Notice::Error | Notice::Warning => "window/showMessage",
            Notice::Log => "window/logMessage",
        }
    }

    // Its type. (Language Server Protocol 3.17, MessageType)
    fn number(self) -> u64 {
        match self {
            Notice::Error => 1,
            Notice::Warning => 2,
            Notice::Log => 3,
        }
    }
}

/// Tells the user something.
pub fn tell(
    alloc: Global,
    notice: Notice,
    text: &str,
    out: &mut Vec<u8>,
) -> Result<(), AllocError> {
    let mut message = Message::begin(alloc)?;
    message.put_all(&[
        Part::Key("method"),
        Part::Text(notice.method()),
        Part::Key("params"),
        Part::BeginObject,
        Part::Key("type"),
        Part::Number(notice.number()),
        Part::Key("message"),
        Part::Text(text),
        Part::EndObject,
    ])?;
    message.end(out)
}
