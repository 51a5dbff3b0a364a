//! What the server does with a message.

ghost use Rattle.std.specs.Prelude.{◌≡◌, ◌≤◌, ◌<◌, length, IfSome, vec_len};
ghost use Rattle.std.specs.List.{position};
ghost use Rattle.std.specs.Str.{bytes_eq};
ghost use Rattle.std.specs.String.{string_bytes};

use crate::arguments::VERSION;
use crate::bodies::{has_text, message_in};
use crate::looking_up::{Question, put_answer, question_in};
use crate::publishing::publish;
use crate::quick_fixes::QUICK_FIX;
use crate::writing::{Failure, Notice, Refusal, answer_null, begin_result, refuse, tell};
use rv_changes::{Assembly, Base, base_in};
use rv_diagnostics::{Context, Message, Part, publish_none};
use rv_doc::{Encoding, text_at};
use rv_language::TOKEN_TYPES;
use rv_show::Text;
use serde_json::Value;
use std::alloc::{AllocError, Global};

/// Whether the server goes on.
#[derive(Clone, Copy)]
pub enum Next {
    Go,
    /// It ends with this status.
    Exit(u8),
}

/// The status of a session that was shut down.
pub const SHUT_DOWN: u8 = 0;

/// The status of a session that ends without that.
pub const CUT_OFF: u8 = 1;

/// The status of a session in which it is not known where a message ends.
pub const MALFORMED: u8 = 3;

// How far a session is.
#[derive(Clone, Copy)]
enum Phase {
    Fresh,
    Running,
    Down,
}

/// A document that is open.
#[derive(Drop)]
pub struct Open {
    pub uri: String,
    pub version: Option<i64>,
    pub document: Assembly,
}

impl Open {
    // A document of this text, which begins at a base.
    fn new(
        alloc: Global,
        base: Base,
        uri: &str,
        version: Option<i64>,
        text: &str,
    ) -> Result<Open, AllocError> {
        let uri = String::from_str(alloc, uri)?;
        let document = Assembly::new(alloc, base, text.as_bytes())?;
        Ok(Open {
            uri,
            version,
            document,
        })
    }

    // The document after the changes of a message, if each is well formed, and else the document as it is.
    fn changed(
        self,
        alloc: Global,
        encoding: Encoding,
        new_version: Option<i64>,
        changes: &[Value],
    ) -> Result<Result<Open, Open>, AllocError> {
        let Open {
            uri,
            version,
            document,
        } = self;
        match document.changed(alloc, encoding, changes)? {
            Ok(document) => Ok(Ok(Open {
                uri,
                version: new_version,
                document,
            })),
            Err(document) => Ok(Err(Open {
                uri,
                version,
                document,
            })),
        }
    }
}

// How many messages that change a document are answered by one publication at most.
const MOST_JOINED: u32 = 16;

/// A session.
#[derive(Drop)]
pub struct Server {
    alloc: Global,
    encoding: Encoding,
    base: Base,
    phase: Phase,
    documents: Vec<Open>,
    // How many messages have changed the last document since its diagnostics were published.
    unpublished: u32,
}

// The encoding that columns are counted in: UTF-8 if the client offers it, else UTF-16.
fn encoding_for(message: &Value) -> Encoding {
    let offered = message.pointer("/params/capabilities/general/positionEncodings");
    if has_text(offered, "utf-8") {
        Encoding::Utf8
    } else {
        Encoding::Utf16
    }
}

// The name of an encoding.
fn encoding_name(encoding: Encoding) -> &'static str {
    match encoding {
        Encoding::Utf8 => "utf-8",
        Encoding::Utf16 => "utf-16",
    }
}

// Writes that names can be changed, and asked about before: that only where the client does so.
fn put_rename_provider(m: &mut Message, message: &Value) -> Result<(), AllocError> {
    let prepares = message.pointer("/params/capabilities/textDocument/rename/prepareSupport");
    if prepares.and_then(Value::as_bool) != Some(true) {
        return m.put_true("renameProvider");
    }
    m.put_all(&[
        Part::Key("renameProvider"),
        Part::BeginObject,
        Part::Key("prepareProvider"),
        Part::Boolean(true),
        Part::EndObject,
    ])
}

// Writes that something can be asked for, and after which characters an editor does so by itself.
fn put_typing_provider<'a>(
    m: &mut Message,
    provider: &'a str,
    first: &'a str,
    second: &'a str,
) -> Result<(), AllocError> {
    m.put_all(&[
        Part::Key(provider),
        Part::BeginObject,
        Part::Key("triggerCharacters"),
        Part::BeginArray,
        Part::Text(first),
        Part::Text(second),
        Part::EndArray,
        Part::EndObject,
    ])
}

// Writes what tokens can be.
fn put_tokens_provider(m: &mut Message) -> Result<(), AllocError> {
    m.put_all(&[
        Part::Key("semanticTokensProvider"),
        Part::BeginObject,
        Part::Key("legend"),
        Part::BeginObject,
        Part::Key("tokenTypes"),
        Part::BeginArray,
    ])?;
    m.put_all(&TOKEN_TYPES)?;
    m.put_all(&[
        Part::EndArray,
        Part::Key("tokenModifiers"),
        Part::BeginArray,
        Part::EndArray,
        Part::EndObject,
        Part::Key("full"),
        Part::Boolean(true),
        Part::Key("range"),
        Part::Boolean(true),
        Part::EndObject,
    ])
}

// Writes which changes of lines can be asked for.
fn put_fixes_provider(m: &mut Message) -> Result<(), AllocError> {
    m.put_all(&[
        Part::Key("codeActionProvider"),
        Part::BeginObject,
        Part::Key("codeActionKinds"),
        Part::BeginArray,
        Part::Text(QUICK_FIX),
        Part::EndArray,
        Part::EndObject,
    ])
}

// Writes what the server can do that takes no options.
fn put_simple_capabilities(m: &mut Message, encoding: Encoding) -> Result<(), AllocError> {
    m.put_all(&[
        Part::Key("positionEncoding"),
        Part::Text(encoding_name(encoding)),
        Part::Key("textDocumentSync"),
        Part::BeginObject,
        Part::Key("openClose"),
        Part::Boolean(true),
        Part::Key("change"),
        Part::Number(2),
        Part::EndObject,
        Part::Key("hoverProvider"),
        Part::Boolean(true),
        Part::Key("inlayHintProvider"),
        Part::Boolean(true),
        Part::Key("definitionProvider"),
        Part::Boolean(true),
        Part::Key("referencesProvider"),
        Part::Boolean(true),
        Part::Key("documentHighlightProvider"),
        Part::Boolean(true),
        Part::Key("documentSymbolProvider"),
        Part::Boolean(true),
        Part::Key("foldingRangeProvider"),
        Part::Boolean(true),
    ])
}

// Writes what the server can do.
fn put_capabilities(
    m: &mut Message,
    encoding: Encoding,
    message: &Value,
) -> Result<(), AllocError> {
    m.put_all(&[Part::Key("capabilities"), Part::BeginObject])?;
    put_simple_capabilities(m, encoding)?;
    put_rename_provider(m, message)?;
    put_typing_provider(m, "completionProvider", ".", "%")?;
    put_typing_provider(m, "signatureHelpProvider", " ", ",")?;
    put_tokens_provider(m)?;
    put_fixes_provider(m)?;
    m.end_object()
}

// Writes what the server is.
fn put_server(m: &mut Message) -> Result<(), AllocError> {
    m.put_all(&[
        Part::Key("serverInfo"),
        Part::BeginObject,
        Part::Key("name"),
        Part::Text("rvls"),
        Part::Key("version"),
        Part::Text(VERSION),
        Part::EndObject,
    ])
}

// The name and the text of a document that is opened.
fn opened_in(message: &Value) -> Option<(&str, &str)> {
    let uri = text_at(message, "/params/textDocument/uri")?;
    let text = text_at(message, "/params/textDocument/text")?;
    Some((uri, text))
}

// The name of a document that is changed, and the changes.
fn changed_in(message: &Value) -> Option<(&str, &[Value])> {
    let uri = text_at(message, "/params/textDocument/uri")?;
    let changes = message.pointer("/params/contentChanges")?.as_array()?;
    Some((uri, changes.as_slice()))
}

// What is said of a change that cannot be made.
const BAD_CHANGE: &str =
    "rvls: a malformed didChange is ignored; its document is no longer what the editor shows, and should be closed and opened again";

// The version of a document that a message is about, if it says one.
fn version_in(message: &Value) -> Option<i64> {
    message.pointer("/params/textDocument/version")?.as_i64()
}

impl Server {
    /// A session that has not begun.
    pub fn new(alloc: Global) -> Server {
        Server {
            alloc,
            encoding: Encoding::Utf16,
            base: Base::zero(),
            phase: Phase::Fresh,
            documents: Vec::new(alloc),
            unpublished: 0,
        }
    }

    // What the diagnostics of a document share.
    fn context<'a>(&self, uri: &'a str) -> Context<'a> {
        Context {
            alloc: self.alloc,
            encoding: self.encoding,
            uri,
        }
    }

    // Where a document is among those that are open.
    fn place_of(&self, uri: &str) -> Option<usize>
        ensures place { result ≡ position (λ o. bytes_eq (string_bytes o.uri) uri.now) self.now.documents.items }
        ensures within { IfSome result (λ at. at < vec_len self.now.documents) }
    {
        self.documents
            .iter()
            .position(|open| open.uri.as_str() == uri)
    }

    // Takes a document out of those that are open, if it is one.
    fn take(&mut self, uri: &str) -> Option<Open> {
        let at = self.place_of(uri)?;
        Some(self.documents.remove(at))
    }

    // Publishes the diagnostics of a document, those nearest to where it was edited.
    fn publish(&self, open: &Open, out: &mut Vec<u8>) -> Result<(), AllocError> {
        let context = self.context(open.uri.as_str());
        let document = &open.document;
        publish(&context, open.version, document, document.edited(), out)
    }

    // Keeps a document that is new, and publishes its diagnostics.
    fn keep(&mut self, open: Open, out: &mut Vec<u8>) -> Result<(), AllocError> {
        self.publish(&open, out)?;
        self.documents.push(open)?;
        Ok(())
    }

    /// Publishes the diagnostics of the document that changed last, unless they were published since.
    ///
    /// # Errors
    ///
    /// `AllocError` if there is no memory for it.
    pub fn publish_changed(&mut self, out: &mut Vec<u8>) -> Result<(), AllocError> {
        if self.unpublished == 0 {
            return Ok(());
        }
        self.unpublished = 0;
        match self.documents.last() {
            Some(open) => self.publish(open, out),
            None => Ok(()),
        }
    }

    // Keeps a document that has changed. Its diagnostics are published before the next message that does not change it, but after so many
    // changes at the latest.
    fn keep_changed(&mut self, open: Open, out: &mut Vec<u8>) -> Result<(), AllocError> {
        self.documents.push(open)?;
        self.unpublished = self.unpublished.saturating_add(1);
        if self.unpublished < MOST_JOINED {
            return Ok(());
        }
        self.publish_changed(out)
    }

    // Whether a message changes the document that changed last.
    fn changes_last(&self, message: &Value) -> bool {
        let Some(open) = self.documents.last() else {
            return false;
        };
        let Some((uri, _)) = changed_in(message) else {
            return false;
        };
        text_at(message, "/method") == Some("textDocument/didChange") && uri == open.uri.as_str()
    }

    /// Ends the session, since it is not known where a message ends, and returns its status.
    ///
    /// # Errors
    ///
    /// `AllocError` if there is no memory for what is said.
    pub fn give_up(&mut self, what: &str, out: &mut Vec<u8>) -> Result<u8, AllocError> {
        self.publish_changed(out)?;
        tell(self.alloc, Notice::Error, what, out)?;
        Ok(MALFORMED)
    }

    // Says why a notification is ignored.
    fn ignore(&self, why: &str, out: &mut Vec<u8>) -> Result<(), AllocError> {
        tell(self.alloc, Notice::Warning, why, out)
    }

    // Says for the log of the editor what runs here.
    fn introduce(&self, out: &mut Vec<u8>) -> Result<(), AllocError> {
        let mut text = Text::new(self.alloc);
        text.push(b"rvls ")?;
        text.push(VERSION.as_bytes())?;
        text.push(b", base 0x")?;
        text.push_word(self.base.address())?;
        let said = String::from_utf8_lossy(self.alloc, text.bytes())?;
        tell(self.alloc, Notice::Log, said.as_str(), out)
    }

    // Begins the session, if the base that is asked for is one.
    fn initialize(&mut self, message: &Value, out: &mut Vec<u8>) -> Result<(), AllocError> {
        let id = message.get("id");
        let Some(base) = base_in(message) else {
            return refuse(self.alloc, id, Refusal::WrongBase, out);
        };
        self.base = base;
        self.encoding = encoding_for(message);
        self.phase = Phase::Running;
        let mut m = begin_result(self.alloc, id)?;
        m.begin_object()?;
        put_capabilities(&mut m, self.encoding, message)?;
        put_server(&mut m)?;
        m.end_object()?;
        m.end(out)
    }

    // Opens a document.
    fn open(&mut self, message: &Value, out: &mut Vec<u8>) -> Result<(), AllocError> {
        let Some((uri, text)) = opened_in(message) else {
            return self.ignore("rvls: a malformed didOpen is ignored", out);
        };
        let _ = self.take(uri);
        let open = Open::new(self.alloc, self.base, uri, version_in(message), text)?;
        self.keep(open, out)
    }

    // Closes a document.
    fn close(&mut self, message: &Value, out: &mut Vec<u8>) -> Result<(), AllocError> {
        let Some(uri) = text_at(message, "/params/textDocument/uri") else {
            return self.ignore("rvls: a malformed didClose is ignored", out);
        };
        let _ = self.take(uri);
        publish_none(self.alloc, uri, out)
    }

    // Makes the changes of a document.
    fn change(&mut self, message: &Value, out: &mut Vec<u8>) -> Result<(), AllocError> {
        let Some((uri, changes)) = changed_in(message) else {
            return self.ignore(BAD_CHANGE, out);
        };
        let Some(open) = self.take(uri) else {
            return Ok(());
        };
        match open.changed(self.alloc, self.encoding, version_in(message), changes)? {
            Ok(open) => self.keep_changed(open, out),
            Err(open) => {
                self.documents.push(open)?;
                self.publish_changed(out)?;
                self.ignore(BAD_CHANGE, out)
            }
        }
    }

    // Does what a notification says.
    fn notified(
        &mut self,
        method: &str,
        message: &Value,
        out: &mut Vec<u8>,
    ) -> Result<Next, AllocError> {
        if method == "exit" {
            return Ok(Next::Exit(match self.phase {
                Phase::Down => SHUT_DOWN,
                Phase::Fresh | Phase::Running => CUT_OFF,
            }));
        }
        match self.phase {
            Phase::Running => {}
            Phase::Fresh | Phase::Down => return Ok(Next::Go),
        }
        match method {
            "initialized" => self.introduce(out)?,
            "textDocument/didOpen" => self.open(message, out)?,
            "textDocument/didChange" => self.change(message, out)?,
            "textDocument/didClose" => self.close(message, out)?,
            _ => {}
        }
        Ok(Next::Go)
    }

    // Answers a request of a session that has begun.
    fn answer_request(
        &mut self,
        method: &str,
        message: &Value,
        out: &mut Vec<u8>,
    ) -> Result<(), AllocError> {
        let id = message.get("id");
        match method {
            "initialize" => refuse(self.alloc, id, Refusal::InitializedTwice, out),
            "shutdown" => {
                self.phase = Phase::Down;
                answer_null(self.alloc, id, out)
            }
            _ => self.look_up(method, message, out),
        }
    }

    // The document that a request is about, and what it asks.
    fn question_about<'a>(
        &'a self,
        method: &str,
        message: &'a Value,
    ) -> Result<(&'a Open, Question<'a>), Refusal> {
        let question = question_in(method, message)?;
        let Some(uri) = text_at(message, "/params/textDocument/uri") else {
            return Err(Refusal::WrongParameters);
        };
        match self.place_of(uri) {
            Some(at) => Ok((&self.documents[at], question)),
            None => Err(Refusal::NotOpen),
        }
    }

    // The answer to a question about a document.
    fn answer_about(
        &self,
        open: &Open,
        id: Option<&Value>,
        question: Question<'_>,
    ) -> Result<Message, Failure> {
        if question.needs_all_names() && !open.document.is_whole() {
            return Err(Failure::Refused(Refusal::PastLimit));
        }
        let context = self.context(open.uri.as_str());
        let mut m = begin_result(self.alloc, id)?;
        put_answer(&mut m, &context, &open.document, question)?;
        Ok(m)
    }

    // Answers a question about a document.
    fn look_up(&self, method: &str, message: &Value, out: &mut Vec<u8>) -> Result<(), AllocError> {
        let id = message.get("id");
        let (open, question) = match self.question_about(method, message) {
            Ok(found) => found,
            Err(refusal) => return refuse(self.alloc, id, refusal, out),
        };
        match self.answer_about(open, id, question) {
            Ok(m) => m.end(out),
            Err(Failure::Refused(refusal)) => refuse(self.alloc, id, refusal, out),
            Err(Failure::Memory) => Err(AllocError),
        }
    }

    // Answers a request.
    fn asked(
        &mut self,
        method: &str,
        message: &Value,
        out: &mut Vec<u8>,
    ) -> Result<(), AllocError> {
        let id = message.get("id");
        match self.phase {
            Phase::Fresh if method == "initialize" => self.initialize(message, out),
            Phase::Fresh => refuse(self.alloc, id, Refusal::NotInitialized, out),
            Phase::Running => self.answer_request(method, message, out),
            Phase::Down => refuse(self.alloc, id, Refusal::ShutDown, out),
        }
    }

    // Does what a message without a method says: nothing if it is the answer to a request.
    fn without_method(&self, message: &Value, out: &mut Vec<u8>) -> Result<(), AllocError> {
        if message.get("result").is_some() || message.get("error").is_some() {
            return Ok(());
        }
        refuse(self.alloc, message.get("id"), Refusal::NoRequest, out)
    }

    // Does what a message says, and says whether to go on.
    fn answer_message(&mut self, message: &Value, out: &mut Vec<u8>) -> Result<Next, AllocError> {
        let Some(method) = text_at(message, "/method") else {
            self.without_method(message, out)?;
            return Ok(Next::Go);
        };
        if message.get("id").is_some() {
            self.asked(method, message, out)?;
            return Ok(Next::Go);
        }
        self.notified(method, message, out)
    }

    /// Does what a message says, appends what is answered, and says whether to go on.
    ///
    /// # Errors
    ///
    /// `AllocError` if there is no memory for it.
    pub fn answer(&mut self, body: &[u8], out: &mut Vec<u8>) -> Result<Next, AllocError> {
        match message_in(self.alloc, body)? {
            Some(message) => {
                if !self.changes_last(&message) {
                    self.publish_changed(out)?;
                }
                self.answer_message(&message, out)
            }
            None => {
                self.publish_changed(out)?;
                refuse(self.alloc, None, Refusal::NotJson, out)?;
                Ok(Next::Go)
            }
        }
    }
}
