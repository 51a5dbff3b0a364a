//! Messages that are written.

ghost use Rattle.std.specs.Prelude.{◌≡◌, ◌∷◌, ◌++◌, [], true, codes, decimal, map, IfOk, OnOk};
ghost use Rattle.std.specs.Fmt.{signed_decimal};
ghost use Rattle.json.specs.Print.{print};
ghost use Rattle.json.specs.Token.{begin_object, end_object, begin_array, end_array, key, string, number, boolean, null};
ghost use Rattle.rv_diagnostics.specs.Json.{frame, string_member, token_of, tokens_of};

use crate::part::Part;
use json::Writer;
use std::alloc::{AllocError, Global};
use std::marker::Model;

/// A message that is written token by token. Contracts see what it says: its tokens but for the first and the last ones.
#[derive(Drop)]
pub struct Message {
    writer: Writer,
}

impl Model for Message {
    ghost use Rattle.std.specs.Prelude.{◌≡◌, List, []};
    ghost use Rattle.json.specs.Token.{Token};

    ghost Value = { List Token };

    ghost view = { λ m. m.writer.tokens };

    ghost invariant = { λ m. m.writer.before ≡ [] };
}

// Appends a frame with this body.
fn push_frame(out: &mut Vec<u8>, body: &[u8]) -> Result<(), AllocError>
    ensures { OnOk result (out.new.items ≡ out.old.items ++ frame body.now) }
{
    let mut digits = itoa::Buffer::new();
    out.extend_from_slice(b"Content-Length: ")?;
    out.extend_from_slice(digits.format(body.len()).as_bytes())?;
    out.extend_from_slice(b"\r\n\r\n")?;
    out.extend_from_slice(body)
}

impl Message {
    /// A message that says nothing yet but which protocol it is of.
    pub fn begin(alloc: Global) -> Result<Message, AllocError>
        ensures { IfOk result (λ m. m ≡ begin_object ∷ string_member (codes "jsonrpc") (codes "2.0")) }
    {
        let mut message = Message {
            writer: Writer::new(Vec::new(alloc)),
        };
        message.put_all(&[Part::BeginObject, Part::Key("jsonrpc"), Part::Text("2.0")])?;
        Ok(message)
    }

    /// Ends the message, and appends its frame.
    pub fn end(mut self, out: &mut Vec<u8>) -> Result<(), AllocError>
        ensures { OnOk result (out.new.items ≡ out.old.items ++ frame (print (self ++ end_object ∷ []))) }
    {
        self.end_object()?;
        let Message { writer } = self;
        push_frame(out, writer.into_inner().as_slice())
    }

    /// Begins an object.
    pub fn begin_object(&mut self) -> Result<(), AllocError>
        ensures { OnOk result (self.new ≡ self.old ++ begin_object ∷ []) }
    {
        self.writer.begin_object()
    }

    /// Ends one.
    pub fn end_object(&mut self) -> Result<(), AllocError>
        ensures { OnOk result (self.new ≡ self.old ++ end_object ∷ []) }
    {
        self.writer.end_object()
    }

    /// Begins an array.
    pub fn begin_array(&mut self) -> Result<(), AllocError>
        ensures { OnOk result (self.new ≡ self.old ++ begin_array ∷ []) }
    {
        self.writer.begin_array()
    }

    /// Ends one.
    pub fn end_array(&mut self) -> Result<(), AllocError>
        ensures { OnOk result (self.new ≡ self.old ++ end_array ∷ []) }
    {
        self.writer.end_array()
    }

    /// Writes the name of a member.
    pub fn key(&mut self, name: &str) -> Result<(), AllocError>
        ensures { OnOk result (self.new ≡ self.old ++ key name.now ∷ []) }
    {
        self.writer.key(name)
    }

    /// Writes a text.
    pub fn string(&mut self, text: &str) -> Result<(), AllocError>
        ensures { OnOk result (self.new ≡ self.old ++ string text.now ∷ []) }
    {
        self.writer.string(text)
    }

    /// Writes a number.
    pub fn number(&mut self, n: u64) -> Result<(), AllocError>
        ensures { OnOk result (self.new ≡ self.old ++ number (decimal n) ∷ []) }
    {
        self.writer.u64(n)
    }

    /// Writes numbers, one after another.
    pub fn numbers(&mut self, mut numbers: &[u64]) -> Result<(), AllocError>
        ensures { OnOk result (self.new ≡ self.old ++ map (λ n. number (decimal n)) numbers.entry.now) }
    {
        'numbers: while let [first, later @ ..] = numbers {
            self.number(*first)?;
            numbers = later;
        }
        Ok(())
    }

    /// Writes a number with its sign.
    pub fn signed(&mut self, n: i64) -> Result<(), AllocError>
        ensures { OnOk result (self.new ≡ self.old ++ number (signed_decimal n) ∷ []) }
    {
        self.writer.i64(n)
    }

    /// Writes whether something is so.
    pub fn boolean(&mut self, is_so: bool) -> Result<(), AllocError>
        ensures { OnOk result (self.new ≡ self.old ++ boolean is_so ∷ []) }
    {
        self.writer.boolean(is_so)
    }

    /// Writes that there is nothing.
    pub fn null(&mut self) -> Result<(), AllocError>
        ensures { OnOk result (self.new ≡ self.old ++ null ∷ []) }
    {
        self.writer.null()
    }

    /// Writes a text under a name.
    pub fn put_string(&mut self, name: &str, text: &str) -> Result<(), AllocError>
        ensures { OnOk result (self.new ≡ self.old ++ string_member name.now text.now) }
    {
        self.key(name)?;
        self.string(text)?;
        Ok(())
    }

    /// Writes that something is so, under a name.
    pub fn put_true(&mut self, name: &str) -> Result<(), AllocError>
        ensures { OnOk result (self.new ≡ self.old ++ key name.now ∷ (boolean true ∷ [])) }
    {
        self.key(name)?;
        self.boolean(true)?;
        Ok(())
    }

    // Writes a part.
    fn put(&mut self, part: Part<'_>) -> Result<(), AllocError>
        ensures { OnOk result (self.new ≡ self.old ++ token_of part.entry ∷ []) }
    {
        match part {
            Part::BeginObject => self.writer.begin_object(),
            Part::EndObject => self.writer.end_object(),
            Part::BeginArray => self.writer.begin_array(),
            Part::EndArray => self.writer.end_array(),
            Part::Key(name) => self.writer.key(name),
            Part::Text(text) => self.writer.string(text),
            Part::Number(n) => self.writer.u64(n),
            Part::Boolean(is_so) => self.writer.boolean(is_so),
        }
    }

    /// Writes parts, one after another.
    pub fn put_all(&mut self, mut parts: &[Part<'_>]) -> Result<(), AllocError>
        ensures { OnOk result (self.new ≡ self.old ++ tokens_of parts.entry.now) }
    {
        'parts: while let [part, later @ ..] = parts {
            self.put(*part)?;
            parts = later;
        }
        Ok(())
    }
}
