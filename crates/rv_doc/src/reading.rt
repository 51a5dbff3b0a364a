//! What messages say.

ghost use Rattle.std.specs.Prelude.{◌≡◌, codes, option_map};
ghost use Rattle.serde_json.specs.Find.{pointer};
ghost use Rattle.serde_json.specs.View.{view};
ghost use Rattle.rv_doc.specs.Changes.{text_in, number_in, position_in, range_in, is_of_whole, change_of};

use crate::position::{Position, Range};
use serde_json::Value;

/// The text at a path of a message.
pub fn text_at<'a>(message: &'a Value, path: &str) -> Option<&'a str>
    ensures { option_map (λ t. t.now) result ≡ text_in path.now (view message.entry.now) }
{
    message.pointer(path)?.as_str()
}

/// The number of 32 bits at a path of a message.
pub fn number_at(message: &Value, path: &str) -> Option<u32>
    ensures { result ≡ number_in path.now (view message.now) }
{
    let number = message.pointer(path)?.as_u64()?;
    u32::try_from(number).ok()
}

/// The position whose line and column are at these paths of a message.
pub fn position_at(message: &Value, line: &str, character: &str) -> Option<Position>
    ensures { result ≡ position_in line.now character.now (view message.now) }
{
    let line = number_at(message, line)?;
    let character = number_at(message, character)?;
    Some(Position { line, character })
}

/// The position that a request is about.
pub fn position_of(message: &Value) -> Option<Position> {
    position_at(
        message,
        "/params/position/line",
        "/params/position/character",
    )
}

// The range of a change.
fn range_of(change: &Value) -> Option<Range>
    ensures { result ≡ range_in (view change.now) }
{
    let start = position_at(change, "/range/start/line", "/range/start/character")?;
    let end = position_at(change, "/range/end/line", "/range/end/character")?;
    Some(Range { start, end })
}

/// A change of a document: another text for a range, or for all of it.
#[derive(Clone, Copy)]
pub struct Change<'a> {
    pub range: Option<Range>,
    pub text: &'a str,
}

// Whether a change is of the whole document: it has no range, or null for it.
fn is_of_whole(change: &Value) -> bool
    ensures { result ≡ is_of_whole (pointer (codes "/range") (view change.now)) }
{
    match change.pointer("/range") {
        Some(range) => range.is_null(),
        None => true,
    }
}

/// The change that one of `contentChanges` is, if it is well formed.
pub fn change_in(change: &Value) -> Option<Change<'_>>
    ensures { option_map (λ c. record { range = c.range; text = c.text.now }) result ≡ change_of (view change.now) }
{
    let text = text_at(change, "/text")?;
    if is_of_whole(change) {
        return Some(Change { range: None, text });
    }
    let range = range_of(change)?;
    Some(Change {
        range: Some(range),
        text,
    })
}
