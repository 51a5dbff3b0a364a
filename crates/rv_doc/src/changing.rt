//! Changes of a message that are made.

ghost use Rattle.std.specs.Prelude.{◌≡◌, [], ◌∷◌, map, IfOk, IfSome, Some, None, if◌then◌else◌};
ghost use Rattle.std.specs.Option.{option_map};
ghost use Rattle.serde_json.specs.View.{view};
ghost use Rattle.rv_doc.specs.Edits.{text_after_all};
ghost use Rattle.rv_doc.specs.Changes.{changes_of};

use crate::document::Document;
use crate::encoding::Encoding;
use crate::reading::change_in;
use serde_json::Value;
use std::alloc::AllocError;

// The first of some changes, and those behind it, which count in the text that it leaves.
fn first_change(changes: &[Value]) -> Option<(&Value, &[Value])>
    ensures first { IfSome result (λ r. r.0.now ∷ r.1.now ≡ changes.now) }
    ensures none { result ≡ None → changes.now ≡ [] }
{
    changes.split_first()
}

/// Makes the changes of a message, one after another, and says whether each was well formed. Where one is not, those before it are made.
///
/// # Errors
///
/// `AllocError` if there is no memory for the text.
pub fn change_all(
    document: &mut Document,
    encoding: Encoding,
    mut changes: &[Value],
) -> Result<bool, AllocError>
    ensures { IfOk result (λ whole. (if whole then Some document.new else None) ≡ option_map (text_after_all encoding document.old) (changes_of (map view changes.entry.now))) }
{
    'changes: while let Some((json, later)) = first_change(changes) {
        let Some(change) = change_in(json) else {
            return Ok(false);
        };
        document.change(encoding, change.range, change.text.as_bytes())?;
        changes = later;
    }
    Ok(true)
}
