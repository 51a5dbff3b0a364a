//! Reads the labels before a line's body.

ghost use Rattle.std.specs.Prelude.{◌≡◌, ◌≤◌, ◌<◌, ◌^◌, length, drop, option_map, IfOk};
ghost use Rattle.rv_stmt.specs.Labels.{label_name, labels_and_body, label_at};
ghost use Rattle.rv_stmt.specs.LentLabels.{label_lent, name_lent};

use crate::label::{Label, LabelName};
use crate::label_list::Labels;
use crate::token_range::TokenRange;
use rv_expr::label_number;
use rv_text::{TokenKind, is_local_number};
use std::alloc::{AllocError, Global};

// What a token would define as a label, if it may be one.
fn label_name<'a>(kind: TokenKind, text: &'a [u8]) -> Option<LabelName<'a>>
    ensures { option_map name_lent result ≡ label_name kind text.entry.now }
{
    match kind {
        TokenKind::Identifier if text != b".".as_slice() => Some(LabelName::Symbol(text)),
        TokenKind::Number if is_local_number(text) => {
            let number = label_number(text)?;
            Some(LabelName::Local(number))
        }
        _ => None,
    }
}

// The label at a place of some tokens, if one stands there with a `:` after it.
fn label_at<'a>(line: &TokenRange<'a>, place: usize) -> Option<Label<'a>>
    requires { place < 2 ^ 32 }
    ensures { option_map label_lent result ≡ label_at line.now place }
{
    if !line.punctuation_at(b":", place + 1) {
        return None;
    }
    let token = line.token_at(place)?;
    let name = label_name(token.kind, token.text)?;
    Some(Label {
        name,
        span: token.span,
    })
}

/// The labels of a line, and how many of its tokens they take, each with its `:`.
pub fn labels(alloc: Global, line: &TokenRange<'_>) -> Result<(Labels, usize), AllocError>
    requires { length line.now < 2 ^ 31 }
    ensures labels { IfOk result (λ r. r.0 ≡ (labels_and_body line.now).labels) }
    ensures body { IfOk result (λ r. drop r.1 line.now ≡ (labels_and_body line.now).body) }
    ensures within { IfOk result (λ r. r.1 ≤ length line.now) }
{
    let mut labels = Labels::new(alloc);
    let mut place = 0;
    while let Some(label) = label_at(line, place) {
        labels.push(label)?;
        place += 2;
    }
    Ok((labels, place))
}
