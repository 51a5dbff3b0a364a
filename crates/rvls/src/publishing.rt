//! The diagnostics of a document.

ghost use Rattle.std.specs.Prelude.{◌≡◌, ◌++◌, OnOk};
ghost use Rattle.rv_diagnostics.specs.Published.{publication};
ghost use Rattle.rvls.specs.DocumentDiagnostics.{document_diagnostics, report};

use crate::stored::Stored;
use rv_changes::Assembly;
use rv_diagnostics::{Context, Message, Part, publish_lines, put_nearest};
use std::alloc::AllocError;

/// Appends the message with the diagnostics of a document that are nearest to a line, by its number from 0 on.
///
/// # Errors
///
/// `AllocError` if there is no memory for it.
pub fn publish(
    context: &Context<'_>,
    version: Option<i64>,
    document: &Assembly,
    at: u32,
    out: &mut Vec<u8>,
) -> Result<(), AllocError>
    ensures { OnOk result (out.new.items ≡ out.old.items
        ++ publication context.now.uri.now version (document_diagnostics context.now.encoding context.now.uri.now document.now at)) }
{
    let text = document.text();
    let told = Stored::of(document.store());
    publish_lines(context, version, text, &told, at, out)
}

/// Writes those diagnostics as the report that a request is answered with.
///
/// # Errors
///
/// `AllocError` if there is no memory for it.
#[tactic(auto, unfolding(crate::specs::DocumentDiagnostics::report))]
pub fn put_report(
    m: &mut Message,
    context: &Context<'_>,
    document: &Assembly,
    at: u32,
) -> Result<(), AllocError>
    ensures { OnOk result (m.new ≡ m.old ++ report (document_diagnostics context.now.encoding context.now.uri.now document.now at)) }
{
    m.put_all(&[
        Part::BeginObject,
        Part::Key("kind"),
        Part::Text("full"),
        Part::Key("items"),
        Part::BeginArray,
    ])?;
    let told = Stored::of(document.store());
    put_nearest(m, context, document.text(), &told, at)?;
    m.put_all(&[Part::EndArray, Part::EndObject])?;
    Ok(())
}
