//! What is shown of a text after a list of edits, and of bytes.

ghost use Rattle.std.specs.Prelude.{◌≡◌, ◌-◌, ◌^◌, ◌<◌, true, length, map, IfOk};
ghost use Rattle.rv_text.specs.Streams.{failures_after, Writes};
ghost use Rattle.rv_dis.specs.Assembling.{GiveBytes};
ghost use Rattle.rv_dis.specs.Rows.{Shows};
ghost use Rattle.rv_layout.specs.Places.{is_base};
ghost use Rattle.rv_program.specs.Edits.{edit_of};
ghost use Rattle.rv_commands.specs.Edited.{AreEdits, shown_texts, ShowsEdited};

use crate::edits::make_edit;
use crate::pages::{Page, write_page};
use rv_dis::{DisError, DisRow, disassemble};
use rv_list::ListError;
use rv_store::{EditError, LineEdit, Store};
use rv_text::Sink;
use std::alloc::Global;

// Makes the edits one after another, and puts their results beside them.
fn make_edits(store: &mut Store, edits: &[LineEdit<'_>], results: &mut [Result<(), EditError>])
    requires { length results.old ≡ length edits.now }
    ensures { AreEdits store.old (map edit_of edits.now) results.new store.new }
{
    for at in 0..edits.len() {
        results[at] = make_edit(store, edits[at]);
    }
}

// Writes the image, the symbols, the listing and the faults.
fn write_shown<W: Sink>(store: &Store, sink: &mut W) -> Result<(), ListError>
    requires { W.failures sink.old < 2 ^ 64 - 1 }
    ensures text { Writes (W.taken sink.old) (shown_texts store.now) result (W.taken sink.new) }
    ensures count { W.failures sink.new ≡ failures_after (W.failures sink.old) result }
{
    write_page(Page::Image, store, sink)?;
    write_page(Page::Symbols, store, sink)?;
    write_page(Page::Listing, store, sink)?;
    write_page(Page::Faults, store, sink)
}

/// After any list of line insertions, deletions and replacements, where a refused edit changes nothing, the image,
/// symbols, listing and faults that the store writes are byte for byte those that the definitions give for the current
/// text assembled from nothing; and every word that the disassembler shows as an instruction at an address assembles at
/// that address to its own bytes.
///
/// The edits are made one after another from the empty text on, and their results put beside them; then the four texts are
/// written, up to the first failure of the writer; and the bytes are disassembled from the address on. The two results are
/// those of writing and of disassembling.
pub fn live_assembler_is_exact<W: Sink>(
    alloc: Global,
    base: u32,
    edits: &[LineEdit<'_>],
    results: &mut [Result<(), EditError>],
    sink: &mut W,
    bytes: &[u8],
    address: u32,
) -> (Result<(), ListError>, Result<Vec<DisRow>, DisError>)
    requires base { is_base base ≡ true }
    requires results { length results.old ≡ length edits.now }
    requires failures { W.failures sink.old < 2 ^ 64 - 1 }
    ensures texts { ShowsEdited base (map edit_of edits.now) results.new (W.taken sink.old) result.0 (W.taken sink.new) }
    ensures count { W.failures sink.new ≡ failures_after (W.failures sink.old) result.0 }
    ensures rows { IfOk result.1 (λ rows. Shows address bytes.now rows.items) }
    ensures bytes { IfOk result.1 (λ rows. GiveBytes rows.items bytes.now) }
{
    let Ok(mut store) = Store::new(alloc, base) else {
        unreachable!()
    };
    make_edits(&mut store, edits, results);
    let written = write_shown(&store, sink);
    (written, disassemble(alloc, bytes, address))
}
