//! The pages that show a text.

ghost use Rattle.std.specs.Prelude.{◌≡◌, ◌-◌, ◌^◌, ◌<◌, ◌≤◌, length};
ghost use Rattle.std.specs.List.{flat_map};
ghost use Rattle.rv_text.specs.Blocks.{Gathers};
ghost use Rattle.rv_text.specs.Streams.{failures_after, Writes};
ghost use Rattle.rv_commands.specs.Pages.{ended, text_of, page_text};

use crate::numbered::push_numbered;
use rv_list::{ListError, write_image, write_listing, write_symbols, write_tested_faults};
use rv_store::Store;
use rv_text::{Failed, OutputBlock, Sink};

/// A text that shows what the lines are.
#[derive(Clone, Copy, Debug, PartialEq, Eq)]
pub enum Page {
    /// The bytes of all sections.
    Image,
    /// The lines with their addresses and their first bytes.
    Listing,
    /// The symbols.
    Symbols,
    /// The faults.
    Faults,
    /// The lines alone.
    Lines,
}

// Adds a line with its line break.
fn push_line<W: Sink>(block: &mut OutputBlock, sink: &mut W, line: &[u8]) -> Result<(), Failed>
    requires few { length line.now ≤ 1000 }
    requires failures { W.failures sink.old < 2 ^ 64 - 1 }
    ensures text { Gathers (W.taken sink.old) block.old (ended line.now) result (W.taken sink.new) block.new }
    ensures count { W.failures sink.new ≡ failures_after (W.failures sink.old) result }
{
    block.push(sink, line)?;
    block.push(sink, b"\n")
}

// Adds the lines.
fn push_lines<W: Sink>(block: &mut OutputBlock, sink: &mut W, store: &Store) -> Result<(), Failed>
    requires { W.failures sink.old < 2 ^ 64 - 1 }
    ensures text { Gathers (W.taken sink.old) block.old (flat_map ended store.now.lines) result (W.taken sink.new) block.new }
    ensures count { W.failures sink.new ≡ failures_after (W.failures sink.old) result }
{
    for k in 0..store.len() as u32 {
        let Some(line) = store.line(k + 1) else {
            unreachable!()
        };
        push_line(block, sink, line)?;
    }
    Ok(())
}

// Adds how many lines there are, and then the lines.
#[tactic(auto, unfolding(crate::specs::Pages::text_of))]
fn push_text<W: Sink>(block: &mut OutputBlock, sink: &mut W, store: &Store) -> Result<(), Failed>
    requires { W.failures sink.old < 2 ^ 64 - 1 }
    ensures text { Gathers (W.taken sink.old) block.old (text_of store.now) result (W.taken sink.new) block.new }
    ensures count { W.failures sink.new ≡ failures_after (W.failures sink.old) result }
{
    push_numbered(block, sink, b"text ", store.len())?;
    push_lines(block, sink, store)
}

// Writes the lines, up to the first failure of the writer.
fn write_text<W: Sink>(store: &Store, sink: &mut W) -> Result<(), ListError>
    requires { W.failures sink.old < 2 ^ 64 - 1 }
    ensures text { Writes (W.taken sink.old) (text_of store.now) result (W.taken sink.new) }
    ensures count { W.failures sink.new ≡ failures_after (W.failures sink.old) result }
{
    let mut block = OutputBlock::new();
    push_text(&mut block, sink, store)?;
    block.flush(sink)?;
    Ok(())
}

/// Writes a page, up to the first failure of the writer.
pub fn write_page<W: Sink>(page: Page, store: &Store, sink: &mut W) -> Result<(), ListError>
    requires { W.failures sink.old < 2 ^ 64 - 1 }
    ensures text { Writes (W.taken sink.old) (page_text page store.now) result (W.taken sink.new) }
    ensures count { W.failures sink.new ≡ failures_after (W.failures sink.old) result }
{
    match page {
        Page::Image => write_image(&store, sink),
        Page::Listing => write_listing(&store, sink),
        Page::Symbols => write_symbols(&store, sink),
        Page::Faults => write_tested_faults(&store, sink),
        Page::Lines => write_text(store, sink),
    }
}
