//! A text, and the edit that was made last.

ghost use Rattle.std.specs.Prelude.{◌≡◌};

use crate::script::{number_in, number_of, parts_of, spelled_bytes};
use crate::texts::answers::{
    address_text, base_text, code_text, fault_hash, line_text, print_answer, refusal_numbers,
    symbol_text, token_count,
};
use crate::texts::both_faults::compare_faults;
use crate::texts::edits::{Edit, EditKind};
use crate::texts::loaded::loaded;
use rv_list::{ListError, write_faults, write_image, write_listing, write_symbols};
use rv_store::{EditError, Store};
use rv_text::{StdSink, Tally};
use std::alloc::{AllocError, Global};
use std::io::{self, Write};
use std::test::Fail;

/// A text, what its last edit counted, and that edit where it found no memory.
#[derive(Drop)]
pub struct Text<'a> {
    base: u32,
    store: Store,
    tally: Tally,
    without_memory: Option<Edit<'a>>,
}

// The three numbers of a row.
fn counts_of(row: &str) -> Option<[u64; 3]> {
    let mut words = row.split_ascii_whitespace();
    let parsed = number_of(words.next()?)?;
    let valued = number_of(words.next()?)?;
    let encoded = number_of(words.next()?)?;
    Some([u64::from(parsed), u64::from(valued), u64::from(encoded)])
}

// Writes the image, the symbols, the listing and the faults.
fn write_pages<W: Write>(store: &Store, sink: &mut StdSink<W>) -> Result<(), ListError>
    requires { sink.old.failures ≡ 0 }
{
    write_image(&store, sink)?;
    write_symbols(&store, sink)?;
    write_listing(&store, sink)?;
    write_faults(&store, sink)
}

// The text of a line.
fn shown_line(store: &Store, place: u32) -> Result<&str, Fail> {
    match store.line(place) {
        Some(line) => Ok(str::from_utf8(line)?),
        None => Ok("none"),
    }
}

// Prints a line with its address and code.
fn show_line(rt: &HostRuntime, store: &Store, place: u32) -> Result<(), Fail> {
    let address = address_text(rt.alloc(), store, place)?;
    let code = code_text(rt.alloc(), store, place)?;
    println!(rt; "{address} {code} | {}", shown_line(store, place)?)?;
    Ok(())
}

// Prints what a store shows.
fn show(rt: &HostRuntime, store: &Store) -> Result<(), Fail> {
    println!(rt; "lines {}", store.len())?;
    for place in 0..store.len() as u32 {
        show_line(rt, store, place.saturating_add(1))?;
    }
    let mut sink = StdSink::new(io::writer(rt));
    write_pages(store, &mut sink)?;
    Ok(())
}

// Prints the faults.
fn show_faults(rt: &HostRuntime, store: &Store) -> Result<(), Fail> {
    let mut sink = StdSink::new(io::writer(rt));
    write_faults(&store, &mut sink)?;
    Ok(())
}

// A line of the chain, whose symbol is one more than that of the line before.
fn chain_line(alloc: Global, place: u32) -> Result<String, AllocError> {
    match place.checked_sub(1) {
        None => format!(in alloc; ".equ n0, 1"),
        Some(before) => format!(in alloc; ".equ n{place}, n{before} + 1"),
    }
}

// Puts a line behind the others.
fn append(store: &mut Store, line: &str) -> Result<(), EditError> {
    let _ = EditKind::Append.make(store, line.as_bytes(), &mut Tally::new())?;
    Ok(())
}

impl<'a> Text<'a> {
    /// A text without lines.
    pub fn new(alloc: Global, base: u32) -> Result<Text<'a>, EditError> {
        let store = Store::new(alloc, base)?;
        Ok(Text {
            base,
            store,
            tally: Tally::new(),
            without_memory: None,
        })
    }

    /// Begins a text without lines, and prints the row, with the refusal of its base if that is none.
    pub fn begin(&mut self, rt: &HostRuntime, row: &str, base: u32) -> Result<(), Fail> {
        match Text::new(rt.alloc(), base) {
            Ok(session) => {
                *self = session;
                println!(rt; "{row}")?;
            }
            Err(error) => println!(rt; "{row} => refused {}", error.number())?,
        }
        Ok(())
    }

    // Makes an edit with this line, and prints what it answers. The faults are then written in both ways. Whether it found no memory.
    fn make(
        &mut self,
        rt: &HostRuntime,
        row: &str,
        kind: EditKind,
        line: &[u8],
    ) -> Result<bool, Fail> {
        let mut tally = Tally::new();
        let answer = kind.make(&mut self.store, line, &mut tally);
        self.tally = tally;
        print!(rt; "{row} => ")?;
        print_answer(rt, &answer)?;
        compare_faults(&self.store)?;
        Ok(matches!(answer, Err(EditError::Memory)))
    }

    // Makes an edit, and prints what it answers.
    fn edit(&mut self, rt: &HostRuntime, row: &str, edit: Edit<'a>) -> Result<(), Fail> {
        let is_without_memory = self.make(rt, row, edit.kind, edit.line.as_bytes())?;
        self.without_memory = is_without_memory.then_some(edit);
        Ok(())
    }

    // Makes an edit whose line is spelled, and prints what it answers.
    fn edit_spelled(&mut self, rt: &HostRuntime, row: &str, edit: &str) -> Result<(), Fail> {
        let Some(edit) = Edit::of_row(edit) else {
            return Err(Fail::new("a spelled row that is no edit"));
        };
        let line = spelled_bytes(rt.alloc(), edit.line)?;
        let _ = self.make(rt, row, edit.kind, line.as_slice())?;
        Ok(())
    }

    // Puts a line behind the others so many times, and prints how many lines there are then.
    fn repeat(&mut self, rt: &HostRuntime, row: &str, repeated: &str) -> Result<(), Fail> {
        let (count, line) = parts_of(repeated);
        for _ in 0..number_in(count)? {
            append(&mut self.store, line)?;
        }
        compare_faults(&self.store)?;
        println!(rt; "{row} => lines {}", self.store.len())?;
        Ok(())
    }

    // Puts a chain of symbols behind the others, and prints how many lines there are then.
    fn chain(&mut self, rt: &HostRuntime, row: &str, count: &str) -> Result<(), Fail> {
        for place in 0..number_in(count)? {
            let line = chain_line(rt.alloc(), place)?;
            append(&mut self.store, line.as_str())?;
        }
        compare_faults(&self.store)?;
        println!(rt; "{row} => lines {}", self.store.len())?;
        Ok(())
    }

    // Puts the same text, loaded at once, in the place of the text, and prints how many lines there are.
    fn load(&mut self, rt: &HostRuntime, row: &str) -> Result<(), Fail> {
        let (store, tally) = loaded(rt.alloc(), self.base, &self.store)?;
        self.store = store;
        self.tally = tally;
        compare_faults(&self.store)?;
        println!(rt; "{row} => lines {}", self.store.len())?;
        Ok(())
    }

    // Makes the last edit once more, where it found no memory.
    fn edit_again(&mut self, rt: &HostRuntime, row: &str) -> Result<(), Fail> {
        match self.without_memory {
            Some(edit) => self.edit(rt, row, edit),
            None => Ok(()),
        }
    }

    // Whether the last edit read so many lines, or fewer where it found no memory.
    fn has_read(&self, parsed: u64) -> bool {
        let read = self.tally.parsed_calls();
        match self.without_memory {
            Some(_) => read <= parsed,
            None => read == parsed,
        }
    }

    // Whether the last edit counted no more.
    fn counts_at_most(&self, most: [u64; 3]) -> bool {
        let [parsed, valued, encoded] = most;
        self.has_read(parsed)
            && self.tally.valued_calls() <= valued
            && self.tally.encoded_calls() <= encoded
    }

    // What the last edit counted, and whether that is no more than the row says.
    fn counts_text(&self, alloc: Global, row: &str) -> Result<String, Fail> {
        let Some(most) = counts_of(row) else {
            return Err(Fail::new("a row of counts without three numbers"));
        };
        if self.counts_at_most(most) {
            return Ok(format!(in alloc; "within")?);
        }
        Ok(self.counted_text(alloc)?)
    }

    // What the last edit counted.
    fn counted_text(&self, alloc: Global) -> Result<String, AllocError> {
        format!(in alloc;
            "read {}, values {}, encoded {}",
            self.tally.parsed_calls(),
            self.tally.valued_calls(),
            self.tally.encoded_calls()
        )
    }

    // The answer of a question about a line.
    fn answer_at(&self, alloc: Global, name: &str, place: u32) -> Result<String, Fail> {
        match name {
            "code" => code_text(alloc, &self.store, place),
            "address" => Ok(address_text(alloc, &self.store, place)?),
            "line" => Ok(line_text(alloc, &self.store, place)?),
            "tokens" => token_count(alloc, &self.store, place),
            _ => Err(Fail::new("a row that is no edit and no question")),
        }
    }

    // The answer of a question.
    fn answer_text(&self, alloc: Global, question: &str) -> Result<String, Fail> {
        let (name, rest) = parts_of(question);
        match name {
            "counts" => self.counts_text(alloc, rest),
            "counted" => Ok(self.counted_text(alloc)?),
            "symbol" => Ok(symbol_text(alloc, &self.store, rest)?),
            "length" => Ok(format!(in alloc; "{}", self.store.len())?),
            "hash" => fault_hash(alloc, &self.store),
            "base_ok" => base_text(alloc, rest),
            "errors" => Ok(refusal_numbers(alloc)?),
            _ => self.answer_at(alloc, name, number_in(rest)?),
        }
    }

    // Prints a question with its answer.
    fn ask(&self, rt: &HostRuntime, question: &str) -> Result<(), Fail> {
        let text = self.answer_text(rt.alloc(), question)?;
        println!(rt; "{question} => {text}")?;
        Ok(())
    }

    /// Makes the edit of a row, or answers its question, and prints the row with the answer.
    pub fn answer(&mut self, rt: &HostRuntime, row: &'a str) -> Result<(), Fail> {
        if let Some(edit) = Edit::of_row(row) {
            return self.edit(rt, row, edit);
        }
        let (name, rest) = parts_of(row);
        match name {
            "spelled" => self.edit_spelled(rt, row, rest),
            "repeat" => self.repeat(rt, row, rest),
            "chain" => self.chain(rt, row, rest),
            "loaded" => self.load(rt, row),
            "again" => self.edit_again(rt, row),
            "show" => show(rt, &self.store),
            "faults" => show_faults(rt, &self.store),
            _ => self.ask(rt, row),
        }
    }
}
