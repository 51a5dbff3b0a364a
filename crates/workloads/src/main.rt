//! Jobs that users wait for, of any size, for comparing the times of two builds. Each makes its own input, another one for each seed.
//! `digest NAME COUNT SEED` prints a digest of all its results, of each job where NAME is `all`; `commands NAME COUNT SEED` the commands
//! of one that is a session with the editor.
//!
//! - `open`: a text as a compiler writes it, of about COUNT lines, is entered line by line, and all its texts are written.
//! - `typing`: in such a text, lines are typed key by key, retyped and deleted, and labels renamed, with the faults after each.
//! - `paste`: into such a text, functions are pasted, looked at and deleted again.
//! - `constants`: a text of mixed lines, whose constants, `li` and paddings are edited.
//! - `locals`: a text by hand, in which every second line defines a local label.
//! - `disassembly`: images of about COUNT instructions in all are disassembled.
#![tactic(auto)]

mod compiled;
mod constants;
mod deck;
mod digest;
mod disassembly;
mod locals;
mod mixed;
mod open;
mod paste;
mod random;
mod script;
mod template;
mod typing;

use rv_text::number;
use script::{Script, digest_of_script};
use std::alloc::Global;
use std::test::Fail;

// The jobs.
const NAMES: [&str; 6] = [
    "open",
    "typing",
    "paste",
    "constants",
    "locals",
    "disassembly",
];

// The commands of a job, if there is one of that name that is a session with the editor.
fn script_of(alloc: Global, name: &str, count: u32, seed: u32) -> Result<Script, Fail> {
    match name {
        "open" => Ok(open::script(alloc, count, seed)?),
        "typing" => Ok(typing::script(alloc, count, seed)?),
        "paste" => Ok(paste::script(alloc, count, seed)?),
        "constants" => Ok(constants::script(alloc, count, seed)?),
        "locals" => Ok(locals::script(alloc, count, seed)?),
        _ => Err(Fail::new("no such job")),
    }
}

// The digest of all results of a job, if there is one of that name.
fn digest_of(alloc: Global, name: &str, count: u32, seed: u32) -> Result<u64, Fail> {
    if name == "disassembly" {
        return disassembly::digest(alloc, count, seed);
    }
    digest_of_script(alloc, &script_of(alloc, name, count, seed)?)
}

// The number that a word spells.
fn number_of(word: &str) -> Result<u32, Fail> {
    match number(word.as_bytes()) {
        Some(value) => Ok(u32::try_from(value).unwrap_or(u32::MAX)),
        None => Err(Fail::new("no number")),
    }
}

// Prints the digest of a job.
fn print_digest(rt: &HostRuntime, name: &str, count: u32, seed: u32) -> Result<(), Fail> {
    let digest = digest_of(rt.alloc(), name, count, seed)?;
    println!(rt; "{name} {digest:016x}")?;
    Ok(())
}

// Prints the digest of one job or of all.
fn print_digests(rt: &HostRuntime, name: &str, count: u32, seed: u32) -> Result<(), Fail> {
    if name != "all" {
        return print_digest(rt, name, count, seed);
    }
    for name in NAMES {
        print_digest(rt, name, count, seed)?;
    }
    Ok(())
}

fn main(rt: HostRuntime) -> Result<(), Fail> {
    let words = std::env::args(&rt)?.collect::<Vec<String>>(rt.alloc())?;
    let [_, first, name, count, seed] = words.as_slice() else {
        return Err(Fail::new("arguments: digest or commands, NAME COUNT SEED"));
    };
    let (count, seed) = (number_of(count.as_str())?, number_of(seed.as_str())?);
    if first.as_str() == "digest" {
        return print_digests(&rt, name.as_str(), count, seed);
    }
    let script = script_of(rt.alloc(), name.as_str(), count, seed)?;
    rt.print(script.as_str())?;
    Ok(())
}
