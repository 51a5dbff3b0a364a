//! Answers the rows of a script, each of which names a call and its arguments. What it prints is the script, with the answer of a
//! row behind ` => `. The stored run has the examples of the crates below the store: their answers come from the standard, from
//! other assemblers and from an independent program of the definitions.
//!
//! A row that is empty or begins with `#` says nothing.
#![tactic(auto)]

mod codes;
mod defined;
mod disassembly;
mod encodings;
mod entries;
mod expressions;
mod layouts;
mod lines;
mod operations;
mod row;
mod shown;
mod statement_text;
mod statements;
mod streams;
mod table;
mod table_items;
mod table_view;
mod trees;

use row::parts_of;
use std::alloc::Global;
use std::io::Read;
use std::test::Fail;

// The answer of a row, whose call is looked for subject by subject.
fn answer_of(alloc: Global, script: &str, row: &str) -> Result<String, Fail> {
    let (call, arguments) = parts_of(row);
    match call {
        "operation_not_encoded" => encodings::operation_not_encoded(alloc, script),
        "operation_without_text" => disassembly::operation_without_text(alloc, script),
        _ => answer_of_line(alloc, call, arguments),
    }
}

// Of tokens and numbers.
fn answer_of_line(alloc: Global, call: &str, arguments: &str) -> Result<String, Fail> {
    match call {
        "tokens" => lines::token_kinds(alloc, arguments),
        "tokens_of_bytes" => lines::token_kinds_of_bytes(alloc, arguments),
        "places" => lines::token_places(alloc, arguments),
        "token" => lines::token_text(alloc, arguments),
        "number" => lines::number_value(alloc, arguments),
        "decimal_digits" => lines::digits_value(alloc, arguments),
        "is_local_number" => lines::numbers_local_label(alloc, arguments),
        "spelled" => lines::spelled_byte(alloc, arguments),
        _ => answer_of_stream(alloc, call, arguments),
    }
}

// Of readers, writers, output and counters.
fn answer_of_stream(alloc: Global, call: &str, arguments: &str) -> Result<String, Fail> {
    match call {
        "writes_into_memory" => streams::writes_into_memory(alloc, arguments),
        "writes_with_failure" => streams::writes_with_failure(alloc, arguments),
        "reads_with_failure" => streams::reads_with_failure(alloc, arguments),
        "reads_outside" => streams::reads_outside(alloc, arguments),
        "writes_outside" => streams::writes_outside(alloc, arguments),
        "interrupted_outside" => streams::interrupted_outside(alloc, arguments),
        "writes_outside_without_room" => streams::writes_outside_without_room(alloc, arguments),
        "block_with_failure" => streams::block_with_failure(alloc, arguments),
        "decimal_row" => streams::decimal_row(alloc, arguments),
        "hexadecimal_row" => streams::hexadecimal_row(alloc, arguments),
        "counter" => streams::counter(alloc, arguments),
        "appended" => streams::appended(alloc, arguments),
        "memory_refusal" => streams::memory_refusal(alloc, arguments),
        _ => answer_of_expression(alloc, call, arguments),
    }
}

// Of expressions.
fn answer_of_expression(alloc: Global, call: &str, arguments: &str) -> Result<String, Fail> {
    match call {
        "value" => expressions::expression_value(alloc, arguments),
        "operand_value" => expressions::operand_value(alloc, arguments),
        "values_of_names" => expressions::values_of_names(alloc, arguments),
        "root" => expressions::root(alloc, arguments),
        "label" => expressions::label(alloc, arguments),
        "label_number" => expressions::label_value(alloc, arguments),
        "depth" => expressions::depth(alloc, arguments),
        "depth_after" => expressions::depth_after_token(alloc, arguments),
        "line_fault" => expressions::fault_of_line(alloc, arguments),
        "reading_refusals" => expressions::reading_refusals(alloc, arguments),
        _ => answer_of_operation(alloc, call, arguments),
    }
}

// Of operations and registers, and of what the manual says of names.
fn answer_of_operation(alloc: Global, call: &str, arguments: &str) -> Result<String, Fail> {
    match call {
        "operation" => operations::operation(alloc, arguments),
        "operation_named" => operations::operation_named(alloc, arguments),
        "operands" => operations::operands(alloc, arguments),
        "limit" => operations::limit(alloc, arguments),
        "register" => operations::register(alloc, arguments),
        "register_named" => operations::register_named(alloc, arguments),
        "zero_register" => operations::zero_register(alloc, arguments),
        "csr" => operations::csr(alloc, arguments),
        "csr_named" => operations::csr_named(alloc, arguments),
        "named_csrs" => operations::named_csrs(alloc, arguments),
        "is_name" => operations::is_same_name(alloc, arguments),
        "modifier_named" => operations::modifier_named(alloc, arguments),
        "entry" => entries::entry(alloc, arguments),
        "statements_without_entry" => entries::statements_without_entry(alloc, arguments),
        "registers_without_entry" => entries::registers_without_entry(alloc, arguments),
        _ => answer_of_encoding(alloc, call, arguments),
    }
}

// Of encodings.
fn answer_of_encoding(alloc: Global, call: &str, arguments: &str) -> Result<String, Fail> {
    match call {
        "encode" => encodings::encoding(alloc, arguments),
        "takes" => encodings::is_taken(alloc, arguments),
        "takes_immediate" => encodings::is_taken_immediate(alloc, arguments),
        "decode" => encodings::decoding(alloc, arguments),
        "bytes" => encodings::bytes_in_memory(alloc, arguments),
        "class" => encodings::registers_of_class(alloc, arguments),
        "half_words" => encodings::half_words(alloc, arguments),
        "scattered_words" => encodings::scattered_words(alloc, arguments),
        _ => answer_of_statement(alloc, call, arguments),
    }
}

// Of statements and what they stand for.
fn answer_of_statement(alloc: Global, call: &str, arguments: &str) -> Result<String, Fail> {
    match call {
        "statement" => statements::statement(alloc, arguments),
        "statement_of_bytes" => statements::statement_of_bytes(alloc, arguments),
        "words" => statements::words(alloc, arguments),
        "expansion" => statements::expansion(alloc, arguments),
        "value_parts" => statements::value_parts(alloc, arguments),
        _ => answer_of_layout(alloc, call, arguments),
    }
}

// Of the shapes and places of lines.
fn answer_of_layout(alloc: Global, call: &str, arguments: &str) -> Result<String, Fail> {
    match call {
        "shape" => layouts::shape(alloc, arguments),
        "end" => layouts::end(alloc, arguments),
        "filled_end" => layouts::filled_end(alloc, arguments),
        "bases" => layouts::bases(alloc, arguments),
        "joined" => layouts::joined(alloc, arguments),
        _ => answer_of_code(alloc, call, arguments),
    }
}

// Of the values and codes of lines.
fn answer_of_code(alloc: Global, call: &str, arguments: &str) -> Result<String, Fail> {
    match call {
        "assemble" => codes::assemble(alloc, arguments),
        "values" => codes::values(alloc, arguments),
        "same_values" => codes::same_values(alloc, arguments),
        "code" => codes::code(alloc, arguments),
        "same_codes" => codes::same_codes(alloc, arguments),
        "error_number" => codes::error_number(alloc, arguments),
        _ => answer_of_disassembly(alloc, call, arguments),
    }
}

// Of disassembled words.
fn answer_of_disassembly(alloc: Global, call: &str, arguments: &str) -> Result<String, Fail> {
    match call {
        "instruction" => disassembly::instruction(alloc, arguments),
        "rows" => disassembly::rows(alloc, arguments),
        "disassembly_error_numbers" => disassembly::error_numbers(alloc),
        _ => answer_of_shown(alloc, call, arguments),
    }
}

// Of what is shown of a table of lines.
fn answer_of_shown(alloc: Global, call: &str, arguments: &str) -> Result<String, Fail> {
    match call {
        "shown" => shown::text(alloc, arguments),
        "section_bytes" => shown::bytes_of_section(alloc, arguments),
        "pushed_row" => shown::pushed_row(alloc, arguments),
        "failing_writer" => shown::failing_writer(alloc, arguments),
        _ => answer_of_tree(alloc, call, arguments),
    }
}

// Of trees.
fn answer_of_tree(alloc: Global, call: &str, arguments: &str) -> Result<String, Fail> {
    match call {
        "tree" => trees::lists(alloc, arguments),
        "tree_refusals" => trees::refusals(alloc, arguments),
        "tree_error_numbers" => trees::error_numbers(alloc),
        "grown_tree" => trees::grown(alloc, arguments),
        "full_tree" => trees::full(alloc, arguments),
        "full_tree_length" => trees::full_length(alloc),
        "skipping_pass" => trees::skipping(alloc, arguments),
        _ => Err(Fail::new("a row that names no call")),
    }
}

// Prints a row, with its answer if it asks for one.
fn print_answered(rt: &HostRuntime, script: &str, row: &str) -> Result<(), Fail> {
    if row.is_empty() || row.starts_with("#") {
        println!(rt; "{row}")?;
        return Ok(());
    }
    let answer = answer_of(rt.alloc(), script, row)?;
    println!(rt; "{row} => {answer}")?;
    Ok(())
}

fn main(rt: HostRuntime) -> Result<(), Fail> {
    let mut input = Vec::new(rt.alloc());
    rt.reader().read_to_end(&mut input)?;
    let script = str::from_utf8(input.as_slice())?;
    for row in script.lines() {
        print_answered(&rt, script, row)?;
    }
    Ok(())
}
