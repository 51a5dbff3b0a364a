//! The code of a line as text.
#![tactic(auto)]

use rv_fix::Coded;
use rv_text::Fault;
use std::alloc::Global;
use std::fmt::Write;
use std::test::Fail;

// Appends a byte in hexadecimal digits.
fn push_byte(text: &mut String, byte: Option<u8>) -> Result<(), Fail> {
    let Some(byte) = byte else {
        return Err(Fail::new("a place without a byte"));
    };
    Ok(write!(text, "{byte:02x}")?)
}

// Appends the name and the span of a fault.
fn push_fault(text: &mut String, fault: Fault) -> Result<(), Fail> {
    let (number, from, to) = (fault.number, fault.span.from, fault.span.to);
    Ok(write!(text, " {number:?} {from}-{to}")?)
}

/// The bytes in hexadecimal digits, or `-` where there are none, and the name and the span of the fault.
pub fn text_of(alloc: Global, coded: &Coded) -> Result<String, Fail> {
    let mut text = String::new(alloc);
    let count = coded.payload.len();
    if count == 0 {
        text.push('-')?;
    }
    for place in 0..count {
        push_byte(&mut text, coded.payload.byte(place))?;
    }
    if let Some(fault) = coded.fault {
        push_fault(&mut text, fault)?;
    }
    Ok(text)
}
