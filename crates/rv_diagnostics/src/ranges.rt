//! Positions and ranges that are written.

ghost use Rattle.std.specs.Prelude.{◌≡◌, ◌++◌, OnOk};
ghost use Rattle.rv_diagnostics.specs.Json.{position, range};

use crate::message::Message;
use crate::part::Part;
use std::alloc::AllocError;

/// Writes a position, both numbers from 0 on.
///
/// # Errors
///
/// `AllocError` if there is no memory for it.
#[tactic(auto, unfolding(crate::specs::Json::position))]
pub fn put_position(message: &mut Message, line: u32, character: u32) -> Result<(), AllocError>
    ensures { OnOk result (message.new ≡ message.old ++ position line character) }
{
    message.put_all(&[
        Part::BeginObject,
        Part::Key("line"),
        Part::Number(u64::from(line)),
        Part::Key("character"),
        Part::Number(u64::from(character)),
        Part::EndObject,
    ])
}

/// Writes a range in a line, all numbers from 0 on.
///
/// # Errors
///
/// `AllocError` if there is no memory for it.
#[tactic(auto, unfolding(crate::specs::Json::position, crate::specs::Json::range))]
pub fn put_range(message: &mut Message, line: u32, from: u32, to: u32) -> Result<(), AllocError>
    ensures { OnOk result (message.new ≡ message.old ++ range line from to) }
{
    let line = u64::from(line);
    message.put_all(&[
        Part::BeginObject,
        Part::Key("start"),
        Part::BeginObject,
        Part::Key("line"),
        Part::Number(line),
        Part::Key("character"),
        Part::Number(u64::from(from)),
        Part::EndObject,
        Part::Key("end"),
        Part::BeginObject,
        Part::Key("line"),
        Part::Number(line),
        Part::Key("character"),
        Part::Number(u64::from(to)),
        Part::EndObject,
        Part::EndObject,
    ])
}
