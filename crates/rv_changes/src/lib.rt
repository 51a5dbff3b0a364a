//! Documents with their assembly: the lines of a store where its document changes, and texts that are put into a new one.
#![tactic(auto)]

mod assembled;
mod assembly;
mod base;
mod limits;
mod loading;
mod syncing;

pub use assembly::Assembly;
pub use base::{Base, base_in};
