//! Sessions of the editor.

mod edited;
mod failing;
mod interrupted;
mod pieces;
mod running;
mod session;

pub use session::Session;
