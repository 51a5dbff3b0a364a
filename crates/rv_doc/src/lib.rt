//! Documents as editors see them: the frames of messages, positions of lines and columns, changes as messages say them, the lines that changes
//! touch, and which of many rows about a document are shown.
#![tactic(auto)]

mod changing;
mod document;
mod encoding;
mod frame;
mod laws;
mod lines;
mod lines_left;
mod position;
mod reading;
mod shared;
mod touched;
mod window;

pub use changing::change_all;
pub use document::Document;
pub use encoding::{Encoding, before_column, column_of};
pub use frame::{Frame, MAX_BODY, MAX_HEADER, frame_at};
pub use laws::{columns_have_room, lines_begin_there};
pub use lines::{line_count, may_have_longer_line};
pub use lines_left::Lines;
pub use position::{Position, Range, offset_of, without_return};
pub use reading::{Change, change_in, number_at, position_at, position_of, text_at};
pub use touched::{Touched, touched_lines};
pub use window::Window;
