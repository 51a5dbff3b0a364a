//! The values of operands, the bytes and the fault of lines, and single lines at an address.
#![tactic(auto)]

mod alone;
mod coded;
mod constants;
mod data;
mod displacements;
mod encoding;
mod error;
mod filling;
mod fills;
mod instructions;
mod laws;
mod line_bytes;
mod names_in;
mod payload;
mod reports;
mod valuation;
mod values;

pub use alone::assemble_at;
pub use coded::Coded;
pub use displacements::displacement;
pub use encoding::encode_line;
pub use error::{AssembleError, FixError};
pub use laws::{codes_are_limited, faults_keep_sizes};
pub use payload::Payload;
pub use valuation::operand_values;
pub use values::{Entry, Values, is_same_entry};
