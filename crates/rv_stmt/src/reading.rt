//! What tokens are read as.

use rv_text::{Fault, FaultNumber};
use std::alloc::AllocError;

/// What some tokens are read as, or what is wrong with them.
pub type Reading<T> = Result<T, FaultNumber>;

/// A reading, unless there was no memory for it.
pub type Attempt<T> = Result<Reading<T>, AllocError>;

/// What some operands are read as, or the first fault among them, unless there was no memory for it.
pub type Outcome<T> = Result<Result<T, Fault>, AllocError>;
