//! The text of a layout.

mod breaks;
mod gaps;
mod lines;
pub(crate) mod source;
pub(crate) mod writer;
