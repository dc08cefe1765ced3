//! The notation of the rows of test files, and the number of rows that differ.
#![tactic(auto)]

mod tally;
mod texts;

pub use tally::Tally;
pub use texts::{bytes, list, text};
