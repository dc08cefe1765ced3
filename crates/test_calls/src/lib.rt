//! The notation for calls and their answers in the rows of files.
#![tactic(auto)]

mod answers;
mod calls;

pub use answers::{AnswerError, answer};
pub use calls::write_call;
