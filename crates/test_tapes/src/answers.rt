//! The calls of a row.

use crate::fault::RowError;
use rc_world::Answer;
use std::alloc::{AllocError, Global};
use test_calls::answer;

/// The separator between a call and its answer.
pub const ARROW: &str = " > ";

/// Calls, each on a line, and their answers.
pub struct Calls {
    pub lines: String,
    pub answers: Vec<Answer>,
}

impl Drop for Calls {
    fn drop(self) {
        let Calls {
            lines: _,
            answers: _,
        } = self;
    }
}

impl Calls {
    /// Parses calls. The last may have no answer.
    pub fn read(alloc: Global, written: &str) -> Result<Calls, RowError> {
        let mut calls = Calls {
            lines: String::new(alloc),
            answers: Vec::new(alloc),
        };
        for line in written.lines() {
            calls.add(alloc, line)?;
        }
        Ok(calls)
    }

    /// Adds the call of a line.
    fn add(&mut self, alloc: Global, line: &str) -> Result<(), RowError> {
        let (call, answered) = line.split_once(ARROW).unwrap_or((line, ""));
        self.lines.push_str(call)?;
        self.lines.push('\n')?;
        if !answered.is_empty() {
            self.answers.push(answer(alloc, answered)?)?;
        }
        Ok(())
    }

    /// Copies the answers.
    pub fn answers(&self, alloc: Global) -> Result<Vec<Answer>, AllocError> {
        let mut answers = Vec::new(alloc);
        for answer in self.answers.iter() {
            answers.push(answer.clone()?)?;
        }
        Ok(answers)
    }
}
