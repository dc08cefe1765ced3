//! Why a row or a run has no result.

use rc_model::InputError;
use rc_parser::ScriptError;
use rc_shell::FamilyFault;
use std::alloc::{AllocError, AllocFailed};
use std::num::ParseIntError;
use test_calls::AnswerError;
use thiserror::Error;

/// Why a row or a run has no result.
#[derive(Clone, Copy, Debug, Drop, Error)]
pub enum RunError {
    #[error("the row is not written as it must be")]
    BadRow,
    #[error("the script is refused")]
    Refused,
    #[error("a step is refused: {0}")]
    Step(FamilyFault),
    #[error("out of memory")]
    NoMemory,
}

impl From<AllocError> for RunError {
    fn from(_: AllocError) -> Self {
        RunError::NoMemory
    }
}

impl<T: Drop> From<AllocFailed<T>> for RunError {
    fn from(_: AllocFailed<T>) -> Self {
        RunError::NoMemory
    }
}

impl From<ParseIntError> for RunError {
    fn from(_: ParseIntError) -> Self {
        RunError::BadRow
    }
}

impl From<ScriptError> for RunError {
    fn from(error: ScriptError) -> Self {
        match error {
            InputError::Fault(_) => RunError::Refused,
            InputError::NoMemory => RunError::NoMemory,
        }
    }
}

impl From<AnswerError> for RunError {
    fn from(error: AnswerError) -> Self {
        match error {
            AnswerError::NoAnswer => RunError::BadRow,
            AnswerError::NoMemory => RunError::NoMemory,
        }
    }
}

impl From<FamilyFault> for RunError {
    fn from(fault: FamilyFault) -> Self {
        RunError::Step(fault)
    }
}
