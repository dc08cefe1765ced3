//! Why a row has no result.

use rc_model::{ImageFault, InputError, SyntaxFault};
use rc_scope::NameFault;
use std::alloc::{AllocError, AllocFailed};
use std::num::ParseIntError;
use test_calls::AnswerError;

/// Why a row has no result.
#[derive(Clone, Copy)]
pub enum RowError {
    /// The notation of the row is wrong.
    BadRow,
    /// The script or the image of the row is refused.
    Refused,
    NoMemory,
}

impl From<AllocError> for RowError {
    fn from(_: AllocError) -> Self {
        RowError::NoMemory
    }
}

impl<T: Drop> From<AllocFailed<T>> for RowError {
    fn from(_: AllocFailed<T>) -> Self {
        RowError::NoMemory
    }
}

impl From<ParseIntError> for RowError {
    fn from(_: ParseIntError) -> Self {
        RowError::BadRow
    }
}

impl From<InputError<NameFault>> for RowError {
    fn from(error: InputError<NameFault>) -> Self {
        match error {
            InputError::Fault(NameFault::BadName) => RowError::BadRow,
            InputError::NoMemory => RowError::NoMemory,
        }
    }
}

impl From<InputError<SyntaxFault>> for RowError {
    fn from(error: InputError<SyntaxFault>) -> Self {
        match error {
            InputError::Fault(_) => RowError::Refused,
            InputError::NoMemory => RowError::NoMemory,
        }
    }
}

impl From<InputError<ImageFault>> for RowError {
    fn from(error: InputError<ImageFault>) -> Self {
        match error {
            InputError::Fault(_) => RowError::Refused,
            InputError::NoMemory => RowError::NoMemory,
        }
    }
}

impl From<AnswerError> for RowError {
    fn from(error: AnswerError) -> Self {
        match error {
            AnswerError::NoAnswer => RowError::BadRow,
            AnswerError::NoMemory => RowError::NoMemory,
        }
    }
}
