//! Why a row has no result.

use rc_image::{ImageError, ImageFault, InputError};
use rc_scope::NameFault;
use std::alloc::{AllocError, AllocFailed};

/// Why a row has no result.
#[derive(Clone, Copy)]
pub enum RowError {
    Image(ImageFault),
    /// The notation of the row is wrong.
    BadRow,
    NoMemory,
}

impl From<ImageError> for RowError {
    fn from(error: ImageError) -> Self {
        match error {
            InputError::Fault(fault) => RowError::Image(fault),
            InputError::NoMemory => RowError::NoMemory,
        }
    }
}

impl From<AllocError> for RowError {
    fn from(_: AllocError) -> Self {
        RowError::NoMemory
    }
}

impl<T: Drop> From<AllocFailed<T>> for RowError {
    fn from(_: AllocFailed<T>) -> Self {
        RowError::NoMemory
    }
}

impl From<InputError<NameFault>> for RowError {
    fn from(error: InputError<NameFault>) -> Self {
        match error {
            InputError::Fault(NameFault::BadName) => RowError::BadRow,
            InputError::NoMemory => RowError::NoMemory,
        }
    }
}
