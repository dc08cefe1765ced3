//! The texts of a row.

use crate::row_error::RowError;
use std::alloc::Global;

/// Parses a text.
pub fn text(alloc: Global, written: &str) -> Result<String, RowError> {
    match test_rows::text(alloc, written)? {
        Some(text) => Ok(text),
        None => Err(RowError::BadRow),
    }
}

/// Parses texts with spaces between them. `''` is an empty one.
pub fn list(alloc: Global, written: &str) -> Result<Vec<String>, RowError> {
    match test_rows::list(alloc, written)? {
        Some(list) => Ok(list),
        None => Err(RowError::BadRow),
    }
}
