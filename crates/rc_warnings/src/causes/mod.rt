//! The probable causes of faults.

pub(crate) mod advice;
pub(crate) mod advising;
