//! Instructions that work on words and variables.

pub(crate) mod assignments;
pub(crate) mod matches;
pub(crate) mod word_lists;
