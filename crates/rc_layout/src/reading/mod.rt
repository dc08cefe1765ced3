//! What each token of a script is to its layout.

pub(crate) mod brackets;
mod commands;
pub(crate) mod expectation;
pub(crate) mod keywords;
pub(crate) mod roles;
pub(crate) mod survey;
