//! Instructions that redirect, and those that start subshells.

pub(crate) mod open_redirections;
pub(crate) mod shells;
