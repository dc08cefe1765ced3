//! A script with its tokens, and what is before each of them.

pub(crate) mod contexts;
pub(crate) mod enclosing_commands;
pub(crate) mod script_tokens;
