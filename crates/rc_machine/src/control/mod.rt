//! Instructions that jump, begin scopes, define functions and run commands.

pub(crate) mod function_calls;
pub(crate) mod jumps;
pub(crate) mod scopes;
pub(crate) mod simple_commands;
