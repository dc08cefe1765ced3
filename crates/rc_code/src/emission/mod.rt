//! The code of each form of a tree.

mod emit_args;
pub(crate) mod emit_commands;
mod emit_plain;
mod forms;
mod kept;
