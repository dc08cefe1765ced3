//! The fault of a script: that of its tree, and that of its code, for which the shell parses one item after the other.

use crate::trees::{fault_line, tree_of};
use rc_builtin::compile_script;
use rc_parser::ScriptError;
use std::alloc::{AllocError, Global};

/// The fault with its line, if there is one.
fn shown<T: Drop>(alloc: Global, read: Result<T, ScriptError>) -> Result<String, AllocError> {
    match read {
        Ok(_) => String::from_str(alloc, "accepted"),
        Err(fault) => fault_line(alloc, fault),
    }
}

/// The fault of a script with its line, and that of its code if it is another.
pub fn fault(alloc: Global, script: &[u8]) -> Result<String, AllocError> {
    let mut out = shown(alloc, tree_of(alloc, script))?;
    let compiled = shown(alloc, compile_script(alloc, script))?;
    if compiled.as_str() != out.as_str() {
        write!(out, ", and compiled: {compiled}")?;
    }
    Ok(out)
}
