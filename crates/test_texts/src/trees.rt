//! The tree of a script, and why there is none.

use rc_parser::{InputError, ScriptError, parse};
use rc_tree::Cmd;
use std::alloc::{AllocError, Global};

/// The tree of a script, in a box: each place that may drop a tree takes long to prove.
pub fn tree_of(alloc: Global, script: &[u8]) -> Result<Box<Cmd>, ScriptError> {
    Ok(Box::new(alloc, parse(alloc, script)?)?)
}

/// The fault of a script with its line.
pub fn fault_line(alloc: Global, fault: ScriptError) -> Result<String, AllocError> {
    match fault {
        InputError::Fault(fault) => format!(in alloc; "{fault}"),
        InputError::NoMemory => Err(AllocError),
    }
}

/// The text for a script that is not accepted, unless its fault is shown.
pub fn refused(alloc: Global, fault: ScriptError) -> Result<String, AllocError> {
    match fault {
        InputError::Fault(_) => String::from_str(alloc, "refused"),
        InputError::NoMemory => Err(AllocError),
    }
}
