//! Names each example that is not accepted, whose text, read again, has another text, or in which something is found.

use crate::findings::findings;
use crate::trees::{fault_line, tree_of};
use anyhow::Result;
use rc_print::{PrintFault, print};
use rc_tree::{Cmd, InputError};
use std::alloc::{AllocError, Global};
use std::fs;

/// The fault of a script.
fn complaint(alloc: Global, script: &[u8]) -> Result<Option<String>, AllocError> {
    match tree_of(alloc, script) {
        Ok(tree) => complaint_of_text(alloc, &tree),
        Err(fault) => Ok(Some(fault_line(alloc, fault)?)),
    }
}

/// The fault of the text of a tree, if it has one.
fn complaint_of_text(alloc: Global, tree: &Cmd) -> Result<Option<String>, AllocError> {
    match print(alloc, tree) {
        Ok(text) if !is_read_back(alloc, text.as_str()) => {
            Ok(Some(String::from_str(alloc, "its text is not read back")?))
        }
        Ok(_) | Err(InputError::Fault(PrintFault::HereInside)) => Ok(None),
        Err(InputError::NoMemory) => Err(AllocError),
    }
}

/// Whether the tree of a text has this text.
fn is_read_back(alloc: Global, text: &str) -> bool {
    match tree_of(alloc, text.as_bytes()) {
        Ok(tree) => is_printed_as(alloc, &tree, text),
        Err(_) => false,
    }
}

fn is_printed_as(alloc: Global, tree: &Cmd, wanted: &str) -> bool {
    match print(alloc, tree) {
        Ok(text) => text.as_str() == wanted,
        Err(_) => false,
    }
}

/// Reads the example of this name.
fn read(rt: &HostRuntime, name: &str) -> Result<()> {
    let script = fs::read(rt, name)?;
    if let Some(complaint) = complaint(rt.alloc(), script.as_slice())? {
        println!(rt; "{name}: {complaint}")?;
    }
    let found = findings(rt.alloc(), script.as_slice())?;
    if found.as_str() != "nothing" {
        println!(rt; "{name}: {found}")?;
    }
    Ok(())
}

/// Reads each example in this folder.
pub fn read_all(rt: &HostRuntime) -> Result<()> {
    for entry in fs::read_dir(rt, ".")? {
        let entry = entry?;
        if entry.file_name().ends_with(".rc") {
            read(rt, entry.file_name())?;
        }
    }
    Ok(())
}
