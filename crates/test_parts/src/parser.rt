//! The tree of a script when memory runs out.

use rc_parser::{Reader, ScriptError, parse};
use rc_print::{PrintFault, print};
use rc_tree::{Cmd, InputError};
use std::alloc::{AllocError, Global};
use std::test::Fail;

#[test]
fn out_of_memory_in_the_parser_is_reported(rt: HostRuntime) -> Result<(), Fail> {
    let script = b"x=$y^'z' a | {b >f `{c} <<E}\n$w\nE\n";
    match parse(rt.alloc(), script.as_slice()) {
        Ok(_) => Ok(()),
        Err(ScriptError::NoMemory) => Err(Fail::from(AllocError)),
        Err(ScriptError::Fault(_)) => Err(Fail::new("a script was refused")),
    }
}

/// The text of a tree.
fn text_of(alloc: Global, cmd: &Cmd) -> Result<String, Fail> {
    match print(alloc, cmd) {
        Ok(text) => Ok(text),
        Err(InputError::NoMemory) => Err(Fail::from(AllocError)),
        Err(InputError::Fault(PrintFault::HereInside)) => Err(Fail::new("a tree has no text")),
    }
}

/// The text of the tree of a reader's script.
fn text_read(alloc: Global, reader: Reader) -> Result<String, Fail> {
    match reader.finish() {
        Ok(cmd) => text_of(alloc, &cmd),
        Err(ScriptError::NoMemory) => Err(Fail::from(AllocError)),
        Err(ScriptError::Fault(_)) => Err(Fail::new("a script was refused")),
    }
}

#[test]
fn out_of_memory_leaves_the_text(rt: HostRuntime) -> Result<(), Fail> {
    let script = b"a && b || c | {d &}";
    let mut reader = Reader::new(rt.alloc());
    let mut is_refused = false;
    for piece in script.as_slice().chunks(5) {
        if reader.feed(piece).is_err() {
            is_refused = true;
            reader.feed(piece)?;
        }
    }
    assert_eq!(rt;
        text_read(rt.alloc(), reader)?.as_str(),
        "a && b || c | {d &}"
    );
    if is_refused {
        return Err(Fail::from(AllocError));
    }
    Ok(())
}
