//! The bounds of a well formed tree, and the text of a copy when memory runs out.

use rc_parser::{ScriptError, parse};
use rc_print::{PrintFault, print};
use rc_tree::{Cmd, InputError, Stage, clone_tree, well_formed};
use std::alloc::{AllocError, Global};
use std::rc::Rc;
use std::test::Fail;

/// The tree of a script.
fn tree(alloc: Global, script: &str) -> Result<Box<Cmd>, Fail> {
    match parse(alloc, script.as_bytes()) {
        Ok(tree) => Ok(Box::new(alloc, tree)?),
        Err(ScriptError::NoMemory) => Err(Fail::from(AllocError)),
        Err(ScriptError::Fault(_)) => Err(Fail::new("a script was refused")),
    }
}

/// A pipeline of this many empty blocks and one empty command.
fn pipeline(alloc: Global, blocks: usize) -> Result<Box<Cmd>, AllocError> {
    let mut stages = Vec::new(alloc);
    for _ in 0..blocks {
        let body = Box::new(alloc, Cmd::Empty)?;
        stages.push(Stage {
            cmd: Cmd::Brace(body),
            slot: 1,
        })?;
    }
    let last = Box::new(alloc, Cmd::Empty)?;
    let stages = Rc::new(alloc, stages)?;
    Ok(Box::new(alloc, Cmd::Pipeline(stages, last))?)
}

/// A command of this many levels.
fn deep(alloc: Global, levels: usize) -> Result<Box<Cmd>, AllocError> {
    let mut tree = Box::new(alloc, Cmd::Empty)?;
    for _ in 1..levels {
        tree = Box::new(alloc, Cmd::Not(tree))?;
    }
    Ok(tree)
}

#[test]
fn bounds_of_well_formed_trees(rt: HostRuntime) -> Result<(), Fail> {
    let alloc = rt.alloc();
    for (levels, is_wanted) in [(200, true), (201, false)] {
        let tree = deep(alloc, levels)?;
        assert!(rt; well_formed(&tree) == is_wanted, "{levels} levels");
    }
    for (blocks, is_wanted) in [(0, false), (1, true), (63, true), (64, false)] {
        let tree = pipeline(alloc, blocks)?;
        assert!(rt; well_formed(&tree) == is_wanted, "{blocks} blocks");
    }
    let nothing = Box::new(alloc, Cmd::Simple(Vec::new(alloc)))?;
    assert!(rt; !well_formed(&nothing));
    Ok(())
}

#[test]
fn out_of_memory_in_a_copy_is_reported(rt: HostRuntime) -> Result<(), Fail> {
    let alloc = rt.alloc();
    let made = tree(alloc, "'it''s' x > f")?;
    let copy = Box::new(alloc, clone_tree(alloc, &made)?)?;
    match print(alloc, &copy) {
        Ok(text) => assert_eq!(rt; text.as_str(), "'it''s' x > f"),
        Err(InputError::NoMemory) => return Err(Fail::from(AllocError)),
        Err(InputError::Fault(PrintFault::HereInside)) => panic!(rt; "no here document is inside"),
    }
    Ok(())
}
