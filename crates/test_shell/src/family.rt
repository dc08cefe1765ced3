//! Families of shells when memory runs out.

ghost use Rattle.std.specs.Prelude.{IfOk};
ghost use Rattle.rc_model.specs.Handed.Proper.{IsProperTree};
ghost use Rattle.rc_tree.specs.View.{cmd_tree};

use rc_parser::{ScriptError, parse};
use rc_scope::{State, texts_of};
use rc_shell::{Family, FamilyFault};
use rc_tree::Cmd;
use rc_world::{Answer, Call, ChildNo, Handle};
use std::alloc::{AllocError, Global};
use std::process::Abort;
use std::test::Fail;

/// The tree of a script, in a box: each place that may drop a tree takes long to prove.
#[tactic(auto, using(law_handed::proofs::Characters::accepted_are_scripts))]
fn tree_of(alloc: Global, script: &[u8]) -> Result<Box<Cmd>, ScriptError>
    ensures { IfOk result (λ tree. IsProperTree (cmd_tree tree.value)) }
{
    Ok(Box::new(alloc, parse(alloc, script)?)?)
}

/// The family of a pipeline of two shells, or an `Err` if memory ran out.
fn begun(rt: &impl Abort, alloc: Global) -> Result<Family, Fail> {
    let tree = tree_of(alloc, b"a | b".as_slice())?;
    let mut state = State::new(alloc);
    let path = vec![in alloc; String::from_str(alloc, "/bin")?]?;
    state.set("path", texts_of(alloc, &path)?)?;
    match Family::new(alloc, &tree, state, 1000) {
        Ok(family) => Ok(family),
        Err(fault) => {
            assert_eq!(rt; fault, FamilyFault::NoMemory);
            Err(Fail::from(AllocError))
        }
    }
}

/// Makes a step of process 0. An `Err` means that memory ran out, and then nothing has changed.
fn step(rt: &impl Abort, alloc: Global, family: &mut Family, answer: Answer) -> Result<Call, Fail> {
    let count = family.count();
    match family.step(alloc, 0, answer) {
        Ok(call) => Ok(call),
        Err(fault) => {
            assert_eq!(rt; fault, FamilyFault::NoMemory);
            assert_eq!(rt; family.count(), count);
            Err(Fail::from(AllocError))
        }
    }
}

/// Run with each allocation refused in turn. An `Err` means that one was.
#[test]
fn out_of_memory_makes_no_step(rt: HostRuntime) -> Result<(), Fail> {
    let alloc = rt.alloc();
    let mut family = begun(&rt, alloc)?;
    let pipe = step(&rt, alloc, &mut family, Answer::Pair(Handle(3), Handle(4)))?;
    assert!(rt; matches!(&pipe, Call::Pipe), "the pipe is made first");
    let start = step(&rt, alloc, &mut family, Answer::Child(ChildNo(1)))?;
    assert!(rt;
        matches!(&start, Call::Start(_)),
        "then the first stage is started"
    );
    assert_eq!(rt; family.count(), 2);
    assert!(rt;
        matches!(family.pending(1), Some(Call::Probe(_))),
        "it looks for its program"
    );
    Ok(())
}
