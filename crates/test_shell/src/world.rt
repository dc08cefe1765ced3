//! Calls of a tape, which are not made when memory runs out.

use crate::support::refused_after;
use rc_text::Text;
use rc_world::{
    Answer, ChildNo, Fault, Kind, Launch, PLAIN_SLOTS, Program, Slot, Stop, Tape, World, calls,
};
use std::alloc::{AllocError, Global};
use std::test::Fail;

fn echo_hello(alloc: Global) -> Result<Launch, AllocError> {
    Ok(Launch {
        program: Program::Path(String::from_str(alloc, "/bin/echo")?),
        args: vec![in alloc; Text::of(alloc, "hello")?]?,
        env: vec![in alloc; Text::of(alloc, "path=/bin")?]?,
        slots: PLAIN_SLOTS,
    })
}

#[test]
fn out_of_memory_leaves_a_call_unmade(rt: HostRuntime) -> Result<(), Fail> {
    let alloc = rt.alloc();
    let launch = echo_hello(alloc)?;
    let names = vec![in alloc; String::from_str(alloc, "b")?]?;
    let answers = vec![in alloc;
        Answer::Done,
        Answer::Child(ChildNo(7)),
        Answer::Names(names),
        Answer::Found(Kind::Program),
    ]?;
    let mut tape = Tape::new(answers);
    let written = tape.write(Slot::Own(1), b"hi".as_slice());
    if written == Err(Fault::NoMemory) {
        return Err(refused_after(&rt, &tape, 0));
    }
    assert!(rt; written == Ok(()));
    let started = tape.start(&launch);
    if started == Err(Fault::NoMemory) {
        return Err(refused_after(&rt, &tape, 1));
    }
    assert!(rt; started == Ok(ChildNo(7)));
    let listed = tape.list(".").map(|names| names.len());
    if listed == Err(Fault::NoMemory) {
        return Err(refused_after(&rt, &tape, 2));
    }
    assert!(rt; listed == Ok(1));
    let found = calls::probe(&mut tape, "/bin/echo");
    if found == Err(Stop::NoMemory) {
        return Err(refused_after(&rt, &tape, 3));
    }
    assert!(rt; found == Ok(Some(Kind::Program)));
    Ok(())
}
