//! Functions that the tests of refused memory share.

use rc_world::{Answer, ChildNo, Ending, Kind, Tape};
use std::alloc::{AllocError, Global};
use std::process::Abort;
use std::test::Fail;

/// The answers to a program that is found at the first place and ends well.
pub fn one_program(alloc: Global) -> Result<Tape, AllocError> {
    Ok(Tape::new(vec![in alloc;
        Answer::Found(Kind::Program),
        Answer::Child(ChildNo(7)),
        Answer::Ended(Ending::Code(0)),
    ]?))
}

/// The failure of a test when memory runs out, after this many calls.
pub fn refused_after(rt: &impl Abort, tape: &Tape, calls: usize) -> Fail {
    assert_eq!(rt; tape.calls().len(), calls);
    Fail::from(AllocError)
}
