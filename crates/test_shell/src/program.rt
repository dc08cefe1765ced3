//! A run of the program.

use crate::support::refused_after;
use rc_cli::{RunError, run_rc};
use rc_world::Tape;
use std::test::Fail;

#[test]
fn out_of_memory_in_the_program_is_reported(rt: HostRuntime) -> Result<(), Fail> {
    let mut tape = Tape::new(Vec::new(rt.alloc()));
    let ended = run_rc(rt.alloc(), &mut tape, &[], &[], Some(b"c".as_slice()));
    if ended == Err(RunError::NoMemory) {
        return Err(refused_after(&rt, &tape, 0));
    }
    assert_eq!(rt; ended, Err(RunError::Halted));
    assert_eq!(rt; tape.calls().len(), 1);
    Ok(())
}
