//! `cd`.

use crate::support::{failure, list, state_with};
use rc_builtin::change_dir;
use rc_world::{Answer, Fault, Tape};
use std::test::Fail;

#[test]
fn out_of_memory_in_cd_is_reported(rt: HostRuntime) -> Result<(), Fail> {
    let alloc = rt.alloc();
    let mut state = state_with(alloc, "cdpath", &["/x", "/y"])?;
    let refused = Answer::Refused(Fault::NotFound);
    let mut tape = Tape::new(vec![in alloc; refused, Answer::Done]?);
    let words = list(alloc, &["d"])?;
    change_dir(alloc, &mut tape, &mut state, &words).map_err(failure)?;
    assert_eq!(rt; state.status(), "");
    assert_eq!(rt; tape.calls().len(), 2);
    Ok(())
}
