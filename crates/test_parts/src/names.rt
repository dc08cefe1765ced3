//! `whatis`.

use crate::support::{empty, failure, list, state_with};
use rc_builtin::whatis;
use rc_world::{Answer, Call, Kind, PLAIN_SLOTS, Tape};
use std::test::Fail;

#[test]
fn out_of_memory_in_whatis_is_reported(rt: HostRuntime) -> Result<(), Fail> {
    let alloc = rt.alloc();
    let mut state = state_with(alloc, "path", &["/bin"])?;
    state.define("f", empty())?;
    let mut tape = Tape::new(vec![in alloc; Answer::Found(Kind::Program), Answer::Done]?);
    let names = list(alloc, &["path", "f", "cd", "ls"])?;
    whatis(alloc, &mut tape, &mut state, PLAIN_SLOTS, &names).map_err(failure)?;
    let [Call::Probe(..), Call::Write(.., text)] = tape.calls() else {
        panic!(rt; "other calls");
    };
    let lines = b"path=/bin\nfn f {}\nbuiltin cd\n/bin/ls\n";
    assert_eq!(rt; text.as_slice(), lines.as_slice());
    Ok(())
}
