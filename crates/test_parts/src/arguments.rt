//! `shift`.

use crate::support::{list, state_with};
use rc_builtin::shift;
use std::test::Fail;

#[test]
fn out_of_memory_takes_nothing(rt: HostRuntime) -> Result<(), Fail> {
    let alloc = rt.alloc();
    let mut state = state_with(alloc, "*", &["a", "b"])?;
    let words = list(alloc, &["x"])?;
    let ended = shift(&mut state, &words);
    let wanted = if ended.is_ok() { "usage" } else { "" };
    assert_eq!(rt; state.status(), wanted);
    assert_eq!(rt; state.value("*").len(), 2);
    ended?;
    Ok(())
}
