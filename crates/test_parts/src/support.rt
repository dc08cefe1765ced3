//! Functions that the tests share.

ghost use Rattle.rc_model.specs.Handed.Proper.{IsProperTree};
ghost use Rattle.rc_tree.specs.View.{cmd_tree};

use rc_scope::State;
use rc_text::Text;
use rc_tree::Cmd;
use rc_world::Stop;
use std::alloc::{AllocError, Global};
use std::test::Fail;

pub fn list(alloc: Global, members: &[&str]) -> Result<Vec<Text>, AllocError> {
    let mut list = Vec::new(alloc);
    for member in members {
        list.push(Text::of(alloc, *member)?)?;
    }
    Ok(list)
}

/// A state with one variable.
pub fn state_with(alloc: Global, name: &str, members: &[&str]) -> Result<State, Fail> {
    let mut state = State::new(alloc);
    state.set(name, list(alloc, members)?)?;
    Ok(state)
}

/// The empty command, which is well formed.
#[tactic(auto, unfolding(rc_tree::specs::View::cmd_tree))]
pub fn empty() -> Cmd
    ensures { IsProperTree (cmd_tree result) }
{
    Cmd::Empty
}

/// The stop of a command, as the failure of its test.
pub fn failure(stop: Stop) -> Fail {
    match stop {
        Stop::NoMemory => Fail::from(AllocError),
        Stop::Halt => Fail::new("a call was not answered"),
    }
}
