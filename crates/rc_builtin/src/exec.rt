//! `exec`.

ghost use Rattle.std.specs.Prelude.{◌≡◌, OnErr, map};
ghost use Rattle.rc_model.specs.Run.Builtins.{exec};
ghost use Rattle.rc_builtin.specs.Outcomes.{RunsWords};
ghost use Rattle.rc_scope.specs.States.{state_of};
ghost use Rattle.rc_text.specs.Texts.{text_bytes};

use crate::command_words::{Outcome, name_and_args};
use rc_pipes::{misuse, run_program};
use rc_scope::State;
use rc_text::Text;
use rc_world::{Slots, Stop, World};
use std::alloc::Global;

/// `exec`: ends the shell with the status of a program.
#[tactic(auto, using(crate::proofs::Left::words_refused))]
pub(crate) fn exec<W: World>(
    alloc: Global,
    world: &mut W,
    state: &mut State,
    slots: Slots,
    words: Vec<Text>,
) -> Result<Outcome, Stop>
    ensures runs { RunsWords (W.events world.old) (W.events world.new)
        (exec slots (map text_bytes words.items) (state_of state.old)) (state_of state.new) result }
    ensures err { OnErr result (state_of state.new ≡ state_of state.old) }
{
    let Some((name, args)) = name_and_args(words) else {
        misuse(state)?;
        return Ok(Outcome::Finished);
    };
    run_program(alloc, world, state, slots, name.as_str(), args)?;
    Ok(Outcome::Exit)
}
