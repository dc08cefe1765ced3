//! `wait`.

ghost use Rattle.std.specs.Prelude.{◌≡◌, OnErr, map};
ghost use Rattle.rc_model.specs.Run.Builtins.{Finished, wait_for};
ghost use Rattle.rc_scope.specs.States.{state_of};
ghost use Rattle.rc_world.specs.Comes.{Does};
ghost use Rattle.rc_text.specs.Texts.{text_bytes};

use rc_pipes::{misuse, wait_for};
use rc_scope::State;
use rc_text::Text;
use rc_world::{Stop, World};
use std::alloc::Global;

/// `wait`: waits for all children in the background, or for the one with this number.
pub(crate) fn wait<W: World>(
    alloc: Global,
    world: &mut W,
    state: &mut State,
    args: &[Text],
) -> Result<(), Stop>
    ensures does { Does W.events world.old world.new state_of state.old state.new
        (wait_for (map text_bytes args.now)) (λ x. Finished) result }
    ensures err { OnErr result (state_of state.new ≡ state_of state.old) }
{
    match args {
        [] => wait_for(alloc, world, state, None),
        [number] => wait_for(alloc, world, state, Some(number.as_str())),
        _ => {
            misuse(state)?;
            Ok(())
        }
    }
}
