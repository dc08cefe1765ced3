//! The status of wrong usage.

ghost use Rattle.std.specs.Prelude.{◌≡◌, OnOk, OnErr, codes};
ghost use Rattle.rc_model.specs.Run.State.{with_status};
ghost use Rattle.rc_scope.specs.States.{state_of};

use rc_scope::State;
use std::alloc::AllocError;

/// Sets the status to `usage`, for wrong usage of a built-in command.
pub fn misuse(state: &mut State) -> Result<(), AllocError>
    ensures ok { OnOk result (state_of state.new ≡ with_status (state_of state.old) (codes "usage")) }
    ensures err { OnErr result (state_of state.new ≡ state_of state.old) }
{
    state.set_status("usage")
}
