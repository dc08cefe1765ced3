//! The status of `exit`.

ghost use Rattle.std.specs.Prelude.{◌≡◌, OnOk, OnErr, map};
ghost use Rattle.rc_model.specs.Run.Builtins.{exit_status};
ghost use Rattle.rc_model.specs.Run.Plans.{done_with};
ghost use Rattle.rc_model.specs.Run.Shell.{Next};
ghost use Rattle.rc_scope.specs.States.{state_of};
ghost use Rattle.rc_text.specs.Texts.{text_bytes};

use rc_scope::State;
use rc_text::{Text, flat};
use std::alloc::{AllocError, Global};

/// Sets the status that `exit` ends the shell with: the words joined by spaces; without words it stays.
pub fn exit_status(alloc: Global, state: &mut State, words: &[Text]) -> Result<(), AllocError>
    ensures ok { OnOk result (exit_status (map text_bytes words.now) (state_of state.old)
        ≡ done_with (Next tt (state_of state.new))) }
    ensures err { OnErr result (state_of state.new ≡ state_of state.old) }
{
    if words.is_empty() {
        return Ok(());
    }
    let status = flat(alloc, words)?;
    state.set_status(&status)
}
