//! `shift`.

ghost use Rattle.std.specs.Prelude.{◌≡◌, OnOk, OnErr, map};
ghost use Rattle.rc_model.specs.Run.Builtins.{Finished, shift, shifted};
ghost use Rattle.rc_model.specs.Run.Plans.{done_with};
ghost use Rattle.rc_model.specs.Run.Shell.{Next};
ghost use Rattle.rc_scope.specs.States.{state_of};
ghost use Rattle.rc_text.specs.Texts.{text_bytes};

use rc_pipes::misuse;
use rc_scope::State;
use rc_text::{Text, number_of};
use std::alloc::AllocError;

/// Drops this many members of `$*`, or none if there is no count.
fn shift_by(state: &mut State, count: Option<u32>) -> Result<(), AllocError>
    ensures ok { OnOk result (shifted count (state_of state.old) ≡ done_with (Next Finished (state_of state.new))) }
    ensures err { OnErr result (state_of state.new ≡ state_of state.old) }
{
    let Some(count) = count else {
        return misuse(state);
    };
    state.shift(count as usize)?;
    state.clear_status();
    Ok(())
}

/// Drops the first members of `$*`: one, or as many as the word says. The status is null. With several words, or one
/// that isn't a number, it is `usage`, and nothing is dropped.
pub fn shift(state: &mut State, words: &[Text]) -> Result<(), AllocError>
    ensures ok { OnOk result (shift (map text_bytes words.now) (state_of state.old)
        ≡ done_with (Next Finished (state_of state.new))) }
    ensures err { OnErr result (state_of state.new ≡ state_of state.old) }
{
    let count = match words {
        [] => Some(1),
        [count] => number_of(count.as_str()),
        _ => None,
    };
    shift_by(state, count)
}
