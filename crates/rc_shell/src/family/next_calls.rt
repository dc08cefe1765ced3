//! The next call of a process over its answers, and its beginning.

ghost use Rattle.std.specs.Prelude.{◌≡◌, ◌∷◌, [], IfErr, IfOk, map};
ghost use Rattle.std.specs.List.{before_first};
ghost use Rattle.rc_model.specs.Handed.Proper.{IsProperTree};
ghost use Rattle.rc_model.specs.Run.Calls.{is_halt};
ghost use Rattle.rc_scope.specs.States.{state_of};
ghost use Rattle.rc_tree.specs.View.{cmd_tree};
ghost use Rattle.rc_world.specs.Views.{answer_of};
ghost use Rattle.rc_shell.specs.Made.{BeginsNot, first_process};
ghost use Rattle.rc_shell.specs.ReplayEnds.{ComesNot, ComesTo};
ghost use Rattle.rc_shell.specs.Standings.{StandsFor};

use crate::family::family_fault::FamilyFault;
use crate::family::process_steps::Process;
use crate::family::replaying::{ReplayEnd, replay};
use rc_scope::State;
use rc_tree::Cmd;
use rc_world::{Answer, Call};
use std::alloc::{AllocError, Global};

/// The call that a process reaches over these answers, or none if it ends.
pub(crate) fn next_call(
    alloc: Global,
    cmd: &Cmd,
    state: &State,
    answers: Vec<Answer>,
    limit: u64,
) -> Result<Option<Call>, FamilyFault>
    requires { IsProperTree (cmd_tree cmd.now) }
    ensures ok { let given = before_first is_halt (map answer_of answers.items) in
        IfOk result (λ pending. ComesTo limit (cmd_tree cmd.now) (state_of state.now) given pending) }
    ensures err { let given = before_first is_halt (map answer_of answers.items) in
        IfErr result (λ fault. ComesNot limit (cmd_tree cmd.now) (state_of state.now) given fault) }
{
    match replay(alloc, cmd, state.clone()?, answers, limit)? {
        ReplayEnd::Waiting(call) => Ok(Some(call)),
        ReplayEnd::Ended => Ok(None),
        ReplayEnd::Limit => Err(FamilyFault::Limit),
    }
}

/// A process before its first answer.
pub(crate) fn begin(
    alloc: Global,
    cmd: Cmd,
    state: State,
    limit: u64,
) -> Result<Process, FamilyFault>
    requires { IsProperTree (cmd_tree cmd) }
    ensures ok { IfOk result (λ p. StandsFor limit p (first_process (cmd_tree cmd) (state_of state))) }
    ensures err { IfErr result (λ fault. BeginsNot limit (cmd_tree cmd) (state_of state) fault) }
{
    let pending = next_call(alloc, &cmd, &state, Vec::new(alloc), limit)?;
    Ok(Process {
        cmd,
        state,
        pending,
    })
}

/// A list with one process.
pub(crate) fn alone(alloc: Global, process: Process) -> Result<Vec<Process>, AllocError>
    ensures { IfOk result (λ alone. alone.items ≡ process ∷ []) }
{
    let mut alone = Vec::new(alloc);
    alone.push(process)?;
    Ok(alone)
}
