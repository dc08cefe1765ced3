//! Runs a process again from its beginning, over the answers that it was given.

ghost use Rattle.std.specs.Prelude.{◌≡◌, ◌<◌, IfOk, length, map};
ghost use Rattle.std.specs.List.{before_first};
ghost use Rattle.rc_model.specs.Handed.Proper.{IsProperTree};
ghost use Rattle.rc_model.specs.Run.Calls.{is_halt};
ghost use Rattle.rc_machine.specs.declared.machine.Progress.TheVariants.{Halted};
ghost use Rattle.rc_scope.specs.States.{state_of};
ghost use Rattle.rc_tree.specs.View.{cmd_tree};
ghost use Rattle.rc_world.specs.Views.{answer_of, call_of};
ghost use Rattle.rc_shell.specs.ReplayEnds.{IsLast, IsReached, IsSaid};

use crate::family::replay_world::Replay;
use rc_code::compile;
use rc_machine::{Machine, Progress};
use rc_scope::State;
use rc_tree::Cmd;
use rc_world::{Answer, Call};
use std::alloc::{AllocError, Global};

/// How far the code of a process runs.
#[derive(Drop)]
pub(crate) enum ReplayEnd {
    /// Up to a call that wants an answer.
    Waiting(Call),
    Ended,
    /// Up to the limit.
    Limit,
}

/// The last of some calls.
fn last_call(calls: &[Call]) -> Result<Call, AllocError>
    requires { 0 < length calls.now }
    ensures { IfOk result (λ call. IsLast (call_of call) (map call_of calls.now)) }
{
    calls[calls.len() - 1].clone()
}

/// How far a run with these calls came.
fn reached_by(progress: Progress, calls: &[Call]) -> Result<ReplayEnd, AllocError>
    requires { progress ≡ Halted → 0 < length calls.now }
    ensures { IfOk result (λ reached. IsSaid progress (map call_of calls.now) reached) }
{
    match progress {
        Progress::Ended => Ok(ReplayEnd::Ended),
        Progress::Limit => Ok(ReplayEnd::Limit),
        Progress::Halted => Ok(ReplayEnd::Waiting(last_call(calls)?)),
    }
}

/// Runs the code of a command from a state over these answers, up to the first halt among them.
pub(crate) fn replay(
    alloc: Global,
    cmd: &Cmd,
    state: State,
    answers: Vec<Answer>,
    limit: u64,
) -> Result<ReplayEnd, AllocError>
    requires { IsProperTree (cmd_tree cmd.now) }
    ensures { let given = before_first is_halt (map answer_of answers.items) in
        IfOk result (λ reached. IsReached limit (cmd_tree cmd.now) (state_of state) given reached) }
{
    let code = compile(alloc, cmd)?;
    let mut machine = Machine::new(alloc, code, state);
    let mut world = Replay::new(answers);
    let progress = machine.run(alloc, &mut world, limit)?;
    reached_by(progress, world.calls())
}
