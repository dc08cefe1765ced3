//! Running a script from its text.

ghost use Rattle.std.specs.Prelude.{◌≡◌};
ghost use Rattle.rc_scope.specs.States.{state_of};
ghost use Rattle.rc_shell.specs.Executed.{IsExecuted, text_from};
ghost use Rattle.rc_shell.specs.Outcome.{shell_fault};

use crate::run::{Ran, ShellFault, run_code};
use rc_builtin::compile_script;
use rc_model::{InputError, SyntaxFault};
use rc_scope::State;
use rc_world::World;
use std::alloc::Global;

/// Runs a script from a state, with at most `limit` instructions.
pub fn execute<W: World>(
    alloc: Global,
    world: &mut W,
    script: &[u8],
    state: State,
    limit: u64,
) -> Result<Ran, ShellFault>
    // A script that isn't accepted is refused with its first fault, before any call. One that is makes the calls of its
    // meaning; nothing is lost over fresh answers, and what each subshell was handed reads back.
    ensures { IsExecuted (text_from script.now (state_of state)) limit
        (W.events world.old) (W.events world.new) result }
{
    match compile_script(alloc, script) {
        Ok(code) => run_code(alloc, world, code, state, limit),
        Err(error) => Err(shell_fault(error)),
    }
}

/// The fault of the shell for a script that has no code.
fn shell_fault(error: InputError<SyntaxFault>) -> ShellFault
    ensures { result ≡ shell_fault error }
{
    match error {
        InputError::Fault(fault) => ShellFault::Syntax(fault),
        InputError::NoMemory => ShellFault::NoMemory,
    }
}
