//! Running code, or a tree, from a state.

ghost use Rattle.std.specs.Prelude.{◌≡◌};
ghost use Rattle.rc_code.specs.Views.{code_of};
ghost use Rattle.rc_machine.specs.Machines.{config_of};
ghost use Rattle.rc_model.specs.Code.Layout as layout;
ghost use Rattle.rc_model.specs.Handed.Proper.{IsProperTree};
ghost use Rattle.rc_model.specs.Run.Script.{Recorded};
ghost use Rattle.rc_model.specs.Syntax.Tree as tree;
ghost use Rattle.rc_scope.specs.States.{state_of};
ghost use Rattle.rc_shell.specs.Outcome.{IsOutcome, RunsAsMeant};
ghost use Rattle.rc_tree.specs.View.{cmd_tree};

use rc_code::{Code, compile};
use rc_machine::{Machine, Progress};
use rc_model::{ImageFault, SyntaxFault};
use rc_scope::State;
use rc_tree::Cmd;
use rc_world::World;
use std::alloc::{AllocError, Global};
use thiserror::Error;

/// How the run of a script ended.
#[derive(Drop)]
pub enum Ran {
    /// At its end, with the state there.
    Ended { state: State },
    /// The limit of instructions was reached.
    Limit,
    /// A call was not answered.
    Halted,
}

/// Why a script was not run to its end.
#[derive(Debug, Drop, Error)]
pub enum ShellFault {
    /// The script is not accepted. No call was made.
    #[error("not a script: {0}")]
    Syntax(SyntaxFault),
    /// What was handed over doesn't read back. No call was made.
    #[error("not an image: {0}")]
    Image(ImageFault),
    #[error("out of memory")]
    NoMemory,
}

/// Runs the code of a script.
pub(crate) fn run_code<W: World>(
    alloc: Global,
    world: &mut W,
    code: Code,
    state: State,
    limit: u64,
) -> Result<Ran, ShellFault>
    ensures { (t : tree.Node tree.cmd) → code_of code ≡ layout.code t →
        Recorded (W.events world.old) (W.events world.new)
        (λ trace. RunsAsMeant limit t (state_of state) trace result) }
{
    let mut machine = Machine::new(alloc, code, state);
    let progress = machine.run(alloc, world, limit);
    outcome(machine, progress)
}

/// Runs a command as a script by itself.
pub(crate) fn run_tree<W: World>(
    alloc: Global,
    world: &mut W,
    cmd: Cmd,
    state: State,
    limit: u64,
) -> Result<Ran, ShellFault>
    requires { IsProperTree (cmd_tree cmd) }
    ensures { Recorded (W.events world.old) (W.events world.new)
        (λ trace. RunsAsMeant limit (cmd_tree cmd) (state_of state) trace result) }
{
    let compiled = compile(alloc, &cmd);
    drop(cmd);
    let Ok(code) = compiled else {
        return Err(ShellFault::NoMemory);
    };
    run_code(alloc, world, code, state, limit)
}

/// The outcome of a script, by how far its machine came.
fn outcome(machine: Machine, progress: Result<Progress, AllocError>) -> Result<Ran, ShellFault>
    ensures { IsOutcome progress (config_of machine).state result }
{
    match progress {
        Ok(Progress::Ended) => Ok(Ran::Ended {
            state: machine.into_state(),
        }),
        Ok(Progress::Limit) => Ok(Ran::Limit),
        Ok(Progress::Halted) => Ok(Ran::Halted),
        Err(AllocError) => Err(ShellFault::NoMemory),
    }
}
