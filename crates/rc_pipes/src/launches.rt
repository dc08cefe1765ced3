//! Launches of shells, and subshells.

ghost use Rattle.std.specs.Prelude.{◌≡◌, IfOk, OnErr, option_map};
ghost use Rattle.rc_model.specs.Handed.Image.{shell_launch};
ghost use Rattle.rc_model.specs.Run.Acts.{start_shell, subshell, wait_subshell};
ghost use Rattle.rc_tree.specs.View.{cmd_tree};
ghost use Rattle.rc_world.specs.Comes.{Reads, Does};
ghost use Rattle.rc_world.specs.Views.{launch_of};
ghost use Rattle.rc_pipes.specs.Starts.{started_of};
ghost use Rattle.rc_scope.specs.States.{state_of};
ghost use Rattle.rc_pipes.specs.Launches.{if_fit};

use crate::child_statuses::wait_child;
use crate::programs::{Started, start_child};
use rc_image::{Handover, InputError, handed, keep_entries};
use rc_scope::State;
use rc_tree::Cmd;
use rc_world::{Launch, Program, Slots, Stop, World};
use std::alloc::{AllocError, Global};

/// The launch of a subshell with a command, or `None` if it would be too large.
fn shell_launch(
    alloc: Global,
    state: &State,
    slots: Slots,
    body: &Cmd,
) -> Result<Option<Launch>, AllocError>
    ensures { IfOk result (λ launch. option_map launch_of launch
        ≡ if_fit (shell_launch slots (cmd_tree body.now) (state_of state.now))) }
{
    match handed(alloc, body, state) {
        Ok(Handover { args, entries }) => Ok(Some(Launch {
            program: Program::Shell,
            args,
            env: entries,
            slots,
        })),
        Err(InputError::Fault(_)) => Ok(None),
        Err(InputError::NoMemory) => Err(AllocError),
    }
}

/// Starts a subshell with a command.
#[tactic(auto, using(crate::proofs::Acts::acting))]
pub(crate) fn start_shell<W: World>(
    alloc: Global,
    world: &mut W,
    state: &State,
    slots: Slots,
    body: &Cmd,
) -> Result<Started, Stop>
    ensures { Reads W.events world.old world.new (state_of state.now)
        (start_shell slots (cmd_tree body.now)) started_of result }
{
    let Some(launch) = shell_launch(alloc, state, slots, body)? else {
        return Ok(Started::NoChild("too large"));
    };
    start_child(world, &launch)
}

/// Waits for a subshell that was started.
#[tactic(auto, using(crate::proofs::Acts::acting))]
fn wait_subshell<W: World>(
    alloc: Global,
    world: &mut W,
    state: &mut State,
    started: Started,
) -> Result<(), Stop>
    ensures does { Does W.events world.old world.new state_of state.old state.new
        (wait_subshell (started_of started)) (λ x. x) result }
    ensures err { OnErr result (state_of state.new ≡ state_of state.old) }
{
    let child = match started {
        Started::Child(child) => child,
        Started::NoChild(why) => {
            state.set_status(why)?;
            return Ok(());
        }
    };
    let status = wait_child(alloc, world, child)?;
    state.set_status(&status)?;
    Ok(())
}

/// Runs a command in a subshell.
#[tactic(auto, using(crate::proofs::Acts::acting))]
pub fn subshell<W: World>(
    alloc: Global,
    world: &mut W,
    state: &mut State,
    slots: Slots,
    body: &Cmd,
) -> Result<(), Stop>
    ensures does { Does W.events world.old world.new state_of state.old state.new
        (subshell slots (cmd_tree body.now)) (λ x. x) result }
    ensures err { OnErr result (state_of state.new ≡ state_of state.old) }
{
    keep_entries(alloc, state)?;
    let started = start_shell(alloc, world, state, slots, body)?;
    wait_subshell(alloc, world, state, started)
}
