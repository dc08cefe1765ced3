//! Instructions that start subshells and wait for them.

ghost use Rattle.std.specs.Prelude.{◌≡◌, OnOk, option_map};
ghost use Rattle.rc_model.specs.Code.Layout as op;
ghost use Rattle.rc_machine.specs.Configurations.{config_of};
ghost use Rattle.rc_machine.specs.Instructions.{Executes};
ghost use Rattle.rc_machine.specs.Pipelines.{last_begun};
ghost use Rattle.rc_scope.specs.Children.{child_numbers};

use crate::configuration::lookups::put_members;
use crate::configuration::parts::Scope;
use crate::configuration::{Configuration, Move};
use rc_pipes::{LaunchedStages, backquote, end_refused, end_stages, start_stages};
use rc_world::{ChildNo, Handle, Stop, World};
use std::alloc::{AllocError, Global};

/// A backquote: the output of its command becomes words.
#[inline(never)]
#[tactic(auto, using(crate::proofs::Left::step_refused))]
pub(crate) fn back<W: World>(
    machine: &mut Configuration,
    alloc: Global,
    world: &mut W,
    number: usize,
) -> Result<Move, Stop>
    ensures { Executes (W.events world.old) (W.events world.new) (op.Back number) machine.old machine.new result }
{
    let Some(body) = machine.code.tree(number) else {
        return Ok(Move::Ended);
    };
    let slots = machine.redirs.slots();
    let output = backquote(alloc, world, &mut machine.state, slots, body)?;
    put_members(alloc, &mut machine.words, &output)?;
    Ok(Move::On)
}

/// `@ cmd`.
#[inline(never)]
#[tactic(auto, using(crate::proofs::Left::step_refused))]
pub(crate) fn subshell<W: World>(
    machine: &mut Configuration,
    alloc: Global,
    world: &mut W,
    number: usize,
) -> Result<Move, Stop>
    ensures { Executes (W.events world.old) (W.events world.new) (op.Subshell number) machine.old machine.new result }
{
    let Some(body) = machine.code.tree(number) else {
        return Ok(Move::Ended);
    };
    let slots = machine.redirs.slots();
    rc_pipes::subshell(alloc, world, &mut machine.state, slots, body)?;
    Ok(Move::On)
}

/// `cmd &`.
#[inline(never)]
#[tactic(auto, using(crate::proofs::Left::step_refused))]
pub(crate) fn background<W: World>(
    machine: &mut Configuration,
    alloc: Global,
    world: &mut W,
    number: usize,
) -> Result<Move, Stop>
    ensures { Executes (W.events world.old) (W.events world.new) (op.Background number) machine.old machine.new result }
{
    let Some(body) = machine.code.tree(number) else {
        return Ok(Move::Ended);
    };
    let slots = machine.redirs.slots();
    rc_pipes::background(alloc, world, &mut machine.state, slots, body)?;
    Ok(Move::On)
}

/// Begins the last stage of a pipeline, which reads from this end.
fn begin_last(
    machine: &mut Configuration,
    read_end: Option<Handle>,
    children: Vec<ChildNo>,
) -> Result<(), AllocError>
    ensures { let read = option_map (λ end. end.0) read_end in
        OnOk result (config_of machine.new ≡ last_begun (config_of machine.old) read (child_numbers children.items)) }
{
    match read_end {
        Some(read_end) => machine.redirs.push_end(read_end)?,
        // There is no stage before it, and its input stays as it is.
        None => machine.redirs.push_copy(0, 0)?,
    }
    machine.scopes.push(Scope::Pipeline { children })?;
    Ok(())
}

/// Starts the stages of a pipeline but the last. If one is refused, the machine jumps to `end`.
#[inline(never)]
#[tactic(auto, using(crate::proofs::Left::step_refused))]
pub(crate) fn start_pipeline<W: World>(
    machine: &mut Configuration,
    alloc: Global,
    world: &mut W,
    number: usize,
    end: usize,
) -> Result<Move, Stop>
    ensures { Executes (W.events world.old) (W.events world.new) (op.Stages number end) machine.old machine.new result }
{
    let Some(stages) = machine.code.stages(number) else {
        return Ok(Move::Ended);
    };
    let slots = machine.redirs.slots();
    let launched = start_stages(alloc, world, &mut machine.state, slots, stages)?;
    match launched {
        LaunchedStages::Running { read_end, children } => {
            begin_last(machine, read_end, children)?;
            Ok(Move::On)
        }
        LaunchedStages::Refused { children, why } => {
            end_refused(alloc, world, &mut machine.state, &children, why)?;
            machine.counter = end;
            Ok(Move::On)
        }
    }
}

/// Ends a pipeline, whose last stage is done.
#[inline(never)]
#[tactic(auto, using(crate::proofs::Left::step_refused))]
pub(crate) fn end_pipeline<W: World>(
    machine: &mut Configuration,
    alloc: Global,
    world: &mut W,
) -> Result<Move, Stop>
    ensures { Executes (W.events world.old) (W.events world.new) op.EndPipe machine.old machine.new result }
{
    let Some(Scope::Pipeline { children }) = machine.scopes.pop() else {
        return Ok(Move::Ended);
    };
    machine.redirs.pop(world)?;
    end_stages(alloc, world, &mut machine.state, &children)?;
    Ok(Move::On)
}
