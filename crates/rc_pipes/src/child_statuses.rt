//! Waiting for children, and their statuses.

ghost use Rattle.std.specs.Prelude.{◌≡◌, ◌++◌, ◌∷◌, [], None, IfOk, OnErr, map, string_bytes};
ghost use Rattle.rc_model.specs.Run.Acts.{waited, wait_each};
ghost use Rattle.rc_model.specs.Run.Acts.{stages_status, end_stages, settled, NotLaunched, Refused};
ghost use Rattle.rc_model.specs.Run.State as model;
ghost use Rattle.rc_world.specs.Comes.{Reads, Does};
ghost use Rattle.rc_scope.specs.Children.{child_numbers};
ghost use Rattle.rc_scope.specs.States.{state_of};

use crate::programs::ending_status;
use rc_scope::State;
use rc_world::{ChildNo, Stop, World, calls};
use std::alloc::{AllocError, Global};

/// Waits for a child, and returns the status for how it ended.
pub(crate) fn wait_child<W: World>(
    alloc: Global,
    world: &mut W,
    child: ChildNo,
) -> Result<String, Stop>
    ensures { (s : model.State) → Reads W.events world.old world.new s (waited child.0) string_bytes result }
{
    let ending = calls::wait(world, child)?;
    let status = ending_status(alloc, ending)?;
    Ok(status)
}

/// Waits for the children in their order, and returns their statuses.
pub fn wait_stages<W: World>(
    alloc: Global,
    world: &mut W,
    children: &[ChildNo],
) -> Result<Vec<String>, Stop>
    ensures { (s : model.State) → let numbers = child_numbers children.now in
        Reads W.events world.old world.new s
        (wait_each numbers) (λ statuses. map string_bytes statuses.items) result }
{
    let mut statuses = Vec::with_capacity(alloc, children.len())?;
    for child in children {
        let status = wait_child(alloc, world, *child)?;
        statuses.push(status)?;
    }
    Ok(statuses)
}

/// The statuses of stages and of a last one, joined by bars.
fn stages_status(alloc: Global, statuses: &[String], last: &str) -> Result<String, AllocError>
    ensures { let all = map string_bytes statuses.now ++ last.now ∷ [] in
        IfOk result (λ text. string_bytes text ≡ stages_status all) }
{
    let mut text = String::new(alloc);
    for status in statuses {
        text.push_str(status)?;
        text.push_str("|")?;
    }
    text.push_str(last)?;
    Ok(text)
}

/// Ends a pipeline whose last read end is closed: waits for the children, and makes the status of the last stage that
/// of all.
pub fn end_stages<W: World>(
    alloc: Global,
    world: &mut W,
    state: &mut State,
    children: &[ChildNo],
) -> Result<(), Stop>
    ensures does { let numbers = child_numbers children.now in
        Does W.events world.old world.new state_of state.old state.new
        (end_stages None numbers) (λ x. x) result }
    ensures err { OnErr result (state_of state.new ≡ state_of state.old) }
{
    let statuses = wait_stages(alloc, world, children)?;
    let status = stages_status(alloc, &statuses, state.status())?;
    state.set_status(&status)?;
    Ok(())
}

/// Ends a pipeline of which a stage was refused: waits for the children, and sets the status to theirs and why.
pub fn end_refused<W: World>(
    alloc: Global,
    world: &mut W,
    state: &mut State,
    children: &[ChildNo],
    why: &str,
) -> Result<(), Stop>
    ensures does { let numbers = child_numbers children.now in
        Does W.events world.old world.new state_of state.old state.new
        (settled (NotLaunched numbers why.now)) (λ x. Refused) result }
    ensures err { OnErr result (state_of state.new ≡ state_of state.old) }
{
    let statuses = wait_stages(alloc, world, children)?;
    let status = stages_status(alloc, &statuses, why)?;
    state.set_status(&status)?;
    Ok(())
}
