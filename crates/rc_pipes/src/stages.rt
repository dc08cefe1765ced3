//! The stages of a pipeline but the last: each is started with a pipe to the next.

ghost use Rattle.std.specs.Prelude.{◌≡◌, option_map};
ghost use Rattle.rc_model.specs.Run.Acts.{close_end, from_pipe, launch_stages};
ghost use Rattle.rc_model.specs.Run.Calls.{with_slot, to_file};
ghost use Rattle.rc_model.specs.Run.State as model;
ghost use Rattle.rc_tree.specs.View.{stage_tree, stages_tree};
ghost use Rattle.rc_world.specs.Comes.{Reads};
ghost use Rattle.rc_scope.specs.States.{state_of};
ghost use Rattle.rc_pipes.specs.Stages.{StartsStage, launched_of};

use crate::launches::start_shell;
use crate::programs::Started;
use rc_image::keep_entries;
use rc_scope::State;
use rc_tree::Stage;
use rc_world::{ChildNo, Handle, Slot, Slots, Stop, World, calls};
use std::alloc::Global;

/// The result of the start of a stage.
#[derive(Clone, Copy)]
pub(crate) enum StageStart {
    /// It runs as this child, and the next reads from this end.
    Running { read_end: Handle, child: ChildNo },
    /// It was not started, for this reason. Nothing is held.
    Refused(&'static str),
}

/// What became of the stages but the last. None of the children was waited for.
#[derive(Drop)]
pub enum LaunchedStages {
    /// They run, and the last stage reads from this end.
    Running {
        read_end: Option<Handle>,
        children: Vec<ChildNo>,
    },
    /// One could not be started, for this reason, and those before it run. Nothing is held.
    Refused {
        children: Vec<ChildNo>,
        why: &'static str,
    },
}

/// The descriptors of a stage: it reads from the pipe before it, and one of them goes into the next.
fn stage_slots(slots: Slots, before: Option<Handle>, number: u8, write_end: Handle) -> Slots
    ensures { let outer = from_pipe (option_map (λ end. end.0) before) slots in
        result ≡ with_slot outer number (to_file write_end.0) }
{
    let mut slots = slots;
    if let Some(read_end) = before {
        slots.input = Slot::To(read_end);
    }
    match number {
        0 => slots.input = Slot::To(write_end),
        1 => slots.output = Slot::To(write_end),
        _ => slots.errors = Slot::To(write_end),
    }
    slots
}

/// Closes an end of a pipe, if there is one.
fn close_end<W: World>(world: &mut W, end: Option<Handle>) -> Result<(), Stop>
    ensures { (s : model.State) → let held = option_map (λ end. end.0) end in
        Reads W.events world.old world.new s (close_end held) (λ x. x) result }
{
    let Some(end) = end else {
        return Ok(());
    };
    calls::close(world, end)?;
    Ok(())
}

/// Starts a stage. It reads from the pipe before it and writes into one to the next; its other descriptors are those of
/// the pipeline.
fn start_stage<W: World>(
    alloc: Global,
    world: &mut W,
    state: &State,
    slots: Slots,
    before: Option<Handle>,
    next: &Stage,
) -> Result<StageStart, Stop>
    ensures { StartsStage (W.events world.old) (W.events world.new) slots (stage_tree next.now)
        (option_map (λ end. end.0) before) (state_of state.now) result }
{
    let Some((read_end, write_end)) = calls::pipe(world)? else {
        close_end(world, before)?;
        return Ok(StageStart::Refused("cannot pipe"));
    };
    let inner = stage_slots(slots, before, next.slot, write_end);
    let started = start_shell(alloc, world, state, inner, &next.cmd)?;
    calls::close(world, write_end)?;
    match started {
        Started::Child(child) => {
            close_end(world, before)?;
            Ok(StageStart::Running { read_end, child })
        }
        Started::NoChild(why) => {
            calls::close(world, read_end)?;
            close_end(world, before)?;
            Ok(StageStart::Refused(why))
        }
    }
}

/// Starts the stages, each with a pipe to the next, until one is refused.
fn launch_each<W: World>(
    alloc: Global,
    world: &mut W,
    state: &State,
    slots: Slots,
    stages: &[Stage],
) -> Result<LaunchedStages, Stop>
    ensures { Reads W.events world.old world.new (state_of state.now)
        (launch_stages slots (stages_tree stages.now)) launched_of result }
{
    let mut children = Vec::with_capacity(alloc, stages.len())?;
    let mut read = None;
    for stage in stages {
        match start_stage(alloc, world, state, slots, read, stage)? {
            StageStart::Running { read_end, child } => {
                read = Some(read_end);
                children.push(child)?;
            }
            StageStart::Refused(why) => {
                return Ok(LaunchedStages::Refused { children, why });
            }
        }
    }
    Ok(LaunchedStages::Running {
        read_end: read,
        children,
    })
}

/// Starts the stages but the last, each with a pipe to the next, until one is refused.
pub fn start_stages<W: World>(
    alloc: Global,
    world: &mut W,
    state: &mut State,
    slots: Slots,
    stages: &[Stage],
) -> Result<LaunchedStages, Stop>
    ensures launched { Reads W.events world.old world.new (state_of state.old)
        (launch_stages slots (stages_tree stages.now)) launched_of result }
    ensures same { state_of state.new ≡ state_of state.old }
{
    keep_entries(alloc, state)?;
    launch_each(alloc, world, state, slots, stages)
}
