//! Commands in the background: starting them, and waiting for them.

ghost use Rattle.std.specs.Prelude.{◌≡◌, ◌==◌, [], ◌∷◌, Some, OnErr, OnOk, codes, string_bytes};
ghost use Rattle.std.specs.Fmt.{decimal};
ghost use Rattle.std.specs.List.{list_any};
ghost use Rattle.rc_model.specs.Run.Acts.{background, background_with, kept_child};
ghost use Rattle.rc_model.specs.Run.Builtins.{Finished, wait_child, wait_all, wait_one, wait_for};
ghost use Rattle.rc_model.specs.Run.State as model;
ghost use Rattle.rc_model.specs.Run.Plans.{done_with};
ghost use Rattle.rc_model.specs.Run.Shell.{Next};
ghost use Rattle.rc_tree.specs.View.{cmd_tree};
ghost use Rattle.rc_world.specs.Comes.{Comes, Does};
ghost use Rattle.rc_pipes.specs.Starts.{started_of};
ghost use Rattle.rc_scope.specs.Children.{child_numbers};
ghost use Rattle.rc_scope.specs.States.{state_of};
ghost use Rattle.rc_pipes.specs.Jobs.{arguments_of, with_jobs};

use crate::child_statuses::wait_child;
use crate::launches::start_shell;
use crate::programs::Started;
use crate::statuses::misuse;
use rc_image::keep_entries;
use rc_scope::State;
use rc_text::{Text, number_of};
use rc_tree::Cmd;
use rc_world::{ChildNo, Handle, Mode, Slot, Slots, Stop, World, calls};
use std::alloc::{AllocError, Global};

/// Adds a child to those in the background, and sets `$apid` to its number.
#[tactic(auto, using(crate::proofs::Kept::taken_back))]
fn add_job(alloc: Global, state: &mut State, child: ChildNo) -> Result<(), AllocError>
    ensures ok { OnOk result (state_of state.new
        ≡ model.set_value (model.add_child (state_of state.old) child.0) (codes "apid") (decimal child.0 ∷ [])) }
    ensures err { OnErr result (state_of state.new ≡ state_of state.old) }
{
    let number = Text::from_string(alloc, child.0.to_string(alloc)?)?;
    let number = vec![in alloc; number]?;
    state.add_child(child)?;
    match state.set("apid", number) {
        Ok(()) => Ok(()),
        Err(_) => {
            state.pop_child();
            Err(AllocError)
        }
    }
}

/// Adds a child that was started to those in the background, and sets `$apid` to its number; else sets the status to
/// why there is none.
fn keep_child(alloc: Global, state: &mut State, started: Started) -> Result<(), AllocError>
    ensures ok { OnOk result
        (kept_child (started_of started) (state_of state.old) ≡ done_with (Next tt (state_of state.new))) }
    ensures err { OnErr result (state_of state.new ≡ state_of state.old) }
{
    match started {
        Started::Child(child) => add_job(alloc, state, child),
        Started::NoChild(why) => state.set_status(why),
    }
}

/// Starts a command in the background that reads from this file, and closes the file.
#[tactic(auto, using(crate::proofs::Acts::acting))]
fn background_with<W: World>(
    alloc: Global,
    world: &mut W,
    state: &mut State,
    slots: Slots,
    file: Handle,
    body: &Cmd,
) -> Result<(), Stop>
    ensures does { Does W.events world.old world.new state_of state.old state.new
        (background_with slots (cmd_tree body.now) (Some file.0)) (λ x. x) result }
    ensures err { OnErr result (state_of state.new ≡ state_of state.old) }
{
    let inner = Slots {
        input: Slot::To(file),
        ..slots
    };
    keep_entries(alloc, state)?;
    let started = start_shell(alloc, world, state, inner, body)?;
    calls::close(world, file)?;
    keep_child(alloc, state, started)?;
    Ok(())
}

/// Starts a command in the background, without input. The status stays as it is if the child runs; else it is `cannot
/// open`, or why the shell was not started.
#[tactic(auto, using(crate::proofs::Acts::acting))]
pub fn background<W: World>(
    alloc: Global,
    world: &mut W,
    state: &mut State,
    slots: Slots,
    body: &Cmd,
) -> Result<(), Stop>
    ensures does { Does W.events world.old world.new state_of state.old state.new
        (background slots (cmd_tree body.now)) (λ x. x) result }
    ensures err { OnErr result (state_of state.new ≡ state_of state.old) }
{
    let Some(file) = calls::open(world, "/dev/null", Mode::Read)? else {
        state.set_status("cannot open")?;
        return Ok(());
    };
    background_with(alloc, world, state, slots, file, body)
}

/// Removes a child from those in the background and waits for it; the status is how it ended.
fn wait_job<W: World>(
    alloc: Global,
    world: &mut W,
    state: &mut State,
    child: ChildNo,
) -> Result<(), Stop>
    ensures does { Does W.events world.old world.new state_of state.old state.new (wait_child child.0) (λ x. x) result }
    ensures err { OnErr result (state_of state.new ≡ state_of state.old) }
{
    let status = wait_child(alloc, world, child)?;
    state.set_status(&status)?;
    state.drop_child(child);
    Ok(())
}

/// Waits for these children in their order, and returns how the last of them ended, or null if there is none.
fn wait_all<W: World>(alloc: Global, world: &mut W, children: &[ChildNo]) -> Result<String, Stop>
    ensures { (s : model.State) → let numbers = child_numbers children.now in
        Comes (W.events world.old) (W.events world.new) (wait_all numbers (with_jobs s [] numbers))
        (λ status. Next tt (with_jobs s (string_bytes status) [])) result }
{
    let mut status = String::new(alloc);
    for child in children {
        status = wait_child(alloc, world, *child)?;
    }
    Ok(status)
}

/// Whether this child is one of those in the background.
fn is_in_background(state: &State, child: ChildNo) -> bool
    ensures { result ≡ list_any (λ number. number == child.0) (state_of state.now).background }
{
    state.children().contains(&child)
}

/// Waits for this child, if it is one of those in the background.
fn wait_one<W: World>(
    alloc: Global,
    world: &mut W,
    state: &mut State,
    child: ChildNo,
) -> Result<(), Stop>
    ensures does { Does W.events world.old world.new state_of state.old state.new
        (wait_one child.0 (state_of state.old)) (λ x. x) result }
    ensures err { OnErr result (state_of state.new ≡ state_of state.old) }
{
    if is_in_background(state, child) {
        return wait_job(alloc, world, state, child);
    }
    state.set_status("no such child")?;
    Ok(())
}

/// Waits for all children in the background, in the order of their starts.
fn wait_every<W: World>(alloc: Global, world: &mut W, state: &mut State) -> Result<(), Stop>
    ensures does { Does W.events world.old world.new state_of state.old state.new (wait_for []) (λ x. Finished) result }
    ensures err { OnErr result (state_of state.new ≡ state_of state.old) }
{
    let status = wait_all(alloc, world, state.children())?;
    state.set_status(&status)?;
    state.clear_children();
    Ok(())
}

/// Waits for the child of this number in the background, or for all of them. The status is how that child ended, or the
/// last of all; null if there was none, `usage` if the text isn't a number, and `no such child` if no child in the
/// background has that number.
pub fn wait_for<W: World>(
    alloc: Global,
    world: &mut W,
    state: &mut State,
    number: Option<&str>,
) -> Result<(), Stop>
    ensures does { Does W.events world.old world.new state_of state.old state.new
        (wait_for (arguments_of number.entry)) (λ x. Finished) result }
    ensures err { OnErr result (state_of state.new ≡ state_of state.old) }
{
    let Some(text) = number else {
        return wait_every(alloc, world, state);
    };
    let Some(number) = number_of(text) else {
        misuse(state)?;
        return Ok(());
    };
    wait_one(alloc, world, state, ChildNo(number))
}
