//! Backquotes: the output of a command.

ghost use Rattle.std.specs.Prelude.{◌≡◌, IfOk, OnErr, map, string_bytes};
ghost use Rattle.std.specs.List.{concat};
ghost use Rattle.rc_model.specs.Run.Acts.{backquote, back_child, output_members};
ghost use Rattle.rc_tree.specs.View.{cmd_tree};
ghost use Rattle.rc_world.specs.Comes.{Does};
ghost use Rattle.rc_pipes.specs.Starts.{started_of};
ghost use Rattle.rc_scope.specs.States.{state_of};
ghost use Rattle.rc_text.specs.Texts.{text_bytes};

use crate::child_statuses::wait_child;
use crate::launches::start_shell;
use crate::output_reading::read_all;
use crate::programs::Started;
use rc_image::keep_entries;
use rc_model::limits::LONGEST_OUTPUT;
use rc_scope::State;
use rc_text::{Output, Text, into_lossy};
use rc_tree::Cmd;
use rc_world::{Handle, Slot, Slots, Stop, World, calls};
use std::alloc::{AllocError, Global};

/// Joins the texts.
fn concat(alloc: Global, texts: &[Text]) -> Result<String, AllocError>
    ensures { IfOk result (λ all. string_bytes all ≡ concat (map text_bytes texts.now)) }
{
    let mut all = String::new(alloc);
    for text in texts {
        all.push_str(text.as_str())?;
    }
    Ok(all)
}

/// The output that was read, separated by the characters of `$ifs`.
fn output_of(alloc: Global, state: &State, bytes: Vec<u8>) -> Result<Output, AllocError>
    ensures { IfOk result (λ output. output ≡ output_members (state_of state.now) bytes.items) }
{
    let separators = concat(alloc, state.value("ifs"))?;
    let text = into_lossy(alloc, bytes)?;
    Ok(Output::new(text, separators))
}

/// The output and the status of a backquote, once its shell is started.
#[tactic(auto, unfolding(rc_model::specs::Run::Acts::longest_output))]
fn back_child<W: World>(
    alloc: Global,
    world: &mut W,
    state: &mut State,
    read_end: Handle,
    write_end: Handle,
    started: Started,
) -> Result<Output, Stop>
    ensures does { let act = back_child read_end.0 write_end.0 (started_of started) in
        Does W.events world.old world.new state_of state.old state.new act
        (λ output. output) result }
    ensures err { OnErr result (state_of state.new ≡ state_of state.old) }
{
    calls::close(world, write_end)?;
    let child = match started {
        Started::Child(child) => child,
        Started::NoChild(why) => {
            calls::close(world, read_end)?;
            state.set_status(why)?;
            return Ok(Output::empty(alloc));
        }
    };
    let read = read_all(alloc, world, read_end, LONGEST_OUTPUT)?;
    calls::close(world, read_end)?;
    let status = wait_child(alloc, world, child)?;
    let output = output_of(alloc, state, read.bytes)?;
    state.set_status(read.why.unwrap_or(&status))?;
    Ok(output)
}

/// The output of a command. Its members become words. The status is how the command ended, or why it could not be run
/// or read to the end.
pub fn backquote<W: World>(
    alloc: Global,
    world: &mut W,
    state: &mut State,
    slots: Slots,
    body: &Cmd,
) -> Result<Output, Stop>
    ensures does { Does W.events world.old world.new state_of state.old state.new
        (backquote slots (cmd_tree body.now)) (λ output. output) result }
    ensures err { OnErr result (state_of state.new ≡ state_of state.old) }
{
    let Some((read_end, write_end)) = calls::pipe(world)? else {
        state.set_status("cannot pipe")?;
        return Ok(Output::empty(alloc));
    };
    let inner = Slots {
        output: Slot::To(write_end),
        ..slots
    };
    keep_entries(alloc, state)?;
    let started = start_shell(alloc, world, state, inner, body)?;
    back_child(alloc, world, state, read_end, write_end, started)
}
