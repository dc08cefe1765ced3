//! Simple commands.

ghost use Rattle.rc_model.specs.Code.Layout as op;
ghost use Rattle.rc_machine.specs.Instructions.{Executes};

use crate::configuration::lookups::take_texts;
use crate::configuration::{Configuration, Move};
use crate::control::function_calls::{call, enter};
use rc_builtin::{Outcome, run_words};
use rc_text::is_true;
use rc_world::{Stop, World};
use std::alloc::Global;

/// Runs a simple command.
#[inline(never)]
pub(crate) fn run_command<W: World>(
    machine: &mut Configuration,
    alloc: Global,
    world: &mut W,
) -> Result<Move, Stop>
    ensures { Executes (W.events world.old) (W.events world.new) op.Run machine.old machine.new result }
{
    if machine.words.top().is_none() {
        return Ok(Move::Ended);
    }
    let texts = take_texts(alloc, &mut machine.words)?;
    match run_words(
        alloc,
        world,
        &mut machine.state,
        machine.redirs.slots(),
        texts,
    )? {
        Outcome::Finished => Ok(Move::On),
        Outcome::Body(body) => {
            enter(machine, body, false)?;
            Ok(Move::On)
        }
        Outcome::Call { args, body } => {
            call(machine, args, body)?;
            Ok(Move::On)
        }
        Outcome::Exit => machine.unwind(alloc, world),
    }
}

/// Ends a strict shell if the status is not true.
pub(crate) fn check<W: World>(
    machine: &mut Configuration,
    alloc: Global,
    world: &mut W,
) -> Result<Move, Stop>
    ensures { Executes (W.events world.old) (W.events world.new) op.Check machine.old machine.new result }
{
    if machine.state.strict() && !is_true(machine.state.status()) {
        return machine.unwind(alloc, world);
    }
    Ok(Move::On)
}
