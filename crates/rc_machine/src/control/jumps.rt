//! Jumps, and instructions that set the status or the flag of `if not`.

ghost use Rattle.std.specs.Prelude.{IfOk};
ghost use Rattle.rc_model.specs.Code.Layout as op;
ghost use Rattle.rc_machine.specs.Instructions.{Moves};

use crate::configuration::{Configuration, Move};
use rc_text::is_true;
use std::alloc::AllocError;

/// Jumps to the place.
pub(crate) fn jump(machine: &mut Configuration, place: usize) -> Move
    ensures { Moves (op.Jump place) machine.old machine.new result }
{
    machine.counter = place;
    Move::On
}

/// Jumps to the place if the status is true.
pub(crate) fn if_true(machine: &mut Configuration, place: usize) -> Move
    ensures { Moves (op.IfTrue place) machine.old machine.new result }
{
    if is_true(machine.state.status()) {
        machine.counter = place;
    }
    Move::On
}

/// Jumps to the place if the status is not true.
pub(crate) fn if_false(machine: &mut Configuration, place: usize) -> Move
    ensures { Moves (op.IfFalse place) machine.old machine.new result }
{
    if !is_true(machine.state.status()) {
        machine.counter = place;
    }
    Move::On
}

/// Goes on with the body of an `if` if the status is true, else sets the flag.
pub(crate) fn run_if(machine: &mut Configuration, place: usize) -> Move
    ensures { Moves (op.If place) machine.old machine.new result }
{
    if !is_true(machine.state.status()) {
        machine.state.set_if_not(true);
        machine.counter = place;
    }
    Move::On
}

/// Clears the flag: the body of an `if` has run.
pub(crate) fn was_true(machine: &mut Configuration) -> Move
    ensures { Moves op.WasTrue machine.old machine.new result }
{
    machine.state.set_if_not(false);
    Move::On
}

/// Goes on with the body of an `if not` if the flag is set.
pub(crate) fn run_if_not(machine: &mut Configuration, place: usize) -> Move
    ensures { Moves (op.IfNot place) machine.old machine.new result }
{
    if !machine.state.if_not() {
        machine.counter = place;
    }
    Move::On
}

/// Sets the status to null.
#[inline(never)]
pub(crate) fn set_null(machine: &mut Configuration) -> Result<Move, AllocError>
    ensures { IfOk result (Moves op.SetNull machine.old machine.new) }
{
    machine.state.set_status("")?;
    Ok(Move::On)
}

/// `!` turns a true status into `false` and any other into null.
#[inline(never)]
pub(crate) fn invert(machine: &mut Configuration) -> Result<Move, AllocError>
    ensures { IfOk result (Moves op.Invert machine.old machine.new) }
{
    let status = if is_true(machine.state.status()) {
        "false"
    } else {
        ""
    };
    machine.state.set_status(status)?;
    Ok(Move::On)
}
