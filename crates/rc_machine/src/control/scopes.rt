//! Instructions of loops, and the ends of locals.

ghost use Rattle.std.specs.Prelude.{◌≡◌, IfOk, OnOk};
ghost use Rattle.rc_text.specs.Texts.{text_bytes};
ghost use Rattle.rc_model.specs.Code.Layout as op;
ghost use Rattle.rc_machine.specs.Configurations.{config_of};
ghost use Rattle.rc_machine.specs.EndOfLocals.{LocalEnds, LocalsEnd, bound_to};
ghost use Rattle.rc_machine.specs.Instructions.{Executes, Moves};

use crate::configuration::lookups::{take_texts, variable_name};
use crate::configuration::parts::Scope;
use crate::configuration::{Configuration, Move};
use crate::stack::Stack;
use rc_text::Text;
use rc_world::{Stop, World};
use std::alloc::{AllocError, Global};

/// Ends the innermost scope, if it is a local.
pub(crate) fn end_local(machine: &mut Configuration) -> bool
    ensures { LocalEnds (config_of machine.old).scopes (config_of machine.old) (config_of machine.new) result }
{
    let Some(Scope::Local) = machine.scopes.top() else {
        return false;
    };
    let _ = machine.scopes.pop();
    machine.state.pop_local();
    true
}

/// Ends this many locals; stops at any other scope.
fn end_locals(machine: &mut Configuration, count: usize)
    ensures { LocalsEnd count (config_of machine.old) (config_of machine.new) }
{
    for _ in 0..count {
        if !end_local(machine) {
            return;
        }
    }
}

/// Ends the locals of a command.
#[inline(never)]
pub(crate) fn unlocal(machine: &mut Configuration, count: usize) -> Move
    ensures { Moves (op.Unlocal count) machine.old machine.new result }
{
    end_locals(machine, count);
    Move::On
}

/// `for(x in ..)`: opens the loop, whose first turn is still to come.
#[inline(never)]
#[tactic(auto, using(crate::proofs::Left::step_refused))]
pub(crate) fn begin_loop<W: World>(
    machine: &mut Configuration,
    alloc: Global,
    world: &mut W,
) -> Result<Move, Stop>
    ensures { Executes (W.events world.old) (W.events world.new) op.For machine.old machine.new result }
{
    let Some((_, words)) = machine.words.top_two() else {
        return Ok(Move::Ended);
    };
    let Some(name) = variable_name(words) else {
        return machine.fail_bad_name(alloc, world);
    };
    let name = String::from_str(alloc, name)?;
    machine.words.drop_top();
    let rest = Stack::of(take_texts(alloc, &mut machine.words)?);
    machine.scopes.push(Scope::Loop {
        name,
        rest,
        bound: false,
    })?;
    Ok(Move::On)
}

/// Binds the variable of a loop: the first turn opens its local.
fn bind(
    machine: &mut Configuration,
    alloc: Global,
    name: &str,
    member: Text,
    bound: bool,
) -> Result<(), AllocError>
    ensures { OnOk result
        (config_of machine.new ≡ bound_to (config_of machine.old) name.now (text_bytes member) bound) }
{
    let set = if bound {
        machine.state.set_one(name, member)
    } else {
        let mut value = Vec::with_capacity(alloc, 1)?;
        value.push(member)?;
        machine.state.push_local(name, value)
    };
    set.map_err(|_| AllocError)
}

/// Takes the next turn of the innermost loop, or ends it and jumps to the place.
#[inline(never)]
pub(crate) fn next_turn(
    machine: &mut Configuration,
    alloc: Global,
    place: usize,
) -> Result<Move, AllocError>
    ensures { IfOk result (Moves (op.Next place) machine.old machine.new) }
{
    let Some(
        Scope::Loop {
            name,
            mut rest,
            bound,
        },
    ) = machine.scopes.pop()
    else {
        return Ok(Move::Ended);
    };
    let Some(member) = rest.pop() else {
        if bound {
            machine.state.pop_local();
        }
        machine.counter = place;
        return Ok(Move::On);
    };
    bind(machine, alloc, &name, member, bound)?;
    machine.scopes.push(Scope::Loop {
        name,
        rest,
        bound: true,
    })?;
    Ok(Move::On)
}
