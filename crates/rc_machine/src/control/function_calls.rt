//! Functions: definitions, calls and returns.

ghost use Rattle.std.specs.Prelude.{◌≡◌, OnOk, IfOk, codes, map, string_bytes};
ghost use Rattle.rc_model.specs.Code.Layout as op;
ghost use Rattle.rc_model.specs.Handed.Proper.{IsProperTree};
ghost use Rattle.rc_model.specs.Run.State.{undefine, value_of};
ghost use Rattle.rc_code.specs.Views.{code_of};
ghost use Rattle.rc_scope.specs.States.{state_of};
ghost use Rattle.rc_text.specs.Texts.{text_bytes};
ghost use Rattle.rc_tree.specs.View.{cmd_tree};
ghost use Rattle.rc_machine.specs.Calls.{Defines, called, entered, handed_arguments};
ghost use Rattle.rc_machine.specs.Configurations.{config_of};
ghost use Rattle.rc_machine.specs.Instructions.{Executes, Moves};

use crate::configuration::lookups::texts;
use crate::configuration::parts::{Frame, Scope};
use crate::configuration::{Configuration, Move};
use crate::control::scopes::end_local;
use rc_code::Code;
use rc_model::InputError;
use rc_scope::{NameFault, State};
use rc_text::Text;
use rc_tree::Cmd;
use rc_world::{Stop, World};
use std::alloc::{AllocError, Global};
use std::mem::replace;
use std::rc::Rc;

/// Defines this body under each of these names, up to the first that isn't allowed.
fn define_each(state: &mut State, names: &[String], body: &Rc<Cmd>) -> Result<bool, AllocError>
    requires { IsProperTree (cmd_tree body.now.value) }
    ensures { IfOk result (λ all.
        Defines (map string_bytes names.now) (cmd_tree body.now.value) (state_of state.old) (state_of state.new) all) }
{
    for name in names {
        match state.define_shared(name, body) {
            Ok(()) => {}
            Err(InputError::Fault(NameFault::BadName)) => return Ok(false),
            Err(InputError::NoMemory) => return Err(AllocError),
        }
    }
    Ok(true)
}

/// Removes the functions of these names.
fn undefine_each(state: &mut State, names: &[String])
    ensures { state_of state.new ≡ undefine (state_of state.old) (map string_bytes names.now) }
{
    for name in names {
        state.remove(name);
    }
}

/// Enters a body, from which the machine returns to the next instruction.
pub(crate) fn enter(machine: &mut Configuration, body: Code, binds: bool) -> Result<(), AllocError>
    ensures { OnOk result (config_of machine.new ≡ entered (config_of machine.old) binds (code_of body)) }
{
    let caller = replace(&mut machine.code, body);
    machine.frames.push(Frame {
        caller,
        place: machine.counter,
        binds,
    })?;
    machine.counter = 0;
    Ok(())
}

/// Enters a body, with these arguments as its `$*`.
pub(crate) fn call(
    machine: &mut Configuration,
    args: Vec<Text>,
    body: Code,
) -> Result<(), AllocError>
    ensures { OnOk result (config_of machine.new
        ≡ called (config_of machine.old) (map text_bytes args.items) (code_of body)) }
{
    machine.state.push_local("*", args).map_err(|_| AllocError)?;
    machine.scopes.push(Scope::Local)?;
    enter(machine, body, true)
}

/// Enters a body, whose `$*` shares the members of the one outside.
fn hand_on(machine: &mut Configuration, body: Code) -> Result<(), AllocError>
    ensures { let outside = config_of machine.old in OnOk result (config_of machine.new
        ≡ called outside (value_of outside.state (codes "*")) (code_of body)) }
{
    machine.state.pass_arguments()?;
    machine.scopes.push(Scope::Local)?;
    enter(machine, body, true)
}

/// Enters a body, with these arguments as its `$*`, or with those outside if none are given.
pub(crate) fn call_with(
    machine: &mut Configuration,
    args: Option<Vec<Text>>,
    body: Code,
) -> Result<(), AllocError>
    ensures { let outside = config_of machine.old in OnOk result (config_of machine.new
        ≡ called outside (handed_arguments outside.state args) (code_of body)) }
{
    match args {
        Some(args) => call(machine, args, body),
        None => hand_on(machine, body),
    }
}

/// Returns from a body; in the last frame that is the end of the script.
#[inline(never)]
pub(crate) fn leave(machine: &mut Configuration) -> Move
    ensures { Moves op.Return machine.old machine.new result }
{
    let Some(
        Frame {
            caller,
            place,
            binds,
        },
    ) = machine.frames.pop()
    else {
        return Move::Ended;
    };
    if binds && !end_local(machine) {
        return Move::Ended;
    }
    machine.code = caller;
    machine.counter = place;
    Move::On
}

/// `fn NAME .. {..}`.
#[inline(never)]
#[tactic(auto, using(crate::proofs::Left::step_refused))]
pub(crate) fn define<W: World>(
    machine: &mut Configuration,
    alloc: Global,
    world: &mut W,
    number: usize,
) -> Result<Move, Stop>
    ensures { Executes (W.events world.old) (W.events world.new) (op.Define number) machine.old machine.new result }
{
    let Some(words) = machine.words.top() else {
        return Ok(Move::Ended);
    };
    let Some(body) = machine.code.tree(number) else {
        return Ok(Move::Ended);
    };
    let names = texts(alloc, words)?;
    if !define_each(&mut machine.state, &names, body)? {
        return machine.fail_bad_name(alloc, world);
    }
    machine.words.drop_top();
    Ok(Move::On)
}

/// `fn NAME ..`.
#[inline(never)]
pub(crate) fn undefine(machine: &mut Configuration, alloc: Global) -> Result<Move, AllocError>
    ensures { IfOk result (Moves op.Undefine machine.old machine.new) }
{
    let Some(words) = machine.words.top() else {
        return Ok(Move::Ended);
    };
    let names = texts(alloc, words)?;
    undefine_each(&mut machine.state, &names);
    machine.words.drop_top();
    Ok(Move::On)
}
