//! Instructions that read and assign variables.

ghost use Rattle.std.specs.Prelude.{◌≡◌, option_map};
ghost use Rattle.rc_model.specs.Code.Layout as op;
ghost use Rattle.rc_machine.specs.Instructions.{Executes};
ghost use Rattle.rc_machine.specs.Names.{the_name};
ghost use Rattle.rc_machine.specs.Tops.{uppermost};
ghost use Rattle.rc_model.specs.Run.State.{is_name};
ghost use Rattle.rc_model.specs.Syntax.Words.{word_texts};

use crate::configuration::lookups::{
    put_text, put_texts, put_value, read, take_texts, variable_name,
};
use crate::configuration::parts::Scope;
use crate::configuration::{Configuration, Move};
use crate::stack::list_stack::ListStack;
use rc_model::InputError;
use rc_scope::NameFault;
use rc_text::{Text, Word};
use rc_world::{Stop, World};
use std::alloc::Global;

/// `$x`.
#[inline(never)]
#[tactic(auto, using(crate::proofs::Left::step_refused))]
pub(crate) fn value<W: World>(
    machine: &mut Configuration,
    alloc: Global,
    world: &mut W,
) -> Result<Move, Stop>
    ensures { Executes (W.events world.old) (W.events world.new) op.Value machine.old machine.new result }
{
    let Some(words) = machine.words.top() else {
        return Ok(Move::Ended);
    };
    let Some(value) = read(&machine.state, words) else {
        return machine.fail_bad_name(alloc, world);
    };
    machine.words.drop_top();
    put_value(&mut machine.words, value)?;
    Ok(Move::On)
}

/// `$#x`.
#[inline(never)]
#[tactic(auto, using(crate::proofs::Left::step_refused))]
pub(crate) fn count<W: World>(
    machine: &mut Configuration,
    alloc: Global,
    world: &mut W,
) -> Result<Move, Stop>
    ensures { Executes (W.events world.old) (W.events world.new) op.Count machine.old machine.new result }
{
    let Some(words) = machine.words.top() else {
        return Ok(Move::Ended);
    };
    let Some(value) = read(&machine.state, words) else {
        return machine.fail_bad_name(alloc, world);
    };
    let count = Text::from_string(alloc, value.len().to_string(alloc)?)?;
    machine.words.drop_top();
    put_text(&mut machine.words, count)?;
    Ok(Move::On)
}

/// `$"x`.
#[inline(never)]
#[tactic(auto, using(crate::proofs::Left::step_refused))]
pub(crate) fn flat<W: World>(
    machine: &mut Configuration,
    alloc: Global,
    world: &mut W,
) -> Result<Move, Stop>
    ensures { Executes (W.events world.old) (W.events world.new) op.Flat machine.old machine.new result }
{
    let Some(words) = machine.words.top() else {
        return Ok(Move::Ended);
    };
    let Some(value) = read(&machine.state, words) else {
        return machine.fail_bad_name(alloc, world);
    };
    let text = Text::from_string(alloc, rc_text::flat(alloc, value)?)?;
    machine.words.drop_top();
    put_text(&mut machine.words, text)?;
    Ok(Move::On)
}

/// `$x(s ...)`.
#[inline(never)]
#[tactic(auto, using(crate::proofs::Left::step_refused))]
pub(crate) fn select<W: World>(
    machine: &mut Configuration,
    alloc: Global,
    world: &mut W,
) -> Result<Move, Stop>
    ensures { Executes (W.events world.old) (W.events world.new) op.Select machine.old machine.new result }
{
    let Some((words, _)) = machine.words.top_two() else {
        return Ok(Move::Ended);
    };
    let Some(value) = read(&machine.state, words) else {
        return machine.fail_bad_name(alloc, world);
    };
    let subscripts = take_texts(alloc, &mut machine.words)?;
    let members = rc_text::select(alloc, value, &subscripts)?;
    machine.words.drop_top();
    put_texts(&mut machine.words, members)?;
    Ok(Move::On)
}

/// The name of a variable in the top list.
fn name_on_top(words: &ListStack<Word>) -> Option<&str>
    ensures { option_map (λ name. name.now) result ≡ the_name is_name (word_texts (uppermost words.now)) }
{
    variable_name(words.top()?)
}

/// Assigns the top list to the variable that the list below it names, whatever the two are.
#[tactic(auto, using(crate::proofs::Left::step_refused))]
fn assign_list<W: World>(
    machine: &mut Configuration,
    alloc: Global,
    world: &mut W,
) -> Result<Move, Stop>
    ensures { Executes (W.events world.old) (W.events world.new) op.Assign machine.old machine.new result }
{
    let Some((words, _)) = machine.words.top_two() else {
        return Ok(Move::Ended);
    };
    let Some(_) = variable_name(words) else {
        return machine.fail_bad_name(alloc, world);
    };
    let value = take_texts(alloc, &mut machine.words)?;
    let Some(name) = name_on_top(&machine.words) else {
        return Ok(Move::Ended);
    };
    machine.state.set(name, value).map_err(|_| Stop::NoMemory)?;
    machine.words.drop_top();
    Ok(Move::On)
}

/// `x=..`.
#[inline(never)]
#[tactic(auto, using(crate::proofs::Left::step_refused))]
pub(crate) fn assign<W: World>(
    machine: &mut Configuration,
    alloc: Global,
    world: &mut W,
) -> Result<Move, Stop>
    ensures { Executes (W.events world.old) (W.events world.new) op.Assign machine.old machine.new result }
{
    let Some((name, word)) = machine.words.take_pair() else {
        return assign_list(machine, alloc, world);
    };
    let text = word.into_text()?;
    match machine.state.set_one(name.text(), text) {
        Ok(()) => Ok(Move::On),
        Err(InputError::Fault(NameFault::BadName)) => machine.fail_bad_name(alloc, world),
        Err(InputError::NoMemory) => Err(Stop::NoMemory),
    }
}

/// `x=.. command`.
#[inline(never)]
#[tactic(auto, using(crate::proofs::Left::step_refused))]
pub(crate) fn local<W: World>(
    machine: &mut Configuration,
    alloc: Global,
    world: &mut W,
) -> Result<Move, Stop>
    ensures { Executes (W.events world.old) (W.events world.new) op.Local machine.old machine.new result }
{
    let Some((words, _)) = machine.words.top_two() else {
        return Ok(Move::Ended);
    };
    let Some(_) = variable_name(words) else {
        return machine.fail_bad_name(alloc, world);
    };
    let value = take_texts(alloc, &mut machine.words)?;
    let Some(name) = name_on_top(&machine.words) else {
        return Ok(Move::Ended);
    };
    machine
        .state
        .push_local(name, value)
        .map_err(|_| Stop::NoMemory)?;
    machine.scopes.push(Scope::Local)?;
    machine.words.drop_top();
    Ok(Move::On)
}
