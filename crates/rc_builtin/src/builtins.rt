//! Which code runs words that name no function: that of a built-in command, or of a program.

ghost use Rattle.std.specs.Prelude.{◌≡◌, ◌≢◌, ◌≤◌, OnErr, drop, length, map};
ghost use Rattle.rc_model.specs.Run.Acts.{run_program};
ghost use Rattle.rc_model.specs.Run.Builtins.{Called, finished, run_builtin, without_functions};
ghost use Rattle.rc_model.specs.Run.Shell.{Shell};
ghost use Rattle.rc_model.specs.declared.builtin.Builtin.TheVariants.{BuiltinWord};
ghost use Rattle.rc_model.specs.declared.call.Slots.{Slots};
ghost use Rattle.rc_builtin.specs.Outcomes.{RunsWords};
ghost use Rattle.rc_builtin.specs.Words.{BeginsOther};
ghost use Rattle.rc_scope.specs.States.{state_of};
ghost use Rattle.rc_text.specs.Texts.{text_bytes};

use crate::Builtin;
use crate::command_words::{Outcome, name_and_args};
use crate::directories::change_dir;
use crate::dot::dot;
use crate::eval::eval;
use crate::exec::exec;
use crate::exits::exit_status;
use crate::known_names::whatis;
use crate::shifts::shift;
use crate::wait::wait;
use rc_pipes::{misuse, run_program};
use rc_scope::State;
use rc_text::Text;
use rc_world::{Slots, Stop, World};
use std::alloc::Global;

/// Runs a built-in command other than `builtin`. On `Err` the state has not changed.
#[tactic(auto, using(crate::proofs::Left::words_refused))]
fn run_builtin<W: World>(
    alloc: Global,
    world: &mut W,
    state: &mut State,
    slots: Slots,
    builtin: Builtin,
    args: Vec<Text>,
) -> Result<Outcome, Stop>
    requires { builtin ≢ BuiltinWord }
    ensures runs { (again : Shell Called) → RunsWords (W.events world.old) (W.events world.new)
        (run_builtin again slots builtin (map text_bytes args.items) (state_of state.old))
        (state_of state.new) result }
    ensures err { OnErr result (state_of state.new ≡ state_of state.old) }
{
    match builtin {
        Builtin::Dot => return dot(alloc, world, state, args),
        Builtin::Eval => return Ok(eval(alloc, state, &args)?),
        Builtin::Exec => return exec(alloc, world, state, slots, args),
        Builtin::Exit => {
            exit_status(alloc, state, &args)?;
            return Ok(Outcome::Exit);
        }
        Builtin::Cd => change_dir(alloc, world, state, &args)?,
        Builtin::Shift => shift(state, &args)?,
        Builtin::Whatis => whatis(alloc, world, state, slots, &args)?,
        Builtin::Wait => wait(alloc, world, state, &args)?,
        Builtin::BuiltinWord => unreachable!(),
    }
    Ok(Outcome::Finished)
}

/// Runs a program by its name.
#[tactic(auto, using(crate::proofs::Left::words_refused))]
fn run_as_program<W: World>(
    alloc: Global,
    world: &mut W,
    state: &mut State,
    slots: Slots,
    name: &str,
    args: Vec<Text>,
) -> Result<Outcome, Stop>
    ensures runs { RunsWords (W.events world.old) (W.events world.new)
        (finished (run_program slots name.now (map text_bytes args.items)) (state_of state.old))
        (state_of state.new) result }
    ensures err { OnErr result (state_of state.new ≡ state_of state.old) }
{
    run_program(alloc, world, state, slots, name, args)?;
    Ok(Outcome::Finished)
}

/// Counts the leading words that are `builtin`.
fn leading_builtins(words: &[Text]) -> usize
    ensures within { result ≤ length words.now }
    ensures same { (slots : Slots) → without_functions slots (map text_bytes words.now)
        ≡ without_functions slots (map text_bytes (drop result words.now)) }
    ensures other { BeginsOther (map text_bytes (drop result words.now)) }
{
    let mut count = 0;
    for word in words {
        if Builtin::named(word.as_str()) != Some(Builtin::BuiltinWord) {
            return count;
        }
        count += 1;
    }
    count
}

/// Drops each leading `builtin` of these words.
fn past_builtins(mut words: Vec<Text>) -> Vec<Text>
    ensures same { (slots : Slots) → without_functions slots (map text_bytes words.items)
        ≡ without_functions slots (map text_bytes result.items) }
    ensures other { BeginsOther (map text_bytes result.items) }
{
    let count = leading_builtins(&words);
    words.drain(..count);
    words
}

/// Runs words, ignoring functions. On `Err` the state has not changed.
#[tactic(auto, using(crate::proofs::Left::words_refused))]
pub(crate) fn run_without_functions<W: World>(
    alloc: Global,
    world: &mut W,
    state: &mut State,
    slots: Slots,
    words: Vec<Text>,
) -> Result<Outcome, Stop>
    ensures runs { RunsWords (W.events world.old) (W.events world.new)
        (without_functions slots (map text_bytes words.items) (state_of state.old)) (state_of state.new) result }
    ensures err { OnErr result (state_of state.new ≡ state_of state.old) }
{
    let Some((name, args)) = name_and_args(past_builtins(words)) else {
        misuse(state)?;
        return Ok(Outcome::Finished);
    };
    match Builtin::named(name.as_str()) {
        Some(builtin) => run_builtin(alloc, world, state, slots, builtin, args),
        None => run_as_program(alloc, world, state, slots, name.as_str(), args),
    }
}
