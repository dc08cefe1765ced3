//! `.`: finding a file of commands by its name, reading it, and running it as a script.

ghost use Rattle.std.specs.Prelude.{◌≡◌, ◌∷◌, ℕ, IfOk, List, Ok, OnErr, Option, Some, map};
ghost use Rattle.rc_model.specs.Mirrors.TreeOfText.{tree_of};
ghost use Rattle.rc_model.specs.Run.Acts.{longest_file, read_all};
ghost use Rattle.rc_model.specs.Run.Builtins.{as_body_with, dot, run_file};
ghost use Rattle.rc_model.specs.Run.Calls.{Event};
ghost use Rattle.rc_model.specs.Run.State as model;
ghost use Rattle.rc_builtin.specs.Files.{after_file, got_of};
ghost use Rattle.rc_builtin.specs.Outcomes.{RunsWords};
ghost use Rattle.rc_scope.specs.States.{state_of};
ghost use Rattle.rc_world.specs.Comes.{GoesOn, Reads};
ghost use Rattle.rc_text.specs.Texts.{text_bytes};

use crate::command_words::{Outcome, name_and_args};
use crate::scripts::{compile_read, compiled};
use rc_parser::Reader;
use rc_pipes::{misuse, open_file};
use rc_scope::State;
use rc_text::Text;
use rc_world::{Handle, Stop, World, calls};
use std::alloc::{AllocError, Global};

/// The bytes of a file of commands, and why reading stopped early, if it did.
#[derive(Drop)]
pub(crate) struct ReadFile {
    reader: Reader,
    why: Option<&'static str>,
}

/// Reads up to the empty answer, or until there are more bytes than a script may have.
#[tactic(auto, unfolding(rc_model::specs::Run::Acts::longest_file))]
fn read_script<W: World>(alloc: Global, world: &mut W, file: Handle) -> Result<ReadFile, Stop>
    ensures { (s : model.State) → Reads W.events world.old world.new s (read_all longest_file file.0) got_of result }
{
    let mut reader = Reader::new(alloc);
    while !reader.is_too_long() {
        let Some(more) = calls::read(world, file)? else {
            return Ok(ReadFile {
                reader,
                why: Some("cannot read"),
            });
        };
        if more.is_empty() {
            return Ok(ReadFile { reader, why: None });
        }
        reader.feed(&more)?;
    }
    Ok(ReadFile {
        reader,
        why: Some("too large"),
    })
}

/// Reads a file of commands, and closes it.
fn read_and_close<W: World>(alloc: Global, world: &mut W, file: Handle) -> Result<ReadFile, Stop>
    ensures { (args : List (List ℕ)) (s : model.State) → GoesOn (W.events world.old) (W.events world.new)
        (run_file args (Some file.0) s) (λ read. after_file args s (Some read)) result }
{
    let read = read_script(alloc, world, file)?;
    calls::close(world, file)?;
    Ok(read)
}

/// Reads the first file of this name that opens, or `None` if none does.
fn read_file<W: World>(
    alloc: Global,
    world: &mut W,
    state: &State,
    name: &str,
) -> Result<Option<ReadFile>, Stop>
    ensures { (args : List (List ℕ)) → GoesOn (W.events world.old) (W.events world.new)
        (dot (name.now ∷ args) (state_of state.now)) (after_file args (state_of state.now)) result }
{
    let Some(file) = open_file(alloc, world, state, name)? else {
        return Ok(None);
    };
    let read = read_and_close(alloc, world, file)?;
    Ok(Some(read))
}

/// Runs the text that was read as a script with these arguments.
fn run_read(
    alloc: Global,
    state: &mut State,
    reader: Reader,
    args: Vec<Text>,
) -> Result<Outcome, AllocError>
    ensures ok { IfOk result (λ outcome. (recorded : Option (List Event)) → RunsWords recorded recorded
        (as_body_with (map text_bytes args.items) (tree_of reader) (state_of state.old))
        (state_of state.new) (Ok outcome)) }
    ensures err { OnErr result (state_of state.new ≡ state_of state.old) }
{
    let Some(body) = compiled(state, compile_read(alloc, reader))? else {
        return Ok(Outcome::Finished);
    };
    Ok(Outcome::Call { args, body })
}

/// `.`: runs a file as a script with the words after its name.
#[tactic(auto, using(crate::proofs::Left::words_refused))]
pub(crate) fn dot<W: World>(
    alloc: Global,
    world: &mut W,
    state: &mut State,
    words: Vec<Text>,
) -> Result<Outcome, Stop>
    ensures runs { RunsWords (W.events world.old) (W.events world.new)
        (dot (map text_bytes words.items) (state_of state.old)) (state_of state.new) result }
    ensures err { OnErr result (state_of state.new ≡ state_of state.old) }
{
    let Some((name, args)) = name_and_args(words) else {
        misuse(state)?;
        return Ok(Outcome::Finished);
    };
    let Some(file) = read_file(alloc, world, state, name.as_str())? else {
        state.set_status("cannot open")?;
        return Ok(Outcome::Finished);
    };
    if let Some(why) = file.why {
        state.set_status(why)?;
        return Ok(Outcome::Finished);
    }
    Ok(run_read(alloc, state, file.reader, args)?)
}
