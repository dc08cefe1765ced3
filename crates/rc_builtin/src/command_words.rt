//! Running the words of a simple command.

ghost use Rattle.std.specs.Prelude.{◌≡◌, ◌∷◌, [], IfNone, IfSome, OnErr, map};
ghost use Rattle.rc_model.specs.Run.Builtins.{run_words};
ghost use Rattle.rc_builtin.specs.Outcomes.{RunsWords};
ghost use Rattle.rc_scope.specs.States.{state_of};
ghost use Rattle.rc_text.specs.Texts.{text_bytes};

use crate::builtins::run_without_functions;
use rc_code::Code;
use rc_pipes::runtime_error;
use rc_scope::State;
use rc_text::Text;
use rc_world::{Slots, Stop, World};
use std::alloc::Global;

/// The outcome of the words of a simple command.
#[derive(Drop)]
pub enum Outcome {
    /// They ran, and the shell goes on.
    Finished,
    /// A body is to be run.
    Body(Code),
    /// A body is to be run with these arguments as its `$*`.
    Call { args: Vec<Text>, body: Code },
    /// The shell ends.
    Exit,
}

/// Splits off the name that words begin with.
pub(crate) fn name_and_args(mut words: Vec<Text>) -> Option<(Text, Vec<Text>)>
    ensures none { IfNone result (words.items ≡ []) }
    ensures some { IfSome result (λ found. words.items ≡ found.0 ∷ found.1.items) }
{
    if words.is_empty() {
        return None;
    }
    let name = words.remove(0);
    Some((name, words))
}

/// Runs the words of a simple command. On `Err` the state has not changed.
#[tactic(auto, using(crate::proofs::Left::words_refused))]
pub fn run_words<W: World>(
    alloc: Global,
    world: &mut W,
    state: &mut State,
    slots: Slots,
    mut words: Vec<Text>,
) -> Result<Outcome, Stop>
    ensures runs { RunsWords (W.events world.old) (W.events world.new)
        (run_words slots (map text_bytes words.items) (state_of state.old)) (state_of state.new) result }
    ensures err { OnErr result (state_of state.new ≡ state_of state.old) }
{
    let Some(name) = words.first() else {
        runtime_error(alloc, world, state, slots, "empty argument list")?;
        return Ok(Outcome::Exit);
    };
    if let Some(body) = state.code(name.as_str())? {
        words.remove(0);
        return Ok(Outcome::Call { args: words, body });
    }
    run_without_functions(alloc, world, state, slots, words)
}
