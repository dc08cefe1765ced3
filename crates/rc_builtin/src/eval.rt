//! `eval`.

ghost use Rattle.std.specs.Prelude.{◌≡◌, IfOk, List, Ok, OnErr, Option, map, string_bytes};
ghost use Rattle.rc_model.specs.Mirrors.TreeOfText.{tree_of};
ghost use Rattle.rc_model.specs.Run.Builtins.{as_body};
ghost use Rattle.rc_model.specs.Run.Calls.{Event};
ghost use Rattle.rc_model.specs.Syntax.Text.{spaced};
ghost use Rattle.rc_builtin.specs.Outcomes.{RunsWords};
ghost use Rattle.rc_scope.specs.States.{state_of};
ghost use Rattle.rc_text.specs.Texts.{text_bytes};

use crate::command_words::Outcome;
use crate::scripts::{compile_script, compiled};
use rc_scope::State;
use rc_text::{Text, flat};
use std::alloc::{AllocError, Global};

/// A text that did not run lately: it is a script that is run, and its code is kept.
fn eval_new(alloc: Global, state: &mut State, text: String) -> Result<Outcome, AllocError>
    ensures ok { IfOk result (λ outcome. (recorded : Option (List Event)) → RunsWords recorded recorded
        (as_body (tree_of (string_bytes text)) (state_of state.old)) (state_of state.new) (Ok outcome)) }
    ensures err { OnErr result (state_of state.new ≡ state_of state.old) }
{
    match compiled(state, compile_script(alloc, text.as_bytes()))? {
        Some(body) => {
            state.keep_code(text, &body)?;
            Ok(Outcome::Body(body))
        }
        None => Ok(Outcome::Finished),
    }
}

/// `eval`: runs the words, joined by spaces, as a script.
pub(crate) fn eval(alloc: Global, state: &mut State, words: &[Text]) -> Result<Outcome, AllocError>
    ensures ok { IfOk result (λ outcome. (recorded : Option (List Event)) → RunsWords recorded recorded
        (as_body (tree_of (spaced (map text_bytes words.now))) (state_of state.old))
        (state_of state.new) (Ok outcome)) }
    ensures err { OnErr result (state_of state.new ≡ state_of state.old) }
{
    let text = flat(alloc, words)?;
    match state.recent_code(&text)? {
        Some(body) => Ok(Outcome::Body(body)),
        None => eval_new(alloc, state, text),
    }
}
