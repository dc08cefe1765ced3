//! Reading the state that an environment denotes.

ghost use Rattle.std.specs.Prelude.{◌≡◌, [], if◌then◌else◌, OnOk, IfOk, map, string_bytes};
ghost use Rattle.rc_model.specs.Handed.Environment.{Bindings, bindings, with_cut, cut_entry, read_state};
ghost use Rattle.rc_model.specs.Handed.Proper.{IsProperTree};
ghost use Rattle.rc_model.specs.Run.State.{define, is_function_name, is_name, set_value};
ghost use Rattle.rc_scope.specs.FunctionBodies.{IsImage, image_tree};
ghost use Rattle.rc_scope.specs.KeptEntries.{kept_text};
ghost use Rattle.rc_scope.specs.States.{state_of};
ghost use Rattle.rc_model.specs.Syntax.Faults.{Gives};
ghost use Rattle.rc_image.specs.Entries.{function_in, is_ignored, values_state, with_function, with_functions};
ghost use Rattle.rc_text.specs.Texts.{text_bytes};

use crate::cut_entries::{cut_entry, function_entry, members};
use crate::launch_environment::image_entry;
use crate::{ImageError, check_tree};
use rc_model::InputError;
use rc_scope::{KeptEntry, NameFault, State};
use rc_text::Text;
use std::alloc::{AllocError, Global};

/// Whether a name is not read as that of a variable. The status comes only from a shell of the same kind.
fn is_ignored(name: &str, own: bool) -> bool
    ensures { result ≡ is_ignored own name.now }
{
    name == "*" || (name == "status" && !own)
}

/// Sets a variable, unless its name is bad.
pub(crate) fn set_value(state: &mut State, name: &str, value: Vec<Text>) -> Result<(), AllocError>
    ensures { OnOk result (state_of state.new
        ≡ (if is_name name.now
        then set_value (state_of state.old) name.now (map text_bytes value.items)
        else state_of state.old)) }
{
    match state.set(name, value) {
        Err(InputError::NoMemory) => Err(AllocError),
        Ok(()) | Err(InputError::Fault(NameFault::BadName)) => Ok(()),
    }
}

/// Sets the variable or the status of an entry, in the state of the entries after it.
fn set_entry(alloc: Global, state: &mut State, entry: &str, own: bool) -> Result<(), AllocError>
    ensures { OnOk result ((bs : Bindings) → state_of state.old ≡ values_state own bs
        → state_of state.new ≡ values_state own (with_cut (cut_entry entry.now) bs)) }
{
    let Some((name, text)) = cut_entry(entry) else {
        return Ok(());
    };
    if is_ignored(name, own) {
        return Ok(());
    }
    // A function's name is not that of a variable, so its image isn't copied.
    if name.starts_with("fn#") {
        return Ok(());
    }
    set_value(state, name, members(alloc, text)?)
}

/// The state with the variables of these entries, and the status. The first entry of a name is set last.
fn read_values(alloc: Global, entries: &[String], own: bool) -> Result<State, AllocError>
    ensures { IfOk result (λ state. state_of state
        ≡ values_state own (bindings (map string_bytes entries.now))) }
{
    let mut state = State::new(alloc);
    for entry in entries.iter().rev() {
        set_entry(alloc, &mut state, entry, own)?;
    }
    Ok(state)
}

/// Defines a function by its entry, unless its name is bad.
fn define(state: &mut State, name: &str, kept: KeptEntry) -> Result<(), AllocError>
    requires image { IsImage kept }
    requires body { IsProperTree (image_tree (kept_text kept)) }
    ensures { OnOk result (state_of state.new
        ≡ (if is_function_name name.now
        then define (state_of state.old) name.now (image_tree (kept_text kept))
        else state_of state.old)) }
{
    match state.define_image(name, kept) {
        Err(InputError::NoMemory) => Err(AllocError),
        Ok(()) | Err(InputError::Fault(NameFault::BadName)) => Ok(()),
    }
}

/// An entry with the image of a function, which launches hand on.
fn kept_image(alloc: Global, name: &str, text: &str) -> Result<KeptEntry, AllocError>
    ensures { IfOk result (λ kept. kept_text kept ≡ text.now) }
{
    let entry = image_entry(alloc, name, text)?;
    let start = "fn#".len() + name.len() + "=".len();
    Ok(KeptEntry { entry, start })
}

/// Defines the function of an entry, if it is that of a function and there is none of its name yet. Its image is
/// checked, and no tree is made.
fn define_entry(alloc: Global, state: &mut State, entry: &str) -> Result<(), ImageError>
    ensures { Gives (λ _. state_of state.new) result
        (with_function (state_of state.old) (function_in (cut_entry entry.now))) }
{
    let Some((name, image)) = function_entry(entry) else {
        return Ok(());
    };
    if state.has_function(name) {
        return Ok(());
    }
    check_tree(alloc, image)?;
    let kept = kept_image(alloc, name, image)?;
    Ok(define(state, name, kept)?)
}

/// Defines the functions of these entries. The first entry of a name counts.
fn define_functions(alloc: Global, state: &mut State, entries: &[String]) -> Result<(), ImageError>
    requires { (state_of state.old).functions ≡ [] }
    ensures { Gives (λ _. state_of state.new) result
        (with_functions (state_of state.old) (bindings (map string_bytes entries.now))) }
{
    for entry in entries {
        define_entry(alloc, state, entry)?;
    }
    Ok(())
}

/// The state that an environment denotes. Functions and the status are read only if it is `own`, from a shell of the
/// same kind.
pub fn read_env(alloc: Global, entries: &[String], own: bool) -> Result<State, ImageError>
    ensures { Gives (λ state. state_of state) result (read_state own [] (map string_bytes entries.now)) }
{
    let mut state = read_values(alloc, entries, own)?;
    if own {
        define_functions(alloc, &mut state, entries)?;
    }
    Ok(state)
}
