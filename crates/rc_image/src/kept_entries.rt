//! Entries of variables and functions are kept between launches.

ghost use Rattle.std.specs.Prelude.{◌≡◌};
ghost use Rattle.rc_scope.specs.States.{state_of};

use crate::launch_environment::{body_entry, stays_behind, variable_entry};
use rc_scope::{KeptEntry, State};
use std::alloc::{AllocError, Global};

/// Keeps the entry of a variable, if one of its name is handed over.
fn keep_variable(alloc: Global, state: &mut State, name: &str) -> Result<(), AllocError>
    ensures { state_of state.new ≡ state_of state.old }
{
    if stays_behind(name) {
        return Ok(());
    }
    let entry = variable_entry(alloc, name, state.value(name))?;
    let start = name.len() + "=".len();
    state.keep_entry(name, KeptEntry { entry, start });
    Ok(())
}

/// Keeps the entry of a function.
fn keep_function(alloc: Global, state: &mut State, name: &str) -> Result<(), AllocError>
    ensures { state_of state.new ≡ state_of state.old }
{
    let Some(body) = state.function(name)? else {
        return Ok(());
    };
    let entry = body_entry(alloc, name, &body)?;
    let start = "fn#".len() + name.len() + "=".len();
    state.keep_function(name, KeptEntry { entry, start });
    Ok(())
}

/// Keeps the entries of these variables.
fn keep_variables(alloc: Global, state: &mut State, names: &[String]) -> Result<(), AllocError>
    ensures { state_of state.new ≡ state_of state.old }
{
    for name in names {
        keep_variable(alloc, state, name)?;
    }
    Ok(())
}

/// Keeps the entries of these functions.
fn keep_functions(alloc: Global, state: &mut State, names: &[String]) -> Result<(), AllocError>
    ensures { state_of state.new ≡ state_of state.old }
{
    for name in names {
        keep_function(alloc, state, name)?;
    }
    Ok(())
}

/// Keeps the entry of each variable and function that was changed since it was kept last.
pub fn keep_entries(alloc: Global, state: &mut State) -> Result<(), AllocError>
    ensures { state_of state.new ≡ state_of state.old }
{
    let unkept = state.unkept()?;
    keep_variables(alloc, state, &unkept.variables)?;
    keep_functions(alloc, state, &unkept.functions)
}
