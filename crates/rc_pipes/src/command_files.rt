//! Files of commands: opening the first of a name.

ghost use Rattle.std.specs.Prelude.{◌≡◌, ◌∷◌, ℕ, List, IfOk, map, option_map, string_bytes};
ghost use Rattle.rc_pipes.specs.Starts.{paths_in};
ghost use Rattle.rc_model.specs.Run.Acts.{candidates};
ghost use Rattle.rc_model.specs.Run.Builtins.{dot, open_first, run_file};
ghost use Rattle.rc_model.specs.Run.State as model;
ghost use Rattle.rc_scope.specs.States.{state_of};
ghost use Rattle.rc_world.specs.Comes.{GoesOn, Reads};

use crate::programs::{candidate, is_path};
use rc_scope::State;
use rc_text::Text;
use rc_world::{Handle, Mode, Stop, World, calls};
use std::alloc::{AllocError, Global};

/// The paths at which a file of this name may be, by these directories.
fn paths_in(alloc: Global, name: &str, dirs: &[Text]) -> Result<Vec<String>, AllocError>
    ensures { IfOk result (λ paths. map string_bytes paths.items ≡ paths_in name.now dirs.now) }
{
    let mut paths = Vec::new(alloc);
    for dir in dirs {
        paths.push(candidate(alloc, dir.as_str(), name)?)?;
    }
    Ok(paths)
}

/// The paths at which a name is looked up.
fn candidates(alloc: Global, state: &State, name: &str) -> Result<Vec<String>, AllocError>
    ensures { IfOk result (λ paths. map string_bytes paths.items ≡ candidates (state_of state.now) name.now) }
{
    let mut paths = Vec::new(alloc);
    if name.is_empty() {
        return Ok(paths);
    }
    if is_path(name) {
        paths.push(String::from_str(alloc, name)?)?;
        return Ok(paths);
    }
    paths_in(alloc, name, state.value("path"))
}

/// The file at the first of these paths that opens.
fn open_first<W: World>(world: &mut W, paths: &[String]) -> Result<Option<Handle>, Stop>
    ensures { (s : model.State) → Reads W.events world.old world.new s
        (open_first (map string_bytes paths.now)) (option_map (λ file. file.0)) result }
{
    for path in paths {
        if let Some(file) = calls::open(world, path, Mode::Read)? {
            return Ok(Some(file));
        }
    }
    Ok(None)
}

/// Opens the first file of commands of this name that opens, in `$path` unless the name is a path; `None` if none does.
pub fn open_file<W: World>(
    alloc: Global,
    world: &mut W,
    state: &State,
    name: &str,
) -> Result<Option<Handle>, Stop>
    ensures { (args : List (List ℕ)) → GoesOn (W.events world.old) (W.events world.new)
        (dot (name.now ∷ args) (state_of state.now))
        (λ file. run_file args (option_map (λ f. f.0) file) (state_of state.now)) result }
{
    let paths = candidates(alloc, state, name)?;
    open_first(world, &paths)
}
