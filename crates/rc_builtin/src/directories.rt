//! `cd`.

ghost use Rattle.std.specs.Prelude.{◌≡◌, ◌∷◌, [], IfOk, OnErr, codes, map, string_bytes};
ghost use Rattle.rc_model.specs.Run.Builtins.{Finished, cd, dirs_by, dirs_of, first_dir, first_member};
ghost use Rattle.rc_model.specs.Run.Builtins.{is_own_dir, under_dir};
ghost use Rattle.rc_model.specs.Run.State.{value_of};
ghost use Rattle.rc_world.specs.Comes.{Does};
ghost use Rattle.rc_scope.specs.States.{state_of};
ghost use Rattle.rc_text.specs.Texts.{text_bytes};

use rc_pipes::{is_path, misuse};
use rc_scope::State;
use rc_text::Text;
use rc_world::{Stop, World, calls};
use std::alloc::{AllocError, Global};

/// Whether a directory is not looked up in `$cdpath`.
fn is_own_dir(dir: &str) -> bool
    ensures { result ≡ is_own_dir dir.now }
{
    is_path(dir) || dir == "." || dir == ".."
}

/// The path of a directory under a member of `$cdpath`.
fn under_dir(alloc: Global, dir: &str, member: &str) -> Result<String, AllocError>
    ensures { IfOk result (λ path. string_bytes path ≡ under_dir dir.now member.now) }
{
    if member.is_empty() || member == "." {
        return String::from_str(alloc, dir);
    }
    format!(in alloc; "{member}/{dir}")
}

/// The paths to try, by the members of `$cdpath`.
fn dirs_by(alloc: Global, dir: &str, members: &[Text]) -> Result<Vec<String>, AllocError>
    ensures { IfOk result (λ dirs. map string_bytes dirs.items ≡ dirs_by dir.now (map text_bytes members.now)) }
{
    let mut dirs = Vec::new(alloc);
    if members.is_empty() || is_own_dir(dir) {
        dirs.push(String::from_str(alloc, dir)?)?;
        return Ok(dirs);
    }
    for member in members {
        dirs.push(under_dir(alloc, dir, member.as_str())?)?;
    }
    Ok(dirs)
}

/// The paths to try for this directory.
fn dirs_of(alloc: Global, state: &State, dir: &str) -> Result<Vec<String>, AllocError>
    ensures { IfOk result (λ dirs. map string_bytes dirs.items ≡ dirs_of (state_of state.now) (dir.now ∷ [])) }
{
    dirs_by(alloc, dir, state.value("cdpath"))
}

/// The paths to try for the home directory: none if there isn't one.
fn home_dirs(alloc: Global, state: &State) -> Result<Vec<String>, AllocError>
    ensures { IfOk result (λ dirs. map string_bytes dirs.items
        ≡ dirs_of (state_of state.now) (first_member (value_of (state_of state.now) (codes "home")))) }
{
    match state.value("home").first() {
        Some(home) => dirs_of(alloc, state, home.as_str()),
        None => Ok(Vec::new(alloc)),
    }
}

/// Changes to the first of these directories that exists.
#[tactic(auto, using(rc_pipes::proofs::ProgramActs::acting))]
fn first_dir<W: World>(world: &mut W, state: &mut State, dirs: &[String]) -> Result<(), Stop>
    ensures does { Does W.events world.old world.new state_of state.old state.new
        (first_dir (map string_bytes dirs.now)) (λ x. x) result }
    ensures err { OnErr result (state_of state.new ≡ state_of state.old) }
{
    for dir in dirs {
        if calls::chdir(world, dir)? {
            state.clear_status();
            return Ok(());
        }
    }
    state.set_status("cannot cd")?;
    Ok(())
}

/// Changes to the directory that the word names, or without words to the home directory. The status is null, or `cannot
/// cd` if there was none to change to; with several words it is `usage`.
#[tactic(auto, using(rc_pipes::proofs::ProgramActs::acting))]
pub fn change_dir<W: World>(
    alloc: Global,
    world: &mut W,
    state: &mut State,
    words: &[Text],
) -> Result<(), Stop>
    ensures does { Does W.events world.old world.new state_of state.old state.new
        (cd (map text_bytes words.now)) (λ _. Finished) result }
    ensures err { OnErr result (state_of state.new ≡ state_of state.old) }
{
    let dirs = match words {
        [] => home_dirs(alloc, state)?,
        [dir] => dirs_of(alloc, state, dir.as_str())?,
        _ => {
            misuse(state)?;
            return Ok(());
        }
    };
    first_dir(world, state, &dirs)
}
