//! Writing what a shell is handed: the arguments and the entries of its launch.

ghost use Rattle.std.specs.Prelude.{◌≡◌, IfOk, map, string_bytes};
ghost use Rattle.rc_model.specs.Handed.Arguments.{handed};
ghost use Rattle.rc_model.specs.Handed.Proper.{IsProperTree};
ghost use Rattle.rc_text.specs.Texts.{text_bytes};
ghost use Rattle.rc_tree.specs.View.{cmd_tree};
ghost use Rattle.rc_scope.specs.States.{state_of};
ghost use Rattle.rc_image.specs.Images.{Writes};
ghost use Rattle.rc_image.specs.Launches.{ReadsBack, args_with, handed_of, short_entries};

use crate::image_pieces::write_pieces;
use crate::launch_environment::entries;
use crate::launch_sizes::are_short;
use crate::text_copies::{push_copies, push_words};
use crate::{ImageError, ImageFault, InputError};
use rc_scope::State;
use rc_text::Text;
use rc_tree::Cmd;
use std::alloc::{AllocError, Global};

/// The arguments and the entries of a launch.
#[derive(Drop)]
pub struct Handover {
    pub args: Vec<Text>,
    pub entries: Vec<Text>,
}

/// The arguments of a shell whose command is in these words.
fn shell_args(alloc: Global, state: &State, words: Vec<String>) -> Result<Vec<Text>, AllocError>
    ensures { IfOk result (λ args. map text_bytes args.items
        ≡ args_with (map string_bytes words.items) (state_of state.now)) }
{
    let others = state.value("*");
    let count = words.len().saturating_add(others.len());
    let mut args = Vec::with_capacity(alloc, count.saturating_add(2))?;
    if state.strict() {
        args.push(Text::of(alloc, "-e")?)?;
    }
    args.push(Text::of(alloc, "-S")?)?;
    push_words(&mut args, words)?;
    push_copies(&mut args, others)?;
    Ok(args)
}

/// The entries of a state. They are too large if one of them would be too long.
pub fn write_env(alloc: Global, state: &State) -> Result<Vec<Text>, ImageError>
    ensures { Writes (λ all. map text_bytes all.items) result (short_entries (state_of state.now)) }
{
    let entries = entries(alloc, state)?;
    if are_short(&entries) {
        Ok(entries)
    } else {
        Err(InputError::Fault(ImageFault::TooLarge))
    }
}

/// What is handed to a shell that is to run a command in a state. It is too large if an argument or an entry would be
/// too long, or the image would take too many pieces.
pub fn handed(alloc: Global, cmd: &Cmd, state: &State) -> Result<Handover, ImageError>
    ensures written { Writes (λ h. handed_of h) result (handed (cmd_tree cmd.now) (state_of state.now)) }
    // A well-formed command is read back, with the state in which a subshell begins.
    ensures back { IsProperTree (cmd_tree cmd.now) →
        IfOk result (λ h. ReadsBack (cmd_tree cmd.now) (state_of state.now) h) }
{
    let words = write_pieces(alloc, cmd)?;
    let args = shell_args(alloc, state, words)?;
    let entries = entries(alloc, state)?;
    if are_short(&args) && are_short(&entries) {
        Ok(Handover { args, entries })
    } else {
        Err(InputError::Fault(ImageFault::TooLarge))
    }
}
