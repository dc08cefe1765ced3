//! What a shell hands to another as text: the image of a tree, and the state that arguments and entries denote.
#![tactic(auto)]

mod beginning;
mod cut_entries;
mod escaped_bytes;
mod image_pieces;
mod image_words;
mod kept_entries;
mod launch;
mod launch_environment;
mod launch_sizes;
mod read_environment;
mod read_handed;
mod text_copies;

ghost use Rattle.std.specs.Prelude.{string_bytes};
ghost use Rattle.rc_model.specs.Handed.TreeReading.{read_tree};
ghost use Rattle.rc_tree.specs.View.{cmd_tree};
ghost use Rattle.rc_model.specs.Syntax.Faults.{Gives};
ghost use Rattle.rc_scope.specs.FunctionBodies.{image_tree};
ghost use Rattle.rc_image.specs.Images.{Writes, short_image};

use beginning::{MARK, beginning_fault};
pub use image_pieces::write_pieces;
pub use image_words::read_pieces;
pub use kept_entries::keep_entries;
pub use launch::{Handover, handed, write_env};
pub use launch_environment::entries;
pub use launch_sizes::are_short;
use rc_model::limits::LONGEST_ARGUMENT;
pub use rc_model::{ImageFault, InputError};
pub use rc_spelling::ImageError;
use rc_spelling::{check_spelling, push_spelling, read_spelling};
use rc_tree::Cmd;
pub use read_environment::read_env;
pub use read_handed::{read_image, read_state};
use std::alloc::Global;

/// The image of a tree. It is too large if it would not fit into one argument or entry of a launch.
#[tactic(auto, using(crate::proofs::Lengths::lengths))]
pub fn write_tree(alloc: Global, cmd: &Cmd) -> Result<String, ImageError>
    ensures { Writes (λ text. string_bytes text) result (short_image (cmd_tree cmd.now)) }
{
    let text = push_spelling(String::from_str(alloc, MARK)?, cmd)?;
    if text.len() > LONGEST_ARGUMENT {
        return Err(InputError::Fault(ImageFault::TooLarge));
    }
    Ok(text)
}

/// The tree of an image, in a box.
#[tactic(auto, using(crate::proofs::Beginnings::images))]
fn read_boxed(alloc: Global, text: &str) -> Result<Box<Cmd>, ImageError>
    ensures { Gives (λ c. cmd_tree c.value) result (read_tree text.now) }
{
    let Some(spelling) = text.strip_prefix(MARK) else {
        return Err(InputError::Fault(beginning_fault(text)));
    };
    read_spelling(alloc, spelling.as_bytes())
}

/// Whether an image has a tree, or else its first fault, as `read_tree` finds it. Nothing is allocated if it has one.
#[tactic(auto, using(crate::proofs::Beginnings::images))]
fn check_tree(alloc: Global, text: &str) -> Result<(), ImageError>
    ensures { Gives (λ _. image_tree text.now) result (read_tree text.now) }
{
    let Some(rest) = text.strip_prefix(MARK) else {
        return Err(InputError::Fault(beginning_fault(text)));
    };
    check_spelling(alloc, rest.as_bytes())
}

/// The tree of an image.
#[tactic(auto, using(std::proofs::lemmas::Grind::common_steps))]
pub fn read_tree(alloc: Global, text: &str) -> Result<Cmd, ImageError>
    ensures { Gives (λ c. cmd_tree c) result (read_tree text.now) }
{
    Ok(Box::into_inner(read_boxed(alloc, text)?))
}
