//! Reads the spelling of a tree.

ghost use Rattle.rc_model.specs.Handed.TreeReading.{read_spelling};
ghost use Rattle.rc_tree.specs.View.{cmd_tree};
ghost use Rattle.rc_model.specs.Syntax.Faults.{Gives};

use crate::image_error::ImageError;
use crate::node_reader::read_cmd;
use rc_model::limits::MOST_LEVELS;
use rc_model::{ImageFault, InputError};
use rc_tree::Cmd;
use std::alloc::Global;

/// The tree of a spelling, which nothing follows, in a box.
#[tactic(auto, using(std::proofs::lemmas::Grind::common_steps))]
pub fn read_spelling(alloc: Global, bytes: &[u8]) -> Result<Box<Cmd>, ImageError>
    ensures { Gives (λ c. cmd_tree c.value) result (read_spelling bytes.now) }
{
    let (cmd, rest) = read_cmd(alloc, MOST_LEVELS, bytes)?;
    if !rest.is_empty() {
        return Err(InputError::Fault(ImageFault::Trailing));
    }
    Ok(cmd)
}
