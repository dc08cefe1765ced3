//! The trees, stages and pieces that are kept beside the code. What can be shared with the tree is not copied.

ghost use Rattle.std.specs.Prelude.{◌≡◌, IfOk};
ghost use Rattle.rc_model.specs.Code.Layout as model;
ghost use Rattle.rc_tree.specs.View.{cmd_tree, stages_tree, pieces_tree};
ghost use Rattle.rc_code.specs.Listings.{kept_of};

use crate::code::Kept;
use rc_tree::{Cmd, Piece, Stage, clone_tree};
use std::alloc::{AllocError, Global};
use std::rc::Rc;

/// A copy of a tree, which the code shares with its users.
pub(crate) fn kept_tree(alloc: Global, tree: &Cmd) -> Result<Kept, AllocError>
    ensures { IfOk result (λ kept. kept_of kept ≡ model.KeptTree (cmd_tree tree.now)) }
{
    Ok(Kept::Tree(Rc::new(alloc, clone_tree(alloc, tree)?)?))
}

/// A part of the tree that is compiled, which the code shares with it.
pub(crate) fn kept_part(part: &Rc<Cmd>) -> Result<Kept, AllocError>
    ensures { IfOk result (λ kept. kept_of kept ≡ model.KeptTree (cmd_tree part.now.value)) }
{
    Ok(Kept::Tree(part.clone()?))
}

/// The stages of a pipeline before its last one, which the code shares with the tree.
pub(crate) fn kept_stages(stages: &Rc<Vec<Stage>>) -> Result<Kept, AllocError>
    ensures { IfOk result (λ kept. kept_of kept ≡ model.KeptStages (stages_tree stages.now.value.items)) }
{
    Ok(Kept::Stages(stages.clone()?))
}

/// The pieces of a here document.
#[tactic(auto, using(rc_tree::specs::View::tree_lists))]
pub(crate) fn kept_pieces(alloc: Global, pieces: &[Piece]) -> Result<Kept, AllocError>
    ensures { IfOk result (λ kept. kept_of kept ≡ model.KeptPieces (pieces_tree pieces.now)) }
{
    let mut copies = Vec::new(alloc);
    for piece in pieces {
        copies.push(match piece {
            Piece::Text(text) => Piece::Text(text.clone()?),
            Piece::Name(name) => Piece::Name(name.clone()?),
        })?;
    }
    Ok(Kept::Pieces(copies))
}
