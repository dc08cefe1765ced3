//! The bodies of functions.

ghost use Rattle.std.specs.Prelude.{◌≡◌, IfOk, Ok};
ghost use Rattle.rc_model.specs.Handed.TreeReading.{read_spelling};
ghost use Rattle.rc_tree.specs.View.{cmd_tree};
ghost use Rattle.rc_scope.specs.FunctionBodies.{IsBody, IsImage, body_tree, image_tree};
ghost use Rattle.rc_scope.specs.KeptEntries.{kept_text};

use crate::kept_entries::KeptEntry;
use rc_model::InputError;
use rc_spelling::read_spelling;
use rc_tree::{Cmd, shared};
use std::alloc::{AllocError, Global};
use std::rc::Rc;

/// The body of a function.
pub enum Body {
    /// Its tree.
    Tree(Rc<Cmd>),
    /// An entry of an environment, with an image that has a tree. None is made until it is needed.
    Image(KeptEntry),
}

impl Drop for Body {
    fn drop(self) {
        match self {
            Body::Tree(_) => (),
            Body::Image(_) => (),
        }
    }
}

/// What follows the mark of an image.
#[tactic(auto, using(crate::proofs::Images::places))]
fn spelling(kept: &KeptEntry) -> &[u8]
    requires { IsImage kept.now }
    ensures { read_spelling result.now ≡ Ok (image_tree (kept_text kept.now)) }
{
    let (_, image) = kept.entry.as_str().as_bytes().split_at(kept.start);
    let (_, spelling) = image.split_at("rc1;".len());
    spelling
}

/// The tree of an image that has one.
#[tactic(auto, using(std::proofs::lemmas::Grind::common_steps))]
fn read_image(alloc: Global, kept: &KeptEntry) -> Result<Box<Cmd>, AllocError>
    requires { IsImage kept.now }
    ensures { IfOk result (λ tree. cmd_tree tree.value ≡ image_tree (kept_text kept.now)) }
{
    match read_spelling(alloc, spelling(kept)) {
        Ok(tree) => Ok(tree),
        Err(InputError::NoMemory) => Err(AllocError),
        Err(InputError::Fault(_)) => unreachable!(),
    }
}

impl Body {
    /// The tree, which is made now if there is none yet.
    pub(crate) fn tree(&self, alloc: Global) -> Result<Rc<Cmd>, AllocError>
        requires { IsBody self.now }
        ensures { IfOk result (λ tree. cmd_tree tree.value ≡ body_tree self.now) }
    {
        match self {
            Body::Tree(tree) => tree.clone(),
            Body::Image(kept) => shared(alloc, read_image(alloc, kept)?),
        }
    }

    /// A body with the same tree, or the same image.
    #[tactic(auto, using(crate::proofs::Images::copies))]
    pub(crate) fn copy(&self) -> Result<Body, AllocError>
        ensures { IfOk result (λ copy. (body_tree copy ≡ body_tree self.now) × (IsBody self.now → IsBody copy)) }
    {
        match self {
            Body::Tree(tree) => Ok(Body::Tree(tree.clone()?)),
            Body::Image(kept) => Ok(Body::Image(kept.copy()?)),
        }
    }
}
