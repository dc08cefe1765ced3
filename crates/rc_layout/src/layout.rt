//! The layout of a script, which has the tree of the script.

ghost use Rattle.std.specs.Prelude.{IfOk, IfErr, IsTrue, string_bytes};
ghost use Rattle.rc_model.specs.Handed.Proper.{IsProperTree};
ghost use Rattle.rc_model.specs.Syntax.Accepted.{IsAccepted};
ghost use Rattle.rc_tree.specs.View.{cmd_tree};
ghost use Rattle.rc_layout.specs.Layout.{HasTheTreeOf, Hinders};

use crate::arrangement::arranged;
use crate::same_tree::are_same;
use rc_model::limits::LONGEST_SCRIPT;
use rc_model::{InputError, SyntaxFault};
use rc_parser::parse;
use rc_tree::Cmd;
use std::alloc::{AllocError, Global};
use thiserror::Error;

/// Why a script has no layout.
#[derive(Clone, Copy, Debug, Error)]
pub enum LayoutFault {
    /// The script is not accepted.
    #[error("{0}")]
    Refused(SyntaxFault),
    /// The text that was found has another tree.
    #[error("the layout has another tree")]
    Unlike,
    /// The layout is longer than a script may be.
    #[error("the layout is too long")]
    TooLong,
}

/// Why there is no layout: a fault, or memory ran out.
pub type LayoutError = InputError<LayoutFault>;

/// The layout of a script.
pub fn laid_out(alloc: Global, script: &[u8]) -> Result<String, LayoutError>
    ensures text { IfOk result (λ text. HasTheTreeOf script.now (string_bytes text)) }
    ensures hindered { IfErr result (Hinders script.now) }
{
    let tree = match parse(alloc, script) {
        Ok(tree) => tree,
        Err(InputError::Fault(fault)) => return Err(InputError::Fault(LayoutFault::Refused(fault))),
        Err(InputError::NoMemory) => return Err(InputError::NoMemory),
    };
    let layout = arranged(alloc, script)?;
    if layout.len() > LONGEST_SCRIPT {
        return Err(InputError::Fault(LayoutFault::TooLong));
    }
    if !has_tree(alloc, &layout, &tree)? {
        return Err(InputError::Fault(LayoutFault::Unlike));
    }
    match String::from_utf8(layout) {
        Ok(text) => Ok(text),
        Err(_) => Err(InputError::Fault(LayoutFault::Unlike)),
    }
}

/// Whether a text is accepted and has this tree.
fn has_tree(alloc: Global, text: &[u8], tree: &Cmd) -> Result<bool, AllocError>
    requires { IsProperTree (cmd_tree tree.now) }
    ensures { IfOk result (λ has. IsTrue has → IsAccepted text.now (cmd_tree tree.now)) }
{
    match parse(alloc, text) {
        Ok(other) => are_same(alloc, tree, &other),
        Err(InputError::Fault(_)) => Ok(false),
        Err(InputError::NoMemory) => Err(AllocError),
    }
}
