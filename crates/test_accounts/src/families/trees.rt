//! The trees of scripts.

ghost use Rattle.std.specs.Prelude.{IfOk};
ghost use Rattle.rc_model.specs.Handed.Proper.{IsProperTree};
ghost use Rattle.rc_tree.specs.View.{cmd_tree};

use rc_parser::{ScriptError, parse};
use rc_tree::Cmd;
use std::alloc::Global;

/// The tree of a script, in a box: each place that may drop a tree takes long to prove.
#[tactic(auto, using(law_handed::proofs::Characters::accepted_are_scripts))]
pub fn tree_of(alloc: Global, script: &str) -> Result<Box<Cmd>, ScriptError>
    ensures { IfOk result (λ tree. IsProperTree (cmd_tree tree.value)) }
{
    Ok(Box::new(alloc, parse(alloc, script.as_bytes())?)?)
}
