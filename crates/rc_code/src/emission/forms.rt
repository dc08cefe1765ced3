//! The code of a command apart from that of its parts.

ghost use Rattle.std.specs.Prelude.{◌≡◌};
ghost use Rattle.rc_model.specs.Syntax.Tree.{has_no_items, guards};
ghost use Rattle.rc_tree.specs.View.{cmd_tree, links_tree};

use rc_tree::{Cmd, Logic};

/// Whether an operand of `&&` and `||` is guarded, given the links after it.
#[tactic(auto, using(crate::proofs::OtherForms::guarding))]
pub(crate) fn guards(links: &[(Logic, Cmd)], guarded: bool) -> bool
    ensures { result ≡ guards (links_tree links.now) guarded }
{
    guarded || !links.is_empty()
}

/// Whether it is a sequence with no items.
#[tactic(auto, using(crate::proofs::OtherForms::listed, rc_tree::specs::View::tree_walks))]
pub(crate) fn has_no_items(cmd: &Cmd) -> bool
    ensures { result ≡ has_no_items (cmd_tree cmd.now) }
{
    match cmd {
        Cmd::Seq(items) => items.is_empty(),
        _ => false,
    }
}
