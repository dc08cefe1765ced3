//! The empty command.

ghost use Rattle.std.specs.Prelude.{◌≡◌};
ghost use Rattle.rc_model.specs.Syntax.Tree.{is_empty};
ghost use Rattle.rc_tree.specs.View.{cmd_tree};

use crate::types::Cmd;

/// Whether it is the empty command.
#[tactic(auto, using(crate::specs::View::tree_walks))]
pub fn is_empty(cmd: &Cmd) -> bool
    ensures { result ≡ is_empty (cmd_tree cmd.now) }
{
    matches!(cmd, Cmd::Empty)
}
