//! Whether two trees are the same: whether they are spelled so.

ghost use Rattle.std.specs.Prelude.{◌≡◌, ◌≤◌, length, IfOk, IsTrue, string_bytes};
ghost use Rattle.rc_model.specs.Handed.Image.{node_image};
ghost use Rattle.rc_model.specs.Handed.Proper.{IsProperTree};
ghost use Rattle.rc_model.specs.Run.Numbers.{greatest_number};
ghost use Rattle.rc_tree.specs.View.{cmd_tree};

use rc_model::limits::GREATEST_NUMBER;
use rc_spelling::push_spelling;
use rc_tree::Cmd;
use std::alloc::{AllocError, Global};

/// Whether two trees are the same. Those with spellings of over 4 GB count as different.
pub(crate) fn are_same(alloc: Global, first: &Cmd, second: &Cmd) -> Result<bool, AllocError>
    requires first { IsProperTree (cmd_tree first.now) }
    requires second { IsProperTree (cmd_tree second.now) }
    ensures { IfOk result (λ same. IsTrue same → cmd_tree first.now ≡ cmd_tree second.now) }
{
    let first_text = spelling(alloc, first)?;
    let second_text = spelling(alloc, second)?;
    Ok(agree(first_text.as_str(), second_text.as_str()))
}

/// The spelling of a tree.
fn spelling(alloc: Global, tree: &Cmd) -> Result<String, AllocError>
    ensures { IfOk result (λ text. string_bytes text ≡ node_image (cmd_tree tree.now)) }
{
    push_spelling(String::new(alloc), tree)
}

/// Whether two texts are the same, and short enough for the numbers of a spelling.
fn agree(first: &str, second: &str) -> bool
    ensures same { IsTrue result → first.now ≡ second.now }
    ensures short { IsTrue result → length first.now ≤ greatest_number }
{
    first.len() <= GREATEST_NUMBER && first == second
}
