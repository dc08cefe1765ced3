//! The tree of the tokens of a script.

ghost use Rattle.std.specs.Prelude.{◌≡◌, ◌<◌, ◌⊎◌, IfOk};
ghost use Rattle.rc_model.specs.Syntax.Tree.{Node, cmd};
ghost use Rattle.rc_model.specs.Syntax.WellFormed.{depth, most_stages};
ghost use Rattle.rc_model.specs.Syntax.Grammar.{HaveTree, HaveAcceptedTree};
ghost use Rattle.rc_model.specs.Mirrors.Descent.{script_tree};
ghost use Rattle.rc_model.specs.declared.limits.TheConstants.{MOST_STAGES};
ghost use Rattle.rc_tree.specs.View.{cmd_tree};
ghost use Rattle.rc_parser.specs.Tokens.{lexemes_of};
ghost use Rattle.rc_parser.specs.Results.{Gives, HasFault};

use crate::descent::command_lists::parse_list;
use crate::token_stream::Tokens;
use crate::token_stream::token_faults::{TokenError, fault_at};
use rc_model::DescentFault;
use rc_model::limits::MOST_LEVELS;
use rc_tree::{Cmd, is_within};
use std::alloc::Global;

/// The tree of these tokens.
pub fn script(alloc: Global, tokens: Tokens<'_>) -> Result<Cmd, TokenError>
    // It is what the descent finds, or the fault where that stops.
    ensures descent { Gives (λ c. cmd_tree c) result (script_tree MOST_LEVELS (lexemes_of tokens.entry)) }
    // The result is the tree of an accepted script.
    ensures found { IfOk result (λ c. HaveAcceptedTree (lexemes_of tokens.entry) (cmd_tree c)) }
    // It has no other tree.
    ensures only { IfOk result (λ c. (other : Node cmd) →
        HaveTree (lexemes_of tokens.entry) other → other ≡ cmd_tree c) }
    // If a token is unexpected or an `if not` misplaced, there is no tree of any size.
    ensures none { HasFault result DescentFault.Unexpected ⊎ HasFault result DescentFault.IfNot →
        (tree : Node cmd) → HaveTree (lexemes_of tokens.entry) tree → ⊥ }
    // Too many stages are found only if a pipeline has them.
    ensures stages { HasFault result DescentFault.TooManyStages →
        (tree : Node cmd) → HaveTree (lexemes_of tokens.entry) tree → MOST_STAGES < most_stages tree }
    // Too many levels are found only if the tree has them.
    ensures levels { HasFault result DescentFault.TooDeep →
        (tree : Node cmd) → HaveTree (lexemes_of tokens.entry) tree → MOST_LEVELS < depth tree }
{
    parse_script(alloc, tokens)
}

/// The tree that the descent finds.
#[tactic(auto, using(crate::proofs::Scripts::scripts))]
fn parse_script(alloc: Global, tokens: Tokens<'_>) -> Result<Cmd, TokenError>
    ensures { Gives (λ c. cmd_tree c) result (script_tree MOST_LEVELS (lexemes_of tokens.entry)) }
{
    let (items, rest) = parse_list(alloc, MOST_LEVELS, false, tokens)?;
    if rest.len() != 0 {
        return Err(fault_at(DescentFault::Unexpected, rest));
    }
    let tree = Box::new(alloc, Cmd::Seq(items))?;
    if !is_within(&tree, MOST_LEVELS) {
        return Err(fault_at(DescentFault::TooDeep, rest));
    }
    Ok(Box::into_inner(tree))
}
