//! Nodes of several parts, or of one that stands alone, and one more assignment in a list.

ghost use Rattle.std.specs.Prelude.{◌≡◌, suc, nat_lt, not, ◌&&◌, IfOk, OnOk};
ghost use Rattle.rc_model.specs.Syntax.Tree.{count, more, none, snoc};
ghost use Rattle.rc_model.specs.Syntax.Tree as t;
ghost use Rattle.rc_model.specs.Syntax.Grammar.{concat_of, redirect, and_or, is_if};
ghost use Rattle.rc_model.specs.Mirrors.Descent.{pipeline_of};
ghost use Rattle.rc_model.specs.declared.limits.TheConstants.{MOST_STAGES};
ghost use Rattle.rc_tree.specs.View.{cmd_tree, arg_tree, args_tree, pairs_tree};
ghost use Rattle.rc_tree.specs.View.{redirs_tree, stages_tree, links_tree};

use rc_model::Logic;
use rc_model::limits::MOST_STAGES;
use rc_tree::{Arg, Cmd, Redir, Stage};
use std::alloc::{AllocError, Global};
use std::rc::Rc;

/// One part stands alone, and several are joined. It is never inlined into the descent, so that its locals take no
/// stack at each level of nesting.
#[inline(never)]
#[tactic(auto, using(crate::proofs::Joined::concats))]
pub(crate) fn concat(first: Arg, mut others: Vec<Arg>) -> Result<Arg, AllocError>
    ensures { IfOk result (λ a. arg_tree a ≡ concat_of (arg_tree first) (args_tree others.items)) }
{
    if others.len() == 0 {
        return Ok(first);
    }
    others.insert(0, first)?;
    Ok(Arg::Concat(others))
}

/// The list of a command that begins with this argument, with room for as many as most commands have.
pub(crate) fn list_of(alloc: Global, first: Arg) -> Result<Vec<Arg>, AllocError>
    ensures { IfOk result (λ v. args_tree v.items ≡ more (arg_tree first) none) }
{
    let mut words = Vec::with_capacity(alloc, 4)?;
    words.push(first)?;
    Ok(words)
}

/// A command with the redirections after it.
#[tactic(auto, using(crate::proofs::Joined::redirects))]
pub(crate) fn redirect(
    alloc: Global,
    redirs: Vec<Redir>,
    body: Box<Cmd>,
) -> Result<Box<Cmd>, AllocError>
    ensures { IfOk result (λ b. cmd_tree b.value ≡ redirect (redirs_tree redirs.items) (cmd_tree body.value)) }
{
    if redirs.len() == 0 {
        return Ok(body);
    }
    Ok(Box::new(alloc, Cmd::Redirect(redirs, body))?)
}

/// A pipeline of stages before a last one.
#[tactic(auto, using(crate::proofs::Joined::pipelines))]
pub(crate) fn pipeline(
    alloc: Global,
    stages: Vec<Stage>,
    last: Box<Cmd>,
) -> Result<Box<Cmd>, AllocError>
    ensures { IfOk result (λ b. cmd_tree b.value ≡ pipeline_of (stages_tree stages.items) (cmd_tree last.value)) }
{
    if stages.len() == 0 {
        return Ok(last);
    }
    let stages = Rc::new(alloc, stages)?;
    Ok(Box::new(alloc, Cmd::Pipeline(stages, last))?)
}

/// Whether a bar may follow these stages and the one after them.
#[tactic(auto, using(rc_tree::proofs::Numbers::count_nodes))]
pub(crate) fn allows_stage(stages: &[Stage]) -> bool
    ensures { result ≡ nat_lt (suc (count (stages_tree stages.now))) MOST_STAGES }
{
    stages.len() < MOST_STAGES - 1
}

/// A command of one operand or several.
#[tactic(auto, using(crate::proofs::Joined::conditionals))]
pub(crate) fn and_or(
    alloc: Global,
    first: Box<Cmd>,
    links: Vec<(Logic, Cmd)>,
) -> Result<Box<Cmd>, AllocError>
    ensures { IfOk result (λ b. cmd_tree b.value ≡ and_or (cmd_tree first.value) (links_tree links.items)) }
{
    if links.len() == 0 {
        return Ok(first);
    }
    Ok(Box::new(alloc, Cmd::AndOr(first, links))?)
}

/// Whether an `if not` may follow an item: its command is an `if` or an `if not`, and no `&` ends it.
pub(crate) fn allows_if_not(background: bool, cmd: &Cmd) -> bool
    ensures { result ≡ (not background && is_if (cmd_tree cmd.now)) }
{
    !background && is_if(cmd)
}

/// Whether a command is an `if` or an `if not`.
#[tactic(auto, using(rc_tree::specs::View::tree_nodes))]
fn is_if(cmd: &Cmd) -> bool
    ensures { result ≡ is_if (cmd_tree cmd.now) }
{
    match cmd {
        Cmd::If(_, _) | Cmd::IfNot(_) => true,
        Cmd::Empty
        | Cmd::Seq(_)
        | Cmd::Simple(_)
        | Cmd::Assign(_, _)
        | Cmd::Redirect(_, _)
        | Cmd::Pipeline(_, _)
        | Cmd::AndOr(_, _)
        | Cmd::Not(_)
        | Cmd::Subshell(_)
        | Cmd::While(_, _)
        | Cmd::ForAll(_, _)
        | Cmd::For(_, _, _)
        | Cmd::Switch(_, _)
        | Cmd::Match(_, _)
        | Cmd::Define(_, _)
        | Cmd::Undefine(_)
        | Cmd::Brace(_) => false,
    }
}

/// One more assignment. It is never inlined into the descent, so that its parts take no stack at each level of nesting.
#[inline(never)]
#[tactic(auto, using(rc_tree::specs::View::tree_lists))]
pub(crate) fn push_pair(
    pairs: &mut Vec<(Arg, Arg)>,
    name: Arg,
    value: Arg,
) -> Result<(), AllocError>
    ensures { OnOk result (pairs_tree pairs.new.items
        ≡ snoc (pairs_tree pairs.old.items) (t.Pair (arg_tree name) (arg_tree value))) }
{
    Ok(pairs.push((name, value))?)
}
