//! The nodes of commands, by their shape or by their parts, and names by their shape. What is for several parts is
//! never inlined into the reader, so that a command by value takes no stack at each level.

ghost use Rattle.std.specs.Prelude.{◌≡◌, IfOk};
ghost use Rattle.rc_model.specs.Syntax.Tree as t;
ghost use Rattle.rc_tree.specs.View.{cmd_tree, arg_tree, args_tree, items_tree, pairs_tree, redirs_tree};
ghost use Rattle.rc_tree.specs.View.{stages_tree, links_tree, branches_tree};
ghost use Rattle.rc_spelling.specs.Nodes.{body_node, bodies_node, words_node, name_node};

use crate::shape::{BodiesShape, BodyShape, NameShape, WordsShape};
use rc_model::Logic;
use rc_tree::{Arg, Branch, Cmd, Item, Redir, Stage, shared};
use std::alloc::{AllocError, Global};
use std::rc::Rc;

/// A node that has one command.
#[tactic(auto, using(rc_tree::specs::View::tree_walks), unfolding(crate::specs::Nodes::body_node))]
pub(crate) fn with_body(
    alloc: Global,
    shape: BodyShape,
    body: Box<Cmd>,
) -> Result<Box<Cmd>, AllocError>
    ensures { IfOk result (λ b. cmd_tree b.value ≡ body_node shape (cmd_tree body.value)) }
{
    match shape {
        BodyShape::Not => Ok(Box::new(alloc, Cmd::Not(body))?),
        BodyShape::Subshell => Ok(Box::new(alloc, Cmd::Subshell(shared(alloc, body)?))?),
        BodyShape::IfNot => Ok(Box::new(alloc, Cmd::IfNot(body))?),
        BodyShape::Brace => Ok(Box::new(alloc, Cmd::Brace(body))?),
    }
}

/// A node that has two commands.
#[tactic(auto, using(rc_tree::specs::View::tree_walks), unfolding(crate::specs::Nodes::bodies_node))]
pub(crate) fn with_bodies(
    alloc: Global,
    shape: BodiesShape,
    first: Box<Cmd>,
    second: Box<Cmd>,
) -> Result<Box<Cmd>, AllocError>
    ensures { IfOk result (λ b. cmd_tree b.value ≡ bodies_node shape (cmd_tree first.value) (cmd_tree second.value)) }
{
    match shape {
        BodiesShape::If => Ok(Box::new(alloc, Cmd::If(first, second))?),
        BodiesShape::While => Ok(Box::new(alloc, Cmd::While(first, second))?),
    }
}

/// A node that has arguments.
#[tactic(auto, using(rc_tree::specs::View::tree_walks), unfolding(crate::specs::Nodes::words_node))]
pub(crate) fn with_words(
    alloc: Global,
    shape: WordsShape,
    words: Vec<Arg>,
) -> Result<Box<Cmd>, AllocError>
    ensures { IfOk result (λ b. cmd_tree b.value ≡ words_node shape (args_tree words.items)) }
{
    match shape {
        WordsShape::Simple => Ok(Box::new(alloc, Cmd::Simple(words))?),
        WordsShape::Undefine => Ok(Box::new(alloc, Cmd::Undefine(words))?),
    }
}

/// A node that has the name of a variable.
#[tactic(auto, using(rc_tree::specs::View::tree_walks), unfolding(crate::specs::Nodes::name_node))]
pub(crate) fn with_name(shape: NameShape, name: Box<Arg>) -> Arg
    ensures { arg_tree result ≡ name_node shape (arg_tree name.value) }
{
    match shape {
        NameShape::Var => Arg::Var(name),
        NameShape::Count => Arg::Count(name),
        NameShape::Flat => Arg::Flat(name),
    }
}

/// A sequence.
#[inline(never)]
#[tactic(auto, using(rc_tree::specs::View::tree_Seq, std::proofs::lemmas::Grind::common_steps))]
pub(crate) fn seq(alloc: Global, items: Vec<Item>) -> Result<Box<Cmd>, AllocError>
    ensures { IfOk result (λ b. cmd_tree b.value ≡ t.Seq (items_tree items.items)) }
{
    Ok(Box::new(alloc, Cmd::Seq(items))?)
}

/// Assignments before a command.
#[inline(never)]
#[tactic(auto, using(rc_tree::proofs::Assigned::assignments))]
pub(crate) fn assigned(
    alloc: Global,
    pairs: Vec<(Arg, Arg)>,
    body: Box<Cmd>,
) -> Result<Box<Cmd>, AllocError>
    ensures { IfOk result (λ b. cmd_tree b.value ≡ t.Assign (pairs_tree pairs.items) (cmd_tree body.value)) }
{
    match *body {
        Cmd::Empty => Ok(Box::new(alloc, Cmd::Assign(pairs, None))?),
        _ => Ok(Box::new(alloc, Cmd::Assign(pairs, Some(body)))?),
    }
}

/// Redirections of a command.
#[inline(never)]
#[tactic(auto, using(rc_tree::specs::View::tree_Redirect, std::proofs::lemmas::Grind::common_steps))]
pub(crate) fn redirected(
    alloc: Global,
    redirs: Vec<Redir>,
    body: Box<Cmd>,
) -> Result<Box<Cmd>, AllocError>
    ensures { IfOk result (λ b. cmd_tree b.value ≡ t.Redirect (redirs_tree redirs.items) (cmd_tree body.value)) }
{
    Ok(Box::new(alloc, Cmd::Redirect(redirs, body))?)
}

/// A `for` over `$*`.
#[inline(never)]
#[tactic(auto, using(rc_tree::specs::View::tree_ForAll, std::proofs::lemmas::Grind::common_steps))]
pub(crate) fn for_all(alloc: Global, name: Box<Arg>, body: Box<Cmd>) -> Result<Box<Cmd>, AllocError>
    ensures { IfOk result (λ b. cmd_tree b.value ≡ t.ForAll (arg_tree name.value) (cmd_tree body.value)) }
{
    Ok(Box::new(alloc, Cmd::ForAll(Box::into_inner(name), body))?)
}

/// A `for` over words.
#[inline(never)]
#[tactic(auto, using(rc_tree::specs::View::tree_For, std::proofs::lemmas::Grind::common_steps))]
pub(crate) fn for_each(
    alloc: Global,
    name: Box<Arg>,
    words: Vec<Arg>,
    body: Box<Cmd>,
) -> Result<Box<Cmd>, AllocError>
    ensures { IfOk result (λ b. cmd_tree b.value
        ≡ t.For (arg_tree name.value) (args_tree words.items) (cmd_tree body.value)) }
{
    Ok(Box::new(alloc, Cmd::For(Box::into_inner(name), words, body))?)
}

/// A `switch`.
#[inline(never)]
#[tactic(auto, using(rc_tree::specs::View::tree_Switch, std::proofs::lemmas::Grind::common_steps))]
pub(crate) fn switched(
    alloc: Global,
    subject: Box<Arg>,
    branches: Vec<Branch>,
) -> Result<Box<Cmd>, AllocError>
    ensures { IfOk result (λ b. cmd_tree b.value ≡ t.Switch (arg_tree subject.value) (branches_tree branches.items)) }
{
    Ok(Box::new(alloc, Cmd::Switch(Box::into_inner(subject), branches))?)
}

/// A match.
#[inline(never)]
#[tactic(auto, using(rc_tree::specs::View::tree_Match, std::proofs::lemmas::Grind::common_steps))]
pub(crate) fn matching(
    alloc: Global,
    subject: Box<Arg>,
    patterns: Vec<Arg>,
) -> Result<Box<Cmd>, AllocError>
    ensures { IfOk result (λ b. cmd_tree b.value ≡ t.Match (arg_tree subject.value) (args_tree patterns.items)) }
{
    Ok(Box::new(alloc, Cmd::Match(Box::into_inner(subject), patterns))?)
}

/// The definition of functions.
#[inline(never)]
#[tactic(auto, using(rc_tree::specs::View::tree_Define, std::proofs::lemmas::Grind::common_steps))]
pub(crate) fn defined(
    alloc: Global,
    names: Vec<Arg>,
    body: Box<Cmd>,
) -> Result<Box<Cmd>, AllocError>
    ensures { IfOk result (λ b. cmd_tree b.value ≡ t.Define (args_tree names.items) (cmd_tree body.value)) }
{
    let body = shared(alloc, body)?;
    Ok(Box::new(alloc, Cmd::Define(names, body))?)
}

/// A pipeline.
#[inline(never)]
#[tactic(auto, using(rc_tree::specs::View::tree_Pipeline, std::proofs::lemmas::Grind::common_steps))]
pub(crate) fn pipeline(
    alloc: Global,
    stages: Vec<Stage>,
    last: Box<Cmd>,
) -> Result<Box<Cmd>, AllocError>
    ensures { IfOk result (λ b. cmd_tree b.value ≡ t.Pipeline (stages_tree stages.items) (cmd_tree last.value)) }
{
    let stages = Rc::new(alloc, stages)?;
    Ok(Box::new(alloc, Cmd::Pipeline(stages, last))?)
}

/// Operands of `&&` and `||`.
#[inline(never)]
#[tactic(auto, using(rc_tree::specs::View::tree_AndOr, std::proofs::lemmas::Grind::common_steps))]
pub(crate) fn and_or(
    alloc: Global,
    first: Box<Cmd>,
    links: Vec<(Logic, Cmd)>,
) -> Result<Box<Cmd>, AllocError>
    ensures { IfOk result (λ b. cmd_tree b.value ≡ t.AndOr (cmd_tree first.value) (links_tree links.items)) }
{
    Ok(Box::new(alloc, Cmd::AndOr(first, links))?)
}
