//! Copies of trees. The stages of a pipeline, the body of a function, of a subshell and of a backquote are shared.

ghost use Rattle.std.specs.Prelude.{◌≡◌, IfOk};
ghost use Rattle.rc_model.specs.Syntax.Tree as t;
ghost use Rattle.rc_tree.specs.View.{cmd_tree, body_tree, arg_tree, redir_tree, pieces_tree, args_tree, items_tree};
ghost use Rattle.rc_tree.specs.View.{pairs_tree};
ghost use Rattle.rc_tree.specs.View.{redirs_tree};
ghost use Rattle.rc_tree.specs.View.{stages_tree, links_tree, branches_tree};

use crate::literal_text::LiteralText;
use crate::types::{Arg, Branch, Cmd, Item, Piece, Redir, Stage};
use rc_model::Logic;
use std::alloc::{AllocError, Global};
use std::rc::Rc;

/// Clones the tree, in memory of its own but for the parts that trees share.
#[cycle(clone)]
#[tactic(auto, using(crate::specs::View::tree_nodes))]
pub fn clone_tree(alloc: Global, cmd: &Cmd) -> Result<Cmd, AllocError>
    ensures { IfOk result (λ copy. cmd_tree copy ≡ cmd_tree cmd.now) }
{
    match cmd {
        Cmd::Empty => Ok(Cmd::Empty),
        Cmd::Seq(items) => Ok(Cmd::Seq(clone_items(alloc, items)?)),
        Cmd::Simple(words) => Ok(Cmd::Simple(clone_args(alloc, words)?)),
        Cmd::Assign(pairs, body) => clone_assign(alloc, pairs, body),
        Cmd::Redirect(redirs, body) => clone_redirect(alloc, redirs, body),
        Cmd::Pipeline(stages, last) => clone_pipeline(alloc, stages, last),
        Cmd::AndOr(first, links) => clone_and_or(alloc, first, links),
        Cmd::Not(body) => Ok(Cmd::Not(clone_box(alloc, body)?)),
        Cmd::Subshell(body) => Ok(Cmd::Subshell(body.clone()?)),
        Cmd::If(condition, body) => clone_if(alloc, condition, body),
        Cmd::IfNot(body) => Ok(Cmd::IfNot(clone_box(alloc, body)?)),
        Cmd::While(condition, body) => clone_while(alloc, condition, body),
        Cmd::ForAll(name, body) => clone_for_all(alloc, name, body),
        Cmd::For(name, words, body) => clone_for(alloc, name, words, body),
        Cmd::Switch(subject, branches) => clone_switch(alloc, subject, branches),
        Cmd::Match(subject, patterns) => clone_match(alloc, subject, patterns),
        Cmd::Define(names, body) => clone_define(alloc, names, body),
        Cmd::Undefine(names) => Ok(Cmd::Undefine(clone_args(alloc, names)?)),
        Cmd::Brace(body) => Ok(Cmd::Brace(clone_box(alloc, body)?)),
    }
}

#[cycle(clone)]
fn clone_box(alloc: Global, cmd: &Box<Cmd>) -> Result<Box<Cmd>, AllocError>
    ensures { IfOk result (λ copy. cmd_tree copy.value ≡ cmd_tree cmd.now.value) }
{
    Ok(Box::new(alloc, clone_tree(alloc, cmd)?)?)
}

#[cycle(clone)]
#[tactic(auto, using(crate::specs::View::tree_Assign))]
fn clone_assign(
    alloc: Global,
    pairs: &[(Arg, Arg)],
    body: &Option<Box<Cmd>>,
) -> Result<Cmd, AllocError>
    ensures { IfOk result (λ copy. cmd_tree copy ≡ t.Assign (pairs_tree pairs.now) (body_tree body.now)) }
{
    let pairs = clone_pairs(alloc, pairs)?;
    Ok(Cmd::Assign(pairs, clone_body(alloc, body)?))
}

#[cycle(clone)]
fn clone_body(alloc: Global, body: &Option<Box<Cmd>>) -> Result<Option<Box<Cmd>>, AllocError>
    ensures { IfOk result (λ copy. body_tree copy ≡ body_tree body.now) }
{
    match body {
        None => Ok(None),
        Some(cmd) => Ok(Some(Box::new(alloc, clone_tree(alloc, cmd)?)?)),
    }
}

#[cycle(clone)]
#[tactic(auto, using(crate::specs::View::tree_Redirect))]
fn clone_redirect(alloc: Global, redirs: &[Redir], body: &Box<Cmd>) -> Result<Cmd, AllocError>
    ensures { IfOk result (λ copy. cmd_tree copy ≡ t.Redirect (redirs_tree redirs.now) (cmd_tree body.now.value)) }
{
    Ok(Cmd::Redirect(clone_redirs(alloc, redirs)?, clone_box(alloc, body)?))
}

#[cycle(clone)]
#[tactic(auto, using(crate::specs::View::tree_Pipeline))]
fn clone_pipeline(
    alloc: Global,
    stages: &Rc<Vec<Stage>>,
    last: &Box<Cmd>,
) -> Result<Cmd, AllocError>
    ensures { IfOk result (λ copy. cmd_tree copy
        ≡ t.Pipeline (stages_tree stages.now.value.items) (cmd_tree last.now.value)) }
{
    Ok(Cmd::Pipeline(stages.clone()?, clone_box(alloc, last)?))
}

#[cycle(clone)]
#[tactic(auto, using(crate::specs::View::tree_AndOr))]
fn clone_and_or(alloc: Global, first: &Box<Cmd>, links: &[(Logic, Cmd)]) -> Result<Cmd, AllocError>
    ensures { IfOk result (λ copy. cmd_tree copy ≡ t.AndOr (cmd_tree first.now.value) (links_tree links.now)) }
{
    Ok(Cmd::AndOr(clone_box(alloc, first)?, clone_links(alloc, links)?))
}

#[cycle(clone)]
#[tactic(auto, using(crate::specs::View::tree_If))]
fn clone_if(alloc: Global, condition: &Box<Cmd>, body: &Box<Cmd>) -> Result<Cmd, AllocError>
    ensures { IfOk result (λ copy. cmd_tree copy ≡ t.If (cmd_tree condition.now.value) (cmd_tree body.now.value)) }
{
    Ok(Cmd::If(clone_box(alloc, condition)?, clone_box(alloc, body)?))
}

#[cycle(clone)]
#[tactic(auto, using(crate::specs::View::tree_While))]
fn clone_while(alloc: Global, condition: &Box<Cmd>, body: &Box<Cmd>) -> Result<Cmd, AllocError>
    ensures { IfOk result (λ copy. cmd_tree copy ≡ t.While (cmd_tree condition.now.value) (cmd_tree body.now.value)) }
{
    Ok(Cmd::While(clone_box(alloc, condition)?, clone_box(alloc, body)?))
}

#[cycle(clone)]
#[tactic(auto, using(crate::specs::View::tree_ForAll))]
fn clone_for_all(alloc: Global, name: &Arg, body: &Box<Cmd>) -> Result<Cmd, AllocError>
    ensures { IfOk result (λ copy. cmd_tree copy ≡ t.ForAll (arg_tree name.now) (cmd_tree body.now.value)) }
{
    let body = clone_box(alloc, body)?;
    Ok(Cmd::ForAll(clone_arg(alloc, name)?, body))
}

#[cycle(clone)]
#[tactic(auto, using(crate::specs::View::tree_For))]
fn clone_for(alloc: Global, name: &Arg, words: &[Arg], body: &Box<Cmd>) -> Result<Cmd, AllocError>
    ensures { IfOk result (λ copy. cmd_tree copy
        ≡ t.For (arg_tree name.now) (args_tree words.now) (cmd_tree body.now.value)) }
{
    let words = clone_args(alloc, words)?;
    let body = clone_box(alloc, body)?;
    Ok(Cmd::For(clone_arg(alloc, name)?, words, body))
}

#[cycle(clone)]
#[tactic(auto, using(crate::specs::View::tree_Switch))]
fn clone_switch(alloc: Global, subject: &Arg, branches: &[Branch]) -> Result<Cmd, AllocError>
    ensures { IfOk result (λ copy. cmd_tree copy ≡ t.Switch (arg_tree subject.now) (branches_tree branches.now)) }
{
    let branches = clone_branches(alloc, branches)?;
    Ok(Cmd::Switch(clone_arg(alloc, subject)?, branches))
}

#[tactic(auto, using(crate::specs::View::tree_Match))]
fn clone_match(alloc: Global, subject: &Arg, patterns: &[Arg]) -> Result<Cmd, AllocError>
    ensures { IfOk result (λ copy. cmd_tree copy ≡ t.Match (arg_tree subject.now) (args_tree patterns.now)) }
{
    let patterns = clone_args(alloc, patterns)?;
    Ok(Cmd::Match(clone_arg(alloc, subject)?, patterns))
}

#[tactic(auto, using(crate::specs::View::tree_Define))]
fn clone_define(alloc: Global, names: &[Arg], body: &Rc<Cmd>) -> Result<Cmd, AllocError>
    ensures { IfOk result (λ copy. cmd_tree copy ≡ t.Define (args_tree names.now) (cmd_tree body.now.value)) }
{
    Ok(Cmd::Define(clone_args(alloc, names)?, body.clone()?))
}

#[cycle(arguments)]
#[tactic(auto, using(crate::specs::View::tree_nodes))]
fn clone_arg(alloc: Global, arg: &Arg) -> Result<Arg, AllocError>
    ensures { IfOk result (λ copy. arg_tree copy ≡ arg_tree arg.now) }
{
    match arg {
        Arg::Lit { text, quoted } => Ok(Arg::Lit {
            quoted: *quoted,
            text: LiteralText::of(alloc, text.as_str())?,
        }),
        Arg::Concat(parts) => Ok(Arg::Concat(clone_args(alloc, parts)?)),
        Arg::Paren(words) => Ok(Arg::Paren(clone_args(alloc, words)?)),
        Arg::Var(name) => Ok(Arg::Var(clone_boxed_arg(alloc, name)?)),
        Arg::Count(name) => Ok(Arg::Count(clone_boxed_arg(alloc, name)?)),
        Arg::Flat(name) => Ok(Arg::Flat(clone_boxed_arg(alloc, name)?)),
        Arg::Sub(name, subscripts) => Ok(Arg::Sub(
            clone_boxed_arg(alloc, name)?,
            clone_args(alloc, subscripts)?,
        )),
        Arg::Back(body) => Ok(Arg::Back(body.clone()?)),
    }
}

#[cycle(arguments)]
fn clone_boxed_arg(alloc: Global, arg: &Box<Arg>) -> Result<Box<Arg>, AllocError>
    ensures { IfOk result (λ copy. arg_tree copy.value ≡ arg_tree arg.now.value) }
{
    Ok(Box::new(alloc, clone_arg(alloc, arg)?)?)
}

#[tactic(auto, using(crate::specs::View::tree_nodes))]
fn clone_redir(alloc: Global, redir: &Redir) -> Result<Redir, AllocError>
    ensures { IfOk result (λ copy. redir_tree copy ≡ redir_tree redir.now) }
{
    match redir {
        Redir::Open { mode, slot, file } => Ok(Redir::Open {
            mode: *mode,
            slot: *slot,
            file: clone_arg(alloc, file)?,
        }),
        Redir::Copy { to, from } => Ok(Redir::Copy {
            to: *to,
            from: *from,
        }),
        Redir::Here(pieces) => Ok(Redir::Here(clone_pieces(alloc, pieces)?)),
    }
}

#[cycle(arguments)]
#[tactic(auto, using(crate::specs::View::tree_lists))]
fn clone_args(alloc: Global, args: &[Arg]) -> Result<Vec<Arg>, AllocError>
    ensures { IfOk result (λ copies. args_tree copies.items ≡ args_tree args.now) }
{
    let mut copies = Vec::new(alloc);
    for arg in args {
        copies.push(clone_arg(alloc, arg)?)?;
    }
    Ok(copies)
}

#[cycle(clone)]
#[tactic(auto, using(crate::specs::View::tree_lists))]
fn clone_items(alloc: Global, items: &[Item]) -> Result<Vec<Item>, AllocError>
    ensures { IfOk result (λ copies. items_tree copies.items ≡ items_tree items.now) }
{
    let mut copies = Vec::new(alloc);
    for item in items {
        copies.push(Item {
            cmd: clone_tree(alloc, &item.cmd)?,
            background: item.background,
        })?;
    }
    Ok(copies)
}

#[tactic(auto, using(crate::specs::View::tree_lists))]
fn clone_pairs(alloc: Global, pairs: &[(Arg, Arg)]) -> Result<Vec<(Arg, Arg)>, AllocError>
    ensures { IfOk result (λ copies. pairs_tree copies.items ≡ pairs_tree pairs.now) }
{
    let mut copies = Vec::new(alloc);
    for pair in pairs {
        let name = Box::new(alloc, clone_arg(alloc, &pair.0)?)?;
        let value = clone_arg(alloc, &pair.1)?;
        copies.push((Box::into_inner(name), value))?;
    }
    Ok(copies)
}

#[tactic(auto, using(crate::specs::View::tree_lists))]
fn clone_redirs(alloc: Global, redirs: &[Redir]) -> Result<Vec<Redir>, AllocError>
    ensures { IfOk result (λ copies. redirs_tree copies.items ≡ redirs_tree redirs.now) }
{
    let mut copies = Vec::new(alloc);
    for redir in redirs {
        copies.push(clone_redir(alloc, redir)?)?;
    }
    Ok(copies)
}

#[cycle(clone)]
#[tactic(auto, using(crate::specs::View::tree_lists))]
fn clone_links(alloc: Global, links: &[(Logic, Cmd)]) -> Result<Vec<(Logic, Cmd)>, AllocError>
    ensures { IfOk result (λ copies. links_tree copies.items ≡ links_tree links.now) }
{
    let mut copies = Vec::new(alloc);
    for link in links {
        copies.push((link.0, clone_tree(alloc, &link.1)?))?;
    }
    Ok(copies)
}

#[cycle(clone)]
#[tactic(auto, using(crate::specs::View::tree_lists))]
fn clone_branches(alloc: Global, branches: &[Branch]) -> Result<Vec<Branch>, AllocError>
    ensures { IfOk result (λ copies. branches_tree copies.items ≡ branches_tree branches.now) }
{
    let mut copies = Vec::new(alloc);
    for branch in branches {
        copies.push(Branch {
            patterns: clone_args(alloc, &branch.patterns)?,
            body: clone_box(alloc, &branch.body)?,
        })?;
    }
    Ok(copies)
}

#[tactic(auto, using(crate::specs::View::tree_lists))]
fn clone_pieces(alloc: Global, pieces: &[Piece]) -> Result<Vec<Piece>, AllocError>
    ensures { IfOk result (λ copies. pieces_tree copies.items ≡ pieces_tree pieces.now) }
{
    let mut copies = Vec::new(alloc);
    for piece in pieces {
        copies.push(match piece {
            Piece::Text(text) => Piece::Text(text.clone()?),
            Piece::Name(name) => Piece::Name(name.clone()?),
        })?;
    }
    Ok(copies)
}
