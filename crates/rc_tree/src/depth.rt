//! The depth of a tree.

ghost use Rattle.std.specs.Prelude.{◌≡◌, nat_le};
ghost use Rattle.rc_model.specs.Syntax.WellFormed.{depth};
ghost use Rattle.rc_tree.specs.View.{cmd_tree, body_tree, arg_tree, redir_tree};
ghost use Rattle.rc_tree.specs.View.{args_tree, items_tree, pairs_tree, redirs_tree};
ghost use Rattle.rc_tree.specs.View.{stages_tree, links_tree, branches_tree};
ghost use Rattle.rc_tree.specs.Levels.{within, within_all};

use crate::types::{Arg, Branch, Cmd, Item, Redir, Stage};
use rc_model::Logic;

/// Whether the tree has at most `levels` levels. It allocates nothing.
#[tactic(auto, unfolding(crate::specs::Levels::within))]
pub fn is_within(cmd: &Cmd, levels: usize) -> bool
    ensures { result ≡ nat_le (depth (cmd_tree cmd.now)) levels }
{
    within_cmd(cmd, levels)
}

/// Whether the command has at most `left` levels.
#[cycle(within)]
#[tactic(auto, using(crate::proofs::Levels::levels))]
fn within_cmd(cmd: &Cmd, left: usize) -> bool
    ensures { result ≡ within (cmd_tree cmd.now) left }
{
    if left == 0 {
        return false;
    }
    let left = left - 1;
    match cmd {
        Cmd::Empty => true,
        Cmd::Seq(items) => within_items(items, left),
        Cmd::Simple(words) => within_args(words, left),
        Cmd::Assign(pairs, body) => within_pairs(pairs, left) && within_body(body, left),
        Cmd::Redirect(redirs, body) => within_redirs(redirs, left) && within_cmd(body, left),
        Cmd::Pipeline(stages, last) => within_stages(stages, left) && within_cmd(last, left),
        Cmd::AndOr(first, links) => within_cmd(first, left) && within_links(links, left),
        Cmd::Not(body) => within_cmd(body, left),
        Cmd::Subshell(body) => within_cmd(body, left),
        Cmd::If(condition, body) => within_cmd(condition, left) && within_cmd(body, left),
        Cmd::IfNot(body) => within_cmd(body, left),
        Cmd::While(condition, body) => within_cmd(condition, left) && within_cmd(body, left),
        Cmd::ForAll(name, body) => within_arg(name, left) && within_cmd(body, left),
        Cmd::For(name, words, body) => within_arg(name, left)
            && within_args(words, left)
            && within_cmd(body, left),
        Cmd::Switch(subject, branches) => within_arg(subject, left)
            && within_branches(branches, left),
        Cmd::Match(subject, patterns) => within_arg(subject, left) && within_args(patterns, left),
        Cmd::Define(names, body) => within_args(names, left) && within_cmd(body, left),
        Cmd::Undefine(names) => within_args(names, left),
        Cmd::Brace(body) => within_cmd(body, left),
    }
}

/// Whether the command under assignments has at most `left` levels. Without one it has the level of an empty command.
#[cycle(within)]
#[tactic(auto, using(crate::proofs::Levels::levels))]
fn within_body(body: &Option<Box<Cmd>>, left: usize) -> bool
    ensures { result ≡ within (body_tree body.now) left }
{
    match body {
        None => left > 0,
        Some(cmd) => within_cmd(cmd, left),
    }
}

#[cycle(within)]
#[tactic(auto, using(crate::proofs::Levels::levels))]
fn within_arg(arg: &Arg, left: usize) -> bool
    ensures { result ≡ within (arg_tree arg.now) left }
{
    if left == 0 {
        return false;
    }
    let left = left - 1;
    match arg {
        Arg::Lit { .. } => true,
        Arg::Concat(parts) => within_args(parts, left),
        Arg::Paren(words) => within_args(words, left),
        Arg::Var(name) => within_arg(name, left),
        Arg::Count(name) => within_arg(name, left),
        Arg::Flat(name) => within_arg(name, left),
        Arg::Sub(name, subscripts) => within_arg(name, left) && within_args(subscripts, left),
        Arg::Back(body) => within_cmd(body, left),
    }
}

#[cycle(within)]
#[tactic(auto, using(crate::proofs::Levels::levels))]
fn within_redir(redir: &Redir, left: usize) -> bool
    ensures { result ≡ within (redir_tree redir.now) left }
{
    match redir {
        Redir::Open { file, .. } => within_arg(file, left),
        Redir::Copy { .. } | Redir::Here(_) => true,
    }
}

#[cycle(within)]
#[tactic(auto, using(crate::proofs::Levels::levels))]
fn within_args(args: &[Arg], left: usize) -> bool
    ensures { result ≡ within_all (args_tree args.now) left }
{
    for arg in args {
        if !within_arg(arg, left) {
            return false;
        }
    }
    true
}

#[cycle(within)]
#[tactic(auto, using(crate::proofs::Levels::levels))]
fn within_items(items: &[Item], left: usize) -> bool
    ensures { result ≡ within_all (items_tree items.now) left }
{
    for item in items {
        if !within_cmd(&item.cmd, left) {
            return false;
        }
    }
    true
}

#[cycle(within)]
#[tactic(auto, using(crate::proofs::Levels::levels))]
fn within_pairs(pairs: &[(Arg, Arg)], left: usize) -> bool
    ensures { result ≡ within_all (pairs_tree pairs.now) left }
{
    for pair in pairs {
        if !(within_arg(&pair.0, left) && within_arg(&pair.1, left)) {
            return false;
        }
    }
    true
}

#[cycle(within)]
#[tactic(auto, using(crate::proofs::Levels::levels))]
fn within_redirs(redirs: &[Redir], left: usize) -> bool
    ensures { result ≡ within_all (redirs_tree redirs.now) left }
{
    for redir in redirs {
        if !within_redir(redir, left) {
            return false;
        }
    }
    true
}

#[cycle(within)]
#[tactic(auto, using(crate::proofs::Levels::levels))]
fn within_stages(stages: &[Stage], left: usize) -> bool
    ensures { result ≡ within_all (stages_tree stages.now) left }
{
    for stage in stages {
        if !within_cmd(&stage.cmd, left) {
            return false;
        }
    }
    true
}

#[cycle(within)]
#[tactic(auto, using(crate::proofs::Levels::levels))]
fn within_links(links: &[(Logic, Cmd)], left: usize) -> bool
    ensures { result ≡ within_all (links_tree links.now) left }
{
    for link in links {
        if !within_cmd(&link.1, left) {
            return false;
        }
    }
    true
}

#[cycle(within)]
#[tactic(auto, using(crate::proofs::Levels::levels))]
fn within_branches(branches: &[Branch], left: usize) -> bool
    ensures { result ≡ within_all (branches_tree branches.now) left }
{
    for branch in branches {
        if !(within_args(&branch.patterns, left) && within_cmd(&branch.body, left)) {
            return false;
        }
    }
    true
}
