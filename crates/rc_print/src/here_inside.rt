//! Whether there is a here document inside a tree.

ghost use Rattle.std.specs.Prelude.{◌≡◌};
ghost use Rattle.rc_model.specs.Syntax.Printing.{has_here, have_here};
ghost use Rattle.rc_tree.specs.View.{cmd_tree, body_tree, arg_tree, redir_tree};
ghost use Rattle.rc_tree.specs.View.{args_tree, items_tree, pairs_tree, redirs_tree, stages_tree, links_tree};
ghost use Rattle.rc_tree.specs.View.{branches_tree};

use rc_model::Logic;
use rc_tree::{Arg, Branch, Cmd, Item, Redir, Stage};

/// Whether there is a here document inside.
#[cycle(here)]
#[tactic(auto, using(rc_tree::specs::View::tree_walks))]
pub(crate) fn has_here(cmd: &Cmd) -> bool
    ensures { result ≡ has_here (cmd_tree cmd.now) }
{
    match cmd {
        Cmd::Empty => false,
        Cmd::Seq(items) => have_here_items(items),
        Cmd::Simple(words) => have_here_args(words),
        Cmd::Assign(pairs, body) => have_here_pairs(pairs) || has_here_body(body),
        Cmd::Redirect(redirs, body) => have_here_redirs(redirs) || has_here(body),
        Cmd::Pipeline(stages, last) => have_here_stages(stages) || has_here(last),
        Cmd::AndOr(first, links) => has_here(first) || have_here_links(links),
        Cmd::Not(body) => has_here(body),
        Cmd::Subshell(body) => has_here(body),
        Cmd::If(condition, body) => has_here(condition) || has_here(body),
        Cmd::IfNot(body) => has_here(body),
        Cmd::While(condition, body) => has_here(condition) || has_here(body),
        Cmd::ForAll(name, body) => has_here_arg(name) || has_here(body),
        Cmd::For(name, words, body) => has_here_arg(name)
            || have_here_args(words)
            || has_here(body),
        Cmd::Switch(subject, branches) => has_here_arg(subject) || have_here_branches(branches),
        Cmd::Match(subject, patterns) => has_here_arg(subject) || have_here_args(patterns),
        Cmd::Define(names, body) => have_here_args(names) || has_here(body),
        Cmd::Undefine(names) => have_here_args(names),
        Cmd::Brace(body) => has_here(body),
    }
}

#[cycle(here)]
#[tactic(auto, using(rc_tree::specs::View::tree_walks))]
fn has_here_body(body: &Option<Box<Cmd>>) -> bool
    ensures { result ≡ has_here (body_tree body.now) }
{
    match body {
        None => false,
        Some(cmd) => has_here(cmd),
    }
}

#[cycle(here)]
#[tactic(auto, using(rc_tree::specs::View::tree_walks))]
fn has_here_arg(arg: &Arg) -> bool
    ensures { result ≡ has_here (arg_tree arg.now) }
{
    match arg {
        Arg::Lit { .. } => false,
        Arg::Concat(parts) => have_here_args(parts),
        Arg::Paren(words) => have_here_args(words),
        Arg::Var(name) => has_here_arg(name),
        Arg::Count(name) => has_here_arg(name),
        Arg::Flat(name) => has_here_arg(name),
        Arg::Sub(name, subscripts) => has_here_arg(name) || have_here_args(subscripts),
        Arg::Back(body) => has_here(body),
    }
}

#[cycle(here)]
#[tactic(auto, using(rc_tree::specs::View::tree_walks))]
fn has_here_redir(redir: &Redir) -> bool
    ensures { result ≡ has_here (redir_tree redir.now) }
{
    match redir {
        Redir::Open { file, .. } => has_here_arg(file),
        Redir::Copy { .. } => false,
        Redir::Here(_) => true,
    }
}

#[cycle(here)]
#[tactic(auto, using(rc_tree::specs::View::tree_walks))]
fn have_here_args(args: &[Arg]) -> bool
    ensures { result ≡ have_here (args_tree args.now) }
{
    for arg in args {
        if has_here_arg(arg) {
            return true;
        }
    }
    false
}

#[cycle(here)]
#[tactic(auto, using(rc_tree::specs::View::tree_walks))]
fn have_here_items(items: &[Item]) -> bool
    ensures { result ≡ have_here (items_tree items.now) }
{
    for item in items {
        if has_here(&item.cmd) {
            return true;
        }
    }
    false
}

#[cycle(here)]
#[tactic(auto, using(rc_tree::specs::View::tree_walks))]
fn have_here_pairs(pairs: &[(Arg, Arg)]) -> bool
    ensures { result ≡ have_here (pairs_tree pairs.now) }
{
    for pair in pairs {
        if has_here_arg(&pair.0) || has_here_arg(&pair.1) {
            return true;
        }
    }
    false
}

#[cycle(here)]
#[tactic(auto, using(rc_tree::specs::View::tree_walks))]
fn have_here_redirs(redirs: &[Redir]) -> bool
    ensures { result ≡ have_here (redirs_tree redirs.now) }
{
    for redir in redirs {
        if has_here_redir(redir) {
            return true;
        }
    }
    false
}

#[cycle(here)]
#[tactic(auto, using(rc_tree::specs::View::tree_walks))]
fn have_here_stages(stages: &[Stage]) -> bool
    ensures { result ≡ have_here (stages_tree stages.now) }
{
    for stage in stages {
        if has_here(&stage.cmd) {
            return true;
        }
    }
    false
}

#[cycle(here)]
#[tactic(auto, using(rc_tree::specs::View::tree_walks))]
fn have_here_links(links: &[(Logic, Cmd)]) -> bool
    ensures { result ≡ have_here (links_tree links.now) }
{
    for link in links {
        if has_here(&link.1) {
            return true;
        }
    }
    false
}

#[cycle(here)]
#[tactic(auto, using(rc_tree::specs::View::tree_walks))]
fn have_here_branches(branches: &[Branch]) -> bool
    ensures { result ≡ have_here (branches_tree branches.now) }
{
    for branch in branches {
        if have_here_args(&branch.patterns) || has_here(&branch.body) {
            return true;
        }
    }
    false
}
