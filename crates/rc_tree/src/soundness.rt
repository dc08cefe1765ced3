//! Which trees are well formed.

ghost use Rattle.std.specs.Prelude.{◌≡◌, IsTrue};
ghost use Rattle.rc_model.specs.Handed.Proper.{IsProperTree};
ghost use Rattle.rc_model.specs.Syntax.Text.{without_zero};
ghost use Rattle.rc_model.specs.Syntax.Tree as t;
ghost use Rattle.rc_model.specs.Syntax.WellFormed.{well_formed, has_stages, is_output, opens, copies, is_sound};
ghost use Rattle.rc_model.specs.Syntax.WellFormed.{are_sound};
ghost use Rattle.rc_tree.specs.View.{cmd_tree, body_tree, arg_tree, redir_tree, pieces_tree};
ghost use Rattle.rc_tree.specs.View.{args_tree, items_tree, pairs_tree, redirs_tree, stages_tree, links_tree};
ghost use Rattle.rc_tree.specs.View.{branches_tree};
ghost use Rattle.rc_tree.specs.Fits.{fits, all_fit};

use crate::types::{Arg, Branch, Cmd, Item, Piece, Redir, Stage};
use rc_model::limits::{MOST_LEVELS, MOST_STAGES};
use rc_model::{Logic, Mode};

/// Whether the tree is well formed. It allocates nothing.
#[tactic(auto, unfolding(crate::specs::Fits::fits))]
pub fn well_formed(cmd: &Cmd) -> bool
    ensures sound { result ≡ well_formed (cmd_tree cmd.now) }
    // Such a tree may be compiled, defined as a function and handed to a shell.
    ensures proper { IsTrue result → IsProperTree (cmd_tree cmd.now) }
{
    fit_cmd(cmd, MOST_LEVELS)
}

/// Whether a pipeline may have this many stages before its last one.
#[tactic(auto, using(crate::proofs::Fitting::fitting))]
fn has_stages(stages: &[Stage]) -> bool
    ensures { result ≡ has_stages (stages_tree stages.now) }
{
    !stages.is_empty() && stages.len() < MOST_STAGES
}

/// Whether the command is well formed with at most `left` levels.
#[cycle(fit)]
#[tactic(auto, using(crate::proofs::Fitting::fitting))]
fn fit_cmd(cmd: &Cmd, left: usize) -> bool
    ensures { result ≡ fits (cmd_tree cmd.now) left }
{
    if left == 0 {
        return false;
    }
    let left = left - 1;
    match cmd {
        Cmd::Empty => true,
        Cmd::Seq(items) => fit_items(items, left),
        Cmd::Simple(words) => !words.is_empty() && fit_args(words, left),
        Cmd::Assign(pairs, body) => !pairs.is_empty()
            && fit_pairs(pairs, left)
            && fit_body(body, left),
        Cmd::Redirect(redirs, body) => !redirs.is_empty()
            && fit_redirs(redirs, left)
            && fit_cmd(body, left),
        Cmd::Pipeline(stages, last) => has_stages(stages)
            && fit_stages(stages, left)
            && fit_cmd(last, left),
        Cmd::AndOr(first, links) => !links.is_empty()
            && fit_cmd(first, left)
            && fit_links(links, left),
        Cmd::Not(body) => fit_cmd(body, left),
        Cmd::Subshell(body) => fit_cmd(body, left),
        Cmd::If(condition, body) => fit_cmd(condition, left) && fit_cmd(body, left),
        Cmd::IfNot(body) => fit_cmd(body, left),
        Cmd::While(condition, body) => fit_cmd(condition, left) && fit_cmd(body, left),
        Cmd::ForAll(name, body) => fit_arg(name, left) && fit_cmd(body, left),
        Cmd::For(name, words, body) => fit_arg(name, left)
            && fit_args(words, left)
            && fit_cmd(body, left),
        Cmd::Switch(subject, branches) => fit_arg(subject, left) && fit_branches(branches, left),
        Cmd::Match(subject, patterns) => fit_arg(subject, left) && fit_args(patterns, left),
        Cmd::Define(names, body) => !names.is_empty()
            && fit_args(names, left)
            && fit_cmd(body, left),
        Cmd::Undefine(names) => !names.is_empty() && fit_args(names, left),
        Cmd::Brace(body) => fit_cmd(body, left),
    }
}

#[cycle(fit)]
#[tactic(auto, using(crate::proofs::Fitting::fitting))]
fn fit_body(body: &Option<Box<Cmd>>, left: usize) -> bool
    ensures { result ≡ fits (body_tree body.now) left }
{
    match body {
        None => left > 0,
        Some(cmd) => fit_cmd(cmd, left),
    }
}

#[cycle(fit)]
#[tactic(auto, using(crate::proofs::Fitting::fitting))]
fn fit_arg(arg: &Arg, left: usize) -> bool
    ensures { result ≡ fits (arg_tree arg.now) left }
{
    if left == 0 {
        return false;
    }
    let left = left - 1;
    match arg {
        Arg::Lit { quoted, text } => is_sound_literal(text.as_str(), *quoted),
        Arg::Concat(parts) => parts.len() > 1 && fit_args(parts, left),
        Arg::Paren(words) => fit_args(words, left),
        Arg::Var(name) => fit_arg(name, left),
        Arg::Count(name) => fit_arg(name, left),
        Arg::Flat(name) => fit_arg(name, left),
        Arg::Sub(name, subscripts) => fit_arg(name, left) && fit_args(subscripts, left),
        Arg::Back(body) => fit_cmd(body, left),
    }
}

#[cycle(fit)]
#[tactic(auto, using(crate::proofs::Fitting::fitting))]
fn fit_redir(redir: &Redir, left: usize) -> bool
    ensures { result ≡ fits (redir_tree redir.now) left }
{
    match redir {
        Redir::Open { mode, slot, file } => opens(*mode, *slot) && fit_arg(file, left),
        Redir::Copy { to, from } => copies(*to, *from),
        Redir::Here(pieces) => fit_pieces(pieces),
    }
}

#[cycle(fit)]
#[tactic(auto, using(crate::proofs::Fitting::fitting))]
fn fit_args(args: &[Arg], left: usize) -> bool
    ensures { result ≡ all_fit (args_tree args.now) left }
{
    for arg in args {
        if !fit_arg(arg, left) {
            return false;
        }
    }
    true
}

#[cycle(fit)]
#[tactic(auto, using(crate::proofs::Fitting::fitting))]
fn fit_items(items: &[Item], left: usize) -> bool
    ensures { result ≡ all_fit (items_tree items.now) left }
{
    for item in items {
        if !fit_cmd(&item.cmd, left) {
            return false;
        }
    }
    true
}

#[cycle(fit)]
#[tactic(auto, using(crate::proofs::Fitting::fitting))]
fn fit_pairs(pairs: &[(Arg, Arg)], left: usize) -> bool
    ensures { result ≡ all_fit (pairs_tree pairs.now) left }
{
    for pair in pairs {
        if !(fit_arg(&pair.0, left) && fit_arg(&pair.1, left)) {
            return false;
        }
    }
    true
}

#[cycle(fit)]
#[tactic(auto, using(crate::proofs::Fitting::fitting))]
fn fit_redirs(redirs: &[Redir], left: usize) -> bool
    ensures { result ≡ all_fit (redirs_tree redirs.now) left }
{
    for redir in redirs {
        if !fit_redir(redir, left) {
            return false;
        }
    }
    true
}

#[cycle(fit)]
#[tactic(auto, using(crate::proofs::Fitting::fitting))]
fn fit_stages(stages: &[Stage], left: usize) -> bool
    ensures { result ≡ all_fit (stages_tree stages.now) left }
{
    for stage in stages {
        if !(is_output(stage.slot) && fit_cmd(&stage.cmd, left)) {
            return false;
        }
    }
    true
}

#[cycle(fit)]
#[tactic(auto, using(crate::proofs::Fitting::fitting))]
fn fit_links(links: &[(Logic, Cmd)], left: usize) -> bool
    ensures { result ≡ all_fit (links_tree links.now) left }
{
    for link in links {
        if !fit_cmd(&link.1, left) {
            return false;
        }
    }
    true
}

#[cycle(fit)]
#[tactic(auto, using(crate::proofs::Fitting::fitting))]
fn fit_branches(branches: &[Branch], left: usize) -> bool
    ensures { result ≡ all_fit (branches_tree branches.now) left }
{
    for branch in branches {
        if !(fit_args(&branch.patterns, left) && fit_cmd(&branch.body, left)) {
            return false;
        }
    }
    true
}

#[tactic(auto, using(crate::proofs::Fitting::fitting))]
fn fit_pieces(pieces: &[Piece]) -> bool
    ensures { result ≡ are_sound (pieces_tree pieces.now) }
{
    for piece in pieces {
        let (Piece::Text(text) | Piece::Name(text)) = piece;
        if !without_zero(text) {
            return false;
        }
    }
    true
}

/// Whether a literal has a text, unless it is quoted, and no byte 0.
#[tactic(auto, using(crate::proofs::Fitting::fitting))]
fn is_sound_literal(text: &str, quoted: bool) -> bool
    ensures { result ≡ is_sound (t.Lit text.now quoted) }
{
    (quoted || !text.is_empty()) && without_zero(text)
}

#[tactic(auto, using(crate::proofs::Fitting::fitting))]
fn without_zero(text: &str) -> bool
    ensures { result ≡ without_zero text.now }
{
    !text.as_bytes().contains(&0)
}

fn opens(mode: Mode, slot: u8) -> bool
    ensures { result ≡ opens mode slot }
{
    match mode {
        Mode::Read => slot == 0,
        Mode::Write | Mode::Append => is_output(slot),
    }
}

fn copies(to: u8, from: u8) -> bool
    ensures { result ≡ copies to from }
{
    (to == 1 && from == 2) || (to == 2 && from == 1)
}

fn is_output(slot: u8) -> bool
    ensures { result ≡ is_output slot }
{
    slot == 1 || slot == 2
}
