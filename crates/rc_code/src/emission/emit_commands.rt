//! The code of commands.

ghost use Rattle.std.specs.Prelude.{◌≡◌, ◌+◌, IfOk, OnOk, length};
ghost use Rattle.rc_model.specs.Syntax.Tree as tree;
ghost use Rattle.rc_model.specs.Code.Layout.{Past, IfNot, cmd_code, items_code, branches_code};
ghost use Rattle.rc_tree.specs.View.{cmd_tree, body_tree, arg_tree, pairs_tree, redirs_tree, items_tree};
ghost use Rattle.rc_tree.specs.View.{stages_tree, links_tree, branch_tree, branches_tree};
ghost use Rattle.rc_code.specs.Listings.{listing_of};
ghost use Rattle.rc_code.specs.Writing.{Writes};
ghost use Rattle.rc_code.specs.Emission.{test_code, turns_code, branch_to};

use crate::code::Op;
use crate::emission::emit_args::emit_list;
use crate::emission::emit_plain::{
    emit_define, emit_match, emit_members, emit_pairs, emit_redirs, emit_simple, emit_star,
    emit_subject, emit_subshell, emit_undefine, emit_unlocal,
};
use crate::emission::forms::{guards, has_no_items};
use crate::emission::kept::{kept_stages, kept_tree};
use crate::instruction_numbers::in_32_bits;
use crate::listing::Listing;
use crate::pipelines::Pipeline;
use rc_tree::{Arg, Branch, Cmd, Item, Logic, Redir, Stage, is_empty};
use std::alloc::{AllocError, Global};
use std::rc::Rc;

#[cycle(emit)]
#[tactic(auto, using(crate::proofs::Parts::emitting))]
pub(crate) fn emit_cmd(
    alloc: Global,
    code: &mut Listing,
    cmd: &Cmd,
    guarded: bool,
) -> Result<(), AllocError>
    ensures { OnOk result (Writes code.old code.new (cmd_code (cmd_tree cmd.now) guarded)) }
{
    match cmd {
        Cmd::Empty => Ok(()),
        Cmd::Seq(items) => emit_items(alloc, code, items, guarded),
        Cmd::Simple(words) => emit_simple(alloc, code, words, guarded),
        Cmd::Assign(pairs, body) => emit_assign(alloc, code, pairs, body, guarded),
        Cmd::Redirect(redirs, body) => emit_redirect(alloc, code, redirs, body, guarded),
        Cmd::Pipeline(stages, last) => emit_pipeline(alloc, code, stages, last, guarded),
        Cmd::AndOr(first, links) => emit_and_or(alloc, code, first, links, guarded),
        Cmd::Not(body) => {
            emit_cmd(alloc, code, body, true)?;
            code.put(Op::Invert)
        }
        Cmd::Subshell(body) => emit_subshell(code, body),
        Cmd::If(condition, body) => emit_if(alloc, code, condition, body, guarded),
        Cmd::IfNot(body) => emit_if_not(alloc, code, body, guarded),
        Cmd::While(condition, body) => emit_while(alloc, code, condition, body, guarded),
        Cmd::ForAll(name, body) => {
            emit_star(alloc, code, name)?;
            emit_turns(alloc, code, body, guarded)
        }
        Cmd::For(name, words, body) => {
            emit_members(alloc, code, words, name)?;
            emit_turns(alloc, code, body, guarded)
        }
        Cmd::Switch(subject, branches) => emit_switch(alloc, code, subject, branches, guarded),
        Cmd::Match(subject, patterns) => emit_match(alloc, code, subject, patterns),
        Cmd::Define(names, body) => emit_define(alloc, code, names, body),
        Cmd::Undefine(names) => emit_undefine(alloc, code, names),
        Cmd::Brace(body) => emit_cmd(alloc, code, body, guarded),
    }
}

/// Emits items; those in the background are kept.
#[cycle(emit)]
#[tactic(auto, using(crate::proofs::Parts::emitting))]
pub(crate) fn emit_items(
    alloc: Global,
    code: &mut Listing,
    items: &[Item],
    guarded: bool,
) -> Result<(), AllocError>
    ensures { OnOk result (Writes code.old code.new (items_code (items_tree items.now) guarded)) }
{
    for item in items {
        if item.background {
            let number = code.keep(kept_tree(alloc, &item.cmd)?)?;
            code.put(Op::Background(number))?;
        } else {
            emit_cmd(alloc, code, &item.cmd, guarded)?;
        }
    }
    Ok(())
}

/// Emits assignments, which stay if no command follows.
#[cycle(emit)]
#[tactic(auto, using(crate::proofs::Parts::emitting))]
fn emit_assign(
    alloc: Global,
    code: &mut Listing,
    pairs: &[(Arg, Arg)],
    body: &Option<Box<Cmd>>,
    guarded: bool,
) -> Result<(), AllocError>
    ensures { OnOk result (Writes code.old code.new
        (cmd_code (tree.Assign (pairs_tree pairs.now) (body_tree body.now)) guarded)) }
{
    match body {
        None => emit_pairs(alloc, code, pairs, true),
        Some(body) => emit_local(alloc, code, pairs, body, guarded),
    }
}

/// Emits assignments before a command, for which they are local unless it is empty.
#[cycle(emit)]
#[tactic(auto, using(crate::proofs::Parts::emitting))]
fn emit_local(
    alloc: Global,
    code: &mut Listing,
    pairs: &[(Arg, Arg)],
    body: &Cmd,
    guarded: bool,
) -> Result<(), AllocError>
    ensures { OnOk result (Writes code.old code.new
        (cmd_code (tree.Assign (pairs_tree pairs.now) (cmd_tree body.now)) guarded)) }
{
    let bare = is_empty(body);
    emit_pairs(alloc, code, pairs, bare)?;
    emit_cmd(alloc, code, body, guarded)?;
    emit_unlocal(code, bare, pairs.len())
}

#[cycle(emit)]
#[tactic(auto, using(crate::proofs::Parts::emitting))]
fn emit_redirect(
    alloc: Global,
    code: &mut Listing,
    redirs: &[Redir],
    body: &Cmd,
    guarded: bool,
) -> Result<(), AllocError>
    ensures { OnOk result (Writes code.old code.new
        (cmd_code (tree.Redirect (redirs_tree redirs.now) (cmd_tree body.now)) guarded)) }
{
    emit_redirs(alloc, code, redirs)?;
    emit_cmd(alloc, code, body, guarded)?;
    code.put(Op::Unredir(in_32_bits(redirs.len())?))
}

/// Emits the start of the stages before the last one, which are kept, and then the last one.
#[cycle(emit)]
#[tactic(auto, using(crate::proofs::Parts::emitting))]
fn emit_pipeline(
    alloc: Global,
    code: &mut Listing,
    stages: &Rc<Vec<Stage>>,
    last: &Cmd,
    guarded: bool,
) -> Result<(), AllocError>
    ensures { OnOk result (Writes code.old code.new
        (cmd_code (tree.Pipeline (stages_tree stages.now.value.items) (cmd_tree last.now)) guarded)) }
{
    let stages = code.keep(kept_stages(stages)?)?;
    let start = code.reserve()?;
    emit_cmd(alloc, code, last, guarded)?;
    code.put(Op::EndPipe)?;
    let end = code.end()?;
    code.patch_stages(start, Pipeline { stages, end })
}

/// Emits the first command, and the others, which `&&` and `||` can skip.
#[cycle(emit)]
#[tactic(auto, using(crate::proofs::Parts::emitting))]
fn emit_and_or(
    alloc: Global,
    code: &mut Listing,
    first: &Cmd,
    links: &[(Logic, Cmd)],
    guarded: bool,
) -> Result<(), AllocError>
    ensures { OnOk result (Writes code.old code.new
        (cmd_code (tree.AndOr (cmd_tree first.now) (links_tree links.now)) guarded)) }
{
    emit_cmd(alloc, code, first, guards(links, guarded))?;
    for (index, link) in links.iter().enumerate() {
        let place = code.reserve()?;
        emit_cmd(alloc, code, &link.1, guards(&links[index + 1..], guarded))?;
        let end = code.end()?;
        code.patch_skip(place, link.0, end);
    }
    Ok(())
}

#[cycle(emit)]
#[tactic(auto, using(crate::proofs::Parts::emitting))]
fn emit_if(
    alloc: Global,
    code: &mut Listing,
    condition: &Cmd,
    body: &Cmd,
    guarded: bool,
) -> Result<(), AllocError>
    ensures { OnOk result (Writes code.old code.new
        (cmd_code (tree.If (cmd_tree condition.now) (cmd_tree body.now)) guarded)) }
{
    emit_cmd(alloc, code, condition, true)?;
    let place = code.reserve()?;
    emit_cmd(alloc, code, body, guarded)?;
    code.put(Op::WasTrue)?;
    let end = code.end()?;
    code.patch(place, Op::If(end));
    Ok(())
}

#[cycle(emit)]
#[tactic(auto, using(crate::proofs::Parts::emitting))]
fn emit_if_not(
    alloc: Global,
    code: &mut Listing,
    body: &Cmd,
    guarded: bool,
) -> Result<(), AllocError>
    ensures { OnOk result (Writes code.old code.new (Past IfNot (cmd_code (cmd_tree body.now) guarded))) }
{
    let place = code.reserve()?;
    emit_cmd(alloc, code, body, guarded)?;
    let end = code.end()?;
    code.patch(place, Op::IfNot(end));
    Ok(())
}

#[cycle(emit)]
#[tactic(auto, using(crate::proofs::Parts::emitting))]
fn emit_condition(alloc: Global, code: &mut Listing, condition: &Cmd) -> Result<(), AllocError>
    ensures { OnOk result (Writes code.old code.new (test_code (cmd_tree condition.now))) }
{
    if has_no_items(condition) {
        code.put(Op::SetNull)
    } else {
        emit_cmd(alloc, code, condition, true)
    }
}

#[cycle(emit)]
#[tactic(auto, using(crate::proofs::Parts::emitting))]
fn emit_while(
    alloc: Global,
    code: &mut Listing,
    condition: &Cmd,
    body: &Cmd,
    guarded: bool,
) -> Result<(), AllocError>
    ensures { OnOk result (Writes code.old code.new
        (cmd_code (tree.While (cmd_tree condition.now) (cmd_tree body.now)) guarded)) }
{
    let start = code.end()?;
    emit_condition(alloc, code, condition)?;
    let place = code.reserve()?;
    emit_cmd(alloc, code, body, guarded)?;
    code.put(Op::Jump(start))?;
    let end = code.end()?;
    code.patch(place, Op::IfFalse(end));
    Ok(())
}

/// Emits the turns of a `for`.
#[cycle(emit)]
#[tactic(auto, using(crate::proofs::Parts::emitting))]
fn emit_turns(
    alloc: Global,
    code: &mut Listing,
    body: &Cmd,
    guarded: bool,
) -> Result<(), AllocError>
    ensures { OnOk result (Writes code.old code.new (turns_code (cmd_code (cmd_tree body.now) guarded))) }
{
    code.put(Op::For)?;
    let turn = code.reserve()?;
    emit_cmd(alloc, code, body, guarded)?;
    code.put(Op::Jump(turn))?;
    let end = code.end()?;
    code.patch(turn, Op::Next(end));
    Ok(())
}

#[cycle(emit)]
#[tactic(auto, using(crate::proofs::Parts::emitting))]
fn emit_switch(
    alloc: Global,
    code: &mut Listing,
    subject: &Arg,
    branches: &[Branch],
    guarded: bool,
) -> Result<(), AllocError>
    ensures { OnOk result (Writes code.old code.new
        (cmd_code (tree.Switch (arg_tree subject.now) (branches_tree branches.now)) guarded)) }
{
    emit_subject(alloc, code, subject)?;
    emit_branches(alloc, code, branches, guarded)?;
    code.put(Op::Drop)
}

#[cycle(emit)]
#[tactic(auto, using(crate::proofs::Parts::emitting))]
fn emit_branches(
    alloc: Global,
    code: &mut Listing,
    branches: &[Branch],
    guarded: bool,
) -> Result<(), AllocError>
    ensures { OnOk result (Writes code.old code.new (branches_code (branches_tree branches.now) guarded)) }
{
    let mut ends = Vec::new(alloc);
    for branch in branches {
        ends.push(emit_branch(alloc, code, branch, guarded)?)?;
    }
    let end = code.end()?;
    code.patch_jumps(&ends, end);
    Ok(())
}

/// Emits a branch, and returns the place of its last instruction, the jump to the end of the `switch`.
#[cycle(emit)]
#[tactic(auto, using(crate::proofs::Parts::emitting))]
fn emit_branch(
    alloc: Global,
    code: &mut Listing,
    branch: &Branch,
    guarded: bool,
) -> Result<u32, AllocError>
    ensures branch { OnOk result (Writes code.old code.new (branch_to (branch_tree branch.now) guarded 0)) }
    ensures last { IfOk result (λ last. last + 1 ≡ length (listing_of code.new).ops) }
{
    emit_list(alloc, code, &branch.patterns)?;
    let place = code.reserve()?;
    emit_cmd(alloc, code, &branch.body, guarded)?;
    let last = code.reserve()?;
    let end = code.end()?;
    code.patch(place, Op::Case(end));
    Ok(last)
}
