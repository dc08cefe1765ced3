//! Reading nodes, each with as many levels as are left. Each function returns what it read and the bytes after it.

ghost use Rattle.std.specs.Prelude.{true};
ghost use Rattle.rc_model.specs.Handed.TreeReading.{cmd_at, arg_at};
ghost use Rattle.rc_tree.specs.View.{cmd_tree, arg_tree, redir_tree, args_tree, items_tree, pairs_tree};
ghost use Rattle.rc_tree.specs.View.{redirs_tree, stages_tree, links_tree, branches_tree};
ghost use Rattle.rc_model.specs.Syntax.Faults.{Gives};
ghost use Rattle.rc_spelling.specs.Steps.{args_by, item_by, pair_by, stage_by, link_by, branch_by};
ghost use Rattle.rc_spelling.specs.Steps.{list_by, count_from, stage_count};
ghost use Rattle.rc_spelling.specs.Reading.{cmd_of, front_by, subject_by, arg_of, redir_by};

use crate::image_error::ImageError;
use crate::image_numbers::{count_from, stage_count};
use crate::leaves::{background, copy, here, logic, quoted, slot, word};
use crate::marks::{arg_mark, cmd_mark, redir_mark};
use crate::nodes::{
    and_or, assigned, defined, for_all, for_each, matching, pipeline, redirected, seq, switched,
    with_bodies, with_body, with_name, with_words,
};
use crate::shape::{ArgShape, CmdShape, FrontShape, RedirShape, SubjectShape};
use rc_model::{ImageFault, InputError, Logic, Mode};
use rc_tree::{Arg, Branch, Cmd, Item, Redir, Stage, push_item, push_link, push_stage, shared};
use std::alloc::Global;

/// A command with at most this many levels.
#[cycle(read)]
#[tactic(auto, using(crate::proofs::Mirror::levels))]
pub(crate) fn read_cmd(
    alloc: Global,
    left: usize,
    bytes: &[u8],
) -> Result<(Box<Cmd>, &[u8]), ImageError>
    ensures { Gives (λ x. (cmd_tree x.0.value, x.1.now)) result (cmd_at left bytes.now) }
{
    if left == 0 {
        return Err(InputError::Fault(ImageFault::TooDeep));
    }
    let (shape, rest) = cmd_mark(bytes)?;
    read_cmd_of(alloc, left - 1, shape, rest)
}

/// A command by its shape. Its parts have at most this many levels.
#[cycle(read)]
#[tactic(auto, using(rc_tree::specs::View::tree_walks), unfolding(crate::specs::Reading::cmd_of))]
fn read_cmd_of(
    alloc: Global,
    below: usize,
    shape: CmdShape,
    rest: &[u8],
) -> Result<(Box<Cmd>, &[u8]), ImageError>
    ensures { Gives (λ x. (cmd_tree x.0.value, x.1.now)) result (cmd_of below shape rest.now) }
{
    match shape {
        CmdShape::Empty => Ok((Box::new(alloc, Cmd::Empty)?, rest)),
        CmdShape::Seq => {
            let (items, rest) = read_items(alloc, below, rest)?;
            Ok((seq(alloc, items)?, rest))
        }
        CmdShape::AndOr => {
            let (first, rest) = read_cmd(alloc, below, rest)?;
            let (links, rest) = read_links(alloc, below, rest)?;
            Ok((and_or(alloc, first, links)?, rest))
        }
        CmdShape::Body(shape) => {
            let (body, rest) = read_cmd(alloc, below, rest)?;
            Ok((with_body(alloc, shape, body)?, rest))
        }
        CmdShape::Bodies(shape) => {
            let (first, rest) = read_cmd(alloc, below, rest)?;
            let (second, rest) = read_cmd(alloc, below, rest)?;
            Ok((with_bodies(alloc, shape, first, second)?, rest))
        }
        CmdShape::Words(shape) => {
            let (words, rest) = read_args(alloc, below, 1, rest)?;
            Ok((with_words(alloc, shape, words)?, rest))
        }
        CmdShape::Front(shape) => read_front(alloc, below, shape, rest),
        CmdShape::Subject(shape) => {
            let (subject, rest) = read_arg(alloc, below, rest)?;
            read_subject(alloc, below, shape, Box::new(alloc, subject)?, rest)
        }
    }
}

/// A list and a command.
#[cycle(read)]
#[tactic(auto, using(rc_tree::specs::View::tree_walks), unfolding(crate::specs::Reading::front_by))]
fn read_front(
    alloc: Global,
    left: usize,
    shape: FrontShape,
    bytes: &[u8],
) -> Result<(Box<Cmd>, &[u8]), ImageError>
    ensures { Gives (λ x. (cmd_tree x.0.value, x.1.now)) result (front_by left shape bytes.now) }
{
    match shape {
        FrontShape::Assign => {
            let (pairs, rest) = read_pairs(alloc, left, bytes)?;
            let (body, rest) = read_cmd(alloc, left, rest)?;
            Ok((assigned(alloc, pairs, body)?, rest))
        }
        FrontShape::Redirect => {
            let (redirs, rest) = read_redirs(alloc, left, bytes)?;
            let (body, rest) = read_cmd(alloc, left, rest)?;
            Ok((redirected(alloc, redirs, body)?, rest))
        }
        FrontShape::Pipeline => {
            let (stages, rest) = read_stages(alloc, left, bytes)?;
            let (last, rest) = read_cmd(alloc, left, rest)?;
            Ok((pipeline(alloc, stages, last)?, rest))
        }
        FrontShape::Define => {
            let (names, rest) = read_args(alloc, left, 1, bytes)?;
            let (body, rest) = read_cmd(alloc, left, rest)?;
            Ok((defined(alloc, names, body)?, rest))
        }
    }
}

/// Reads what follows an argument that was read.
#[cycle(read)]
#[tactic(auto, using(rc_tree::specs::View::tree_walks), unfolding(crate::specs::Reading::subject_by))]
fn read_subject(
    alloc: Global,
    left: usize,
    shape: SubjectShape,
    subject: Box<Arg>,
    bytes: &[u8],
) -> Result<(Box<Cmd>, &[u8]), ImageError>
    ensures { Gives (λ x. (cmd_tree x.0.value, x.1.now)) result
        (subject_by left shape (arg_tree subject.value) bytes.now) }
{
    match shape {
        SubjectShape::ForAll => {
            let (body, rest) = read_cmd(alloc, left, bytes)?;
            Ok((for_all(alloc, subject, body)?, rest))
        }
        SubjectShape::For => {
            let (words, rest) = read_args(alloc, left, 0, bytes)?;
            let (body, rest) = read_cmd(alloc, left, rest)?;
            Ok((for_each(alloc, subject, words, body)?, rest))
        }
        SubjectShape::Switch => {
            let (branches, rest) = read_branches(alloc, left, bytes)?;
            Ok((switched(alloc, subject, branches)?, rest))
        }
        SubjectShape::Match => {
            let (patterns, rest) = read_args(alloc, left, 0, bytes)?;
            Ok((matching(alloc, subject, patterns)?, rest))
        }
    }
}

/// An argument with at most this many levels.
#[cycle(read)]
#[tactic(auto, using(crate::proofs::Mirror::levels))]
fn read_arg(alloc: Global, left: usize, bytes: &[u8]) -> Result<(Arg, &[u8]), ImageError>
    ensures { Gives (λ x. (arg_tree x.0, x.1.now)) result (arg_at left bytes.now) }
{
    if left == 0 {
        return Err(InputError::Fault(ImageFault::TooDeep));
    }
    let (shape, rest) = arg_mark(bytes)?;
    read_arg_of(alloc, left - 1, shape, rest)
}

/// An argument by its shape.
#[cycle(read)]
#[tactic(auto, using(rc_tree::specs::View::tree_walks), unfolding(crate::specs::Reading::arg_of))]
fn read_arg_of(
    alloc: Global,
    below: usize,
    shape: ArgShape,
    rest: &[u8],
) -> Result<(Arg, &[u8]), ImageError>
    ensures { Gives (λ x. (arg_tree x.0, x.1.now)) result (arg_of below shape rest.now) }
{
    match shape {
        ArgShape::Word => word(alloc, rest),
        ArgShape::Quoted => quoted(alloc, rest),
        ArgShape::Concat => {
            let (parts, rest) = read_args(alloc, below, 2, rest)?;
            Ok((Arg::Concat(parts), rest))
        }
        ArgShape::Paren => {
            let (words, rest) = read_args(alloc, below, 0, rest)?;
            Ok((Arg::Paren(words), rest))
        }
        ArgShape::Name(shape) => {
            let (name, rest) = read_arg(alloc, below, rest)?;
            Ok((with_name(shape, Box::new(alloc, name)?), rest))
        }
        ArgShape::Sub => {
            let (name, rest) = read_arg(alloc, below, rest)?;
            let name = Box::new(alloc, name)?;
            let (subscripts, rest) = read_args(alloc, below, 0, rest)?;
            Ok((Arg::Sub(name, subscripts), rest))
        }
        ArgShape::Back => {
            let (body, rest) = read_cmd(alloc, below, rest)?;
            Ok((Arg::Back(shared(alloc, body)?), rest))
        }
    }
}

/// A redirection.
#[cycle(read)]
#[tactic(auto, using(rc_tree::specs::View::tree_walks), unfolding(crate::specs::Reading::redir_by))]
fn read_redir(alloc: Global, left: usize, bytes: &[u8]) -> Result<(Redir, &[u8]), ImageError>
    ensures { Gives (λ x. (redir_tree x.0, x.1.now)) result (redir_by left bytes.now) }
{
    let (shape, rest) = redir_mark(bytes)?;
    match shape {
        RedirShape::Input => {
            let (file, rest) = read_arg(alloc, left, rest)?;
            Ok((
                Redir::Open {
                    mode: Mode::Read,
                    slot: 0,
                    file,
                },
                rest,
            ))
        }
        RedirShape::Output(mode) => {
            let (slot, rest) = slot(rest)?;
            let (file, rest) = read_arg(alloc, left, rest)?;
            Ok((Redir::Open { mode, slot, file }, rest))
        }
        RedirShape::Copy => copy(rest),
        RedirShape::Here => here(alloc, rest),
    }
}

/// Reads arguments, at least this many.
#[cycle(read)]
#[tactic(auto, using(crate::proofs::Turns::lists), unfolding(crate::specs::Steps::args_by))]
fn read_args(
    alloc: Global,
    left: usize,
    least: usize,
    bytes: &[u8],
) -> Result<(Vec<Arg>, &[u8]), ImageError>
    ensures { Gives (λ x. (args_tree x.0.items, x.1.now)) result (args_by least left bytes.now) }
{
    let (count, mut rest) = count_from(least, bytes)?;
    let mut args = Vec::new(alloc);
    for _ in 0..count {
        let (arg, after) = read_arg(alloc, left, rest)?;
        args.push(arg)?;
        rest = after;
    }
    Ok((args, rest))
}

#[cycle(read)]
#[tactic(auto, using(crate::proofs::Turns::items))]
fn read_items(alloc: Global, left: usize, bytes: &[u8]) -> Result<(Vec<Item>, &[u8]), ImageError>
    ensures { Gives (λ x. (items_tree x.0.items, x.1.now)) result (list_by (count_from 0) (item_by left) bytes.now) }
{
    let (count, mut rest) = count_from(0, bytes)?;
    let mut items = Vec::new(alloc);
    for _ in 0..count {
        let (background, after) = background(rest)?;
        let (cmd, after) = read_cmd(alloc, left, after)?;
        push_item(&mut items, cmd, background)?;
        rest = after;
    }
    Ok((items, rest))
}

#[cycle(read)]
#[tactic(auto, using(crate::proofs::Turns::pairs))]
fn read_pairs(
    alloc: Global,
    left: usize,
    bytes: &[u8],
) -> Result<(Vec<(Arg, Arg)>, &[u8]), ImageError>
    ensures { Gives (λ x. (pairs_tree x.0.items, x.1.now)) result (list_by (count_from 1) (pair_by left) bytes.now) }
{
    let (count, mut rest) = count_from(1, bytes)?;
    let mut pairs = Vec::new(alloc);
    for _ in 0..count {
        let (name, after) = read_arg(alloc, left, rest)?;
        let (value, after) = read_arg(alloc, left, after)?;
        pairs.push((name, value))?;
        rest = after;
    }
    Ok((pairs, rest))
}

#[cycle(read)]
#[tactic(auto, using(crate::proofs::Turns::redirs))]
fn read_redirs(alloc: Global, left: usize, bytes: &[u8]) -> Result<(Vec<Redir>, &[u8]), ImageError>
    ensures { Gives (λ x. (redirs_tree x.0.items, x.1.now)) result (list_by (count_from 1) (redir_by left) bytes.now) }
{
    let (count, mut rest) = count_from(1, bytes)?;
    let mut redirs = Vec::new(alloc);
    for _ in 0..count {
        let (redir, after) = read_redir(alloc, left, rest)?;
        redirs.push(redir)?;
        rest = after;
    }
    Ok((redirs, rest))
}

/// Reads the stages before the last one.
#[cycle(read)]
#[tactic(auto, using(crate::proofs::Turns::stages))]
fn read_stages(alloc: Global, left: usize, bytes: &[u8]) -> Result<(Vec<Stage>, &[u8]), ImageError>
    ensures { Gives (λ x. (stages_tree x.0.items, x.1.now)) result (list_by stage_count (stage_by left) bytes.now) }
{
    let (count, mut rest) = stage_count(bytes)?;
    let mut stages = Vec::new(alloc);
    for _ in 0..count {
        let (slot, after) = slot(rest)?;
        let (cmd, after) = read_cmd(alloc, left, after)?;
        push_stage(&mut stages, cmd, slot)?;
        rest = after;
    }
    Ok((stages, rest))
}

/// Reads the operands after the first one.
#[cycle(read)]
#[tactic(auto, using(crate::proofs::Turns::links))]
fn read_links(
    alloc: Global,
    left: usize,
    bytes: &[u8],
) -> Result<(Vec<(Logic, Cmd)>, &[u8]), ImageError>
    ensures { Gives (λ x. (links_tree x.0.items, x.1.now)) result (list_by (count_from 1) (link_by left) bytes.now) }
{
    let (count, mut rest) = count_from(1, bytes)?;
    let mut links = Vec::new(alloc);
    for _ in 0..count {
        let (logic, after) = logic(rest)?;
        let (cmd, after) = read_cmd(alloc, left, after)?;
        push_link(&mut links, logic, cmd)?;
        rest = after;
    }
    Ok((links, rest))
}

#[cycle(read)]
#[tactic(auto, using(crate::proofs::Turns::branches))]
fn read_branches(
    alloc: Global,
    left: usize,
    bytes: &[u8],
) -> Result<(Vec<Branch>, &[u8]), ImageError>
    ensures { Gives (λ x. (branches_tree x.0.items, x.1.now)) result
        (list_by (count_from 0) (branch_by left) bytes.now) }
{
    let (count, mut rest) = count_from(0, bytes)?;
    let mut branches = Vec::new(alloc);
    for _ in 0..count {
        let (patterns, after) = read_args(alloc, left, 0, rest)?;
        let (body, after) = read_cmd(alloc, left, after)?;
        branches.push(Branch { patterns, body })?;
        rest = after;
    }
    Ok((branches, rest))
}
