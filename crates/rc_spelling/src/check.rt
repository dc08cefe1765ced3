//! A look at whether there is a tree of a spelling: it is read as it is for its tree, and none is made. Each function
//! returns the bytes after what it read, or none where it found a fault, which the reader of trees tells.

ghost use Rattle.std.specs.Prelude.{◌≡◌, IfSome, IsTrue, Ok};
ghost use Rattle.rc_model.specs.Handed.TreeReading.{read_spelling};
ghost use Rattle.rc_model.specs.Syntax.Faults.{Gives};
ghost use Rattle.rc_spelling.specs.Rests.{rest_of, tree_or_empty, past_each, past_text, past_piece, past_here};
ghost use Rattle.rc_spelling.specs.Rests.{past_cmd, past_arg, past_args, past_redir, past_part, past_list};
ghost use Rattle.rc_spelling.specs.Rests.{past_front, past_subject, past_cmd_of, past_arg_of};
ghost use Rattle.rc_spelling.specs.Steps.{word_by};

use crate::image_error::ImageError;
use crate::image_numbers::{count_from, stage_count};
use crate::leaves::{background, copy, logic, slot};
use crate::marks::{arg_mark, cmd_mark, redir_mark};
use crate::plain_texts::text_here;
use crate::shape::{ArgShape, CmdShape, FrontShape, Part, RedirShape, SubjectShape};
use crate::tree_reader::read_spelling;
use rc_model::limits::MOST_LEVELS;
use std::alloc::Global;

/// A text.
#[tactic(auto, using(std::proofs::lemmas::Grind::common_steps))]
fn check_text(bytes: &[u8]) -> Option<&[u8]>
    ensures { IfSome result (λ rest. past_text bytes.now ≡ Ok rest.now) }
{
    let (_, rest) = text_here(bytes)?;
    Some(rest)
}

/// An unquoted word, which isn't empty.
#[inline(always)]
#[tactic(auto, using(crate::proofs::Strings::words), unfolding(crate::specs::Steps::word_by))]
fn check_word(bytes: &[u8]) -> Option<&[u8]>
    ensures { IfSome result (λ rest. rest_of (word_by bytes.now) ≡ Ok rest.now) }
{
    let (text, rest) = text_here(bytes)?;
    if text.is_empty() {
        return None;
    }
    Some(rest)
}

/// A piece of a here document.
#[tactic(auto, unfolding(crate::specs::Rests::past_piece, crate::specs::Steps::first_by))]
fn check_piece(bytes: &[u8]) -> Option<&[u8]>
    ensures { IfSome result (λ rest. past_piece bytes.now ≡ Ok rest.now) }
{
    let (byte, rest) = bytes.split_first()?;
    match *byte {
        b't' | b'v' => check_text(rest),
        _ => None,
    }
}

/// The pieces of a here document.
#[tactic(auto, using(crate::proofs::Rests::here_docs))]
fn check_here(bytes: &[u8]) -> Option<&[u8]>
    ensures { IfSome result (λ rest. past_here bytes.now ≡ Ok rest.now) }
{
    let Ok((count, mut rest)) = count_from(0, bytes) else {
        return None;
    };
    for _ in 0..count {
        rest = check_piece(rest)?;
    }
    Some(rest)
}

/// A command with at most this many levels.
#[cycle(check)]
#[tactic(auto, using(crate::proofs::Rests::levels))]
fn check_cmd(left: usize, bytes: &[u8]) -> Option<&[u8]>
    ensures { IfSome result (λ rest. past_cmd left bytes.now ≡ Ok rest.now) }
{
    if left == 0 {
        return None;
    }
    let Ok((shape, rest)) = cmd_mark(bytes) else {
        return None;
    };
    check_cmd_of(left - 1, shape, rest)
}

/// A command by its shape. Its parts have at most this many levels.
#[cycle(check)]
#[tactic(auto, unfolding(crate::specs::Rests::past_cmd_of))]
fn check_cmd_of(below: usize, shape: CmdShape, bytes: &[u8]) -> Option<&[u8]>
    ensures { IfSome result (λ rest. past_cmd_of below shape bytes.now ≡ Ok rest.now) }
{
    match shape {
        CmdShape::Empty => Some(bytes),
        CmdShape::Seq => check_list(0, below, Part::Item, bytes),
        CmdShape::AndOr => {
            let rest = check_cmd(below, bytes)?;
            check_list(1, below, Part::Link, rest)
        }
        CmdShape::Body(_) => check_cmd(below, bytes),
        CmdShape::Bodies(_) => {
            let rest = check_cmd(below, bytes)?;
            check_cmd(below, rest)
        }
        CmdShape::Words(_) => check_args(1, below, bytes),
        CmdShape::Front(shape) => {
            let rest = check_front(below, shape, bytes)?;
            check_cmd(below, rest)
        }
        CmdShape::Subject(shape) => {
            let rest = check_arg(below, bytes)?;
            check_subject(below, shape, rest)
        }
    }
}

/// A list that comes before a command.
#[cycle(check)]
#[tactic(auto, unfolding(crate::specs::Rests::past_front))]
fn check_front(left: usize, shape: FrontShape, bytes: &[u8]) -> Option<&[u8]>
    ensures { IfSome result (λ rest. past_front left shape bytes.now ≡ Ok rest.now) }
{
    match shape {
        FrontShape::Assign => check_list(1, left, Part::Pair, bytes),
        FrontShape::Redirect => check_list(1, left, Part::Redir, bytes),
        FrontShape::Pipeline => {
            let Ok((count, rest)) = stage_count(bytes) else {
                return None;
            };
            check_each(count, left, Part::Stage, rest)
        }
        FrontShape::Define => check_args(1, left, bytes),
    }
}

/// What follows an argument.
#[cycle(check)]
#[tactic(auto, unfolding(crate::specs::Rests::past_subject))]
fn check_subject(left: usize, shape: SubjectShape, bytes: &[u8]) -> Option<&[u8]>
    ensures { IfSome result (λ rest. past_subject left shape bytes.now ≡ Ok rest.now) }
{
    match shape {
        SubjectShape::ForAll => check_cmd(left, bytes),
        SubjectShape::For => {
            let rest = check_args(0, left, bytes)?;
            check_cmd(left, rest)
        }
        SubjectShape::Switch => check_list(0, left, Part::Branch, bytes),
        SubjectShape::Match => check_args(0, left, bytes),
    }
}

/// An argument with at most this many levels.
#[cycle(check)]
#[tactic(auto, using(crate::proofs::Rests::levels))]
fn check_arg(left: usize, bytes: &[u8]) -> Option<&[u8]>
    ensures { IfSome result (λ rest. past_arg left bytes.now ≡ Ok rest.now) }
{
    if left == 0 {
        return None;
    }
    let Ok((shape, rest)) = arg_mark(bytes) else {
        return None;
    };
    check_arg_of(left - 1, shape, rest)
}

/// An argument by its shape.
#[cycle(check)]
#[tactic(auto, using(crate::proofs::Rests::quoted), unfolding(crate::specs::Rests::past_arg_of))]
fn check_arg_of(below: usize, shape: ArgShape, bytes: &[u8]) -> Option<&[u8]>
    ensures { IfSome result (λ rest. past_arg_of below shape bytes.now ≡ Ok rest.now) }
{
    match shape {
        ArgShape::Word => check_word(bytes),
        ArgShape::Quoted => check_text(bytes),
        ArgShape::Concat => check_args(2, below, bytes),
        ArgShape::Paren => check_args(0, below, bytes),
        ArgShape::Name(_) => check_arg(below, bytes),
        ArgShape::Sub => {
            let rest = check_arg(below, bytes)?;
            check_args(0, below, rest)
        }
        ArgShape::Back => check_cmd(below, bytes),
    }
}

/// Arguments, at least this many.
#[cycle(check)]
#[tactic(auto, using(crate::proofs::Rests::arguments))]
fn check_args(least: usize, left: usize, bytes: &[u8]) -> Option<&[u8]>
    ensures { IfSome result (λ rest. past_args least left bytes.now ≡ Ok rest.now) }
{
    let Ok((count, mut rest)) = count_from(least, bytes) else {
        return None;
    };
    for _ in 0..count {
        rest = check_arg(left, rest)?;
    }
    Some(rest)
}

/// A redirection.
#[cycle(check)]
#[tactic(auto, unfolding(crate::specs::Rests::past_redir))]
fn check_redir(left: usize, bytes: &[u8]) -> Option<&[u8]>
    ensures { IfSome result (λ rest. past_redir left bytes.now ≡ Ok rest.now) }
{
    let Ok((shape, rest)) = redir_mark(bytes) else {
        return None;
    };
    match shape {
        RedirShape::Input => check_arg(left, rest),
        RedirShape::Output(_) => {
            let Ok((_, rest)) = slot(rest) else {
                return None;
            };
            check_arg(left, rest)
        }
        RedirShape::Copy => {
            let Ok((_, rest)) = copy(rest) else {
                return None;
            };
            Some(rest)
        }
        RedirShape::Here => check_here(rest),
    }
}

/// A list of such nodes, at least this many.
#[cycle(check)]
#[tactic(auto, unfolding(crate::specs::Rests::past_list))]
fn check_list(least: usize, left: usize, part: Part, bytes: &[u8]) -> Option<&[u8]>
    ensures { IfSome result (λ rest. past_list least left part bytes.now ≡ Ok rest.now) }
{
    let Ok((count, rest)) = count_from(least, bytes) else {
        return None;
    };
    check_each(count, left, part, rest)
}

/// This many such nodes.
#[cycle(check)]
#[tactic(auto, using(crate::proofs::Rests::turns))]
fn check_each(count: usize, left: usize, part: Part, bytes: &[u8]) -> Option<&[u8]>
    ensures { IfSome result (λ rest. past_each (past_part left part) count bytes.now ≡ Ok rest.now) }
{
    let mut rest = bytes;
    for _ in 0..count {
        rest = check_part(left, part, rest)?;
    }
    Some(rest)
}

/// A node of a list.
#[cycle(check)]
#[tactic(auto, unfolding(crate::specs::Rests::past_part))]
fn check_part(left: usize, part: Part, bytes: &[u8]) -> Option<&[u8]>
    ensures { IfSome result (λ rest. past_part left part bytes.now ≡ Ok rest.now) }
{
    match part {
        Part::Item => {
            let Ok((_, rest)) = background(bytes) else {
                return None;
            };
            check_cmd(left, rest)
        }
        Part::Pair => {
            let rest = check_arg(left, bytes)?;
            check_arg(left, rest)
        }
        Part::Redir => check_redir(left, bytes),
        Part::Stage => {
            let Ok((_, rest)) = slot(bytes) else {
                return None;
            };
            check_cmd(left, rest)
        }
        Part::Link => {
            let Ok((_, rest)) = logic(bytes) else {
                return None;
            };
            check_cmd(left, rest)
        }
        Part::Branch => {
            let rest = check_args(0, left, bytes)?;
            check_cmd(left, rest)
        }
    }
}

/// Whether there is a tree of a spelling; one that is refused may have one.
#[tactic(auto, using(crate::proofs::Rests::whole_spellings))]
fn is_spelling(bytes: &[u8]) -> bool
    ensures { let read = read_spelling bytes.now in IsTrue result → read ≡ Ok (tree_or_empty read) }
{
    match check_cmd(MOST_LEVELS, bytes) {
        Some(rest) => rest.is_empty(),
        None => false,
    }
}

/// Whether there is a tree of a spelling, or else its first fault, as `read_spelling` finds it. Nothing is allocated if
/// there is a tree.
#[tactic(auto, using(crate::proofs::Rests::read_trees))]
pub fn check_spelling(alloc: Global, bytes: &[u8]) -> Result<(), ImageError>
    ensures { let read = read_spelling bytes.now in Gives (λ _. tree_or_empty read) result read }
{
    if is_spelling(bytes) {
        return Ok(());
    }
    match read_spelling(alloc, bytes) {
        Ok(_) => Ok(()),
        Err(error) => Err(error),
    }
}
