//! Redirections and assignments before a command.

ghost use Rattle.std.specs.Prelude.{◌≡◌, IfOk, false};
ghost use Rattle.rc_model.specs.Syntax.Tree as t;
ghost use Rattle.rc_model.specs.Mirrors.Descent.{read, optional_operand_by, redirected_by, values_by, assigned_by};
ghost use Rattle.rc_model.specs.Mirrors.Descent.{leading_by, pipe_by};
ghost use Rattle.rc_tree.specs.View.{cmd_tree, arg_tree, pairs_tree};
ghost use Rattle.rc_parser.specs.Tokens.{lexemes_of};
ghost use Rattle.rc_parser.specs.Results.{Gives};
ghost use Rattle.rc_parser.specs.Reading.{made};

use crate::descent::arguments::parse_argument;
use crate::descent::commands::{parse_inner_operand, parse_leading, parse_pipeline};
use crate::descent::openings::{Opening, parse_opening};
use crate::descent::redirections::{parse_redirection, parse_redirections};
use crate::joined_nodes::push_pair;
use crate::token_stream::Tokens;
use crate::token_stream::lookahead::{begins_bar, begins_command, begins_leading};
use crate::token_stream::token_faults::TokenError;
use rc_tree::{Arg, Cmd};
use std::alloc::{AllocError, Global};

/// Parses an operand that may be absent.
#[cycle(parse)]
#[tactic(auto, using(crate::proofs::Steps::steps), unfolding(rc_model::specs::Mirrors::Descent::optional_operand_by))]
fn parse_optional_operand(
    alloc: Global,
    below: usize,
    tokens: Tokens<'_>,
) -> Result<(Box<Cmd>, Tokens<'_>), TokenError>
    ensures { Gives (λ x. (cmd_tree x.0.value, lexemes_of x.1)) result
        (optional_operand_by (read below) (lexemes_of tokens.entry)) }
{
    if begins_command(tokens) {
        parse_inner_operand(alloc, below, tokens)
    } else {
        Ok((Box::new(alloc, Cmd::Empty)?, tokens))
    }
}

/// Parses redirections with the operand after them.
#[cycle(parse)]
#[tactic(auto, using(crate::proofs::Steps::steps), unfolding(rc_model::specs::Mirrors::Descent::redirected_by))]
pub(crate) fn parse_redirected(
    alloc: Global,
    below: usize,
    tokens: Tokens<'_>,
) -> Result<(Box<Cmd>, Tokens<'_>), TokenError>
    ensures { Gives (λ x. (cmd_tree x.0.value, lexemes_of x.1)) result
        (redirected_by (read below) (lexemes_of tokens.entry)) }
{
    let (first, rest) = parse_redirection(alloc, below, tokens)?;
    let (mut redirs, rest) = parse_redirections(alloc, below, rest)?;
    redirs.insert(0, first)?;
    let (body, rest) = parse_optional_operand(alloc, below, rest)?;
    Ok((Box::new(alloc, Cmd::Redirect(redirs, body))?, rest))
}

/// Parses the value after a `=`, further assignments and the command after them.
#[cycle(parse)]
#[tactic(auto, using(crate::proofs::Steps::lists), unfolding(rc_model::specs::Mirrors::Descent::assigned_by))]
pub(crate) fn parse_assigned(
    alloc: Global,
    below: usize,
    name: Arg,
    tokens: Tokens<'_>,
) -> Result<(Box<Cmd>, Tokens<'_>), TokenError>
    ensures { Gives (λ x. (cmd_tree x.0.value, lexemes_of x.1)) result
        (assigned_by (read below) (arg_tree name) (lexemes_of tokens.entry)) }
{
    let (value, rest) = parse_argument(alloc, below, false, tokens)?;
    let mut pairs = Vec::with_capacity(alloc, 1)?;
    push_pair(&mut pairs, name, value)?;
    parse_values(alloc, below, pairs, rest)
}

/// Parses further assignments and the command after them.
#[cycle(parse)]
#[tactic(auto, using(crate::proofs::Turns::values))]
fn parse_values(
    alloc: Global,
    below: usize,
    mut pairs: Vec<(Arg, Arg)>,
    tokens: Tokens<'_>,
) -> Result<(Box<Cmd>, Tokens<'_>), TokenError>
    ensures { Gives (λ x. (cmd_tree x.0.value, lexemes_of x.1)) result
        (values_by (read below) (pairs_tree pairs.items) (lexemes_of tokens.entry)) }
{
    let mut rest = tokens;
    let turns = tokens.len();
    for _ in 0..turns {
        if begins_leading(rest) {
            return parse_assigned_leading(alloc, below, pairs, rest);
        }
        if !begins_command(rest) {
            break;
        }
        let (opening, after) = parse_opening(alloc, below, rest)?;
        match opening {
            Opening::Named(name) => {
                let (value, after) = parse_argument(alloc, below, false, after)?;
                push_pair(&mut pairs, name, value)?;
                rest = after;
            }
            Opening::Staged(first) => {
                return parse_assigned_pipeline(alloc, below, pairs, first, after);
            }
        }
    }
    Ok((assigned_alone(alloc, pairs)?, rest))
}

/// Parses the command after assignments, if it begins with `!`, `@`, a control word or a redirection.
#[cycle(parse)]
#[tactic(auto, using(rc_tree::proofs::Assigned::assignments))]
fn parse_assigned_leading(
    alloc: Global,
    below: usize,
    pairs: Vec<(Arg, Arg)>,
    tokens: Tokens<'_>,
) -> Result<(Box<Cmd>, Tokens<'_>), TokenError>
    ensures { Gives (λ x. (cmd_tree x.0.value, lexemes_of x.1)) result
        (made (t.Assign (pairs_tree pairs.items)) (leading_by (read below) false (lexemes_of tokens.entry))) }
{
    let (body, rest) = parse_leading(alloc, below, false, tokens)?;
    Ok((Box::new(alloc, Cmd::Assign(pairs, Some(body)))?, rest))
}

/// Parses the command after assignments that begins with this stage.
#[cycle(parse)]
#[tactic(auto, using(crate::proofs::Turns::assigned_alone))]
fn parse_assigned_pipeline(
    alloc: Global,
    below: usize,
    pairs: Vec<(Arg, Arg)>,
    first: Box<Cmd>,
    tokens: Tokens<'_>,
) -> Result<(Box<Cmd>, Tokens<'_>), TokenError>
    ensures { Gives (λ x. (cmd_tree x.0.value, lexemes_of x.1)) result
        (made (t.Assign (pairs_tree pairs.items))
        (pipe_by (read below) (cmd_tree first.value) (lexemes_of tokens.entry))) }
{
    let (body, rest) = if begins_bar(tokens) {
        parse_pipeline(alloc, below, first, tokens)?
    } else {
        (first, tokens)
    };
    Ok((Box::new(alloc, Cmd::Assign(pairs, Some(body)))?, rest))
}

/// Assignments without a command after them.
#[tactic(auto, using(rc_tree::proofs::Assigned::assignments))]
fn assigned_alone(alloc: Global, pairs: Vec<(Arg, Arg)>) -> Result<Box<Cmd>, AllocError>
    ensures { IfOk result (λ b. cmd_tree b.value ≡ t.Assign (pairs_tree pairs.items) t.Empty) }
{
    Ok(Box::new(alloc, Cmd::Assign(pairs, None))?)
}
