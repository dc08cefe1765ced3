//! Commands: pipelines, and operands joined by `&&` and `||`.

ghost use Rattle.rc_model.specs.Mirrors.Descent.{read, an_operand, a_piped, a_command, leading_by, pipe_by, operand_by};
ghost use Rattle.rc_model.specs.Mirrors.Descent.{links_by};
ghost use Rattle.rc_tree.specs.View.{cmd_tree, links_tree};
ghost use Rattle.rc_parser.specs.Tokens.{lexemes_of};
ghost use Rattle.rc_parser.specs.Results.{Gives};

use crate::descent::controls::parse_control;
use crate::descent::openings::{Opening, parse_opening};
use crate::descent::prefixes::{parse_assigned, parse_redirected};
use crate::joined_nodes::{allows_stage, and_or, pipeline};
use crate::parsed_words::keyword_of;
use crate::token_stream::Tokens;
use crate::token_stream::lookahead::{begins_bar, begins_leading, begins_link, past_newlines};
use crate::token_stream::token_faults::{TokenError, fault_at};
use rc_lexer::TokenKind;
use rc_model::{DescentFault, Keyword, Logic};
use rc_tree::{Cmd, push_link, push_stage};
use std::alloc::Global;

/// Parses the pipeline that begins with this stage, which a bar follows.
#[cycle(parse)]
#[tactic(auto, using(crate::proofs::Turns::pipe))]
pub(crate) fn parse_pipeline(
    alloc: Global,
    below: usize,
    first: Box<Cmd>,
    tokens: Tokens<'_>,
) -> Result<(Box<Cmd>, Tokens<'_>), TokenError>
    ensures { Gives (λ x. (cmd_tree x.0.value, lexemes_of x.1)) result
        (pipe_by (read below) (cmd_tree first.value) (lexemes_of tokens.entry)) }
{
    let mut stages = Vec::with_capacity(alloc, 1)?;
    let mut last = first;
    let mut rest = tokens;
    let turns = tokens.len();
    for _ in 0..turns {
        let Some((TokenKind::Bar(slot), _, after)) = rest.first() else {
            break;
        };
        if !allows_stage(&stages) {
            return Err(fault_at(DescentFault::TooManyStages, rest));
        }
        push_stage(&mut stages, last, slot)?;
        let ((next, is_stage), after) = parse_piped(alloc, below, past_newlines(after))?;
        last = next;
        rest = after;
        if !is_stage {
            break;
        }
    }
    Ok((pipeline(alloc, stages, last)?, rest))
}

/// Parses what follows a bar, and returns whether it is a stage.
#[cycle(parse)]
#[tactic(auto, using(crate::proofs::Steps::levels), unfolding(rc_model::specs::Mirrors::Descent::piped_by))]
fn parse_piped(
    alloc: Global,
    left: usize,
    tokens: Tokens<'_>,
) -> Result<((Box<Cmd>, bool), Tokens<'_>), TokenError>
    ensures { Gives (λ x. ((cmd_tree x.0.0.value, x.0.1), lexemes_of x.1)) result
        (read left a_piped (lexemes_of tokens.entry)) }
{
    if left == 0 {
        return Err(fault_at(DescentFault::TooDeep, tokens));
    }
    if begins_leading(tokens) {
        let (cmd, rest) = parse_leading(alloc, left - 1, false, tokens)?;
        return Ok(((cmd, false), rest));
    }
    let (opening, rest) = parse_opening(alloc, left - 1, tokens)?;
    match opening {
        Opening::Named(name) => {
            let (cmd, rest) = parse_assigned(alloc, left - 1, name, rest)?;
            Ok(((cmd, false), rest))
        }
        Opening::Staged(cmd) => Ok(((cmd, true), rest)),
    }
}

/// Parses an operand that begins with `!`, `@`, a control word or a redirection.
#[cycle(parse)]
#[tactic(auto, unfolding(rc_model::specs::Mirrors::Descent::leading_by))]
pub(crate) fn parse_leading(
    alloc: Global,
    below: usize,
    after_if: bool,
    tokens: Tokens<'_>,
) -> Result<(Box<Cmd>, Tokens<'_>), TokenError>
    ensures { Gives (λ x. (cmd_tree x.0.value, lexemes_of x.1)) result
        (leading_by (read below) after_if (lexemes_of tokens.entry)) }
{
    match tokens.first() {
        Some((TokenKind::Word, text, rest)) => parse_control(
            alloc,
            below,
            after_if,
            keyword_of(text),
            rest,
        ),
        _ => parse_redirected(alloc, below, tokens),
    }
}

/// Parses an operand of `&&` and `||`.
#[cycle(parse)]
#[tactic(auto, using(crate::proofs::Turns::unpiped), unfolding(rc_model::specs::Mirrors::Descent::operand_by))]
fn parse_operand(
    alloc: Global,
    below: usize,
    after_if: bool,
    tokens: Tokens<'_>,
) -> Result<(Box<Cmd>, Tokens<'_>), TokenError>
    ensures { Gives (λ x. (cmd_tree x.0.value, lexemes_of x.1)) result
        (operand_by (read below) after_if (lexemes_of tokens.entry)) }
{
    if begins_leading(tokens) {
        return parse_leading(alloc, below, after_if, tokens);
    }
    let (opening, rest) = parse_opening(alloc, below, tokens)?;
    match opening {
        Opening::Named(name) => parse_assigned(alloc, below, name, rest),
        Opening::Staged(first) => {
            if begins_bar(rest) {
                parse_pipeline(alloc, below, first, rest)
            } else {
                Ok((first, rest))
            }
        }
    }
}

/// Parses an operand one level deeper.
#[cycle(parse)]
#[tactic(auto, using(crate::proofs::Steps::levels))]
pub(crate) fn parse_inner_operand(
    alloc: Global,
    left: usize,
    tokens: Tokens<'_>,
) -> Result<(Box<Cmd>, Tokens<'_>), TokenError>
    ensures { Gives (λ x. (cmd_tree x.0.value, lexemes_of x.1)) result
        (read left an_operand (lexemes_of tokens.entry)) }
{
    if left == 0 {
        return Err(fault_at(DescentFault::TooDeep, tokens));
    }
    parse_operand(alloc, left - 1, false, tokens)
}

/// Parses the operands after the first one. It is never inlined into `parse_command`, so that its locals take no stack
/// at each level of nesting.
#[inline(never)]
#[cycle(parse)]
#[tactic(auto, using(crate::proofs::Turns::links))]
fn parse_links(
    alloc: Global,
    below: usize,
    tokens: Tokens<'_>,
) -> Result<(Vec<(Logic, Cmd)>, Tokens<'_>), TokenError>
    ensures { Gives (λ x. (links_tree x.0.items, lexemes_of x.1)) result
        (links_by (read below) (lexemes_of tokens.entry)) }
{
    let mut links = Vec::with_capacity(alloc, 1)?;
    let mut rest = tokens;
    let turns = tokens.len();
    for _ in 0..turns {
        let (logic, after) = match rest.first() {
            Some((TokenKind::AndAnd, _, after)) => (Logic::And, after),
            Some((TokenKind::OrOr, _, after)) => (Logic::Or, after),
            _ => break,
        };
        let (cmd, after) = parse_operand(alloc, below, false, past_newlines(after))?;
        push_link(&mut links, logic, cmd)?;
        rest = after;
    }
    Ok((links, rest))
}

/// Parses a command.
#[cycle(parse)]
#[tactic(auto, using(crate::proofs::Turns::linked), unfolding(rc_model::specs::Mirrors::Descent::command_by))]
pub(crate) fn parse_command(
    alloc: Global,
    left: usize,
    after_if: bool,
    tokens: Tokens<'_>,
) -> Result<(Box<Cmd>, Tokens<'_>), TokenError>
    ensures { Gives (λ x. (cmd_tree x.0.value, lexemes_of x.1)) result
        (read left (a_command after_if) (lexemes_of tokens.entry)) }
{
    if left == 0 {
        return Err(fault_at(DescentFault::TooDeep, tokens));
    }
    let (first, rest) = parse_operand(alloc, left - 1, after_if, tokens)?;
    if !begins_link(rest) {
        return Ok((first, rest));
    }
    let (links, rest) = parse_links(alloc, left - 1, rest)?;
    Ok((and_or(alloc, first, links)?, rest))
}
