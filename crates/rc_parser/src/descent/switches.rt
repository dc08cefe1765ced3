//! The `switch` and its cases.

ghost use Rattle.rc_model.specs.Mirrors.Descent.{read, branch_by, branches_by, switch_by};
ghost use Rattle.rc_tree.specs.View.{cmd_tree, branches_tree, branch_tree};
ghost use Rattle.rc_parser.specs.Tokens.{lexemes_of};
ghost use Rattle.rc_parser.specs.Results.{Gives};

use crate::descent::arguments::{parse_boxed_argument, parse_words};
use crate::descent::command_lists::parse_list;
use crate::descent::redirections::parse_redirections;
use crate::joined_nodes::redirect;
use crate::parsed_words::is_case;
use crate::token_stream::Tokens;
use crate::token_stream::lookahead::{ends_case, past_caret, past_newlines};
use crate::token_stream::token_faults::{TokenError, fault_at};
use rc_lexer::TokenKind;
use rc_model::DescentFault;
use rc_tree::{Branch, Cmd};
use std::alloc::Global;

/// Parses the words of a case line, and the commands that follow it.
#[cycle(parse)]
#[tactic(auto, using(crate::proofs::Steps::steps), unfolding(rc_model::specs::Mirrors::Descent::branch_by))]
fn parse_case(
    alloc: Global,
    below: usize,
    tokens: Tokens<'_>,
) -> Result<(Branch, Tokens<'_>), TokenError>
    ensures { Gives (λ x. (branch_tree x.0, lexemes_of x.1)) result
        (branch_by (read below) (lexemes_of tokens.entry)) }
{
    let (patterns, rest) = parse_words(alloc, below, tokens)?;
    if !ends_case(rest) {
        return Err(fault_at(DescentFault::Unexpected, rest));
    }
    let (items, rest) = parse_list(alloc, below, true, rest)?;
    let body = Box::new(alloc, Cmd::Seq(items))?;
    Ok((Branch { patterns, body }, rest))
}

/// Parses the case lines of a switch, in braces.
#[cycle(parse)]
#[tactic(auto, using(crate::proofs::Turns::branches), unfolding(rc_model::specs::Mirrors::Descent::branches_by))]
fn parse_cases(
    alloc: Global,
    below: usize,
    tokens: Tokens<'_>,
) -> Result<(Vec<Branch>, Tokens<'_>), TokenError>
    ensures { Gives (λ x. (branches_tree x.0.items, lexemes_of x.1)) result
        (branches_by (read below) (lexemes_of tokens.entry)) }
{
    let Some((TokenKind::LeftBrace, _, inner)) = tokens.first() else {
        return Err(fault_at(DescentFault::Unexpected, tokens));
    };
    let mut branches = Vec::new(alloc);
    let mut rest = inner;
    let turns = inner.len();
    for _ in 0..turns {
        match rest.first() {
            Some((TokenKind::RightBrace, _, after)) => return Ok((branches, after)),
            Some((TokenKind::Semicolon, _, after)) => rest = after,
            Some((TokenKind::Newline, _, after)) => rest = after,
            Some((TokenKind::Word, text, after)) if is_case(text) => {
                let (branch, after) = parse_case(alloc, below, past_caret(after))?;
                branches.push(branch)?;
                rest = after;
            }
            _ => break,
        }
    }
    Err(fault_at(DescentFault::Unexpected, rest))
}

/// Parses what follows `switch`.
#[cycle(parse)]
#[tactic(auto, using(crate::proofs::Steps::steps), unfolding(rc_model::specs::Mirrors::Descent::switch_by))]
pub(crate) fn parse_switch(
    alloc: Global,
    below: usize,
    tokens: Tokens<'_>,
) -> Result<(Box<Cmd>, Tokens<'_>), TokenError>
    ensures { Gives (λ x. (cmd_tree x.0.value, lexemes_of x.1)) result
        (switch_by (read below) (lexemes_of tokens.entry)) }
{
    let (subject, rest) = parse_boxed_argument(alloc, below, false, tokens)?;
    let (branches, rest) = parse_cases(alloc, below, past_newlines(rest))?;
    let command = Box::new(alloc, Cmd::Switch(Box::into_inner(subject), branches))?;
    let (redirs, rest) = parse_redirections(alloc, below, rest)?;
    Ok((redirect(alloc, redirs, command)?, rest))
}
