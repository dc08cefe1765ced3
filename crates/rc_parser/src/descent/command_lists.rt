//! Lists of commands, including those in braces and in parentheses.

ghost use Rattle.rc_model.specs.Mirrors.Descent.{read, a_list, brace_by, paren_by, items_by};
ghost use Rattle.rc_tree.specs.View.{cmd_tree, items_tree};
ghost use Rattle.rc_parser.specs.Tokens.{lexemes_of};
ghost use Rattle.rc_parser.specs.Results.{Gives};

use crate::descent::commands::parse_command;
use crate::joined_nodes::allows_if_not;
use crate::token_stream::Tokens;
use crate::token_stream::lookahead::{ends, item_end};
use crate::token_stream::token_faults::{TokenError, fault_at};
use rc_lexer::TokenKind;
use rc_model::DescentFault;
use rc_tree::{Cmd, Item, push_item};
use std::alloc::Global;

/// Parses the commands of a list. In a switch it also ends before a case line.
#[cycle(parse)]
#[tactic(auto, using(crate::proofs::Turns::items))]
fn parse_items(
    alloc: Global,
    below: usize,
    in_switch: bool,
    tokens: Tokens<'_>,
) -> Result<(Vec<Item>, Tokens<'_>), TokenError>
    ensures { Gives (λ x. (items_tree x.0.items, lexemes_of x.1)) result
        (items_by (read below) in_switch (lexemes_of tokens.entry)) }
{
    let mut items = Vec::new(alloc);
    let mut rest = tokens;
    let mut after_if = false;
    let turns = tokens.len();
    for _ in 0..turns {
        if ends(in_switch, rest) {
            break;
        }
        match rest.first() {
            Some((TokenKind::Semicolon, _, after)) => rest = after,
            Some((TokenKind::Newline, _, after)) => rest = after,
            _ => {
                let (cmd, after) = parse_command(alloc, below, after_if, rest)?;
                let (background, after) = item_end(after)?;
                after_if = allows_if_not(background, &cmd);
                push_item(&mut items, cmd, background)?;
                rest = after;
            }
        }
    }
    Ok((items, rest))
}

/// Parses the commands of a list, one level deeper. In a switch it also ends before a case line.
#[cycle(parse)]
#[tactic(auto, using(crate::proofs::Steps::levels))]
pub(crate) fn parse_list(
    alloc: Global,
    left: usize,
    in_switch: bool,
    tokens: Tokens<'_>,
) -> Result<(Vec<Item>, Tokens<'_>), TokenError>
    ensures { Gives (λ x. (items_tree x.0.items, lexemes_of x.1)) result
        (read left (a_list in_switch) (lexemes_of tokens.entry)) }
{
    if left == 0 {
        return Err(fault_at(DescentFault::TooDeep, tokens));
    }
    parse_items(alloc, left - 1, in_switch, tokens)
}

/// Parses a list in braces.
#[cycle(parse)]
#[tactic(auto, using(rc_tree::specs::View::tree_walks), unfolding(rc_model::specs::Mirrors::Descent::brace_by))]
pub(crate) fn parse_brace(
    alloc: Global,
    below: usize,
    tokens: Tokens<'_>,
) -> Result<(Box<Cmd>, Tokens<'_>), TokenError>
    ensures { Gives (λ x. (cmd_tree x.0.value, lexemes_of x.1)) result
        (brace_by (read below) (lexemes_of tokens.entry)) }
{
    let Some((TokenKind::LeftBrace, _, rest)) = tokens.first() else {
        return Err(fault_at(DescentFault::Unexpected, tokens));
    };
    let (items, rest) = parse_list(alloc, below, false, rest)?;
    match rest.first() {
        Some((TokenKind::RightBrace, _, rest)) => Ok((Box::new(alloc, Cmd::Seq(items))?, rest)),
        _ => Err(fault_at(DescentFault::Unexpected, rest)),
    }
}

/// Parses a list in parentheses.
#[cycle(parse)]
#[tactic(auto, using(rc_tree::specs::View::tree_walks), unfolding(rc_model::specs::Mirrors::Descent::paren_by))]
pub(crate) fn parse_paren(
    alloc: Global,
    below: usize,
    tokens: Tokens<'_>,
) -> Result<(Box<Cmd>, Tokens<'_>), TokenError>
    ensures { Gives (λ x. (cmd_tree x.0.value, lexemes_of x.1)) result
        (paren_by (read below) (lexemes_of tokens.entry)) }
{
    let Some((TokenKind::LeftParen, _, rest)) = tokens.first() else {
        return Err(fault_at(DescentFault::Unexpected, tokens));
    };
    let (items, rest) = parse_list(alloc, below, false, rest)?;
    match rest.first() {
        Some((TokenKind::RightParen, _, rest)) => Ok((Box::new(alloc, Cmd::Seq(items))?, rest)),
        _ => Err(fault_at(DescentFault::Unexpected, rest)),
    }
}
