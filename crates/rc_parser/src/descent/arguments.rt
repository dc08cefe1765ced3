//! The arguments of a command.

ghost use Rattle.std.specs.Prelude.{true, false};
ghost use Rattle.rc_model.specs.Syntax.Tree as t;
ghost use Rattle.rc_model.specs.Mirrors.Descent.{read, a_part, parts_by, arg_by, members_by, words_by};
ghost use Rattle.rc_model.specs.Mirrors.Descent.{brace_by, dollar_by};
ghost use Rattle.rc_model.specs.Syntax.Grammar.{concat_of, past_blanks};
ghost use Rattle.rc_tree.specs.View.{arg_tree, args_tree};
ghost use Rattle.rc_parser.specs.Tokens.{lexemes_of};
ghost use Rattle.rc_parser.specs.Results.{Gives};
ghost use Rattle.rc_parser.specs.Reading.{made};

use crate::descent::command_lists::parse_brace;
use crate::descent::variable_names::{parse_count, parse_flat, parse_name};
use crate::joined_nodes::concat;
use crate::parsed_words::{parse_plain, parse_quoted};
use crate::token_stream::Tokens;
use crate::token_stream::lookahead::{after_caret, begins_arg, lone_word, past_blanks};
use crate::token_stream::token_faults::{TokenError, fault_at};
use rc_lexer::TokenKind;
use rc_model::DescentFault;
use rc_tree::{Arg, shared};
use std::alloc::Global;

/// Parses a part of an argument. Inside parentheses newlines are blanks.
#[cycle(parse)]
#[tactic(auto, using(crate::proofs::Steps::levels), unfolding(rc_model::specs::Mirrors::Descent::part_by))]
fn parse_part(
    alloc: Global,
    left: usize,
    inside: bool,
    tokens: Tokens<'_>,
) -> Result<(Arg, Tokens<'_>), TokenError>
    ensures { Gives (λ x. (arg_tree x.0, lexemes_of x.1)) result
        (read left (a_part inside) (lexemes_of tokens.entry)) }
{
    if left == 0 {
        return Err(fault_at(DescentFault::TooDeep, tokens));
    }
    match tokens.first() {
        Some((TokenKind::Word, text, rest)) => parse_plain(alloc, text, rest),
        Some((TokenKind::Quoted, text, rest)) => parse_quoted(alloc, text, rest),
        Some((TokenKind::LeftParen, _, rest)) => parse_group(alloc, left - 1, rest),
        Some((TokenKind::Backquote, _, rest)) => parse_backquote(alloc, left - 1, inside, rest),
        Some((TokenKind::Dollar, _, rest)) => parse_dollar(alloc, left - 1, rest),
        Some((TokenKind::DollarCount, _, rest)) => parse_count(alloc, left - 1, rest),
        Some((TokenKind::DollarFlat, _, rest)) => parse_flat(alloc, left - 1, rest),
        _ => Err(fault_at(DescentFault::Unexpected, tokens)),
    }
}

/// Parses what follows a `(`: a list of arguments.
#[cycle(parse)]
#[tactic(auto, using(rc_tree::specs::View::tree_Paren, std::proofs::lemmas::Grind::common_steps))]
fn parse_group(
    alloc: Global,
    below: usize,
    tokens: Tokens<'_>,
) -> Result<(Arg, Tokens<'_>), TokenError>
    ensures { Gives (λ x. (arg_tree x.0, lexemes_of x.1)) result
        (made t.Paren (members_by (read below (a_part true)) (lexemes_of tokens.entry))) }
{
    let (words, rest) = parse_members(alloc, below, tokens)?;
    Ok((Arg::Paren(words), rest))
}

/// Parses what follows a backquote: a list of commands in braces. Inside parentheses newlines before it are blanks.
#[cycle(parse)]
#[tactic(auto, using(rc_tree::specs::View::tree_Back, std::proofs::lemmas::Grind::common_steps))]
fn parse_backquote(
    alloc: Global,
    below: usize,
    inside: bool,
    tokens: Tokens<'_>,
) -> Result<(Arg, Tokens<'_>), TokenError>
    ensures { Gives (λ x. (arg_tree x.0, lexemes_of x.1)) result
        (made t.Back (brace_by (read below) (past_blanks inside (lexemes_of tokens.entry)))) }
{
    let (body, rest) = parse_brace(alloc, below, past_blanks(inside, tokens))?;
    Ok((Arg::Back(shared(alloc, body)?), rest))
}

/// Parses what follows a `$`: a name, perhaps with subscripts.
#[cycle(parse)]
#[tactic(auto, using(crate::proofs::Steps::steps), unfolding(rc_model::specs::Mirrors::Descent::dollar_by))]
fn parse_dollar(
    alloc: Global,
    below: usize,
    tokens: Tokens<'_>,
) -> Result<(Arg, Tokens<'_>), TokenError>
    ensures { Gives (λ x. (arg_tree x.0, lexemes_of x.1)) result
        (dollar_by (read below) (lexemes_of tokens.entry)) }
{
    let (inner, rest) = parse_name(alloc, below, tokens)?;
    let name = Box::new(alloc, inner)?;
    match rest.first() {
        Some((TokenKind::Subscript, _, rest)) => {
            let (subscripts, rest) = parse_members(alloc, below, rest)?;
            Ok((Arg::Sub(name, subscripts), rest))
        }
        _ => Ok((Arg::Var(name), rest)),
    }
}

/// Parses an argument. Inside parentheses newlines are blanks. Most arguments are one word.
#[cycle(parse)]
pub(crate) fn parse_argument(
    alloc: Global,
    left: usize,
    inside: bool,
    tokens: Tokens<'_>,
) -> Result<(Arg, Tokens<'_>), TokenError>
    ensures { Gives (λ x. (arg_tree x.0, lexemes_of x.1)) result
        (arg_by (read left (a_part inside)) inside (lexemes_of tokens.entry)) }
{
    match lone_word(left, inside, tokens) {
        Some((text, rest)) => parse_plain(alloc, text, rest),
        None => parse_joined(alloc, left, inside, tokens),
    }
}

/// Parses an argument that may have several parts. It is never inlined into `parse_argument`, so that its locals cost
/// an argument of one word nothing.
#[inline(never)]
#[cycle(parse)]
#[tactic(auto, using(crate::proofs::Turns::alone), unfolding(rc_model::specs::Mirrors::Descent::arg_by))]
fn parse_joined(
    alloc: Global,
    left: usize,
    inside: bool,
    tokens: Tokens<'_>,
) -> Result<(Arg, Tokens<'_>), TokenError>
    ensures { Gives (λ x. (arg_tree x.0, lexemes_of x.1)) result
        (arg_by (read left (a_part inside)) inside (lexemes_of tokens.entry)) }
{
    let (first, rest) = parse_part(alloc, left, inside, tokens)?;
    match after_caret(past_blanks(inside, rest)) {
        Some(_) => parse_others(alloc, left, inside, first, rest),
        None => Ok((first, rest)),
    }
}

/// Parses the parts that carets join to this one. It is never inlined, so that its locals take no stack at each level of
/// nesting in an argument of one part.
#[inline(never)]
#[cycle(parse)]
#[tactic(auto, using(std::proofs::lemmas::Grind::common_steps))]
fn parse_others(
    alloc: Global,
    left: usize,
    inside: bool,
    first: Arg,
    tokens: Tokens<'_>,
) -> Result<(Arg, Tokens<'_>), TokenError>
    ensures { Gives (λ x. (arg_tree x.0, lexemes_of x.1)) result
        (made (concat_of (arg_tree first))
        (parts_by (read left (a_part inside)) inside (lexemes_of tokens.entry))) }
{
    let (others, rest) = parse_parts(alloc, left, inside, tokens)?;
    Ok((concat(first, others)?, rest))
}

/// Parses an argument that is held while commands inside are parsed. It is in a box, so that it takes little stack at
/// each level of nesting.
#[inline(never)]
#[cycle(parse)]
#[tactic(auto, using(std::proofs::lemmas::Grind::common_steps))]
pub(crate) fn parse_boxed_argument(
    alloc: Global,
    left: usize,
    inside: bool,
    tokens: Tokens<'_>,
) -> Result<(Box<Arg>, Tokens<'_>), TokenError>
    ensures { Gives (λ x. (arg_tree x.0.value, lexemes_of x.1)) result
        (arg_by (read left (a_part inside)) inside (lexemes_of tokens.entry)) }
{
    let (arg, rest) = parse_argument(alloc, left, inside, tokens)?;
    Ok((Box::new(alloc, arg)?, rest))
}

/// Parses the parts after carets. It is never inlined, so that its locals take no stack at each level of nesting.
#[inline(never)]
#[cycle(parse)]
#[tactic(auto, using(crate::proofs::Turns::parts))]
fn parse_parts(
    alloc: Global,
    left: usize,
    inside: bool,
    tokens: Tokens<'_>,
) -> Result<(Vec<Arg>, Tokens<'_>), TokenError>
    ensures { Gives (λ x. (args_tree x.0.items, lexemes_of x.1)) result
        (parts_by (read left (a_part inside)) inside (lexemes_of tokens.entry)) }
{
    let mut others = Vec::with_capacity(alloc, 2)?;
    let mut rest = tokens;
    let turns = tokens.len();
    for _ in 0..turns {
        let Some(next) = after_caret(past_blanks(inside, rest)) else {
            break;
        };
        let (other, after) = parse_part(alloc, left, inside, past_blanks(inside, next))?;
        others.push(other)?;
        rest = after;
    }
    Ok((others, rest))
}

/// Parses the arguments up to a `)`.
#[cycle(parse)]
#[tactic(auto, using(crate::proofs::Turns::members))]
pub(crate) fn parse_members(
    alloc: Global,
    left: usize,
    tokens: Tokens<'_>,
) -> Result<(Vec<Arg>, Tokens<'_>), TokenError>
    ensures { Gives (λ x. (args_tree x.0.items, lexemes_of x.1)) result
        (members_by (read left (a_part true)) (lexemes_of tokens.entry)) }
{
    let mut words = Vec::new(alloc);
    let mut rest = tokens;
    let turns = tokens.len();
    for _ in 0..turns {
        match rest.first() {
            Some((TokenKind::RightParen, _, after)) => return Ok((words, after)),
            Some((TokenKind::Newline, _, after)) => rest = after,
            _ => {
                let (word, after) = parse_argument(alloc, left, true, rest)?;
                words.push(word)?;
                rest = after;
            }
        }
    }
    Err(fault_at(DescentFault::Unexpected, rest))
}

/// Parses as many arguments as there are.
#[cycle(parse)]
#[tactic(auto, using(crate::proofs::Turns::words))]
pub(crate) fn parse_words(
    alloc: Global,
    left: usize,
    tokens: Tokens<'_>,
) -> Result<(Vec<Arg>, Tokens<'_>), TokenError>
    ensures { Gives (λ x. (args_tree x.0.items, lexemes_of x.1)) result
        (words_by (read left (a_part false)) (lexemes_of tokens.entry)) }
{
    let mut words = Vec::new(alloc);
    let mut rest = tokens;
    let turns = tokens.len();
    for _ in 0..turns {
        if !begins_arg(rest) {
            break;
        }
        let (word, after) = parse_argument(alloc, left, false, rest)?;
        words.push(word)?;
        rest = after;
    }
    Ok((words, rest))
}
