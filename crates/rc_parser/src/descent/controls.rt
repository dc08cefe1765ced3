//! The control forms.

ghost use Rattle.std.specs.Prelude.{true};
ghost use Rattle.rc_model.specs.Syntax.Tree as t;
ghost use Rattle.rc_model.specs.Mirrors.Descent.{read, an_operand, body_by, otherwise_by, condition_by, if_by, while_by};
ghost use Rattle.rc_model.specs.Mirrors.Descent.{listed_by, over_by, for_by, control_by};
ghost use Rattle.rc_model.specs.declared.syntax.Keyword.TheVariants as keyword;
ghost use Rattle.rc_tree.specs.View.{cmd_tree, arg_tree};
ghost use Rattle.rc_parser.specs.Tokens.{lexemes_of};
ghost use Rattle.rc_parser.specs.Results.{Gives};
ghost use Rattle.rc_parser.specs.Reading.{made};

use crate::descent::arguments::{parse_boxed_argument, parse_members};
use crate::descent::command_lists::parse_paren;
use crate::descent::commands::{parse_command, parse_inner_operand};
use crate::parsed_words::keyword_of;
use crate::token_stream::Tokens;
use crate::token_stream::lookahead::{begins_command, begins_link, past_caret, past_newlines};
use crate::token_stream::token_faults::{TokenError, fault_at};
use rc_lexer::TokenKind;
use rc_model::{DescentFault, Keyword};
use rc_tree::{Arg, Cmd, shared};
use std::alloc::Global;

/// Parses the body of a control form, which may be absent.
#[cycle(parse)]
#[tactic(auto, using(rc_tree::specs::View::tree_walks), unfolding(rc_model::specs::Mirrors::Descent::body_by))]
fn parse_body(
    alloc: Global,
    below: usize,
    tokens: Tokens<'_>,
) -> Result<(Box<Cmd>, Tokens<'_>), TokenError>
    ensures { Gives (λ x. (cmd_tree x.0.value, lexemes_of x.1)) result
        (body_by (read below) (lexemes_of tokens.entry)) }
{
    let rest = past_newlines(tokens);
    if begins_command(rest) {
        parse_command(alloc, below, false, rest)
    } else if begins_link(rest) {
        Err(fault_at(DescentFault::Unexpected, rest))
    } else {
        Ok((Box::new(alloc, Cmd::Empty)?, rest))
    }
}

/// Parses what follows `if`.
#[cycle(parse)]
#[tactic(auto, using(std::proofs::lemmas::Grind::common_steps), unfolding(rc_model::specs::Mirrors::Descent::if_by))]
fn parse_if(
    alloc: Global,
    below: usize,
    after_if: bool,
    tokens: Tokens<'_>,
) -> Result<(Box<Cmd>, Tokens<'_>), TokenError>
    ensures { Gives (λ x. (cmd_tree x.0.value, lexemes_of x.1)) result
        (if_by (read below) after_if (lexemes_of tokens.entry)) }
{
    let Some((TokenKind::Word, text, rest)) = tokens.first() else {
        return parse_condition(alloc, below, tokens);
    };
    let Keyword::Not = keyword_of(text) else {
        return Err(fault_at(DescentFault::Unexpected, tokens));
    };
    if !after_if {
        return Err(fault_at(DescentFault::IfNot, tokens));
    }
    parse_if_not(alloc, below, rest)
}

/// Parses what follows `if not`: a body.
#[cycle(parse)]
#[tactic(auto, using(rc_tree::specs::View::tree_IfNot, std::proofs::lemmas::Grind::common_steps))]
fn parse_if_not(
    alloc: Global,
    below: usize,
    tokens: Tokens<'_>,
) -> Result<(Box<Cmd>, Tokens<'_>), TokenError>
    ensures { Gives (λ x. (cmd_tree x.0.value, lexemes_of x.1)) result
        (otherwise_by (read below) (lexemes_of tokens.entry)) }
{
    let (body, rest) = parse_body(alloc, below, past_caret(tokens))?;
    Ok((Box::new(alloc, Cmd::IfNot(body))?, rest))
}

/// Parses what follows `if`, if that is a condition: it, and a body.
#[cycle(parse)]
#[tactic(auto, using(rc_tree::specs::View::tree_If, std::proofs::lemmas::Grind::common_steps))]
fn parse_condition(
    alloc: Global,
    below: usize,
    tokens: Tokens<'_>,
) -> Result<(Box<Cmd>, Tokens<'_>), TokenError>
    ensures { Gives (λ x. (cmd_tree x.0.value, lexemes_of x.1)) result
        (condition_by (read below) (lexemes_of tokens.entry)) }
{
    let (condition, rest) = parse_paren(alloc, below, tokens)?;
    let (body, rest) = parse_body(alloc, below, rest)?;
    Ok((Box::new(alloc, Cmd::If(condition, body))?, rest))
}

/// Parses what follows `while`.
#[cycle(parse)]
#[tactic(auto, using(rc_tree::specs::View::tree_walks), unfolding(rc_model::specs::Mirrors::Descent::while_by))]
fn parse_while(
    alloc: Global,
    below: usize,
    tokens: Tokens<'_>,
) -> Result<(Box<Cmd>, Tokens<'_>), TokenError>
    ensures { Gives (λ x. (cmd_tree x.0.value, lexemes_of x.1)) result
        (while_by (read below) (lexemes_of tokens.entry)) }
{
    let (condition, rest) = parse_paren(alloc, below, tokens)?;
    let (body, rest) = parse_body(alloc, below, rest)?;
    Ok((Box::new(alloc, Cmd::While(condition, body))?, rest))
}

/// Parses what follows the name of a `for`.
#[cycle(parse)]
#[tactic(auto, using(std::proofs::lemmas::Grind::common_steps), unfolding(rc_model::specs::Mirrors::Descent::over_by))]
fn parse_over(
    alloc: Global,
    below: usize,
    name: Box<Arg>,
    tokens: Tokens<'_>,
) -> Result<(Box<Cmd>, Tokens<'_>), TokenError>
    ensures { Gives (λ x. (cmd_tree x.0.value, lexemes_of x.1)) result
        (over_by (read below) (arg_tree name.value) (lexemes_of tokens.entry)) }
{
    match tokens.first() {
        Some((TokenKind::RightParen, _, rest)) => parse_for_all(alloc, below, name, rest),
        Some((TokenKind::Word, text, rest)) => {
            let Keyword::In = keyword_of(text) else {
                return Err(fault_at(DescentFault::Unexpected, tokens));
            };
            parse_for_each(alloc, below, name, rest)
        }
        _ => Err(fault_at(DescentFault::Unexpected, tokens)),
    }
}

/// Parses what follows `for(name)`: a body. It is never inlined into `parse_over`, so that its locals take no stack
/// when a list follows.
#[inline(never)]
#[cycle(parse)]
#[tactic(auto, using(rc_tree::specs::View::tree_ForAll, std::proofs::lemmas::Grind::common_steps))]
fn parse_for_all(
    alloc: Global,
    below: usize,
    name: Box<Arg>,
    tokens: Tokens<'_>,
) -> Result<(Box<Cmd>, Tokens<'_>), TokenError>
    ensures { Gives (λ x. (cmd_tree x.0.value, lexemes_of x.1)) result
        (made (t.ForAll (arg_tree name.value)) (body_by (read below) (lexemes_of tokens.entry))) }
{
    let (body, rest) = parse_body(alloc, below, tokens)?;
    Ok((
        Box::new(alloc, Cmd::ForAll(Box::into_inner(name), body))?,
        rest,
    ))
}

/// Parses what follows the `in` of a `for`: a list and a body.
#[cycle(parse)]
#[tactic(auto, using(rc_tree::specs::View::tree_For, std::proofs::lemmas::Grind::common_steps))]
fn parse_for_each(
    alloc: Global,
    below: usize,
    name: Box<Arg>,
    tokens: Tokens<'_>,
) -> Result<(Box<Cmd>, Tokens<'_>), TokenError>
    ensures { Gives (λ x. (cmd_tree x.0.value, lexemes_of x.1)) result
        (listed_by (read below) (arg_tree name.value) (lexemes_of tokens.entry)) }
{
    let (words, rest) = parse_members(alloc, below, past_caret(tokens))?;
    let (body, rest) = parse_body(alloc, below, rest)?;
    Ok((
        Box::new(alloc, Cmd::For(Box::into_inner(name), words, body))?,
        rest,
    ))
}

/// Parses what follows `for`.
#[cycle(parse)]
#[tactic(auto, unfolding(rc_model::specs::Mirrors::Descent::for_by))]
fn parse_for(
    alloc: Global,
    below: usize,
    tokens: Tokens<'_>,
) -> Result<(Box<Cmd>, Tokens<'_>), TokenError>
    ensures { Gives (λ x. (cmd_tree x.0.value, lexemes_of x.1)) result
        (for_by (read below) (lexemes_of tokens.entry)) }
{
    let Some((TokenKind::LeftParen, _, rest)) = tokens.first() else {
        return Err(fault_at(DescentFault::Unexpected, tokens));
    };
    let (name, rest) = parse_boxed_argument(alloc, below, true, past_newlines(rest))?;
    parse_over(alloc, below, name, past_newlines(rest))
}

/// Parses what follows `!`.
#[cycle(parse)]
#[tactic(auto, using(rc_tree::specs::View::tree_Not, std::proofs::lemmas::Grind::common_steps))]
fn parse_not(
    alloc: Global,
    below: usize,
    tokens: Tokens<'_>,
) -> Result<(Box<Cmd>, Tokens<'_>), TokenError>
    ensures { Gives (λ x. (cmd_tree x.0.value, lexemes_of x.1)) result
        (made t.Not (read below an_operand (lexemes_of tokens.entry))) }
{
    let (cmd, rest) = parse_inner_operand(alloc, below, tokens)?;
    Ok((Box::new(alloc, Cmd::Not(cmd))?, rest))
}

/// Parses what follows `@`.
#[cycle(parse)]
#[tactic(auto, using(rc_tree::specs::View::tree_Subshell, std::proofs::lemmas::Grind::common_steps))]
fn parse_subshell(
    alloc: Global,
    below: usize,
    tokens: Tokens<'_>,
) -> Result<(Box<Cmd>, Tokens<'_>), TokenError>
    ensures { Gives (λ x. (cmd_tree x.0.value, lexemes_of x.1)) result
        (made t.Subshell (read below an_operand (lexemes_of tokens.entry))) }
{
    let (cmd, rest) = parse_inner_operand(alloc, below, tokens)?;
    let cmd = shared(alloc, cmd)?;
    Ok((Box::new(alloc, Cmd::Subshell(cmd))?, rest))
}

/// Parses what follows `!`, `@` and the control words.
#[cycle(parse)]
#[tactic(auto, using(crate::proofs::Steps::steps), unfolding(rc_model::specs::Mirrors::Descent::control_by))]
pub(crate) fn parse_control(
    alloc: Global,
    below: usize,
    after_if: bool,
    keyword: Keyword,
    tokens: Tokens<'_>,
) -> Result<(Box<Cmd>, Tokens<'_>), TokenError>
    ensures { Gives (λ x. (cmd_tree x.0.value, lexemes_of x.1)) result
        (control_by (read below) after_if keyword (lexemes_of tokens.entry)) }
{
    let rest = past_caret(tokens);
    match keyword {
        Keyword::Bang => parse_not(alloc, below, rest),
        Keyword::At => parse_subshell(alloc, below, rest),
        Keyword::If => parse_if(alloc, below, after_if, rest),
        Keyword::While => parse_while(alloc, below, rest),
        Keyword::For => parse_for(alloc, below, rest),
        _ => Err(fault_at(DescentFault::Unexpected, tokens)),
    }
}
