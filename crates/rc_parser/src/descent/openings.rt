//! The stages of a pipeline.

ghost use Rattle.std.specs.Prelude.{false};
ghost use Rattle.rc_model.specs.Syntax.Tree.{more};
ghost use Rattle.rc_model.specs.Syntax.Tree as t;
ghost use Rattle.rc_model.specs.Syntax.Grammar.{redirect};
ghost use Rattle.rc_model.specs.Mirrors.Descent as d;
ghost use Rattle.rc_model.specs.Mirrors.Descent.{read, a_part, simple_by, match_by, define_by, block_by, first_by};
ghost use Rattle.rc_model.specs.Mirrors.Descent.{defined_by, opening_by};
ghost use Rattle.rc_tree.specs.View.{cmd_tree, arg_tree, args_tree, redirs_tree};
ghost use Rattle.rc_parser.specs.Tokens.{lexemes_of};
ghost use Rattle.rc_parser.specs.Results.{Gives};
ghost use Rattle.rc_parser.specs.Reading.{made, opening_of, simple_after};

use crate::descent::arguments::{parse_argument, parse_words};
use crate::descent::command_lists::parse_brace;
use crate::descent::redirections::{parse_redirection, parse_redirections};
use crate::descent::switches::parse_switch;
use crate::joined_nodes::{list_of, redirect};
use crate::parsed_words::keyword_of;
use crate::token_stream::Tokens;
use crate::token_stream::lookahead::{begins_arg, begins_brace, begins_redir, past_caret};
use crate::token_stream::token_faults::{TokenError, fault_at};
use rc_lexer::TokenKind;
use rc_model::{DescentFault, Keyword};
use rc_tree::{Arg, Cmd, Redir, shared};
use std::alloc::Global;

/// How an operand begins.
#[derive(Drop)]
pub(crate) enum Opening {
    /// A stage of a pipeline.
    Staged(Box<Cmd>),
    /// The name of an assignment. The `=` follows it.
    Named(Arg),
}

/// Parses as many words and redirections as there are, after these words.
#[cycle(parse)]
#[tactic(auto, using(crate::proofs::Turns::simple))]
fn parse_simple(
    alloc: Global,
    left: usize,
    mut words: Vec<Arg>,
    tokens: Tokens<'_>,
) -> Result<((Vec<Arg>, Vec<Redir>), Tokens<'_>), TokenError>
    ensures { Gives (λ x. ((args_tree x.0.0.items, redirs_tree x.0.1.items), lexemes_of x.1)) result
        (simple_after (read left (a_part false)) (args_tree words.items) (lexemes_of tokens.entry)) }
{
    let mut redirs = Vec::new(alloc);
    let mut rest = tokens;
    let turns = tokens.len();
    for _ in 0..turns {
        if begins_arg(rest) {
            let (word, after) = parse_argument(alloc, left, false, rest)?;
            words.push(word)?;
            rest = after;
        } else if begins_redir(rest) {
            let (redir, after) = parse_redirection(alloc, left, rest)?;
            redirs.push(redir)?;
            rest = after;
        } else {
            break;
        }
    }
    Ok(((words, redirs), rest))
}

/// Parses what follows `~`.
#[cycle(parse)]
#[tactic(auto, using(rc_tree::specs::View::tree_walks), unfolding(rc_model::specs::Mirrors::Descent::match_by))]
fn parse_match(
    alloc: Global,
    below: usize,
    tokens: Tokens<'_>,
) -> Result<(Box<Cmd>, Tokens<'_>), TokenError>
    ensures { Gives (λ x. (cmd_tree x.0.value, lexemes_of x.1)) result
        (match_by (read below) (lexemes_of tokens.entry)) }
{
    let (subject, rest) = parse_argument(alloc, below, false, tokens)?;
    let (patterns, rest) = parse_words(alloc, below, rest)?;
    Ok((Box::new(alloc, Cmd::Match(subject, patterns))?, rest))
}

/// Parses what follows `fn`.
#[cycle(parse)]
#[tactic(auto, using(crate::proofs::Steps::steps), unfolding(rc_model::specs::Mirrors::Descent::define_by))]
fn parse_define(
    alloc: Global,
    below: usize,
    tokens: Tokens<'_>,
) -> Result<(Box<Cmd>, Tokens<'_>), TokenError>
    ensures { Gives (λ x. (cmd_tree x.0.value, lexemes_of x.1)) result
        (define_by (read below) (lexemes_of tokens.entry)) }
{
    let (first, rest) = parse_argument(alloc, below, false, tokens)?;
    let (mut names, rest) = parse_words(alloc, below, rest)?;
    names.insert(0, first)?;
    parse_defined(alloc, below, names, rest)
}

/// Parses what follows the names of `fn`: the body that they get, or nothing if they are removed.
#[cycle(parse)]
#[tactic(auto, using(rc_tree::specs::View::tree_walks))]
fn parse_defined(
    alloc: Global,
    below: usize,
    names: Vec<Arg>,
    tokens: Tokens<'_>,
) -> Result<(Box<Cmd>, Tokens<'_>), TokenError>
    ensures { Gives (λ x. (cmd_tree x.0.value, lexemes_of x.1)) result
        (defined_by (read below) (args_tree names.items) (lexemes_of tokens.entry)) }
{
    if !begins_brace(tokens) {
        return Ok((Box::new(alloc, Cmd::Undefine(names))?, tokens));
    }
    let (body, rest) = parse_brace(alloc, below, tokens)?;
    let body = shared(alloc, body)?;
    Ok((Box::new(alloc, Cmd::Define(names, body))?, rest))
}

/// Parses a list in braces as a command.
#[cycle(parse)]
#[tactic(auto, using(rc_tree::specs::View::tree_walks), unfolding(rc_model::specs::Mirrors::Descent::block_by))]
fn parse_block(
    alloc: Global,
    below: usize,
    tokens: Tokens<'_>,
) -> Result<(Box<Cmd>, Tokens<'_>), TokenError>
    ensures { Gives (λ x. (cmd_tree x.0.value, lexemes_of x.1)) result
        (block_by (read below) (lexemes_of tokens.entry)) }
{
    let (body, rest) = parse_brace(alloc, below, tokens)?;
    let body = Box::new(alloc, Cmd::Brace(body))?;
    let (redirs, rest) = parse_redirections(alloc, below, rest)?;
    Ok((redirect(alloc, redirs, body)?, rest))
}

/// Parses a simple command, or the name of an assignment.
#[cycle(parse)]
#[tactic(auto, using(std::proofs::lemmas::Grind::common_steps), unfolding(rc_model::specs::Mirrors::Descent::first_by))]
fn parse_first(
    alloc: Global,
    below: usize,
    tokens: Tokens<'_>,
) -> Result<(Opening, Tokens<'_>), TokenError>
    ensures { Gives (λ x. (opening_of x.0, lexemes_of x.1)) result
        (first_by (read below) (lexemes_of tokens.entry)) }
{
    let (first, rest) = parse_argument(alloc, below, false, tokens)?;
    match rest.first() {
        Some((TokenKind::Equals, _, rest)) => Ok((Opening::Named(first), rest)),
        _ => parse_simple_command(alloc, below, first, rest),
    }
}

/// Parses the simple command that begins with this argument.
#[cycle(parse)]
#[tactic(auto, using(crate::proofs::Turns::commands))]
fn parse_simple_command(
    alloc: Global,
    below: usize,
    first: Arg,
    tokens: Tokens<'_>,
) -> Result<(Opening, Tokens<'_>), TokenError>
    ensures { Gives (λ x. (opening_of x.0, lexemes_of x.1)) result
        (made (λ x. d.Staged (redirect x.1 (t.Simple (more (arg_tree first) x.0))))
        (simple_by (read below (a_part false)) (lexemes_of tokens.entry))) }
{
    let words = list_of(alloc, first)?;
    let ((words, redirs), rest) = parse_simple(alloc, below, words, tokens)?;
    let command = Box::new(alloc, Cmd::Simple(words))?;
    let command = redirect(alloc, redirs, command)?;
    Ok((Opening::Staged(command), rest))
}

/// Parses the beginning of an operand.
#[cycle(parse)]
#[tactic(auto, unfolding(rc_model::specs::Mirrors::Descent::opening_by, rc_model::specs::Mirrors::Descent::worded_by))]
pub(crate) fn parse_opening(
    alloc: Global,
    below: usize,
    tokens: Tokens<'_>,
) -> Result<(Opening, Tokens<'_>), TokenError>
    ensures { Gives (λ x. (opening_of x.0, lexemes_of x.1)) result
        (opening_by (read below) (lexemes_of tokens.entry)) }
{
    let (command, rest) = match tokens.first() {
        Some((TokenKind::Word, text, rest)) => match keyword_of(text) {
            Keyword::Switch => parse_switch(alloc, below, past_caret(rest))?,
            Keyword::Match => parse_match(alloc, below, past_caret(rest))?,
            Keyword::Fn => parse_define(alloc, below, past_caret(rest))?,
            Keyword::Plain => return parse_first(alloc, below, tokens),
            _ => return Err(fault_at(DescentFault::Unexpected, tokens)),
        },
        Some((TokenKind::LeftBrace, _, _)) => parse_block(alloc, below, tokens)?,
        _ => return parse_first(alloc, below, tokens),
    };
    Ok((Opening::Staged(command), rest))
}
