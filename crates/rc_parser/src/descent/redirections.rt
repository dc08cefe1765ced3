//! Redirections.

ghost use Rattle.std.specs.Prelude.{false};
ghost use Rattle.rc_model.specs.Syntax.Tree as t;
ghost use Rattle.rc_model.specs.Mirrors.Descent.{read, a_part, arg_by, redir_by, redirs_by};
ghost use Rattle.rc_tree.specs.View.{redir_tree, redirs_tree};
ghost use Rattle.rc_parser.specs.Tokens.{lexemes_of};
ghost use Rattle.rc_parser.specs.Results.{Gives};
ghost use Rattle.rc_parser.specs.Reading.{made};

use crate::descent::arguments::parse_argument;
use crate::parsed_words::parse_here_doc;
use crate::token_stream::Tokens;
use crate::token_stream::lookahead::begins_redir;
use crate::token_stream::token_faults::{TokenError, fault_at};
use rc_lexer::TokenKind;
use rc_model::{DescentFault, Mode};
use rc_tree::Redir;
use std::alloc::Global;

/// Parses a redirection.
#[cycle(parse)]
#[tactic(auto, using(rc_tree::specs::View::tree_walks), unfolding(rc_model::specs::Mirrors::Descent::redir_by))]
pub(crate) fn parse_redirection(
    alloc: Global,
    left: usize,
    tokens: Tokens<'_>,
) -> Result<(Redir, Tokens<'_>), TokenError>
    ensures { Gives (λ x. (redir_tree x.0, lexemes_of x.1)) result
        (redir_by (read left (a_part false)) (lexemes_of tokens.entry)) }
{
    match tokens.first() {
        Some((TokenKind::Redirection(mode, slot), _, rest)) => {
            parse_file_redirection(alloc, left, mode, slot, rest)
        }
        Some((TokenKind::CopyTo { to, from }, _, rest)) => Ok((Redir::Copy { to, from }, rest)),
        Some((TokenKind::HereDoc { .. }, _, _)) => parse_here_doc(alloc, tokens),
        _ => Err(fault_at(DescentFault::Unexpected, tokens)),
    }
}

/// Parses what follows the operator of a redirection to a file, or from one.
#[cycle(parse)]
#[tactic(auto, using(rc_tree::specs::View::tree_Open, std::proofs::lemmas::Grind::common_steps))]
fn parse_file_redirection(
    alloc: Global,
    left: usize,
    mode: Mode,
    slot: u8,
    tokens: Tokens<'_>,
) -> Result<(Redir, Tokens<'_>), TokenError>
    ensures { Gives (λ x. (redir_tree x.0, lexemes_of x.1)) result
        (made (t.Open mode slot) (arg_by (read left (a_part false)) false (lexemes_of tokens.entry))) }
{
    let (file, rest) = parse_argument(alloc, left, false, tokens)?;
    Ok((Redir::Open { mode, slot, file }, rest))
}

/// Parses as many redirections as there are.
#[cycle(parse)]
#[tactic(auto, using(crate::proofs::Turns::redirs))]
pub(crate) fn parse_redirections(
    alloc: Global,
    left: usize,
    tokens: Tokens<'_>,
) -> Result<(Vec<Redir>, Tokens<'_>), TokenError>
    ensures { Gives (λ x. (redirs_tree x.0.items, lexemes_of x.1)) result
        (redirs_by (read left (a_part false)) (lexemes_of tokens.entry)) }
{
    let mut redirs = Vec::new(alloc);
    let mut rest = tokens;
    let turns = tokens.len();
    for _ in 0..turns {
        if !begins_redir(rest) {
            break;
        }
        let (redir, after) = parse_redirection(alloc, left, rest)?;
        redirs.push(redir)?;
        rest = after;
    }
    Ok((redirs, rest))
}
