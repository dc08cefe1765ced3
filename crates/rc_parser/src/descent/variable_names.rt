//! Names after `$`, `$#` and `$"`.

ghost use Rattle.rc_model.specs.Syntax.Tree as t;
ghost use Rattle.rc_model.specs.Mirrors.Descent.{read, a_name};
ghost use Rattle.rc_tree.specs.View.{arg_tree};
ghost use Rattle.rc_parser.specs.Tokens.{lexemes_of};
ghost use Rattle.rc_parser.specs.Results.{Gives};
ghost use Rattle.rc_parser.specs.Reading.{made};

use crate::parsed_words::{parse_plain, parse_quoted};
use crate::token_stream::Tokens;
use crate::token_stream::token_faults::{TokenError, fault_at};
use rc_lexer::TokenKind;
use rc_model::DescentFault;
use rc_tree::Arg;
use std::alloc::Global;

/// Parses a name after a `$`.
#[tactic(auto, using(crate::proofs::Steps::levels), unfolding(rc_model::specs::Mirrors::Descent::name_by))]
pub(crate) fn parse_name(
    alloc: Global,
    left: usize,
    tokens: Tokens<'_>,
) -> Result<(Arg, Tokens<'_>), TokenError>
    ensures { Gives (λ x. (arg_tree x.0, lexemes_of x.1)) result (read left a_name (lexemes_of tokens.entry)) }
{
    if left == 0 {
        return Err(fault_at(DescentFault::TooDeep, tokens));
    }
    match tokens.first() {
        Some((TokenKind::Name, text, rest)) => parse_plain(alloc, text, rest),
        Some((TokenKind::Quoted, text, rest)) => parse_quoted(alloc, text, rest),
        Some((TokenKind::Dollar, _, rest)) => {
            let (inner, rest) = parse_name(alloc, left - 1, rest)?;
            Ok((Arg::Var(Box::new(alloc, inner)?), rest))
        }
        _ => Err(fault_at(DescentFault::Unexpected, tokens)),
    }
}

/// Parses what follows `$#`: the name of the variable whose values are counted.
#[tactic(auto, using(rc_tree::specs::View::tree_Count, std::proofs::lemmas::Grind::common_steps))]
pub(crate) fn parse_count(
    alloc: Global,
    left: usize,
    tokens: Tokens<'_>,
) -> Result<(Arg, Tokens<'_>), TokenError>
    ensures { Gives (λ x. (arg_tree x.0, lexemes_of x.1)) result
        (made t.Count (read left a_name (lexemes_of tokens.entry))) }
{
    let (name, rest) = parse_name(alloc, left, tokens)?;
    Ok((Arg::Count(Box::new(alloc, name)?), rest))
}

/// Parses what follows `$"`: the name of the variable whose values are joined.
#[tactic(auto, using(rc_tree::specs::View::tree_Flat, std::proofs::lemmas::Grind::common_steps))]
pub(crate) fn parse_flat(
    alloc: Global,
    left: usize,
    tokens: Tokens<'_>,
) -> Result<(Arg, Tokens<'_>), TokenError>
    ensures { Gives (λ x. (arg_tree x.0, lexemes_of x.1)) result
        (made t.Flat (read left a_name (lexemes_of tokens.entry))) }
{
    let (name, rest) = parse_name(alloc, left, tokens)?;
    Ok((Arg::Flat(Box::new(alloc, name)?), rest))
}
