//! The tests of the next token, and what ends an item.

ghost use Rattle.std.specs.Prelude.{◌≡◌, ◌<◌, ◌∷◌, Option, None, option_map, IfSome, IsUtf8};
ghost use Rattle.rc_model.specs.Syntax.Tokens.{Word};
ghost use Rattle.rc_model.specs.Syntax.Grammar.{begins_arg, begins_redir, begins_brace};
ghost use Rattle.rc_model.specs.Syntax.Grammar.{begins_command, begins_bar, begins_link, closes, ends, ends_case, past_newlines};
ghost use Rattle.rc_model.specs.Syntax.Grammar.{past_blanks, past_caret, after_caret};
ghost use Rattle.rc_model.specs.Mirrors.Descent.{begins_leading, item_end};
ghost use Rattle.rc_parser.specs.Tokens.{lexemes_of};
ghost use Rattle.rc_parser.specs.Results.{Gives};

use crate::parsed_words::{is_case, keyword_of};
use crate::token_stream::Tokens;
use crate::token_stream::token_faults::{TokenError, fault_at};
use rc_lexer::TokenKind;
use rc_model::{DescentFault, Keyword};

/// Whether an argument begins here.
pub(crate) fn begins_arg(tokens: Tokens<'_>) -> bool
    ensures { result ≡ begins_arg (lexemes_of tokens.entry) }
{
    match tokens.first() {
        Some((TokenKind::Word, _, _)) => true,
        Some((TokenKind::Quoted, _, _)) => true,
        Some((TokenKind::LeftParen, _, _)) => true,
        Some((TokenKind::Backquote, _, _)) => true,
        Some((TokenKind::Dollar, _, _)) => true,
        Some((TokenKind::DollarCount, _, _)) => true,
        Some((TokenKind::DollarFlat, _, _)) => true,
        _ => false,
    }
}

/// Whether a redirection begins here.
pub(crate) fn begins_redir(tokens: Tokens<'_>) -> bool
    ensures { result ≡ begins_redir (lexemes_of tokens.entry) }
{
    match tokens.first() {
        Some((TokenKind::Redirection(_, _), _, _)) => true,
        Some((TokenKind::CopyTo { .. }, _, _)) => true,
        Some((TokenKind::HereDoc { .. }, _, _)) => true,
        _ => false,
    }
}

/// Whether a `{` stands here.
pub(crate) fn begins_brace(tokens: Tokens<'_>) -> bool
    ensures { result ≡ begins_brace (lexemes_of tokens.entry) }
{
    match tokens.first() {
        Some((TokenKind::LeftBrace, _, _)) => true,
        _ => false,
    }
}

/// Whether a command begins here.
pub(crate) fn begins_command(tokens: Tokens<'_>) -> bool
    ensures { result ≡ begins_command (lexemes_of tokens.entry) }
{
    begins_arg(tokens) || begins_redir(tokens) || begins_brace(tokens)
}

/// Whether `&&` or `||` stands here.
pub(crate) fn begins_link(tokens: Tokens<'_>) -> bool
    ensures { result ≡ begins_link (lexemes_of tokens.entry) }
{
    match tokens.first() {
        Some((TokenKind::AndAnd, _, _)) => true,
        Some((TokenKind::OrOr, _, _)) => true,
        _ => false,
    }
}

/// Whether a bar stands here.
pub(crate) fn begins_bar(tokens: Tokens<'_>) -> bool
    ensures { result ≡ begins_bar (lexemes_of tokens.entry) }
{
    match tokens.first() {
        Some((TokenKind::Bar(_), _, _)) => true,
        _ => false,
    }
}

/// Whether a command begins here with `!`, `@`, a control word or a redirection.
#[inline(always)]
pub(crate) fn begins_leading(tokens: Tokens<'_>) -> bool
    ensures { result ≡ begins_leading (lexemes_of tokens.entry) }
{
    match tokens.first() {
        Some((TokenKind::Word, text, _)) => match keyword_of(text) {
            Keyword::For => true,
            Keyword::While => true,
            Keyword::If => true,
            Keyword::Bang => true,
            Keyword::At => true,
            _ => false,
        },
        _ => begins_redir(tokens),
    }
}

/// Whether a list ends here.
pub(crate) fn closes(tokens: Tokens<'_>) -> bool
    ensures { result ≡ closes (lexemes_of tokens.entry) }
{
    match tokens.first() {
        None => true,
        Some((TokenKind::RightParen, _, _)) => true,
        Some((TokenKind::RightBrace, _, _)) => true,
        _ => false,
    }
}

/// Whether a list ends here, in a switch also before a case line.
pub(crate) fn ends(in_switch: bool, tokens: Tokens<'_>) -> bool
    ensures { result ≡ ends in_switch (lexemes_of tokens.entry) }
{
    match tokens.first() {
        Some((TokenKind::Word, text, _)) => in_switch && is_case(text),
        _ => closes(tokens),
    }
}

/// Whether the words of a case line end here.
pub(crate) fn ends_case(tokens: Tokens<'_>) -> bool
    ensures { result ≡ ends_case (lexemes_of tokens.entry) }
{
    match tokens.first() {
        Some((TokenKind::Semicolon, _, _)) => true,
        Some((TokenKind::Newline, _, _)) => true,
        Some((TokenKind::RightBrace, _, _)) => true,
        _ => false,
    }
}

/// What follows the newlines that stand here.
pub(crate) fn past_newlines(tokens: Tokens<'_>) -> Tokens<'_>
    ensures { lexemes_of result ≡ past_newlines (lexemes_of tokens.entry) }
{
    let mut rest = tokens;
    while let Some((TokenKind::Newline, _, after)) = rest.first() {
        rest = after;
    }
    rest
}

/// The tokens after any newlines here, if newlines are blanks (`inside`); otherwise these tokens.
pub(crate) fn past_blanks(inside: bool, tokens: Tokens<'_>) -> Tokens<'_>
    ensures { lexemes_of result ≡ past_blanks inside (lexemes_of tokens.entry) }
{
    if inside {
        past_newlines(tokens)
    } else {
        tokens
    }
}

/// The tokens after the free caret, if one comes next; otherwise these tokens.
pub(crate) fn past_caret(tokens: Tokens<'_>) -> Tokens<'_>
    ensures { lexemes_of result ≡ past_caret (lexemes_of tokens.entry) }
{
    match tokens.first() {
        Some((TokenKind::FreeCaret, _, rest)) => rest,
        _ => tokens,
    }
}

/// What follows a caret, if one stands here.
pub(crate) fn after_caret(tokens: Tokens<'_>) -> Option<Tokens<'_>>
    ensures { option_map (λ rest. lexemes_of rest) result ≡ after_caret (lexemes_of tokens.entry) }
{
    match tokens.first() {
        Some((TokenKind::Caret, _, rest)) => Some(rest),
        Some((TokenKind::FreeCaret, _, rest)) => Some(rest),
        _ => None,
    }
}

/// The word that is an argument by itself, if one stands here without a caret after it and a level is left for it, and
/// the tokens after it.
#[inline(always)]
pub(crate) fn lone_word(
    left: usize,
    inside: bool,
    tokens: Tokens<'_>,
) -> Option<(&[u8], Tokens<'_>)>
    ensures level { IfSome result (λ x. 0 < left) }
    ensures text { IfSome result (λ x. IsUtf8 x.0.now) }
    ensures word { IfSome result (λ x. lexemes_of tokens.entry ≡ Word x.0.now ∷ lexemes_of x.1) }
    ensures alone { IfSome result (λ x. after_caret (past_blanks inside (lexemes_of x.1)) ≡ None) }
{
    match tokens.first() {
        Some((TokenKind::Word, text, rest)) => {
            if left > 0 && after_caret(past_blanks(inside, rest)).is_none() {
                Some((text, rest))
            } else {
                None
            }
        }
        _ => None,
    }
}

/// What ends an item, and whether that is a `&`.
#[tactic(auto, unfolding(rc_model::specs::Mirrors::Descent::item_end))]
pub(crate) fn item_end(tokens: Tokens<'_>) -> Result<(bool, Tokens<'_>), TokenError>
    ensures { Gives (λ x. (x.0, lexemes_of x.1)) result (item_end (lexemes_of tokens.entry)) }
{
    match tokens.first() {
        Some((TokenKind::Semicolon, _, rest)) => Ok((false, rest)),
        Some((TokenKind::Newline, _, rest)) => Ok((false, rest)),
        Some((TokenKind::Ampersand, _, rest)) => Ok((true, rest)),
        _ => {
            if closes(tokens) {
                Ok((false, tokens))
            } else {
                Err(fault_at(DescentFault::Unexpected, tokens))
            }
        }
    }
}
