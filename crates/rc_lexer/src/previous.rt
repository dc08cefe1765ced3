//! The context directly before a token, and its effect on the token.

ghost use Rattle.std.specs.Prelude.{false, ◌≡◌};
ghost use Rattle.rc_model.specs.Syntax.Tokens as model;
ghost use Rattle.rc_model.specs.Mirrors.Reading as reading;
ghost use Rattle.rc_lexer.specs.Spans.{meaning, shape};

use crate::TokenKind;
use crate::byte_classes::is_name_byte;
use rc_model::Previous;

/// Whether a `^` is inserted before the token.
#[inline(always)]
pub(crate) fn wants_caret(previous: Previous, kind: TokenKind) -> bool
    ensures { result ≡ model.wants_caret previous (shape kind) }
{
    let begins_part = matches!(
        kind,
        TokenKind::Quoted
            | TokenKind::Backquote
            | TokenKind::Dollar
            | TokenKind::DollarCount
            | TokenKind::DollarFlat
            | TokenKind::BareDollar
    );
    match previous {
        Previous::Word => begins_part,
        Previous::Quoted | Previous::Name => begins_part || matches!(kind, TokenKind::Word),
        _ => false,
    }
}

/// The context after a blank.
#[inline(always)]
pub(crate) fn after_blank(previous: Previous) -> Previous
    ensures { result ≡ model.after_blank previous }
{
    match previous {
        Previous::Here(start, stop) => Previous::Here(start, stop),
        _ => Previous::Apart,
    }
}

/// The context if a `<<` gets no mark.
#[inline(always)]
pub(crate) fn without_here(previous: Previous) -> Previous
    ensures value { result ≡ reading.without_here previous }
{
    match previous {
        Previous::Here(_, _) => Previous::Apart,
        _ => previous,
    }
}

/// Whether the byte begins the name of a `$`.
#[inline(always)]
pub(crate) fn begins_name(previous: Previous, b: u8) -> bool
    ensures { result ≡ model.begins_name previous b }
{
    match previous {
        Previous::Dollar => is_name_byte(b),
        _ => false,
    }
}

/// The context that a token leaves for the next one.
#[inline(always)]
pub(crate) fn after_token(previous: Previous, kind: TokenKind) -> Previous
    ensures { result ≡ model.after_token previous (shape kind) }
{
    match (previous, kind) {
        (Previous::Here(_, _), _) => Previous::Apart,
        (Previous::Dollar, TokenKind::Quoted) => Previous::Name,
        (_, TokenKind::Word) => Previous::Word,
        (_, TokenKind::Quoted) => Previous::Quoted,
        (_, TokenKind::Name) => Previous::Name,
        (_, TokenKind::Dollar | TokenKind::DollarCount | TokenKind::DollarFlat) => Previous::Dollar,
        _ => Previous::Apart,
    }
}

/// The meaning of an operator in its context, if no name follows.
#[inline(always)]
pub(crate) fn meaning_after(previous: Previous, kind: TokenKind) -> TokenKind
    ensures { result ≡ meaning previous kind }
{
    match (previous, kind) {
        (Previous::Name, TokenKind::LeftParen) => TokenKind::Subscript,
        (_, TokenKind::Dollar | TokenKind::DollarCount | TokenKind::DollarFlat) =>
            TokenKind::BareDollar,
        _ => kind,
    }
}
