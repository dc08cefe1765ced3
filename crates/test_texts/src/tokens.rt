//! Tokens as a text: the kind of each, and its place.

use rc_lexer::{Token, TokenKind};
use rc_tree::Mode;
use std::alloc::{AllocError, Global};

/// The name of a kind of tokens.
fn name_of(kind: TokenKind) -> &'static str {
    match kind {
        TokenKind::Word => "Word",
        TokenKind::Quoted => "Quoted",
        TokenKind::Semicolon => "Semicolon",
        TokenKind::Ampersand => "Ampersand",
        TokenKind::Newline => "Newline",
        TokenKind::AndAnd => "AndAnd",
        TokenKind::OrOr => "OrOr",
        TokenKind::Bar(_) => "Bar",
        TokenKind::Caret => "Caret",
        TokenKind::FreeCaret => "FreeCaret",
        TokenKind::Equals => "Equals",
        TokenKind::LeftParen => "LeftParen",
        TokenKind::RightParen => "RightParen",
        TokenKind::LeftBrace => "LeftBrace",
        TokenKind::RightBrace => "RightBrace",
        TokenKind::Backquote => "Backquote",
        TokenKind::Redirection(Mode::Read, _) => "Input",
        TokenKind::Redirection(Mode::Write, _) => "Output",
        TokenKind::Redirection(Mode::Append, _) => "Append",
        TokenKind::CopyTo { .. } => "CopyTo",
        TokenKind::HereDoc { .. } => "HereDoc",
        TokenKind::Dollar => "Dollar",
        TokenKind::DollarCount => "DollarCount",
        TokenKind::DollarFlat => "DollarFlat",
        TokenKind::Name => "Name",
        TokenKind::Subscript => "Subscript",
        TokenKind::BareDollar => "BareDollar",
        TokenKind::BareHere => "BareHere",
    }
}

/// Adds the kind of a token. The descriptor of an input is left out if it is 0.
fn add_kind(out: &mut String, kind: TokenKind) -> Result<(), AllocError> {
    out.push_str(name_of(kind))?;
    match kind {
        TokenKind::Redirection(Mode::Read, 0) => Ok(()),
        TokenKind::Bar(slot) | TokenKind::Redirection(_, slot) => write!(out, "({slot})"),
        TokenKind::CopyTo { to, from } => write!(out, "({to}, {from})"),
        TokenKind::HereDoc { is_quoted, body } => write!(out, "({is_quoted}, {body:?})"),
        _ => Ok(()),
    }
}

/// Adds a token with its place. A line other than the first follows a slash.
fn add_token(out: &mut String, token: &Token) -> Result<(), AllocError> {
    let span = token.span;
    add_kind(out, token.kind)?;
    write!(out, "@{}..{}", span.start, span.stop)?;
    if token.line != 1 {
        write!(out, "/{}", token.line)?;
    }
    Ok(())
}

/// The tokens with their places.
pub fn tokens_shown(alloc: Global, tokens: &[Token]) -> Result<String, AllocError> {
    let mut out = String::new(alloc);
    for token in tokens {
        if !out.is_empty() {
            out.push(' ')?;
        }
        add_token(&mut out, token)?;
    }
    Ok(out)
}
