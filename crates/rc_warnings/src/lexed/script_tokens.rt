//! A script with its tokens, for advice and warnings. Past the last token there is neither kind nor text.

use crate::lexed::contexts::Context;
use rc_lexer::{Span, Token, TokenKind, lex};
use rc_model::InputError;
use std::alloc::{AllocError, Global};
use std::str;

/// The bytes of a byte order mark, which belong to the first word of a script.
pub(crate) const ORDER_MARK: &[u8] = b"\xef\xbb\xbf";

/// A script and its tokens.
#[derive(Clone, Copy)]
pub(crate) struct Tokens<'a> {
    pub(crate) script: &'a [u8],
    pub(crate) all: &'a [Token],
    /// What is before each token, and before the end.
    pub(crate) contexts: &'a [Context],
}

/// The tokens of a script; none if it has a fault before it has tokens.
pub(crate) fn tokens_of(alloc: Global, script: &[u8]) -> Result<Vec<Token>, AllocError> {
    let Ok(text) = str::from_utf8(script) else {
        return Ok(Vec::new(alloc));
    };
    match lex(alloc, text) {
        Ok(tokens) => Ok(tokens),
        Err(InputError::Fault(_)) => Ok(Vec::new(alloc)),
        Err(InputError::NoMemory) => Err(AllocError),
    }
}

/// The part of the script at a span, as far as the script goes.
pub(crate) fn part(script: &[u8], span: Span) -> &[u8] {
    let rest = &script[(span.start as usize).min(script.len())..];
    let len = span.stop.saturating_sub(span.start) as usize;
    &rest[..len.min(rest.len())]
}

impl<'a> Tokens<'a> {
    /// The kind of the token at this index.
    pub(crate) fn kind(self, index: usize) -> Option<TokenKind> {
        Some(self.all.get(index)?.kind)
    }

    /// Whether the token at this index is of this kind.
    pub(crate) fn is(self, index: usize, kind: TokenKind) -> bool {
        match self.kind(index) {
            Some(found) => found == kind,
            None => false,
        }
    }

    /// The kind of the token before this index.
    pub(crate) fn kind_before(self, index: usize) -> Option<TokenKind> {
        self.kind(index.wrapping_sub(1))
    }

    /// The text of the token at this index.
    pub(crate) fn text(self, index: usize) -> &'a [u8] {
        match self.all.get(index) {
            Some(token) => part(self.script, token.span),
            None => &[],
        }
    }

    /// The span of the token at this index; past the last token, an empty one.
    pub(crate) fn span(self, index: usize) -> Span {
        match self.all.get(index) {
            Some(token) => token.span,
            None => Span { start: 0, stop: 0 },
        }
    }

    /// The span from the beginning of one token to the end of another.
    pub(crate) fn span_to(self, first: usize, last: usize) -> Span {
        Span {
            start: self.span(first).start,
            stop: self.span(last).stop,
        }
    }

    /// Whether the token at this index is this word, without quotes.
    pub(crate) fn is_word(self, index: usize, word: &str) -> bool {
        matches!(self.kind(index), Some(TokenKind::Word)) && self.text(index) == word.as_bytes()
    }

    /// Whether the token at this index is one of these words, without quotes.
    pub(crate) fn is_one_of(self, index: usize, words: &[&str]) -> bool {
        for word in words {
            if self.is_word(index, word) {
                return true;
            }
        }
        false
    }

    /// The offset at which the token at this index begins, or the end of the script.
    pub(crate) fn place(self, index: usize) -> usize {
        match self.all.get(index) {
            Some(token) => token.span.start as usize,
            None => self.script.len(),
        }
    }

    /// The line of the token at this index, or 0 if there is none.
    pub(crate) fn line(self, index: usize) -> usize {
        match self.all.get(index) {
            Some(token) => token.line as usize,
            None => 0,
        }
    }

    /// Whether there is nothing between this token and the next one.
    pub(crate) fn touches_next(self, index: usize) -> bool {
        match (self.all.get(index), self.all.get(index.wrapping_add(1))) {
            (Some(token), Some(next)) => token.span.stop == next.span.start,
            _ => false,
        }
    }
}
