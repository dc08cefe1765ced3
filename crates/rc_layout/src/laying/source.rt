//! A script and its tokens.

use crate::laying::gaps::past_blanks;
use rc_lexer::{Token, TokenKind};

/// A script and its tokens.
#[derive(Clone, Copy)]
pub(crate) struct Source<'a> {
    pub(crate) script: &'a [u8],
    pub(crate) tokens: &'a [Token],
}

impl<'a> Source<'a> {
    /// The script from one offset to another, as far as it goes.
    pub(crate) fn part(self, start: usize, stop: usize) -> &'a [u8] {
        let rest = &self.script[start.min(self.script.len())..];
        &rest[..stop.saturating_sub(start).min(rest.len())]
    }

    /// The text of a token.
    pub(crate) fn text(self, token: Token) -> &'a [u8] {
        self.part(token.span.start as usize, token.span.stop as usize)
    }

    /// The offset of the first newline from here on, or the end of the script.
    pub(crate) fn line_end(self, start: usize) -> usize {
        let rest = self.part(start, self.script.len());
        let len = rest.iter().position(|byte| *byte == b'\n');
        start.saturating_add(len.unwrap_or(rest.len()))
    }

    /// The number of bytes of a token, without the blanks inside a here document's operator and mark.
    pub(crate) fn size(self, token: Token) -> usize {
        match token.kind {
            TokenKind::HereDoc { .. } => {
                let (operator, mark) = operator_and_mark(self.text(token));
                operator.len().saturating_add(mark.len())
            }
            _ => self.text(token).len(),
        }
    }
}

/// The operator of a here document, and its mark.
pub(crate) fn operator_and_mark(text: &[u8]) -> (&[u8], &[u8]) {
    let operator_len = if text.starts_with(b"<<[0]") { 5 } else { 2 };
    let (operator, rest) = text.split_at(operator_len.min(text.len()));
    (operator, past_blanks(rest))
}
