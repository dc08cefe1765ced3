//! What is before each token, found in one walk over them.

use crate::lexed::script_tokens::Tokens;
use rc_lexer::{Token, TokenKind};
use rc_model::Mode;
use std::alloc::{AllocError, Global};

/// The index of a token in 32 bits, or none.
#[derive(Clone, Copy)]
pub(crate) struct Index(u32);

impl Index {
    const NONE: Index = Index(u32::MAX);

    fn of(index: usize) -> Index {
        Index(u32::try_from(index).unwrap_or(u32::MAX))
    }

    /// The index, if there is one.
    pub(crate) fn get(self) -> Option<usize> {
        if self.0 == u32::MAX {
            None
        } else {
            Some(self.0 as usize)
        }
    }
}

/// What is before a token, in 24 bytes.
#[derive(Clone, Copy)]
pub(crate) struct Context {
    /// The last bracket that is opened and not closed before it.
    pub(crate) bracket: Index,
    /// The first token of its command.
    pub(crate) command: Index,
    /// The first token of its item of a list of commands.
    pub(crate) item: Index,
    /// The last redirection of output before it.
    pub(crate) output: Index,
    /// The last `if` before it that begins a command.
    pub(crate) condition: Index,
    /// The last word with a double quote before it.
    pub(crate) quote: Index,
}

const _: () = prove!(size_of::<Context>() == 24);

/// What is before the first token.
pub(crate) const BEGINNING: Context = Context {
    bracket: Index::NONE,
    command: Index(0),
    item: Index(0),
    output: Index::NONE,
    condition: Index::NONE,
    quote: Index::NONE,
};

/// What is before each token of a script, and before its end.
pub(crate) fn contexts_of(
    alloc: Global,
    script: &[u8],
    all: &[Token],
) -> Result<Vec<Context>, AllocError> {
    let mut contexts = Vec::with_capacity(alloc, all.len().saturating_add(1))?;
    for index in 0..all.len().saturating_add(1) {
        let tokens = Tokens {
            script,
            all,
            contexts: &contexts,
        };
        let context = tokens.next_context(index);
        contexts.push(context)?;
    }
    Ok(contexts)
}

/// The token if it is one of those that are looked for, or else the last one before.
fn latest(is_sought: bool, token: usize, before: Index) -> Index {
    if is_sought { Index::of(token) } else { before }
}

impl Tokens<'_> {
    /// What is before the token at this index, by what is before the tokens before it.
    fn next_context(self, index: usize) -> Context {
        let token = index.wrapping_sub(1);
        let before = self.before(token);
        Context {
            bracket: self.bracket_after(token),
            command: latest(self.begins_command(index), index, before.command),
            item: self.item_after(token),
            output: latest(self.is_output(token), token, before.output),
            condition: latest(self.is_condition(token), token, before.condition),
            quote: latest(self.has_double_quote(token), token, before.quote),
        }
    }

    /// The last bracket that is opened and not closed after the token at this index.
    fn bracket_after(self, index: usize) -> Index {
        let before = self.before(index).bracket;
        match self.kind(index) {
            Some(TokenKind::LeftParen | TokenKind::Subscript | TokenKind::LeftBrace) => {
                Index::of(index)
            }
            Some(TokenKind::RightParen | TokenKind::RightBrace) => match before.get() {
                Some(open) => self.before(open).bracket,
                None => Index::NONE,
            },
            _ => before,
        }
    }

    /// The first token of the item of the token after this index. A newline directly after the head of a control form,
    /// or after an operator, ends no item.
    fn item_after(self, index: usize) -> Index {
        let next = Index::of(index.wrapping_add(1));
        match self.kind(index) {
            None | Some(TokenKind::LeftBrace | TokenKind::LeftParen | TokenKind::Subscript) => next,
            Some(TokenKind::Semicolon | TokenKind::Ampersand) => next,
            Some(TokenKind::Newline) if !self.goes_on_after(index.wrapping_sub(1)) => next,
            Some(TokenKind::RightParen | TokenKind::RightBrace) => match self.open_bracket(index) {
                Some(open) => self.before(open).item,
                None => next,
            },
            _ => self.before(index).item,
        }
    }

    /// Whether the token at this index redirects output.
    fn is_output(self, index: usize) -> bool {
        matches!(
            self.kind(index),
            Some(TokenKind::Redirection(Mode::Write | Mode::Append, _))
        )
    }

    /// Whether the token at this index is an `if` that begins a command.
    fn is_condition(self, index: usize) -> bool {
        self.is_word(index, "if") && self.begins_command(index)
    }

    /// Whether the token at this index is a word with a double quote.
    fn has_double_quote(self, index: usize) -> bool {
        self.is(index, TokenKind::Word) && self.text(index).contains(&b'"')
    }
}
