//! Finding the command of a token. The search uses tokens alone, so that a newline inside a list of words counts as the
//! end of a command.

ghost use Rattle.std.specs.Prelude.{◌≡◌};
ghost use Rattle.rc_warnings.specs.Warnings.{precedes_command};

use crate::lexed::contexts::{BEGINNING, Context};
use crate::lexed::script_tokens::Tokens;
use rc_lexer::TokenKind;

/// The greatest number of tokens that are looked at from one token on.
const MOST_TOKENS: usize = 60;

/// Whether a token of this kind separates commands.
fn separates(kind: TokenKind) -> bool {
    matches!(
        kind,
        TokenKind::Semicolon
            | TokenKind::Ampersand
            | TokenKind::Newline
            | TokenKind::AndAnd
            | TokenKind::OrOr
            | TokenKind::Bar(_)
            | TokenKind::LeftBrace
    )
}

/// Whether a command begins after a word, by whether it begins one, and whether it follows an `if` that does: as an
/// argument, `!` or `not` is a word like any other.
fn precedes_command(word: &[u8], is_first: bool, follows_if: bool) -> bool
    ensures { result ≡ precedes_command word.now is_first follows_if }
{
    if word == b"not".as_slice() {
        return follows_if;
    }
    is_first && (word == b"!".as_slice() || word == b"@".as_slice())
}

impl Tokens<'_> {
    /// Whether a command begins at this index.
    pub(crate) fn begins_command(self, index: usize) -> bool {
        let before = index.wrapping_sub(1);
        match self.kind(before) {
            None => true,
            Some(TokenKind::LeftParen) => self.is_one_of(before.wrapping_sub(1), &["if", "while"]),
            Some(TokenKind::RightParen) => self.closes_head(before),
            Some(TokenKind::Word) => {
                precedes_command(
                    self.text(before),
                    self.is_first(before),
                    self.follows_if(before),
                )
            }
            Some(kind) => separates(kind),
        }
    }

    /// Whether a command begins with the token at this index.
    fn is_first(self, index: usize) -> bool {
        self.command_start(index) == index
    }

    /// Whether an `if` that begins a command is before this index.
    fn follows_if(self, index: usize) -> bool {
        let before = index.wrapping_sub(1);
        self.is_word(before, "if") && self.is_first(before)
    }

    /// Whether a command goes on after a newline that follows the token at this index.
    pub(crate) fn goes_on_after(self, index: usize) -> bool {
        match self.kind(index) {
            Some(TokenKind::RightParen) => self.closes_head(index),
            Some(TokenKind::Word) => self.is_word(index, "not"),
            Some(TokenKind::AndAnd | TokenKind::OrOr | TokenKind::Bar(_)) => true,
            _ => false,
        }
    }

    /// Whether the parenthesis at this index closes the head of a control form.
    pub(crate) fn closes_head(self, index: usize) -> bool {
        match self.open_bracket(index) {
            Some(open) => self.is_one_of(open.wrapping_sub(1), &["if", "while", "for"]),
            None => false,
        }
    }

    /// What is before the token at this index.
    pub(crate) fn before(self, index: usize) -> Context {
        match self.contexts.get(index) {
            Some(context) => *context,
            None => BEGINNING,
        }
    }

    /// The index of the first token of the command that has the token at this index.
    pub(crate) fn command_start(self, index: usize) -> usize {
        self.before(index).command.get().unwrap_or(0)
    }

    /// The index of the first token of the item that has the token at this index.
    pub(crate) fn item_start(self, index: usize) -> usize {
        self.before(index).item.get().unwrap_or(0)
    }

    /// Whether the command of the token at this index begins with this word.
    pub(crate) fn is_in_command(self, index: usize, word: &str) -> bool {
        self.is_word(self.command_start(index), word)
    }

    /// The index of the last bracket that is opened and not closed before this index.
    pub(crate) fn open_bracket(self, index: usize) -> Option<usize> {
        self.before(index).bracket.get()
    }

    /// Whether the token at this index is directly in the head of an `if` or a `while`.
    pub(crate) fn is_in_condition(self, index: usize) -> bool {
        match self.open_bracket(index) {
            Some(open) => {
                self.is(open, TokenKind::LeftParen)
                    && self.is_one_of(open.wrapping_sub(1), &["if", "while"])
            }
            None => false,
        }
    }

    /// The index of the last token of the simple command that has the token at this index, or of one soon after it.
    pub(crate) fn command_end(self, index: usize) -> usize {
        let start = index.saturating_add(1);
        for next in start..start.saturating_add(MOST_TOKENS) {
            if self.ends_command(next) {
                return next.wrapping_sub(1);
            }
        }
        index
    }

    /// Whether there is no token at this index, or one that ends a simple command.
    pub(crate) fn ends_command(self, index: usize) -> bool {
        match self.kind(index) {
            None | Some(TokenKind::RightBrace | TokenKind::RightParen) => true,
            Some(kind) => separates(kind),
        }
    }

    /// The index of the bracket that closes the one at this index, if that is not far.
    pub(crate) fn closing(self, open: usize) -> Option<usize> {
        let start = open.saturating_add(1);
        for index in start..start.saturating_add(MOST_TOKENS) {
            let is_closing = matches!(
                self.kind(index),
                Some(TokenKind::RightParen | TokenKind::RightBrace)
            );
            if is_closing && self.open_bracket(index) == Some(open) {
                return Some(index);
            }
        }
        None
    }
}
