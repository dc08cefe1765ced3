//! What the tokens of commands change.

use crate::reading::brackets::Level;
use crate::reading::expectation::Expectation;
use crate::reading::keywords::after_keyword;
use crate::reading::roles::{Bracket, Part};
use crate::reading::survey::Survey;
use rc_lexer::{Token, TokenKind};
use std::alloc::AllocError;
use std::mem;

impl Survey<'_> {
    /// Reads a `;`. It is written after a control form without a command, which would else have the next one.
    pub(crate) fn semicolon(&mut self) -> Part {
        let part = match self.level.expects {
            Expectation::Body => Part::WrittenEnd,
            _ => Part::End,
        };
        self.end_item();
        part
    }

    /// Ends a command.
    pub(crate) fn end_item(&mut self) {
        self.end_pipeline();
        self.level.expects = Expectation::Item;
    }

    /// Ends a pipeline. If it is too long for a line, each of its bars ends one.
    pub(crate) fn end_pipeline(&mut self) {
        let is_long = self.level.has_long_pipeline();
        for _ in self.level.bars_before..self.bars.len() {
            if let Some(bar) = self.bars.pop()
                && is_long
            {
                self.level.is_broken = true;
                self.break_at(bar);
            }
        }
        self.level.bytes.pipeline = 0;
    }

    /// Marks the token of this index as one after which there are lines of their own.
    fn break_at(&mut self, index: usize) {
        if let Some(role) = self.roles.get_mut(index) {
            role.is_broken = true;
        }
    }

    /// Counts a token, and the command that it begins.
    pub(crate) fn count(&mut self, token: Token) {
        let level = &mut self.level;
        if level.expects == Expectation::Item {
            level.items = level.items.saturating_add(1);
        }
        level.bytes = level.bytes.add(self.source.size(token));
    }

    /// Opens brackets.
    pub(crate) fn open(&mut self, index: usize, token: Token) -> Result<Part, AllocError> {
        let bracket = self.bracket(token.kind);
        self.level.expects = match (bracket, self.level.expects) {
            (Bracket::Condition, _) | (_, Expectation::Head) => Expectation::Body,
            (Bracket::Block | Bracket::Switch, _) => Expectation::Inside,
            (_, expects) => expects.after_part(),
        };
        let inner = Level::new(bracket, index, token.line, self.bars.len());
        self.outer.push(mem::replace(&mut self.level, inner))?;
        Ok(Part::Open(bracket))
    }

    /// What the brackets enclose that a token of this kind opens.
    fn bracket(&self, kind: TokenKind) -> Bracket {
        match (kind, self.level.expects) {
            (TokenKind::LeftBrace, _) if self.is_after_backquote() => Bracket::Backquote,
            (TokenKind::LeftBrace, Expectation::Subject) => Bracket::Switch,
            (TokenKind::LeftBrace, _) => Bracket::Block,
            (TokenKind::LeftParen, Expectation::Condition) => Bracket::Condition,
            _ => Bracket::Words,
        }
    }

    /// Whether the token before is a backquote.
    fn is_after_backquote(&self) -> bool {
        matches!(self.previous, Some(TokenKind::Backquote))
    }

    /// Closes brackets on this line.
    pub(crate) fn close(&mut self, line: u32) {
        self.end_pipeline();
        let inner = self.level;
        let Some(level) = self.outer.pop() else {
            return;
        };
        let has_lines = inner.has_lines(line);
        if has_lines {
            self.break_at(inner.opening);
        }
        self.level = level.after(inner, has_lines);
        if self.level.expects == Expectation::Body {
            self.end_pipeline();
        }
    }

    /// Reads an unquoted word.
    pub(crate) fn word(&mut self, token: Token) -> Part {
        let word = self.source.text(token);
        let expects = self.level.expects;
        if expects == Expectation::Condition && word == b"not".as_slice() {
            self.keyword(Expectation::Body);
            return Part::Plain;
        }
        if !expects.begins_command() {
            return Part::Plain;
        }
        if expects == Expectation::Item
            && self.level.bracket == Bracket::Switch
            && word == b"case".as_slice()
        {
            self.keyword(Expectation::Inside);
            return Part::Case;
        }
        match after_keyword(word) {
            Some(expects) => self.keyword(expects),
            None => self.level.expects = Expectation::First,
        }
        Part::Plain
    }

    /// Reads a keyword, after which this is expected.
    fn keyword(&mut self, expects: Expectation) {
        self.level.expects = expects;
        self.is_after_keyword = true;
    }

    /// Reads a token that neither separates commands nor opens or closes brackets, and is no word.
    pub(crate) fn operator(&mut self, kind: TokenKind) {
        let expects = self.level.expects;
        self.level.expects = match kind {
            TokenKind::Equals if expects == Expectation::First => Expectation::Value,
            TokenKind::Redirection(_, _) if expects.begins_command() => Expectation::Value,
            TokenKind::CopyTo { .. } | TokenKind::HereDoc { .. } if expects.begins_command() => {
                Expectation::Prefixed
            }
            TokenKind::Redirection(_, _) | TokenKind::CopyTo { .. } | TokenKind::HereDoc { .. } =>
                expects,
            _ => expects.after_part(),
        };
    }
}
