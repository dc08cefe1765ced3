//! One walk over the tokens of a script, which finds their roles.

use crate::laying::source::Source;
use crate::reading::brackets::Level;
use crate::reading::expectation::Expectation;
use crate::reading::roles::{Bracket, Part, Role, mark_cases};
use rc_lexer::{Token, TokenKind};
use std::alloc::{AllocError, Global};

/// The roles of the tokens that were read.
#[derive(Drop)]
pub(crate) struct Survey<'a> {
    pub(crate) source: Source<'a>,
    pub(crate) roles: Vec<Role>,
    pub(crate) level: Level,
    pub(crate) outer: Vec<Level>,
    /// The bars of the pipelines that are read, by their indices.
    pub(crate) bars: Vec<usize>,
    /// The kind of the last token that is no newline, and whether it is a keyword.
    pub(crate) previous: Option<TokenKind>,
    pub(crate) is_after_keyword: bool,
}

/// The roles of all tokens of a script.
pub(crate) fn roles_of(alloc: Global, source: Source<'_>) -> Result<Vec<Role>, AllocError> {
    let mut survey = Survey {
        source,
        roles: Vec::new(alloc),
        level: Level::new(Bracket::Script, 0, 0, 0),
        outer: Vec::new(alloc),
        bars: Vec::new(alloc),
        previous: None,
        is_after_keyword: false,
    };
    for (index, token) in source.tokens.iter().enumerate() {
        survey.read(index, *token)?;
    }
    survey.end_pipeline();
    let Survey { mut roles, .. } = survey;
    mark_cases(&mut roles);
    Ok(roles)
}

/// Whether a token of this kind is followed by a further part of its argument, or by its argument.
fn goes_on(kind: TokenKind) -> bool {
    matches!(
        kind,
        TokenKind::Caret
            | TokenKind::FreeCaret
            | TokenKind::Dollar
            | TokenKind::DollarCount
            | TokenKind::DollarFlat
            | TokenKind::Equals
            | TokenKind::Backquote
            | TokenKind::Redirection(_, _)
    )
}

/// Whether a token of this kind is a further part of the argument before it.
fn adds(kind: TokenKind) -> bool {
    matches!(
        kind,
        TokenKind::Caret
            | TokenKind::FreeCaret
            | TokenKind::Name
            | TokenKind::Subscript
            | TokenKind::Equals
    )
}

impl Survey<'_> {
    /// Reads the token of this index.
    fn read(&mut self, index: usize, token: Token) -> Result<(), AllocError> {
        if matches!(token.kind, TokenKind::Newline) {
            let part = self.newline();
            return Ok(self.roles.push(Role::new(part))?);
        }
        if matches!(token.kind, TokenKind::FreeCaret) && self.is_after_keyword {
            self.is_after_keyword = false;
            return Ok(self.roles.push(Role::new(Part::Nothing))?);
        }
        let role = self.role_before(token);
        self.roles.push(role)?;
        let part = self.part_of(index, token)?;
        if let Some(role) = self.roles.last_mut() {
            role.part = part;
        }
        self.previous = Some(token.kind);
        Ok(())
    }

    /// Reads a newline.
    fn newline(&mut self) -> Part {
        if self.level.bracket == Bracket::Words {
            return Part::Between;
        }
        let part = self.level.expects.newline();
        if part == Part::End {
            self.end_item();
            self.level.has_newlines = true;
        }
        part
    }

    /// How a token follows the ones before it.
    fn role_before(&mut self, token: Token) -> Role {
        let continues = adds(token.kind) || self.previous.is_some_and(goes_on);
        if !continues {
            self.level.expects = self.level.expects.after_argument();
        }
        Role {
            continues,
            is_apart: self.is_apart(token),
            ..Role::new(Part::Plain)
        }
    }

    /// Whether a blank is between a token and the one before it, if they are on one line.
    fn is_apart(&self, token: Token) -> bool {
        let Some(previous) = self.previous else {
            return false;
        };
        match token.kind {
            TokenKind::RightParen | TokenKind::Semicolon => false,
            TokenKind::RightBrace => self.has_blanks() && !matches!(previous, TokenKind::LeftBrace),
            TokenKind::LeftParen if self.begins_head() => false,
            kind if adds(kind) => false,
            _ => self.is_apart_after(previous, token),
        }
    }

    /// Whether there are blanks inside the brackets.
    fn has_blanks(&self) -> bool {
        self.level.bracket != Bracket::Backquote
    }

    /// Whether a parenthesis here begins the head of a control form, or is its subject.
    fn begins_head(&self) -> bool {
        match self.level.expects {
            Expectation::Condition | Expectation::Head => true,
            Expectation::Subject => self.is_after_keyword,
            _ => false,
        }
    }

    /// Whether a blank is between a token and one of this kind before it.
    fn is_apart_after(&self, previous: TokenKind, token: Token) -> bool {
        match previous {
            TokenKind::LeftParen | TokenKind::Subscript => false,
            TokenKind::LeftBrace => self.has_blanks(),
            TokenKind::Redirection(_, _) => matches!(self.source.text(token), [b'[', ..]),
            kind => !goes_on(kind),
        }
    }

    /// Reads a token, and returns what it does.
    fn part_of(&mut self, index: usize, token: Token) -> Result<Part, AllocError> {
        self.is_after_keyword = false;
        match token.kind {
            TokenKind::Semicolon => return Ok(self.semicolon()),
            TokenKind::Ampersand => {
                self.end_item();
                return Ok(Part::WrittenEnd);
            }
            TokenKind::RightParen | TokenKind::RightBrace => {
                self.close(token.line);
                return Ok(Part::Close);
            }
            _ => {}
        }
        self.count(token);
        match token.kind {
            TokenKind::AndAnd | TokenKind::OrOr => {
                self.end_pipeline();
                self.level.expects = Expectation::Operand;
                Ok(Part::Plain)
            }
            TokenKind::Bar(_) => {
                self.bars.push(index)?;
                self.level.expects = Expectation::Operand;
                Ok(Part::Plain)
            }
            TokenKind::LeftBrace | TokenKind::LeftParen | TokenKind::Subscript => {
                self.open(index, token)
            }
            TokenKind::Word => Ok(self.word(token)),
            kind => {
                self.operator(kind);
                Ok(Part::Plain)
            }
        }
    }
}
