//! The rules of the warnings. They look only at tokens.

/// The first of these warnings that there is: the rules after it are not tried.
macro_rules! first_of {
    ($rule:expr) => { $rule };
    ($rule:expr, $($others:expr),+) => {
        match $rule {
            None => first_of!($($others),+),
            found => found,
        }
    };
}

pub(crate) mod assignments;
pub(crate) mod brackets;
pub(crate) mod commands;
pub(crate) mod conditions;
pub(crate) mod documents;
pub(crate) mod foreign_words;
pub(crate) mod functions;
pub(crate) mod jobs;
pub(crate) mod known_words;
pub(crate) mod lines;
pub(crate) mod patterns;
pub(crate) mod redirections;
pub(crate) mod variables;
pub(crate) mod words;

use crate::lexed::script_tokens::Tokens;
use crate::warnings::kind::WarningKind;
use crate::warnings::overview::Overview;
use crate::warnings::repair::Repair;
use crate::warnings::warning::Warning;
use rc_lexer::TokenKind;

/// A script with its tokens and its overview.
#[derive(Clone, Copy)]
pub(crate) struct View<'v, 'a> {
    pub(crate) tokens: Tokens<'a>,
    pub(crate) overview: &'v Overview<'a>,
}

/// The warning for the token at this index.
pub(crate) fn warning_at(view: View<'_, '_>, at: usize) -> Option<Warning> {
    let tokens = view.tokens;
    match tokens.kind(at)? {
        TokenKind::Word => words::word_warning(view, at),
        TokenKind::Quoted => {
            first_of!(
                variables::quoted_name(tokens, at),
                patterns::quoted_warning(tokens, at)
            )
        }
        TokenKind::Dollar | TokenKind::DollarCount => conditions::value_warning(view, at),
        TokenKind::Name => variables::name_warning(view, at),
        TokenKind::Ampersand => jobs::job_warning(view, at),
        TokenKind::Semicolon => commands::end_warning(tokens, at),
        TokenKind::Caret => words::caret_warning(tokens, at),
        TokenKind::Bar(_) => patterns::bar_warning(tokens, at),
        TokenKind::OrOr => patterns::or_warning(view, at),
        TokenKind::Redirection(_, _) => redirections::redirection_warning(tokens, at),
        kind => brackets::bracket_warning(view, at, kind),
    }
}

/// The warning for what ends at this index, or at the end of the script: its place is before, or in a here document.
pub(crate) fn warning_before(view: View<'_, '_>, at: usize) -> Option<Warning> {
    first_of!(
        documents::document_warning(view.tokens, at),
        functions::last_warning(view, at)
    )
}

impl Tokens<'_> {
    /// A warning at the token of this index.
    pub(crate) fn warning(self, at: usize, kind: WarningKind, repair: Repair) -> Option<Warning> {
        Some(Warning {
            kind,
            place: self.place(at),
            line: self.line(at),
            repair,
        })
    }
}
