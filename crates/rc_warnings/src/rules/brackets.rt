//! The rules for brackets.

use crate::bytes::is_number;
use crate::lexed::script_tokens::Tokens;
use crate::rules::View;
use crate::rules::conditions::{condition_warning, output_test};
use crate::rules::patterns::{constant_warning, is_only_item, list_warning};
use crate::rules::variables::place_warning;
use crate::warnings::kind::WarningKind;
use crate::warnings::repair::Repair;
use crate::warnings::warning::Warning;
use rc_lexer::{Span, TokenKind};

/// The warning for a bracket of this kind.
pub(crate) fn bracket_warning(view: View<'_, '_>, at: usize, kind: TokenKind) -> Option<Warning> {
    let tokens = view.tokens;
    match kind {
        TokenKind::LeftParen => first_of!(
            parentheses_warning(tokens, at),
            list_warning(tokens, at),
            called_warning(view, at),
            condition_warning(view, at),
            argument_list(tokens, at)
        ),
        TokenKind::Backquote => output_test(tokens, at),
        TokenKind::RightParen => touching_list(tokens, at),
        TokenKind::RightBrace => touching_output(tokens, at),
        TokenKind::Subscript => place_warning(view, at),
        _ => None,
    }
}

/// The warning for a command in parentheses.
fn parentheses_warning(tokens: Tokens<'_>, open: usize) -> Option<Warning> {
    let first = open.wrapping_add(1);
    if !tokens.begins_command(open)
        || tokens.is_word(open.wrapping_sub(1), "not")
        || !matches!(
            tokens.kind(first),
            Some(TokenKind::Word | TokenKind::LeftParen)
        )
    {
        return None;
    }
    let repair = if tokens.is(first, TokenKind::LeftParen) {
        Repair::of("there is no arithmetic; write `{expr ..}")
    } else {
        let last = match tokens.closing(open) {
            Some(close) => close.wrapping_sub(1),
            None => first,
        };
        Repair::around("write @{", tokens.span_to(first, last), "}")
    };
    tokens.warning(open, WarningKind::PARENTHESES, repair)
}

/// Words after which parentheses are no argument of a command of this name.
const BEFORE_LISTS: [&str; 9] = [
    "in", "not", "for", "if", "while", "switch", "case", "fn", "~",
];

/// Commands whose output other shells put in place of parentheses.
const WRITERS: [&str; 10] = [
    "basename", "date", "dirname", "hostname", "mktemp", "nproc", "pwd", "seq", "uname", "whoami",
];

/// The warning for a parenthesis directly after a word of a command.
fn called_warning(view: View<'_, '_>, open: usize) -> Option<Warning> {
    let tokens = view.tokens;
    let word = open.wrapping_sub(1);
    if tokens.is_one_of(word, &["!", "@"]) {
        return excluding_warning(tokens, word);
    }
    let is_word = tokens.is(word, TokenKind::Word)
        && tokens.touches_next(word)
        && !tokens.is_one_of(word, &BEFORE_LISTS)
        && !tokens.is_in_command(word, "fn");
    if !is_word {
        return None;
    }
    if tokens.begins_command(word) {
        return call_warning(view, word, open);
    }
    tokens.touching(word, tokens.span(word), open)
}

/// The warning for `!(*.c)` as an argument, which leaves files out in other shells, at its first character.
fn excluding_warning(tokens: Tokens<'_>, at: usize) -> Option<Warning> {
    let start = tokens.command_start(at);
    let is_argument = start < at && !tokens.begins_command(at.wrapping_add(1));
    if !is_argument || !tokens.touches_next(at) || tokens.is_one_of(start, &["find", "test", "["]) {
        return None;
    }
    let repair = Repair::of("write a loop that leaves files out: for(f in *) if(! ~ $f *.c)");
    tokens.warning(at, WarningKind::PATTERN, repair)
}

/// The warning for `f(x)`, unless there is one for its `f`.
fn call_warning(view: View<'_, '_>, word: usize, open: usize) -> Option<Warning> {
    let tokens = view.tokens;
    if view.overview.foreign(tokens.text(word)).is_some() {
        return None;
    }
    let name = tokens.span(word);
    let first = open.wrapping_add(1);
    let repair = match tokens.closing(open) {
        Some(close) if close > first => {
            let words = tokens.span_to(first, close.wrapping_sub(1));
            Repair::pair(["write ", " ", ""], name, words)
        }
        _ => Repair::around("write ", name, ""),
    };
    tokens.warning(open, WarningKind::CALL, repair)
}

/// The warning for a list among the arguments of a command, where parentheses mean more elsewhere.
fn argument_list(tokens: Tokens<'_>, open: usize) -> Option<Warning> {
    first_of!(
        place_apart(tokens, open),
        output_warning(tokens, open),
        group_warning(tokens, open)
    )
}

/// The warning for `$x (1)`.
fn place_apart(tokens: Tokens<'_>, open: usize) -> Option<Warning> {
    let name = open.wrapping_sub(1);
    let place = open.wrapping_add(1);
    let is_place = tokens.is(name, TokenKind::Name)
        && tokens.is(place, TokenKind::Word)
        && is_number(tokens.text(place))
        && tokens.is(place.wrapping_add(1), TokenKind::RightParen)
        && tokens.is(name.wrapping_sub(1), TokenKind::Dollar);
    if !is_place || tokens.is_one_of(tokens.command_start(open), &["~", "case"]) {
        return None;
    }
    let words = ["write $", "(", ")"];
    let repair = Repair::pair(words, tokens.span(name), tokens.span(place));
    tokens.warning(open, WarningKind::PLACE, repair)
}

/// The warning for `x=(date)`.
fn output_warning(tokens: Tokens<'_>, open: usize) -> Option<Warning> {
    let word = open.wrapping_add(1);
    let next = word.wrapping_add(1);
    let text = tokens.text(next);
    let is_command = match tokens.kind(next) {
        Some(TokenKind::RightParen | TokenKind::Dollar) => true,
        Some(TokenKind::Word) => has_option(text) || is_number(text),
        _ => false,
    };
    let is_pattern = tokens.is_one_of(tokens.command_start(open), &["~", "case"]);
    if !is_command || is_pattern || !tokens.is_one_of(word, &WRITERS) {
        return None;
    }
    let close = tokens.closing(open)?;
    let command = tokens.span_to(word, close.wrapping_sub(1));
    tokens.warning(
        open,
        WarningKind::OUTPUT,
        Repair::around("write `{", command, "}"),
    )
}

/// Whether a text begins as an option, or as a format of date.
fn has_option(text: &[u8]) -> bool {
    text.starts_with(b"-") || text.starts_with(b"+")
}

/// The warning for parentheses that a command is to get as arguments, as in `expr (1 + 2)`.
fn group_warning(tokens: Tokens<'_>, open: usize) -> Option<Warning> {
    let start = tokens.command_start(open);
    let has_test = tokens.is_word(start, "find")
        && tokens.text(open.wrapping_add(1)).starts_with(b"-");
    if !has_test && !tokens.is_one_of(start, &["expr", "test", "["]) {
        return None;
    }
    let close = tokens.closing(open)?;
    let words = tokens.span_to(open.wrapping_add(1), close.wrapping_sub(1));
    let repair = Repair::around("write '(' ", words, " ')'");
    tokens.warning(open, WarningKind::GROUP, repair)
}

/// The warning for what directly follows a list or a subscript.
fn touching_list(tokens: Tokens<'_>, close: usize) -> Option<Warning> {
    let open = tokens.open_bracket(close)?;
    if tokens.closes_head(close) || tokens.is_one_of(open.wrapping_sub(1), &["switch", "fn"]) {
        return None;
    }
    let first = if tokens.is(open, TokenKind::Subscript) {
        open.wrapping_sub(2)
    } else {
        open
    };
    tokens.touching(close, tokens.span_to(first, close), close.wrapping_add(1))
}

/// The warning for what directly follows a backquote.
fn touching_output(tokens: Tokens<'_>, close: usize) -> Option<Warning> {
    let backquote = tokens.open_bracket(close)?.wrapping_sub(1);
    if !tokens.is(backquote, TokenKind::Backquote) {
        return None;
    }
    tokens.touching(
        close,
        tokens.span_to(backquote, close),
        close.wrapping_add(1),
    )
}

/// The warning for the name of a variable that is all that a loop is for, at its `in`.
pub(crate) fn loop_warning(view: View<'_, '_>, at: usize) -> Option<Warning> {
    let tokens = view.tokens;
    let item = at.wrapping_add(1);
    if !is_only_item(tokens, item, item) {
        return None;
    }
    constant_warning(view, item)
}

impl Tokens<'_> {
    /// The warning for an argument at the second index that touches what ends at the first one, and has this span.
    fn touching(self, end: usize, before: Span, next: usize) -> Option<Warning> {
        let is_part = matches!(
            self.kind(next),
            Some(
                TokenKind::Word
                    | TokenKind::Quoted
                    | TokenKind::Dollar
                    | TokenKind::DollarCount
                    | TokenKind::DollarFlat
                    | TokenKind::Backquote
                    | TokenKind::LeftParen
            )
        );
        if !is_part || !self.touches_next(end) {
            return None;
        }
        let last = self.closing(next).unwrap_or(next);
        let words = ["write ", "^", ""];
        let repair = Repair::pair(words, before, self.span_to(next, last));
        self.warning(next, WarningKind::TOUCHING, repair)
    }
}
