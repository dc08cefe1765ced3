//! The rules for functions.

use crate::lexed::script_tokens::Tokens;
use crate::rules::View;
use crate::rules::patterns::after_newlines;
use crate::warnings::kind::WarningKind;
use crate::warnings::repair::Repair;
use crate::warnings::warning::Warning;
use rc_lexer::TokenKind;

/// The greatest number of loops and braces around a condition that are looked into.
const MOST_LEVELS: usize = 8;

/// Functions that Plan 9's rc calls when a signal arrives.
pub(crate) const SIGNALS: [&str; 11] = [
    "sighup", "sigint", "sigquit", "sigalrm", "sigterm", "sigpipe", "sigchld", "sigusr1",
    "sigusr2", "sigfpe", "sigexit",
];

/// The warning for a function that has the name of a signal, and a body.
pub(crate) fn signal_warning(tokens: Tokens<'_>, at: usize) -> Option<Warning> {
    if !tokens.is_one_of(at, &SIGNALS) || !tokens.is_in_command(at, "fn") {
        return None;
    }
    let after = tokens.command_end(at).wrapping_add(1);
    if !tokens.is(after, TokenKind::LeftBrace) {
        return None;
    }
    let repair = Repair::of("start the script so that a signal ends all of it, as rc(1) says");
    tokens.warning(at, WarningKind::SIGNAL, repair)
}

/// The warning for `fn f(x)`, and for `fn f x {..}` whose body uses `$x`.
pub(crate) fn parameters_warning(tokens: Tokens<'_>, at: usize) -> Option<Warning> {
    let name = at.wrapping_add(1);
    let open = name.wrapping_add(1);
    let is_list = tokens.is(open, TokenKind::LeftParen)
        && !tokens.is(open.wrapping_add(1), TokenKind::RightParen);
    let first = if is_list {
        open.wrapping_add(1)
    } else if is_parameter(tokens, open) {
        open
    } else {
        return None;
    };
    let words = ["write fn ", " {", "=$1 ..}"];
    let repair = Repair::pair(words, tokens.span(name), tokens.span(first));
    tokens.warning(open, WarningKind::PARAMETERS, repair)
}

/// Whether the word at this index is another name of a function whose body uses it as a variable, soon after.
fn is_parameter(tokens: Tokens<'_>, at: usize) -> bool {
    let body = tokens.command_end(at).wrapping_add(1);
    if !tokens.is(at, TokenKind::Word) || !tokens.is(body, TokenKind::LeftBrace) {
        return false;
    }
    let end = tokens.closing(body).unwrap_or(body);
    for index in body..end {
        if tokens.is(index, TokenKind::Name) && tokens.text(index) == tokens.text(at) {
            return true;
        }
    }
    false
}

/// The warning for `fn f` whose braces follow on a later line, at the `fn`.
pub(crate) fn definition_warning(tokens: Tokens<'_>, at: usize) -> Option<Warning> {
    let end = tokens.command_end(at);
    let next = after_newlines(tokens, end.wrapping_add(1));
    let is_apart = end > at && next != end.wrapping_add(1) && tokens.is(next, TokenKind::LeftBrace);
    if !is_apart {
        return None;
    }
    let repair = Repair::around("write ", tokens.span_to(at, end), " {, on one line");
    tokens.warning(at, WarningKind::REMOVED, repair)
}

/// The warning for a function or a script that ends with a condition whose status it leaves. It is at the brace that
/// closes here, or at the end of the script.
pub(crate) fn last_warning(view: View<'_, '_>, close: usize) -> Option<Warning> {
    let tokens = view.tokens;
    if !leaves_status(view, close) {
        return None;
    }
    let mut end = close;
    for _ in 0..MOST_LEVELS {
        let last = last_before(tokens, end)?;
        let item = tokens.item_start(last.wrapping_add(1));
        let body = after_heads(tokens, item);
        if tokens.is_one_of(body, &["if", "while"]) {
            return left_status(tokens, item, body, last);
        }
        if tokens.open_bracket(last) != Some(body) {
            return None;
        }
        end = last;
    }
    None
}

/// The index after the heads of the loops that begin at this index.
fn after_heads(tokens: Tokens<'_>, item: usize) -> usize {
    let mut body = item;
    for _ in 0..MOST_LEVELS {
        let is_loop = tokens.is_word(body, "for");
        match tokens.closing(body.wrapping_add(1)) {
            Some(close) if is_loop => body = close.wrapping_add(1),
            _ => return body,
        }
    }
    body
}

/// The warning for an item, up to its last token, whose status is that of the condition at the second index.
fn left_status(tokens: Tokens<'_>, item: usize, at: usize, last: usize) -> Option<Warning> {
    if tokens.is_word(at.wrapping_add(1), "not") {
        return None;
    }
    let repair = Repair::around(
        "write ",
        tokens.span_to(item, last),
        if item == at && tokens.is_word(at, "if") {
            "; if not status=''"
        } else {
            "; status=''"
        },
    );
    tokens.warning(at, WarningKind::LAST, repair)
}

/// Whether what ends at this index has a status that counts: a function under `-e`, or a script with a first line for
/// an interpreter.
fn leaves_status(view: View<'_, '_>, close: usize) -> bool {
    let tokens = view.tokens;
    match tokens.open_bracket(close) {
        Some(open) => {
            view.overview.exits_on_failure
                && tokens.is(close, TokenKind::RightBrace)
                && tokens.is_in_command(open, "fn")
        }
        None => close == tokens.all.len() && tokens.script.starts_with(b"#!"),
    }
}

/// The index of the last token before this one that doesn't end a command.
pub(crate) fn last_before(tokens: Tokens<'_>, at: usize) -> Option<usize> {
    for index in (0..at).rev() {
        if !matches!(
            tokens.kind(index),
            Some(TokenKind::Newline | TokenKind::Semicolon)
        ) {
            return Some(index);
        }
    }
    None
}
