//! The rules for the first words of commands, and for their ends.

use crate::bytes::{has_any, is_number};
use crate::lexed::script_tokens::Tokens;
use crate::rules::View;
use crate::rules::assignments::assignment_warning;
use crate::rules::conditions::{if_warning, tested_warning};
use crate::rules::foreign_words::foreign_warning;
use crate::rules::functions::{definition_warning, parameters_warning};
use crate::rules::patterns::{empty_case, match_warning, switch_warning};
use crate::warnings::kind::WarningKind;
use crate::warnings::repair::{NOWHERE, Repair};
use crate::warnings::warning::Warning;
use rc_lexer::TokenKind;

/// The warning for the first word of a command.
pub(crate) fn command_warning(view: View<'_, '_>, at: usize) -> Option<Warning> {
    let tokens = view.tokens;
    if tokens.is(at.wrapping_add(1), TokenKind::Equals) {
        return assignment_warning(view, at);
    }
    if tokens.is_one_of(at, &["cd", ".", "eval"]) {
        return first_of!(dash_warning(tokens, at), unasked_warning(view, at));
    }
    if tokens.is_one_of(at, &["if", "fn", "~", "switch", "case"]) {
        return form_warning(view, at);
    }
    first_of!(
        bang_warning(view, at),
        exec_warning(tokens, at),
        called_function(view, at),
        tested_warning(tokens, at),
        foreign_warning(view, at)
    )
}

/// The warning for a function that a program is to start, as in `sudo f`, at that program or at its option.
pub(crate) fn called_function(view: View<'_, '_>, at: usize) -> Option<Warning> {
    let tokens = view.tokens;
    let next = at.wrapping_add(1);
    let is_caller = if tokens.begins_command(at) {
        tokens.is_one_of(at, &["sudo", "nohup", "xargs"])
    } else {
        tokens.is_one_of(at, &["-exec", "-ok", "-execdir"]) && tokens.is_in_command(at, "find")
    };
    if !is_caller
        || !tokens.is(next, TokenKind::Word)
        || !view.overview.has_function(tokens.text(next))
    {
        return None;
    }
    let repair = Repair::around(
        "write a script for ",
        tokens.span(next),
        ", or a loop that calls it",
    );
    tokens.warning(next, WarningKind::PROGRAM, repair)
}

/// The warning for a form that is not a simple command.
fn form_warning(view: View<'_, '_>, at: usize) -> Option<Warning> {
    let tokens = view.tokens;
    if tokens.is_word(at, "if") {
        return if_warning(tokens, at);
    }
    if tokens.is_word(at, "fn") {
        return first_of!(
            parameters_warning(tokens, at),
            definition_warning(tokens, at)
        );
    }
    if tokens.is_word(at, "~") {
        return match_warning(view, at);
    }
    if tokens.is_word(at, "case") {
        return empty_case(tokens, at);
    }
    switch_warning(view, at)
}

/// The warning for a command such as `!grep`, or as a makefile has it: `@echo`, `-rm` or `all:`.
fn bang_warning(view: View<'_, '_>, at: usize) -> Option<Warning> {
    let tokens = view.tokens;
    let text = tokens.text(at);
    if text.len() < 2 {
        return joined_bang(tokens, at);
    }
    let mut inner = tokens.span(at);
    if let Some(name) = text.strip_suffix(b":") {
        inner.stop = inner.stop.saturating_sub(1);
        let repair = match view.overview.foreign(name) {
            Some(instead) => Repair::pair(["in place of ", ": ", instead], inner, NOWHERE),
            None => Repair::around("write fn ", inner, " {..}"),
        };
        return tokens.warning(at, WarningKind::BANG, repair);
    }
    if tokens.is_word(at, "-not") {
        let rest = tokens.span_to(at.wrapping_add(1), tokens.command_end(at));
        return tokens.warning(at, WarningKind::BANG, Repair::around("write ! ", rest, ""));
    }
    let is_alternative = matches!(tokens.kind_before(at), Some(TokenKind::OrOr));
    let words = match text.first() {
        Some(b'!') => "write ! ",
        Some(b'@') => "write @ ",
        Some(b'-') if text.len() > 2 && !is_alternative => "write ",
        _ => return None,
    };
    inner.start = inner.start.saturating_add(1);
    tokens.warning(at, WarningKind::BANG, Repair::around(words, inner, ""))
}

/// The warning for `!$x`, whose value belongs to the name of the command.
fn joined_bang(tokens: Tokens<'_>, at: usize) -> Option<Warning> {
    let value = at.wrapping_add(2);
    let is_joined = tokens.is_word(at, "!")
        && tokens.is(value.wrapping_sub(1), TokenKind::FreeCaret)
        && tokens.is(value, TokenKind::Dollar);
    if !is_joined {
        return None;
    }
    let rest = tokens.span_to(value, tokens.command_end(value));
    tokens.warning(at, WarningKind::BANG, Repair::around("write ! ", rest, ""))
}

/// The warning for `cd -`.
fn dash_warning(tokens: Tokens<'_>, at: usize) -> Option<Warning> {
    let next = at.wrapping_add(1);
    let is_back = tokens.is_word(at, "cd") && tokens.is_word(next, "-");
    if !is_back || !tokens.ends_command(next.wrapping_add(1)) {
        return None;
    }
    let repair = Repair::of("keep the directory in a variable before: old=`{pwd}");
    tokens.warning(next, WarningKind::DASH, repair)
}

/// The warning for a command whose status nothing checks before an `rm`.
fn unasked_warning(view: View<'_, '_>, at: usize) -> Option<Warning> {
    if !view.overview.is_before_rm(at) {
        return None;
    }
    let tokens = view.tokens;
    let command = tokens.span_to(at, tokens.command_end(at));
    let repair = Repair::around("write ", command, " || exit 1");
    tokens.warning(at, WarningKind::UNASKED, repair)
}

/// The warning for an `exec` that has nothing but redirections.
fn exec_warning(tokens: Tokens<'_>, at: usize) -> Option<Warning> {
    if !tokens.is_word(at, "exec") {
        return None;
    }
    let end = tokens.command_end(at);
    let first = tokens.kind(at.wrapping_add(1));
    // the first token after a redirection with its file
    let after = tokens.kind(at.wrapping_add(3));
    let is_only = match first {
        Some(TokenKind::CopyTo { .. }) => end == at.saturating_add(1),
        Some(TokenKind::Redirection(_, _)) => {
            !matches!(after, Some(TokenKind::Word | TokenKind::Dollar))
        }
        _ => false,
    };
    if !is_only {
        return None;
    }
    let redirections = tokens.span_to(at.saturating_add(1), end);
    let repair = Repair::around("write {..} ", redirections, " around all that it is for");
    tokens.warning(at, WarningKind::EXEC, repair)
}

/// The warning for a pattern of `find`, or a `*` of `expr`, that isn't quoted.
pub(crate) fn glob_warning(tokens: Tokens<'_>, at: usize, text: &[u8]) -> Option<Warning> {
    let option = at.wrapping_sub(1);
    let is_pattern = has_any(text, b"*?[")
        && tokens.is_one_of(option, &["-name", "-iname", "-path"])
        && tokens.is_in_command(at, "find");
    let is_product = tokens.is_word(at, "*") && tokens.is_in_command(at, "expr");
    if !is_pattern && !is_product {
        return None;
    }
    let repair = Repair::around("write '", tokens.span(at), "'");
    tokens.warning(at, WarningKind::GLOB, repair)
}

/// The warning for a `;` that ends a command.
pub(crate) fn end_warning(tokens: Tokens<'_>, at: usize) -> Option<Warning> {
    let before = at.wrapping_sub(1);
    if tokens.is(before, TokenKind::RightParen) {
        return empty_warning(tokens, at);
    }
    let start = tokens.command_start(at);
    if !tokens.is_word(start, "find")
        || tokens.text(before) == b"';'".as_slice()
        || tokens.is_word(before, "+")
    {
        return None;
    }
    for index in start..at {
        if tokens.is_one_of(index, &["-exec", "-ok", "-execdir"]) {
            let is_quoted = tokens.text(before).ends_with(b"\\");
            let last = before.wrapping_sub(usize::from(is_quoted));
            let command = tokens.span_to(start, last);
            let repair = Repair::around("write ", command, " ';'");
            return tokens.warning(at, WarningKind::SEMICOLON, repair);
        }
    }
    None
}

/// The warning for a `;` directly after the head of an `if` or a `for`, unless an `if not` follows.
fn empty_warning(tokens: Tokens<'_>, at: usize) -> Option<Warning> {
    let close = at.wrapping_sub(1);
    let open = tokens.open_bracket(close)?;
    let is_head = tokens.is_one_of(open.wrapping_sub(1), &["if", "for"]);
    let has_other = tokens.is_word(at.wrapping_add(1), "if")
        && tokens.is_word(at.wrapping_add(2), "not");
    if !is_head || has_other {
        return None;
    }
    let head = tokens.span_to(open.wrapping_sub(1), close);
    let repair = Repair::around("write ", head, " and the command directly after it");
    tokens.warning(at, WarningKind::EMPTY, repair)
}

/// Whether the token at this index is a number as a word.
pub(crate) fn is_number_at(tokens: Tokens<'_>, at: usize) -> bool {
    tokens.is(at, TokenKind::Word) && is_number(tokens.text(at))
}
