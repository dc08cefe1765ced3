//! The rules for redirections.

use crate::lexed::script_tokens::Tokens;
use crate::rules::commands::is_number_at;
use crate::warnings::kind::WarningKind;
use crate::warnings::repair::Repair;
use crate::warnings::warning::Warning;
use rc_lexer::{Span, TokenKind};
use rc_model::Mode;

/// The warning for a redirection.
pub(crate) fn redirection_warning(tokens: Tokens<'_>, at: usize) -> Option<Warning> {
    let next = at.wrapping_add(1);
    if tokens.is(next, TokenKind::LeftParen) && tokens.touches_next(at) {
        return process_warning(tokens, at);
    }
    if tokens.is_word(next, "!") {
        let file = tokens.span(next.wrapping_add(1));
        let repair = Repair::pair(["write ", "", ""], tokens.span(at), file);
        return tokens.warning(next, WarningKind::COMPARE, repair);
    }
    if tokens.is_one_of(next, &["nul", "NUL"]) {
        let repair = Repair::around("write ", tokens.span(at), "/dev/null");
        return tokens.warning(next, WarningKind::PLAN9, repair);
    }
    if is_arrow(tokens, at) {
        let repair = Repair::of("a value has no parts: write a variable for each");
        return tokens.warning(at, WarningKind::ARROW, repair);
    }
    if is_number_at(tokens, next) && !is_compared(tokens, at) {
        let repair = Repair::of("write >[1=2] for descriptor 2");
        return tokens.warning(next, WarningKind::COMPARE, repair);
    }
    if !is_number_at(tokens, next) && !is_value_after(tokens, at) {
        return None;
    }
    compare_warning(tokens, at)
}

/// Whether a redirection is the end of `->` between two names.
fn is_arrow(tokens: Tokens<'_>, at: usize) -> bool {
    let before = at.wrapping_sub(1);
    let is_after_name = tokens.text(before).len() > 1
        || matches!(tokens.kind_before(before), Some(TokenKind::FreeCaret));
    is_after_name
        && tokens.is(before, TokenKind::Word)
        && tokens.text(before).ends_with(b"-")
        && tokens.text(at) == b">".as_slice()
        && tokens.touches_next(before)
        && tokens.touches_next(at)
}

/// Whether a redirection is where other languages compare: in a condition, in a `test`, or after a value.
fn is_compared(tokens: Tokens<'_>, at: usize) -> bool {
    let start = tokens.command_start(at);
    tokens.is_in_condition(at) || is_test(tokens, start) || is_value(tokens, start)
}

/// Whether a `test` begins at this index.
fn is_test(tokens: Tokens<'_>, start: usize) -> bool {
    tokens.is_one_of(start, &["test", "["])
}

/// Whether a value begins at this index.
fn is_value(tokens: Tokens<'_>, start: usize) -> bool {
    tokens.is(start, TokenKind::Dollar) || tokens.is(start, TokenKind::DollarCount)
}

/// Whether a redirection is followed by a blank and a value, as in `$x > $y` in a condition, or in `test $x > $y`.
fn is_value_after(tokens: Tokens<'_>, at: usize) -> bool {
    let start = tokens.command_start(at);
    let is_between = is_test(tokens, start)
        || is_value(tokens, start) && start.wrapping_add(2) == at && tokens.is_in_condition(at);
    is_between
        && tokens.text(at).len() == 1
        && !tokens.touches_next(at)
        && tokens.is(at.wrapping_add(1), TokenKind::Dollar)
}

/// The warning for `<(sort f)`.
fn process_warning(tokens: Tokens<'_>, at: usize) -> Option<Warning> {
    let open = at.wrapping_add(1);
    let inner = match tokens.closing(open) {
        Some(close) => tokens.span_to(open.wrapping_add(1), close.wrapping_sub(1)),
        None => tokens.span(open.wrapping_add(1)),
    };
    let command = tokens.span_to(tokens.command_start(at), at.wrapping_sub(1));
    let repair = if matches!(tokens.kind(at), Some(TokenKind::Redirection(Mode::Read, _))) {
        Repair::pair(["write ", " | ", ""], inner, command)
    } else {
        Repair::pair(["write ", " | ", ""], command, inner)
    };
    tokens.warning(at, WarningKind::PROCESS, repair)
}

/// The warning for a redirection that is meant to compare.
fn compare_warning(tokens: Tokens<'_>, at: usize) -> Option<Warning> {
    let next = at.wrapping_add(1);
    let start = tokens.command_start(at);
    let first = start.wrapping_add(usize::from(is_test(tokens, start)));
    let last = next.wrapping_add(usize::from(tokens.is(next, TokenKind::Dollar)));
    let is_less = matches!(tokens.kind(at), Some(TokenKind::Redirection(Mode::Read, _)));
    let operator = if is_less { " -lt " } else { " -gt " };
    let subject = tokens.span_to(first, at.wrapping_sub(1));
    let words = ["write test ", operator, ""];
    let repair = Repair::pair(words, subject, tokens.span_to(next, last));
    tokens.warning(next, WarningKind::COMPARE, repair)
}

/// The warning for a number that directly precedes a redirection.
pub(crate) fn digit_warning(tokens: Tokens<'_>, at: usize) -> Option<Warning> {
    let next = at.wrapping_add(1);
    let is_redirection = matches!(tokens.kind(next), Some(TokenKind::Redirection(_, _)));
    if !is_redirection || !tokens.touches_next(at) || tokens.text(at).len() != 1 {
        return None;
    }
    let operator = tokens.span(next);
    let file = tokens.span(next.wrapping_add(1));
    let repair = if tokens.is_word(at, "2") {
        Repair::new(["write ", "[", "]", ""], [operator, tokens.span(at), file])
    } else if tokens.is_one_of(at, &["0", "1"]) {
        Repair::pair(["write ", "", ""], operator, file)
    } else {
        Repair::of("there are only the descriptors 0, 1 and 2")
    };
    tokens.warning(at, WarningKind::DIGIT, repair)
}

/// The warning for `&>file`.
pub(crate) fn both_warning(tokens: Tokens<'_>, at: usize) -> Option<Warning> {
    let next = at.wrapping_add(1);
    let writes = matches!(
        tokens.kind(next),
        Some(TokenKind::Redirection(Mode::Write | Mode::Append, _))
    );
    if !writes || !tokens.touches_next(at) {
        return None;
    }
    let redirection: Span = tokens.span_to(next, tokens.command_end(next));
    let repair = Repair::around("write ", redirection, " >[2=1]");
    tokens.warning(at, WarningKind::BOTH, repair)
}
