//! The rules for jobs in the background.

use crate::bytes::has;
use crate::lexed::script_tokens::Tokens;
use crate::rules::View;
use crate::rules::redirections::both_warning;
use crate::warnings::kind::WarningKind;
use crate::warnings::repair::Repair;
use crate::warnings::warning::Warning;
use rc_lexer::TokenKind;

/// The warning for the `&` at this index.
pub(crate) fn job_warning(view: View<'_, '_>, at: usize) -> Option<Warning> {
    let tokens = view.tokens;
    first_of!(
        both_warning(tokens, at),
        address_warning(tokens, at),
        never_runs(tokens, at),
        inside_warning(tokens, at),
        unwaited_warning(view, at)
    )
}

/// The warning for an `&` in the text of a URL.
fn address_warning(tokens: Tokens<'_>, at: usize) -> Option<Warning> {
    let before = at.wrapping_sub(1);
    let is_address = tokens.touches_next(before)
        && tokens.touches_next(at)
        && has(tokens.text(before), b"://");
    if !is_address {
        return None;
    }
    let whole = tokens.span_to(before, at.wrapping_add(1));
    tokens.warning(
        at,
        WarningKind::ADDRESS,
        Repair::around("write '", whole, "'"),
    )
}

/// The warning for `if not command &`.
fn never_runs(tokens: Tokens<'_>, at: usize) -> Option<Warning> {
    let item = tokens.item_start(at);
    if !tokens.is_word(item, "if") || !tokens.is_word(item.wrapping_add(1), "not") {
        return None;
    }
    let command = tokens.span_to(item.wrapping_add(2), at.wrapping_sub(1));
    let repair = Repair::around("write if not {", command, " &}");
    tokens.warning(at, WarningKind::NEVER_RUNS, repair)
}

/// The warning for a job whose redirections don't cover the descriptors of its shell.
fn inside_warning(tokens: Tokens<'_>, at: usize) -> Option<Warning> {
    let close = at.wrapping_sub(1);
    if !redirects_inside(tokens, close) && !redirects_part(tokens, at) {
        return None;
    }
    let repair = Repair::of("put the job into braces, and its redirections after them: {..} >f &");
    tokens.warning(at, WarningKind::INSIDE, repair)
}

/// Whether a brace closes here around a command, with a redirection of output directly inside.
fn redirects_inside(tokens: Tokens<'_>, close: usize) -> bool {
    if !tokens.is(close, TokenKind::RightBrace) {
        return false;
    }
    let Some(open) = tokens.open_bracket(close) else {
        return false;
    };
    if matches!(tokens.kind_before(open), Some(TokenKind::Backquote)) {
        return false;
    }
    matches!(tokens.before(close).output.get(), Some(output) if output > open)
}

/// Whether the last redirection of the job that ends at this index is that of a part of it, as after `@` or `&&`.
fn redirects_part(tokens: Tokens<'_>, at: usize) -> bool {
    let Some(output) = tokens.before(at).output.get() else {
        return false;
    };
    let item = tokens.item_start(at);
    if output <= item || tokens.item_start(output) != item {
        return false;
    }
    tokens.is_one_of(item, &["@", "!", "if", "for", "while"])
        || tokens.command_start(output) != item && is_simple(tokens, item)
}

/// Whether a simple command begins at this index, and no assignment before it.
fn is_simple(tokens: Tokens<'_>, at: usize) -> bool {
    tokens.is(at, TokenKind::Word)
        && !tokens.is_word(at, "switch")
        && !tokens.is(at.wrapping_add(1), TokenKind::Equals)
}

/// The warning for a job that nothing waits for.
fn unwaited_warning(view: View<'_, '_>, at: usize) -> Option<Warning> {
    let tokens = view.tokens;
    if view.overview.has_wait || is_left_to_subshell(tokens, at) {
        return None;
    }
    let job = tokens.span_to(tokens.item_start(at), at);
    let repair = Repair::around("write @{", job, "}, or wait at the end");
    tokens.warning(at, WarningKind::UNWAITED, repair)
}

/// Whether the job that ends here is in a subshell, which leaves it to itself.
fn is_left_to_subshell(tokens: Tokens<'_>, at: usize) -> bool {
    match tokens.open_bracket(at) {
        Some(bracket) => tokens.is_word(bracket.wrapping_sub(1), "@"),
        None => false,
    }
}
