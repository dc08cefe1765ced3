//! The rules for patterns, and for what they are compared with.

use crate::bytes::{find, has, has_any, is_number, is_plain};
use crate::lexed::script_tokens::{Tokens, part};
use crate::rules::View;
use crate::rules::conditions::COMPARISONS;
use crate::rules::words::span;
use crate::warnings::kind::WarningKind;
use crate::warnings::repair::Repair;
use crate::warnings::warning::Warning;
use rc_lexer::{Span, TokenKind};

/// The warning for `~`: a subject that is the name of a variable, or that has no pattern.
pub(crate) fn match_warning(view: View<'_, '_>, at: usize) -> Option<Warning> {
    let tokens = view.tokens;
    let subject = at.wrapping_add(1);
    let is_variable = is_value(tokens.kind(subject));
    let last = subject.wrapping_add(usize::from(is_variable));
    let next = last.wrapping_add(1);
    let is_text = matches!(
        tokens.kind(subject),
        Some(TokenKind::Word | TokenKind::Quoted)
    );
    if (is_variable || is_text) && tokens.ends_command(next) {
        let repair = Repair::around("write ~ ", tokens.span_to(subject, last), " and a pattern");
        return tokens.warning(at, WarningKind::NO_PATTERN, repair);
    }
    if is_caret(tokens.kind(next)) {
        return None;
    }
    constant_warning(view, subject)
}

/// Whether a token begins the value of a variable.
fn is_value(kind: Option<TokenKind>) -> bool {
    matches!(
        kind,
        Some(TokenKind::Dollar | TokenKind::DollarCount | TokenKind::DollarFlat)
    )
}

/// The warning for `switch(x)`, and for a switch without a case.
pub(crate) fn switch_warning(view: View<'_, '_>, at: usize) -> Option<Warning> {
    let tokens = view.tokens;
    let next = at.wrapping_add(1);
    let is_list = tokens.is(next, TokenKind::LeftParen);
    let subject = next.wrapping_add(usize::from(is_list));
    let last = if is_list {
        tokens.closing(next)?
    } else {
        tokens.command_end(at)
    };
    if is_empty_block(tokens, last.wrapping_add(1)) {
        let repair = Repair::of("write case and patterns before the commands for them");
        return tokens.warning(at, WarningKind::NO_CASE, repair);
    }
    if last != subject.wrapping_add(usize::from(is_list)) {
        return None;
    }
    constant_subject(tokens, subject)
}

/// Whether braces without commands begin at this index, or on the next line.
fn is_empty_block(tokens: Tokens<'_>, at: usize) -> bool {
    let open = after_newlines(tokens, at);
    let close = after_newlines(tokens, open.wrapping_add(1));
    tokens.is(open, TokenKind::LeftBrace) && tokens.is(close, TokenKind::RightBrace)
}

/// The index after a few ends of commands that begin at this index.
pub(crate) fn after_newlines(tokens: Tokens<'_>, at: usize) -> usize {
    let mut next = at;
    for _ in 0..4 {
        if matches!(
            tokens.kind(next),
            Some(TokenKind::Newline | TokenKind::Semicolon)
        ) {
            next = next.wrapping_add(1);
        }
    }
    next
}

/// The warning for a subject of `switch` that is a word, which is compared as it is.
fn constant_subject(tokens: Tokens<'_>, at: usize) -> Option<Warning> {
    if !tokens.is(at, TokenKind::Word) || !is_plain(tokens.text(at), b"_*") {
        return None;
    }
    let repair = Repair::around("write $", tokens.span(at), "");
    tokens.warning(at, WarningKind::CONSTANT, repair)
}

/// The warning for a `case` without a pattern.
pub(crate) fn empty_case(tokens: Tokens<'_>, at: usize) -> Option<Warning> {
    if !tokens.ends_command(at.wrapping_add(1)) {
        return None;
    }
    let repair = Repair::of("write case and a pattern, and case * for all others");
    tokens.warning(at, WarningKind::NO_PATTERN, repair)
}

/// The warning for a word at this index that is the name of a variable, where its value is meant.
pub(crate) fn constant_warning(view: View<'_, '_>, at: usize) -> Option<Warning> {
    let tokens = view.tokens;
    if !tokens.is(at, TokenKind::Word) || !view.overview.has_variable(tokens.text(at)) {
        return None;
    }
    let repair = Repair::around("write $", tokens.span(at), "");
    tokens.warning(at, WarningKind::CONSTANT, repair)
}

/// The warning for a bar after `~`.
pub(crate) fn bar_warning(tokens: Tokens<'_>, at: usize) -> Option<Warning> {
    let start = tokens.command_start(at);
    if !tokens.is_word(start, "~") || tokens.is(at.wrapping_sub(1), TokenKind::RightBrace) {
        return None;
    }
    let test = tokens.span_to(start, at.wrapping_sub(1));
    let next = tokens.span(at.wrapping_add(1));
    let repair = Repair::pair(["write ", " ", ""], test, next);
    tokens.warning(at, WarningKind::ALTERNATIVE, repair)
}

/// The warning for `~ $x a || '*.c'`, at the text that is no command.
pub(crate) fn or_warning(view: View<'_, '_>, at: usize) -> Option<Warning> {
    let tokens = view.tokens;
    let start = tokens.command_start(at);
    let next = at.wrapping_add(1);
    let is_alone = tokens.is_word(start, "~") && tokens.ends_command(next.wrapping_add(1));
    if !is_alone || !seems_pattern(view, next) {
        return None;
    }
    let test = tokens.span_to(start, at.wrapping_sub(1));
    let repair = Repair::pair(["write ", " ", ""], test, tokens.span(next));
    tokens.warning(next, WarningKind::NO_PATTERN_HERE, repair)
}

/// Whether the token at this index seems to be a pattern and no command: it has a form that names have not, or it is a
/// letter or an answer in a condition.
fn seems_pattern(view: View<'_, '_>, at: usize) -> bool {
    let tokens = view.tokens;
    let text = tokens.text(at);
    let is_answer = text.len() == 1 || tokens.is_one_of(at, &["yes", "no"]);
    match tokens.kind(at) {
        Some(TokenKind::Quoted) => tokens.is_in_condition(at),
        Some(TokenKind::Word) if view.overview.has_function(text) => false,
        Some(TokenKind::Word) => {
            has_any(text, b"*?[")
                || text.starts_with(b"-")
                || is_number(text)
                || is_answer && tokens.is_in_condition(at)
        }
        _ => false,
    }
}

/// Whether a token joins words.
fn is_caret(kind: Option<TokenKind>) -> bool {
    matches!(kind, Some(TokenKind::Caret | TokenKind::FreeCaret))
}

/// Whether the token at this index is a pattern by itself, not joined to others.
fn is_pattern(tokens: Tokens<'_>, at: usize) -> bool {
    let is_joined = is_caret(tokens.kind_before(at)) || is_caret(tokens.kind(at.wrapping_add(1)));
    let start = tokens.command_start(at);
    !is_joined
        && (tokens.is_word(start, "case")
            || tokens.is_word(start, "~") && at > start.saturating_add(1))
}

/// The warning for the name of a variable whose value is meant as a pattern, after its `$`.
pub(crate) fn value_pattern(view: View<'_, '_>, at: usize) -> Option<Warning> {
    let tokens = view.tokens;
    let dollar = at.wrapping_sub(1);
    let is_alone = tokens.is(dollar, TokenKind::Dollar)
        && !matches!(
            tokens.kind_before(dollar),
            Some(TokenKind::Caret | TokenKind::FreeCaret)
        )
        && dollar > tokens.command_start(at).saturating_add(1);
    let is_pattern = tokens.is_in_command(at, "case") || tokens.is_in_command(at, "~") && is_alone;
    if !is_pattern || !view.overview.has_pattern(tokens.text(at)) {
        return None;
    }
    let value = tokens.span_to(dollar, at);
    let repair = Repair::around("write the pattern itself, or eval '~ $x '^", value, "");
    tokens.warning(at, WarningKind::LITERAL, repair)
}

/// The warning for a word that is a pattern.
pub(crate) fn pattern_warning(tokens: Tokens<'_>, at: usize, text: &[u8]) -> Option<Warning> {
    if !is_pattern(tokens, at) {
        return None;
    }
    if tokens.is_one_of(at, &COMPARISONS) && tokens.is_in_command(at, "~") {
        let start = tokens.command_start(at).saturating_add(1);
        let rest = tokens.span_to(start, tokens.command_end(at));
        return tokens.warning(
            at,
            WarningKind::TEST,
            Repair::around("write test ", rest, ""),
        );
    }
    if let Some(advice) = regular_expression(text) {
        return tokens.warning(at, WarningKind::PATTERN, Repair::of(advice));
    }
    if has_empty_class(text) {
        let repair = Repair::of("write a class as [a-z], and a [ that is meant as '['");
        return tokens.warning(at, WarningKind::NEVER, repair);
    }
    case_warning(tokens, at, text)
}

/// What to write for a pattern with a part as of regular expressions.
fn regular_expression(text: &[u8]) -> Option<&'static str> {
    if has(text, b"[[:") {
        return Some("write a class with its characters, as [a-z]");
    }
    if has(text, b"\\d") || has(text, b"\\w") || has(text, b"\\s") {
        return Some("write a class with its characters, as [0-9]");
    }
    has(text, b"]+").then_some("write one class for each character, or use grep")
}

/// The warning for a `:` at the end of a pattern of a case line.
fn case_warning(tokens: Tokens<'_>, at: usize, text: &[u8]) -> Option<Warning> {
    if !tokens.is_in_command(at, "case") || !text.ends_with(b":") {
        return None;
    }
    let repair = Repair::around("write case ", without_last(tokens.span(at)), "");
    tokens.warning(at, WarningKind::CASE, repair)
}

/// A span without its last byte.
fn without_last(found: Span) -> Span {
    Span {
        stop: found.stop.saturating_sub(1),
        ..found
    }
}

/// The warning for a word that ends in a comma, before another one of a list or of a case line.
pub(crate) fn comma_warning(tokens: Tokens<'_>, at: usize) -> Option<Warning> {
    let is_in_list = match tokens.open_bracket(at) {
        Some(open) => {
            tokens.is(open, TokenKind::LeftParen) && !tokens.is_in_condition(at)
                || tokens.is(open, TokenKind::Subscript)
        }
        None => false,
    };
    let has_next = matches!(
        tokens.kind(at.wrapping_add(1)),
        Some(TokenKind::Word | TokenKind::Quoted | TokenKind::Dollar)
    );
    if !has_next || !is_in_list && !tokens.is_in_command(at, "case") {
        return None;
    }
    let words = ["write ", " ", ""];
    let next = tokens.span(at.wrapping_add(1));
    let repair = Repair::pair(words, without_last(tokens.span(at)), next);
    tokens.warning(at, WarningKind::COMMA, repair)
}

/// The warning for a word with commas that is all of a list, as in `x=(a,b)`.
pub(crate) fn commas_warning(tokens: Tokens<'_>, at: usize, text: &[u8]) -> Option<Warning> {
    let before = at.wrapping_sub(1);
    let is_assigned = tokens.is(before, TokenKind::LeftParen)
        && tokens.is(before.wrapping_sub(1), TokenKind::Equals);
    let is_list = is_assigned && tokens.is(at.wrapping_add(1), TokenKind::RightParen);
    if !is_list && !is_only_item(tokens, at, at) || !text.contains(&b',') {
        return None;
    }
    let repair = Repair::around("write ", tokens.span(at), " with blanks between its parts");
    tokens.warning(at, WarningKind::COMMA, repair)
}

/// Whether a text is of stars alone.
fn is_stars(text: &[u8]) -> bool {
    for byte in text {
        if *byte != b'*' {
            return false;
        }
    }
    true
}

/// The text between the quotes of the token at this index.
fn inside_quotes(tokens: Tokens<'_>, at: usize) -> Span {
    let found = tokens.span(at);
    Span {
        start: found.start.saturating_add(1),
        ..without_last(found)
    }
}

/// The warning for a text in quotes that is all that a loop is for, as in `for(f in '*.c')`.
pub(crate) fn quoted_item(tokens: Tokens<'_>, at: usize) -> Option<Warning> {
    let inside = inside_quotes(tokens, at);
    let inner = part(tokens.script, inside);
    let is_pattern = has_any(inner, b"*?[") && is_plain(inner, b"._/-*?[]");
    let is_list = blanks(inner) > 1 && is_plain(inner, b"._/- ");
    if !is_pattern && !is_list || !is_only_item(tokens, at, at) {
        return None;
    }
    let repair = Repair::around("write ", inside, " without quotes");
    tokens.warning(at, WarningKind::ONE_WORD, repair)
}

/// How many blanks a text has.
fn blanks(text: &[u8]) -> usize {
    let mut count = 0usize;
    for byte in text {
        count = count.saturating_add(usize::from(*byte == b' '));
    }
    count
}

/// Whether the tokens from one index to another are all that a loop is for.
pub(crate) fn is_only_item(tokens: Tokens<'_>, first: usize, last: usize) -> bool {
    tokens.is_word(first.wrapping_sub(1), "in")
        && tokens.is(first.wrapping_sub(3), TokenKind::LeftParen)
        && tokens.is_word(first.wrapping_sub(4), "for")
        && tokens.is(last.wrapping_add(1), TokenKind::RightParen)
}

/// The warning for a variable with a quoted pattern that files are meant by: all that a loop is for, or the argument of
/// a command that takes files. It is at the name.
pub(crate) fn file_pattern(view: View<'_, '_>, at: usize) -> Option<Warning> {
    let tokens = view.tokens;
    let dollar = at.wrapping_sub(1);
    let is_alone = tokens.is(dollar, TokenKind::Dollar)
        && !is_caret(tokens.kind_before(dollar))
        && !is_caret(tokens.kind(at.wrapping_add(1)));
    let start = tokens.command_start(at);
    let takes_files = start < dollar
        && tokens.is_one_of(start, &["ls", "rm", "cp", "mv", "cat", "wc"])
        || is_only_item(tokens, dollar, at);
    if !is_alone || !takes_files || !view.overview.has_quoted_pattern(tokens.text(at)) {
        return None;
    }
    let repair = Repair::around(
        "assign the pattern without quotes: ",
        tokens.span(at),
        "=..",
    );
    tokens.warning(dollar, WarningKind::NO_FILES, repair)
}

/// The warning for a pattern in quotes, or a comment directly after a quoted word.
pub(crate) fn quoted_warning(tokens: Tokens<'_>, at: usize) -> Option<Warning> {
    if !is_pattern(tokens, at) {
        return quoted_item(tokens, at);
    }
    let inside = inside_quotes(tokens, at);
    let inner = part(tokens.script, inside);
    if is_choice(inner) && !is_about_status(tokens, at) {
        let repair = Repair::of("write the patterns one after the other, as in a b");
        return tokens.warning(at, WarningKind::PATTERN, repair);
    }
    if inner.len() > 1 && inner.starts_with(b"^") {
        let repair = Repair::of("write a pattern such as a*, without quotes, or use grep");
        return tokens.warning(at, WarningKind::PATTERN, repair);
    }
    if is_stars(inner) || !inner.contains(&b'*') || !is_plain(inner, b"._/-*") {
        return None;
    }
    let repair = Repair::around("write ", inside, "");
    tokens.warning(at, WarningKind::LITERAL, repair)
}

/// Whether a text is of words with bars between them.
fn is_choice(text: &[u8]) -> bool {
    text.contains(&b'|')
        && is_plain(text, b"._/-*|")
        && text.first().is_some_and(u8::is_ascii_alphabetic)
        && !text.ends_with(b"|")
}

/// Whether the pattern at this index is one for the status, which has bars itself.
fn is_about_status(tokens: Tokens<'_>, at: usize) -> bool {
    let start = tokens.command_start(at);
    let head = match tokens.open_bracket(at) {
        Some(open) if tokens.is_word(start, "case") => tokens.command_start(open.wrapping_sub(1)),
        _ => start,
    };
    for index in head..head.saturating_add(5) {
        if tokens.text(index) == b"status".as_slice() {
            return true;
        }
    }
    false
}

/// The warning for an empty list among the patterns of `~` or `case`.
pub(crate) fn list_warning(tokens: Tokens<'_>, at: usize) -> Option<Warning> {
    if !tokens.is(at.wrapping_add(1), TokenKind::RightParen) {
        return None;
    }
    let start = tokens.command_start(at);
    let is_list = tokens.is_word(start, "case")
        || tokens.is_word(start, "~") && at > start.saturating_add(1);
    if !is_list {
        return None;
    }
    let repair = Repair::of("write '' for the empty list, whose text is empty");
    tokens.warning(at, WarningKind::NEVER, repair)
}

/// Whether a pattern has a class without characters: one that is not closed, an empty one, or one with nothing but a
/// falling range.
fn has_empty_class(text: &[u8]) -> bool {
    // the bytes before this offset belong to a class
    let mut end = 0usize;
    for (place, byte) in text.iter().enumerate() {
        if *byte == b'[' && place >= end {
            let Some(length) = class_length(&text[place..]) else {
                return true;
            };
            end = place.saturating_add(length);
        }
    }
    false
}

/// The length of the class that begins a text, if it has a character.
fn class_length(text: &[u8]) -> Option<usize> {
    match text {
        [_, b']', ..] => None,
        [_, low, b'-', high, b']', ..] if low > high => None,
        _ => find(text, b"]"),
    }
}
