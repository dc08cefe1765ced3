//! The rules for words as they are spelled.

use crate::bytes::{after, before, find, find_any, has, has_any, is_number, is_plain};
use crate::lexed::script_tokens::{ORDER_MARK, Tokens};
use crate::rules::View;
use crate::rules::assignments::{assignment_warning, colon_warning, sum_of_expr};
use crate::rules::brackets::loop_warning;
use crate::rules::commands::{called_function, command_warning, glob_warning};
use crate::rules::conditions::{joined_warning, joins_commands};
use crate::rules::foreign_words::inline_warning;
use crate::rules::functions::signal_warning;
use crate::rules::patterns::{comma_warning, commas_warning, pattern_warning};
use crate::rules::redirections::digit_warning;
use crate::warnings::kind::WarningKind;
use crate::warnings::repair::Repair;
use crate::warnings::warning::Warning;
use rc_lexer::{Span, TokenKind};

/// The beginnings of paths that Linux doesn't have.
const PATHS: [&[u8]; 5] = [b"/env/", b"/fd/", b"/rc/", b"/dev/tcp/", b"/dev/udp/"];

/// The characters that a backslash quotes in other shells.
const QUOTED: &[u8] = b" \t$;&|()<>#'\"*?[~!=^\\{}`";

/// The warning for the word at this index.
pub(crate) fn word_warning(view: View<'_, '_>, at: usize) -> Option<Warning> {
    let tokens = view.tokens;
    if at == 0 && tokens.script.starts_with(ORDER_MARK) {
        let repair = Repair::of("remove it, as with tail -c +4");
        return tokens.warning(at, WarningKind::ORDER_MARK, repair);
    }
    let text = tokens.text(at);
    if is_plain_word(text) && !view.overview.may_name(text) {
        return plain_warning(view, at);
    }
    first_of!(
        spelling_warning(tokens, at),
        shape_warning(tokens, at),
        if tokens.begins_command(at) {
            command_warning(view, at)
        } else {
            argument_warning(view, at)
        }
    )
}

/// Whether no rule is about a word of this text for its bytes: none means more in other shells, and it looks like no
/// number, operator or absolute path, nor like a command of PowerShell.
fn is_plain_word(text: &[u8]) -> bool {
    for byte in text {
        if is_notable(*byte) {
            return false;
        }
    }
    match text {
        [first, .., last] => first.is_ascii_lowercase() && !matches!(*last, b'+' | b'-'),
        [only] => only.is_ascii_alphabetic(),
        [] => true,
    }
}

/// Whether a byte means more in other shells, or is not of ASCII.
fn is_notable(byte: u8) -> bool {
    matches!(
        byte,
        b'"' | b'%' | b'*' | b',' | b':' | b'?' | b'[' | b'\\' | b']' | b'~' | 128..=255
    )
}

/// The warning for what is around a word that no rule is about for its text.
fn plain_warning(view: View<'_, '_>, at: usize) -> Option<Warning> {
    let tokens = view.tokens;
    if tokens.is(at.wrapping_add(1), TokenKind::Equals) && tokens.begins_command(at) {
        return assignment_warning(view, at);
    }
    hash_warning(tokens, at)
}

/// The warning for an argument.
fn argument_warning(view: View<'_, '_>, at: usize) -> Option<Warning> {
    let tokens = view.tokens;
    let text = tokens.text(at);
    if is_number(text) {
        return first_of!(digit_warning(tokens, at), pattern_warning(tokens, at, text));
    }
    if text.ends_with(b",") {
        return comma_warning(tokens, at);
    }
    first_of!(
        inline_warning(tokens, at),
        joined_warning(tokens, at),
        called_function(view, at),
        loop_warning(view, at),
        commas_warning(tokens, at, text),
        sum_of_expr(tokens, at),
        signal_warning(tokens, at),
        job_number(tokens, at, text),
        glob_warning(tokens, at, text),
        colon_warning(tokens, at, text),
        pattern_warning(tokens, at, text)
    )
}

/// The warning for `kill %1` or `wait %1`, and for `wait -n`.
fn job_number(tokens: Tokens<'_>, at: usize, text: &[u8]) -> Option<Warning> {
    let start = tokens.command_start(at);
    let is_number = text.starts_with(b"%") && tokens.is_one_of(start, &["kill", "wait"]);
    let is_next = text == b"-n".as_slice() && tokens.is_word(start, "wait");
    if !is_number && !is_next {
        return None;
    }
    let repair = Repair::of("keep each $apid, and wait for it: job=$apid, and wait $job");
    tokens.warning(at, WarningKind::JOB, repair)
}

/// The warning for characters of a word that quote nothing here.
fn spelling_warning(tokens: Tokens<'_>, at: usize) -> Option<Warning> {
    let text = tokens.text(at);
    match find_any(text, b"\"\\") {
        Some(found) if text.get(found) == Some(&b'"') => double_warning(tokens, at, found),
        Some(found) => backslash_warning(tokens, at, found),
        None => print_warning(tokens, at, text),
    }
}

/// The warning for quotation marks as of print, or a blank that doesn't break a line.
fn print_warning(tokens: Tokens<'_>, at: usize, text: &[u8]) -> Option<Warning> {
    let is_printed = text.starts_with(b"\xe2\x80\x98")
        || text.starts_with(b"\xe2\x80\x9c")
        || has(text, b"\xc2\xa0");
    if !is_printed {
        return None;
    }
    let repair = Repair::of("write ' and a blank as from the keyboard");
    tokens.warning(at, WarningKind::QUOTES, repair)
}

/// The warning for the first double quote of a command, which is at this offset of a word.
fn double_warning(tokens: Tokens<'_>, at: usize, offset: usize) -> Option<Warning> {
    if matches!(tokens.before(at).quote.get(), Some(before) if before >= tokens.command_start(at)) {
        return None;
    }
    let open = offset_in(tokens.span(at), offset).saturating_add(1);
    tokens.warning(at, WarningKind::DOUBLE, without_double_quotes(tokens, open))
}

/// The place of a byte of a span.
fn offset_in(span: Span, offset: usize) -> usize {
    (span.start as usize).saturating_add(offset)
}

/// The span of these places, as far as places have 32 bits.
pub(crate) fn span(start: usize, stop: usize) -> Span {
    Span {
        start: u32::try_from(start).unwrap_or(u32::MAX),
        stop: u32::try_from(stop).unwrap_or(u32::MAX),
    }
}

/// What to write in place of the text from this place to the next double quote.
fn without_double_quotes(tokens: Tokens<'_>, open: usize) -> Repair {
    let general = Repair::of("write 'a b', and 'a '$x if a variable is in it");
    let rest = after(tokens.script, open);
    let Some(length) = find_any(rest, b"\"\n'") else {
        return general;
    };
    let (inner, end) = rest.split_at(length.min(rest.len()));
    let close = open.saturating_add(length);
    let dollar = find(inner, b"$");
    match (end.first(), dollar) {
        (Some(b'"'), None) => Repair::around("write '", span(open, close), "'"),
        (Some(b'"'), Some(dollar)) => match inner.get(dollar..) {
            Some(value) if !value.contains(&b' ') => {
                with_value(span(open, open.saturating_add(dollar)), close)
            }
            _ => general,
        },
        _ => general,
    }
}

/// A text of this span, with a value after it up to this place.
fn with_value(text: Span, close: usize) -> Repair {
    let value = Span {
        start: text.stop,
        ..span(0, close)
    };
    if text.start == text.stop {
        Repair::around("write ", value, "")
    } else {
        Repair::pair(["write '", "'", ""], text, value)
    }
}

/// The warning for a backslash at this offset of a word, before a character that it would quote in other shells.
fn backslash_warning(tokens: Tokens<'_>, at: usize, offset: usize) -> Option<Warning> {
    let place = offset_in(tokens.span(at), offset);
    let next = tokens.script.get(place.saturating_add(1))?;
    if !QUOTED.contains(next) {
        return path_of_backslashes(tokens, at);
    }
    let start = tokens.span(at).start as usize;
    let rest = before(after(tokens.script, place.saturating_add(1)), b"\n");
    if is_blank(rest) {
        let repair = Repair::of("remove the blanks at the end of the line");
        return tokens.warning(at, WarningKind::BACKSLASH, repair);
    }
    let repair = Repair::pair(
        ["write '", "", "'"],
        span(start, place),
        span(place.saturating_add(1), end_of_escaped(tokens, at, place)),
    );
    tokens.warning(at, WarningKind::BACKSLASH, repair)
}

/// The warning for `.\script` and `..\x`.
fn path_of_backslashes(tokens: Tokens<'_>, at: usize) -> Option<Warning> {
    let text = tokens.text(at);
    if !text.starts_with(b".\\") && !text.starts_with(b"..\\") {
        return None;
    }
    let repair = Repair::of("write a / between the parts of a path");
    tokens.warning(at, WarningKind::BACKSLASH, repair)
}

/// Whether a text is of blanks alone.
fn is_blank(text: &[u8]) -> bool {
    for byte in text {
        if !matches!(*byte, b' ' | b'\t') {
            return false;
        }
    }
    true
}

/// The end of the text that begins after a backslash at this place of a word: that of the word, or else of the next
/// token of the line.
fn end_of_escaped(tokens: Tokens<'_>, at: usize, place: usize) -> usize {
    let after = place.saturating_add(1);
    for index in at..at.saturating_add(3) {
        let stop = tokens.span(index).stop as usize;
        if stop > after && tokens.line(index) == tokens.line(at) {
            return stop;
        }
    }
    after
}

/// The warning for a word of a shape that means more in other shells.
fn shape_warning(tokens: Tokens<'_>, at: usize) -> Option<Warning> {
    let text = tokens.text(at);
    if text.starts_with(b"~") {
        return first_of!(tilde_warning(tokens, at, text), hash_warning(tokens, at));
    }
    if text.ends_with(b"[") {
        return class_warning(tokens, at);
    }
    first_of!(
        path_warning(tokens, at, text),
        percent_warning(tokens, at, text),
        star_or_class(tokens, at, text),
        hash_warning(tokens, at)
    )
}

/// The warning for `%PATH%`.
fn percent_warning(tokens: Tokens<'_>, at: usize, text: &[u8]) -> Option<Warning> {
    let open = find(text, b"%")?;
    let rest = after(text, open.saturating_add(1));
    let name = before(rest, b"%");
    let is_name = name.len() > 2
        && name.len() < rest.len()
        && name.first().is_some_and(u8::is_ascii_uppercase)
        && is_upper(name);
    if !is_name || text.starts_with(b"+") {
        return None;
    }
    let start = offset_in(tokens.span(at), open).saturating_add(1);
    let name = span(start, start.saturating_add(name.len()));
    tokens.warning(
        at,
        WarningKind::PERCENT,
        Repair::around("write $", name, ""),
    )
}

/// Whether a text is of letters in upper case, digits and `_`.
fn is_upper(text: &[u8]) -> bool {
    for byte in text {
        if !byte.is_ascii_uppercase() && !byte.is_ascii_digit() && *byte != b'_' {
            return false;
        }
    }
    true
}

/// The warning for a word that begins with a tilde.
fn tilde_warning(tokens: Tokens<'_>, at: usize, text: &[u8]) -> Option<Warning> {
    let start = offset_in(tokens.span(at), 1);
    let rest = span(start, tokens.span(at).stop as usize);
    let is_alone = text.len() == 1;
    if is_alone && (is_match(tokens, at) || joins_commands(tokens, at.wrapping_sub(1))) {
        return None;
    }
    let repair = if is_alone || text.starts_with(b"~/") {
        Repair::around("write $home", rest, "")
    } else if is_plain(text, b"~_-/.") {
        Repair::around("write the path of the home directory of ", rest, "")
    } else {
        return None;
    };
    tokens.warning(at, WarningKind::TILDE, repair)
}

/// Whether a tilde at this index compares, or is a pattern or a mark and not the argument of a command.
fn is_match(tokens: Tokens<'_>, at: usize) -> bool {
    tokens.begins_command(at)
        || !tokens.is(at.wrapping_sub(1), TokenKind::Word)
        || matches!(
            tokens.kind(at.wrapping_sub(2)),
            Some(TokenKind::Redirection(_, _))
        )
}

/// The warning for a path that Linux doesn't have.
fn path_warning(tokens: Tokens<'_>, at: usize, text: &[u8]) -> Option<Warning> {
    if !is_elsewhere(text) && !tokens.is_one_of(at, &["/dev/cons", "/dev/consctl"]) {
        return None;
    }
    let repair = Repair::of("use the variable, the descriptor or a program in its place");
    tokens.warning(at, WarningKind::PLAN9, repair)
}

/// Whether a path begins as one that Linux doesn't have.
fn is_elsewhere(text: &[u8]) -> bool {
    for path in &PATHS {
        if text.starts_with(*path) {
            return true;
        }
    }
    false
}

/// The warning for `[^a]`, at its bracket.
fn class_warning(tokens: Tokens<'_>, at: usize) -> Option<Warning> {
    let caret = at.wrapping_add(1);
    let rest = caret.wrapping_add(1);
    let is_class = tokens.is(caret, TokenKind::Caret)
        && tokens.touches_next(at)
        && tokens.touches_next(caret)
        && tokens.is(rest, TokenKind::Word)
        && tokens.text(rest).contains(&b']');
    if !is_class {
        return None;
    }
    let repair = Repair::pair(["write ", "~", ""], tokens.span(at), tokens.span(rest));
    tokens.warning(at, WarningKind::CLASS, repair)
}

/// The warning for `[!a]`, `**` or `1..5`.
fn star_or_class(tokens: Tokens<'_>, at: usize, text: &[u8]) -> Option<Warning> {
    if !has_any(text, b"*[.") {
        return None;
    }
    if has(text, b"**") {
        let repair = Repair::of(
            "write * for names of one directory, and use find for all below it",
        );
        return tokens.warning(at, WarningKind::PATTERN, repair);
    }
    first_of!(not_class(tokens, at, text), range_warning(tokens, at, text))
}

/// The warning for `[!a]`.
fn not_class(tokens: Tokens<'_>, at: usize, text: &[u8]) -> Option<Warning> {
    let open = find(text, b"[!")?;
    let rest = text.get(open.saturating_add(2)..)?;
    if !rest.contains(&b']') || rest.starts_with(b"]") {
        return None;
    }
    let found = tokens.span(at);
    let bang = offset_in(found, open).saturating_add(1);
    let repair = Repair::pair(
        ["write ", "~", ""],
        span(found.start as usize, bang),
        span(bang.saturating_add(1), found.stop as usize),
    );
    tokens.warning(at, WarningKind::CLASS, repair)
}

/// The warning for `1..5`.
fn range_warning(tokens: Tokens<'_>, at: usize, text: &[u8]) -> Option<Warning> {
    let dots = find(text, b"..")?;
    let (low, rest) = text.split_at(dots.min(text.len()));
    let high = rest.get(2..)?;
    if !is_number(low) || !is_number(high) {
        return None;
    }
    let found = tokens.span(at);
    let middle = offset_in(found, dots);
    let repair = Repair::pair(
        ["write `{seq ", " ", "}"],
        span(found.start as usize, middle),
        span(middle.saturating_add(2), found.stop as usize),
    );
    tokens.warning(at, WarningKind::RANGE, repair)
}

/// The warning for a comment that begins directly after the token at this index.
pub(crate) fn hash_warning(tokens: Tokens<'_>, at: usize) -> Option<Warning> {
    let found = tokens.span(at);
    let rest = tokens.script.get(found.stop as usize..)?;
    if !rest.starts_with(b"#") {
        return None;
    }
    let length = before(rest, b" \t\n'").len();
    let stop = (found.stop as usize).saturating_add(length);
    let repair = Repair::around("write '", span(found.start as usize, stop), "'");
    tokens.warning(at, WarningKind::HASH, repair)
}

/// The warning for a caret that begins a word, or ends one, or that is between two words without quotes.
pub(crate) fn caret_warning(tokens: Tokens<'_>, at: usize) -> Option<Warning> {
    let last = at.wrapping_sub(1);
    let next = at.wrapping_add(1);
    let is_first = tokens.touches_next(at);
    let is_last = tokens.touches_next(last);
    let is_between = is_first
        && is_last
        && tokens.is(last, TokenKind::Word)
        && !tokens.text(last).ends_with(b"[")
        && tokens.is(next, TokenKind::Word);
    let is_beside = is_first != is_last
        && matches!(tokens.kind(next), Some(TokenKind::Word | TokenKind::Dollar));
    if !is_between && !is_beside {
        return None;
    }
    let word = if is_between {
        tokens.span_to(last, next)
    } else if is_first {
        tokens.span_to(at, next)
    } else {
        tokens.span_to(last, at)
    };
    tokens.warning(at, WarningKind::CARET, Repair::around("write '", word, "'"))
}
