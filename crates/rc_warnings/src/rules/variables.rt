//! The rules for the names of variables.

use crate::bytes::{find, has_any, is_number, is_plain};
use crate::lexed::script_tokens::{Tokens, part};
use crate::rules::View;
use crate::rules::conditions::test_warning;
use crate::rules::patterns::{file_pattern, value_pattern};
use crate::rules::words::span;
use crate::warnings::kind::WarningKind;
use crate::warnings::repair::{NOWHERE, Repair};
use crate::warnings::warning::Warning;
use rc_lexer::{Span, TokenKind};

/// The warning for the name of a variable that is used.
pub(crate) fn name_warning(view: View<'_, '_>, at: usize) -> Option<Warning> {
    let tokens = view.tokens;
    let text = tokens.text(at);
    if text.contains(&b'*') {
        return first_of!(star_warning(view, at, text), subscript_warning(tokens, at));
    }
    first_of!(
        zero_warning(tokens, at, text),
        apid_warning(tokens, at, text),
        variable_warning(view, at, text),
        subscript_warning(tokens, at),
        modifier_warning(view, at),
        value_pattern(view, at),
        file_pattern(view, at),
        test_warning(tokens, at)
    )
}

/// The warning for a quoted name with a backslash, as in `$'a\n'`.
pub(crate) fn quoted_name(tokens: Tokens<'_>, at: usize) -> Option<Warning> {
    let is_name = tokens.is(at.wrapping_sub(1), TokenKind::Dollar);
    if !is_name || !tokens.text(at).contains(&b'\\') {
        return None;
    }
    let repair = Repair::of("write a newline or a tab itself, in quotes");
    tokens.warning(at, WarningKind::BACKSLASH, repair)
}

/// The warning for `$0`.
fn zero_warning(tokens: Tokens<'_>, at: usize, text: &[u8]) -> Option<Warning> {
    if text != b"0".as_slice() {
        return None;
    }
    let repair = Repair::of("give the script its name in a variable, as in me=deploy");
    tokens.warning(at, WarningKind::ZERO, repair)
}

/// The warning for `kill $apid`.
fn apid_warning(tokens: Tokens<'_>, at: usize, text: &[u8]) -> Option<Warning> {
    if text != b"apid".as_slice() || !tokens.is_in_command(at, "kill") {
        return None;
    }
    let repair = Repair::of("let the process write its own number into a file, as rc(1) says");
    tokens.warning(at, WarningKind::APID, repair)
}

/// The warning for a name that has a star in it.
fn star_warning(view: View<'_, '_>, at: usize, text: &[u8]) -> Option<Warning> {
    let tokens = view.tokens;
    let star = find(text, b"*")?;
    let is_known = star == 0 || view.overview.has_variable(text);
    if is_known || !tokens.is(at.wrapping_sub(1), TokenKind::Dollar) {
        return None;
    }
    let found = tokens.span(at);
    let middle = (found.start as usize).saturating_add(star);
    let repair = Repair::pair(
        ["write $", "^", ""],
        span(found.start as usize, middle),
        span(middle, found.stop as usize),
    );
    tokens.warning(at, WarningKind::STAR, repair)
}

/// The warning for a variable of other shells.
fn variable_warning(view: View<'_, '_>, at: usize, text: &[u8]) -> Option<Warning> {
    let instead = view.overview.foreign_variable(text)?;
    let tokens = view.tokens;
    let repair = Repair::pair(["in place of $", ": ", instead], tokens.span(at), NOWHERE);
    tokens.warning(at, WarningKind::VARIABLE, repair)
}

/// The warning for `$x[1]`, at the bracket.
fn subscript_warning(tokens: Tokens<'_>, at: usize) -> Option<Warning> {
    let open = at.wrapping_add(2);
    if !tokens.is(at.wrapping_add(1), TokenKind::FreeCaret) || !tokens.is(open, TokenKind::Word) {
        return None;
    }
    let found = tokens.span(open);
    let name = tokens.span(at);
    let text = tokens.text(open);
    let inner = span(
        (found.start as usize).saturating_add(1),
        (found.stop as usize).saturating_sub(1),
    );
    let repair = if text == b"[".as_slice() {
        let value = tokens.span_to(open.wrapping_add(2), open.wrapping_add(3));
        Repair::pair(["write $", "(", ")"], name, value)
    } else if text.starts_with(b"[*]") || text.starts_with(b"[@]") {
        Repair::around("write $", name, "")
    } else if text.starts_with(b"[") && text.ends_with(b"]") {
        place_repair(tokens, name, inner)?
    } else {
        return None;
    };
    tokens.warning(open, WarningKind::SUBSCRIPT, repair)
}

/// What to write for a place in brackets after a name, if it seems to be one and no class of characters.
fn place_repair(tokens: Tokens<'_>, name: Span, inner: Span) -> Option<Repair> {
    let place = part(tokens.script, inner);
    let is_letter = place.len() == 1 && is_plain(place, b"");
    if is_number(place) || is_letter {
        let words = ["write $", "(", "), where places begin with 1"];
        return Some(Repair::pair(words, name, inner));
    }
    if let Some(b"1") = place.strip_prefix(b"-") {
        return Some(Repair::pair(["write $", "($#", ")"], name, name));
    }
    let is_range = place.first().is_some_and(u8::is_ascii_digit) && is_places(place);
    is_range.then_some(Repair::around(
        "write $",
        name,
        "(1 2) for two places, and (1-3) for a range",
    ))
}

/// Whether a text is of digits and of what separates places in other languages.
fn is_places(text: &[u8]) -> bool {
    for byte in text {
        if !byte.is_ascii_digit() && !matches!(*byte, b',' | b':' | b'.') {
            return false;
        }
    }
    true
}

/// The warning for what follows a value where other languages change it, as in `$x:h`, `$x.length` and `$env:x`.
fn modifier_warning(view: View<'_, '_>, at: usize) -> Option<Warning> {
    let tokens = view.tokens;
    let rest = at.wrapping_add(2);
    let is_value = tokens.is(at.wrapping_sub(1), TokenKind::Dollar)
        && tokens.is(at.wrapping_add(1), TokenKind::FreeCaret)
        && tokens.is(rest, TokenKind::Word)
        && !matches!(
            tokens.kind(rest.wrapping_add(1)),
            Some(TokenKind::FreeCaret | TokenKind::Caret)
        );
    if !is_value {
        return None;
    }
    let name = tokens.span(at);
    let text = tokens.text(rest);
    let repair = if text == b":h".as_slice() {
        Repair::around("write `{dirname $", name, "}")
    } else if text == b":t".as_slice() {
        Repair::around("write `{basename $", name, "}")
    } else if text == b":r".as_slice() || text == b":e".as_slice() || text.starts_with(b":s/") {
        Repair::of("take the text apart by sed")
    } else if text == b".length".as_slice() || text == b".Count".as_slice() {
        Repair::around("write $#", name, "")
    } else if tokens.text(at) == b"env".as_slice() && text.starts_with(b":") {
        variable_after(view, rest)?
    } else {
        return None;
    };
    tokens.warning(rest, WarningKind::MODIFIER, repair)
}

/// What to write for `$env:x`, whose name is after the colon of this word, unless the script has a variable `env`.
fn variable_after(view: View<'_, '_>, at: usize) -> Option<Repair> {
    let found = view.tokens.span(at);
    let name = Span {
        start: found.start.saturating_add(1),
        ..found
    };
    let is_own = view.overview.has_variable(b"env");
    (!is_own).then_some(Repair::around("write $", name, ""))
}

/// The warning for a place of a list that selects nothing, at its bracket.
pub(crate) fn place_warning(view: View<'_, '_>, open: usize) -> Option<Warning> {
    let tokens = view.tokens;
    let place = open.wrapping_add(1);
    let next = place.wrapping_add(1);
    if tokens.is_word(next, "-") {
        let last = tokens.span(next.wrapping_add(1));
        let repair = Repair::pair(["write (", "-", ")"], tokens.span(place), last);
        return tokens.warning(next, WarningKind::PLACE, repair);
    }
    let is_alone = tokens.is(next, TokenKind::RightParen);
    if !is_alone || !tokens.is(place, TokenKind::Word) {
        return None;
    }
    let text = tokens.text(place);
    let repair = if tokens.is_word(place, "0") {
        Repair::of("places are counted from 1")
    } else if tokens.is_word(place, "-1") {
        let name = tokens.span(open.wrapping_sub(1));
        Repair::around("write $#", name, " for the last place")
    } else if view.overview.has_variable(text) {
        Repair::around("write $", tokens.span(place), "")
    } else if has_any(text, b",:") {
        Repair::of("write (1 2) for two places, and (1-3) for a range")
    } else if text.first().is_some_and(u8::is_ascii_alphabetic) && is_plain(text, b"_") {
        Repair::of("a list has numbers alone for its places; write a variable for each name")
    } else {
        return None;
    };
    tokens.warning(place, WarningKind::PLACE, repair)
}
