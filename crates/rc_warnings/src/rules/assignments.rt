//! The rules for assignments.

use crate::bytes::{find, find_any, has, has_any, is_number, is_plain};
use crate::lexed::script_tokens::Tokens;
use crate::rules::View;
use crate::rules::conditions::assigned_condition;
use crate::rules::words::span;
use crate::warnings::kind::WarningKind;
use crate::warnings::repair::Repair;
use crate::warnings::warning::Warning;
use rc_lexer::TokenKind;

/// The warning for the word before an `=`.
pub(crate) fn assignment_warning(view: View<'_, '_>, at: usize) -> Option<Warning> {
    let tokens = view.tokens;
    if !is_name(tokens.text(at)) {
        return bad_name(tokens, at);
    }
    first_of!(
        upper_warning(view, at),
        assigned_condition(tokens, at),
        sum_warning(view, at),
        value_sum(tokens, at),
        operator_warning(tokens, at),
        brackets_warning(tokens, at),
        escape_warning(tokens, at),
        lost_warning(tokens, at),
        value_warning(tokens, at)
    )
}

/// Whether a text can be the name of a variable.
fn is_name(text: &[u8]) -> bool {
    is_plain(text, b"_*") && !is_number(text)
}

/// The warning for an assignment to what is no name.
fn bad_name(tokens: Tokens<'_>, at: usize) -> Option<Warning> {
    let found = tokens.span(at);
    let start = found.start as usize;
    let name = span(start, (found.stop as usize).saturating_sub(1));
    let text = tokens.text(at);
    let value = tokens.span(at.wrapping_add(2));
    let repair = if text.ends_with(b"+") {
        let words = ["write ", "=($", " ..), or $", "^.. for one text"];
        Repair::new(words, [name; 3])
    } else if text.ends_with(b":") {
        Repair::pair(["write ", "=", ""], name, value)
    } else if let Some(open) = find(text, b"[") {
        let list = span(start, start.saturating_add(open));
        Repair::pair(["write ", "=(..) with all members of $", ""], list, list)
    } else {
        Repair::of("names have letters, digits and _; for a program, env 'a.b=c'")
    };
    tokens.warning(at, WarningKind::NAME, repair)
}

/// The warning for a variable that other shells read.
fn upper_warning(view: View<'_, '_>, at: usize) -> Option<Warning> {
    let tokens = view.tokens;
    let value = at.saturating_add(2);
    let is_prefix = has_blank(tokens, value, tokens.command_end(at));
    let repair = if tokens.is_word(at, "IFS") {
        Repair::of("write ifs")
    } else if tokens.is_word(at, "CDPATH") {
        Repair::of("write cdpath, with a list")
    } else if tokens.is_word(at, "PATH") && !is_prefix && !view.overview.has_variable(b"path") {
        Repair::of("write path=(/opt/bin $path) too; PATH is for programs alone")
    } else {
        return None;
    };
    tokens.warning(at, WarningKind::UPPER, repair)
}

/// Whether two tokens between these don't touch.
fn has_blank(tokens: Tokens<'_>, first: usize, last: usize) -> bool {
    for index in first..last {
        if !tokens.touches_next(index) {
            return true;
        }
    }
    false
}

/// The warning for a word with a colon in a value of `path` or `cdpath`.
pub(crate) fn colon_warning(tokens: Tokens<'_>, at: usize, text: &[u8]) -> Option<Warning> {
    let name = tokens.command_start(at);
    if !text.contains(&b':') || !tokens.is_one_of(name, &["path", "cdpath"]) {
        return None;
    }
    let value = name.wrapping_add(2);
    let is_value = tokens.is(name.wrapping_add(1), TokenKind::Equals)
        && (tokens.open_bracket(at) == Some(value) || !has_blank(tokens, value, at));
    if !is_value {
        return None;
    }
    let repair = Repair::around(
        "write ",
        tokens.span(name),
        "=(..) with blanks between them",
    );
    tokens.warning(at, WarningKind::COLON, repair)
}

/// The warning for `x=$x+1` and `x=1+2`, at the value.
fn sum_warning(view: View<'_, '_>, at: usize) -> Option<Warning> {
    let tokens = view.tokens;
    let value = at.wrapping_add(2);
    if tokens.is(value, TokenKind::Word) {
        return constant_sum(view, value);
    }
    let name = value.wrapping_add(1);
    let rest = name.wrapping_add(2);
    let is_value = tokens.is(value, TokenKind::Dollar)
        && tokens.is(name, TokenKind::Name)
        && tokens.is(rest.wrapping_sub(1), TokenKind::FreeCaret)
        && tokens.is(rest, TokenKind::Word);
    let is_same = tokens.text(name) == tokens.text(at);
    if !is_value || !computes(tokens.text(rest), is_same) {
        return None;
    }
    let found = tokens.span(rest);
    let middle = (found.start as usize).saturating_add(1);
    let parts = [
        tokens.span_to(value, name),
        span(found.start as usize, middle),
        span(middle, found.stop as usize),
    ];
    tokens.warning(
        value,
        WarningKind::ARITHMETIC,
        Repair::new(["write `{expr ", " ", " ", "}"], parts),
    )
}

/// The warning for `x=$x++` and `x=$a+$b`, at the value.
fn value_sum(tokens: Tokens<'_>, at: usize) -> Option<Warning> {
    let value = at.wrapping_add(2);
    let rest = value.wrapping_add(3);
    let is_joined = tokens.is(value, TokenKind::Dollar)
        && tokens.is(rest.wrapping_sub(2), TokenKind::Name)
        && tokens.is(rest.wrapping_sub(1), TokenKind::FreeCaret);
    if !is_joined {
        return None;
    }
    let right = rest.wrapping_add(2);
    let adds = tokens.is_word(rest, "+")
        && tokens.is(right.wrapping_sub(1), TokenKind::FreeCaret)
        && tokens.is(right, TokenKind::Dollar);
    let left = tokens.span_to(value, value.wrapping_add(1));
    let repair = if adds {
        let right = tokens.span_to(right, right.wrapping_add(1));
        Repair::pair(["write `{expr ", " + ", "}"], left, right)
    } else if tokens.is_word(rest, "++") {
        Repair::around("write `{expr ", left, " + 1}")
    } else if tokens.is_word(rest, "--") {
        Repair::around("write `{expr ", left, " - 1}")
    } else {
        return None;
    };
    tokens.warning(value, WarningKind::ARITHMETIC, repair)
}

/// The warning for `ifs='\n'` and `newline='\n'`.
fn escape_warning(tokens: Tokens<'_>, at: usize) -> Option<Warning> {
    let value = at.wrapping_add(2);
    let text = tokens.text(value);
    let is_escape = tokens.is(value, TokenKind::Quoted)
        && tokens.is_one_of(at, &["ifs", "newline", "nl", "tab"])
        && (has(text, b"\\n") || has(text, b"\\t"));
    if !is_escape {
        return None;
    }
    let repair = Repair::of("write a newline or a tab itself, in quotes");
    tokens.warning(value, WarningKind::BACKSLASH, repair)
}

/// The warning for `@ x = a`, as another shell computes.
fn lost_warning(tokens: Tokens<'_>, at: usize) -> Option<Warning> {
    let next = after_value(tokens, at)?;
    if !tokens.is_word(at.wrapping_sub(1), "@") || !tokens.ends_command(next) {
        return None;
    }
    let value = tokens.span_to(at.wrapping_add(2), next.wrapping_sub(1));
    let repair = Repair::pair(["write ", "=", ""], tokens.span(at), value);
    tokens.warning(at, WarningKind::LOST, repair)
}

/// The warning for an argument of `expr` that is a sum without blanks, as in `expr $x+1` or `expr 1+2`, at its
/// operator or its text.
pub(crate) fn sum_of_expr(tokens: Tokens<'_>, at: usize) -> Option<Warning> {
    if !tokens.is_in_command(at, "expr") {
        return None;
    }
    let is_joined = tokens.is(at.wrapping_sub(1), TokenKind::FreeCaret)
        && tokens.is(at.wrapping_sub(3), TokenKind::Dollar);
    let text = tokens.text(at);
    if !is_sum_of_numbers(text) && !(is_joined && computes(text, true)) {
        return None;
    }
    let repair = Repair::of("write blanks around each operator and number: `{expr $x + 1}");
    tokens.warning(at, WarningKind::ARITHMETIC, repair)
}

/// Whether a text is a `+` and a number, or, after the variable that is assigned, any operator and a number.
fn computes(text: &[u8], is_same: bool) -> bool {
    let Some((operator, number)) = text.split_at_checked(1) else {
        return false;
    };
    let is_operator = operator == b"+".as_slice() || is_same && has_any(b"-*/%", operator);
    is_operator && is_number(number)
}

/// Whether a text is two numbers with an operator between them.
fn is_sum_of_numbers(text: &[u8]) -> bool {
    let place = find_any(text, b"+-*/%").unwrap_or(0);
    let (low, rest) = text.split_at(place.min(text.len()));
    is_number(low) && computes(rest, true)
}

/// The warning for a value such as `1+2` or `2*3`, or `i+1` with a variable `i`.
fn constant_sum(view: View<'_, '_>, value: usize) -> Option<Warning> {
    let tokens = view.tokens;
    let text = tokens.text(value);
    let place = find_any(text, b"+*")?;
    let (low, rest) = text.split_at(place.min(text.len()));
    let is_product = rest.starts_with(b"*");
    let is_name = view.overview.has_variable(low) && !is_product;
    if !is_name && !is_number(low) || !computes(rest, true) {
        return None;
    }
    let found = tokens.span(value);
    let middle = (found.start as usize).saturating_add(place);
    let words = [
        if is_name {
            "write `{expr $"
        } else {
            "write `{expr "
        },
        if is_product { " '*' " } else { " + " },
        "}",
    ];
    let repair = Repair::pair(
        words,
        span(found.start as usize, middle),
        span(middle.saturating_add(1), found.stop as usize),
    );
    tokens.warning(value, WarningKind::ARITHMETIC, repair)
}

/// The first token after the value of the assignment to the word at this index, if that is one word or a variable.
fn after_value(tokens: Tokens<'_>, at: usize) -> Option<usize> {
    let value = at.wrapping_add(2);
    match tokens.kind(value)? {
        TokenKind::Word | TokenKind::Quoted => Some(value.wrapping_add(1)),
        TokenKind::Dollar => Some(value.wrapping_add(2)),
        _ => None,
    }
}

/// The warning for `x=$x + 1`, whose operator is called.
fn operator_warning(tokens: Tokens<'_>, at: usize) -> Option<Warning> {
    let value = at.wrapping_add(2);
    let operator = after_value(tokens, at)?;
    if !tokens.is_one_of(operator, &["+", "-", "*", "/", "%"]) {
        return None;
    }
    let left = tokens.span_to(value, operator.wrapping_sub(1));
    let right = tokens.span_to(operator.wrapping_add(1), tokens.command_end(operator));
    let repair = if tokens.is(value, TokenKind::Quoted) {
        Repair::of("write a caret between two texts to join them")
    } else if tokens.is_word(operator, "*") {
        Repair::pair(["write `{expr ", " '*' ", "}"], left, right)
    } else {
        let words = ["write `{expr ", " ", " ", "}"];
        Repair::new(words, [left, tokens.span(operator), right])
    };
    tokens.warning(operator, WarningKind::ARITHMETIC, repair)
}

/// The warning for `x=[a b]`.
fn brackets_warning(tokens: Tokens<'_>, at: usize) -> Option<Warning> {
    let value = at.wrapping_add(2);
    let text = tokens.text(value);
    let next = after_value(tokens, at)?;
    if !text.starts_with(b"[") || text.contains(&b']') || tokens.ends_command(next) {
        return None;
    }
    let end = tokens.command_end(value);
    let closing = usize::from(tokens.text(end).ends_with(b"]"));
    let found = tokens.span_to(value, end);
    let inner = span(
        (found.start as usize).saturating_add(1),
        (found.stop as usize).saturating_sub(closing),
    );
    let repair = Repair::pair(["write ", "=(", ")"], tokens.span(at), inner);
    tokens.warning(value, WarningKind::LIST, repair)
}

/// The warning for a value before a word that is called, if it is not meant for that command: after `x =`, in
/// `X= command word`, whose value is the command, and in `x=$x word`, whose value changes nothing.
fn value_warning(tokens: Tokens<'_>, at: usize) -> Option<Warning> {
    let equals = at.wrapping_add(1);
    let value = equals.wrapping_add(1);
    let next = after_value(tokens, at)?;
    let has_command = matches!(
        tokens.kind(next),
        Some(TokenKind::Word | TokenKind::Quoted | TokenKind::Dollar)
    );
    if !has_command {
        return None;
    }
    let name = tokens.span(at);
    let is_same = tokens.is(value, TokenKind::Dollar)
        && tokens.text(value.wrapping_add(1)) == tokens.text(at);
    let all = tokens.span_to(value, tokens.command_end(value));
    if is_same || !tokens.touches_next(at) {
        let repair = Repair::pair(["write ", "=(", ")"], name, all);
        return tokens.warning(next, WarningKind::LIST, repair);
    }
    if tokens.touches_next(equals) || !tokens.is(value, TokenKind::Word) {
        return None;
    }
    let repair = Repair::pair(["write ", "='' ", ""], name, all);
    tokens.warning(at, WarningKind::BLANK, repair)
}
