//! The rules for conditions.

use crate::bytes::{is_number, is_plain};
use crate::lexed::script_tokens::Tokens;
use crate::rules::View;
use crate::rules::commands::is_number_at;
use crate::rules::functions::last_before;
use crate::rules::words::hash_warning;
use crate::warnings::kind::WarningKind;
use crate::warnings::repair::Repair;
use crate::warnings::warning::Warning;
use rc_lexer::{Span, TokenKind};

/// The operators of `test` that compare numbers.
pub(crate) const COMPARISONS: [&str; 8] = ["-eq", "-ne", "-lt", "-le", "-gt", "-ge", "-nt", "-ot"];

/// Operators of other languages that match a value with another, or with a pattern.
const MATCHES: [&str; 8] = ["~", "eq", "is", "in", "-like", "-match", "-contains", "-in"];

/// Words that join conditions in other languages, or the arguments of one `test`.
const JOINING: [&str; 6] = ["and", "or", "-a", "-o", "-and", "-or"];

/// The warning for a condition that begins with a name, where its value is meant, at its parenthesis.
pub(crate) fn condition_warning(view: View<'_, '_>, open: usize) -> Option<Warning> {
    let tokens = view.tokens;
    let name = open.wrapping_add(1);
    let next = name.wrapping_add(1);
    let is_head = tokens.is_one_of(open.wrapping_sub(1), &["if", "while"])
        && tokens.begins_command(open.wrapping_sub(1));
    if !is_head || !tokens.is(name, TokenKind::Word) {
        return None;
    }
    let text = tokens.text(name);
    if tokens.is(next, TokenKind::RightParen) {
        let is_variable = view.overview.has_variable(text) && !view.overview.has_function(text);
        let repair = Repair::around("write ~ $", tokens.span(name), " and a pattern");
        let found = tokens.warning(name, WarningKind::CONSTANT, repair);
        return if is_variable { found } else { None };
    }
    if !tokens.is_one_of(next, &COMPARISONS) || !is_plain(text, b"_") {
        return None;
    }
    let rest = tokens.span_to(name, tokens.command_end(name));
    let repair = Repair::around("write test $", rest, "");
    tokens.warning(name, WarningKind::TEST, repair)
}

/// The warning for `test -n` with the output of a command, at its backquote.
pub(crate) fn output_test(tokens: Tokens<'_>, at: usize) -> Option<Warning> {
    let start = tokens.command_start(at);
    let option = at.wrapping_sub(1);
    if !tokens.is_one_of(start, &["test", "["]) || !tokens.is_one_of(option, &["-n", "-z"]) {
        return None;
    }
    let repair = Repair::of("assign the output before, as in x=`{..}, and compare: ~ $\"x ''");
    tokens.warning(at, WarningKind::UNQUOTED, repair)
}

/// The warning for an `if` that begins a command.
pub(crate) fn if_warning(tokens: Tokens<'_>, at: usize) -> Option<Warning> {
    let not = at.wrapping_add(1);
    if !tokens.is_word(not, "not") {
        return None;
    }
    let open = not.wrapping_add(1);
    if tokens.is(open, TokenKind::LeftParen) {
        let inner = match tokens.closing(open) {
            Some(close) => tokens.span_to(open, close),
            None => tokens.span(open),
        };
        let repair = Repair::around("write if(! ..), where .. is ", inner, "");
        return tokens.warning(at, WarningKind::NOT, repair);
    }
    if !is_changed(tokens, at) {
        return None;
    }
    let repair = Repair::of("put the inner if into @{..}, or keep its result in a variable");
    tokens.warning(at, WarningKind::CHANGED, repair)
}

/// Whether an `if not` begins here whose flag is set by an `if` inside the braces of the `if not` before.
fn is_changed(tokens: Tokens<'_>, at: usize) -> bool {
    let Some(close) = last_before(tokens, at) else {
        return false;
    };
    match (tokens.kind(close), tokens.open_bracket(close)) {
        (Some(TokenKind::RightBrace), Some(open)) => {
            tokens.is_word(open.wrapping_sub(1), "not")
                && matches!(tokens.before(close).condition.get(), Some(condition) if condition > open)
        }
        _ => false,
    }
}

/// The warning for a word that is called as a command, and belongs to `test` or to arithmetic.
pub(crate) fn tested_warning(tokens: Tokens<'_>, at: usize) -> Option<Warning> {
    let text = tokens.text(at);
    if text.ends_with(b"++") || text.ends_with(b"--") && text.len() > 2 {
        return step_warning(tokens, at);
    }
    if is_number(text)
        && let found @ Some(_) = called_sum(tokens, at, at)
    {
        return found;
    }
    if is_number(text) && tokens.is_in_condition(at) {
        let repair = Repair::of("write true or false, and while() for a loop without an end");
        return tokens.warning(at, WarningKind::TEST, repair);
    }
    called_test(tokens, at, text)
}

/// Whether the word at this index joins conditions elsewhere, and the next one begins another condition.
pub(crate) fn joins_commands(tokens: Tokens<'_>, at: usize) -> bool {
    tokens.is_one_of(at, &JOINING)
        && tokens.is_one_of(at.wrapping_add(1), &["test", "[", "~"])
        && tokens.is_one_of(tokens.command_start(at), &["test", "[", "~"])
}

/// The warning for `test -f a and test -f b`, at the word between.
pub(crate) fn joined_warning(tokens: Tokens<'_>, at: usize) -> Option<Warning> {
    if !joins_commands(tokens, at) {
        return None;
    }
    let left = tokens.span_to(tokens.command_start(at), at.wrapping_sub(1));
    let right = tokens.span_to(at.wrapping_add(1), tokens.command_end(at));
    let is_or = tokens.is_one_of(at, &["or", "-o", "-or"]);
    let words = ["write ", if is_or { " || " } else { " && " }, ""];
    tokens.warning(at, WarningKind::JOINED, Repair::pair(words, left, right))
}

/// The warning for `[ -f x]`, whose last bracket belongs to the word before it.
fn unclosed_test(tokens: Tokens<'_>, at: usize) -> Option<Warning> {
    let last = tokens.command_end(at);
    let is_joined = tokens.text(last).len() > 1
        || matches!(tokens.kind_before(last), Some(TokenKind::FreeCaret));
    let ends = tokens.is(last, TokenKind::Word) && tokens.text(last).ends_with(b"]");
    if !ends || !is_joined || !tokens.is_word(at, "[") {
        return None;
    }
    let mut rest = tokens.span_to(at.wrapping_add(1), last);
    rest.stop = rest.stop.saturating_sub(1);
    tokens.warning(
        last,
        WarningKind::NO_BRACKET,
        Repair::around("write [ ", rest, " ]"),
    )
}

/// The warning for an option or a bracket of `test` that is called as a command.
fn called_test(tokens: Tokens<'_>, at: usize, text: &[u8]) -> Option<Warning> {
    let mut rest = tokens.span_to(at, tokens.command_end(at));
    if text.len() == 2 && text.starts_with(b"-") && is_plain(text, b"-") {
        let repair = Repair::around("write test ", rest, "");
        return tokens.warning(at, WarningKind::TEST, repair);
    }
    if !text.starts_with(b"[") || tokens.is_one_of(at, &["[", "[["]) {
        return unclosed_test(tokens, at);
    }
    rest.start = rest.start.saturating_add(1);
    tokens.warning(at, WarningKind::TEST, Repair::around("write [ ", rest, ""))
}

/// The warning for `x++` or `x--`.
fn step_warning(tokens: Tokens<'_>, at: usize) -> Option<Warning> {
    let mut name = tokens.span(at);
    name.stop = name.stop.saturating_sub(2);
    tokens.warning(
        at,
        WarningKind::ARITHMETIC,
        step_repair(name, tokens.text(at)),
    )
}

/// The warning for a command that begins with a value, at its `$`.
pub(crate) fn value_warning(view: View<'_, '_>, at: usize) -> Option<Warning> {
    let tokens = view.tokens;
    if !tokens.begins_command(at) {
        return None;
    }
    let next = at.wrapping_add(2);
    if tokens.is(next, TokenKind::Equals) {
        return assigned_value(view, at);
    }
    if is_status(tokens, at) {
        return tokens.warning(at, WarningKind::STATUS, Repair::of("write ~ $status ''"));
    }
    if tokens.is_in_condition(at)
        && let found @ Some(_) = condition_value(view, at)
    {
        return found;
    }
    let is_count = tokens.is(at, TokenKind::DollarCount);
    if !is_count && !tokens.is_one_of(next, &COMPARISONS) {
        return first_of!(
            called_sum(tokens, at, at.wrapping_add(1)),
            stepped_value(tokens, at)
        );
    }
    let command = tokens.span_to(at, tokens.command_end(at));
    let repair = Repair::around(
        "write test ",
        command,
        ", with -gt or the like between numbers",
    );
    tokens.warning(at, WarningKind::TEST, repair)
}

/// The warning for `$x + 1` or `2 * 3` as a command, whose first number has its last token at the second index.
fn called_sum(tokens: Tokens<'_>, at: usize, last: usize) -> Option<Warning> {
    let operator = last.wrapping_add(1);
    let number = operator.wrapping_add(1);
    let is_sum = tokens.is_one_of(operator, &["+", "-", "*", "/", "%"])
        && is_number_at(tokens, number)
        && tokens.ends_command(number.wrapping_add(1));
    if !is_sum {
        return None;
    }
    let left = tokens.span_to(at, last);
    let right = tokens.span(number);
    let repair = if tokens.is_word(operator, "*") {
        Repair::pair(["write expr ", " '*' ", ""], left, right)
    } else {
        Repair::new(
            ["write expr ", " ", " ", ""],
            [left, tokens.span(operator), right],
        )
    };
    tokens.warning(operator, WarningKind::ARITHMETIC, repair)
}

/// The warning for `$x++` as a command.
fn stepped_value(tokens: Tokens<'_>, at: usize) -> Option<Warning> {
    let step = at.wrapping_add(3);
    let is_step = tokens.is(step.wrapping_sub(1), TokenKind::FreeCaret)
        && tokens.is_one_of(step, &["++", "--"]);
    if !is_step {
        return None;
    }
    let name = tokens.span(at.wrapping_add(1));
    tokens.warning(
        at,
        WarningKind::ARITHMETIC,
        step_repair(name, tokens.text(step)),
    )
}

/// What to write to add 1 to a variable of this name, or to subtract it.
fn step_repair(name: Span, step: &[u8]) -> Repair {
    let last = if step.ends_with(b"+") {
        " + 1}"
    } else {
        " - 1}"
    };
    Repair::pair(["write ", "=`{expr $", last], name, name)
}

/// The warning for a value in a condition that is a number, or before an operator of another language, at its `$`.
fn condition_value(view: View<'_, '_>, at: usize) -> Option<Warning> {
    let tokens = view.tokens;
    let next = at.wrapping_add(2);
    let value = tokens.span_to(at, at.wrapping_add(1));
    let rest = tokens.span_to(next.wrapping_add(1), tokens.command_end(next));
    let repair = if tokens.is_one_of(next, &MATCHES) {
        Repair::pair(["write ~ ", " ", ""], value, rest)
    } else if tokens.is_one_of(next, &["-notlike", "-notmatch", "-notcontains", "-notin"]) {
        Repair::pair(["write ! ~ ", " ", ""], value, rest)
    } else if tokens.is_one_of(next, &["ne", "lt", "le", "gt", "ge"]) {
        Repair::around("write test ", value, " -ne .., -lt .. or the like")
    } else if tokens.ends_command(next)
        && view.overview.has_number(tokens.text(at.wrapping_add(1)))
    {
        Repair::around("write ! ~ ", value, " 0")
    } else {
        return None;
    };
    tokens.warning(at, WarningKind::TEST, repair)
}

/// Whether the status at this index is all of a condition.
fn is_status(tokens: Tokens<'_>, at: usize) -> bool {
    tokens.is_in_condition(at)
        && tokens.text(at.wrapping_add(1)) == b"status".as_slice()
        && tokens.ends_command(at.wrapping_add(2))
}

/// The warning for `$x = a` in a condition, or with a variable that has no value.
fn assigned_value(view: View<'_, '_>, at: usize) -> Option<Warning> {
    let tokens = view.tokens;
    if !tokens.is_in_condition(at) {
        return unset_value(view, at);
    }
    let subject = tokens.span_to(at, at.wrapping_add(1));
    let first = at.wrapping_add(if tokens.is_word(at.wrapping_add(3), "~") {
        4
    } else {
        3
    });
    let value = tokens.span_to(first, tokens.command_end(at));
    let repair = Repair::pair(["write ~ ", " ", ""], subject, value);
    tokens.warning(at, WarningKind::ASSIGNS, repair)
}

/// The warning for `$x = a` with a variable to which the script gives no value, or a number, which is no name.
fn unset_value(view: View<'_, '_>, at: usize) -> Option<Warning> {
    let tokens = view.tokens;
    let name = at.wrapping_add(1);
    let text = tokens.text(name);
    let may_have_name = view.overview.has_variable(text) && !view.overview.has_number(text);
    if is_number(text) || text == b"*".as_slice() || may_have_name {
        return None;
    }
    let value = tokens.span(name.wrapping_add(2));
    let repair = Repair::pair(["write ", "=", ""], tokens.span(name), value);
    tokens.warning(at, WarningKind::NAME, repair)
}

/// The warning for `x = a` as a condition, at its `x`.
pub(crate) fn assigned_condition(tokens: Tokens<'_>, at: usize) -> Option<Warning> {
    let value = at.wrapping_add(2);
    let end = tokens.command_end(at);
    let last = value.wrapping_add(usize::from(tokens.is(value, TokenKind::Dollar)));
    let is_only = tokens.is(end.wrapping_add(1), TokenKind::RightParen)
        && end == last
        && tokens.is_in_condition(at)
        && tokens.is(at.wrapping_sub(1), TokenKind::LeftParen);
    let is_text = matches!(
        tokens.kind(value),
        Some(TokenKind::Word | TokenKind::Quoted | TokenKind::Dollar)
    );
    if !is_only || !is_text {
        return None;
    }
    let repair = Repair::pair(
        ["write ~ $", " ", ""],
        tokens.span(at),
        tokens.span_to(value, end),
    );
    tokens.warning(at, WarningKind::ASSIGNS, repair)
}

/// The warning for `test` with the status, or with a value that can be no word, at the name of the variable.
pub(crate) fn test_warning(tokens: Tokens<'_>, at: usize) -> Option<Warning> {
    let start = tokens.command_start(at);
    let next = at.wrapping_add(1);
    let is_status = tokens.text(at) == b"status".as_slice();
    if tokens.is_word(start, "~") && is_status && tokens.is_word(next, "0") {
        return tokens.warning(next, WarningKind::STATUS, Repair::of("write ~ $status ''"));
    }
    if !tokens.is_one_of(start, &["test", "["]) {
        return hash_warning(tokens, at);
    }
    if is_status && tokens.is_one_of(next, &COMPARISONS) {
        let repair = Repair::of(if tokens.is_word(next, "-eq") {
            "write ~ $status ''"
        } else {
            "write ! ~ $status ''"
        });
        return tokens.warning(at, WarningKind::STATUS, repair);
    }
    unquoted_warning(tokens, at)
}

/// The warning for `test -n $x`, at the name.
fn unquoted_warning(tokens: Tokens<'_>, at: usize) -> Option<Warning> {
    let option = at.wrapping_sub(2);
    let name = tokens.span(at);
    if !tokens.is(at.wrapping_sub(1), TokenKind::Dollar) {
        return None;
    }
    let repair = if tokens.is_word(option, "-z") {
        Repair::around("write ~ $\"", name, " ''")
    } else if tokens.is_word(option, "-n") {
        Repair::around("write ! ~ $\"", name, " ''")
    } else {
        return None;
    };
    tokens.warning(at, WarningKind::UNQUOTED, repair)
}
