//! The probable cause of a token that no script can have at its place.

use crate::bytes::{after, before, find_any, has};
use crate::causes::advice::Advice;
use crate::foreign::foreign_form;
use crate::lexed::contexts::contexts_of;
use crate::lexed::script_tokens::{ORDER_MARK, Tokens};
use rc_lexer::{Token, TokenKind};
use std::alloc::{AllocError, Global};

/// The words that declare a variable in other shells.
const DECLARATIONS: [&str; 14] = [
    "export", "local", "readonly", "declare", "typeset", "set", "setenv", "const", "float", "int",
    "integer", "my", "our", "var",
];

/// The advice for the token at this index of a script with these tokens, which no script can have there; past the last
/// token, for the end of the script.
pub fn advice_at(
    alloc: Global,
    script: &[u8],
    all: &[Token],
    at: usize,
) -> Result<Option<Advice>, AllocError> {
    let contexts = contexts_of(alloc, script, all)?;
    let tokens = Tokens {
        script,
        all,
        contexts: &contexts,
    };
    Ok(for_token(tokens, at))
}

fn for_token(tokens: Tokens<'_>, at: usize) -> Option<Advice> {
    match tokens.kind(at) {
        None => unclosed(tokens, at)
            .or(without_operand(tokens, at))
            .or(after_last(tokens, at))
            .or(incomplete(tokens, at)),
        Some(kind) => carriage_return(tokens, at)
            .or(by_last(tokens, at))
            .or(order_mark(tokens, at))
            .or(for_kind(tokens, at, kind))
            .or(incomplete(tokens, at)),
    }
}

/// The advice for a token of the first command of a script, if that begins with a byte order mark.
fn order_mark(tokens: Tokens<'_>, at: usize) -> Option<Advice> {
    let is_marked = tokens.command_start(at) == 0 && tokens.script.starts_with(ORDER_MARK);
    is_marked.then_some(Advice::ORDER_MARK)
}

/// The advice for an end of the script after an `=`.
fn after_last(tokens: Tokens<'_>, at: usize) -> Option<Advice> {
    tokens
        .is(at.wrapping_sub(1), TokenKind::Equals)
        .then_some(Advice::NO_VALUE)
}

/// The advice for an end of the script at which a bracket is open.
fn unclosed(tokens: Tokens<'_>, at: usize) -> Option<Advice> {
    let bracket = tokens.open_bracket(at)?;
    Some(Advice::unclosed(tokens.line(bracket)))
}

/// The advice for a token with a carriage return at one of its ends.
fn carriage_return(tokens: Tokens<'_>, at: usize) -> Option<Advice> {
    let text = tokens.text(at);
    (text.starts_with(b"\r") || text.ends_with(b"\r")).then_some(Advice::CARRIAGE_RETURN)
}

/// The advice that the token before this one suggests.
fn by_last(tokens: Tokens<'_>, at: usize) -> Option<Advice> {
    let before = at.wrapping_sub(1);
    match tokens.kind(before)? {
        TokenKind::Backquote => Some(for_backquote(tokens, at)),
        TokenKind::Redirection(_, _) => after_redirection(tokens.kind(at)?),
        TokenKind::Equals if !tokens.is(at, TokenKind::Equals) => after_equals(tokens.kind(at)?),
        TokenKind::Bar(_) if tokens.is(at, TokenKind::Ampersand) => Some(Advice::BOTH_OUTPUTS),
        TokenKind::Word if tokens.is_one_of(before, &["if", "while", "for"]) => {
            tokens.begins_command(before).then_some(Advice::HEAD)
        }
        _ => None,
    }
}

/// The advice for what follows a backquote in place of braces.
fn for_backquote(tokens: Tokens<'_>, at: usize) -> Advice {
    let is_text = matches!(tokens.kind(at), Some(TokenKind::Word | TokenKind::Quoted));
    let has_braces = tokens.is(at.wrapping_add(1), TokenKind::LeftBrace);
    if tokens.is(at, TokenKind::Backquote) || is_text && has_braces {
        Advice::LISTED_OUTPUT
    } else if tokens.is(at, TokenKind::Newline) {
        Advice::CONTINUATION
    } else {
        Advice::BACKQUOTE
    }
}

/// The advice for a token of this kind in place of a file.
fn after_redirection(kind: TokenKind) -> Option<Advice> {
    match kind {
        TokenKind::Ampersand => Some(Advice::COPY),
        TokenKind::LeftBrace => Some(Advice::PROCESS),
        TokenKind::Bar(_) => Some(Advice::CLOBBER),
        TokenKind::Redirection(_, _) => Some(Advice::READ_WRITE),
        _ => None,
    }
}

/// The advice for a token of this kind in place of a value.
fn after_equals(kind: TokenKind) -> Option<Advice> {
    match kind {
        TokenKind::Newline | TokenKind::Semicolon | TokenKind::RightBrace => Some(Advice::NO_VALUE),
        TokenKind::RightParen | TokenKind::AndAnd | TokenKind::OrOr => Some(Advice::NO_VALUE),
        _ => None,
    }
}

/// The advice for a token of this kind.
fn for_kind(tokens: Tokens<'_>, at: usize, kind: TokenKind) -> Option<Advice> {
    match kind {
        TokenKind::Equals => Some(for_equals(tokens, at)),
        TokenKind::BareDollar => for_dollar(tokens, at),
        TokenKind::BareHere => Some(Advice::HERE_TEXT),
        TokenKind::LeftBrace => for_left_brace(tokens, at),
        TokenKind::RightParen => for_right_paren(tokens, at),
        TokenKind::RightBrace => for_closing(tokens, at),
        TokenKind::Word | TokenKind::Dollar | TokenKind::Quoted => for_word(tokens, at),
        TokenKind::AndAnd | TokenKind::OrOr | TokenKind::Bar(_) => {
            in_list(tokens, at).or(for_operator(tokens, at))
        }
        TokenKind::Semicolon | TokenKind::Ampersand => in_list(tokens, at)
            .or(in_loop(tokens, at))
            .or(without_operand(tokens, at)),
        TokenKind::Redirection(_, _) => in_comparison(tokens, at).or(without_operand(tokens, at)),
        _ => without_operand(tokens, at),
    }
}

/// The advice for an `=` where no assignment can stand.
fn for_equals(tokens: Tokens<'_>, at: usize) -> Advice {
    let before = at.wrapping_sub(1);
    let start = tokens.command_start(at);
    if is_counting(tokens, at) {
        return Advice::COUNTING;
    }
    if tokens.is_one_of(start, &DECLARATIONS) {
        return Advice::DECLARATION;
    }
    if tokens.is_word(start, "alias") {
        return Advice::ALIAS;
    }
    if tokens.is_word(start, "let") {
        return Advice::ARITHMETIC;
    }
    if tokens.is(before, TokenKind::RightParen) {
        return Advice::PLACE_EQUALS;
    }
    around_equals(tokens, at, start)
}

/// The advice for an `=` by the texts beside it.
fn around_equals(tokens: Tokens<'_>, at: usize, start: usize) -> Advice {
    let before = at.wrapping_sub(1);
    let next = at.wrapping_add(1);
    let text = tokens.text(before);
    if text.ends_with(b"!") {
        Advice::NOT_EQUAL
    } else if tokens.is(before, TokenKind::Equals) || tokens.is(next, TokenKind::Equals) {
        Advice::EQUAL
    } else if text.ends_with(b":") {
        Advice::COLON_EQUALS
    } else if tokens.is_one_of(before, &["+", "-"]) {
        Advice::PLUS_EQUALS
    } else if tokens.is_word(before, "?") {
        Advice::UNLESS_SET
    } else if tokens.text(next).starts_with(b"~") {
        Advice::MATCH_OPERATOR
    } else if tokens.is_one_of(start, &["test", "["]) {
        Advice::TEST_EQUALS
    } else {
        Advice::EQUALS
    }
}

/// Whether the token at this index is in the head of a loop that counts.
fn is_counting(tokens: Tokens<'_>, at: usize) -> bool {
    let Some(open) = tokens.open_bracket(at) else {
        return false;
    };
    let before = open.wrapping_sub(1);
    tokens.is_word(before, "for")
        || tokens.is(before, TokenKind::LeftParen) && tokens.is_word(before.wrapping_sub(1), "for")
}

/// The advice for a `$` without a name, by what follows it.
fn for_dollar(tokens: Tokens<'_>, at: usize) -> Option<Advice> {
    let next = at.wrapping_add(1);
    match tokens.kind(next) {
        Some(TokenKind::LeftBrace) => Some(for_braced(tokens, next)),
        Some(TokenKind::LeftParen) => match tokens.kind(next.wrapping_add(1)) {
            Some(TokenKind::LeftParen) => Some(Advice::ARITHMETIC),
            _ => Some(Advice::SUBSTITUTION),
        },
        _ => for_parameter(tokens, at),
    }
}

/// The advice for `${`, whose brace is at this index.
fn for_braced(tokens: Tokens<'_>, brace: usize) -> Advice {
    let inner = inside_braces(tokens, brace);
    if inner.starts_with(b"#") {
        return Advice::LENGTH;
    }
    if inner.starts_with(b"!") {
        return Advice::INDIRECT;
    }
    match find_any(inner, b":%#/[^,-+?=") {
        Some(place) => after_name(after(inner, place)),
        None => Advice::BRACED_NAME,
    }
}

/// The advice for what follows a name in braces.
fn after_name(rest: &[u8]) -> Advice {
    match rest {
        [b':', b'0'..=b'9' | b' ', ..] => Advice::PART,
        [b':' | b'-' | b'+' | b'?' | b'=', ..] => Advice::DEFAULT,
        [b'[', ..] => Advice::MEMBER,
        [b'^' | b',', ..] => Advice::LETTERS,
        _ => Advice::TRIMMED,
    }
}

/// The advice for a `$` of a parameter of other shells.
fn for_parameter(tokens: Tokens<'_>, at: usize) -> Option<Advice> {
    let next = at.wrapping_add(1);
    if tokens.text(at) == b"$#".as_slice() {
        return Some(Advice::PARAMETER);
    }
    if !tokens.touches_next(at) {
        return Some(Advice::LONE_DOLLAR);
    }
    let text = tokens.text(next);
    Some(if text.starts_with(b"?") {
        Advice::LAST_STATUS
    } else if text.starts_with(b"@") {
        Advice::PARAMETER
    } else if text.starts_with(b"!") {
        Advice::LAST_JOB
    } else if text.starts_with(b"$") {
        Advice::PROCESS_NUMBER
    } else if text.starts_with(b"^") {
        Advice::FLAT
    } else if text.starts_with(b"[") {
        Advice::ARITHMETIC
    } else if text.starts_with(b"<") {
        Advice::LINE_READ
    } else {
        Advice::LONE_DOLLAR
    })
}

fn for_left_brace(tokens: Tokens<'_>, at: usize) -> Option<Advice> {
    let has_parentheses = tokens.is(at.wrapping_sub(1), TokenKind::RightParen)
        && tokens.is(at.wrapping_sub(2), TokenKind::LeftParen);
    if has_parentheses || tokens.is_in_command(at, "function") {
        return Some(Advice::FUNCTION);
    }
    let start = tokens.command_start(at);
    if tokens.is_one_of(start, &["else", "elif"]) {
        return Some(Advice::ELSE);
    }
    if let Some(instead) = foreign_form(tokens.text(start)) {
        return Some(Advice::foreign(instead));
    }
    let advice = for_braces(tokens, at).or(in_head(tokens, at));
    Some(advice.unwrap_or(Advice::BRACE))
}

/// The advice for a brace before which the head of a control form is not closed.
fn in_head(tokens: Tokens<'_>, at: usize) -> Option<Advice> {
    let open = tokens.open_bracket(at)?;
    let is_head = tokens.is_one_of(open.wrapping_sub(1), &["if", "while", "for", "switch"]);
    is_head.then_some(Advice::unclosed(tokens.line(open)))
}

/// The advice for braces among arguments that are no commands, by what is inside them.
fn for_braces(tokens: Tokens<'_>, at: usize) -> Option<Advice> {
    let inner = inside_braces(tokens, at);
    if inner.is_empty() {
        return Some(Advice::EMPTY_BRACES);
    }
    if has(inner, b"..") {
        return Some(Advice::SEQUENCE);
    }
    (inner.contains(&b',') && !inner.contains(&b' ')).then_some(Advice::ALTERNATIVES)
}

/// The text between the brace at this index and the next one of its line.
fn inside_braces<'a>(tokens: Tokens<'a>, at: usize) -> &'a [u8] {
    let stop = tokens.span(at).stop as usize;
    before(after(tokens.script, stop), b"}\n")
}

fn for_right_paren(tokens: Tokens<'_>, at: usize) -> Option<Advice> {
    if tokens.is_in_command(at, "case") {
        return Some(Advice::CASE);
    }
    for_closing(tokens, at)
}

/// The advice for a bracket that closes none, or another one.
fn for_closing(tokens: Tokens<'_>, at: usize) -> Option<Advice> {
    match tokens.open_bracket(at) {
        Some(bracket) => Some(Advice::unclosed(tokens.line(bracket))),
        None => Some(Advice::UNOPENED),
    }
}

/// The advice for an argument.
fn for_word(tokens: Tokens<'_>, at: usize) -> Option<Advice> {
    let before = at.wrapping_sub(1);
    if tokens.is(before, TokenKind::RightBrace) {
        return Some(after_braces(tokens, at));
    }
    let open = tokens.open_bracket(at)?;
    if tokens.is_word(open.wrapping_sub(1), "for") {
        return Some(Advice::FOR_IN);
    }
    let is_switch = tokens.is(open, TokenKind::LeftBrace)
        && tokens.is_in_command(open.wrapping_sub(1), "switch");
    is_switch.then_some(Advice::NO_CASE)
}

/// The advice for a word directly after braces.
fn after_braces(tokens: Tokens<'_>, at: usize) -> Advice {
    if tokens.is_one_of(at, &["else", "elif", "if"]) {
        return Advice::ELSE;
    }
    match foreign_form(tokens.text(at)) {
        Some(instead) => Advice::foreign(instead),
        None => Advice::AFTER_BRACES,
    }
}

/// The advice for an operator at the beginning of a line, in a case line or among words.
fn for_operator(tokens: Tokens<'_>, at: usize) -> Option<Advice> {
    match tokens.kind_before(at) {
        None | Some(TokenKind::Newline) => Some(Advice::LINE_END),
        _ if tokens.is_in_command(at, "case") => Some(Advice::PATTERNS),
        _ => among_words(tokens, at).or(without_operand(tokens, at)),
    }
}

/// The advice for an operator in a list of words.
fn among_words(tokens: Tokens<'_>, at: usize) -> Option<Advice> {
    let bracket = tokens.open_bracket(at)?;
    let is_list = tokens.is(bracket, TokenKind::LeftParen) && !tokens.is_in_condition(at);
    is_list.then_some(if tokens.is_in_command(bracket, "~") {
        Advice::PATTERNS
    } else {
        Advice::LISTED_COMMAND
    })
}

/// The advice for what follows an operator in place of a command.
fn without_operand(tokens: Tokens<'_>, at: usize) -> Option<Advice> {
    let is_new_line = tokens.is(at.wrapping_sub(1), TokenKind::Newline);
    let operator = at.wrapping_sub(1).wrapping_sub(usize::from(is_new_line));
    let is_missing = matches!(
        tokens.kind(operator),
        Some(TokenKind::AndAnd | TokenKind::OrOr | TokenKind::Bar(_))
    );
    is_missing.then_some(Advice::NO_OPERAND)
}

/// The advice for a token at which something that was begun lacks a part.
fn incomplete(tokens: Tokens<'_>, at: usize) -> Option<Advice> {
    let before = at.wrapping_sub(1);
    if tokens.is(at, TokenKind::Caret) || tokens.is(before, TokenKind::Caret) {
        return Some(Advice::LONE_CARET);
    }
    if matches!(tokens.kind(before), Some(TokenKind::Redirection(_, _))) {
        return Some(Advice::NO_FILE);
    }
    if tokens.is_word(before, "~") {
        return Some(Advice::NO_SUBJECT);
    }
    if tokens.is_word(at, "not") {
        return Some(Advice::NOT);
    }
    if tokens.is_one_of(before, &["!", "@"]) {
        return Some(Advice::NO_OPERAND);
    }
    if tokens.is_in_command(at, "switch") || tokens.is_in_command(before, "switch") {
        return Some(Advice::SWITCH);
    }
    tokens.begins_command(at).then_some(Advice::NO_COMMAND)
}

/// The advice for a `;` in the head of a loop.
fn in_loop(tokens: Tokens<'_>, at: usize) -> Option<Advice> {
    let bracket = tokens.open_bracket(at)?;
    tokens
        .is_word(bracket.wrapping_sub(1), "for")
        .then_some(Advice::FOR_IN)
}

/// The advice for a redirection in a list of words.
fn in_comparison(tokens: Tokens<'_>, at: usize) -> Option<Advice> {
    let bracket = tokens.open_bracket(at)?;
    matches!(tokens.kind(bracket), Some(TokenKind::LeftParen)).then_some(Advice::COMPARISON)
}

/// The advice for the end of a command in a list of words that is in place of a command.
fn in_list(tokens: Tokens<'_>, at: usize) -> Option<Advice> {
    let bracket = tokens.open_bracket(at)?;
    let is_list = matches!(tokens.kind(bracket), Some(TokenKind::LeftParen));
    (is_list && tokens.begins_command(bracket)).then_some(Advice::SUBSHELL)
}
