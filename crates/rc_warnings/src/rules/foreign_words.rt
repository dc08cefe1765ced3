//! The rules for words of other shells.

use crate::bytes::{find, is_plain};
use crate::lexed::script_tokens::Tokens;
use crate::rules::View;
use crate::warnings::kind::WarningKind;
use crate::warnings::repair::{NOWHERE, Repair};
use crate::warnings::warning::Warning;
use rc_lexer::TokenKind;

/// The warning for a command of other shells that is no function.
pub(crate) fn foreign_warning(view: View<'_, '_>, at: usize) -> Option<Warning> {
    let tokens = view.tokens;
    let text = tokens.text(at);
    let instead = match view.overview.foreign(text) {
        Some(instead) => instead,
        None if view.overview.has_function(text) => return None,
        None if is_cmdlet(text) => "a program that does the same",
        None if is_import(tokens, at) => "a . and the file",
        None if sets_flag(tokens, at) => "rc -e, whose option is the only one",
        None => return None,
    };
    let words = ["in place of ", ": ", instead];
    let repair = Repair::pair(words, tokens.span(at), NOWHERE);
    tokens.warning(at, WarningKind::FOREIGN, repair)
}

/// Whether a text is made as a command of PowerShell is, of a verb and a noun, as `Get-Process`.
fn is_cmdlet(text: &[u8]) -> bool {
    let Some(dash) = find(text, b"-") else {
        return false;
    };
    dash > 1
        && is_plain(text, b"-")
        && is_upper_at(text, 0)
        && !is_upper_at(text, 1)
        && is_upper_at(text, dash.saturating_add(1))
}

/// Whether a text has a letter in upper case at this place.
fn is_upper_at(text: &[u8], place: usize) -> bool {
    text.get(place).is_some_and(u8::is_ascii_uppercase)
}

/// Whether an option of Plan 9's shell is set or removed here, as in `flag e +`.
fn sets_flag(tokens: Tokens<'_>, at: usize) -> bool {
    tokens.is_word(at, "flag") && tokens.is_one_of(at.wrapping_add(2), &["+", "-"])
}

/// Whether names are imported here as in Python: `import a`, `import a, b` or `from a import b`.
fn is_import(tokens: Tokens<'_>, at: usize) -> bool {
    let next = at.wrapping_add(1);
    let end = next.wrapping_add(1);
    if tokens.is_word(at, "from") {
        return tokens.is_word(end, "import");
    }
    let text = tokens.text(next);
    tokens.is_word(at, "import")
        && tokens.is(next, TokenKind::Word)
        && is_plain(text, b"_,")
        && (tokens.ends_command(end) || text.ends_with(b","))
}

/// The warning for an `else` or an `if not` among the arguments of a command that an `if` runs.
pub(crate) fn inline_warning(tokens: Tokens<'_>, at: usize) -> Option<Warning> {
    let next = at.wrapping_add(1);
    let is_other = tokens.is_one_of(at, &["else", "elif"])
        || tokens.is_word(at, "if") && tokens.is_word(next, "not");
    if !is_other {
        return None;
    }
    let head = tokens.command_start(at).wrapping_sub(1);
    if !tokens.is(head, TokenKind::RightParen) || !tokens.closes_head(head) {
        return None;
    }
    let first = if tokens.is_word(at, "if") {
        next.wrapping_add(1)
    } else {
        next
    };
    let rest = tokens.span_to(first, tokens.command_end(at));
    let repair = Repair::around("write ; if not ", rest, "");
    tokens.warning(at, WarningKind::FOREIGN, repair)
}
